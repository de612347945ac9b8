//! Does one step of a script, and writes its line.
ghost use Rattle.std.specs.Prelude.{◌≡◌, ◌++◌, IfErr, OnOk};
ghost use Rattle.nm_script_lib.specs.MemStripe.{HasShape, IsInside};
ghost use Rattle.nm_script_lib.specs.RunErrors.{EndsRun};
ghost use Rattle.nm_script_lib.specs.Runs.{AddsLine};

use crate::mem_stripe::step as ask;
use crate::mirror_line::MirrorLine;
use crate::printing::{put_answer, put_fused, put_holds, put_loss};
use crate::run_error::RunError;
use crate::script_stripe::ScriptStripe;
use crate::state_line::put_state;
use crate::step::Step;
use std::alloc::Global;

/// Does one step, and adds its line to a text.
pub fn do_step(
    alloc: Global,
    mirror: &MirrorLine,
    running: &mut ScriptStripe,
    step: Step,
    text: &mut Vec<u8>,
) -> Result<(), RunError>
    requires shape { HasShape mirror.now running.old.stripe }
    requires inside { IsInside mirror.now step }
    ensures ok { OnOk result (AddsLine mirror.now step running.old running.new
        text.old.items text.new.items) }
    ensures shape { HasShape mirror.now running.new.stripe }
    ensures cause { IfErr result EndsRun }
{
    match step {
        Step::Ask(step) => {
            let answer = ask(alloc, mirror, running, step)?;
            put_answer(text, &answer)?;
        }
        Step::Fuse { leg, call } => {
            running.stripe.part(leg).set(call);
            put_fused(text)?;
        }
        Step::Peek { leg, block } => put_holds(text, running.shown(mirror, leg, block))?,
        Step::Lose { leg } => put_loss(text, running.lose(mirror, leg))?,
        Step::State => put_state(text, &running.stripe, mirror.legs)?,
    }
    Ok(())
}
