//! Runs the steps of a script, and writes their results.
ghost use Rattle.std.specs.Prelude.{◌≡◌, ℕ, ◌+◌, ◌<◌, ◌≤◌, List, ◌++◌, length, IfOk, IfErr, OnOk};
ghost use Rattle.std.specs.Prelude.{OnErr};
ghost use Rattle.std.specs.List.{flat_map, AllByRecursion};
ghost use Rattle.nm_script_lib.specs.MemStripe.{InRange, IsInside, FitOpening, HasShape};
ghost use Rattle.std.specs.Io.KnownBytes.{Appends};
ghost use Rattle.nm_script_lib.specs.Streams.{AppendsPrefix, FlushesPrefix};
ghost use Rattle.nm_script_lib.specs.Printing.{entry_line};
ghost use Rattle.nm_script_lib.specs.RunErrors.{EndsRun};
ghost use Rattle.nm_script_lib.specs.Runs.{RunsSteps, RunsPrefix, WholeRun, PartOfRun};
ghost use Rattle.nm_script_lib.specs.Runs.{JudgesHistory, Writes, history, loaded_line};
ghost use Rattle.nm_script_lib.specs.Runs.{opening_text};

use crate::do_step::do_step;
use crate::load::Load;
use crate::mem_stripe::open_script;
use crate::mirror_line::MirrorLine;
use crate::power_leg::PowerLeg;
use crate::printing::{put_counts, put_entry, put_legal, put_loaded, put_started};
use crate::run_error::RunError;
use crate::script::Script;
use crate::script_stripe::ScriptStripe;
use crate::step::Step;
use crate::streams::send;
use crate::write_error::WriteError;
use nm_replay::{Entry, check_indexed};
use nm_stripe::Stripe;
use std::alloc::Global;
use std::io::Write;

/// How many bytes are buffered before they are written.
const BUFFER_SIZE: usize = 1 << 16;

/// More bytes than a line has.
const LINE_SIZE: usize = 128;

/// Flushes the buffer once it holds 64 KiB.
fn flush_if_full<W: Write>(out: &mut W, buffer: &mut Vec<u8>) -> Result<(), WriteError>
    ensures ok { OnOk result (FlushesPrefix (W.contents out.old) (W.contents out.new)
        buffer.old.items buffer.new.items) }
    ensures err { OnErr result (AppendsPrefix (W.contents out.old) (W.contents out.new)
        buffer.old.items) }
{
    if buffer.len() < BUFFER_SIZE {
        return Ok(());
    }
    send(out, buffer)?;
    buffer.clear();
    Ok(())
}

/// Does the steps in order, and writes a line for each.
fn run_steps<W: Write>(
    alloc: Global,
    mirror: &MirrorLine,
    running: &mut ScriptStripe,
    steps: &[Step],
    out: &mut W,
    buffer: &mut Vec<u8>,
) -> Result<(), RunError>
    requires shape { HasShape mirror.now running.old.stripe }
    requires inside { AllByRecursion (IsInside mirror.now) steps.now }
    ensures ok { OnOk result (RunsSteps mirror.now steps.now running.old running.new (λ text.
        FlushesPrefix (W.contents out.old) (W.contents out.new)
        (buffer.old.items ++ text) buffer.new.items)) }
    ensures err { OnErr result (RunsPrefix mirror.now steps.now running.old (λ text.
        AppendsPrefix (W.contents out.old) (W.contents out.new) (buffer.old.items ++ text))) }
    ensures cause { IfErr result EndsRun }
{
    for asked in steps {
        do_step(alloc, mirror, running, *asked, buffer)?;
        flush_if_full(out, buffer)?;
    }
    Ok(())
}

/// Writes the lines of the entries.
fn put_entries<W: Write>(
    entries: &[Entry],
    out: &mut W,
    buffer: &mut Vec<u8>,
) -> Result<(), RunError>
    ensures ok { OnOk result (FlushesPrefix (W.contents out.old) (W.contents out.new)
        (buffer.old.items ++ flat_map entry_line entries.now) buffer.new.items) }
    ensures err { OnErr result (AppendsPrefix (W.contents out.old) (W.contents out.new)
        (buffer.old.items ++ flat_map entry_line entries.now)) }
    ensures cause { IfErr result EndsRun }
{
    for entry in entries {
        put_entry(buffer, entry)?;
        flush_if_full(out, buffer)?;
    }
    Ok(())
}

/// Writes a history after the buffer: its counts, its entries, and whether it is legal.
fn put_history<W: Write>(
    alloc: Global,
    entries: &[Entry],
    blocks: usize,
    total: u64,
    out: &mut W,
    buffer: &mut Vec<u8>,
) -> Result<(), RunError>
    ensures ok { OnOk result (JudgesHistory entries.now total (λ text.
        Appends (W.contents out.old) (W.contents out.new) (buffer.old.items ++ text))) }
    ensures err { OnErr result (JudgesHistory entries.now total (λ text.
        AppendsPrefix (W.contents out.old) (W.contents out.new) (buffer.old.items ++ text))) }
    ensures cause { IfErr result EndsRun }
{
    let is_legal = check_indexed(alloc, entries, blocks)?;
    put_counts(buffer, entries.len() as u64, total)?;
    put_entries(entries, out, buffer)?;
    put_legal(buffer, is_legal)?;
    send(out, buffer)?;
    Ok(())
}

/// Writes the buffer, and then the history that the stripe keeps.
fn finish<W: Write>(
    alloc: Global,
    stripe: &Stripe<PowerLeg>,
    blocks: usize,
    out: &mut W,
    buffer: &mut Vec<u8>,
) -> Result<(), RunError>
    ensures ok { OnOk result (Appends (W.contents out.old) (W.contents out.new)
        (buffer.old.items ++ history stripe.now)) }
    ensures err { OnErr result (AppendsPrefix (W.contents out.old) (W.contents out.new)
        (buffer.old.items ++ history stripe.now)) }
    ensures cause { IfErr result EndsRun }
{
    send(out, buffer)?;
    buffer.clear();
    // A sound stripe keeps a legal history.
    stripe.sound();
    let entries = stripe.entries(alloc)?;
    put_history(alloc, &entries, blocks, stripe.total(), out, buffer)?;
    if out.flush().is_err() {
        return Err(RunError::Output);
    }
    Ok(())
}

/// Writes a line for each load.
fn put_loads<W: Write>(loads: &[Load], out: &mut W, buffer: &mut Vec<u8>) -> Result<(), RunError>
    ensures ok { OnOk result (FlushesPrefix (W.contents out.old) (W.contents out.new)
        (buffer.old.items ++ flat_map loaded_line loads.now) buffer.new.items) }
    ensures err { OnErr result (AppendsPrefix (W.contents out.old) (W.contents out.new)
        (buffer.old.items ++ flat_map loaded_line loads.now)) }
    ensures cause { IfErr result EndsRun }
{
    for _load in loads {
        put_loaded(buffer)?;
        flush_if_full(out, buffer)?;
    }
    Ok(())
}

/// Writes the lines of an opening: one for each load and one for the start, if there is one.
fn put_opening<W: Write>(
    loads: &[Load],
    master: Option<u8>,
    out: &mut W,
    buffer: &mut Vec<u8>,
) -> Result<(), RunError>
    ensures ok { OnOk result (FlushesPrefix (W.contents out.old) (W.contents out.new)
        (buffer.old.items ++ opening_text loads.now master) buffer.new.items) }
    ensures err { OnErr result (AppendsPrefix (W.contents out.old) (W.contents out.new)
        (buffer.old.items ++ opening_text loads.now master)) }
    ensures cause { IfErr result EndsRun }
{
    let Some(_master) = master else {
        return Ok(());
    };
    put_loads(loads, out, buffer)?;
    put_started(buffer)?;
    flush_if_full(out, buffer)?;
    Ok(())
}

/// Runs a script on a stripe of memory legs: writes the lines of its opening, a line a step, and
/// then the history.
pub fn run<W: Write>(alloc: Global, script: &Script, out: &mut W) -> Result<(), RunError>
    requires range { InRange script.now.mirror }
    requires fits { FitOpening script.now.mirror script.now.loads.items script.now.master }
    requires inside { AllByRecursion (IsInside script.now.mirror) script.now.steps.items }
    ensures ok { OnOk result (Writes (WholeRun script.now.mirror script.now.loads.items
        script.now.master script.now.steps.items)
        (Appends (W.contents out.old) (W.contents out.new))) }
    ensures err { OnErr result (Writes (PartOfRun script.now.mirror script.now.loads.items
        script.now.master script.now.steps.items)
        (AppendsPrefix (W.contents out.old) (W.contents out.new))) }
    ensures cause { IfErr result EndsRun }
{
    let mut buffer = Vec::with_capacity(alloc, BUFFER_SIZE + LINE_SIZE)?;
    let mut running = open_script(alloc, script)?;
    put_opening(&script.loads, script.master, out, &mut buffer)?;
    run_steps(
        alloc,
        &script.mirror,
        &mut running,
        &script.steps,
        out,
        &mut buffer,
    )?;
    let blocks = script.mirror.blocks as usize;
    finish(alloc, &running.stripe, blocks, out, &mut buffer)
}
