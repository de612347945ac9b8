//! The whole program: a script in, its lines out.
ghost use Rattle.std.specs.Prelude.{◌≡◌, ℕ, List, ◌++◌, length, IfOk, IfErr, OnOk};
ghost use Rattle.std.specs.Prelude.{OnErr, MatchResult, codes, decimal};
ghost use Rattle.std.specs.Io.KnownBytes.{Appends, Keeps};
ghost use Rattle.std.specs.List.{AllByRecursion};
ghost use Rattle.nm_script_lib.specs.Streams.{AppendsPrefix, ReadsAll, change};
ghost use Rattle.nm_script_lib.specs.RunErrors.{error_line, bad_step_line};
ghost use Rattle.nm_script_lib.specs.Ending.{ReadsScript, CannotRead, Ended, Ends};

use crate::engine::run;
use crate::run_error::RunError;
use crate::script::{Script, parse};
use crate::streams::{read_all, send};
use crate::write_error::WriteError;
use std::alloc::Global;
use std::io::{Read, Write};

/// Reads a whole input as a script.
fn read_script<R: Read>(alloc: Global, input: &mut R) -> Result<Script, RunError>
    ensures ok { IfOk result (λ script. ReadsScript (R.remaining input.old) (R.remaining input.new)
        script.mirror script.loads.items script.master script.steps.items) }
    ensures cause { IfErr result (CannotRead (R.remaining input.old) (R.remaining input.new)) }
{
    let text = read_all(alloc, input)?;
    let script = parse(alloc, &text)?;
    Ok(script)
}

/// Reads a script, runs it, and writes its lines.
fn read_and_run<R: Read, W: Write>(
    alloc: Global,
    input: &mut R,
    out: &mut W,
) -> Result<(), RunError>
    ensures { Ended result (R.remaining input.old) (R.remaining input.new)
        (W.contents out.old) (W.contents out.new) }
{
    let script = read_script(alloc, input)?;
    run(alloc, &script, out)
}

/// Reports why a run stopped.
fn report<E: Write>(err: &mut E, error: RunError) -> Result<(), WriteError>
    ensures ok { OnOk result (Appends (E.contents err.old) (E.contents err.new)
        (error_line error)) }
    ensures err { OnErr result (AppendsPrefix (E.contents err.old) (E.contents err.new)
        (error_line error)) }
{
    match error {
        RunError::BadStep { line } => report_bad_line(err, line),
        RunError::Memory => send(err, b"no memory\n"),
        RunError::Input => send(err, b"cannot read\n"),
        RunError::Output => send(err, b"cannot write\n"),
    }
}

/// Reports the number of a line that is no step.
fn report_bad_line<E: Write>(err: &mut E, line: u64) -> Result<(), WriteError>
    ensures ok { OnOk result (Appends (E.contents err.old) (E.contents err.new)
        (bad_step_line line)) }
    ensures err { OnErr result (AppendsPrefix (E.contents err.old) (E.contents err.new)
        (bad_step_line line)) }
{
    let mut digits = itoa::Buffer::new();
    send(err, b"line ")?;
    send(err, digits.format(line).as_bytes())?;
    send(err, b": bad step\n")
}

/// Runs the script that `input` holds, and returns the exit status.
///
/// `out` gets the lines of the opening, a line for each step, and then the history of the stripe.
/// The status is 0 for a whole run. Otherwise `err` gets one line: `line N: bad step` with status
/// 2, `no memory` with status 3, `cannot read` or `cannot write` with status 4. An input may have
/// 2^24 bytes, and must end within 2^24 + 1 reads.
pub fn run_script<R: Read, W: Write, E: Write>(
    alloc: Global,
    input: &mut R,
    out: &mut W,
    err: &mut E,
) -> u8
    ensures { Ends result (change (R.remaining input.old) (R.remaining input.new))
        (change (W.contents out.old) (W.contents out.new))
        (change (E.contents err.old) (E.contents err.new)) }
{
    match read_and_run(alloc, input, out) {
        Ok(()) => 0,
        Err(error) => {
            let _ = report(err, error);
            error.status()
        }
    }
}
