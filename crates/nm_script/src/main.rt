//! `nm_script` runs a text of steps on one stripe of memory legs.
//!
//! It reads the script from standard input and ignores its arguments.
#![tactic(auto)]

use nm_script_lib::run_script;
use std::process::ExitCode;

fn main(rt: HostRuntime) -> ExitCode {
    let status = run_script(
        rt.alloc(),
        &mut rt.stdin(),
        &mut rt.stdout(),
        &mut rt.stderr(),
    );
    ExitCode::from(status)
}
