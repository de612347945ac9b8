//! `nbdmirror` serves one export over the NBD protocol from a mirror of leg files.
//!
//! `nbdmirror --help` lists its words; docs/OPERATING.md says how to run it.
#![tactic(auto)]

use nm_leg_files::LegOpener;
use nm_server::{refuse_words, start};
use std::env;
use std::process::ExitCode;

// The status where the words do not fit in memory, as everywhere else in the program.
const NO_MEMORY: u8 = 5;

fn main(rt: HostRuntime) -> ExitCode {
    let alloc = rt.alloc();
    let args = match env::args(&rt) {
        Ok(args) => args,
        Err(error) => return ExitCode::from(refuse_words(&error, &mut rt.stderr())),
    };
    let mut words = Vec::new(alloc);
    for word in args {
        if words.push(word).is_err() {
            return ExitCode::from(NO_MEMORY);
        }
    }
    let status = start(
        &rt,
        alloc,
        &LegOpener::new(&rt),
        words.as_slice(),
        &mut rt.stdout(),
        &mut rt.stderr(),
    );
    ExitCode::from(status)
}
