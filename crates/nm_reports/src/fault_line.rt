//! The line that says why the server does not start, or does not end well.

use crate::address::Address;
use crate::reason::name_of;
use crate::start_fault::StartFault;
use nm_commands::Settings;
use std::io::Write;

// Tells which files a refusal is of that says which legs they are.
fn put_numbers<E: Write>(fault: &StartFault, names: &[&str], err: &mut E) {
    let _ = match *fault {
        StartFault::TwoOfLeg(one, other, leg) => {
            let (one, other) = (name_of(names, one), name_of(names, other));
            writeln!(
                err,
                "nbdmirror: {one} and {other}: each is leg {leg} by its superblock"
            )
        }
        StartFault::LegBeyond(place, leg) => {
            let (name, legs) = (name_of(names, place), names.len());
            writeln!(
                err,
                "nbdmirror: {name}: is leg {leg} by its superblock, and {legs} legs are named"
            )
        }
        StartFault::NotKnown(leg) => {
            let name = name_of(names, leg);
            writeln!(
                err,
                "nbdmirror: leg {leg} ({name}): has no superblock of this mirror: --add-leg {leg} \
                 copies the mirror over it"
            )
        }
        _ => writeln!(err, "{fault}"),
    };
}

// Tells that a superblock stands beside this leg, and what to give for that.
fn put_beside<E: Write>(names: &[&str], leg: usize, option: &str, err: &mut E) {
    let name = name_of(names, leg);
    let _ = writeln!(
        err,
        "nbdmirror: leg {leg}: {name}.nbdmirror holds a superblock: give {option} beside"
    );
}

/// Writes why the server does not start, or does not end well, in a line. What cannot be written is
/// lost.
pub fn put_fault<E: Write>(fault: &StartFault, settings: &Settings<'_>, err: &mut E) {
    let names = settings.mirror.legs.as_slice();
    match *fault {
        StartFault::HeldBeside(leg) => put_beside(names, leg, "--superblock-from", err),
        StartFault::KeptBeside(leg) => put_beside(names, leg, "--superblock", err),
        StartFault::CannotListen(port, _) => {
            let address = Address::of(port, &settings.listening);
            let _ = writeln!(err, "nbdmirror: cannot listen on {address}");
        }
        _ => put_numbers(fault, names, err),
    }
}
