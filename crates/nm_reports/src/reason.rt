//! What a refusal does not say: which file or address, and why. It stands in the line before it.

use crate::address::{Address, Port};
use crate::start_fault::StartFault;
use crate::superblock_names::superblock_name;
use crate::unbound::Unbound;
use jiff::Timestamp;
use nm_commands::{ListenSettings, Settings, SuperblockPlace};
use nm_system::Process;
use std::alloc::{AllocError, Global};
use std::io::{ErrorKind, Write};
use std::{fmt, io};

/// Why a leg's file is not opened.
#[derive(Clone, Copy)]
pub enum Unopened {
    /// The system does not open it.
    System(io::Error),
    /// It is a folder.
    Folder,
    /// It is locked, by another process or for another leg.
    Locked,
    /// It became shorter since it was measured.
    Cut,
}

impl Unopened {
    /// Why the system does not open a file.
    pub fn by(error: io::Error) -> Unopened {
        if error.kind() == ErrorKind::IsADirectory {
            Unopened::Folder
        } else {
            Unopened::System(error)
        }
    }
}

// The name of the leg of this number.
pub(crate) fn name_of<'a>(names: &[&'a str], leg: usize) -> &'a str {
    names.get(leg).copied().unwrap_or("")
}

// What the system says of an error, without the number that it ends with.
fn without_number(text: &str) -> &str {
    match text.split_once(" (os error ") {
        Some((words, _)) => words,
        None => text,
    }
}

// What the system says of an error, of this name.
fn put_system<E: Write>(
    alloc: Global,
    name: &str,
    error: io::Error,
    err: &mut E,
) -> Result<(), AllocError> {
    let whole = format!(in alloc; "{error}")?;
    put_line(name, without_number(whole.as_str()), err);
    Ok(())
}

// Why this leg's file is not opened.
fn put_unopened<E: Write>(
    alloc: Global,
    name: &str,
    why: Unopened,
    err: &mut E,
) -> Result<(), AllocError> {
    match why {
        Unopened::System(error) => return put_system(alloc, name, error, err),
        Unopened::Folder => put_line(name, "is a folder", err),
        Unopened::Locked => put_line(name, "is locked by another process, or is another leg", err),
        Unopened::Cut => put_line(name, "became shorter meanwhile", err),
    }
    Ok(())
}

// What the option of an address is, and the port that it has where none is given.
fn option_of(port: Port) -> (&'static str, u16) {
    match port {
        Port::Clients => ("--listen", 10809),
        Port::Control => ("--control", 10810),
    }
}

// Tells that this port has no address.
fn put_no_address<E: Write>(name: &str, err: &mut E) {
    let _ = writeln!(
        err,
        "nbdmirror: {name}: has no address: give 127.0.0.1:{name}"
    );
}

// Tells that this address has no port.
fn put_no_port<E: Write>(name: &str, port: u16, err: &mut E) {
    let _ = if name.contains(':') {
        writeln!(err, "nbdmirror: {name}: has no port: give [{name}]:{port}")
    } else {
        writeln!(err, "nbdmirror: {name}: has no port: give {name}:{port}")
    };
}

// Tells that somebody listens at this address: this process, where the system tells which.
fn put_taken<E: Write>(name: &str, holder: Option<Process>, option: &str, err: &mut E) {
    let _ = match holder {
        Some(holder) => writeln!(
            err,
            "nbdmirror: {name}: {holder} has it: give another by {option}"
        ),
        None => writeln!(
            err,
            "nbdmirror: {name}: is in use: give another by {option}"
        ),
    };
}

// Why no socket listens there.
fn put_unbound<E: Write>(
    alloc: Global,
    port: Port,
    why: Unbound,
    listening: &ListenSettings<'_>,
    err: &mut E,
) -> Result<(), AllocError> {
    let address = Address::of(port, listening);
    let text = format!(in alloc; "{address}")?;
    let name = text.as_str();
    let (option, port) = option_of(port);
    match why {
        Unbound::System(error) => return put_system(alloc, name, error, err),
        Unbound::NoAddress => put_no_address(name, err),
        Unbound::NoPort => put_no_port(name, port, err),
        Unbound::NoPath => put_line(name, "has no path", err),
        Unbound::NoSocket => put_line(name, "is no socket", err),
        Unbound::OfClients => {
            let text = "is the address of clients too: give another by --control";
            put_line(name, text, err);
        }
        Unbound::Taken(holder) => put_taken(name, holder, option, err),
    }
    Ok(())
}

// A line on this leg's file, or on this address.
fn put_line<E: Write>(name: &str, text: &str, err: &mut E) {
    let _ = writeln!(err, "nbdmirror: {name}: {text}");
}

// Why a leg of this length is none: one with its superblock inside has 64 KiB more.
fn put_length<E: Write>(name: &str, bytes: Option<u64>, is_inside: bool, err: &mut E) {
    let range = if is_inside {
        "66048 to 2^40 + 65536"
    } else {
        "512 to 2^40"
    };
    let _ = match bytes {
        None => writeln!(err, "nbdmirror: {name}: has no length"),
        Some(bytes) => writeln!(
            err,
            "nbdmirror: {name}: has {bytes} bytes: a leg has a multiple of 512, from {range}"
        ),
    };
}

// The name of the file of this leg's superblock: beside the leg, where there is to be none.
fn superblock_of(alloc: Global, settings: &Settings<'_>, leg: usize) -> Result<String, AllocError> {
    let place = match settings.opening.superblock {
        SuperblockPlace::Nowhere => SuperblockPlace::Beside,
        place => place,
    };
    match superblock_name(alloc, place, leg, name_of(&settings.mirror.legs, leg))? {
        Some(name) => Ok(name),
        None => Ok(String::new(alloc)),
    }
}

// The name of the file of this leg's superblock in the place from which superblocks are moved.
fn old_superblock_of(
    alloc: Global,
    settings: &Settings<'_>,
    leg: usize,
) -> Result<String, AllocError> {
    let place = settings
        .opening
        .superblock_from
        .unwrap_or(SuperblockPlace::Nowhere);
    match superblock_name(alloc, place, leg, name_of(&settings.mirror.legs, leg))? {
        Some(name) => Ok(name),
        None => Ok(String::new(alloc)),
    }
}

// Tells of the files of a leg's superblocks of which neither came after the other.
fn put_apart<E: Write>(
    alloc: Global,
    settings: &Settings<'_>,
    leg: usize,
    err: &mut E,
) -> Result<(), AllocError> {
    let own = superblock_of(alloc, settings, leg)?;
    let earlier = old_superblock_of(alloc, settings, leg)?;
    let (name, old) = (own.as_str(), earlier.as_str());
    let _ = writeln!(
        err,
        "nbdmirror: {name}: neither came after {old}, nor before it: remove the one that no longer \
         holds, or name the newest leg by --force-master"
    );
    Ok(())
}

// Tells how long two legs are that should be as long as each other.
fn put_lengths<E: Write>(name: &str, bytes: u64, other: &str, other_bytes: u64, err: &mut E) {
    let _ = writeln!(
        err,
        "nbdmirror: {name}: has {bytes} bytes, and {other} has {other_bytes}"
    );
}

// Tells that the name's file is longer than it may be.
fn put_limit<E: Write>(name: &str, bytes: u64, limit: u64, err: &mut E) {
    let _ = writeln!(
        err,
        "nbdmirror: {name}: has {bytes} bytes, and the limit is {limit}"
    );
}

// Tells of which file a superblock is not, and what can be done.
fn put_another<E: Write>(
    alloc: Global,
    settings: &Settings<'_>,
    leg: usize,
    err: &mut E,
) -> Result<(), AllocError> {
    let name = name_of(&settings.mirror.legs, leg);
    let own = superblock_of(alloc, settings, leg)?;
    let superblock = match settings.opening.superblock {
        SuperblockPlace::Inside => "the superblock inside",
        _ => own.as_str(),
    };
    let _ = writeln!(
        err,
        "nbdmirror: {name}: is not the file that {superblock} is of: bring that one back, or give \
         --moved {leg} where it was moved with its superblock"
    );
    Ok(())
}

// A time in nanoseconds, 0 where it is unknown.
#[derive(Clone, Copy, Drop)]
struct Moment {
    nanoseconds: u64,
}

impl fmt::Display for Moment {
    fn fmt<W: fmt::Write>(&self, f: &mut fmt::Formatter<W>) -> fmt::Result {
        match Timestamp::from_nanosecond(i128::from(self.nanoseconds)) {
            Ok(moment) if self.nanoseconds > 0 => write!(f, "{moment}"),
            _ => f.write_str("an unknown time"),
        }
    }
}

// Tells when a file was changed last that a superblock has another time of, and what can be done.
fn put_changed<E: Write>(
    alloc: Global,
    settings: &Settings<'_>,
    leg: usize,
    recorded: u64,
    found: u64,
    err: &mut E,
) -> Result<(), AllocError> {
    let name = name_of(&settings.mirror.legs, leg);
    let superblock = superblock_of(alloc, settings, leg)?;
    let [recorded, found] = [recorded, found].map(|nanoseconds| Moment { nanoseconds });
    let _ = writeln!(
        err,
        "nbdmirror: {name}: was changed at {found}, and {superblock} has {recorded}: bring back \
         what it held then, or give --moved {leg} where it holds that"
    );
    Ok(())
}

// Tells that this leg has a superblock where superblocks are not to be used.
fn put_has_superblock<E: Write>(
    alloc: Global,
    settings: &Settings<'_>,
    leg: usize,
    err: &mut E,
) -> Result<(), AllocError> {
    let name = superblock_of(alloc, settings, leg)?;
    let text = "give --superblock beside, or name the newest leg by --force-master";
    put_line(name.as_str(), text, err);
    Ok(())
}

// Tells of which superblock's file a refusal is, if it is of one, and why.
fn put_of_superblocks<E: Write>(
    alloc: Global,
    fault: &StartFault,
    settings: &Settings<'_>,
    err: &mut E,
) -> Result<(), AllocError> {
    match *fault {
        StartFault::HasSuperblock(leg) => put_has_superblock(alloc, settings, leg, err),
        StartFault::CannotSave(leg, why) => {
            let name = superblock_of(alloc, settings, leg)?;
            put_unopened(alloc, name.as_str(), why, err)
        }
        StartFault::CannotMove(leg, why) => {
            let name = old_superblock_of(alloc, settings, leg)?;
            put_unopened(alloc, name.as_str(), why, err)
        }
        StartFault::PlacesApart(leg) => put_apart(alloc, settings, leg, err),
        StartFault::AnotherFile(leg) => put_another(alloc, settings, leg, err),
        StartFault::WasChanged(leg, recorded, found) => {
            put_changed(alloc, settings, leg, recorded, found, err)
        }
        _ => Ok(()),
    }
}

// Tells which leg has a length that it cannot have, if a refusal is of one, and why not.
fn put_of_lengths<E: Write>(fault: &StartFault, settings: &Settings<'_>, err: &mut E) {
    let names = settings.mirror.legs.as_slice();
    match *fault {
        StartFault::BadLength(leg, bytes) => {
            let is_inside = settings.opening.superblock == SuperblockPlace::Inside;
            put_length(name_of(names, leg), bytes, is_inside, err);
        }
        StartFault::OtherLength(leg, bytes, other, other_bytes) => {
            put_lengths(
                name_of(names, leg),
                bytes,
                name_of(names, other),
                other_bytes,
                err,
            );
        }
        StartFault::OverFileLimit(leg, bytes, limit) => {
            put_limit(name_of(names, leg), bytes, limit, err);
        }
        _ => (),
    }
}

/// Tells which file or address is meant by a refusal, and why it is refused. A refusal that says
/// all by itself has no such line.
pub fn tell_reason<E: Write>(
    alloc: Global,
    fault: &StartFault,
    settings: &Settings<'_>,
    err: &mut E,
) -> Result<(), AllocError> {
    let names = settings.mirror.legs.as_slice();
    match *fault {
        StartFault::CannotOpen(leg, why) => {
            return put_unopened(alloc, name_of(names, leg), why, err);
        }
        StartFault::CannotListen(port, why) => {
            return put_unbound(alloc, port, why, &settings.listening, err);
        }
        StartFault::InUse(leg) => {
            let text = "is mounted, swapped to, held by another device, or behind a loop device";
            put_line(name_of(names, leg), text, err);
        }
        StartFault::CannotRead(leg) => {
            put_line(name_of(names, leg as usize), "a read failed", err);
        }
        StartFault::BadLength(_, _)
        | StartFault::OtherLength(_, _, _, _)
        | StartFault::OverFileLimit(_, _, _) => put_of_lengths(fault, settings, err),
        _ => return put_of_superblocks(alloc, fault, settings, err),
    }
    Ok(())
}
