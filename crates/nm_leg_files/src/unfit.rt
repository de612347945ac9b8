//! Why a leg's file is not taken.

use nm_assemble::Misfit;
use nm_reports::Unopened;
use std::io::ErrorKind;
use std::{fmt, io};

/// Why a leg's file is not taken: at a start, or to attach or replace the leg. The log has it as it
/// is displayed.
#[derive(Clone, Copy)]
pub enum Unfit {
    /// Its file was shorter than at the start for a while: what it lost is not known.
    WasCut,
    /// A call of its file was left, and has not returned: it may still write.
    CallLeft,
    /// The system does not open its name.
    Unopened(io::Error),
    /// Another process has its file locked, or it is another leg's.
    Locked,
    /// The system has its file in use.
    InUse,
    /// Another file stands under its name.
    OtherFile,
    /// Its file was missing at the start, and something has changed it since the mirror ended.
    Changed,
    /// Its file has so many bytes, and not those that it is to have.
    OtherLength(u64, u64),
    /// Files may be so many bytes long, and its file is longer.
    OverFileLimit(u64),
    /// It is a block device, beside which no superblock would outlive a restart.
    NoPlaceBeside,
    /// Its superblock's file cannot be opened, made or written.
    NoSuperblock(Unopened),
    /// The superblock that it comes with does not go with that which the start went by.
    OtherSuperblock(Misfit),
    /// It comes with no superblock: another file may stand under its name.
    Unknown,
    /// A `fail` or an `attach` is under way, or has just been.
    Command,
    /// Each stripe that would take it has stopped.
    Stopped,
}

// Why a file is not opened.
fn put_unopened<W: fmt::Write>(why: &Unopened, f: &mut fmt::Formatter<W>) -> fmt::Result {
    match why {
        Unopened::System(error) => write!(f, "{error}"),
        Unopened::Folder => f.write_str("it is a folder"),
        Unopened::Locked => f.write_str("it is locked by another process"),
        Unopened::Cut => f.write_str("it became shorter meanwhile"),
    }
}

// Why a superblock does not go with the newest one.
fn misfit_text(why: &Misfit) -> &'static str {
    match why {
        Misfit::OtherMirror => "its superblock is of another mirror",
        Misfit::OtherLeg => "its superblock says another leg",
        Misfit::Apart => "its superblock is newer, or went on apart",
    }
}

// The words that tell why a leg's file is not taken, up to what they name, if they do.
fn first_words(why: &Unfit) -> &'static str {
    match why {
        Unfit::WasCut => "its file was made shorter, and is not to be trusted",
        Unfit::CallLeft => "a call of its file has not returned yet",
        Unfit::Unopened(_) => "it cannot be opened: ",
        Unfit::Locked => "it is locked by another process, or is another leg",
        Unfit::InUse => "the system has it in use",
        Unfit::OtherFile => "another file has its name now",
        Unfit::Changed => "it was changed since the mirror ended",
        Unfit::OtherLength(_, _) => "it has ",
        Unfit::OverFileLimit(_) => "it is longer than ",
        Unfit::NoPlaceBeside => "it is a block device: give --superblock FOLDER",
        Unfit::NoSuperblock(_) => "its superblock cannot be written: ",
        Unfit::Unknown => "it has no superblock of this mirror",
        Unfit::OtherSuperblock(why) => misfit_text(why),
        Unfit::Command => "a command on legs is under way",
        Unfit::Stopped => "its stripes have stopped",
    }
}

impl fmt::Display for Unfit {
    fn fmt<W: fmt::Write>(&self, f: &mut fmt::Formatter<W>) -> fmt::Result {
        f.write_str(first_words(self))?;
        match self {
            Unfit::Unopened(error) => write!(f, "{error}"),
            Unfit::OtherLength(bytes, _) => write!(f, "{bytes} bytes now"),
            Unfit::OverFileLimit(limit) => write!(f, "{limit} bytes, the file size limit"),
            Unfit::NoSuperblock(why) => put_unopened(why, f),
            _ => Ok(()),
        }
    }
}

impl From<io::Error> for Unfit {
    fn from(error: io::Error) -> Unfit {
        Unfit::Unopened(error)
    }
}

impl Unfit {
    /// There is no file.
    pub fn no_file() -> Unfit {
        Unfit::Unopened(io::Error::from(ErrorKind::NotFound))
    }

    /// Memory is short.
    pub(crate) fn no_memory() -> Unfit {
        Unfit::Unopened(io::Error::from(ErrorKind::OutOfMemory))
    }
}

/// The same, as it is answered to who wants the leg attached.
#[derive(Clone, Copy)]
pub struct AttachAnswer(pub Unfit);

impl fmt::Display for AttachAnswer {
    fn fmt<W: fmt::Write>(&self, f: &mut fmt::Formatter<W>) -> fmt::Result {
        f.write_str(match self.0 {
            Unfit::Command | Unfit::CallLeft => "busy",
            Unfit::WasCut => "was cut",
            Unfit::OtherLength(bytes, wanted) if bytes < wanted => "was cut",
            Unfit::OtherLength(_, _) | Unfit::OtherFile | Unfit::Changed | Unfit::Unknown => {
                "another file"
            }
            _ => "no file",
        })
    }
}

/// The same, as it is answered to who wants the leg replaced, or out for good.
#[derive(Clone, Copy)]
pub struct ReplaceAnswer(pub Unfit);

impl fmt::Display for ReplaceAnswer {
    fn fmt<W: fmt::Write>(&self, f: &mut fmt::Formatter<W>) -> fmt::Result {
        match self.0 {
            Unfit::CallLeft => f.write_str("busy"),
            Unfit::Locked => f.write_str("locked"),
            Unfit::InUse => f.write_str("in use"),
            Unfit::WasCut | Unfit::OtherLength(_, _) | Unfit::OverFileLimit(_) => {
                f.write_str("length")
            }
            Unfit::NoPlaceBeside => f.write_str("is a block device: give --superblock FOLDER"),
            _ => f.write_str("cannot open"),
        }
    }
}
