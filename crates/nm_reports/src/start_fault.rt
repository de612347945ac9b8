ghost use Rattle.std.specs.Prelude.{◌≡◌};
ghost use Rattle.nm_reports.specs.StartFault.{TellsFault, status_of};
ghost use Rattle.nm_reports.specs.declared.start_fault.StartFault.TheVariants.{Memory};

use crate::address::Port;
use crate::reason::Unopened;
use crate::unbound::Unbound;
use std::alloc::AllocError;
use std::fmt;
use thiserror::Error;

/// Why the server does not start, or does not end well. It prints without the names of files and
/// addresses; [`put_fault`](crate::put_fault) writes it with them.
#[derive(Clone, Copy, Error)]
pub enum StartFault {
    /// A word of the command line is not UTF-8.
    #[error("nbdmirror: a word is not UTF-8")]
    NotUtf8,
    /// Standard input, output or error is closed, and nothing can be opened in its place.
    #[error("nbdmirror: cannot open /dev/null")]
    NoStandardStreams,
    /// The process may not open as many files as are needed.
    #[error("nbdmirror: the limit on open files is below {0}")]
    FewDescriptors(u64),
    /// The stacks of threads would be smaller than they need, in KiB.
    #[error("nbdmirror: the stack limit is below {0} KiB")]
    SmallStack(u64),
    /// So many threads and the replies of all sessions do not fit into the address space.
    #[error("nbdmirror: the address space limit is too small for {0} threads")]
    SmallAddressSpace(usize),
    /// A mirror has at most 8 legs.
    #[error("nbdmirror: more than 8 legs")]
    TooManyLegs,
    /// The master is none of the legs.
    #[error("nbdmirror: master {0} is not a leg")]
    NoMaster(u8),
    /// That leg was named as the master, and this one by force.
    #[error("nbdmirror: --master {0} and --force-master {1} name two legs")]
    TwoMasters(u8, u8),
    /// Superblocks are to know this leg, and it is none of the legs.
    #[error("nbdmirror: --add-leg {0} is not a leg")]
    NoLegToAdd(u8),
    /// Superblocks are to know this leg, and there are none.
    #[error("nbdmirror: --add-leg {0}: the legs have no superblocks")]
    NothingToAddTo(u8),
    /// This leg was moved, and is none.
    #[error("nbdmirror: --moved {0} is not a leg")]
    NoLegMoved(u8),
    /// This leg was moved, and there are no superblocks to say so of.
    #[error("nbdmirror: --moved {0}: the legs have no superblocks")]
    NothingMoved(u8),
    /// Superblocks are to be moved from the place to which they are to be moved.
    #[error("nbdmirror: --superblock-from names the place of --superblock")]
    SamePlace,
    /// Superblocks are to be moved, and one of the two places is none.
    #[error("nbdmirror: --superblock-from: none is no place for superblocks")]
    NoPlace,
    /// Superblocks are to be moved into legs or out of them.
    #[error("nbdmirror: --superblock-from: superblocks inside legs are not moved: the export would \
         get another length")]
    StaysInside,
    /// What legs have may go for superblocks inside them, and these are to be kept elsewhere.
    #[error("nbdmirror: --shrink goes with --superblock inside")]
    NothingToShrink,
    /// The same, and the superblocks are there already.
    #[error("nbdmirror: --shrink: the legs have superblocks")]
    AlreadyShrunk,
    /// The superblocks in the files at both places of the command line say that they are of this
    /// leg.
    #[error("nbdmirror: two files: each is leg {2} by its superblock")]
    TwoOfLeg(usize, usize, u8),
    /// The superblock in the file at this place of the command line says this leg, and there are
    /// fewer.
    #[error("nbdmirror: a file is leg {1} by its superblock, and fewer legs are named")]
    LegBeyond(usize, u8),
    /// The export's name is empty or too long.
    #[error("nbdmirror: name must be 1 to 255 bytes")]
    BadName,
    /// This leg's file cannot be opened for reading and writing, or is in use.
    #[error("nbdmirror: leg {0}: cannot open")]
    CannotOpen(usize, Unopened),
    /// The system has this leg in use.
    #[error("nbdmirror: leg {0}: is in use")]
    InUse(usize),
    /// This leg's length, if it has one, is no positive multiple of 512, or is more than 2^40
    /// bytes.
    #[error("nbdmirror: leg {0}: bad length")]
    BadLength(usize, Option<u64>),
    /// This leg is so many bytes long, and that one, the first that is here, has another length.
    #[error("nbdmirror: leg {0}: length differs from leg {2}")]
    OtherLength(usize, u64, usize, u64),
    /// This leg's file is so many bytes long, and the process may write shorter files alone.
    #[error("nbdmirror: leg {0}: is longer than the file size limit")]
    OverFileLimit(usize, u64, u64),
    /// This leg has a superblock, and the server was asked to keep none.
    #[error("nbdmirror: leg {0}: has a superblock")]
    HasSuperblock(usize),
    /// A superblock stands beside this leg, and the server was asked to keep them in a folder.
    #[error("nbdmirror: leg {0}: holds a superblock beside it: give --superblock-from beside")]
    HeldBeside(usize),
    /// A superblock stands beside this leg, and the server was asked to keep them inside the legs.
    #[error("nbdmirror: leg {0}: holds a superblock beside it: give --superblock beside")]
    KeptBeside(usize),
    /// This leg has a superblock inside it, and the server was asked to keep them elsewhere.
    #[error("nbdmirror: leg {0}: has a superblock inside: give --superblock inside")]
    HeldInside(usize),
    /// This leg of a new mirror holds something where its superblock is to be.
    #[error("nbdmirror: leg {0}: holds data in its last 64 KiB: give --shrink if they may go")]
    HoldsData(usize),
    /// The file of this leg's superblock cannot be opened, or made invalid, in the place from which
    /// superblocks are moved.
    #[error("nbdmirror: leg {0}: cannot move its superblock")]
    CannotMove(usize, Unopened),
    /// This leg is a block device, beside which no superblock would outlive a restart.
    #[error("nbdmirror: leg {0}: is a block device: give --superblock FOLDER")]
    NoPlaceBeside(usize),
    /// The file of this leg's superblock cannot be opened for reading and writing, made or removed.
    #[error("nbdmirror: leg {0}: cannot write its superblock")]
    CannotSave(usize, Unopened),
    /// This leg's superblock is of another mirror, or of a mirror of another shape.
    #[error("nbdmirror: leg {0}: its superblock is of another mirror")]
    OtherMirror(usize),
    /// This leg's superblock says that it is that leg's.
    #[error("nbdmirror: leg {0}: its superblock says leg {1}")]
    OtherLeg(usize, u8),
    /// This leg's file is the one that was that other leg.
    #[error("nbdmirror: leg {0}: is the disk that was leg {1}")]
    WasLeg(usize, usize),
    /// There are superblocks, and the legs were to be taken for equal.
    #[error("nbdmirror: --start equal: the legs have superblocks")]
    NotFirstStart,
    /// There are superblocks, and the legs were to be copied whole.
    #[error("nbdmirror: --start full: the legs have superblocks: replace N copies a leg whole")]
    NotWhole,
    /// So many stripes were asked for, and the superblocks are of a mirror of so many.
    #[error("nbdmirror: --stripes {0}: the superblocks have {1}")]
    OtherStripes(u8, u8),
    /// This leg was named as the master, and is not in sync by the superblocks.
    #[error("nbdmirror: master {0} is not in sync by the superblocks")]
    NotInSync(u8),
    /// No random number can be had.
    #[error("nbdmirror: no random numbers")]
    NoRandomNumbers,
    /// This leg, the master, cannot be read.
    #[error("nbdmirror: leg {0}: cannot read")]
    CannotRead(u8),
    /// No master is named, and the legs are not known to hold the same.
    #[error("nbdmirror: legs differ: name the newest by --master")]
    LegsDiffer,
    /// This leg may have a newer superblock, and none was found.
    #[error("nbdmirror: leg {0} may be newer: bring its disk back, or start without it by \
         --degraded, which loses what was written to it alone")]
    MayBeNewer(usize),
    /// This leg is in sync by the superblocks, in a stripe of which no other such leg is here, and
    /// its file is not the one that they are of.
    #[error("nbdmirror: leg {0}: is another file than its superblock is of")]
    AnotherFile(usize),
    /// This leg is in sync by the superblocks, in a stripe of which no other such leg is here, and
    /// its file was changed last at the second of these times, where they have the first one, both
    /// in nanoseconds.
    #[error("nbdmirror: leg {0}: was changed since the mirror ended")]
    WasChanged(usize, u64, u64),
    /// All legs were changed since the mirror ended, and do not hold the same.
    #[error("nbdmirror: legs differ, and were changed since the mirror ended: name the newest by \
         --moved")]
    ChangedDiffer,
    /// Both legs have superblocks of which neither came after the other.
    #[error("nbdmirror: legs {0} and {1} went on apart: name one by --force-master, which loses \
         what was written to the other alone")]
    WentApart(usize, usize),
    /// Neither of this leg's superblocks in two places came after the other.
    #[error("nbdmirror: leg {0}: its superblocks in two places went on apart")]
    PlacesApart(usize),
    /// No leg that is in sync in this stripe by the superblocks is here.
    #[error("nbdmirror: stripe {0}: no leg in sync is here: bring its disk back, or name the \
         newest leg that is here by --force-master")]
    NoneInSync(usize),
    /// The superblocks do not know this leg.
    #[error("nbdmirror: leg {0}: has no superblock of this mirror: --add-leg {0} copies the \
         mirror over it")]
    NotKnown(usize),
    /// No socket listens for this port.
    #[error("nbdmirror: cannot listen")]
    CannotListen(Port, Unbound),
    /// Out of memory, or out of threads.
    #[error("nbdmirror: no memory")]
    Memory,
    /// What the stripes have had is not what the sessions counted.
    #[error("nbdmirror: cannot close")]
    CannotClose,
    /// So many of all stripes had stopped at the end.
    #[error("nbdmirror: {0} of {1} stripes have stopped")]
    StripesStopped(u32, u32),
}

impl StartFault {
    /// The exit status.
    pub fn status(&self) -> u8
        ensures status { result ≡ status_of self.now }
        ensures fault { TellsFault result }
    {
        match self {
            StartFault::NotUtf8
            | StartFault::NoLegMoved(_)
            | StartFault::NothingMoved(_)
            | StartFault::SamePlace
            | StartFault::NoPlace
            | StartFault::StaysInside
            | StartFault::NothingToShrink => 2,
            StartFault::CannotListen(_, _) => 4,
            StartFault::Memory => 5,
            StartFault::CannotClose => 6,
            StartFault::StripesStopped(_, _) => 8,
            StartFault::LegsDiffer
            | StartFault::MayBeNewer(_)
            | StartFault::AnotherFile(_)
            | StartFault::WasChanged(_, _, _)
            | StartFault::ChangedDiffer
            | StartFault::WentApart(_, _)
            | StartFault::PlacesApart(_)
            | StartFault::NoneInSync(_)
            | StartFault::NotKnown(_) => 7,
            // Settings or legs that do not fit.
            _ => 3,
        }
    }
}

impl fmt::Debug for StartFault {
    fn fmt<W: fmt::Write>(&self, f: &mut fmt::Formatter<W>) -> fmt::Result {
        fmt::Display::fmt(self, f)
    }
}

impl From<AllocError> for StartFault {
    ghost from_gives = { λ _ fault. fault ≡ Memory };

    fn from(_: AllocError) -> Self {
        StartFault::Memory
    }
}
