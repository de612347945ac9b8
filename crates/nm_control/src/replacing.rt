//! `replace`: a leg's file is opened anew while clients go on, and copied whole.
ghost use Rattle.std.specs.Prelude.{◌<◌};

use nm_geometry::Shape;
use nm_lanes::Gate;
use nm_leg::LegPart;
use nm_leg_files::{
    BytesRead, LateSlots, Leg, LegPlace, OpensLegs, ReplaceAnswer, SuperblockWriter, Unfit,
};
use nm_mirror::{Mirror, Naming, ReplaceCounts, Withdrawal};
use std::alloc::{AllocError, Global};
use std::fmt;
use std::sync::atomic::AtomicU64;
use std::sync::{Arc, Mutex, Wait};

/// What came of a replacement.
#[derive(Clone, Copy)]
pub enum Replaced {
    /// It was done where it could be.
    Done(ReplaceCounts),
    /// Nothing was done: in some stripe the leg is the only one in sync.
    Last,
    /// Nothing was done: a replacement of the leg is under way, or a call of it was left and has
    /// not returned.
    Busy,
    /// The leg is out, and no superblock can be saved that says so.
    NotSaved,
    /// The leg is out, and its file was not opened anew.
    Unfit(Unfit),
}

// Writes in how many stripes what came of a replacement.
fn write_counts<W: fmt::Write>(counts: &ReplaceCounts, f: &mut fmt::Formatter<W>) -> fmt::Result {
    write!(
        f,
        "joining {} left {} out {} stopped {}",
        counts.joining, counts.left, counts.out, counts.stopped
    )
}

impl fmt::Display for Replaced {
    fn fmt<W: fmt::Write>(&self, f: &mut fmt::Formatter<W>) -> fmt::Result {
        match self {
            Replaced::Done(counts) => write_counts(counts, f),
            Replaced::Last => f.write_str("last"),
            Replaced::Busy => f.write_str("busy"),
            Replaced::NotSaved => f.write_str("not saved"),
            Replaced::Unfit(why) => ReplaceAnswer(*why).fmt(f),
        }
    }
}

/// What opens a leg's file anew.
pub trait RenewsLegs<L> {
    /// Opens the file that the leg's name leads to now, and gives the leg a superblock's file and
    /// an id of its own, if it has one. The answer is the legs of all stripes on that file, stripe
    /// 0's first. No stripe has the leg meanwhile.
    fn renew<R: Wait>(&self, rt: &R, leg: u8) -> Result<Vec<L>, Unfit>;

    /// Leaves no superblock of the leg, which is out of every stripe for good.
    fn retire<R: Wait>(&self, rt: &R, leg: u8) -> Result<(), Unfit>;

    /// Whether the leg's name still leads to its file, as long as it was, so that the leg may be
    /// attached: why not.
    fn check(&self, leg: u8) -> Result<(), Unfit>;
}

/// What opens the files of a mirror of this shape anew.
#[derive(Drop)]
pub struct LegRenewer<'x, O> {
    opener: &'x O,
    places: &'x [Arc<LegPlace>],
    superblocks: Option<&'x Mutex<SuperblockWriter<LateSlots>>>,
    shape: Shape,
    read: BytesRead,
}

impl<'x, O> LegRenewer<'x, O> {
    /// What opens these legs' files by this opener, and their superblocks', if they have some.
    pub fn new(
        alloc: Global,
        opener: &'x O,
        places: &'x [Arc<LegPlace>],
        superblocks: Option<&'x Mutex<SuperblockWriter<LateSlots>>>,
        shape: &Shape,
    ) -> Result<LegRenewer<'x, O>, AllocError> {
        Ok(LegRenewer {
            opener,
            places,
            superblocks,
            shape: *shape,
            read: Arc::new(alloc, AtomicU64::new(0))?,
        })
    }

    /// What opens the legs' files.
    pub fn opener(&self) -> &'x O {
        self.opener
    }

    /// Makes each leg's file durable, and says when it was changed last: 0 where that is unknown.
    pub fn settled_times<R: Wait>(&self, rt: &R) -> [u64; 8] {
        let mut times = [0; 8];
        for (time, place) in times.iter_mut().zip(self.places.iter()) {
            *time = place.settled_time(rt);
        }
        times
    }
}

impl<'x, O: OpensLegs> RenewsLegs<Leg> for LegRenewer<'x, O> {
    fn renew<R: Wait>(&self, rt: &R, leg: u8) -> Result<Vec<Leg>, Unfit> {
        let number = leg as usize;
        let Some(place) = self.places.get(number) else {
            return Err(Unfit::no_file());
        };
        let legs = place.renew(rt, self.opener, number, &self.shape, &self.read)?;
        if let Some(superblocks) = self.superblocks {
            place.renew_superblock(rt, self.opener, leg, &mut superblocks.lock(rt))?;
        }
        Ok(legs)
    }

    fn retire<R: Wait>(&self, rt: &R, leg: u8) -> Result<(), Unfit> {
        let (Some(place), Some(superblocks)) = (self.places.get(leg as usize), self.superblocks)
        else {
            return Ok(());
        };
        place.retire_superblock(rt, self.opener, leg, &mut superblocks.lock(rt))
    }

    fn check(&self, leg: u8) -> Result<(), Unfit> {
        match self.places.get(leg as usize) {
            Some(place) => place.check(self.opener),
            None => Err(Unfit::no_file()),
        }
    }
}

// Has the file of a leg that is out opened anew, and puts the leg back.
fn put_back<R: Wait, L: LegPart, G: Gate + Drop, J: Naming, N: RenewsLegs<L>>(
    rt: &R,
    mirror: &Mirror<L, G, J>,
    leg: u8,
    legs: &N,
) -> Replaced
    requires { leg < mirror.now.shape.legs }
{
    let parts = match legs.renew(rt, leg) {
        Ok(parts) => parts,
        Err(why) => return Replaced::Unfit(why),
    };
    match mirror.replace_leg(rt, &mut mirror.actor(), leg, parts) {
        Ok(counts) => Replaced::Done(counts),
        Err(_) => Replaced::Unfit(Unfit::WasCut),
    }
}

/// Takes the leg out of every stripe, has its file opened anew, and puts it back.
pub fn replace_now<R: Wait, L: LegPart, G: Gate + Drop, J: Naming, N: RenewsLegs<L>>(
    rt: &R,
    mirror: &Mirror<L, G, J>,
    leg: u8,
    legs: &N,
) -> Replaced
    requires { leg < mirror.now.shape.legs }
{
    match mirror.withdraw_leg(rt, leg) {
        Withdrawal::Last => Replaced::Last,
        Withdrawal::NotSaved => Replaced::NotSaved,
        Withdrawal::Stopped(stopped) => {
            let none = ReplaceCounts::default();
            Replaced::Done(ReplaceCounts { stopped, ..none })
        }
        Withdrawal::Out => put_back(rt, mirror, leg, legs),
    }
}
