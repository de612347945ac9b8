//! The mirror of the program, with all that it is served by.

use crate::control_meanwhile::ControlMeanwhile;
use crate::sessions::AT_ONCE;
use nm_commands::{CopySettings, Settings};
use nm_connections::Listener;
use nm_control::{Copier, CopyOrders, Healing, LegWatch, MissingLegs};
use nm_leg_files::{
    FileMirror, LateSlots, LateSuperblock, Leg, LegFiles, LegPlace, LegSyncs, SuperblockWriter,
};
use nm_mirror::{EmptyLog, MOST_PASSES, Naming, Pass};
use nm_reports::{LogLines, Metrics, MirrorDoubts, StartFault};
use nm_starts::{OpenedMirror, Superblocks, open_asked_for};
use std::alloc::{AllocError, Global};
use std::fs::File;
use std::random::RandomSource;
use std::rt::Files;
use std::sync::{Arc, Mutex, Wait};
use std::thread::Threads;
use std::time::Clock;

// The passes of who copies legs, and of so many sessions, as far as a mirror makes so many: the
// last of 64 sessions has one less than others.
fn passes_of<R: Wait, J: Naming>(
    rt: &R,
    alloc: Global,
    mirror: &FileMirror<J>,
    sessions: u8,
) -> Result<Vec<Pass<Leg, J>>, StartFault> {
    let mut passes = Vec::new(alloc);
    let wanted = 1 + sessions as usize * AT_ONCE;
    for _ in 0..wanted.min(MOST_PASSES as usize) {
        let Ok(pass) = mirror.pass(rt, alloc) else {
            return Err(StartFault::Memory);
        };
        if passes.push(pass).is_err() {
            return Err(StartFault::Memory);
        }
    }
    Ok(passes)
}

// Each leg's place, with its superblock where that comes late.
fn places_of(
    alloc: Global,
    files: &LegFiles,
    late: Vec<LateSuperblock>,
) -> Result<Vec<Arc<LegPlace>>, AllocError> {
    let mut places = files.places(alloc)?;
    for superblock in late {
        if let Some(place) = places.get_mut(superblock.leg) {
            place.set_superblock(superblock);
        }
    }
    let mut all = Vec::new(alloc);
    for place in places {
        all.push(Arc::new(alloc, place)?)?;
    }
    Ok(all)
}

// A share of each leg's place.
fn shares_of(alloc: Global, places: &[Arc<LegPlace>]) -> Result<Vec<Arc<LegPlace>>, AllocError> {
    let mut shares = Vec::new(alloc);
    for place in places {
        shares.push(Arc::try_clone(place)?)?;
    }
    Ok(shares)
}

// What attaches legs again, where that is asked for, or where one is missing.
fn healing_of(
    alloc: Global,
    copies: &CopySettings,
    files: &LegFiles,
    places: &[Arc<LegPlace>],
) -> Result<Option<Healing>, StartFault> {
    if !copies.auto_attach && files.missing().is_none() {
        return Ok(None);
    }
    let own = shares_of(alloc, places)?;
    Ok(Some(Healing::new(alloc, own, copies.auto_attach)?))
}

// What an administrator wants of copies at first, and which legs are missing.
fn orders_of(
    alloc: Global,
    copies: &CopySettings,
    files: &LegFiles,
) -> Result<CopyOrders, StartFault> {
    let reasons = files.reasons(alloc)?;
    let orders = CopyOrders::new(copies.copy_rate).with_missing(MissingLegs::of(reasons));
    let doubts = MirrorDoubts::of(files.troubles(alloc)?);
    Ok(orders.with_limits(files.limits(alloc)?).with_doubts(doubts))
}

// The copier of the mirror, which tells of its legs by their files' names.
fn copier_of<J: Naming>(
    alloc: Global,
    mirror: &FileMirror<J>,
    files: &LegFiles,
    places: &[Arc<LegPlace>],
    copies: &CopySettings,
) -> Result<Copier, StartFault> {
    let Ok(legs) = files.lines(alloc) else {
        return Err(StartFault::Memory);
    };
    let healing = healing_of(alloc, copies, files, places)?;
    let watch = LegWatch::new(shares_of(alloc, places)?);
    match Copier::new(alloc, mirror.shape(), legs, watch, healing) {
        Ok(copier) => Ok(copier),
        Err(_) => Err(StartFault::Memory),
    }
}

/// What is counted of the clients of so many places, and of these files.
pub fn metrics_of(alloc: Global, files: &LegFiles, sessions: u8) -> Result<Metrics, StartFault> {
    let Ok(legs) = files.counts(alloc) else {
        return Err(StartFault::Memory);
    };
    match Metrics::new(alloc, sessions as usize, legs) {
        Ok(metrics) => Ok(metrics),
        Err(_) => Err(StartFault::Memory),
    }
}

/// What saves superblocks, behind a lock.
pub type Saver = Mutex<SuperblockWriter<LateSlots>>;

// What saves superblocks, if there is something, and those that come late.
fn locked(alloc: Global, superblocks: Option<Superblocks>) -> (Option<Saver>, Vec<LateSuperblock>) {
    match superblocks {
        Some(own) => (Some(Mutex::new(own.writer)), own.late),
        None => (None, Vec::new(alloc)),
    }
}

/// What is at hand beside the mirror while it is served.
#[derive(Drop)]
pub struct Equipment {
    /// Each leg's place.
    pub places: Vec<Arc<LegPlace>>,
    /// Who syncs the legs' files ahead of a flush.
    pub syncs: LegSyncs,
    /// What saves its superblocks, if it has some.
    pub superblocks: Option<Saver>,
    /// What an administrator wants of copies.
    pub orders: CopyOrders,
}

// What is at hand beside the mirror over these files.
fn equip(
    alloc: Global,
    copies: &CopySettings,
    files: &LegFiles,
    superblocks: Option<Superblocks>,
) -> Result<Equipment, StartFault> {
    let (superblocks, late) = locked(alloc, superblocks);
    let places = places_of(alloc, files, late)?;
    Ok(Equipment {
        syncs: LegSyncs::new(alloc, shares_of(alloc, &places)?)?,
        places,
        superblocks,
        orders: orders_of(alloc, copies, files)?,
    })
}

/// The mirror with its passes, who copies its legs, and what is at hand beside it.
#[derive(Drop)]
pub struct Opened<J: Naming> {
    /// The mirror.
    pub mirror: FileMirror<J>,
    /// The passes of who copies its legs, and of its sessions.
    pub passes: Vec<Pass<Leg, J>>,
    /// Who copies its legs.
    pub copier: Copier,
    /// What is at hand beside it.
    pub own: Equipment,
}

// Who copies the mirror's legs, and the passes of who does so and of its sessions.
fn attended<R: Wait, J: Naming>(
    rt: &R,
    alloc: Global,
    settings: &Settings<'_>,
    files: &LegFiles,
    mirror: &FileMirror<J>,
    own: &Equipment,
) -> Result<(Copier, Vec<Pass<Leg, J>>), StartFault> {
    let copier = copier_of(alloc, mirror, files, &own.places, &settings.copies)?;
    let passes = passes_of(rt, alloc, mirror, settings.clients.sessions)?;
    Ok((copier, passes))
}

// The mirror with all that it is served by.
fn equipped<R: Wait, J: Naming>(
    rt: &R,
    alloc: Global,
    settings: &Settings<'_>,
    files: &LegFiles,
    opened: OpenedMirror<J>,
) -> Result<Opened<J>, StartFault> {
    let OpenedMirror {
        mirror,
        superblocks,
    } = opened;
    let own = equip(alloc, &settings.copies, files, superblocks)?;
    let (copier, passes) = attended(rt, alloc, settings, files, &mirror, &own)?;
    Ok(Opened {
        mirror,
        passes,
        copier,
        own,
    })
}

/// Opens the mirror over these files. From then on a leg's file is held by its place and its
/// stripes alone, which another may get.
pub fn open<R, J: Naming>(
    rt: &R,
    alloc: Global,
    settings: &Settings<'_>,
    mut files: LegFiles,
    control: &Listener,
    lines: &LogLines,
    log: EmptyLog<Leg, J>,
) -> Result<Opened<J>, StartFault>
where
    R: Threads + Wait + Sync + Clock + RandomSource + Files<File = File>,
{
    let meanwhile = ControlMeanwhile { control };
    let opened = open_asked_for(rt, alloc, settings, &mut files, &meanwhile, lines, log)?;
    files.tell_missing(rt, alloc, lines);
    equipped(rt, alloc, settings, &files, opened)
}
