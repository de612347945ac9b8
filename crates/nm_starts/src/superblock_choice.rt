//! What a start by superblocks goes by.
ghost use Rattle.std.specs.Prelude.{◌≡◌, ◌⊎◌, ◌<◌, ◌≤◌, ℕ, None, Some, IfOk, IfErr, IfNone, IfSome};
ghost use Rattle.std.specs.Prelude.{slice_index_or};
ghost use Rattle.nm_assemble.specs.Image.{IsClosedTo};
ghost use Rattle.nm_assemble.specs.Start.{IsNewest};
ghost use Rattle.nm_assemble.specs.declared.assembly.AssembleFault.TheVariants.{Unfit};
ghost use Rattle.nm_starts.specs.SuperblockChoice.{Chooses, IsAssembled, IsSureOr, MayBeAsked};
ghost use Rattle.nm_starts.specs.SuperblockChoice.{RefusesChoice, Takes, leg_said, told};

use nm_assemble::{
    AssembleFault, Assembly, LegsHere, Misfit, assemble, begin_lineage, forced_image, missing_leg,
    newest_of, own_legs,
};
use nm_commands::{OpeningSettings, Start};
use nm_geometry::LegSet;
use nm_reports::StartFault;
use nm_superblock::Superblock;

/// What a start finds of the legs.
#[derive(Clone, Copy, PartialEq, Eq)]
pub struct FoundLegs {
    /// Their superblocks.
    pub found: [Option<Superblock>; 8],
    /// What is here of them.
    pub legs: LegsHere,
}

/// What a start by superblocks goes by.
#[derive(Clone, Copy, PartialEq, Eq)]
pub enum Choice {
    /// No superblock was found: the mirror gets its first ones.
    First,
    /// This image of the newest one.
    Image(Superblock),
}

// The leg that was named, where a mirror has no such leg.
fn beyond(named: Option<u8>) -> Option<u8>
    ensures some { IfSome result (λ leg. (8 ≤ leg) × (named ≡ Some leg)) }
    ensures none { IfNone result (IfSome named (λ leg. leg < 8)) }
{
    match named {
        Some(leg) if leg >= 8 => Some(leg),
        _ => None,
    }
}

// The leg that a superblock says it is of.
fn leg_said(superblock: &Option<Superblock>) -> u8
    ensures { result ≡ leg_said superblock.now }
{
    match superblock {
        Some(superblock) => superblock.leg,
        None => 0,
    }
}

// A leg's time among these.
fn time_in(times: &[u64; 8], leg: usize) -> u64
    ensures { result ≡ slice_index_or times.now leg 0 }
{
    if leg < 8 { times[leg] } else { 0 }
}

// What is told of a leg whose superblock does not go with the newest one.
fn misfit_told(leg: usize, why: Misfit, seen: &FoundLegs, newest: &Superblock) -> StartFault
    ensures { result ≡ told (Unfit leg why) seen.now newest.now }
{
    match why {
        Misfit::OtherMirror => StartFault::OtherMirror(leg),
        Misfit::OtherLeg => {
            let said = match seen.found.get(leg) {
                Some(beside) => leg_said(beside),
                None => 0,
            };
            StartFault::OtherLeg(leg, said)
        }
        Misfit::Apart => {
            let other = newest.leg as usize;
            StartFault::WentApart(leg.min(other), leg.max(other))
        }
    }
}

// What is told where superblocks do not decide.
fn told(why: AssembleFault, seen: &FoundLegs, newest: &Superblock) -> StartFault
    ensures { result ≡ told why seen.now newest.now }
{
    match why {
        AssembleFault::NoSuperblock => StartFault::Memory,
        AssembleFault::Unfit(leg, why) => misfit_told(leg, why, seen, newest),
        AssembleFault::Mixed(leg, other) => StartFault::WasLeg(leg, other),
        AssembleFault::Another(leg) => StartFault::AnotherFile(leg),
        AssembleFault::Changed(leg) => {
            let recorded = time_in(&newest.changed, leg);
            StartFault::WasChanged(leg, recorded, time_in(&seen.legs.changed, leg))
        }
        AssembleFault::MayBeNewer(leg) => StartFault::MayBeNewer(leg),
        AssembleFault::NoneInSync(stripe) => StartFault::NoneInSync(stripe),
    }
}

// The master that was asked for, if every stripe may open on it; the leg, if it may not.
fn asked_master(asked: Option<u8>, assembly: &Assembly) -> Result<Option<usize>, u8>
    requires { IfSome asked (λ leg. leg < 8) }
    ensures ok { IfOk result (λ own. (own ≡ asked) × MayBeAsked asked assembly.now) }
    ensures refused { IfErr result (λ leg. (asked ≡ Some leg)
        × ((stripe : ℕ) × IsClosedTo leg assembly.now stripe)) }
{
    match asked {
        None => Ok(None),
        Some(leg) => match assembly.first_closed_to(leg as usize) {
            Some(_) => Err(leg),
            None => Ok(Some(leg as usize)),
        },
    }
}

// The image of a start that may not be sure: then it begins a lineage.
fn sure_or_forked(
    seen: &FoundLegs,
    newest: &Superblock,
    sure: &Superblock,
    lineage: u64,
) -> Superblock
    ensures { IsSureOr lineage seen.now newest.now sure.now result }
{
    match missing_leg(newest, &seen.found) {
        Some(_) => begin_lineage(sure, lineage),
        None => *sure,
    }
}

// The image of a start that nobody forced.
fn assembled(
    opening: &OpeningSettings<'_>,
    seen: &FoundLegs,
    newest: &Superblock,
    lineage: u64,
) -> Result<Superblock, StartFault>
    requires newest { IsNewest 8 newest.now seen.now.found }
    requires unforced { opening.now.force_master ≡ None }
    requires leg { IfSome opening.now.master (λ leg. leg < 8) }
    ensures ok { IfOk result (IsAssembled opening.now seen.now lineage newest.now) }
    ensures refused { IfErr result (RefusesChoice opening.now seen.now) }
{
    if opening.start == Start::Equal {
        return Err(StartFault::NotFirstStart);
    }
    if opening.start == Start::Full {
        return Err(StartFault::NotWhole);
    }
    let assembly = match assemble(&seen.found, &seen.legs, opening.degraded) {
        Ok(assembly) => assembly,
        Err(why) => return Err(told(why, seen, newest)),
    };
    let asked = match asked_master(opening.master, &assembly) {
        Ok(asked) => asked,
        Err(leg) => return Err(StartFault::NotInSync(leg)),
    };
    let own = own_legs(&assembly.newest, &seen.legs);
    let sure = assembly.image(&own, &seen.legs.identities, asked);
    Ok(sure_or_forked(seen, newest, &sure, lineage))
}

/// The legs whose files a start by superblocks takes: those that are here and their own, and all
/// that are here where a leg was forced on it, or where there are no superblocks.
pub fn taken_legs(opening: &OpeningSettings<'_>, seen: &FoundLegs) -> LegSet
    ensures { Takes opening.now.force_master seen.now result }
{
    match (opening.force_master, newest_of(&seen.found)) {
        (None, Some(newest)) => own_legs(&newest, &seen.legs),
        _ => seen.legs.here,
    }
}

/// What a start by superblocks goes by: where a leg was forced on it that leg, else the newest
/// superblock, if it decides. A start that is not sure, or that is forced, begins this lineage.
pub fn choose(
    opening: &OpeningSettings<'_>,
    seen: &FoundLegs,
    lineage: u64,
) -> Result<Choice, StartFault>
    ensures ok { IfOk result (Chooses opening.now seen.now lineage) }
    ensures refused { IfErr result (RefusesChoice opening.now seen.now) }
{
    if let Some(leg) = beyond(opening.force_master) {
        return Err(StartFault::NoMaster(leg));
    }
    if let Some(leg) = beyond(opening.master) {
        return Err(StartFault::NoMaster(leg));
    }
    let Some(newest) = newest_of(&seen.found) else {
        return Ok(Choice::First);
    };
    match opening.force_master {
        Some(leg) => {
            let image = forced_image(&newest, leg as usize, lineage, &seen.legs);
            Ok(Choice::Image(image))
        }
        None => match assembled(opening, seen, &newest, lineage) {
            Ok(image) => Ok(Choice::Image(image)),
            Err(fault) => Err(fault),
        },
    }
}
