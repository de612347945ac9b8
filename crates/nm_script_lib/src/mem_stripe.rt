//! The stripe that a script runs: legs in memory, each with a cache and a fuse, of zero bytes and
//! all in sync, or loaded and compared.
ghost use Rattle.std.specs.Prelude.{◌≡◌, ℕ, ◌<◌, ◌≤◌, ◌-◌, ◌^◌, true, length, replicate, Some};
ghost use Rattle.std.specs.Prelude.{IfOk, IfErr, OnOk};
ghost use Rattle.std.specs.List.{AllByRecursion};
ghost use Rattle.nm_fanout.specs.declared.block_data.Data.TheVariants.{Cut, Part};
ghost use Rattle.nm_leg.specs.Leg.{IsRun, WritesLeg};
ghost use Rattle.nm_leg.specs.TestLegs.{of_fuse};
ghost use Rattle.nm_script_lib.specs.declared.step.Step.TheVariants.{Ask};
ghost use Rattle.nm_script_lib.specs.MemStripe.{InRange, AreNewLegs, AreLoadedLegs, IsNew};
ghost use Rattle.nm_script_lib.specs.MemStripe.{IsOpened, FitsLoad, FitOpening, place_of};
ghost use Rattle.nm_script_lib.specs.MemStripe.{HasShape, IsInside, IsAsked, filled_block};
ghost use Rattle.nm_script_lib.specs.MemStripe.{IsReplacement, filled, loaded_leg};
ghost use Rattle.nm_script_lib.specs.PowerLeg.{of_power};
ghost use Rattle.nm_stripe.specs.declared.step.Step.TheVariants.{Begin as BeginStep};
ghost use Rattle.nm_stripe.specs.declared.step.Step.TheVariants.{Read as ReadStep};
ghost use Rattle.nm_script_lib.specs.declared.run_error.RunError.TheVariants.{Memory};
ghost use Rattle.nm_script_lib.specs.ScriptStripe.{Answers, Asks, Begins};

use crate::load::Load;
use crate::mirror_line::MirrorLine;
use crate::power_leg::PowerLeg;
use crate::run_error::RunError;
use crate::script::Script;
use crate::script_stripe::{ScriptStripe, asked_back, everywhere, forgive};
use crate::step::StripeStep;
use bytes::Bytes;
use nm_fanout::Data;
use nm_geometry::LegSet;
use nm_leg::{FuseLeg, LegFault, LegPart};
use nm_replay::BLOCK_BYTES;
use nm_stripe::{Answer, At, Room, Step, Stripe};
use std::alloc::Global;

/// The mirror's legs, of zero blocks.
fn new_legs(alloc: Global, mirror: &MirrorLine) -> Result<Vec<PowerLeg>, RunError>
    ensures legs { IfOk result (λ v. AreNewLegs mirror.now v.items) }
    ensures cause { IfErr result (λ e. e ≡ Memory) }
{
    let mut all = Vec::new(alloc);
    for _ in 0..mirror.legs {
        let leg = FuseLeg::new(alloc, mirror.blocks)?;
        all.push(PowerLeg::synced(alloc, leg)?)?;
    }
    Ok(all)
}

/// The bits of this many legs, from leg 0 on.
fn all_in_sync(legs: u8) -> u8
    requires { (1 ≤ legs) × (legs ≤ 8) }
    ensures { result ≡ 2 ^ legs - 1 }
{
    u8::MAX >> (8 - legs)
}

/// How many entries of its history the stripe keeps.
const MOST_KEPT: u16 = 1_024;

/// The place of a mirror's one stripe.
fn place_of(mirror: &MirrorLine) -> At
    ensures { result ≡ place_of mirror.now }
{
    At {
        stripe: 0,
        blocks: mirror.blocks,
        region: mirror.region,
        chunk: mirror.chunk,
        history: MOST_KEPT,
    }
}

/// A new stripe for this mirror.
fn open(alloc: Global, mirror: &MirrorLine) -> Result<Stripe<PowerLeg>, RunError>
    requires { InRange mirror.now }
    ensures opened { IfOk result (λ stripe. IsNew mirror.now stripe) }
    ensures cause { IfErr result (λ e. e ≡ Memory) }
{
    let legs = new_legs(alloc, mirror)?;
    let in_sync = all_in_sync(mirror.legs);
    let place = place_of(mirror);
    match Stripe::open(alloc, place, legs, in_sync, mirror.first, mirror.policy) {
        Ok(stripe) => Ok(stripe),
        Err((memory, _)) => Err(RunError::from(memory)),
    }
}

/// Writes a load to its leg. No call of the leg fails here, as no fuse is set.
fn load_leg(leg: &mut FuseLeg, load: &Load) -> Result<(), RunError>
    requires { IsRun load.now.block (length (of_fuse leg.old).contents)
        (filled_block load.now.fill) }
    ensures ok { OnOk result (WritesLeg true true load.now.block (filled_block load.now.fill)
        (of_fuse leg.old) (of_fuse leg.new)) }
    ensures cause { IfErr result (λ e. e ≡ Memory) }
{
    match leg.write(load.block, &filled_block(load.fill)) {
        Ok(()) => Ok(()),
        Err(LegFault) => Err(RunError::Memory),
    }
}

/// The mirror's leg at this place, with these loads.
fn loaded_leg(
    alloc: Global,
    mirror: &MirrorLine,
    loads: &[Load],
    place: u8,
) -> Result<PowerLeg, RunError>
    requires { AllByRecursion (FitsLoad mirror.now) loads.now }
    ensures leg { IfOk result (λ leg. of_power leg ≡ loaded_leg mirror.now loads.now place) }
    ensures cause { IfErr result (λ e. e ≡ Memory) }
{
    let mut leg = FuseLeg::new(alloc, mirror.blocks)?;
    for load in loads {
        if load.leg == place {
            load_leg(&mut leg, load)?;
        }
    }
    PowerLeg::synced(alloc, leg)
}

/// The mirror's legs, with these loads.
fn loaded_legs(
    alloc: Global,
    mirror: &MirrorLine,
    loads: &[Load],
) -> Result<Vec<PowerLeg>, RunError>
    requires { AllByRecursion (FitsLoad mirror.now) loads.now }
    ensures legs { IfOk result (λ v. AreLoadedLegs mirror.now loads.now v.items) }
    ensures cause { IfErr result (λ e. e ≡ Memory) }
{
    let mut all = Vec::new(alloc);
    for place in 0..mirror.legs {
        all.push(loaded_leg(alloc, mirror, loads, place)?)?;
    }
    Ok(all)
}

/// A stripe for this mirror whose legs have these loads, and were compared with the master.
fn open_compared(
    alloc: Global,
    mirror: &MirrorLine,
    loads: &[Load],
    master: u8,
) -> Result<Stripe<PowerLeg>, RunError>
    requires range { InRange mirror.now }
    requires fits { FitOpening mirror.now loads.now (Some master) }
    ensures opened { IfOk result (IsOpened mirror.now loads.now (Some master)) }
    ensures cause { IfErr result (λ e. e ≡ Memory) }
{
    let legs = loaded_legs(alloc, mirror, loads)?;
    let place = place_of(mirror);
    match Stripe::open_compared(alloc, place, legs, master, mirror.first, mirror.policy) {
        Ok(stripe) => Ok(stripe),
        Err(_) => Err(RunError::Memory),
    }
}

/// The stripe of a script, opened.
fn open_stripe(alloc: Global, script: &Script) -> Result<Stripe<PowerLeg>, RunError>
    requires range { InRange script.now.mirror }
    requires fits { FitOpening script.now.mirror script.now.loads.items script.now.master }
    ensures opened { IfOk result
        (IsOpened script.now.mirror script.now.loads.items script.now.master) }
    ensures cause { IfErr result (λ e. e ≡ Memory) }
{
    match script.master {
        Some(master) => open_compared(alloc, &script.mirror, &script.loads, master),
        None => open(alloc, &script.mirror),
    }
}

/// The stripe that a script begins with.
pub fn open_script(alloc: Global, script: &Script) -> Result<ScriptStripe, RunError>
    requires range { InRange script.now.mirror }
    requires fits { FitOpening script.now.mirror script.now.loads.items script.now.master }
    ensures begins { IfOk result
        (Begins script.now.mirror script.now.loads.items script.now.master) }
    ensures cause { IfErr result (λ e. e ≡ Memory) }
{
    let stripe = open_stripe(alloc, script)?;
    Ok(ScriptStripe {
        stripe,
        lost: LegSet::none(),
    })
}

/// A block of one byte throughout.
#[tactic(auto, unfolding(crate::specs::MemStripe::filled_block))]
fn filled_block(fill: u8) -> [u8; 512]
    ensures { result ≡ filled_block fill }
{
    [fill; 512]
}

/// A write of so many bytes of a block, all of them this one, from a place on.
fn patch(alloc: Global, from: u16, len: u16, fill: u8) -> Result<Data, RunError>
    requires { len ≤ 512 }
    ensures part { IfOk result (λ «data». «data» ≡ Part from (replicate len fill)) }
    ensures cause { IfErr result (λ e. e ≡ Memory) }
{
    let bytes = Bytes::copy_from_slice(alloc, &filled_block(fill)[..len as usize])?;
    Ok(Data::Part { from, bytes })
}

/// The bytes of so many blocks, all of them this one.
#[tactic(auto, unfolding(crate::specs::MemStripe::filled))]
fn filled(alloc: Global, count: u64, fill: u8) -> Result<Vec<u8>, RunError>
    requires { count ≤ 128 }
    ensures bytes { IfOk result (λ bytes. bytes.items ≡ filled count fill) }
    ensures cause { IfErr result (λ e. e ≡ Memory) }
{
    let mut bytes = Vec::new(alloc);
    bytes.resize(BLOCK_BYTES * count as usize, fill)?;
    Ok(bytes)
}

/// A begin of a run of so many blocks, whose bytes are all this one.
fn begin_run(alloc: Global, block: u64, count: u64, fill: u8) -> Result<Step<PowerLeg>, RunError>
    requires { count ≤ 128 }
    ensures step { IfOk result (λ step. step ≡ BeginStep block (Cut (filled count fill))) }
    ensures cause { IfErr result (λ e. e ≡ Memory) }
{
    let bytes = filled(alloc, count, fill)?;
    let cut = Bytes::copy_from_slice(alloc, &bytes)?;
    Ok(Step::Begin(block, Data::Cut(cut)))
}

/// A read of a run of so many blocks, with room for their bytes.
fn read_run(alloc: Global, block: u64, count: u64) -> Result<Step<PowerLeg>, RunError>
    requires { count ≤ 128 }
    ensures step { IfOk result (λ step. step ≡ ReadStep block (filled count 0)) }
    ensures cause { IfErr result (λ e. e ≡ Memory) }
{
    let bytes = filled(alloc, count, 0)?;
    Ok(Step::Read(block, Room::new(bytes)))
}

/// A leg to put in another's place: of this byte, and none of it known to be synced.
fn replacement(alloc: Global, mirror: &MirrorLine, fill: u8) -> Result<PowerLeg, RunError>
    ensures part { IfOk result (IsReplacement mirror.now fill) }
    ensures cause { IfErr result (λ e. e ≡ Memory) }
{
    let leg = FuseLeg::with_byte(alloc, mirror.blocks, fill)?;
    PowerLeg::unsure(alloc, leg)
}

/// What a step of a script asks of the stripe.
fn step_for(
    alloc: Global,
    mirror: &MirrorLine,
    step: StripeStep,
) -> Result<Step<PowerLeg>, RunError>
    requires { IsInside mirror.now (Ask step) }
    ensures asked { IfOk result (λ s. IsAsked mirror.now step s) }
    ensures cause { IfErr result (λ e. e ≡ Memory) }
{
    match step {
        StripeStep::Begin { block, fill } => {
            let bytes = Bytes::copy_from_slice(alloc, &filled_block(fill))?;
            Ok(Step::Begin(block, Data::Cut(bytes)))
        }
        StripeStep::Zero { block } => Ok(Step::Begin(block, Data::Zero(1))),
        StripeStep::Patch {
            block,
            from,
            len,
            fill,
        } => Ok(Step::Begin(block, patch(alloc, from, len, fill)?)),
        StripeStep::Push { ticket, leg } => Ok(Step::Push(ticket, leg)),
        StripeStep::Claim { ticket } => Ok(Step::Claim(ticket)),
        StripeStep::Read { block } => read_run(alloc, block, 1),
        StripeStep::Run { block, count, fill } => begin_run(alloc, block, count, fill),
        StripeStep::Get { block, count } => read_run(alloc, block, count),
        StripeStep::Fail { leg } => Ok(Step::Fail(leg)),
        StripeStep::Attach { leg } => Ok(Step::Attach(leg)),
        StripeStep::Return { leg } => Ok(Step::Return(leg, everywhere(alloc)?)),
        StripeStep::Copy { leg, most } => Ok(Step::Copy(leg, most, 0)),
        StripeStep::Promote { leg } => Ok(Step::Promote(leg)),
        StripeStep::Sync { leg } => Ok(Step::Sync(leg)),
        StripeStep::Flush { leg } => Ok(Step::Flush(leg)),
        StripeStep::Replace { leg, fill } => {
            let part = replacement(alloc, mirror, fill)?;
            Ok(Step::Replace(leg, part))
        }
    }
}

/// Asks the stripe for a step. What it hands in is allocated before the step.
fn ask(
    alloc: Global,
    mirror: &MirrorLine,
    running: &mut ScriptStripe,
    step: StripeStep,
) -> Result<Answer<PowerLeg>, RunError>
    requires shape { HasShape mirror.now running.old.stripe }
    requires inside { IsInside mirror.now (Ask step) }
    ensures ok { IfOk result (λ answer. Asks mirror.now step answer running.old running.new) }
    ensures shape { HasShape mirror.now running.new.stripe }
    ensures cause { IfErr result (λ e. e ≡ Memory) }
{
    let asked = step_for(alloc, mirror, step)?;
    let answer = running.stripe.step(asked);
    forgive(&mut running.lost, mirror, step, &answer);
    Ok(answer)
}

/// Does one step of the stripe. A leg that lost power comes back as what is left of it.
pub fn step(
    alloc: Global,
    mirror: &MirrorLine,
    running: &mut ScriptStripe,
    step: StripeStep,
) -> Result<Answer<PowerLeg>, RunError>
    requires shape { HasShape mirror.now running.old.stripe }
    requires inside { IsInside mirror.now (Ask step) }
    ensures ok { IfOk result (λ answer. Answers mirror.now step answer running.old running.new) }
    ensures shape { HasShape mirror.now running.new.stripe }
    ensures cause { IfErr result (λ e. e ≡ Memory) }
{
    match asked_back(&running.lost, step) {
        Some(leg) => running.come_back(alloc, mirror, leg),
        None => ask(alloc, mirror, running, step),
    }
}
