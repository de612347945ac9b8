//! The stripe of a script, whose legs may lose power while they are out.
ghost use Rattle.std.specs.Prelude.{◌≡◌, ◌<◌, ◌≤◌, slice_get, None, Some, if◌then◌else◌};
ghost use Rattle.std.specs.Prelude.{IfOk, IfErr};
ghost use Rattle.nm_geometry.specs.LegSets.{has};
ghost use Rattle.nm_script_lib.specs.MemStripe.{HasShape, IsInside, everywhere};
ghost use Rattle.nm_script_lib.specs.ScriptStripe.{ComesBack, LosesPower, asked_back, forgotten};
ghost use Rattle.nm_script_lib.specs.ScriptStripe.{lost_after, shown};
ghost use Rattle.nm_script_lib.specs.declared.step.Step.TheVariants.{Ask};
ghost use Rattle.nm_script_lib.specs.declared.run_error.RunError.TheVariants.{Memory};

use crate::mirror_line::MirrorLine;
use crate::power_leg::PowerLeg;
use crate::run_error::RunError;
use crate::step::StripeStep;
use nm_geometry::LegSet;
use nm_replay::Block;
use nm_stripe::{Answer, Handed, LegState, Refusal, Spans, Stripe};
use std::alloc::Global;

/// How many regions the one span of a return has: as many as a script's stripe may have.
const SPAN: u64 = 65_536;

/// The stripe that a script runs, and which of its legs lost power since they went out.
///
/// Such a leg stands in the stripe as it was, since no step calls a leg that is out. What is left
/// of it takes its place as it comes back.
#[derive(Drop)]
pub struct ScriptStripe {
    pub stripe: Stripe<PowerLeg>,
    /// Those that did.
    pub lost: LegSet,
}

/// One marked span, which has every region.
pub fn everywhere(alloc: Global) -> Result<Spans, RunError>
    ensures spans { IfOk result (λ spans. spans ≡ everywhere) }
    ensures cause { IfErr result (λ e. e ≡ Memory) }
{
    let mut marked = Vec::new(alloc);
    marked.push(true)?;
    Ok(Spans {
        marked,
        regions: SPAN,
    })
}

/// The leg, if it lost power.
fn if_lost(lost: &LegSet, leg: u8) -> Option<u8>
    ensures { result ≡ (if has leg lost.now then Some leg else None) }
{
    if lost.has(leg as usize) {
        Some(leg)
    } else {
        None
    }
}

/// The leg that a step asks back, if it lost power.
pub fn asked_back(lost: &LegSet, step: StripeStep) -> Option<u8>
    ensures { result ≡ asked_back step lost.now }
{
    match step {
        StripeStep::Attach { leg } => if_lost(lost, leg),
        StripeStep::Return { leg } => if_lost(lost, leg),
        _ => None,
    }
}

/// A leg that was replaced by a new one has lost nothing.
pub fn forgive(lost: &mut LegSet, mirror: &MirrorLine, step: StripeStep, answer: &Answer<PowerLeg>)
    requires few { mirror.now.legs ≤ 8 }
    requires inside { IsInside mirror.now (Ask step) }
    ensures { lost.new ≡ lost_after step answer.now lost.old }
{
    if let StripeStep::Replace { leg, .. } = step {
        if let Answer::Joining(_) = answer {
            lost.set(leg as usize, false);
        }
    }
}

impl ScriptStripe {
    /// The block at `block` that the leg has now.
    pub fn shown(&self, mirror: &MirrorLine, leg: u8, block: u64) -> &Block
        requires shape { HasShape mirror.now self.now.stripe }
        requires leg { leg < mirror.now.legs }
        requires block { block < mirror.now.blocks }
        ensures { slice_get (shown self.now leg) block ≡ Some result.now }
    {
        let part = self.stripe.part(leg);
        if self.lost.has(leg as usize) {
            part.durable_block(block)
        } else {
            part.block(block)
        }
    }

    /// How many blocks of the leg a loss of its power changes now.
    fn forgotten(&self, mirror: &MirrorLine, leg: u8) -> u64
        requires shape { HasShape mirror.now self.now.stripe }
        requires leg { leg < mirror.now.legs }
        ensures { result ≡ forgotten self.now leg }
    {
        if self.lost.has(leg as usize) {
            0
        } else {
            self.stripe.part(leg).changed()
        }
    }

    /// The leg loses power, and each block of it that is not durable is what is durable of it.
    /// Answers how many blocks were changed.
    ///
    /// Refused as `NotOut`.
    pub fn lose(&mut self, mirror: &MirrorLine, leg: u8) -> Result<u64, Refusal>
        requires shape { HasShape mirror.now self.old.stripe }
        requires leg { leg < mirror.now.legs }
        ensures { LosesPower leg result self.old self.new }
    {
        match self.stripe.state(leg) {
            LegState::Out => {
                let count = self.forgotten(mirror, leg);
                self.lost.set(leg as usize, true);
                Ok(count)
            }
            LegState::InSync | LegState::Joining => Err(Refusal::NotOut),
        }
    }

    /// A leg that lost power is asked back, and returns as what is left of it.
    pub fn come_back(
        &mut self,
        alloc: Global,
        mirror: &MirrorLine,
        leg: u8,
    ) -> Result<Answer<PowerLeg>, RunError>
        requires shape { HasShape mirror.now self.old.stripe }
        requires leg { leg < mirror.now.legs }
        ensures ok { IfOk result (λ answer. ComesBack leg answer self.old self.new) }
        ensures shape { HasShape mirror.now self.new.stripe }
        ensures cause { IfErr result (λ e. e ≡ Memory) }
    {
        let part = self.stripe.part(leg).left(alloc)?;
        match self.stripe.return_lost(leg, part, &[true], SPAN) {
            Ok(left) => {
                self.lost.set(leg as usize, false);
                Ok(Answer::Joining(left))
            }
            Err((refusal, _part)) => Ok(Answer::Refused(refusal, Handed::Nothing)),
        }
    }
}
