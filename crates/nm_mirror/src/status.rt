//! What each stripe is doing.
ghost use Rattle.std.specs.Prelude.{◌≡◌, ◌<◌, length, IfOk};
ghost use Rattle.nm_leg.specs.Leg.{leg_type};
ghost use Rattle.nm_mirror.specs.Status.{AreLegs, EachTellsAt, IsStatus, KeepsAt};
ghost use Rattle.nm_mirror.specs.Status.{OnlySees, TellsAt};

use crate::mirror::Mirror;
use crate::trail::LogPass;
use nm_book::Naming;
use nm_geometry::MOST_LEGS;
use nm_lanes::Gate;
use nm_leg::LegPart;
use nm_replay::{Entry, Memory};
use nm_stripe::{LegState, Stripe};
use std::alloc::Global;
use std::fmt;
use std::sync::Wait;

/// What a leg of a stripe is doing.
#[derive(Clone, Copy, PartialEq, Eq)]
pub struct LegStatus {
    /// Its state.
    pub state: LegState,
    /// How many blocks are left to copy to it.
    pub left: u64,
}

/// What a stripe is doing.
///
/// It prints as `stopped`, or as its master, whether it settles, and its legs, as in
/// `master 0 settling no legs in join(6) out`.
#[derive(Drop)]
pub enum StripeStatus {
    /// Its only leg in sync failed in a write.
    Stopped,
    /// It goes on.
    Running {
        /// The leg where writes take effect.
        master: u8,
        /// Whether a failover is not over.
        settling: bool,
        /// Its legs, by rising number.
        legs: Vec<LegStatus>,
    },
}

/// What the stripe's legs are doing.
fn legs_of<L: LegPart>(stripe: &Stripe<L>, alloc: Global) -> Result<Vec<LegStatus>, Memory>
    ensures { IfOk result (λ legs. AreLegs stripe.now legs.items) }
{
    let mut legs = Vec::new(alloc);
    let count = stripe.legs().min(MOST_LEGS as usize);
    legs.reserve(count)?;
    for leg in 0..count as u8 {
        legs.push_reserved(LegStatus {
            state: stripe.state(leg),
            left: stripe.left(leg),
        });
    }
    Ok(legs)
}

/// What the stripe is doing.
pub(crate) fn status_of<L: LegPart>(
    stripe: &Stripe<L>,
    alloc: Global,
) -> Result<StripeStatus, Memory>
    ensures { IfOk result (IsStatus stripe.now) }
{
    if stripe.is_stopped() {
        return Ok(StripeStatus::Stopped);
    }
    Ok(StripeStatus::Running {
        master: stripe.master(),
        settling: stripe.is_settling(),
        legs: legs_of(stripe, alloc)?,
    })
}

impl fmt::Display for StripeStatus {
    fn fmt<W: fmt::Write>(&self, f: &mut fmt::Formatter<W>) -> fmt::Result {
        match self {
            StripeStatus::Stopped => f.write_str("stopped"),
            StripeStatus::Running {
                master,
                settling,
                legs,
            } => {
                let word = if *settling { "yes" } else { "no" };
                write!(f, "master {master} settling {word} legs")?;
                for leg in legs {
                    match leg.state {
                        LegState::InSync => f.write_str(" in")?,
                        LegState::Joining => write!(f, " join({})", leg.left)?,
                        LegState::Out => f.write_str(" out")?,
                    }
                }
                Ok(())
            }
        }
    }
}

impl<L: LegPart, G: Gate + Drop, J: Naming> Mirror<L, G, J> {
    /// What each stripe is doing, by rising number of the stripes: that to which the log leads
    /// there when this pass looks.
    pub fn status<R: Wait>(
        &self,
        rt: &R,
        alloc: Global,
        pass: &mut LogPass<L, J>,
    ) -> Result<Vec<StripeStatus>, Memory>
        ensures all { IfOk result (λ all. length all.items ≡ self.now.shape.stripes) }
        ensures each { IfOk result (λ all.
            EachTellsAt (leg_type L.model L.honest) pass.old pass.new all.items) }
        ensures sees { OnlySees pass.old pass.new }
    {
        let mut all = Vec::new(alloc);
        all.reserve(self.shape.stripes as usize)?;
        for stripe in 0..self.shape.stripes {
            all.push_reserved(self.status_in(rt, alloc, pass, stripe)?);
        }
        Ok(all)
    }

    /// What the stripe of this number is doing.
    fn status_in<R: Wait>(
        &self,
        rt: &R,
        alloc: Global,
        pass: &mut LogPass<L, J>,
        stripe: u32,
    ) -> Result<StripeStatus, Memory>
        requires { stripe < self.now.shape.stripes }
        ensures tells { IfOk result
            (TellsAt (leg_type L.model L.honest) pass.old pass.new stripe) }
        ensures sees { OnlySees pass.old pass.new }
    {
        let mut held = self.hold(rt, stripe);
        held.look(pass);
        status_of(&held.gated.stripe, alloc)
    }

    /// A copy of the entries that a stripe keeps, by rising number: the one to which the log leads
    /// there when this pass looks.
    pub fn kept<R: Wait>(
        &self,
        rt: &R,
        alloc: Global,
        pass: &mut LogPass<L, J>,
        stripe: u32,
    ) -> Result<Vec<Entry>, Memory>
        requires { stripe < self.now.shape.stripes }
        ensures keeps { IfOk result (λ kept.
            KeepsAt (leg_type L.model L.honest) pass.old pass.new stripe kept.items) }
        ensures sees { OnlySees pass.old pass.new }
    {
        let mut held = self.hold(rt, stripe);
        held.look(pass);
        held.gated.stripe.entries(alloc)
    }
}
