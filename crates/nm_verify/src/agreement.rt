//! Where all legs in sync of a stripe but one are to hold the same.
ghost use Rattle.std.specs.Prelude.{◌≡◌, ◌≢◌, ◌≤◌, ◌<◌, true, IfSome};
ghost use Rattle.nm_rules.specs.Runs.{FitsRun};
ghost use Rattle.nm_rules.specs.State.{is_quiet};
ghost use Rattle.nm_verify.specs.Pairs.{IsHere};
ghost use Rattle.nm_verify.specs.Runs.{run_length};

use crate::cursor::Cursor;
use crate::pairs::{is_here, next_here};
use crate::runs::run_length;
use nm_leg::LegPart;
use nm_stripe::Stripe;

/// A run of which all legs in sync but one hold the same.
#[derive(Clone, Copy, PartialEq, Eq)]
pub struct Agreed {
    /// How many blocks the run has.
    pub count: u64,
    /// The ticket that the stripe's next write gets.
    pub tickets: u64,
}

/// The lowest leg in sync but this one.
fn first_but<L: LegPart>(stripe: &Stripe<L>, leg: u8) -> Option<u8>
    ensures { IfSome result (λ first. IsHere first stripe.now × (first ≢ leg)) }
{
    let first = next_here(stripe, 0)?;
    if first != leg {
        return Some(first);
    }
    next_here(stripe, first + 1)
}

/// The run there, on which all legs in sync but this one, which is in sync itself, may agree, and
/// the lowest of them. None where there is no run or no other leg, or a write is under way in the
/// region.
pub fn run_without<L: LegPart>(stripe: &Stripe<L>, at: Cursor, leg: u8) -> Option<(u8, Agreed)>
    ensures here { IfSome result (λ run. IsHere leg stripe.now) }
    ensures another { IfSome result (λ run. IsHere run.0 stripe.now × (run.0 ≢ leg)) }
    ensures whole { IfSome result (λ run. run.1.count ≡ run_length stripe.now.place at.block) }
    ensures fits { IfSome result (λ run. FitsRun stripe.now.place at.block run.1.count) }
    ensures most { IfSome result (λ run. (0 < run.1.count) × (run.1.count ≤ 128)) }
    ensures tickets { IfSome result (λ run. run.1.tickets ≡ stripe.now.tickets) }
    ensures quiet { IfSome result (λ run. is_quiet at.block stripe.now ≡ true) }
{
    let count = run_length(stripe.place(), at.block);
    if count == 0 || !is_here(stripe, leg) || !stripe.is_quiet(at.block) {
        return None;
    }
    let first = first_but(stripe, leg)?;
    let tickets = stripe.tickets();
    Some((first, Agreed { count, tickets }))
}
