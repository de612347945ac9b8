//! Looks at two legs of a stripe, each in a hold of its own.
ghost use Rattle.std.specs.Prelude.{◌≡◌, ◌≤◌, ◌↔◌, length, take, IsTrue};
ghost use Rattle.nm_leg.specs.Leg.{leg_type};
ghost use Rattle.nm_verify.specs.Looks.{Begins, IsUntouched, Sees};

use crate::cursor::Cursor;
use crate::pairs::{is_here, pair_of};
use crate::runs::run_length;
use nm_fanout::MOST_RUN;
use nm_leg::LegPart;
use nm_replay::BLOCK_BYTES;
use nm_stripe::Stripe;

/// How many bytes the longest run has.
pub const MOST_BYTES: usize = BLOCK_BYTES * MOST_RUN;

/// What two looks found.
#[derive(Clone, Copy, PartialEq, Eq)]
pub enum Seen {
    /// The stripe has no run there.
    NoRun,
    /// No leg in sync is left that could be compared.
    NoLeg,
    /// A write was under way in the region, or one began in the stripe between the looks, or a leg
    /// went out, so that this leg was not compared.
    Written(u8),
    /// The first of these legs could not be read, so that the second one was not compared.
    Unread(u8, u8),
    /// This leg holds what the lowest leg in sync holds.
    Same(u8),
    /// This leg holds something else.
    Differs(u8),
}

/// A run of which the lowest leg in sync was read.
#[derive(Clone, Copy, PartialEq, Eq)]
pub struct Half {
    /// The lowest leg in sync.
    pub first: u8,
    /// The leg that is compared with it.
    pub second: u8,
    /// How many blocks the run has.
    pub count: u64,
    /// The ticket that the stripe's next write gets.
    pub tickets: u64,
}

/// What a look at the first of two legs found.
#[derive(Clone, Copy, PartialEq, Eq)]
pub enum Begun {
    /// That there is nothing to compare now, and why.
    Ends(Seen),
    /// What it holds; another leg is compared with that.
    Held(Half),
}

/// Whether both legs are still in sync, and no write came since the first was read.
fn is_untouched<L: LegPart>(stripe: &Stripe<L>, at: Cursor, half: Half) -> bool
    ensures { IsTrue result ↔ IsUntouched at half stripe.now }
{
    let count = run_length(stripe.place(), at.block);
    0 < count
        && count == half.count
        && is_here(stripe, half.first)
        && is_here(stripe, half.second)
        && stripe.tickets() == half.tickets
        && stripe.is_quiet(at.block)
}

/// Whether both have the same first bytes, so many.
pub fn is_same(held: &[u8], found: &[u8], long: usize) -> bool
    requires held { long ≤ length held.now }
    requires found { long ≤ length found.now }
    ensures { IsTrue result ↔ (take long found.now ≡ take long held.now) }
{
    found[..long] == held[..long]
}

/// Reads the run there of the lowest leg in sync into `held`, where another leg in sync is left to
/// be compared and no write is under way in the region.
///
/// Nothing of the stripe changes but what the read does to the leg.
pub fn look_first<L: LegPart>(stripe: &mut Stripe<L>, at: Cursor, held: &mut [u8]) -> Begun
    requires room { length held.old ≡ 65536 }
    ensures begins { Begins (leg_type L.model L.honest) at (stripe.old, stripe.new)
        held.new result }
    ensures room { length held.new ≡ 65536 }
    ensures others { stripe.new ≡ record stripe.old { legs = stripe.new.legs } }
{
    let count = run_length(stripe.place(), at.block);
    if count == 0 {
        return Begun::Ends(Seen::NoRun);
    }
    let Some((first, second)) = pair_of(stripe, at.leg) else {
        return Begun::Ends(Seen::NoLeg);
    };
    if !stripe.is_quiet(at.block) {
        return Begun::Ends(Seen::Written(second));
    }
    let long = BLOCK_BYTES * count as usize;
    if stripe.look(first, at.block, &mut held[..long]).is_err() {
        return Begun::Ends(Seen::Unread(first, second));
    }
    Begun::Held(Half {
        first,
        second,
        count,
        tickets: stripe.tickets(),
    })
}

/// Reads the same run of the second leg into `found`, and compares it with what the first leg held,
/// where no write came since.
///
/// Nothing of the stripe changes but what the read does to the leg.
pub fn look_second<L: LegPart>(
    stripe: &mut Stripe<L>,
    at: Cursor,
    half: Half,
    held: &[u8],
    found: &mut [u8],
) -> Seen
    requires held { length held.now ≡ 65536 }
    requires room { length found.old ≡ 65536 }
    ensures sees { Sees (leg_type L.model L.honest) (at, half) (stripe.old, stripe.new)
        held.now found.new result }
    ensures room { length found.new ≡ 65536 }
    ensures others { stripe.new ≡ record stripe.old { legs = stripe.new.legs } }
{
    if !is_untouched(stripe, at, half) {
        return Seen::Written(half.second);
    }
    let long = BLOCK_BYTES * half.count as usize;
    if stripe
        .look(half.second, at.block, &mut found[..long])
        .is_err()
    {
        return Seen::Unread(half.second, half.second);
    }
    if is_same(held, found, long) {
        Seen::Same(half.second)
    } else {
        Seen::Differs(half.second)
    }
}
