//! Syncs that no client asks for: of what was not flushed, and of stripes that are at rest, whose
//! marks are cleared.
ghost use Rattle.std.specs.Prelude.{◌≡◌, ◌<◌, ◌↔◌, ℕ, false, length, IfSome, IsTrue, None};
ghost use Rattle.std.specs.Prelude.{slice_index_or};
ghost use Rattle.std.specs.List.{list_any};
ghost use Rattle.nm_leg.specs.Leg.{leg_type};
ghost use Rattle.nm_gate.specs.Claims.{legs_where, marks_of};
ghost use Rattle.nm_gate.specs.Settling.{EndsInFailure, MaySettle, TriesSync};
ghost use Rattle.nm_geometry.specs.LegSets.{AreBitsOf};
ghost use Rattle.nm_mirror.specs.Asks.{LetsPass};
ghost use Rattle.nm_mirror.specs.Holding.{with_gated, with_stripe};
ghost use Rattle.nm_mirror.specs.declared.ask.Ask.TheVariants as ask;
ghost use Rattle.nm_mirror.specs.Settling.{WasSynced, SyncsFirst, SyncsSome};
ghost use Rattle.nm_mirror.specs.Settling.{HasAtWork, is_at_work};

use crate::ask::{Ask, refusal_of};
use crate::doubts::Doubts;
use crate::held::Held;
use crate::mirror::Mirror;
use nm_book::Naming;
use nm_geometry::LegSet;
use nm_lanes::Gate;
use nm_leg::LegPart;
use nm_stripe::{LegState, Refusal, Stripe, Syncing};
use std::sync::Wait;

/// Flushes the leg, if it is not out. Whether it does not fail.
fn flush_one<L: LegPart, J: Naming>(held: &mut Held<L, J>, leg: u8) -> bool
    requires saved { LetsPass held.old.gated.durable held.old.gated.stripe ask.Answer }
    requires leg { leg < length held.old.gated.stripe.legs }
    ensures tries { TriesSync (leg_type L.model L.honest) leg result held.old.gated.stripe
        held.new.gated.stripe }
    ensures others { held.new ≡ with_stripe held.new.gated.stripe held.old }
{
    match held.flush_leg(leg) {
        Ok(Syncing::Synced) => true,
        Ok(Syncing::LegLost(_)) => false,
        Err(Refusal::AlreadyOut) => true,
        Err(_) => false,
    }
}

/// Flushes each leg of the stripe that is not out, until one fails. Whether none does.
fn flush_legs<L: LegPart, J: Naming>(held: &mut Held<L, J>) -> bool
    requires { LetsPass held.old.gated.durable held.old.gated.stripe ask.Answer }
    ensures synced { IsTrue result → SyncsFirst (leg_type L.model L.honest)
        (length held.old.gated.stripe.legs) held.old.gated.stripe held.new.gated.stripe }
    ensures failed { result ≡ false
        → EndsInFailure (leg_type L.model L.honest) held.new.gated.stripe }
    ensures moves { SyncsSome (leg_type L.model L.honest) held.old.gated.stripe
        held.new.gated.stripe }
    ensures others { held.new ≡ with_stripe held.new.gated.stripe held.old }
{
    let legs = held.gated.stripe.legs() as u8;
    'legs: for leg in 0..legs {
        if !flush_one(held, leg) {
            return false;
        }
    }
    true
}

/// Whether the stripe has the leg, and it is not out.
fn is_at_work<L: LegPart>(stripe: &Stripe<L>, leg: u8) -> bool
    ensures { result ≡ is_at_work stripe.now leg }
{
    if (leg as usize) >= stripe.legs() {
        return false;
    }
    match stripe.state(leg) {
        LegState::Out => false,
        LegState::InSync | LegState::Joining => true,
    }
}

/// The legs that are not out in the stripe.
pub(crate) fn at_work<L: LegPart>(stripe: &Stripe<L>) -> LegSet
    ensures { result ≡ legs_where (is_at_work stripe.now) }
{
    LegSet::of([
        is_at_work(stripe, 0),
        is_at_work(stripe, 1),
        is_at_work(stripe, 2),
        is_at_work(stripe, 3),
        is_at_work(stripe, 4),
        is_at_work(stripe, 5),
        is_at_work(stripe, 6),
        is_at_work(stripe, 7),
    ])
}

/// The legs that are in doubt.
fn doubted_of<D: Doubts>(doubts: &D) -> LegSet {
    LegSet::of([
        doubts.is_doubted(0),
        doubts.is_doubted(1),
        doubts.is_doubted(2),
        doubts.is_doubted(3),
        doubts.is_doubted(4),
        doubts.is_doubted(5),
        doubts.is_doubted(6),
        doubts.is_doubted(7),
    ])
}

/// Whether a leg of those in doubt is not out in the stripe. A sync of it tells nothing of what it
/// was written before.
fn has_doubted<L: LegPart>(stripe: &Stripe<L>, doubted: &LegSet) -> bool
    ensures { IsTrue result ↔ HasAtWork stripe.now doubted.now }
{
    at_work(stripe).and(doubted).has_some()
}

/// Clears the stripe's marks where its legs are equal and none is in doubt. Whether it had some,
/// and has none.
///
/// Its legs are synced before it is looked whether one is in doubt: a power loss under way would
/// fail a call by then.
fn try_settle<L: LegPart, J: Naming, D: Doubts>(held: &mut Held<L, J>, doubts: &D) -> bool
    ensures none { held.old.gated.durable ≡ None → result ≡ false }
    ensures marked { IfSome held.old.gated.durable (λ d. IsTrue result
        → IsTrue (list_any (λ marked. marked) d.marked)) }
    ensures synced { IfSome held.old.gated.durable (λ d. IsTrue result
        → MaySettle held.old.gated.stripe d) }
    ensures flushed { IsTrue result
        → WasSynced (leg_type L.model L.honest) held.old.gated.stripe }
    ensures settled { IsTrue result → (span : ℕ)
        → slice_index_or (marks_of held.new.gated.durable) span false ≡ false }
    ensures stays { result ≡ false → held.new.gated.durable ≡ held.old.gated.durable }
    ensures others { held.new ≡ with_gated held.new.gated held.old }
{
    if !held.gated.may_settle() {
        return false;
    }
    held.gated.stripe.keeps();
    if !flush_legs(held) {
        return false;
    }
    if has_doubted(&held.gated.stripe, &doubted_of(doubts)) {
        return false;
    }
    held.clear();
    true
}

/// The legs that are not out in the stripe, a bit each.
fn legs_at_work<L: LegPart>(stripe: &Stripe<L>) -> u8
    ensures { AreBitsOf (legs_where (is_at_work stripe.now)) result }
{
    at_work(stripe).bits()
}

impl<L: LegPart, G: Gate + Drop, J: Naming> Mirror<L, G, J> {
    /// Counts a turn of each stripe in which something is not synced. After six it is due. No
    /// stripe is held.
    pub fn age(&self) {
        for lock in &self.locks {
            lock.age();
        }
    }

    /// The legs of which something is due, a bit each: those that are not out in a stripe in which
    /// something is.
    pub fn due_legs(&self) -> u8 {
        let mut legs = 0;
        for lock in &self.locks {
            // One that somebody has is due in the next turn, too.
            if lock.is_due() {
                if let Some(held) = lock.try_hold() {
                    legs |= legs_at_work(&held.gated.stripe);
                }
            }
        }
        legs
    }

    /// The legs whose files are to be synced ahead of a flush, a bit each: those that are not out
    /// in a stripe in which something was written since its last sync began. From now on nothing
    /// counts as written there.
    pub fn take_unsynced<R: Wait>(&self, rt: &R) -> u8 {
        let mut legs: u8 = 0;
        for lock in &self.locks {
            let has_more = legs.count_ones() < self.shape.legs as u32;
            if lock.take_unsynced() && has_more {
                legs |= legs_at_work(&lock.hold(rt).gated.stripe);
            }
        }
        legs
    }

    /// Syncs the legs of the first stripe from this one on in which something is due, in one hold.
    /// The number of the one behind it; none where nothing is due. One whose loss of a leg is still
    /// to be saved is passed over.
    pub fn sync_due<R: Wait>(&self, rt: &R, from: u32) -> Option<u32> {
        for lock in &self.locks {
            if lock.number < from || !lock.is_due() {
                continue;
            }
            let mut held = lock.hold(rt);
            if refusal_of(&held.gated, Ask::Answer).is_none() {
                lock.note_sync();
                let _ = flush_legs(&mut held);
            }
            return Some(lock.number.saturating_add(1));
        }
        None
    }

    /// Clears the marks of each stripe in which nothing was written since the last turn, where its
    /// legs can be synced and are equal, and none is in doubt. Then it wants a save.
    pub fn settle_turn<R: Wait, D: Doubts>(&self, rt: &R, doubts: &D) {
        let mut is_cleared = false;
        for lock in &self.locks {
            if lock.was_quiet() {
                is_cleared = try_settle(&mut lock.hold(rt), doubts) || is_cleared;
            }
        }
        if is_cleared {
            self.want_save(rt);
        }
    }

    /// Clears the marks of every stripe where its legs can be synced and are equal, and none is in
    /// doubt, for the end of a server. The save after it says so.
    pub fn settle_all<R: Wait, D: Doubts>(&self, rt: &R, doubts: &D) {
        for lock in &self.locks {
            let _ = try_settle(&mut lock.hold(rt), doubts);
        }
    }
}
