ghost use Rattle.std.specs.Prelude.{◌≡◌, ◌<◌, ◌≤◌, ◌+◌, ◌^◌, [], ◌∷◌, ◌↔◌, length};
ghost use Rattle.std.specs.Prelude.{IsTrue, IsFalse};
ghost use Rattle.nm_leg.specs.Leg.{leg_type};
ghost use Rattle.nm_rules.specs.Acts.{IsExplainedStep};
ghost use Rattle.nm_rules.specs.Runs.{FitsRun};
ghost use Rattle.nm_stripe.specs.declared.step.Step.TheVariants as step;
ghost use Rattle.nm_stripe.specs.Read.{LeavesTarget};
ghost use Rattle.nm_stripe.specs.Run.{NoneHalted, marks};
ghost use Rattle.nm_lanes.specs.Answers.{answer_of_begin, answer_of_claim, answer_of_copy};
ghost use Rattle.nm_lanes.specs.Answers.{answer_of_push, answer_of_read, answer_of_sync, HandsBack};
ghost use Rattle.nm_part.specs.Asking.{AsksStripe};
ghost use Rattle.nm_part.specs.Parts.{ValueAbove, given, is_astray, part_after, part_of};

use nm_fanout::{Data, MOST_RUN};
use nm_leg::LegPart;
use nm_replay::BLOCK_BYTES;
use nm_rules::{At, Refusal};
use nm_stripe::{Beginning, Copying, Reach, Reading, Stripe, Syncing, Written};
use std::marker::{Model, PhantomData};

/// The part of a pass in one stripe.
///
/// Its front is above the number of each entry that it was given, and not below that of any entry
/// from before it was made.
#[derive(Drop)]
pub struct Part<L> {
    stripe: u32,
    front: u64,
    count: u64,
    of: PhantomData<L>,
}

impl<L> Model for Part<L> {
    ghost use Rattle.nm_part.specs.PartState.{PartState};

    ghost Value = { PartState };

    ghost view = { λ p. record { stripe = p.stripe; front = p.front; count = p.count } };
}

impl<L> Part<L> {
    /// The stripe's number.
    pub fn stripe(&self) -> u32
        ensures { result ≡ self.now.stripe }
    {
        self.stripe
    }

    /// The number that no entry of a later read is below.
    pub fn front(&self) -> u64
        ensures { result ≡ self.now.front }
    {
        self.front
    }

    /// How many entries the part was given.
    pub fn count(&self) -> u64
        ensures { result ≡ self.now.count }
    {
        self.count
    }

    /// Takes note of so many entries, from this number on.
    #[inline(always)]
    fn take(&mut self, number: u64, count: u64)
        requires room { self.old.count + count < 2 ^ 64 }
        requires below { number + count < 2 ^ 64 }
        ensures { self.new ≡ given number count self.old }
    {
        self.count += count;
        self.front = self.front.max(number + count);
    }
}

/// Whether so many blocks from this one on are a run of a stripe in this place.
#[inline(always)]
fn fits_run(place: At, block: u64, count: u64) -> bool
    ensures { IsTrue result ↔ FitsRun place block count }
{
    let At { blocks, region, .. } = place;
    0 < count
        && count <= MOST_RUN as u64
        && block < blocks
        && count <= blocks - block
        && 0 < region
        && count <= region - block % region
}

impl<L: LegPart> Part<L> {
    /// The part of a pass that is made now: its front is the stripe's next number.
    pub fn of(stripe: &Stripe<L>) -> Self
        ensures { result ≡ part_of stripe.now }
    {
        Part {
            stripe: stripe.number(),
            front: stripe.next_number(),
            count: 0,
            of: PhantomData,
        }
    }

    /// Whether the stripe is not the part's, or the part has no room to count a run's entries.
    #[inline(always)]
    fn is_astray(&self, stripe: &Stripe<L>) -> bool
        ensures astray { result ≡ is_astray self.now stripe.now }
        ensures room { IsFalse result → self.now.count + 128 < 2 ^ 64 }
    {
        stripe.number() != self.stripe
            || stripe.next_number() < self.front
            || self.count > u64::MAX - MOST_RUN as u64
    }

    /// Whether the stripe is the part's own and has this run of blocks.
    #[inline(always)]
    fn has_run(&self, stripe: &Stripe<L>, block: u64, count: u64) -> bool
        ensures own { IsTrue result
            ↔ (IsFalse (is_astray self.now stripe.now) × FitsRun stripe.now.place block count) }
        ensures room { IsTrue result → self.now.count + 128 < 2 ^ 64 }
    {
        !self.is_astray(stripe) && fits_run(stripe.place(), block, count)
    }

    /// Whether the stripe is the part's own and has this leg.
    #[inline(always)]
    fn has_leg(&self, stripe: &Stripe<L>, leg: u8) -> bool
        ensures own { IsTrue result
            ↔ (IsFalse (is_astray self.now stripe.now) × (leg < length stripe.now.legs)) }
    {
        !self.is_astray(stripe) && (leg as usize) < stripe.legs()
    }
}

/// The stripe's steps, through the part, which counts the entries of a read and of a finished
/// write.
///
/// Each is refused as `Astray` before anything else where the stripe is not the part's, has no such
/// run of blocks or leg, or the part has no room to count a run's entries. Then nothing changes.
impl<L: LegPart> Part<L> {
    /// Begins a write of a run from this block on, or of a part of the block. Where it does not
    /// begin its data come back.
    #[inline(always)]
    pub fn begin(
        &mut self,
        stripe: &mut Stripe<L>,
        block: u64,
        data: Data,
    ) -> Result<Beginning, (Refusal, Data)>
        ensures step { AsksStripe (leg_type L.model L.honest) (step.Begin block «data»)
            (answer_of_begin result) self.old (stripe.old, stripe.new) }
        ensures acts { IsTrue L.honest → IsExplainedStep L.model
            (marks {L = L} (step.Begin block «data») (answer_of_begin result))
            stripe.old stripe.new }
        ensures counted { self.new ≡ part_after {L = L} (answer_of_begin result) self.old }
        ensures handed_back { HandsBack «data» result }
    {
        stripe.sound();
        if !data.fits_run() || !self.has_run(stripe, block, data.blocks()) {
            return Err((Refusal::Astray, data));
        }
        stripe.begin(block, data)
    }

    /// Pushes a write to a leg.
    #[inline(always)]
    pub fn push(&mut self, stripe: &mut Stripe<L>, ticket: u64, leg: u8) -> Result<Reach, Refusal>
        ensures step { AsksStripe (leg_type L.model L.honest) (step.Push ticket leg)
            (answer_of_push result) self.old (stripe.old, stripe.new) }
        ensures acts { IsTrue L.honest → NoneHalted {L = L} (answer_of_push result ∷ [])
            → IsExplainedStep L.model (marks {L = L} (step.Push ticket leg) (answer_of_push result))
            stripe.old stripe.new }
        ensures counted { self.new ≡ part_after {L = L} (answer_of_push result) self.old }
    {
        stripe.sound();
        if !self.has_leg(stripe, leg) {
            return Err(Refusal::Astray);
        }
        stripe.push(ticket, leg)
    }

    /// Claims a finished write, and counts its entries.
    #[inline(always)]
    pub fn claim(&mut self, stripe: &mut Stripe<L>, ticket: u64) -> Result<Written<L>, Refusal>
        ensures step { AsksStripe (leg_type L.model L.honest) (step.Claim ticket)
            (answer_of_claim result) self.old (stripe.old, stripe.new) }
        ensures acts { IsTrue L.honest → IsExplainedStep L.model
            (marks {L = L} (step.Claim ticket) (answer_of_claim result)) stripe.old stripe.new }
        ensures counted { self.new ≡ part_after {L = L} (answer_of_claim result) self.old }
    {
        stripe.sound();
        if self.is_astray(stripe) {
            return Err(Refusal::Astray);
        }
        let claimed = stripe.claim(ticket);
        if let Ok(written) = &claimed {
            self.take(written.number(), written.count());
        }
        claimed
    }

    /// Reads a run from this block on into `into`, as many blocks as it has room for, and counts
    /// its entries.
    #[inline(always)]
    pub fn read(
        &mut self,
        stripe: &mut Stripe<L>,
        block: u64,
        into: &mut [u8],
    ) -> Result<Reading<L>, Refusal>
        ensures step { AsksStripe (leg_type L.model L.honest) (step.Read block into.old)
            (answer_of_read result into.new) self.old (stripe.old, stripe.new) }
        ensures acts { IsTrue L.honest → IsExplainedStep L.model
            (marks {L = L} (step.Read block into.old) (answer_of_read result into.new))
            stripe.old stripe.new }
        ensures counted { self.new ≡ part_after (answer_of_read result into.new) self.old }
        ensures above { ValueAbove self.old.front (answer_of_read result into.new) }
        ensures target { LeavesTarget result into.old into.new }
    {
        stripe.sound();
        let count = into.len() / BLOCK_BYTES;
        if into.len() != count * BLOCK_BYTES || !self.has_run(stripe, block, count as u64) {
            return Err(Refusal::Astray);
        }
        let read = stripe.read(block, into);
        if let Ok(Reading::Value(receipt)) = &read {
            self.take(receipt.number(), receipt.count());
        }
        read
    }

    /// Flushes a leg.
    pub fn flush(&mut self, stripe: &mut Stripe<L>, leg: u8) -> Result<Syncing, Refusal>
        ensures step { AsksStripe (leg_type L.model L.honest) (step.Flush leg)
            (answer_of_sync result) self.old (stripe.old, stripe.new) }
        ensures acts { IsTrue L.honest → IsExplainedStep L.model
            (marks {L = L} (step.Flush leg) (answer_of_sync result)) stripe.old stripe.new }
        ensures counted { self.new ≡ part_after {L = L} (answer_of_sync result) self.old }
    {
        stripe.sound();
        if !self.has_leg(stripe, leg) {
            return Err(Refusal::Astray);
        }
        stripe.flush(leg)
    }

    /// Does a step of the copy to a leg, which moves up to `most` blocks, and opens no region below
    /// `from`. Where it may move none it is astray.
    pub fn copy(
        &mut self,
        stripe: &mut Stripe<L>,
        leg: u8,
        most: u64,
        from: u64,
    ) -> Result<Copying, Refusal>
        ensures step { AsksStripe (leg_type L.model L.honest) (step.Copy leg most from)
            (answer_of_copy result) self.old (stripe.old, stripe.new) }
        ensures acts { IsTrue L.honest → IsExplainedStep L.model
            (marks {L = L} (step.Copy leg most from) (answer_of_copy result))
            stripe.old stripe.new }
        ensures counted { self.new ≡ part_after {L = L} (answer_of_copy result) self.old }
    {
        stripe.sound();
        if !self.has_leg(stripe, leg) || most == 0 {
            return Err(Refusal::Astray);
        }
        stripe.copy(leg, most, from)
    }
}
