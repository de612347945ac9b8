ghost use Rattle.std.specs.Prelude.{List, [], ◌∷◌, ◌++◌};
ghost use Rattle.nm_stripe.specs.declared.step.Step.TheVariants as step;
ghost use Rattle.nm_stripe.specs.Read.{LeavesTarget};
ghost use Rattle.nm_lanes.specs.Answers.{answer_of_begin, answer_of_claim, answer_of_copy};
ghost use Rattle.nm_lanes.specs.Answers.{answer_of_push, answer_of_read, answer_of_sync, HandsBack};
ghost use Rattle.nm_lanes.specs.Done.{Done, done_as};

use nm_fanout::Data;
use nm_leg::LegPart;
use nm_rules::Refusal;
use nm_stripe::{Beginning, Copying, Reach, Reading, Syncing, Written};
use std::sync::Wait;

/// One stripe's access path: it does steps on the stripe behind a lock, one hold of the lock for
/// each.
///
/// `K` is the lock. Between two calls no lock is held, and others may do steps of their own on the
/// stripe; so what a lane knows is the list of its own steps with their answers. A step that the
/// stripe may not be asked for, whose run of blocks or leg is not there, is refused as `Astray`.
pub trait Lane<L: LegPart, K> {
    /// These steps, answered so, lead from one state of the lane to another.
    ghost follows: { Self → List (Done L) → Self → Type 0 };

    /// Begins a write of a run from this block on, or of a part of the block. Where it does not
    /// begin its data come back.
    fn begin<R: Wait>(
        &mut self,
        rt: &R,
        lock: &K,
        block: u64,
        data: Data,
    ) -> Result<Beginning, (Refusal, Data)>
        ensures follows { follows self.old
            (done_as (step.Begin block «data») (answer_of_begin result) ∷ []) self.new }
        ensures handed_back { HandsBack «data» result };

    /// Pushes a write to a leg.
    fn push<R: Wait>(&mut self, rt: &R, lock: &K, ticket: u64, leg: u8) -> Result<Reach, Refusal>
        ensures follows { follows self.old
            (done_as (step.Push ticket leg) (answer_of_push result) ∷ []) self.new };

    /// Claims a finished write.
    fn claim<R: Wait>(&mut self, rt: &R, lock: &K, ticket: u64) -> Result<Written<L>, Refusal>
        ensures follows { follows self.old
            (done_as (step.Claim ticket) (answer_of_claim result) ∷ []) self.new };

    /// Reads a run from this block on into `into`, as many blocks as it has room for.
    /// `LeavesTarget` says where `into` is as it was.
    fn read<R: Wait>(
        &mut self,
        rt: &R,
        lock: &K,
        block: u64,
        into: &mut [u8],
    ) -> Result<Reading<L>, Refusal>
        ensures follows { follows self.old
            (done_as (step.Read block into.old) (answer_of_read result into.new) ∷ []) self.new }
        ensures target { LeavesTarget result into.old into.new };

    /// Flushes a leg.
    fn flush<R: Wait>(&mut self, rt: &R, lock: &K, leg: u8) -> Result<Syncing, Refusal>
        ensures follows { follows self.old
            (done_as (step.Flush leg) (answer_of_sync result) ∷ []) self.new };

    /// Does a step of the copy to a leg, which moves up to `most` blocks, and opens no region below
    /// `from`.
    fn copy<R: Wait>(
        &mut self,
        rt: &R,
        lock: &K,
        leg: u8,
        most: u64,
        from: u64,
    ) -> Result<Copying, Refusal>
        ensures follows { follows self.old
            (done_as (step.Copy leg most from) (answer_of_copy result) ∷ []) self.new };

    /// The lowest leg that a write still has to reach, with the write's ticket: of this ticket, or
    /// of the lowest ticket under way where none is given. One hold of the lock.
    fn owed<R: Wait>(&self, rt: &R, lock: &K, ticket: Option<u64>) -> Option<(u64, u8)>;

    /// No step leads from a state to itself.
    ghost stays: { (lane : Self) → follows lane [] lane };

    /// Steps that follow one another are one list.
    ghost joins: { (first mid last : Self) (before after : List (Done L))
        → follows first before mid → follows mid after last
        → follows first (before ++ after) last };
}
