//! Reads blocks.
ghost use Rattle.nm_fanout.specs.Records.{unlanded};
ghost use Rattle.nm_leg.specs.Leg.{blocks_in, blocks_of, leg_type};
ghost use Rattle.std.specs.Prelude.{◌≡◌, ◌+◌, ◌*◌, ◌^◌, ◌<◌, ◌≤◌, [], length, max, IsTrue, IfOk};
ghost use Rattle.std.specs.Prelude.{IfErr, OnOk, OnErr, None, Some, true};
ghost use Rattle.nm_rules.specs.Acts.{IsExplainedStep};
ghost use Rattle.nm_rules.specs.Read.{current_legs, read_leg};
ghost use Rattle.nm_rules.specs.RunRead.{last_block, read_run_cause};
ghost use Rattle.nm_rules.specs.Runs.{FitsRun};
ghost use Rattle.nm_rules.specs.State.{next_number};
ghost use Rattle.nm_stripe.specs.Ends.{EndsRead};
ghost use Rattle.nm_stripe.specs.Read.{Reads, IsExplainedReading, RefusesRead, LeavesTarget};

use crate::receipt::Receipt;
use crate::stripe::Stripe;
use nm_leg::LegPart;
use nm_replay::BLOCK_BYTES;
use nm_rules::Refusal;
use nm_store::Store;

/// What a read answers.
#[derive(Drop)]
pub enum Reading<L> {
    /// The blocks were read. The receipt names their entries.
    Value(Receipt<L>),
    /// The leg failed, and has gone out. Nothing was read.
    LegLost(u8),
}

/// The leg that is asked for so many blocks, from this one on; else why none is.
#[inline(always)]
pub(crate) fn ask_read<L: LegPart>(store: &Store<L>, block: u64, count: u64) -> Result<u8, Refusal>
    requires run { FitsRun store.now.place block count }
    requires numbers { next_number store.now + unlanded store.now.records
        ≤ max (2 ^ 63) store.now.first }
    requires current { 0 < length (current_legs (last_block block count) store.now) }
    requires few { store.now.place.blocks ≤ 2 ^ 31 }
    ensures ok { OnOk result (read_run_cause store.now count ≡ None) }
    ensures leg { IfOk result (λ leg. read_leg (last_block block count) store.now ≡ Some leg) }
    ensures cause { IfErr result (λ refusal. read_run_cause store.now count ≡ Some refusal) }
{
    match store.read_cause(count) {
        Some(refusal) => Err(refusal),
        None => Ok(store.leg_to_read(block + (count - 1)).leg),
    }
}

/// Takes the answer of a read's leg call, and the bytes that it left.
#[inline(always)]
pub(crate) fn answer_read<L: LegPart>(
    store: &mut Store<L>,
    leg: u8,
    block: u64,
    done: bool,
    bytes: &[u8],
) -> Result<Reading<L>, Refusal>
    requires leg { leg < length store.old.legs }
    requires run { FitsRun store.old.place block (blocks_in bytes.now) }
    requires whole { length bytes.now ≡ 512 * blocks_in bytes.now }
    requires numbers { next_number store.old + unlanded store.old.records
        ≤ max (2 ^ 63) store.old.first }
    requires room { done ≡ true
        → next_number store.old + unlanded store.old.records + blocks_in bytes.now ≤ 2 ^ 63 }
    requires turn { store.old.turn < 840 }
    requires few { store.old.place.blocks ≤ 2 ^ 31 }
    ensures ends { EndsRead done leg block (blocks_of bytes.now) store.old store.new result }
{
    if done {
        let count = (bytes.len() / BLOCK_BYTES) as u64;
        let quiet = store.is_quiet(block + (count - 1));
        let number = store.keep_read(block, bytes, quiet);
        let receipt = Receipt::new(store.place().stripe, block, number, count);
        return Ok(Reading::Value(receipt));
    }
    if store.is_last(leg) {
        return Err(Refusal::Fault);
    }
    store.lose(leg);
    Ok(Reading::LegLost(leg))
}

impl<L: LegPart> Stripe<L> {
    /// Reads blocks that follow one another in one region into `into`, in one call of a leg, and
    /// keeps an entry for each under the next numbers. Where no write is under way in the region it
    /// takes one of the legs that are current at the last block, as the stripe's policy says, and
    /// else the master.
    ///
    /// Refused as `Stopped`, `Settling`, `Exhausted` or `Fault` (the only leg in sync failed), the
    /// first whose condition holds. A leg that failed leaves any bytes in `into`; any other refusal
    /// leaves it as it was.
    #[inline(always)]
    pub fn read(&mut self, block: u64, into: &mut [u8]) -> Result<Reading<L>, Refusal>
        requires run { FitsRun self.old.place block (blocks_in into.old) }
        requires whole { length into.old ≡ 512 * blocks_in into.old }
        ensures ok { IfOk result (Reads (leg_type L.model L.honest) self.old self.new
            block into.new) }
        ensures acts { IsTrue L.honest
            → IfOk result (IsExplainedReading L.model self.old self.new block into.new) }
        ensures refused { IfErr result (RefusesRead (leg_type L.model L.honest) self.old self.new
            block into.old into.new) }
        ensures refused_acts { IsTrue L.honest
            → OnErr result (IsExplainedStep L.model [] self.old self.new) }
        ensures target { LeavesTarget result into.old into.new }
        ensures long { length into.new ≡ length into.old }
    {
        let count = (into.len() / BLOCK_BYTES) as u64;
        let leg = ask_read(&self.store, block, count)?;
        let done = self.store.read_leg(leg, block, into).is_ok();
        answer_read(&mut self.store, leg, block, done, into)
    }
}
