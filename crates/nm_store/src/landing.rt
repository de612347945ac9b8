//! A run takes effect: it gets its numbers, and its entries are kept.
ghost use Rattle.std.specs.Prelude.{◌≡◌, ℕ, ◌+◌, ◌<◌, Some, length, slice_get};
ghost use Rattle.nm_fanout.specs.declared.write_record.Record.{Record};
ghost use Rattle.nm_fanout.specs.Record.{IsRun};
ghost use Rattle.nm_fanout.specs.RecordData.{blocks_in};
ghost use Rattle.nm_fanout.specs.Records.{IsAt, landed};
ghost use Rattle.nm_fanout.specs.Runs.{laid_out};
ghost use Rattle.nm_replay.specs.Kept.{kept_with};
ghost use Rattle.nm_rules.specs.RunPush.{run_entries};
ghost use Rattle.nm_store.specs.Landing.{MayLand};

use nm_fanout::{Record, RecordData, Records, keep_run};
use nm_replay::{BLOCK_BYTES, Block, Entry, Kept, Kind};

/// Keeps the entries of the writes of a run, from this number on.
fn keep_entries(kept: &mut Kept, run: &Record, number: u64)
    requires run { IsRun run.now }
    requires may { MayLand run.now number kept.old.total }
    ensures last { kept.new.last
        ≡ kept_with (run_entries number (laid_out run.now)) kept.old.last }
    ensures total { kept.new.total ≡ kept.old.total + blocks_in run.now.data }
{
    if let RecordData::Merged { from, len, .. } = &run.data {
        // Seen as an array, the bytes are copied once, with no zeroes laid before.
        let Ok(bytes) = <&[u8; BLOCK_BYTES]>::try_from(run.data.bytes()) else {
            unreachable!()
        };
        kept.push(&Entry {
            seq: number,
            kind: Kind::Patch(run.ticket, *from, *len),
            block: run.block,
            bytes: Block(*bytes),
        });
        return;
    }
    keep_run(kept, number, run.ticket, run.block, run.data.bytes());
}

/// The run at this place takes effect, under the numbers from this one on.
pub(crate) fn land_run(records: &mut Records, kept: &mut Kept, place: usize, number: u64)
    requires place { place < length records.old }
    requires may { (r : Record) → slice_get records.old place ≡ Some r
        → MayLand r number kept.old.total }
    ensures records { (ticket : ℕ) → IsAt ticket place records.old
        → records.new ≡ landed ticket number records.old }
    ensures last { (r : Record) → slice_get records.old place ≡ Some r
        → kept.new.last ≡ kept_with (run_entries number (laid_out r)) kept.old.last }
    ensures total { (r : Record) → slice_get records.old place ≡ Some r
        → kept.new.total ≡ kept.old.total + blocks_in r.data }
{
    keep_entries(kept, records.at(place), number);
    records.land_at(place, number);
}
