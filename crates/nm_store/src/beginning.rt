//! A write of a run begins.
ghost use Rattle.std.specs.Prelude.{◌≡◌, ◌+◌, ◌<◌, ◌^◌, length};
ghost use Rattle.nm_fanout.specs.Data.{FitsBlocks, data_blocks};
ghost use Rattle.nm_fanout.specs.Laying.{data_over};
ghost use Rattle.nm_fanout.specs.Records.{AllBelow, runs_in};
ghost use Rattle.nm_fanout.specs.Runs.{each_block};
ghost use Rattle.nm_rules.specs.Read.{current_legs};
ghost use Rattle.nm_rules.specs.RunBegin.{after_begin_run};
ghost use Rattle.nm_rules.specs.Runs.{FitsRun};

use crate::store::Store;
use nm_fanout::Data;
use nm_leg::LegPart;
use nm_replay::Block;

/// How many bytes a block has.
fn block_len(block: &Block) -> usize
    ensures len { result ≡ length block.now.0 }
    ensures whole { result ≡ 512 }
{
    let bytes: &[u8] = &block.0;
    bytes.len()
}

impl<L: LegPart> Store<L> {
    /// A write of a run from this block on begins, under the next tickets, of which the first is
    /// the result: it owes each leg that is current there. A part is laid over `base`, what the
    /// block holds.
    pub fn begin(&mut self, block: u64, data: Data, base: &Block) -> u64
        requires run { FitsRun self.old.place block (data_blocks «data») }
        requires current { 0 < length (current_legs block self.old) }
        requires fits { FitsBlocks «data» }
        requires few { runs_in self.old.records < 256 }
        requires next { AllBelow self.old.tickets self.old.records }
        requires more { self.old.tickets + data_blocks «data» < 2 ^ 64 }
        ensures ticket { result ≡ self.old.tickets }
        ensures filled { length base.now.0 ≡ 512 }
        ensures begun { self.new
            ≡ after_begin_run self.old block (each_block (data_over «data» base.now)) }
    {
        let _whole = block_len(base);
        self.records.is_sound();
        let ticket = self.tickets;
        let count = data.blocks();
        let owed = self.regions.targets(block);
        self.regions.begin(block, count as u16);
        self.records.begin(ticket, block, data, base, owed);
        self.tickets += count;
        ticket
    }
}
