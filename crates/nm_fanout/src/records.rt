ghost use Rattle.std.specs.Prelude.{◌≡◌, ℕ, ◌+◌, ◌-◌, ◌*◌, ◌<◌, ◌≤◌, ◌↔◌, [], length, find};
ghost use Rattle.std.specs.Prelude.{slice_get, IsTrue, IsSome, IfSome, IfNone, Some, None, IfOk};
ghost use Rattle.std.specs.Option.{option_map, option_copied};
ghost use Rattle.nm_fanout.specs.declared.write_record.Record.{Record};
ghost use Rattle.nm_fanout.specs.Data.{FitsBlocks};
ghost use Rattle.nm_fanout.specs.Laying.{data_over};
ghost use Rattle.nm_fanout.specs.Record.{begun, is_under_way};
ghost use Rattle.nm_fanout.specs.Records.{IsAt, find_record, any_under_way, entry_at};
ghost use Rattle.nm_fanout.specs.Records.{first_unlanded, next_owed, first_owed, reached, landed};
ghost use Rattle.nm_fanout.specs.Records.{left_by, without, with_new};
ghost use Rattle.nm_fanout.specs.Runs.{AreRuns, AllEndBy, meets, run_busy_among, unlanded_blocks};

use crate::block_data::Data;
use crate::record_list::{MOST_RECORDS, RecordList};
use crate::spare_blocks::SpareBlocks;
use crate::write_record::{LEGS, Record};
use nm_replay::{Block, Memory};
use std::alloc::Global;
use std::marker::Model;

/// The records of the writes of runs, by rising ticket.
#[derive(Drop)]
pub struct Records {
    list: RecordList,
    /// The ticket of each record, at its place. A search reads these and `blocks` alone.
    tickets: Vec<u64>,
    /// The first block of each record, at its place.
    blocks: Vec<u64>,
    /// How many of their blocks have no entry yet.
    without_entry: u64,
    /// A block for each record that has none of its own.
    spare: SpareBlocks,
}

impl Model for Records {
    ghost use Rattle.std.specs.Prelude.{◌≡◌, ◌+◌, ◌≤◌, List, vec_capacity};
    ghost use Rattle.nm_fanout.specs.declared.write_record.Record.{Record};
    ghost use Rattle.nm_fanout.specs.Stored.{AreIndexed, merged};

    ghost Value = { List Record };

    ghost view = { λ r. r.list };

    ghost invariant = { λ r. AreIndexed r.list r.tickets.items r.blocks.items r.without_entry
        × (256 ≤ vec_capacity r.tickets) × (256 ≤ vec_capacity r.blocks)
        × (r.spare + merged r.list ≡ 256) };
}

impl Records {
    /// No records, and room for 256: no later call takes memory.
    pub fn new(alloc: Global) -> Result<Records, Memory>
        ensures { IfOk result (λ records. records ≡ []) }
    {
        Ok(Records {
            list: RecordList::new(alloc)?,
            tickets: Vec::with_capacity(alloc, MOST_RECORDS)?,
            blocks: Vec::with_capacity(alloc, MOST_RECORDS)?,
            without_entry: 0,
            spare: SpareBlocks::new(alloc)?,
        })
    }

    /// Says that the records are in order, and does nothing: for proofs, which see no invariant of
    /// another crate's type.
    #[inline(always)]
    pub fn is_sound(&self)
        ensures in_order { AreRuns self.now }
    {
        let _len = self.list.len();
    }

    /// How many records there are.
    pub fn len(&self) -> usize
        ensures len { result ≡ length self.now }
        ensures in_order { AreRuns self.now }
    {
        self.list.len()
    }

    /// Whether there is no record.
    pub fn is_empty(&self) -> bool
        ensures { IsTrue result ↔ (self.now ≡ []) }
    {
        self.len() == 0
    }

    /// Whether no more record may be begun.
    pub fn is_full(&self) -> bool
        ensures full { IsTrue result ↔ (256 ≤ length self.now) }
        ensures in_order { AreRuns self.now }
    {
        self.len() >= MOST_RECORDS
    }

    /// The place of this ticket's record in the list, counted from 0. It stays the same until an
    /// older record is claimed.
    pub fn find(&self, ticket: u64) -> Option<usize>
        ensures found { IfSome result (λ place. IsAt ticket place self.now) }
        ensures absent { IfNone result (find_record ticket self.now ≡ None) }
        ensures in_order { AreRuns self.now }
    {
        self.tickets.binary_search(&ticket).ok()
    }

    /// As `find`, but with no search where the record is at the place `near`, as it is at one that an
    /// earlier call gave, until an older record is claimed.
    pub fn find_near(&self, ticket: u64, near: usize) -> Option<usize>
        ensures found { IfSome result (λ place. IsAt ticket place self.now) }
        ensures absent { IfNone result (find_record ticket self.now ≡ None) }
        ensures in_order { AreRuns self.now }
    {
        if near < self.tickets.len() && self.tickets[near] == ticket {
            return Some(near);
        }
        self.find(ticket)
    }

    /// The record at this place, lent.
    pub fn at(&self, place: usize) -> &Record
        requires within { place < length self.now }
        ensures found { slice_get self.now place ≡ Some result.now }
        ensures in_order { AreRuns self.now }
    {
        self.list.at(place)
    }

    /// The record of this ticket, lent.
    pub fn get(&self, ticket: u64) -> Option<&Record>
        ensures found { option_copied result ≡ find_record ticket self.now }
        ensures in_order { AreRuns self.now }
    {
        let place = self.find(ticket)?;
        Some(self.at(place))
    }

    /// The lowest run under way on one of so many blocks, from the first on, by its first ticket.
    pub fn busy_among(&self, first: u64, count: u64) -> Option<u64>
        ensures busy { result ≡ option_map (λ r. r.ticket) (run_busy_among first count self.now) }
        ensures in_order { AreRuns self.now }
    {
        for place in 0..self.blocks.len() {
            if self.is_busy_at(place, first, count) {
                return Some(self.tickets[place]);
            }
        }
        None
    }

    /// Whether some write is under way.
    pub fn is_any_under_way(&self) -> bool
        ensures { result ≡ any_under_way self.now }
    {
        self.first_under_way().is_some()
    }

    /// How many of the writes' blocks have no entry yet.
    pub fn unlanded_count(&self) -> u64
        ensures count { result ≡ unlanded_blocks self.now }
        ensures most { result ≤ 128 * length self.now }
        ensures in_order { AreRuns self.now }
    {
        self.without_entry
    }

    /// The place of the lowest ticket whose write has no entry yet. To land all writes by rising
    /// ticket, land the one at this place until there is none.
    pub fn first_unlanded(&self) -> Option<usize>
        ensures place { result ≡ first_unlanded self.now }
        ensures within { IfSome result (λ place. place < length self.now) }
        ensures in_order { AreRuns self.now }
    {
        for place in 0..self.list.len() {
            if self.list.at(place).entry.is_none() {
                return Some(place);
            }
        }
        None
    }

    /// The lowest leg that this ticket's write has still to reach; none for an unknown ticket.
    pub fn next_owed(&self, ticket: u64) -> Option<u8>
        ensures { result ≡ next_owed ticket self.now }
    {
        self.get(ticket)?.lowest_owed()
    }

    /// The lowest ticket under way, with the lowest leg that it has still to reach.
    pub fn first_owed(&self) -> Option<(u64, u8)>
        ensures { result ≡ first_owed self.now }
    {
        let record = self.first_under_way()?;
        let leg = record.lowest_owed()?;
        Some((record.ticket, leg))
    }

    /// Begins a write of a run from this block on: adds its record, with these legs owed and no
    /// entry. Its blocks take the tickets from this one on, which is above all earlier ones.
    ///
    /// A part is laid over `base`, what the block holds; whole data leave `base` unread.
    ///
    /// `is_full` tells whether one more record is allowed, and `Data::fits_run` whether the data
    /// fit.
    pub fn begin(&mut self, ticket: u64, block: u64, data: Data, base: &Block, owed: [bool; LEGS])
        requires few { length self.old < 256 }
        requires next { AllEndBy ticket self.old }
        requires fits { FitsBlocks «data» }
        ensures { self.new ≡ with_new (begun ticket ticket block (data_over «data» base.now) owed)
            self.old }
    {
        let data = self.spare.keep(data, base);
        self.without_entry += data.blocks();
        self.list.push(Record {
            ticket,
            run: ticket,
            block,
            data,
            owed,
            entry: None,
        });
        self.tickets.push_reserved(ticket);
        self.blocks.push_reserved(block);
    }

    /// Records that the write at this place has reached the leg. Where the leg is not owed, nothing
    /// changes.
    pub fn reach_at(&mut self, place: usize, leg: u8)
        requires within { place < length self.old }
        ensures { (ticket : ℕ) → IsAt ticket place self.old
            → self.new ≡ reached ticket leg self.old }
    {
        self.list.reach_at(place, leg);
    }

    /// Takes the leg out of those that the writes have still to reach.
    pub fn leave(&mut self, leg: u8)
        ensures { self.new ≡ left_by leg self.old }
    {
        self.list.leave(leg);
    }

    /// Gives the write at this place the number of its first entry.
    pub fn land_at(&mut self, place: usize, number: u64)
        requires within { place < length self.old }
        ensures { (ticket : ℕ) → IsAt ticket place self.old
            → self.new ≡ landed ticket number self.old }
    {
        self.without_entry -= self.list.at(place).waiting();
        self.list.land_at(place, number);
    }

    /// Removes the record of the landed write at this place, and gives its first entry's number.
    /// The others keep their order.
    pub fn claim_at(&mut self, place: usize) -> u64
        requires landed { IsSome (entry_at place self.old) }
        ensures number { entry_at place self.old ≡ Some result }
        ensures records { (ticket : ℕ) → IsAt ticket place self.old
            → self.new ≡ without ticket self.old }
    {
        self.tickets.remove(place);
        self.blocks.remove(place);
        let record = self.list.remove(place);
        self.spare.take_back(record.data);
        record.entry.unwrap()
    }

    /// Whether the record at this place is under way on one of so many blocks, from the first on.
    fn is_busy_at(&self, place: usize, first: u64, count: u64) -> bool
        requires { place < length self.now }
        ensures { (r : Record) → slice_get self.now place ≡ Some r → result ≡ meets first count r }
    {
        let block = self.blocks[place];
        let run = self.list.at(place);
        if block < first {
            return first - block < run.blocks() && run.is_under_way();
        }
        block - first < count && run.is_under_way()
    }

    /// The record of the lowest ticket under way.
    fn first_under_way(&self) -> Option<&Record>
        ensures { option_copied result ≡ find is_under_way self.now }
    {
        for place in 0..self.list.len() {
            let record = self.list.at(place);
            if record.is_under_way() {
                return Some(record);
            }
        }
        None
    }
}
