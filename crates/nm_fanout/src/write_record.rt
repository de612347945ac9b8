ghost use Rattle.std.specs.Prelude.{◌≡◌, ◌<◌, ◌≤◌, length, position, IfSome};
ghost use Rattle.nm_fanout.specs.Record.{owes, owed_count, is_under_way, lowest_owed, without_leg};
ghost use Rattle.nm_fanout.specs.Record.{waiting, with_entry};
ghost use Rattle.nm_fanout.specs.RecordData.{blocks_in};

use crate::record_data::RecordData;

/// How many legs a record has places for.
pub const LEGS: usize = 8;

/// The record of the write of one run, from its beginning until it is claimed.
///
/// It is under way while it owes a leg, and finished once it owes none. It lands, and so gets the
/// numbers of its entries, as it reaches the master. Tickets, blocks and entries of a run's blocks
/// follow one another from the first on.
#[derive(Drop)]
pub struct Record {
    /// The first ticket. Tickets rise in the order in which writes begin.
    pub ticket: u64,
    /// The run that the record belongs to, by its first ticket.
    pub run: u64,
    /// The first block that is written.
    pub block: u64,
    /// The new bytes of the blocks.
    pub data: RecordData,
    /// For each leg, by its number, whether the write has still to reach it.
    pub owed: [bool; LEGS],
    /// The number of the first entry, once the write has taken effect.
    pub entry: Option<u64>,
}

impl Record {
    /// How many blocks the run has.
    pub fn blocks(&self) -> u64
        ensures { result ≡ blocks_in self.now.data }
    {
        self.data.blocks()
    }

    /// How many of its blocks have no entry yet: all of them, or none.
    pub fn waiting(&self) -> u64
        ensures { result ≡ waiting self.now }
    {
        if self.entry.is_none() {
            self.blocks()
        } else {
            0
        }
    }

    /// Whether the write has still to reach this leg. No leg above the last place is owed.
    pub fn owes(&self, leg: u8) -> bool
        ensures { result ≡ owes leg self.now }
    {
        self.owed.get(leg as usize) == Some(&true)
    }

    /// How many legs the write has still to reach.
    pub fn owed_count(&self) -> u64
        ensures count { result ≡ owed_count self.now }
        ensures most { result ≤ 8 }
    {
        self.owed.iter().map(|owed| u64::from(*owed)).sum()
    }

    /// Whether some leg is owed. Where none is, the write is finished.
    pub fn is_under_way(&self) -> bool
        ensures { result ≡ is_under_way self.now }
    {
        self.owed.iter().any(|owed| *owed)
    }

    /// The lowest leg that the write has still to reach.
    pub fn lowest_owed(&self) -> Option<u8>
        ensures { result ≡ lowest_owed self.now }
    {
        let leg = first_place(&self.owed)?;
        Some(leg as u8)
    }

    /// Records that the write has reached the leg.
    pub(crate) fn reach(&mut self, leg: u8)
        ensures { self.new ≡ without_leg leg self.old }
    {
        if (leg as usize) < LEGS {
            self.owed[leg as usize] = false;
        }
    }

    /// Gives the write the number of its entry.
    pub(crate) fn land(&mut self, number: u64)
        ensures { self.new ≡ with_entry number self.old }
    {
        self.entry = Some(number);
    }
}

/// The first place that holds true.
fn first_place(places: &[bool]) -> Option<usize>
    ensures place { result ≡ position (λ owed. owed) places.now }
    ensures within { IfSome result (λ place. place < length places.now) }
{
    places.iter().position(|owed| *owed)
}
