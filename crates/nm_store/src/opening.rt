//! Opens a store, and takes all of its memory.
ghost use Rattle.std.specs.Prelude.{◌≡◌, ◌≤◌, length, map, IfOk, IfErr};
ghost use Rattle.nm_regions.specs.Sound.{AreSizes};
ghost use Rattle.nm_resync.specs.Chunk.{IsChunkSize};
ghost use Rattle.nm_rules.specs.Opening.{opened, bits_from, opened_state};
ghost use Rattle.nm_store.specs.Opening.{IsRoom};

use crate::store::Store;
use nm_choice::{LegState, Policy, elect};
use nm_fanout::Records;
use nm_leg::LegPart;
use nm_regions::Regions;
use nm_replay::{Kept, Memory};
use nm_resync::Copy as CopyBuffer;
use nm_rules::At;
use std::alloc::{AllocError, Global};

/// For each of so many legs, whether its bit is set.
fn flags_of(alloc: Global, legs: usize, bits: u8) -> Result<Vec<bool>, AllocError>
    requires { legs ≤ 8 }
    ensures flags { IfOk result (λ flags. flags.items ≡ bits_from bits legs 0) }
    ensures length { IfOk result (λ flags. length flags.items ≡ legs) }
{
    let mut flags = Vec::with_capacity(alloc, legs)?;
    for leg in 0..legs {
        flags.push_reserved((bits >> leg) % 2 == 1);
    }
    Ok(flags)
}

/// The state that a leg opens with.
fn opened_state(in_sync: bool) -> LegState
    ensures { result ≡ opened_state in_sync }
{
    if in_sync {
        LegState::InSync
    } else {
        LegState::Joining
    }
}

/// The states that legs open with: in sync where the flag is set, else joining.
fn states_of(alloc: Global, in_sync: &[bool]) -> Result<Vec<LegState>, AllocError>
    ensures { IfOk result (λ states. states.items ≡ map opened_state in_sync.now) }
{
    in_sync
        .iter()
        .map(|named| opened_state(*named))
        .collect(alloc)
}

/// All that a store takes memory for.
#[derive(Drop)]
struct Room {
    states: Vec<LegState>,
    regions: Regions,
    buffer: CopyBuffer,
    records: Records,
    kept: Kept,
}

impl Room {
    /// Takes the memory of a stripe of this place, for so many legs.
    fn take(alloc: Global, place: At, legs: usize, bits: u8) -> Result<Room, Memory>
        requires sizes { AreSizes place.blocks place.region legs }
        requires chunk { IsChunkSize place.chunk }
        ensures { IfOk result (IsRoom place legs bits) }
    {
        let in_sync = flags_of(alloc, legs, bits)?;
        Ok(Room {
            states: states_of(alloc, &in_sync)?,
            regions: Regions::new(alloc, place.blocks, place.region, &in_sync)?,
            buffer: CopyBuffer::new(alloc, place.chunk)?,
            records: Records::new(alloc)?,
            kept: Kept::new(alloc, place.history)?,
        })
    }
}

impl<L: LegPart> Store<L> {
    /// The store of a stripe of these legs: those of the bits are in sync, the others join with all
    /// of their regions behind. Where an allocation fails the legs come back.
    pub fn open(
        alloc: Global,
        place: At,
        legs: Vec<L>,
        in_sync: u8,
        first: u64,
        policy: Policy,
    ) -> Result<Store<L>, (Memory, Vec<L>)>
        requires sizes { AreSizes place.blocks place.region (length legs.items) }
        requires chunk { IsChunkSize place.chunk }
        ensures opened { IfOk result (λ store.
            store ≡ opened place legs.items in_sync first policy) }
        ensures handed_back { IfErr result (λ refused. refused.1.items ≡ legs.items) }
    {
        let Ok(room) = Room::take(alloc, place, legs.len(), in_sync) else {
            return Err((Memory, legs));
        };
        let master = elect(&room.states).unwrap_or(0);
        Ok(Store {
            place,
            policy,
            legs,
            states: room.states,
            regions: room.regions,
            buffer: room.buffer,
            master,
            settling: false,
            stopped: false,
            turn: 0,
            records: room.records,
            tickets: 0,
            kept: room.kept,
            first,
        })
    }
}
