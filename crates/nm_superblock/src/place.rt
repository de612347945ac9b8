//! A place: which of its two slots is read, which is written, and under which stamp.
ghost use Rattle.std.specs.Prelude.{◌≡◌, ◌⊎◌, ◌≤◌, ◌^◌, IfSome, IfNone};
ghost use Rattle.nm_superblock.specs.Slots.{IsHighestStamp, IsNextGeneration, IsPastAll, newer_of};
ghost use Rattle.nm_superblock.specs.Slots.{writes_second};

use crate::sectors::read_tried;
use crate::superblock::Superblock;

/// Of the superblocks in a place's two slots the newer one, which is the place's.
pub fn newer(first: Option<Superblock>, second: Option<Superblock>) -> Option<Superblock>
    ensures { result ≡ newer_of first second }
{
    match (&first, &second) {
        (None, _) => second,
        (Some(a), Some(b)) if a.generation < b.generation => second,
        _ => first,
    }
}

/// Whether a save writes the second slot: the one that the place's superblock is not in.
pub fn is_second_written(first: &Option<Superblock>, second: &Option<Superblock>) -> bool
    ensures { result ≡ writes_second first.now second.now }
{
    match (first, second) {
        (None, _) => false,
        (Some(_), None) => true,
        (Some(a), Some(b)) => a.generation >= b.generation,
    }
}

/// The first generation above this one and above each stamp in a place's slots, in sectors that
/// begin as a superblock's: a save of it is told from all that was tried there. None where there is
/// no number left.
pub fn next_generation(after: u64, first: &[u8; 4096], second: &[u8; 4096]) -> Option<u64>
    ensures some { IfSome result (λ n. IsNextGeneration n after first.now second.now) }
    ensures none { IfNone result (IsPastAll (2 ^ 64) after first.now second.now) }
{
    let stamps = higher(highest_stamp(first), highest_stamp(second));
    higher(after, stamps).checked_add(1)
}

/// The highest stamp in a slot's sectors that begin as a superblock's, of whatever version; 0 where
/// none does.
pub fn highest_stamp(slot: &[u8; 4096]) -> u64
    ensures { IsHighestStamp 8 slot.now result }
{
    let mut highest = 0;
    'sectors: for number in 0..8 {
        highest = higher(highest, read_tried(slot, number));
    }
    highest
}

// The higher one of two stamps.
fn higher(first: u64, second: u64) -> u64
    ensures first { first ≤ result }
    ensures second { second ≤ result }
    ensures one { (result ≡ first) ⊎ (result ≡ second) }
{
    if first < second { second } else { first }
}
