//! What follows a try to save the superblocks.
ghost use Rattle.std.specs.Prelude.{◌≡◌, ◌≤◌, ◌↔◌, IsTrue, IfErr, OnOk};
ghost use Rattle.nm_leg_files.specs.declared.saving.AfterTry.TheVariants.{End};
ghost use Rattle.nm_leg_files.specs.Saving.{GoesOn, HasAll, IsClean, IsLastSomewhere};

use nm_geometry::LegSet;
use nm_mirror::FailCounts;
use nm_saves::{FailedFiles, Saved};
use nm_superblock::{LegSets, SpanMap};

/// What follows a try to save the superblocks.
#[derive(Clone, Copy, PartialEq, Eq)]
pub enum AfterTry {
    /// Each leg that the superblock calls in sync has it: the save ends.
    End,
    /// This leg's file failed: the leg goes out, and the save is made anew without it.
    TakeOut(u8),
    /// Nothing more can be saved.
    GiveUp,
}

/// What follows a try that gave this.
pub fn after_try(tried: &Result<Saved, FailedFiles>) -> AfterTry
    ensures ok { OnOk tried.now (result ≡ End) }
    ensures failed { IfErr tried.now (λ failed. GoesOn failed.legs result) }
{
    match tried {
        Ok(_) => AfterTry::End,
        Err(failed) => after_failure(&failed.legs),
    }
}

// What follows where these legs' files failed: the first of them goes out.
fn after_failure(failed: &LegSet) -> AfterTry
    ensures { GoesOn failed.now result }
{
    'legs: for leg in 0..8usize {
        if failed.has(leg) {
            return AfterTry::TakeOut(leg as u8);
        }
    }
    AfterTry::GiveUp
}

/// Whether a leg that was to go out is still in sync somewhere, so that no save without it can be
/// done.
pub fn is_last_somewhere(counts: &FailCounts) -> bool
    ensures { IsTrue result ↔ IsLastSomewhere counts.now }
{
    counts.last > 0 || (counts.failed == 0 && counts.stopped > 0)
}

// Whether each of so many legs is in the set.
fn has_all(set: u8, legs: u8) -> bool
    requires { legs ≤ 8 }
    ensures { IsTrue result ↔ HasAll legs set }
{
    'legs: for leg in 0..legs {
        if (set >> leg) & 1 != 1 {
            return false;
        }
    }
    true
}

/// Whether each leg is in sync in so many stripes, and no span is marked.
pub fn is_clean(sets: &LegSets, marked: &SpanMap, stripes: usize, legs: u8) -> bool
    requires stripes { stripes ≤ 64 }
    requires legs { legs ≤ 8 }
    ensures { IsTrue result ↔ IsClean stripes legs sets.now marked.now }
{
    'stripes: for stripe in 0..stripes {
        if !has_all(sets.in_sync(stripe), legs) {
            return false;
        }
    }
    marked.is_empty()
}
