//! What outlives a crash, for every list of moves of a stripe of honest legs behind the gate.
ghost use Rattle.std.specs.Prelude.{IsTrue};
ghost use Rattle.nm_gate.specs.Anew.{ReopensAreRight};
ghost use Rattle.nm_gate.specs.Bounds.{SavesAreSafe};
ghost use Rattle.nm_gate.specs.MarkedStart.{MarkedStartsAreRight};
ghost use Rattle.nm_gate.specs.Restart.{AnsweredFoundAgain, FlushedFoundAgain};
ghost use Rattle.nm_gate.specs.Restart.{RestartsAreRight};
ghost use Rattle.nm_gate.specs.Survive.{AnsweredSurvive, CooledMayClear, FlushedSurvive};
ghost use Rattle.nm_gate.specs.Survive.{ListedStay, UnmarkedStayEqual};
ghost use Rattle.nm_leg.specs.Leg.{leg_type};

use nm_leg::LegPart;

/// A start by the superblock finds what was flushed before the crash.
pub fn flushed_is_found_again<L: LegPart>()
    ensures { IsTrue L.honest → FlushedFoundAgain (leg_type L.model L.honest) }
{}

/// And where the process alone was lost, all that was answered.
pub fn answered_is_found_again<L: LegPart>()
    ensures { IsTrue L.honest → AnsweredFoundAgain (leg_type L.model L.honest) }
{}

/// A stripe that a start opens by the superblock is a stripe like any other, with the old array
/// outside marked spans.
pub fn restarts_are_right<L: LegPart>()
    ensures { RestartsAreRight (leg_type L.model L.honest) }
{}

/// A stripe that had stopped, and is opened anew from the only leg that the superblock may call in
/// sync, is one of which all that is promised here holds.
pub fn reopens_are_right<L: LegPart>()
    ensures { ReopensAreRight (leg_type L.model L.honest) }
{}

/// A stripe that `Stripe::open_marked` opens by what the superblock says is one of such a start.
pub fn marked_starts_are_right<L: LegPart>()
    ensures { MarkedStartsAreRight (leg_type L.model L.honest) }
{}

/// What was flushed stays on each leg that the superblock may call in sync, durably.
pub fn flushed_blocks_survive<L: LegPart>()
    ensures { IsTrue L.honest → FlushedSurvive (leg_type L.model L.honest) }
{}

/// What was answered stays on each leg that the superblock may call in sync.
pub fn answered_writes_survive<L: LegPart>()
    ensures { IsTrue L.honest → AnsweredSurvive (leg_type L.model L.honest) }
{}

/// Outside marked spans the legs that the superblock may call in sync, or lacking, stay equal.
pub fn unmarked_spans_stay_equal<L: LegPart>()
    ensures { IsTrue L.honest → UnmarkedStayEqual (leg_type L.model L.honest) }
{}

/// A span in which no write began since a flush did may be unmarked.
pub fn cooled_spans_may_be_cleared<L: LegPart>()
    ensures { IsTrue L.honest → CooledMayClear (leg_type L.model L.honest) }
{}

/// Each leg in sync stays listed, so a save calls only legs in sync that were listed before it.
pub fn legs_in_sync_stay_listed<L: LegPart>()
    ensures { IsTrue L.honest → ListedStay (leg_type L.model L.honest) }
{}

/// The begin and the end of a save are moves, the bounds hold of each superblock that may be the
/// durable one, and a start by any of these is one by the bounds.
pub fn saves_are_safe<L: LegPart>()
    ensures { SavesAreSafe L.model }
{}
