//! What losses of power cost, for every list of moves of a stripe of honest legs.
ghost use Rattle.std.specs.Prelude.{IsTrue};
ghost use Rattle.nm_leg.specs.Leg.{leg_type};
ghost use Rattle.nm_losses.specs.Crashing.{PowerTakesTheUnsynced};
ghost use Rattle.nm_losses.specs.Gated.{EverywhereCoversLosses, GateCoversLosses};
ghost use Rattle.nm_losses.specs.Laws.{FlushedOutlivesLosses, LossesKeepTheArray};
ghost use Rattle.nm_losses.specs.Survive.{FlushedSurvivesLosses};

use nm_leg::LegPart;

/// The stripe's operations act on one array, and each leg in sync holds that array.
pub fn losses_keep_the_array<L: LegPart>()
    ensures { IsTrue L.honest → LossesKeepTheArray (leg_type L.model L.honest) }
{}

/// What was flushed stays durable on each leg in sync.
pub fn flushed_outlives_losses<L: LegPart>()
    ensures { IsTrue L.honest → FlushedOutlivesLosses (leg_type L.model L.honest) }
{}

/// Of an honest leg a loss of power takes no more than these laws let it.
pub fn power_takes_the_unsynced<L: LegPart>()
    ensures { IsTrue L.honest → PowerTakesTheUnsynced L.model }
{}

/// Behind the gate the marks that a return is given cover what the leg lost, whatever crashes took.
pub fn gate_covers_losses<L: LegPart>()
    ensures { IsTrue L.honest → GateCoversLosses (leg_type L.model L.honest) }
{}

/// Without a superblock they cover whatever it lost.
pub fn everywhere_covers_losses<L: LegPart>()
    ensures { EverywhereCoversLosses L.model }
{}

/// What was flushed stays on each leg that the superblock may call in sync, for a start to find.
pub fn flushed_survives_losses<L: LegPart>()
    ensures { IsTrue L.honest → FlushedSurvivesLosses (leg_type L.model L.honest) }
{}
