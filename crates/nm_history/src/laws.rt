//! What follows of each legal list of moves.
ghost use Rattle.std.specs.Prelude.{IsTrue};
ghost use Rattle.nm_history.specs.Flushed.{HistoryKeepsFlushed};
ghost use Rattle.nm_history.specs.Laws.{HistoriesGoOn, HistoryActs, LossesMayStand};
ghost use Rattle.nm_history.specs.LossyActs.{HistoryActsInLosses, HistoryOfLosses};
ghost use Rattle.nm_history.specs.Restarts.{HistoryRestarts};
ghost use Rattle.nm_history.specs.Telling.{MovesAreTold};
ghost use Rattle.nm_leg.specs.Leg.{leg_type};

use nm_leg::LegPart;

/// A history goes on by each move from where it leads, and leads to one stripe.
pub fn histories_go_on<L: LegPart>()
    ensures { HistoriesGoOn (leg_type L.model L.honest) }
{}

/// A loss of a leg's power may be put into a history wherever the leg is out.
pub fn losses_may_stand<L: LegPart>()
    ensures { LossesMayStand (leg_type L.model L.honest) }
{}

/// From each opening on, a history's operations act on one array.
pub fn history_acts<L: LegPart>()
    ensures { IsTrue L.honest → HistoryActs (leg_type L.model L.honest) }
{}

/// So they do where legs lose power, as far as the gate's marks cover what these may lose.
pub fn history_acts_in_losses<L: LegPart>()
    ensures { IsTrue L.honest → HistoryActsInLosses (leg_type L.model L.honest) }
{}

/// What a history does is moves of which the laws on crashes and flushes speak.
pub fn history_restarts<L: LegPart>()
    ensures { HistoryRestarts (leg_type L.model L.honest) }
{}

/// With losses, moves of which the laws on legs that lose power speak.
pub fn history_of_losses<L: LegPart>()
    ensures { IsTrue L.honest → HistoryOfLosses (leg_type L.model L.honest) }
{}

/// And what was flushed stays on each leg that the superblock may call in sync.
pub fn history_keeps_flushed<L: LegPart>()
    ensures { IsTrue L.honest → HistoryKeepsFlushed (leg_type L.model L.honest) }
{}

/// Moves are told, once they are made, by what is in hand then.
pub fn moves_are_told<L: LegPart>()
    ensures { MovesAreTold (leg_type L.model L.honest) }
{}
