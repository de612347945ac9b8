//! What a start by the superblock rests on, and what the next crash finds.
ghost use Rattle.nm_leg.specs.Leg.{leg_type};
ghost use Rattle.nm_plans.specs.Plan.{OpensAsItsGateKnows};
ghost use Rattle.nm_plans.specs.Stands.{StartsGoOn};

use nm_leg::LegPart;

/// What a stripe opens by is made of what its gate takes the image to say.
pub fn stripes_open_as_their_gates_know()
    ensures { OpensAsItsGateKnows }
{}

/// A stripe that a start opened by the superblock is one of which all that is promised behind the
/// gate holds again.
pub fn starts_go_on<L: LegPart>()
    ensures { StartsGoOn (leg_type L.model L.honest) }
{}
