//! What the array of a stripe is, at a block and as it is opened; and how runs are numbered.
ghost use Rattle.nm_leg.specs.Leg.{leg_type};
ghost use Rattle.nm_rules.specs.Laws.{ArrayAtEachBlock};
ghost use Rattle.nm_stripe.specs.Apart.{RunsLieApart};
ghost use Rattle.nm_stripe.specs.Laws.{OpensWithTheMaster};

use nm_leg::LegPart;

/// At a block the array has the data of the write under way there once it has landed, else what the
/// master holds.
pub fn array_at_each_block<L: LegPart>()
    ensures { ArrayAtEachBlock L.model }
{}

/// As a stripe is opened its array is what its master holds.
pub fn opens_with_the_master<L: LegPart>()
    ensures { OpensWithTheMaster L.model }
{}

/// A run is one step: from a stripe without records on, as one that was opened, the entries of a
/// finished write lie all before or all after those of any other write or read that is answered.
pub fn runs_lie_apart<L: LegPart>()
    ensures { RunsLieApart (leg_type L.model L.honest) }
{}
