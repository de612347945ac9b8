//! Laws of a mirror's stripes together, and of its runs. Each function does nothing: its contract
//! is the law.
ghost use Rattle.nm_lanes.specs.Laws.{ActsInterleave, ArraysMakeOne, MirrorActs};
ghost use Rattle.nm_lanes.specs.Laws.{FlushesAreAStripes, OneArrayAlone, StripesJoin};
ghost use Rattle.nm_lanes.specs.RunLaws.{BlocksMakeOneRun, RegionsAreOfOneRun};
ghost use Rattle.nm_lanes.specs.RunLaws.{RunsEndWithRegions, RunsFitSteps};

use nm_leg::LegPart;

/// Arrays of stripes that are as long as the mirror's shape says make exactly one array.
pub fn one_array()
    ensures made { ArraysMakeOne }
    ensures alone { OneArrayAlone }
{}

/// What `Stripe::run` did in a stripe has the explained interleaving that `stripes_join` asks for.
pub fn acts_interleave<L: LegPart>()
    ensures { ActsInterleave L.model }
{}

/// Where each stripe's steps have an explained interleaving, the mirror's steps have one, on the
/// mirror's array; and its part in each stripe is that stripe's.
pub fn stripes_join<L: LegPart>()
    ensures { StripesJoin L }
{}

/// Where the operations of each stripe's steps act once on that stripe's array, as `Stripe::run`
/// promises, those of the mirror's steps act once on the mirror's array.
pub fn mirror_acts<L: LegPart>()
    ensures { MirrorActs L.model }
{}

/// What a flush does in a stripe is a flush as `Stripe::run` has it, so that what it promises of
/// one holds.
pub fn flushes_are_a_stripes<L: LegPart>()
    ensures { FlushesAreAStripes L }
{}

/// A request of whole blocks that one run may have is one step in one stripe: where a region has at
/// most 128 blocks, as the server's have, each request of whole blocks of one region.
pub fn one_region_is_one_step()
    ensures one { BlocksMakeOneRun }
    ensures region { RegionsAreOfOneRun }
{}

/// A run has at most 128 blocks, of one region; and it ends where its region does.
pub fn runs_lie_in_regions()
    ensures fit { RunsFitSteps }
    ensures ends { RunsEndWithRegions }
{}
