//! What legs in media hold that several threads call.
ghost use Rattle.nm_file_leg.specs.Called.{wrote_or_found};
ghost use Rattle.nm_file_leg.specs.Standing.{RunsStand};

use crate::CalledMedium;

/// A run that was read is what the leg holds, and a run that was written stands in it, if each call
/// of the medium found what it holds, and what it wrote stands there.
pub fn moved_runs_stand<M: CalledMedium>()
    ensures reads { RunsStand M.found }
    ensures writes { RunsStand (λ medium. wrote_or_found (M.found medium) (M.wrote medium)) }
{}
