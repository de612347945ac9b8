//! Laws of the region table. Each function does nothing: its contract is the law, for every table.
ghost use Rattle.nm_regions.specs.Laws.{AdvanceLowersLeft, AttachKeepsLeft, BeginKeepsLeft};
ghost use Rattle.nm_regions.specs.Laws.{FinishKeepsLeft, GoOutKeepsLeft, GoOutMarksDirty};
ghost use Rattle.nm_regions.specs.Laws.{OpenKeepsLeft, ReplaceKeepsLeft, ReplaceLeavesAll};

/// What is left of a leg falls by one for each block that its copy advances.
pub fn advance_lowers_left()
    ensures { AdvanceLowersLeft }
{}

/// What is left of a leg stays as its copy is opened, and as its copied region is finished.
pub fn a_region_keeps_left()
    ensures opened { OpenKeepsLeft }
    ensures finished { FinishKeepsLeft }
{}

/// What is left of a leg that is not out stays as a run begins.
pub fn begin_keeps_left()
    ensures { BeginKeepsLeft }
{}

/// A leg that goes out is behind where it was, and where a write is under way.
pub fn go_out_marks_dirty()
    ensures { GoOutMarksDirty }
{}

/// What is left of a leg stays as another one goes out or is replaced, and as any is attached.
pub fn other_legs_keep_left()
    ensures gone_out { GoOutKeepsLeft }
    ensures replaced { ReplaceKeepsLeft }
    ensures attached { AttachKeepsLeft }
{}

/// All blocks are left to copy to a leg that is replaced.
pub fn replace_leaves_all()
    ensures { ReplaceLeavesAll }
{}
