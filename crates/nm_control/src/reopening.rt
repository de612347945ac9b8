//! Opens stripes that stopped anew, on legs of their own files, and tries saves again.
ghost use Rattle.std.specs.Prelude.{◌<◌};

use crate::copy_orders::CopyOrders;
use nm_lanes::Gate;
use nm_leg::LegPart;
use nm_leg_files::MakesLegs;
use nm_mirror::{Mirror, Naming, Reopened};
use std::alloc::Global;
use std::ops::Range;
use std::sync::Wait;

/// What came of stripes that were to be opened anew.
#[derive(Clone, Copy, Default, PartialEq, Eq)]
pub struct ReopenCounts {
    /// How many were.
    pub opened: u64,
    /// How many blocks are left to copy to their other legs.
    pub left: u64,
    /// How many stay stopped.
    pub stopped: u64,
}

impl ReopenCounts {
    // Counts what came of one stripe. One that runs counts as neither.
    fn count(&mut self, reopened: Reopened) {
        match reopened {
            Reopened::Runs => (),
            Reopened::Opened(left) => {
                self.opened = self.opened.saturating_add(1);
                self.left = self.left.saturating_add(left);
            }
            Reopened::Stays => self.stopped = self.stopped.saturating_add(1),
        }
    }
}

// Opens the stripe anew, if it has stopped.
fn reopen_one<R: Wait, L: LegPart, G: Gate + Drop, J: Naming, M: MakesLegs<L>>(
    rt: &R,
    alloc: Global,
    mirror: &Mirror<L, G, J>,
    maker: &M,
    stripe: u32,
) -> Reopened
    requires { stripe < mirror.now.shape.stripes }
{
    if !mirror.has_stopped(rt, stripe) {
        return Reopened::Runs;
    }
    match maker.make(alloc, stripe) {
        Some(legs) => mirror.reopen(rt, alloc, stripe, legs, maker.policy()),
        None => Reopened::Stays,
    }
}

/// Tries a save again that could not be done, and opens each of these stripes anew that has
/// stopped. Then copies begin again: what could not be saved held them up, and the legs of a stripe
/// that was opened join with all of their blocks.
pub fn reopen<R: Wait, L: LegPart, G: Gate + Drop, J: Naming, M: MakesLegs<L>>(
    rt: &R,
    alloc: Global,
    mirror: &Mirror<L, G, J>,
    maker: &M,
    orders: &CopyOrders,
    stripes: Range<u32>,
) -> ReopenCounts {
    let is_saved = mirror.save_again(rt);
    let mut counts = ReopenCounts::default();
    let end = stripes.end.min(mirror.shape().stripes);
    for stripe in stripes.start..end {
        counts.count(reopen_one(rt, alloc, mirror, maker, stripe));
    }
    if counts.opened > 0 {
        orders.keep_retired_out(rt, mirror);
    }
    if is_saved || counts.opened > 0 {
        orders.want_new_round();
    }
    counts
}
