//! Which stripes have stopped, and on which leg.

use nm_lanes::Gate;
use nm_leg::LegPart;
use nm_mirror::{Glance, Mirror, Naming, StripeStatus};
use std::alloc::{AllocError, Global};
use std::sync::Wait;
use std::time::Clock;

// Whether the stripe has stopped on this leg.
fn is_last_of(glance: &Glance, leg: u8) -> bool {
    matches!(glance.told(), Some(StripeStatus::Stopped)) && glance.master() == Some(leg)
}

// Puts the line of this leg, if stripes have stopped on it.
fn put_stopped_on(glances: &[Glance], leg: u8, text: &mut String) -> Result<(), AllocError> {
    let mut is_first = true;
    for (stripe, glance) in glances.iter().enumerate() {
        if !is_last_of(glance, leg) {
            continue;
        }
        if is_first {
            write!(text, "stopped: last leg {leg} stripes")?;
        }
        write!(text, " {stripe}")?;
        is_first = false;
    }
    if is_first {
        return Ok(());
    }
    text.push_str("\n")
}

/// Puts a line a leg on which stripes have stopped: it was their last one in sync.
pub fn put_stopped<R: Wait + Clock, L: LegPart, G: Gate + Drop, J: Naming>(
    rt: &R,
    alloc: Global,
    mirror: &Mirror<L, G, J>,
    text: &mut String,
) -> Result<(), AllocError> {
    let Ok(glances) = mirror.glance(rt, alloc) else {
        return Err(AllocError);
    };
    for leg in 0..mirror.legs() {
        put_stopped_on(&glances, leg, text)?;
    }
    Ok(())
}
