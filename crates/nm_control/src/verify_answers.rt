//! The control port's answers on a verification of the legs.

use crate::controlled::Controlled;
use crate::replacing::RenewsLegs;
use crate::verify_desk::VerifyDesk;
use nm_lanes::Gate;
use nm_leg::LegPart;
use nm_leg_files::MakesLegs;
use nm_mirror::{Glance, LegStatus, Naming, StripeStatus};
use nm_stripe::LegState;
use std::alloc::{AllocError, Global};
use std::sync::Wait;
use std::time::Clock;

// How many of these legs are in sync.
fn count_in_sync(legs: &[LegStatus]) -> usize {
    legs.iter()
        .filter(|leg| leg.state == LegState::InSync)
        .count()
}

// Whether the stripe has two legs in sync, or cannot be asked right now.
fn has_two(glance: &Glance) -> bool {
    match glance.told() {
        Some(StripeStatus::Stopped) => false,
        Some(StripeStatus::Running { legs, .. }) => count_in_sync(legs.as_slice()) > 1,
        None => true,
    }
}

// Whether this leg is the only one in sync of the stripe.
fn is_last(glance: &Glance, leg: u8) -> bool {
    match glance.told() {
        Some(StripeStatus::Running { legs, .. }) => {
            let legs = legs.as_slice();
            match legs.get(leg as usize) {
                Some(status) => status.state == LegState::InSync && count_in_sync(legs) == 1,
                None => false,
            }
        }
        _ => false,
    }
}

/// Puts how the verification stands.
pub fn put_known<R: Wait, L: LegPart, G: Gate + Drop, J: Naming, N: RenewsLegs<L>, M: MakesLegs<L>>(
    rt: &R,
    server: &Controlled<'_, L, G, J, N, M>,
    text: &mut String,
) -> Result<(), AllocError> {
    let known = server.orders.verify().known(rt);
    known.put(server.mirror.shape(), text)?;
    text.push_str("\n")
}

// Whether this leg is the only one in sync of one of these stripes.
fn is_last_of_any(stripes: &[Glance], leg: u8) -> bool {
    stripes.iter().any(|glance| is_last(glance, leg))
}

// Asks for a verification, and puts that it is started, or how the one stands that goes on.
fn put_asked<R: Wait, L: LegPart, G: Gate + Drop, J: Naming, N: RenewsLegs<L>, M: MakesLegs<L>>(
    rt: &R,
    server: &Controlled<'_, L, G, J, N, M>,
    repaired: Option<u8>,
    text: &mut String,
) -> Result<(), AllocError> {
    if server.orders.verify().ask(rt, repaired) {
        return text.push_str("verify: started\n");
    }
    put_known(rt, server, text)
}

/// The answer to `verify`, and where a leg is named, which is repaired, to `verify repair`: it is
/// started, unless one goes on, no stripe has two legs in sync, or that leg is the last one in sync
/// of a stripe.
pub fn put_verify<
    R: Wait + Clock,
    L: LegPart,
    G: Gate + Drop,
    J: Naming,
    N: RenewsLegs<L>,
    M: MakesLegs<L>,
>(
    rt: &R,
    alloc: Global,
    server: &Controlled<'_, L, G, J, N, M>,
    repaired: Option<u8>,
    text: &mut String,
) -> Result<(), AllocError> {
    let Ok(stripes) = server.mirror.glance(rt, alloc) else {
        return Err(AllocError);
    };
    if let Some(leg) = repaired {
        if leg >= server.mirror.legs() {
            return text.push_str("bad command\n");
        }
        if is_last_of_any(&stripes, leg) {
            return writeln!(text, "verify: leg {leg} is the last in sync");
        }
    }
    if !stripes.iter().any(has_two) {
        return text.push_str("verify: none in sync to compare\n");
    }
    put_asked(rt, server, repaired, text)
}

/// The answer to `verify stop`.
pub fn put_verify_stop<R: Wait>(
    rt: &R,
    desk: &VerifyDesk,
    text: &mut String,
) -> Result<(), AllocError> {
    if desk.stop(rt) {
        text.push_str("verify: stopped\n")
    } else {
        text.push_str("verify: not running\n")
    }
}
