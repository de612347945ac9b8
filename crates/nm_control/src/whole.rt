//! The answer to `status`: each stripe, and the mirror as a whole; and those to `pause` and
//! `resume`, which it tells of.

use crate::controlled::Controlled;
use crate::replacing::RenewsLegs;
use nm_commands::VERSION;
use nm_lanes::Gate;
use nm_leg::LegPart;
use nm_leg_files::MakesLegs;
use nm_mirror::{Glance, Mirror, Naming, StripeStatus};
use nm_reports::is_printable;
use nm_service::Ailments;
use nm_stripe::LegState;
use std::alloc::{AllocError, Global};
use std::sync::Wait;
use std::time::Clock;

/// How many bytes a block has.
const BLOCK_BYTES: u64 = nm_replay::BLOCK_BYTES as u64;

// Counts what is not well in a stripe that was just seen.
fn count_stripe(glance: &Glance, found: &mut Ailments) {
    match glance.told() {
        None => found.busy = found.busy.saturating_add(1),
        Some(StripeStatus::Stopped) => found.stopped = found.stopped.saturating_add(1),
        Some(StripeStatus::Running { legs, .. }) => {
            for leg in legs {
                match leg.state {
                    LegState::InSync => (),
                    LegState::Joining => found.copied = found.copied.saturating_add(1),
                    LegState::Out => found.out = found.out.saturating_add(1),
                }
            }
        }
    }
}

// How many legs are paused.
fn count_paused<L: LegPart, G: Gate + Drop, J: Naming>(mirror: &Mirror<L, G, J>) -> u64 {
    let mut count = 0u64;
    for leg in 0..mirror.legs() {
        count = count.saturating_add(u64::from(mirror.is_paused(leg)));
    }
    count
}

// What is not well in the mirror, whose stripes were just seen.
fn ailments<
    R: Wait + Clock,
    L: LegPart,
    G: Gate + Drop,
    J: Naming,
    N: RenewsLegs<L>,
    M: MakesLegs<L>,
>(rt: &R, server: &Controlled<'_, L, G, J, N, M>, glances: &[Glance]) -> Ailments {
    let (orders, saves) = (server.orders, server.info.saves());
    let mut found = Ailments {
        stopped: 0,
        out: 0,
        unread: server.unread.count(rt),
        failed_reads: orders.doubts().failed_reads(),
        differing: orders.verify().verified(rt).differing,
        unsaved: u64::from(saves.has_failed()),
        // A leg that is paused waits, as one that is being copied.
        copied: count_paused(server.mirror),
        busy: 0,
    };
    for glance in glances {
        count_stripe(glance, &mut found);
    }
    found
}

// Puts the export: its size, and its name if that is printable.
fn put_export(size: u64, name: &str, text: &mut String) -> Result<(), AllocError> {
    write!(text, "export: size {size}")?;
    if is_printable(name) {
        write!(text, " name {name}")?;
    }
    text.push_str("\n")
}

// Puts how well the mirror is, in one word, its export, whose name stands there if it is printable,
// and the server's version.
fn put_whole<
    R: Wait + Clock,
    L: LegPart,
    G: Gate + Drop,
    J: Naming,
    N: RenewsLegs<L>,
    M: MakesLegs<L>,
>(
    rt: &R,
    server: &Controlled<'_, L, G, J, N, M>,
    glances: &[Glance],
    text: &mut String,
) -> Result<(), AllocError> {
    let word = ailments(rt, server, glances).health().word();
    let bytes = server.mirror.shape().blocks.saturating_mul(BLOCK_BYTES);
    writeln!(text, "mirror: {word}")?;
    put_export(bytes, server.name, text)?;
    writeln!(text, "server: version {VERSION}")
}

// Puts a line a leg that is paused.
fn put_paused<L: LegPart, G: Gate + Drop, J: Naming>(
    mirror: &Mirror<L, G, J>,
    text: &mut String,
) -> Result<(), AllocError> {
    for leg in 0..mirror.legs() {
        if mirror.is_paused(leg) {
            writeln!(text, "leg {leg}: paused")?;
        }
    }
    Ok(())
}

/// The answer to `status`.
pub fn put_status<
    R: Wait + Clock,
    L: LegPart,
    G: Gate + Drop,
    J: Naming,
    N: RenewsLegs<L>,
    M: MakesLegs<L>,
>(
    rt: &R,
    alloc: Global,
    server: &Controlled<'_, L, G, J, N, M>,
    text: &mut String,
) -> Result<(), AllocError> {
    let Ok(stripes) = server.mirror.glance(rt, alloc) else {
        return Err(AllocError);
    };
    for (stripe, glance) in stripes.iter().enumerate() {
        writeln!(text, "stripe {stripe}: {glance}")?;
    }
    put_whole(rt, server, &stripes, text)?;
    put_paused(server.mirror, text)?;
    text.push_str("end\n")
}

/// The answer to `pause`.
pub fn put_pause<L: LegPart, G: Gate + Drop, J: Naming>(
    mirror: &Mirror<L, G, J>,
    leg: u8,
    text: &mut String,
) -> Result<(), AllocError> {
    if leg >= mirror.legs() {
        return text.push_str("bad command\n");
    }
    let was_paused = if mirror.pause_leg(leg) { "" } else { "was " };
    writeln!(text, "pause {leg}: {was_paused}paused")
}

/// The answer to `resume`.
pub fn put_resume<L: LegPart, G: Gate + Drop, J: Naming>(
    mirror: &Mirror<L, G, J>,
    leg: u8,
    text: &mut String,
) -> Result<(), AllocError> {
    if leg >= mirror.legs() {
        return text.push_str("bad command\n");
    }
    let came = if mirror.resume_leg(leg) {
        "resumed"
    } else {
        "was not paused"
    };
    writeln!(text, "resume {leg}: {came}")
}
