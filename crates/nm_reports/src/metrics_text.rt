//! The answer to `metrics`.

use crate::call_counts::{CallTotals, MirrorCallKind};
use crate::leg_counts::{LegCall, LegNumber};
use crate::metrics::Metrics;
use crate::metrics_page::MetricsPage;
use crate::server_metrics::{Known, put_server, put_superblocks, put_verified};
use nm_lanes::Gate;
use nm_leg::LegPart;
use nm_mirror::{Glance, LegStatus, Mirror, Naming, StripeStatus};
use nm_stripe::LegState;
use std::alloc::{AllocError, Global};
use std::sync::Wait;
use std::time::Clock;

/// How many bytes a block has.
const BLOCK_BYTES: u64 = nm_replay::BLOCK_BYTES as u64;

// Puts how long the requests of one kind took.
fn put_times(
    page: &mut MetricsPage<'_>,
    kind: MirrorCallKind,
    totals: &CallTotals,
) -> Result<(), AllocError> {
    page.put_buckets(
        "nbdmirror_request_seconds_bucket",
        kind.name(),
        &totals.buckets,
    )?;
    let labels = format!(in page.alloc(); "operation=\"{}\"", kind.name())?;
    page.put_time(
        "nbdmirror_request_seconds_sum",
        labels.as_str(),
        totals.microseconds,
    )?;
    page.put(
        "nbdmirror_request_seconds_count",
        labels.as_str(),
        totals.calls(),
    )
}

// The requests of one kind.
#[derive(Drop)]
struct KindTotals {
    kind: MirrorCallKind,
    labels: String,
    totals: CallTotals,
}

// Which number of the requests of a kind is told.
#[derive(Clone, Copy)]
enum KindNumber {
    Calls,
    Bytes,
    Errors,
}

impl KindTotals {
    // This number of theirs.
    fn get(&self, number: KindNumber) -> u64 {
        match number {
            KindNumber::Calls => self.totals.calls(),
            KindNumber::Bytes => self.totals.bytes,
            KindNumber::Errors => self.totals.errors,
        }
    }
}

// The requests of each kind.
fn all_requests(alloc: Global, metrics: &Metrics) -> Result<Vec<KindTotals>, AllocError> {
    let mut all = Vec::new(alloc);
    for kind in MirrorCallKind::ALL {
        let labels = format!(in alloc; "operation=\"{}\"", kind.name())?;
        let totals = metrics.totals(alloc, kind)?;
        all.push(KindTotals {
            kind,
            labels,
            totals,
        })?;
    }
    Ok(all)
}

// Puts a number of the requests of each kind.
fn put_request_numbers(
    page: &mut MetricsPage<'_>,
    name: &str,
    all: &[KindTotals],
    number: KindNumber,
) -> Result<(), AllocError> {
    for own in all {
        page.put(name, own.labels.as_str(), own.get(number))?;
    }
    Ok(())
}

// Puts how long the requests of each kind took.
fn put_all_times(page: &mut MetricsPage<'_>, all: &[KindTotals]) -> Result<(), AllocError> {
    let name = "nbdmirror_request_seconds";
    page.begin_histogram(name, "How long requests took in the mirror.")?;
    for own in all {
        put_times(page, own.kind, &own.totals)?;
    }
    Ok(())
}

// Puts what clients asked for, and what came of it.
fn put_requests(page: &mut MetricsPage<'_>, metrics: &Metrics) -> Result<(), AllocError> {
    let all = all_requests(page.alloc(), metrics)?;
    let name = "nbdmirror_requests_total";
    page.begin_counter(name, "Requests of clients that reached the mirror.")?;
    put_request_numbers(page, name, &all, KindNumber::Calls)?;
    let name = "nbdmirror_request_bytes_total";
    page.begin_counter(name, "Bytes that requests read, wrote or zeroed.")?;
    put_request_numbers(page, name, &all, KindNumber::Bytes)?;
    let name = "nbdmirror_request_errors_total";
    page.begin_counter(name, "Requests that failed.")?;
    put_request_numbers(page, name, &all, KindNumber::Errors)?;
    put_all_times(page, &all)
}

// Puts how many clients there were, and what came of them.
fn put_clients(page: &mut MetricsPage<'_>, metrics: &Metrics) -> Result<(), AllocError> {
    page.put_gauge(
        "nbdmirror_sessions",
        "Clients that are connected.",
        metrics.sessions_now(),
    )?;
    page.put_gauge(
        "nbdmirror_sessions_limit",
        "Clients that may be connected at once.",
        metrics.places() as u64,
    )?;
    page.put_counter(
        "nbdmirror_sessions_total",
        "Clients that were given a place.",
        metrics.sessions(),
    )?;
    page.put_counter(
        "nbdmirror_sessions_failed_total",
        "Sessions that broke off.",
        metrics.sessions_failed(),
    )?;
    page.put_counter(
        "nbdmirror_clients_refused_total",
        "Clients that found no free place.",
        metrics.clients_refused(),
    )
}

// Puts a number of each kind of call of each leg's file.
fn put_leg_numbers(
    page: &mut MetricsPage<'_>,
    metrics: &Metrics,
    name: &str,
    number: LegNumber,
) -> Result<(), AllocError> {
    for (leg, counts) in metrics.legs().iter().enumerate() {
        for call in LegCall::ALL {
            let labels = format!(in page.alloc(); "leg=\"{leg}\",call=\"{}\"", call.name())?;
            page.put(name, labels.as_str(), counts.get(call, number))?;
        }
    }
    Ok(())
}

// Puts how the legs' files were called.
fn put_leg_calls(page: &mut MetricsPage<'_>, metrics: &Metrics) -> Result<(), AllocError> {
    let name = "nbdmirror_leg_calls_total";
    page.begin_counter(name, "Calls of the leg's file, by clients and copies.")?;
    put_leg_numbers(page, metrics, name, LegNumber::Calls)?;
    let name = "nbdmirror_leg_bytes_total";
    page.begin_counter(name, "Bytes that calls of the leg's file moved.")?;
    put_leg_numbers(page, metrics, name, LegNumber::Bytes)?;
    let name = "nbdmirror_leg_errors_total";
    page.begin_counter(name, "Calls of the leg's file that failed.")?;
    put_leg_numbers(page, metrics, name, LegNumber::Errors)
}

// How a leg stands in the stripes that were seen.
#[derive(Clone, Copy)]
struct LegStand {
    in_sync: u64,
    joining: u64,
    out: u64,
    left: u64,
    unsynced: u64,
}

// Which blocks of a leg are told in bytes.
#[derive(Clone, Copy)]
enum LegSum {
    Left,
    Unsynced,
}

impl LegStand {
    // How many these blocks are.
    fn blocks(&self, sum: LegSum) -> u64 {
        match sum {
            LegSum::Left => self.left,
            LegSum::Unsynced => self.unsynced,
        }
    }

    // Adds how it stands in one more stripe.
    fn add(&mut self, status: &LegStatus) {
        let place = match status.state {
            LegState::InSync => &mut self.in_sync,
            LegState::Joining => &mut self.joining,
            LegState::Out => &mut self.out,
        };
        *place = place.saturating_add(1);
        if status.state == LegState::Joining {
            self.left = self.left.saturating_add(status.left);
        }
    }

    // How the leg of this number stands.
    fn of(glances: &[Glance], leg: usize) -> LegStand {
        let mut stand = LegStand {
            in_sync: 0,
            joining: 0,
            out: 0,
            left: 0,
            unsynced: 0,
        };
        for glance in glances {
            let unsynced = glance.unsynced(leg.min(255) as u8).unwrap_or(0);
            stand.unsynced = stand.unsynced.saturating_add(unsynced);
            if let Some(StripeStatus::Running { legs, .. }) = glance.told() {
                if let Some(status) = legs.get(leg) {
                    stand.add(status);
                }
            }
        }
        stand
    }

    // How each of so many legs stands.
    fn of_all(alloc: Global, glances: &[Glance], legs: u8) -> Result<Vec<LegStand>, AllocError> {
        let mut stands = Vec::new(alloc);
        for leg in 0..usize::from(legs) {
            stands.push(LegStand::of(glances, leg))?;
        }
        Ok(stands)
    }
}

// Puts blocks of each leg, as bytes.
fn put_leg_bytes(
    page: &mut MetricsPage<'_>,
    name: &str,
    stands: &[LegStand],
    sum: LegSum,
) -> Result<(), AllocError> {
    let alloc = page.alloc();
    for (leg, stand) in stands.iter().enumerate() {
        let labels = format!(in alloc; "leg=\"{leg}\"")?;
        page.put(
            name,
            labels.as_str(),
            stand.blocks(sum).saturating_mul(BLOCK_BYTES),
        )?;
    }
    Ok(())
}

// Puts in how many stripes each leg is how.
fn put_leg_stripes(
    page: &mut MetricsPage<'_>,
    name: &str,
    stands: &[LegStand],
) -> Result<(), AllocError> {
    let alloc = page.alloc();
    for (leg, stand) in stands.iter().enumerate() {
        for (state, count) in [
            ("in", stand.in_sync),
            ("join", stand.joining),
            ("out", stand.out),
        ] {
            let labels = format!(in alloc; "leg=\"{leg}\",state=\"{state}\"")?;
            page.put(name, labels.as_str(), count)?;
        }
    }
    Ok(())
}

// Puts in how many stripes each leg is how, how much it lacks, and how much it has not synced.
fn put_stands(page: &mut MetricsPage<'_>, glances: &[Glance], legs: u8) -> Result<(), AllocError> {
    let stands = LegStand::of_all(page.alloc(), glances, legs)?;
    let name = "nbdmirror_leg_stripes";
    page.begin_gauge(name, "Stripes in which the leg is in sync, copied, or out.")?;
    put_leg_stripes(page, name, &stands)?;
    let name = "nbdmirror_leg_left_bytes";
    page.begin_gauge(name, "Bytes that are left to copy to the leg.")?;
    put_leg_bytes(page, name, &stands, LegSum::Left)?;
    let name = "nbdmirror_leg_unsynced_bytes";
    page.begin_gauge(name, "Bytes in regions that the leg has not synced whole.")?;
    put_leg_bytes(page, name, &stands, LegSum::Unsynced)
}

// Puts how many stripes are running, have stopped, and are busy.
fn put_stripes(page: &mut MetricsPage<'_>, glances: &[Glance]) -> Result<(), AllocError> {
    let (mut running, mut stopped, mut busy) = (0u64, 0u64, 0u64);
    for glance in glances {
        let place = match glance.told() {
            Some(StripeStatus::Running { .. }) => &mut running,
            Some(StripeStatus::Stopped) => &mut stopped,
            None => &mut busy,
        };
        *place = place.saturating_add(1);
    }
    let name = "nbdmirror_stripes";
    page.begin_gauge(
        name,
        "Stripes that are running, have stopped, or do not answer.",
    )?;
    page.put(name, "state=\"running\"", running)?;
    page.put(name, "state=\"stopped\"", stopped)?;
    page.put(name, "state=\"busy\"", busy)
}

// Puts all metrics of a mirror of so many legs, whose stripes were just seen.
fn put_all(
    page: &mut MetricsPage<'_>,
    metrics: &Metrics,
    glances: &[Glance],
    legs: u8,
    known: &Known<'_>,
) -> Result<(), AllocError> {
    put_server(page, known.info)?;
    put_requests(page, metrics)?;
    put_clients(page, metrics)?;
    put_leg_calls(page, metrics)?;
    put_stands(page, glances, legs)?;
    put_stripes(page, glances)?;
    page.put_gauge(
        "nbdmirror_unread_regions",
        "Regions that no leg in sync gives back.",
        known.unread,
    )?;
    put_verified(page, &known.verified)?;
    put_superblocks(page, known.info.saves())
}

/// Puts all that a server counts and knows, how its legs stand, and how much is left to copy; at
/// last a line `end`.
pub fn put_metrics<R: Wait + Clock, L: LegPart, G: Gate + Drop, J: Naming>(
    rt: &R,
    alloc: Global,
    mirror: &Mirror<L, G, J>,
    known: &Known<'_>,
    metrics: &Metrics,
    text: &mut String,
) -> Result<(), AllocError> {
    let Ok(glances) = mirror.glance_unsynced(rt, alloc) else {
        return Err(AllocError);
    };
    put_all(
        &mut MetricsPage::new(alloc, text),
        metrics,
        &glances,
        mirror.legs(),
        known,
    )?;
    text.push_str("end\n")
}
