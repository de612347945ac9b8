//! What a verification of the legs is told as.

use crate::repairs::Repairs;
use nm_geometry::Shape;
use nm_mirror::{Findings, RegionPlace, Verification};
use std::alloc::AllocError;

/// How much of the mirror a verification has compared, in percent.
pub fn percent(round: &Verification, shape: &Shape) -> u64 {
    let stripes = u64::from(shape.stripes.max(1));
    let whole = u64::from(round.at.stripe).min(stripes);
    let blocks = (shape.blocks / stripes).max(1);
    let part = round.at.block.min(blocks).saturating_mul(100) / blocks;
    (whole.saturating_mul(100).saturating_add(part) / stripes).min(100)
}

// The places that are told, as many as there are.
fn told(places: &[RegionPlace], count: u64) -> &[RegionPlace] {
    let many = count.min(places.len() as u64) as usize;
    &places[..many]
}

// Puts where regions differ.
fn put_places(found: &Findings, text: &mut String) -> Result<(), AllocError> {
    let mut before = "";
    for place in told(&found.places, found.differing) {
        let (stripe, region) = (place.stripe, place.region);
        write!(text, "{before} stripe {stripe} region {region}")?;
        before = ",";
    }
    Ok(())
}

// Puts, after these words, where a leg could not be read.
fn put_unread_at(before: &str, place: &RegionPlace, text: &mut String) -> Result<(), AllocError> {
    let (leg, stripe, region) = (place.leg, place.stripe, place.region);
    write!(text, "{before} leg {leg} stripe {stripe} region {region}")
}

// Puts what could not be read, if there is something.
fn put_unread(found: &Findings, text: &mut String) -> Result<(), AllocError> {
    if found.unread == 0 {
        return Ok(());
    }
    write!(
        text,
        "; {} regions could not be read, the first",
        found.unread
    )?;
    let mut before = " at";
    for place in told(&found.unread_places, found.unread) {
        put_unread_at(before, place, text)?;
        before = ",";
    }
    Ok(())
}

// Puts what was not compared, if there is something.
fn put_missed(found: &Findings, text: &mut String) -> Result<(), AllocError> {
    if found.missed == 0 {
        return Ok(());
    }
    write!(text, "; {} regions could not be compared", found.missed)
}

// Puts how many of the regions that were compared differ, and where.
fn put_differing(found: &Findings, text: &mut String) -> Result<(), AllocError> {
    let (compared, differing) = (found.compared, found.differing);
    write!(
        text,
        "verify: {differing} of {compared} regions differ, the first at"
    )?;
    put_places(found, text)?;
    text.push_str("; replace one leg to repair it")
}

/// Puts what a verification found in all.
pub fn put_end(found: &Findings, text: &mut String) -> Result<(), AllocError> {
    if found.differing == 0 {
        let compared = found.compared;
        write!(text, "verify: {compared} regions compared, none differs")?;
    } else {
        put_differing(found, text)?;
    }
    put_unread(found, text)?;
    put_missed(found, text)
}

/// Puts how many regions were written anew for the sake of a leg.
pub fn put_written(repairs: &Repairs, text: &mut String) -> Result<(), AllocError> {
    let (leg, regions) = (repairs.leg(), repairs.written().differing);
    write!(text, "; {regions} regions repaired on leg {leg}")
}
