//! Metrics of the server itself, of verifications, and of superblocks.

use crate::metrics_page::MetricsPage;
use crate::save_status::SaveStatus;
use crate::server_info::ServerInfo;
use crate::verified::Verified;
use nm_commands::VERSION;
use std::alloc::AllocError;

/// What metrics tell beside what is counted and how the stripes are.
#[derive(Clone, Copy, Drop)]
pub struct Known<'a> {
    /// How many regions could not be read.
    pub unread: u64,
    /// What is known of verifications.
    pub verified: Verified,
    /// Since when the server serves, and how its superblocks stand.
    pub info: &'a ServerInfo,
}

/// Puts which version the server has, and when it began, where the clock could be read then.
pub fn put_server(page: &mut MetricsPage<'_>, info: &ServerInfo) -> Result<(), AllocError> {
    let name = "nbdmirror_build_info";
    page.begin_gauge(name, "Which version the server has.")?;
    let labels = format!(in page.alloc(); "version=\"{VERSION}\"")?;
    page.put(name, labels.as_str(), 1)?;
    if info.started() == 0 {
        return Ok(());
    }
    page.put_gauge(
        "nbdmirror_start_time_seconds",
        "When the server began, in seconds since 1970.",
        info.started(),
    )
}

/// Puts how many regions differ by verifications, and how long ago the last one ended.
pub fn put_verified(page: &mut MetricsPage<'_>, verified: &Verified) -> Result<(), AllocError> {
    page.put_gauge(
        "nbdmirror_differing_regions",
        "Regions that differ by a verification, and were not repaired.",
        verified.differing,
    )?;
    let Some(age) = verified.age else {
        return Ok(());
    };
    page.put_gauge(
        "nbdmirror_verify_age_seconds",
        "Seconds since the last verification ended.",
        age,
    )
}

/// Puts how the superblocks stand, where there are some.
pub fn put_superblocks(page: &mut MetricsPage<'_>, saves: &SaveStatus) -> Result<(), AllocError> {
    let Some(saved) = saves.saved() else {
        return Ok(());
    };
    page.put_gauge(
        "nbdmirror_superblock_generation",
        "The last generation of superblocks that was saved.",
        saved.generation,
    )?;
    page.put_gauge(
        "nbdmirror_superblock_marked_spans",
        "Spans in which legs may differ after a crash.",
        u64::from(saved.marked),
    )?;
    page.put_gauge(
        "nbdmirror_superblock_unsaved_stripes",
        "Stripes in which the loss of a leg is being saved.",
        u64::from(saved.unsaved),
    )?;
    page.put_gauge(
        "nbdmirror_superblock_failed",
        "1 where superblocks cannot be written: the mirror is read-only.",
        u64::from(saved.has_failed),
    )
}
