//! One leg's file.
ghost use Rattle.std.specs.Prelude.{◌≡◌, IfOk, is_some, not};
ghost use Rattle.nm_leg_files.specs.Files.{name_of};
ghost use Rattle.nm_leg_files.specs.Here.{is_here};

use crate::absence::Absence;
use crate::late_file::LateFile;
use crate::leg_opening::{FoundLeg, LegRules};
use crate::limited_file::LimitedFile;
use nm_file_leg::SharedFile;
use nm_geometry::MOST_STRIPES;
use nm_reports::{LegCounts, LegTrouble, Unopened};
use std::alloc::{AllocError, Global};
use std::io;
use std::sync::Arc;

/// A leg's file by the name that it was opened by, what of it failed last, and how often it
/// was called.
#[derive(Drop)]
pub struct LegFile {
    pub(crate) name: String,
    pub(crate) shared: Arc<SharedFile<LimitedFile>>,
    // Why the start goes on without it, where that is so.
    pub(crate) unopened: Option<Absence>,
    pub(crate) trouble: Arc<LegTrouble>,
    pub(crate) counts: Arc<LegCounts>,
}

// Why a leg is not here, where the system did not open its file.
fn absence_of(unopened: Option<io::Error>) -> Option<Absence>
    ensures { is_some result ≡ is_some unopened }
{
    match unopened {
        Some(error) => Some(Absence::Unopened(error)),
        None => None,
    }
}

/// The file of this name for the stripes, of which there are at most so many, under the limit that
/// the rules have for its calls.
pub(crate) fn share(
    alloc: Global,
    name: &str,
    found: FoundLeg,
    rules: &LegRules,
) -> Result<LegFile, AllocError>
    ensures name { IfOk result (λ leg. name_of leg ≡ name.now) }
    ensures here { IfOk result (λ leg. is_here leg ≡ not (is_some found.unopened)) }
{
    let trouble = LegTrouble::new(alloc, name)?;
    let name = String::from_str(alloc, name)?;
    let file = match found.file {
        Some(file) => LateFile::opened(file, rules.window),
        None => LateFile::missing(rules.window),
    };
    let limited = LimitedFile::of(alloc, file, &rules.limit(alloc)?)?;
    let shared = SharedFile::new(alloc, limited, MOST_STRIPES as usize)?;
    Ok(LegFile {
        name,
        shared: Arc::new(alloc, shared)?,
        unopened: absence_of(found.unopened),
        trouble: Arc::new(alloc, trouble)?,
        counts: Arc::new(alloc, LegCounts::new())?,
    })
}

/// Why the system did not open it.
pub(crate) fn unopened_by(file: &LegFile) -> Unopened {
    match file.unopened {
        Some(Absence::Unopened(error)) => Unopened::System(error),
        Some(Absence::Unknown | Absence::Another | Absence::Changed) | None => Unopened::Cut,
    }
}
