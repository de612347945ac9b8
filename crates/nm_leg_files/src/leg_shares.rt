//! What others have of the legs' files: how long they are, and shares of what is noted and counted
//! of them.
ghost use Rattle.std.specs.Prelude.{◌≡◌, IfOk, map};
ghost use Rattle.nm_leg_files.specs.Limits.{calls_in, calls_of};

use crate::leg_files::LegFiles;
use crate::leg_opening::BLOCK_BYTES;
use crate::limited_file::{CallLimit, share_limit};
use nm_reports::{LegCounts, LegLines, LegTrouble};
use std::alloc::{AllocError, Global};
use std::fs::File;
use std::sync::Arc;

impl LegFiles {
    /// The lines on these legs.
    pub fn lines(&self, alloc: Global) -> Result<Vec<LegLines>, AllocError> {
        let mut lines = Vec::new(alloc);
        for (leg, file) in self.files.iter().enumerate() {
            let name = String::from_str(alloc, file.name.as_str())?;
            let trouble = Arc::try_clone(&file.trouble)?;
            lines.push(LegLines::new(leg, name, trouble))?;
        }
        Ok(lines)
    }

    /// Where the calls of each leg are counted.
    pub fn counts(&self, alloc: Global) -> Result<Vec<Arc<LegCounts>>, AllocError> {
        let mut counts = Vec::new(alloc);
        for file in &self.files {
            counts.push(Arc::try_clone(&file.counts)?)?;
        }
        Ok(counts)
    }

    /// Where it is noted what fails of each leg's file.
    pub fn troubles(&self, alloc: Global) -> Result<Vec<Arc<LegTrouble>>, AllocError> {
        let mut troubles = Vec::new(alloc);
        for file in &self.files {
            troubles.push(Arc::try_clone(&file.trouble)?)?;
        }
        Ok(troubles)
    }

    /// The limits of the legs' calls, leg 0's first.
    pub fn limits(&self, alloc: Global) -> Result<Vec<CallLimit>, AllocError>
        ensures { IfOk result (λ limits.
            map calls_in limits.items ≡ map calls_of self.now.files.items) }
    {
        let mut limits = Vec::new(alloc);
        for file in &self.files {
            limits.push(share_limit(file.shared.file().limit())?)?;
        }
        Ok(limits)
    }

    /// How many legs there are.
    pub fn count(&self) -> usize {
        self.files.len()
    }

    /// How many bytes each file that is here has for the export.
    pub fn export_bytes(&self) -> u64 {
        self.blocks.saturating_mul(BLOCK_BYTES)
    }

    /// The file of this leg, if it is here.
    pub fn file(&self, leg: usize) -> Option<&File> {
        self.files.get(leg)?.shared.file().late().file()
    }
}
