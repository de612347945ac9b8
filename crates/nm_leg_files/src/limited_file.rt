//! A leg's file whose calls may take no longer than a time, where that was asked for.
ghost use Rattle.std.specs.Prelude.{◌≡◌, None, IsErr, IfOk};
ghost use Rattle.std.specs.Arc.{arc_value};
ghost use Rattle.nm_leg_files.specs.Limits.{calls_in};

use crate::late_file::LateFile;
use crate::timed_calls::TimedCalls;
use nm_file_leg::BackingFile;
use std::alloc::{AllocError, Global};
use std::io;
use std::sync::Arc;

/// The calls of a leg that may take no longer than a time, if they are limited.
pub type CallLimit = Option<Arc<TimedCalls>>;

/// A leg's file, or that of its superblock. Where its calls are limited, other threads make them.
#[derive(Drop)]
pub struct LimitedFile {
    late: Arc<LateFile>,
    limit: CallLimit,
}

/// A share of a limit.
pub fn share_limit(limit: &CallLimit) -> Result<CallLimit, AllocError>
    ensures { IfOk result (λ own. calls_in own ≡ calls_in limit.now) }
{
    match limit {
        Some(calls) => Ok(Some(Arc::try_clone(calls)?)),
        None => Ok(None),
    }
}

impl LimitedFile {
    /// This file, under this limit.
    pub(crate) fn new(late: Arc<LateFile>, limit: CallLimit) -> LimitedFile {
        LimitedFile { late, limit }
    }

    /// The same, of a file that is not shared yet.
    pub(crate) fn of(
        alloc: Global,
        late: LateFile,
        limit: &CallLimit,
    ) -> Result<LimitedFile, AllocError>
        ensures late { IfOk result (λ own. arc_value own.late ≡ late) }
        ensures limit { IfOk result (λ own. calls_in own.limit ≡ calls_in limit.now) }
    {
        Ok(LimitedFile {
            late: Arc::new(alloc, late)?,
            limit: share_limit(limit)?,
        })
    }

    /// A share of it.
    pub(crate) fn share(&self) -> Result<LimitedFile, AllocError> {
        Ok(LimitedFile {
            late: Arc::try_clone(&self.late)?,
            limit: share_limit(&self.limit)?,
        })
    }

    /// The file.
    pub(crate) fn late(&self) -> &LateFile
        ensures { result.now ≡ arc_value self.now.late }
    {
        &self.late
    }

    /// Its limit.
    pub(crate) fn limit(&self) -> &CallLimit
        ensures { result.now ≡ self.now.limit }
    {
        &self.limit
    }

    /// Makes the file durable, and says when it was changed last: 0 where that is unknown.
    pub(crate) fn settled_time(&self) -> u64 {
        match &self.limit {
            None => self.late.settled_time(),
            Some(calls) => calls.settled_time(&self.late),
        }
    }

    /// Whether a call was left that has not returned.
    pub(crate) fn has_left(&self) -> bool {
        match &self.limit {
            Some(calls) => calls.has_left(),
            None => false,
        }
    }
}

impl BackingFile for LimitedFile {
    fn read_bytes(&self, at: u64, into: &mut [u8]) -> io::Result<usize> {
        match &self.limit {
            None => self.late.read_bytes(at, into),
            Some(calls) => calls.read(&self.late, at, into),
        }
    }

    fn write_bytes(&self, at: u64, bytes: &[u8]) -> io::Result<usize> {
        match &self.limit {
            None => self.late.write_bytes(at, bytes),
            Some(calls) => calls.write(&self.late, at, bytes),
        }
    }

    fn sync_bytes(&self) -> io::Result<()> {
        match &self.limit {
            None => self.late.sync_bytes(),
            Some(calls) => calls.sync(&self.late),
        }
    }

    fn count_bytes(&self) -> io::Result<u64> {
        match &self.limit {
            None => self.late.count_bytes(),
            Some(calls) => calls.count(&self.late),
        }
    }

    fn has_hole(&self, at: u64, many: usize) -> bool {
        match &self.limit {
            None => self.late.has_hole(at, many),
            Some(calls) => calls.has_hole(&self.late, at, many),
        }
    }
}
