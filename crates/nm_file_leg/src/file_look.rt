ghost use Rattle.std.specs.Prelude.{◌≡◌, length, IfSome, IsTrue};
ghost use Rattle.std.specs.Result.{result_ok};
ghost use Rattle.nm_file_leg.specs.Look.{reaches};

use crate::Medium;
use std::io;

/// What one look at a medium's length found, for the writes of one operation. Only a leg's look at
/// its medium makes one.
#[derive(Clone, Copy, Debug, PartialEq, Eq)]
pub struct FileLook {
    /// How many bytes it was found to have, unless it told no length.
    length: Option<u64>,
}

impl FileLook {
    /// Looks at a medium.
    pub(crate) fn at<M: Medium>(medium: &M) -> FileLook
        ensures { IsTrue M.honest
            → IfSome result.length (λ n. n ≡ length (M.held medium.now).contents) }
    {
        FileLook::of(medium.len())
    }

    /// What a look found.
    pub(crate) fn of(told: io::Result<u64>) -> FileLook
        ensures { result.length ≡ result_ok told }
    {
        FileLook { length: told.ok() }
    }

    /// Whether the medium was found to have so many bytes.
    pub(crate) fn reaches(self, size: u64) -> bool
        ensures { result ≡ reaches self.length size }
    {
        matches!(self.length, Some(length) if length >= size)
    }
}
