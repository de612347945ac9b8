ghost use Rattle.std.specs.Prelude.{◌<◌, ◌≤◌, ◌⊎◌, ◌↔◌, IsTrue};

/// Whether a user has nothing to sync: the last sync that succeeded covers its last write.
pub fn is_covered(last: u64, covered: u64) -> bool
    ensures { IsTrue result ↔ last ≤ covered }
{
    last <= covered
}

/// Whether a failed sync may have lost bytes of a user: it is writing, or has written since the
/// last sync that succeeded.
pub fn may_have_lost(is_writing: bool, last: u64, covered: u64) -> bool
    ensures { IsTrue result ↔ (IsTrue is_writing ⊎ covered < last) }
{
    is_writing || covered < last
}
