ghost use Rattle.std.specs.Prelude.{◌≡◌, ◌≢◌, ◌<◌, length, All, IfSome, IfNone, slice_index_or};
ghost use Rattle.nm_session.specs.declared.outstanding.Outstanding.{Outstanding};

use nm_requests::Task;

/// A request that was issued and is not answered yet.
#[derive(Clone, Copy)]
pub(crate) struct Outstanding {
    /// How many requests were read before it.
    pub(crate) index: u64,
    /// What it asks for.
    pub(crate) task: Task,
    /// What ties the reply to it.
    pub(crate) cookie: u64,
}

// Where the outstanding request with this index stands.
pub(crate) fn find(outstanding: &[Outstanding], index: u64) -> Option<usize>
    ensures some { IfSome result (λ at. (at < length outstanding.now)
        × ((other : Outstanding) → (slice_index_or outstanding.now at other).index ≡ index)) }
    ensures none { IfNone result (All (λ held. held.index ≢ index) outstanding.now) }
{
    outstanding.iter().position(|held| held.index == index)
}
