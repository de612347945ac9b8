ghost use Rattle.std.specs.Prelude.{◌≡◌};

use crate::CallTag;

/// That a leg call was made, and whether it succeeded. It cannot be copied, and only the call that
/// was made makes it.
#[derive(Drop)]
pub struct LegAnswer<S: Drop> {
    pub(crate) seal: S,
    pub(crate) tag: CallTag,
    pub(crate) done: bool,
}

impl<S: Drop> LegAnswer<S> {
    /// Whose answer it is.
    pub fn tag(&self) -> CallTag
        ensures { result ≡ self.now.tag }
    {
        self.tag
    }

    /// Whether the call succeeded.
    pub fn is_done(&self) -> bool
        ensures { result ≡ self.now.done }
    {
        self.done
    }
}
