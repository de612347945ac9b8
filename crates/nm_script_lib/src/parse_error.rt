ghost use Rattle.std.specs.Prelude.{◌≡◌};
ghost use Rattle.nm_script_lib.specs.declared.parse_error.ParseError.TheVariants.{Memory};

use std::alloc::AllocFailed;

/// Why a text was not read as a script.
#[derive(Clone, Copy, PartialEq, Eq)]
pub enum ParseError {
    /// Out of memory for the steps.
    Memory,
    /// The text is no script. This line, counted from 1, is the one to name.
    BadStep { line: u64 },
}

impl<T: Drop> From<AllocFailed<T>> for ParseError {
    ghost from_gives = { λ _ e. e ≡ Memory };

    fn from(_error: AllocFailed<T>) -> ParseError {
        ParseError::Memory
    }
}
