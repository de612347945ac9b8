ghost use Rattle.std.specs.Prelude.{◌≡◌, ℕ};
ghost use Rattle.nm_script_lib.specs.RunErrors.{status_of, error_of_input, error_of_parse};
ghost use Rattle.nm_script_lib.specs.declared.run_error.RunError.TheVariants.{Memory, Output};

use crate::input_error::InputError;
use crate::parse_error::ParseError;
use crate::write_error::WriteError;
use std::alloc::{AllocError, AllocFailed};

/// Why a run stops early.
#[derive(Clone, Copy, PartialEq, Eq)]
pub enum RunError {
    /// The text is no script. This line, counted from 1, is the one to name.
    BadStep { line: u64 },
    /// Out of memory, outside a step.
    Memory,
    /// The input could not be read, was too long, or did not end.
    Input,
    /// The output could not be written.
    Output,
}

impl RunError {
    /// The exit status.
    pub fn status(self) -> u8
        ensures { result ≡ status_of self }
    {
        match self {
            RunError::BadStep { .. } => 2,
            RunError::Memory => 3,
            RunError::Input | RunError::Output => 4,
        }
    }
}

impl From<AllocError> for RunError {
    ghost from_gives = { λ _ e. e ≡ Memory };

    fn from(_error: AllocError) -> RunError {
        RunError::Memory
    }
}

impl<T: Drop> From<AllocFailed<T>> for RunError {
    ghost from_gives = { λ _ e. e ≡ Memory };

    fn from(_error: AllocFailed<T>) -> RunError {
        RunError::Memory
    }
}

impl From<nm_replay::Memory> for RunError {
    ghost from_gives = { λ _ e. e ≡ Memory };

    fn from(_error: nm_replay::Memory) -> RunError {
        RunError::Memory
    }
}

impl From<WriteError> for RunError {
    ghost from_gives = { λ _ e. e ≡ Output };

    fn from(_error: WriteError) -> RunError {
        RunError::Output
    }
}

impl From<InputError> for RunError {
    ghost from_gives = { λ e s. s ≡ error_of_input e };

    fn from(error: InputError) -> RunError {
        match error {
            InputError::Memory => RunError::Memory,
            InputError::Input => RunError::Input,
        }
    }
}

impl From<ParseError> for RunError {
    ghost from_gives = { λ e s. s ≡ error_of_parse e };

    fn from(error: ParseError) -> RunError {
        match error {
            ParseError::Memory => RunError::Memory,
            ParseError::BadStep { line } => RunError::BadStep { line },
        }
    }
}
