ghost use Rattle.std.specs.Prelude.{◌≡◌};
ghost use Rattle.nm_script_lib.specs.declared.input_error.InputError.TheVariants.{Memory};

use std::alloc::AllocError;

/// Why an input was not read whole.
#[derive(Clone, Copy, PartialEq, Eq)]
pub enum InputError {
    /// Out of memory for its bytes.
    Memory,
    /// A read failed, or the input is too long, or it did not end.
    Input,
}

impl From<AllocError> for InputError {
    ghost from_gives = { λ _ e. e ≡ Memory };

    fn from(_error: AllocError) -> InputError {
        InputError::Memory
    }
}
