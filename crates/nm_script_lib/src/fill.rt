ghost use Rattle.std.specs.Prelude.{◌≡◌, ◌==◌};
ghost use Rattle.std.specs.List.{list_all};
ghost use Rattle.nm_script_lib.specs.Printing.{fill_of};

/// What some bytes are, as it is printed.
#[derive(Clone, Copy, PartialEq, Eq)]
pub enum Fill {
    /// Each byte is this one.
    Same(u8),
    /// Two bytes differ.
    Mixed,
}

/// Whether all bytes are this one.
fn are_all(bytes: &[u8], byte: u8) -> bool
    ensures { result ≡ list_all (λ b. b == byte) bytes.now }
{
    bytes.iter().all(|b| *b == byte)
}

/// The byte that all of these bytes are, if there is one.
pub fn fill_of(bytes: &[u8]) -> Fill
    ensures { result ≡ fill_of bytes.now }
{
    let first = bytes.first().copied().unwrap_or(0);
    if are_all(bytes, first) {
        Fill::Same(first)
    } else {
        Fill::Mixed
    }
}
