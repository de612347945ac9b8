ghost use Rattle.std.specs.Prelude.{◌≡◌, ◌↔◌, length, replicate, IsTrue};

/// Whether all of these bytes are 0. Most data differ in their first bytes.
pub(crate) fn are_zeroes(bytes: &[u8]) -> bool
    ensures { IsTrue result ↔ (bytes.now ≡ replicate (length bytes.now) 0) }
{
    bytes.iter().all(|byte| *byte == 0)
}
