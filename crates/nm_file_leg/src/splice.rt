ghost use Rattle.std.specs.Prelude.{◌≡◌, ◌+◌, ◌≤◌, length};
ghost use Rattle.nm_file_leg.specs.Medium.{spliced};

/// Changes a part of the bytes, from `at` on.
pub(crate) fn splice(bytes: &mut [u8], at: usize, part: &[u8])
    requires { at + length part.now ≤ length bytes.old }
    ensures { bytes.new ≡ spliced at part.now bytes.old }
{
    bytes[at..at + part.len()].copy_from_slice(part);
}
