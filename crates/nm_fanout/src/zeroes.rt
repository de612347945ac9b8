//! Zero bytes, lent to every write of zeroes.
ghost use Rattle.std.specs.Prelude.{◌≡◌, ◌*◌, ◌≤◌};
ghost use Rattle.nm_fanout.specs.RecordData.{zero_bytes};

use nm_replay::BLOCK_BYTES;

/// As many zero bytes as the longest run has.
static ZERO_RUN: [u8; 65_536] = [0; 65_536];

/// The bytes of so many zero blocks.
pub(crate) fn zero_run(count: usize) -> &'static [u8]
    requires { count ≤ 128 }
    ensures { result.now ≡ zero_bytes (512 * count) }
{
    &ZERO_RUN[..count * BLOCK_BYTES]
}
