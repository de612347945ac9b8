ghost use Rattle.std.specs.Prelude.{◌≡◌, ◌≤◌};
ghost use Rattle.nm_leg.specs.Call.{zero_blocks};

use nm_replay::BLOCK_BYTES;

/// As many zero bytes as the longest run has.
static ZERO_RUN: [u8; 65_536] = [0; 65_536];

/// The bytes of so many zero blocks, lent.
pub fn zero_run(count: usize) -> &'static [u8]
    requires { count ≤ 128 }
    ensures { result.now ≡ zero_blocks count }
{
    &ZERO_RUN[..count * BLOCK_BYTES]
}
