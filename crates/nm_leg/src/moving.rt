//! Blocks in memory, put and taken as the bytes of a run.
ghost use Rattle.std.specs.Prelude.{◌≡◌, ◌+◌, ◌≤◌, length};
ghost use Rattle.nm_leg.specs.Bytes.{spliced};
ghost use Rattle.nm_leg.specs.Leg.{HoldsRun, IsRun, blocks_in, blocks_of, set_run};

use nm_replay::{BLOCK_BYTES, Block};

/// Changes a part of the bytes, from `at` on.
pub(crate) fn splice(bytes: &mut [u8], at: usize, part: &[u8])
    requires { at + length part.now ≤ length bytes.old }
    ensures { bytes.new ≡ spliced at part.now bytes.old }
{
    bytes[at..at + part.len()].copy_from_slice(part);
}

/// Puts the whole blocks of these bytes into the array, from `at` on.
pub(crate) fn put_blocks(blocks: &mut [Block], at: usize, bytes: &[u8])
    requires { at + blocks_in bytes.now ≤ length blocks.old }
    ensures { blocks.new ≡ set_run at (blocks_of bytes.now) blocks.old }
{
    for number in 0..bytes.len() / BLOCK_BYTES {
        let from = number * BLOCK_BYTES;
        blocks[at + number]
            .0
            .copy_from_slice(&bytes[from..from + BLOCK_BYTES]);
    }
}

/// Takes the blocks from `at` on, as the bytes of a run.
pub(crate) fn take_blocks(blocks: &[Block], at: usize, into: &mut [u8])
    requires { IsRun at (length blocks.now) into.old }
    ensures { HoldsRun at (blocks_of into.new) blocks.now }
{
    for number in 0..into.len() / BLOCK_BYTES {
        splice(into, number * BLOCK_BYTES, &blocks[at + number].0);
    }
}
