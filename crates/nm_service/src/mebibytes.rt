ghost use Rattle.std.specs.Prelude.{◌≤◌, ◌<◌, ◌+◌, ◌*◌};

use std::fmt;

/// How many blocks of 512 bytes a MiB has.
const BLOCKS: u64 = 2_048;

/// So many blocks as a person reads them: in MiB, rounded up to a tenth.
#[derive(Clone, Copy, PartialEq, Eq)]
pub struct Mebibytes {
    /// How many tenths of a MiB they are.
    pub tenths: u64,
}

impl Mebibytes {
    /// So many blocks of 512 bytes, of which 1,024 are five tenths of a MiB.
    pub fn of_blocks(blocks: u64) -> Mebibytes
        ensures enough { 5 * blocks ≤ 1024 * result.tenths }
        ensures least { 1024 * result.tenths < 5 * blocks + 1024 }
    {
        let (whole, rest) = (blocks / BLOCKS, blocks % BLOCKS);
        Mebibytes {
            tenths: 10 * whole + (5 * rest + 1_023) / 1_024,
        }
    }
}

impl fmt::Display for Mebibytes {
    fn fmt<W: fmt::Write>(&self, f: &mut fmt::Formatter<W>) -> fmt::Result {
        write!(f, "{}.{} MiB", self.tenths / 10, self.tenths % 10)
    }
}
