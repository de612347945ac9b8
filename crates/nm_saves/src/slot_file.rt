ghost use Rattle.std.specs.Prelude.{Bool, is_ok};
ghost use Rattle.nm_saves.specs.SlotFile.{Held, ReadsSlot, Settles, SyncsFile, WritesSlot};

use std::io;

/// A superblock's file: two slots of 4,096 bytes.
pub trait SlotFile: Drop {
    /// Files of this type keep what is written to them, each sector whole or not at all. What is
    /// promised of bytes is promised of honest files alone.
    ghost honest: { Bool };

    /// What the file holds now.
    ghost held: { Self → Held };

    /// Makes the file durable as it is, and drops what the system's cache has of it, so that what
    /// is read from now on is what a loss of power would leave.
    fn settle(&mut self) -> io::Result<()>
        ensures { Settles honest (is_ok result) (held self.old) (held self.new) };

    /// Reads the second slot, or the first. A fault leaves any bytes in `into`.
    fn read_slot(&mut self, second: bool, into: &mut [u8; 4096]) -> io::Result<()>
        ensures { ReadsSlot honest (is_ok result) second (held self.old) (held self.new) into.new };

    /// Writes the second slot, or the first. A fault leaves each of its sectors old or new.
    fn write_slot(&mut self, second: bool, bytes: &[u8; 4096]) -> io::Result<()>
        ensures { WritesSlot honest (is_ok result) second bytes.now (held self.old)
            (held self.new) };

    /// Makes durable what was written, so that a loss of power leaves it.
    fn sync(&mut self) -> io::Result<()>
        ensures { SyncsFile honest (is_ok result) (held self.old) (held self.new) };
}
