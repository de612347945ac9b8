//! What is written to a superblock's file.
ghost use Rattle.std.specs.Prelude.{is_ok};
ghost use Rattle.nm_superblock.specs.Bounds.{IsInBounds};
ghost use Rattle.nm_superblock.specs.Layout.{slot_bytes};
ghost use Rattle.nm_saves.specs.SlotFile.{Blanks, WritesDurably};

use crate::slot_file::SlotFile;
use nm_superblock::Superblock;
use std::io;

// Writes the superblock into a slot, and makes it durable.
pub(crate) fn write_superblock<F: SlotFile>(
    file: &mut F,
    second: bool,
    superblock: &Superblock,
) -> io::Result<()>
    requires { IsInBounds superblock.now }
    ensures { WritesDurably F.honest (is_ok result) second (slot_bytes superblock.now)
        (F.held file.old) (F.held file.new) }
{
    let mut slot = [0; 4096];
    superblock.encode(&mut slot);
    file.write_slot(second, &slot)?;
    file.sync()
}

// Writes zeroes into both slots, and makes them durable.
pub(crate) fn write_blank<F: SlotFile>(file: &mut F, blank: &[u8; 4096]) -> io::Result<()>
    ensures { Blanks F.honest (is_ok result) blank.now (F.held file.new) }
{
    file.settle()?;
    file.write_slot(false, blank)?;
    file.write_slot(true, blank)?;
    file.sync()
}
