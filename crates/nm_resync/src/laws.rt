//! Laws of a copy. Each function does nothing: its contract is the law, for every buffer.
ghost use Rattle.nm_resync.specs.Laws.{CloseLowersLeft, CloseLowersWork, OpenKeepsWork};
ghost use Rattle.nm_resync.specs.Laws.{ReadKeepsLeft, ReadLowersWork, WriteLowersLeft};
ghost use Rattle.nm_resync.specs.Laws.{WriteLowersWork};

/// A chunk that is opened leaves the work of the copy.
pub fn open_keeps_work()
    ensures { OpenKeepsWork }
{}

/// Blocks that are read lower the work by as many, and leave what is left to copy.
pub fn read_lowers_work()
    ensures work { ReadLowersWork }
    ensures left { ReadKeepsLeft }
{}

/// Blocks that are written lower the work by as many, also where they close the chunk.
pub fn write_lowers_work()
    ensures stays_open { WriteLowersWork }
    ensures closes { CloseLowersWork }
{}

/// Blocks that are written lower what is left to copy by as many, also where they close the chunk.
pub fn write_lowers_left()
    ensures stays_open { WriteLowersLeft }
    ensures closes { CloseLowersLeft }
{}
