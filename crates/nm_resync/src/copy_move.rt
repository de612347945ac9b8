/// What a copy does next.
#[derive(Clone, Copy, Debug, PartialEq, Eq)]
pub enum Move {
    /// No chunk is open: one is opened, and its first block read.
    Open,
    /// The chunk's block of this number is read from the master.
    Read(u64),
    /// The chunk's block of this number is written to the leg.
    Write(u64),
}
