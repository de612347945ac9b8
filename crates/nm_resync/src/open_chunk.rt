/// How far the open chunk is.
#[derive(Clone, Copy, Debug, PartialEq, Eq)]
pub(crate) struct OpenChunk {
    /// How many blocks it has.
    pub(crate) blocks: u64,
    /// How many of them are read.
    pub(crate) read: u64,
    /// How many of them are written.
    pub(crate) written: u64,
}
