/// For which operation of a stripe a call is, by its ticket.
#[derive(Clone, Copy, PartialEq, Eq)]
pub enum CallOf {
    /// A write.
    Write(u64),
    /// A read.
    Read(u64),
    /// A copy.
    Copy(u64),
    /// A sync.
    Sync(u64),
}

/// By what a stripe knows whose answer it gets.
#[derive(Clone, Copy, PartialEq, Eq)]
pub struct CallTag {
    /// For which operation the call is.
    pub of: CallOf,
    /// Of which leg it is.
    pub leg: u8,
    /// In which opening of that leg it was handed out.
    pub opening: u32,
}
