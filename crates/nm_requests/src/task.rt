/// What a request asks for. Offset and length are in bytes of the export, and `fua` asks for the
/// data to be durable before the reply.
#[derive(Clone, Copy, Debug, PartialEq, Eq)]
pub enum Task {
    /// Send these bytes.
    Read { offset: u64, length: u32 },
    /// Write the payload to these bytes, which it fills.
    Write { offset: u64, length: u32, fua: bool },
    /// Write zeroes to these bytes.
    Zero { offset: u64, length: u32, fua: bool },
    /// Make durable what was already replied to.
    Flush,
    /// Reply without an error, and do nothing.
    Nothing,
    /// End the session.
    Disconnect,
}
