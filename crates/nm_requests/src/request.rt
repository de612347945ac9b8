use bytes::Bytes;
use nm_wire::CommandFlags;

/// A request that was read ("Request message").
#[derive(Drop)]
pub struct Request {
    /// How many requests were read before it.
    pub index: u64,
    /// The type, known or not.
    pub kind: u16,
    /// The command flags, every bit as sent.
    pub flags: CommandFlags,
    /// What ties the reply to the request.
    pub cookie: u64,
    /// Where in the export the request begins, in bytes.
    pub offset: u64,
    /// How many bytes of the export it is about.
    pub length: u32,
    /// What follows a WRITE's header, as many bytes as its length says; empty for any other type.
    pub payload: Bytes,
}
