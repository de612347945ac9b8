use bytes::Bytes;
use nm_requests::Task;

/// What comes next in a session.
#[derive(Debug, Drop)]
pub enum Next {
    /// A target is to do the task of the request with this index. Its payload is a WRITE's, and
    /// fills the bytes that the task writes.
    Issue(u64, Task, Bytes),
    /// No whole request is there: more bytes are to be fed.
    Starved,
    /// As many requests are outstanding as may be: one is to be answered.
    Full,
    /// Nothing more will be read.
    Ended,
}
