//! The end of a session's reading.
use crate::stream::Stream;
use std::net::Shutdown;

/// Ends the read of a client's bytes that is under way, once it is dropped.
///
/// A session that broke off has no use for more of them, while its client may wait for a reply and
/// send none.
pub struct HangUp<'a> {
    /// The client's connection.
    pub stream: &'a Stream,
}

impl Drop for HangUp<'_> {
    fn drop(self) {
        let Self { stream } = self;
        let _ = stream.shutdown(Shutdown::Read);
    }
}
