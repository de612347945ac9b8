use crate::client_stream::ClientStream;
use crate::timed_stream::MOST_TRIES;
use std::io;
use std::io::{ErrorKind, Write};

/// Writes a client's replies. A write that is interrupted is made again. A client to which nothing
/// can be written has gone.
#[derive(Drop)]
pub struct ClientWriter<'a> {
    client: &'a ClientStream,
}

impl<'a> ClientWriter<'a> {
    /// Writes to this client.
    pub fn new(client: &'a ClientStream) -> Self {
        ClientWriter { client }
    }
}

impl Write for ClientWriter<'_> {
    fn write(&mut self, bytes: &[u8]) -> io::Result<usize> {
        for _ in 0..MOST_TRIES {
            let mut stream = &self.client.stream;
            self.client.activity.begin_send();
            let written = stream.write(bytes);
            self.client.activity.end_send();
            match written {
                Err(fault) if fault.kind() == ErrorKind::Interrupted => (),
                Err(fault) => {
                    self.client.note_gone();
                    return Err(fault);
                }
                Ok(count) => return Ok(count),
            }
        }
        Err(io::Error::from(ErrorKind::Interrupted))
    }

    fn flush(&mut self) -> io::Result<()> {
        Ok(())
    }
}
