use crate::client_stream::ClientStream;
use crate::timed_stream::MOST_TRIES;
use nm_workers::BusyPoll;
use std::hint::spin_loop;
use std::io;
use std::io::{ErrorKind, Read};
use std::sync::atomic::{AtomicBool, Ordering};

// How often a connection is asked for bytes before its reader sleeps: for about as long as a client
// on this machine takes from a reply to its next request.
const POLLS: u32 = 100;

/// Reads a client's bytes, and can be polled for them. Once the server closes the connection, or
/// what is left of all, there are no more of them. A client whose bytes cannot be read has gone.
#[derive(Drop)]
pub struct ClientReader<'a> {
    client: &'a ClientStream,
    is_over: &'a AtomicBool,
}

impl<'a> ClientReader<'a> {
    /// Reads what this client sends. Nobody writes to it while it is polled.
    pub fn new(client: &'a ClientStream, is_over: &'a AtomicBool) -> Self {
        ClientReader { client, is_over }
    }

    // Asks for bytes for a while. Whether a read would not wait.
    fn poll(&self) -> bool {
        for _ in 0..POLLS {
            if self.client.stream.is_ready() {
                return true;
            }
            spin_loop();
        }
        false
    }
}

impl Read for ClientReader<'_> {
    // A read that is interrupted is made again.
    fn read(&mut self, into: &mut [u8]) -> io::Result<usize> {
        for _ in 0..MOST_TRIES {
            if self.is_over.load(Ordering::SeqCst) || self.client.is_closed() {
                return Ok(0);
            }
            let mut stream = &self.client.stream;
            match stream.read(into) {
                Err(fault) if fault.kind() == ErrorKind::Interrupted => (),
                Err(fault) => {
                    self.client.note_gone();
                    return Err(fault);
                }
                Ok(count) => {
                    self.client.activity.note_request();
                    return Ok(count);
                }
            }
        }
        Err(io::Error::from(ErrorKind::Interrupted))
    }
}

impl BusyPoll for ClientReader<'_> {
    // The session's own thread polls, which writes the replies too: none meets a stream that does
    // not block.
    fn busy_poll(&mut self) -> bool {
        if self.client.stream.set_nonblocking(true).is_err() {
            return false;
        }
        let ready = self.poll();
        let _ = self.client.stream.set_nonblocking(false);
        ready
    }
}
