use crate::control_places::ControlPlaces;
use crate::timed_stream::TimedStream;
use std::io;
use std::io::{Read, Write};
use std::sync::Wait;
use std::time::Clock;

/// A connection of the control port, which has its time in all for each line and its answer. A
/// flush, which follows an answer, gives it that time again.
#[derive(Drop)]
pub struct ControlStream<'a, R: Clock> {
    /// The runtime whose locks the places are behind.
    pub rt: &'a R,
    /// The connection, with its time.
    pub timed: TimedStream<'a, R>,
    /// The places of the control port.
    pub places: &'a ControlPlaces,
    /// The number of its place.
    pub number: usize,
}

impl<'a, R: Wait + Clock> Read for ControlStream<'a, R> {
    fn read(&mut self, into: &mut [u8]) -> io::Result<usize> {
        let count = self.timed.read(into)?;
        if into[..count].contains(&b'\n') {
            self.places.note_line(self.rt, self.number);
        }
        Ok(count)
    }
}

impl<'a, R: Wait + Clock> Write for ControlStream<'a, R> {
    fn write(&mut self, bytes: &[u8]) -> io::Result<usize> {
        self.timed.write(bytes)
    }

    fn flush(&mut self) -> io::Result<()> {
        self.places.note_answer(self.rt, self.number);
        self.timed.restart()
    }
}
