//! The places of the control port: which connections are served, and which makes room.

use crate::stream::Stream;
use nm_replay::Memory;
use nm_service::{Seat, idle_longest};
use std::alloc::Global;
use std::net::Shutdown;
use std::sync::{Arc, Condvar, Mutex, Wait};

/// How many connections are served at once.
pub const CONNECTIONS: usize = 4;

// The seats, the connection in each, those that wait for one, and the turn that comes next.
#[derive(Drop)]
struct Desk {
    seats: [Seat; CONNECTIONS],
    served: Vec<Option<Arc<Stream>>>,
    waiting: Vec<Arc<Stream>>,
    turn: u64,
    is_closed: bool,
}

impl Desk {
    // How many seats are free, or will be soon.
    fn free(&self) -> usize {
        self.seats
            .iter()
            .filter(|seat| matches!(seat, Seat::Free | Seat::Leaving))
            .count()
    }

    // Closes the connection that was idle longest, where one is idle.
    fn make_room(&mut self) {
        let Some(number) = idle_longest(&self.seats) else {
            return;
        };
        self.sit(number, Seat::Leaving);
        if let Some(Some(stream)) = self.served.get(number) {
            let _ = stream.shutdown(Shutdown::Both);
        }
    }

    // Notes what goes on at a seat.
    fn sit(&mut self, number: usize, seat: Seat) {
        if let Some(place) = self.seats.get_mut(number) {
            *place = seat;
        }
    }

    // Has the seat's connection be idle from now on.
    fn rest(&mut self, number: usize) {
        let turn = self.turn;
        self.turn = turn.saturating_add(1);
        self.sit(number, Seat::Idle(turn));
    }
}

/// The places of the control port.
#[derive(Drop)]
pub struct ControlPlaces {
    alloc: Global,
    desk: Mutex<Desk>,
    changed: Condvar,
}

impl ControlPlaces {
    /// All places, each free.
    pub fn new(alloc: Global) -> Result<ControlPlaces, Memory> {
        let (mut waiting, mut served) = (Vec::new(alloc), Vec::new(alloc));
        if waiting.reserve(CONNECTIONS).is_err() {
            return Err(Memory);
        }
        for _ in 0..CONNECTIONS {
            if served.push(None).is_err() {
                return Err(Memory);
            }
        }
        Ok(ControlPlaces {
            alloc,
            desk: Mutex::new(Desk {
                seats: [Seat::Free; CONNECTIONS],
                served,
                waiting,
                turn: 0,
                is_closed: false,
            }),
            changed: Condvar::new(),
        })
    }

    /// Gives a connection a place, for which the one that was idle longest is closed where none is
    /// free. Where no place is free or idle the connection waits for one, but the fifth is dropped.
    /// Whether it is kept.
    pub fn offer<R: Wait>(&self, rt: &R, stream: Stream) -> bool {
        let mut desk = self.desk.lock(rt);
        if desk.is_closed || desk.waiting.len() >= CONNECTIONS {
            return false;
        }
        let Ok(stream) = Arc::new(self.alloc, stream) else {
            return false;
        };
        if desk.waiting.push(stream).is_err() {
            return false;
        }
        if desk.free() < desk.waiting.len() {
            desk.make_room();
        }
        drop(desk);
        self.changed.notify_all();
        true
    }

    /// Waits for a connection for the place of this number. None comes once the places are closed.
    pub fn take<R: Wait>(&self, rt: &R, number: usize) -> Option<Arc<Stream>> {
        let mut desk = self.changed.wait_while(rt, self.desk.lock(rt), |desk| {
            desk.waiting.is_empty() && !desk.is_closed
        });
        if desk.is_closed || desk.waiting.is_empty() {
            return None;
        }
        let stream = desk.waiting.remove(0);
        if let Some(place) = desk.served.get_mut(number) {
            *place = Arc::try_clone(&stream).ok();
        }
        desk.rest(number);
        Some(stream)
    }

    /// Notes that a line of this place's connection is being done.
    pub fn note_line<R: Wait>(&self, rt: &R, number: usize) {
        let mut desk = self.desk.lock(rt);
        if let Some(Seat::Idle(_)) = desk.seats.get(number) {
            desk.sit(number, Seat::Busy);
        }
    }

    /// Notes that the line was answered.
    pub fn note_answer<R: Wait>(&self, rt: &R, number: usize) {
        let mut desk = self.desk.lock(rt);
        if let Some(Seat::Busy) = desk.seats.get(number) {
            desk.rest(number);
            if desk.free() < desk.waiting.len() {
                desk.make_room();
            }
        }
    }

    /// Gives the place of this number back.
    pub fn free<R: Wait>(&self, rt: &R, number: usize) {
        let mut desk = self.desk.lock(rt);
        desk.sit(number, Seat::Free);
        if let Some(place) = desk.served.get_mut(number) {
            *place = None;
        }
    }

    /// Closes the connections, and gives out no place from now on.
    pub fn close<R: Wait>(&self, rt: &R) {
        let mut desk = self.desk.lock(rt);
        desk.is_closed = true;
        for place in &desk.served {
            if let Some(stream) = place {
                let _ = stream.shutdown(Shutdown::Both);
            }
        }
        drop(desk);
        self.changed.notify_all();
    }
}
