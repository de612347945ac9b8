//! Places of a leg's file where a read failed, and none has succeeded since, nor a write.

use std::alloc::{AllocError, Global};
use std::io;
use std::sync::atomic::{AtomicBool, AtomicU32, AtomicU64, Ordering};

/// How many places are known at most.
const MOST_PLACES: usize = 64;

/// A place where a read failed.
#[derive(Clone, Copy)]
pub struct FailedRead {
    /// The byte at which the read failed.
    pub at: u64,
    /// What the system said, if it said something.
    pub error: Option<io::Error>,
    /// Whether it was told that no other leg is in sync there.
    pub is_told: bool,
}

// Room for one place.
#[derive(Drop)]
struct Slot {
    // The byte, and one more; 0 where the room is free.
    after: AtomicU64,
    // The system's number of the error, or 0.
    error: AtomicU32,
    is_told: AtomicBool,
}

/// The places of a leg's file where a read failed, and no read of the byte has succeeded since, nor
/// a write. Its stripes note them, and whoever tells of the leg looks; none of them waits.
#[derive(Drop)]
pub struct FailedReads {
    slots: Vec<Slot>,
    // How many slots are taken.
    count: AtomicU64,
}

impl Slot {
    // The byte, if there is one.
    fn at(&self) -> Option<u64> {
        self.after.load(Ordering::SeqCst).checked_sub(1)
    }

    // Takes the slot for this byte, if it is free. Whether it was.
    fn take(&self, at: u64) -> bool {
        let after = at.saturating_add(1);
        let taken = self
            .after
            .compare_exchange(0, after, Ordering::SeqCst, Ordering::SeqCst);
        taken.is_ok()
    }

    // Frees the slot. Whether it was taken.
    fn free(&self) -> bool {
        self.is_told.store(false, Ordering::SeqCst);
        self.error.store(0, Ordering::SeqCst);
        self.after.swap(0, Ordering::SeqCst) != 0
    }
}

// The error that the system has this number for, if it is one.
fn error_of(number: u32) -> Option<io::Error> {
    match number.cast_signed() {
        0 => None,
        number => Some(io::Error::from_raw_os_error(number)),
    }
}

impl FailedReads {
    /// No read has failed yet. It takes no more memory.
    pub fn new(alloc: Global) -> Result<FailedReads, AllocError> {
        let mut slots = Vec::new(alloc);
        for _ in 0..MOST_PLACES {
            slots.push(Slot {
                after: AtomicU64::new(0),
                error: AtomicU32::new(0),
                is_told: AtomicBool::new(false),
            })?;
        }
        Ok(FailedReads {
            slots,
            count: AtomicU64::new(0),
        })
    }

    // Whether this byte is known.
    fn has(&self, at: u64) -> bool {
        self.slots.iter().any(|slot| slot.at() == Some(at))
    }

    /// Notes a read that failed at this byte. One for which there is no room is not noted.
    pub fn note(&self, at: u64, error: Option<&io::Error>) {
        if self.has(at) {
            return;
        }
        let number = match error {
            Some(error) => error.raw_os_error().unwrap_or(0),
            None => 0,
        };
        for slot in &self.slots {
            if slot.take(at) {
                slot.error.store(number.cast_unsigned(), Ordering::SeqCst);
                self.count.fetch_add(1, Ordering::SeqCst);
                return;
            }
        }
    }

    /// These bytes were read or written.
    pub fn clear(&self, at: u64, length: u64) {
        if self.count.load(Ordering::SeqCst) == 0 {
            return;
        }
        let end = at.saturating_add(length);
        for slot in &self.slots {
            if slot.at().is_some_and(|place| at <= place && place < end) {
                self.free(slot);
            }
        }
    }

    // Frees this slot.
    fn free(&self, slot: &Slot) {
        if slot.free() {
            self.count.fetch_sub(1, Ordering::SeqCst);
        }
    }

    /// Another file has the leg's place.
    pub fn forget(&self) {
        for slot in &self.slots {
            self.free(slot);
        }
    }

    /// Forgets the place of this byte.
    pub fn drop_place(&self, at: u64) {
        self.clear(at, 1);
    }

    /// It was told that no other leg is in sync at this byte.
    pub fn note_told(&self, at: u64) {
        for slot in &self.slots {
            if slot.at() == Some(at) {
                slot.is_told.store(true, Ordering::SeqCst);
            }
        }
    }

    /// How many numbers places may have.
    pub fn numbers(&self) -> usize {
        if self.count.load(Ordering::SeqCst) == 0 {
            return 0;
        }
        self.slots.len()
    }

    /// The place of this number, if there is one.
    pub fn place(&self, number: usize) -> Option<FailedRead> {
        let slot = self.slots.get(number)?;
        Some(FailedRead {
            at: slot.at()?,
            error: error_of(slot.error.load(Ordering::SeqCst)),
            is_told: slot.is_told.load(Ordering::SeqCst),
        })
    }

    /// The place with the lowest byte of these bytes, if there is one.
    pub fn first_in(&self, at: u64, length: u64) -> Option<FailedRead> {
        let end = at.saturating_add(length);
        let mut first: Option<FailedRead> = None;
        for number in 0..self.numbers() {
            let Some(place) = self.place(number) else {
                continue;
            };
            let is_lower = match &first {
                Some(known) => place.at < known.at,
                None => true,
            };
            if at <= place.at && place.at < end && is_lower {
                first = Some(place);
            }
        }
        first
    }

    /// How many places were told, and the one of them with the lowest byte.
    pub fn told(&self) -> Option<(u64, FailedRead)> {
        let mut found: Option<(u64, FailedRead)> = None;
        for number in 0..self.numbers() {
            let Some(place) = self.place(number) else {
                continue;
            };
            if !place.is_told {
                continue;
            }
            found = match found {
                None => Some((1, place)),
                Some((count, first)) => {
                    let lowest = if place.at < first.at { place } else { first };
                    Some((count.saturating_add(1), lowest))
                }
            };
        }
        found
    }
}
