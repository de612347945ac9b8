ghost use Rattle.std.specs.Prelude.{◌≡◌, ◌≤◌, sum_by, vec_len, vec_capacity};

use nm_requests::Task;
use std::alloc::Global;

/// How many bytes a long READ asks for at least. Its buffer is used again, and its reply goes out
/// from it. A shorter one is filled with zeroes, and copied, in hardly any time.
pub const LONG_READ: usize = 16 * 1024;

// Nor is one for a longer READ.
const MOST: usize = 1024 * 1024;

// How much room all have at most: that of 16 for 256 KiB of data and a header each.
const MOST_ROOM: usize = 16 * (256 * 1024 + 16);

// How many are kept at most.
const MANY: usize = 16;

/// Buffers whose bytes were sent, for READs to come to be read into: at most 16, with room for
/// 4 MiB of data and 16 headers in all.
#[derive(Drop)]
pub struct BufferPool {
    spare: Vec<Vec<u8>>,
    // How many bytes they have room for.
    room: usize,
    // For how many READs no buffer has come back.
    lent: usize,
    ghost few: { vec_len spare ≤ 16 },
    ghost all: { room ≡ sum_by vec_capacity spare.items },
    ghost most: { room ≤ 4194560 },
}

impl BufferPool {
    // No buffer.
    pub(crate) fn new(alloc: Global) -> BufferPool {
        BufferPool {
            spare: Vec::new(alloc),
            room: 0,
            lent: 0,
        }
    }

    // A buffer for a task: an empty one where none is kept, and where the task is no READ of such a
    // length.
    pub(crate) fn take(&mut self, alloc: Global, task: Task) -> Vec<u8> {
        if !is_kept_for(task) {
            return Vec::new(alloc);
        }
        self.lent = self.lent.saturating_add(1);
        match self.pop() {
            Some(buffer) => buffer,
            None => Vec::new(alloc),
        }
    }

    // The buffer that was kept last.
    #[tactic(auto, using(crate::proofs::Buffers::sum_of_both))]
    fn pop(&mut self) -> Option<Vec<u8>> {
        let buffer = self.spare.pop()?;
        self.room -= buffer.capacity();
        Some(buffer)
    }

    // Keeps a buffer whose bytes were sent, if it has such a length: as many as were taken.
    #[tactic(auto, using(crate::proofs::Buffers::sum_of_both))]
    pub(crate) fn keep(&mut self, buffer: Vec<u8>) {
        if self.lent == 0 || buffer.len() < LONG_READ {
            return;
        }
        self.lent -= 1;
        let room = buffer.capacity();
        if MOST_ROOM - self.room < room || self.spare.len() >= MANY {
            return;
        }
        if self.spare.push(buffer).is_ok() {
            self.room += room;
        }
    }
}

// Whether buffers are kept for such a task.
fn is_kept_for(task: Task) -> bool {
    match task {
        Task::Read { offset: _, length } => {
            let length = length as usize;
            LONG_READ <= length && length <= MOST
        }
        _ => false,
    }
}
