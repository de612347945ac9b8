//! What a thread rings for one that waits for at most a time.

use libc::net::{EFD_CLOEXEC, POLLIN, eventfd, poll};
use libc::types::pollfd;
use std::alloc::AllocError;
use std::os::fd::RawFd;

/// How many bytes a ring has.
const RING_BYTES: usize = 8;

/// A bell: one thread rings it, and another waits for that without a runtime's leave to wait, for
/// at most a time.
pub(crate) struct AnswerBell {
    fd: RawFd,
}

impl AnswerBell {
    /// One that was not rung. Fails where no descriptor is left.
    pub(crate) fn new() -> Result<AnswerBell, AllocError> {
        let fd = eventfd(0, EFD_CLOEXEC);
        if fd < 0 {
            return Err(AllocError);
        }
        Ok(AnswerBell { fd })
    }

    /// Rings it.
    pub(crate) fn ring(&self) {
        let _ = libc::write(self.fd, &1u64.to_ne_bytes());
    }

    /// Waits for a ring, for at most so many milliseconds. Whether one came.
    pub(crate) fn wait(&self, milliseconds: i32) -> bool {
        let mut asked = [pollfd {
            fd: self.fd,
            events: POLLIN,
            revents: 0,
        }];
        poll(&mut asked, milliseconds) > 0
    }

    /// Takes a ring that came, or that comes at once.
    pub(crate) fn take(&self) {
        let _ = libc::read(self.fd, &mut [0u8; RING_BYTES]);
    }
}

impl Drop for AnswerBell {
    fn drop(self) {
        let Self { fd } = self;
        let _ = libc::close(fd);
    }
}

/// Sleeps for a millisecond.
pub(crate) fn sleep_a_millisecond() {
    let _ = poll(&mut [], 1);
}
