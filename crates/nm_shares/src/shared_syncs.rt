//! What the users of an array share: which of their syncs fail.
use std::alloc::{AllocError, Global};
use std::sync::atomic::{AtomicBool, Ordering};

/// Whether syncs fail, and which users have not been told of one that failed.
#[derive(Drop)]
pub struct SharedSyncs {
    fails: AtomicBool,
    /// For each user, whether a sync of another has failed since its own last one.
    has_lost: Vec<AtomicBool>,
}

impl SharedSyncs {
    /// For so many users, of whom no sync fails.
    pub fn new(alloc: Global, users: u32) -> Result<Self, AllocError> {
        let mut has_lost = Vec::new(alloc);
        for _ in 0..users {
            has_lost.push(AtomicBool::new(false))?;
        }
        Ok(SharedSyncs {
            fails: AtomicBool::new(false),
            has_lost,
        })
    }

    /// Lets all syncs from now on fail, or none but those that are still to be told of one.
    pub fn set_fails(&self, fails: bool) {
        self.fails.store(fails, Ordering::SeqCst);
    }

    /// Whether a sync of this user succeeds. One that fails fails the next of each other user.
    pub fn try_sync(&self, user: u32) -> bool {
        let Some(own) = self.has_lost.get(user as usize) else {
            return false;
        };
        if own.swap(false, Ordering::SeqCst) {
            return false;
        }
        if !self.fails.load(Ordering::SeqCst) {
            return true;
        }
        for user in &self.has_lost {
            user.store(true, Ordering::SeqCst);
        }
        own.store(false, Ordering::SeqCst);
        false
    }
}
