//! How the superblocks stand, as the control port tells it.

use std::alloc::AllocError;
use std::sync::atomic::{AtomicBool, AtomicU32, AtomicU64, Ordering};

/// How the superblocks stand, at one look.
#[derive(Clone, Copy)]
pub struct Saved {
    /// The last generation that was saved, at least 1.
    pub generation: u64,
    /// How many spans it marks.
    pub marked: u32,
    /// In how many stripes a save under way takes a leg out of those in sync.
    pub unsaved: u32,
    /// Whether a save could not be done, and none was since.
    pub has_failed: bool,
}

/// How the superblocks stand. Whoever saves sets it, the control port tells it, and neither waits.
#[derive(Drop)]
pub struct SaveStatus {
    // 0 where there are no superblocks.
    generation: AtomicU64,
    marked: AtomicU32,
    unsaved: AtomicU32,
    has_failed: AtomicBool,
}

impl SaveStatus {
    /// There are no superblocks.
    pub fn none() -> SaveStatus {
        SaveStatus {
            generation: AtomicU64::new(0),
            marked: AtomicU32::new(0),
            unsaved: AtomicU32::new(0),
            has_failed: AtomicBool::new(false),
        }
    }

    /// A save begins, which marks so many spans. In so many stripes a leg that the superblocks call
    /// in sync is so no more.
    pub fn begin(&self, marked: u32, unsaved: u32) {
        self.marked.store(marked, Ordering::SeqCst);
        self.unsaved.store(unsaved, Ordering::SeqCst);
    }

    /// The superblocks have this generation: a save was done.
    pub fn end(&self, generation: u64) {
        self.generation.store(generation, Ordering::SeqCst);
        self.unsaved.store(0, Ordering::SeqCst);
        self.has_failed.store(false, Ordering::SeqCst);
    }

    /// A save could not be done, and none was since.
    pub fn fail(&self) {
        self.has_failed.store(true, Ordering::SeqCst);
    }

    /// Whether a save could not be done, and none was since.
    pub fn has_failed(&self) -> bool {
        self.has_failed.load(Ordering::SeqCst)
    }

    /// How they stand, where there are some.
    pub fn saved(&self) -> Option<Saved> {
        let generation = self.generation.load(Ordering::SeqCst);
        if generation == 0 {
            return None;
        }
        Some(Saved {
            generation,
            marked: self.marked.load(Ordering::SeqCst),
            unsaved: self.unsaved.load(Ordering::SeqCst),
            has_failed: self.has_failed(),
        })
    }

    /// Puts a line that says how they stand.
    pub fn put(&self, text: &mut String) -> Result<(), AllocError> {
        let Some(saved) = self.saved() else {
            return text.push_str("superblock: none\n");
        };
        let (generation, marked, unsaved) = (saved.generation, saved.marked, saved.unsaved);
        let failed = if saved.has_failed { " failed" } else { "" };
        writeln!(
            text,
            "superblock: generation {generation} marked {marked} unsaved {unsaved}{failed}"
        )
    }
}
