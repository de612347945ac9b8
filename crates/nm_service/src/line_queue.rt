ghost use Rattle.std.specs.Prelude.{◌≡◌, ◌+◌, ◌-◌, ◌<◌, ◌^◌, ◌++◌, [], option_to_list, min, IsTrue};
ghost use Rattle.std.specs.Prelude.{◌↔◌, IfOk};
ghost use Rattle.nm_service.specs.Lines.{Takes};

use std::alloc::{AllocError, Global};
use std::collections::VecDeque;
use std::marker::Model;

/// How many lines wait at most.
const MOST_LINES: usize = 256;

/// The lines that wait to be written, and how many were lost since that was last told.
///
/// Contracts see both.
#[derive(Drop)]
pub struct LineQueue<L> {
    waiting: VecDeque<L>,
    lost: u64,
}

impl<L> Model for LineQueue<L> {
    ghost use Rattle.std.specs.Prelude.{◌≤◌};
    ghost use Rattle.std.specs.VecDeque.{deque_len, deque_capacity};
    ghost use Rattle.nm_service.specs.Lines.{Lines};

    ghost Value = { Lines L };

    ghost view = { λ queue. record { waiting = queue.waiting.items; lost = queue.lost } };

    ghost invariant = { λ queue. (deque_len queue.waiting ≤ 256)
        × (256 ≤ deque_capacity queue.waiting) };
}

impl<L: Drop> LineQueue<L> {
    /// No lines, with room for 256: it takes no more memory.
    pub fn new(alloc: Global) -> Result<Self, AllocError>
        ensures { IfOk result (λ queue. (queue.waiting ≡ []) × (queue.lost ≡ 0)) }
    {
        Ok(LineQueue {
            waiting: VecDeque::with_capacity(alloc, MOST_LINES)?,
            lost: 0,
        })
    }

    /// Takes a line behind the others, or counts it as lost where there is no room.
    pub fn put(&mut self, line: L)
        ensures { Takes self.old line self.new }
    {
        if self.waiting.len() == MOST_LINES || self.waiting.push_back(line).is_err() {
            self.lost = self.lost.saturating_add(1);
        }
    }

    /// Counts a line that never came to be, as where there was no memory for it.
    pub fn lose(&mut self)
        ensures waiting { self.new.waiting ≡ self.old.waiting }
        ensures lost { self.new.lost ≡ min (self.old.lost + 1) (2 ^ 64 - 1) }
    {
        self.lost = self.lost.saturating_add(1);
    }

    /// Hands out the line that has waited longest.
    pub fn next(&mut self) -> Option<L>
        ensures first { self.old.waiting ≡ option_to_list result ++ self.new.waiting }
        ensures empty { result ≡ None → self.old.waiting ≡ [] }
        ensures lost { self.new.lost ≡ self.old.lost }
    {
        self.waiting.pop_front()
    }

    /// How many lines were lost since this was last asked.
    pub fn take_lost(&mut self) -> u64
        ensures told { result ≡ self.old.lost }
        ensures none_left { self.new.lost ≡ 0 }
        ensures waiting { self.new.waiting ≡ self.old.waiting }
    {
        let lost = self.lost;
        self.lost = 0;
        lost
    }

    /// Whether nothing waits, lost lines that are not told included.
    pub fn is_empty(&self) -> bool
        ensures { IsTrue result ↔ ((self.now.waiting ≡ []) × (self.now.lost ≡ 0)) }
    {
        self.waiting.is_empty() && self.lost == 0
    }
}
