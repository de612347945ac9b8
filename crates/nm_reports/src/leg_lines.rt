//! The lines that tell what happens to one leg.

use crate::failed_reads::{FailedRead, FailedReads};
use crate::leg_trouble::{LegTrouble, Trouble};
use crate::leg_words::{Because, LegName, More, Still, Stripes};
use crate::log_lines::LogLines;
use nm_geometry::ByteRange;
use nm_service::{Interval, LegChange, LegSight, Mebibytes};
use std::alloc::{AllocError, Global};
use std::sync::{Arc, Wait};
use std::time::Clock;

/// How many milliseconds pass at least from one line on a leg's changes to the next.
const CHANGE_MILLISECONDS: u64 = 1_000;

/// How many milliseconds pass at least from one line on a leg's copy to the next.
const PROGRESS_MILLISECONDS: u64 = 10_000;

/// How many milliseconds pass at least from one line on failed reads of a leg to the next.
const READS_MILLISECONDS: u64 = 1_000;

/// A leg of which nothing is known.
pub const UNSEEN: LegSight = LegSight {
    joining: 0,
    out: 0,
    left: 0,
    masters: 0,
    stopped: 0,
};

/// How a leg stands as the server begins or ends.
#[derive(Drop)]
pub struct LegStand {
    /// How many stripes there are.
    pub all: usize,
    /// How it stands in them.
    pub sight: LegSight,
    /// In how many that run it is in sync.
    pub in_sync: u64,
    /// The stripes that have stopped on it, by rising number.
    pub stopped: Vec<usize>,
}

impl LegStand {
    // Puts that the leg is so in so many of all stripes.
    fn put_count(&self, words: &str, count: u64, text: &mut String) -> Result<(), AllocError> {
        write!(text, "{words} in {count} of {} stripes", self.all)
    }

    // Puts in how many stripes the leg is out or in sync, or what it lacks.
    fn put_words(&self, text: &mut String) -> Result<(), AllocError> {
        if self.sight.out > 0 {
            self.put_count("is out", self.sight.out, text)
        } else if self.sight.left > 0 {
            write!(text, "lacks {}", Mebibytes::of_blocks(self.sight.left))
        } else if self.sight.joining > 0 {
            text.push_str("is current, its first sync is under way")
        } else if self.in_sync < self.all as u64 {
            self.put_count("is in sync", self.in_sync, text)
        } else {
            text.push_str("is in sync")
        }
    }

    // Puts the numbers of the stripes that have stopped.
    fn put_numbers(&self, text: &mut String) -> Result<(), AllocError> {
        let mut before = " ";
        for stripe in &self.stopped {
            write!(text, "{before}{stripe}")?;
            before = ", ";
        }
        Ok(())
    }

    // Puts which stripes have stopped on this leg, if some have.
    fn put_stopped(&self, leg: usize, text: &mut String) -> Result<(), AllocError> {
        let (before, after) = match self.stopped.len() {
            0 => return Ok(()),
            1 => ("; stripe", "is stopped, its"),
            _ => ("; stripes", "are stopped, their"),
        };
        text.push_str(before)?;
        self.put_numbers(text)?;
        write!(text, " {after} last leg is leg {leg}")
    }
}

/// A leg, by its number and its file, and what was told of it so far.
#[derive(Drop)]
pub struct LegLines {
    name: LegName,
    trouble: Arc<LegTrouble>,
    told: LegSight,
    changes: Interval,
    progress: Interval,
    reads: Interval,
}

impl LegLines {
    /// Nothing was told of this leg.
    pub fn new(leg: usize, file: String, trouble: Arc<LegTrouble>) -> LegLines {
        LegLines {
            name: LegName { leg, file },
            trouble,
            told: UNSEEN,
            changes: Interval::new(CHANGE_MILLISECONDS),
            progress: Interval::new(PROGRESS_MILLISECONDS),
            reads: Interval::new(READS_MILLISECONDS),
        }
    }

    // What failed last of the leg's file.
    fn because(&self) -> Because {
        Because {
            trouble: self.trouble.take(),
        }
    }

    // Puts how the leg stands.
    fn put_stand(&self, when: &str, stand: &LegStand, text: &mut String) -> Result<(), AllocError> {
        write!(text, "{when}: {} ", self.name)?;
        stand.put_words(text)?;
        stand.put_stopped(self.name.leg, text)
    }

    /// Tells how the leg stands, as the server begins or ends: a warning where stripes have stopped
    /// on it.
    pub fn tell_stand<R: Wait + Clock>(
        &mut self,
        rt: &R,
        alloc: Global,
        lines: &LogLines,
        when: &str,
        stand: &LegStand,
    ) {
        self.told = stand.sight;
        if stand.sight.out > 0 {
            self.trouble.outage().begin(rt, None);
        }
        let mut text = String::new(alloc);
        let line = match self.put_stand(when, stand, &mut text) {
            Ok(()) => Ok(text),
            Err(error) => Err(error),
        };
        if stand.stopped.is_empty() {
            lines.inform(rt, line);
        } else {
            lines.warn(rt, line);
        }
    }

    // Tells that the leg is out, in more stripes than before.
    fn tell_outage<R: Wait + Clock>(&self, rt: &R, alloc: Global, lines: &LogLines, all: usize) {
        let (name, because) = (&self.name, self.because());
        let count = self.told.out;
        let out = Stripes { count, all };
        self.trouble.outage().begin(rt, because.trouble);
        let text = format!(in alloc; "{name} is out in {out}{because}");
        lines.warn(rt, text);
    }

    // Tells what was lost with the leg.
    fn tell_losses<R: Wait + Clock>(
        &self,
        rt: &R,
        alloc: Global,
        lines: &LogLines,
        all: usize,
        change: &LegChange,
    ) {
        if change.goes_out {
            self.tell_outage(rt, alloc, lines, all);
        }
        if change.stops {
            let (name, because) = (&self.name, self.because());
            let count = self.told.stopped;
            let stopped = Stripes { count, all };
            let text = format!(in alloc;
                "{stopped} have stopped: {name} failed as their last leg in sync{because}"
            );
            lines.alert(rt, text);
        }
    }

    // Tells that the leg is the master in more stripes, or is attached.
    fn tell_gains<R: Wait>(
        &self,
        rt: &R,
        alloc: Global,
        lines: &LogLines,
        all: usize,
        change: &LegChange,
    ) {
        let name = &self.name;
        if change.takes_over {
            let count = self.told.masters;
            let masters = Stripes { count, all };
            let text = format!(in alloc; "{name} is now the master in {masters}");
            lines.inform(rt, text);
        }
        if change.comes_back {
            let count = self.told.out;
            let still = Still {
                out: Stripes { count, all },
            };
            let text = format!(in alloc; "{name} is attached{still}");
            lines.inform(rt, text);
        }
    }

    // Tells that a copy to the leg begins, or that the leg has all again.
    fn tell_copy<R: Wait>(
        &self,
        rt: &R,
        alloc: Global,
        lines: &LogLines,
        all: usize,
        change: &LegChange,
    ) {
        let name = &self.name;
        if change.begins_copy {
            let left = Mebibytes::of_blocks(self.told.left);
            let text = format!(in alloc; "{name}: its copy begins, {left} are left");
            lines.inform(rt, text);
        }
        if change.is_whole {
            let text = format!(in alloc; "{name} is in sync in {all} of {all} stripes");
            lines.inform(rt, text);
        }
    }

    // Tells how much is left to copy to the leg.
    fn tell_left<R: Wait>(&self, rt: &R, alloc: Global, lines: &LogLines) {
        let (name, left) = (&self.name, Mebibytes::of_blocks(self.told.left));
        let text = format!(in alloc; "{name}: {left} are left to copy");
        lines.inform(rt, text);
    }

    // Tells this change, of which it is known how the leg stands by it.
    fn tell_change<R: Wait + Clock>(
        &self,
        rt: &R,
        alloc: Global,
        lines: &LogLines,
        all: usize,
        change: &LegChange,
    ) {
        self.tell_losses(rt, alloc, lines, all, change);
        self.tell_gains(rt, alloc, lines, all, change);
        self.tell_copy(rt, alloc, lines, all, change);
        if self.told.out == 0 {
            self.trouble.outage().end(rt);
        }
    }

    /// Tells what has changed by this time, in milliseconds, where it is time for a line.
    pub fn tell_changes<R: Wait + Clock>(
        &mut self,
        rt: &R,
        alloc: Global,
        lines: &LogLines,
        all: usize,
        sight: LegSight,
        now: u64,
    ) {
        let change = sight.change_since(&self.told);
        if change.is_some() {
            if self.changes.take(now) {
                self.told = sight;
                let _ = self.progress.take(now);
                self.tell_change(rt, alloc, lines, all, &change);
            }
        } else if sight.left > 0 && self.progress.take(now) {
            self.told = sight;
            self.tell_left(rt, alloc, lines);
        }
    }

    /// Where reads of the leg failed.
    pub fn failed_reads(&self) -> &FailedReads {
        self.trouble.failed_reads()
    }

    /// Whether it is time, in milliseconds, for a line on failed reads.
    pub fn tells_reads(&mut self, now: u64) -> bool {
        self.reads.take(now)
    }

    /// Tells that this read failed where no other leg is in sync, and so many more.
    pub fn tell_failed_read<R: Wait>(
        &self,
        rt: &R,
        alloc: Global,
        lines: &LogLines,
        failed: &FailedRead,
        more: u64,
    ) {
        let name = &self.name;
        self.trouble.forget_read(failed.at);
        let (trouble, more) = (Trouble::of_read(failed), More { count: more });
        lines.alert(
            rt,
            format!(in alloc; "{name}: {trouble}; it stays, as the last leg in sync{more}"),
        );
    }

    // What failed as these bytes were read.
    fn because_of(&self, bytes: &ByteRange) -> Because {
        let failed = self.failed_reads().first_in(bytes.offset, bytes.length);
        match &failed {
            Some(failed) => {
                self.trouble.forget_read(failed.at);
                Because {
                    trouble: Some(Trouble::of_read(failed)),
                }
            }
            None => self.because(),
        }
    }

    // The line on one region that cannot be read.
    fn unread_region(&self, alloc: Global, bytes: &ByteRange) -> Result<String, AllocError> {
        let (name, because) = (&self.name, self.because_of(bytes));
        let (offset, length) = (bytes.offset, bytes.length);
        format!(in alloc;
            "{name}: {length} bytes of the export at {offset} cannot be read, and are not copied \
             to other legs{because}"
        )
    }

    // The line on so many regions that cannot be read, of which this is the first.
    fn unread_regions(
        &self,
        alloc: Global,
        bytes: &ByteRange,
        count: u64,
    ) -> Result<String, AllocError> {
        let (name, because) = (&self.name, self.because_of(bytes));
        let (offset, length) = (bytes.offset, bytes.length);
        format!(in alloc;
            "{name}: {count} regions of the export cannot be read, and are not copied to other \
             legs, the first with {length} bytes at {offset}{because}"
        )
    }

    /// Tells that these bytes of the export cannot be read from the leg, which alone has them: the
    /// first of so many regions.
    pub fn tell_unread<R: Wait>(
        &self,
        rt: &R,
        alloc: Global,
        lines: &LogLines,
        bytes: &ByteRange,
        count: u64,
    ) {
        let text = if count <= 1 {
            self.unread_region(alloc, bytes)
        } else {
            self.unread_regions(alloc, bytes, count)
        };
        lines.alert(rt, text);
    }
}
