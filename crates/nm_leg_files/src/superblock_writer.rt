//! The thread that saves superblocks.

ghost use Rattle.std.specs.Prelude.{◌≡◌, ◌≤◌};

use crate::change_times::{known_times, saved_times};
use crate::saving::{AfterTry, after_try, is_clean, is_last_somewhere};
use crate::window::SlotsAt;
use nm_geometry::{LegSet, MOST_LEGS, MOST_STRIPES};
use nm_lanes::Gate;
use nm_leg::LegPart;
use nm_mirror::{Doubts, MOST_SPANS, Mirror, Naming, SaveOrder};
use nm_reports::{LogLines, NOT_MADE, SaveStatus};
use nm_saves::{SlotFile, SuperblockFiles};
use nm_superblock::{LegSets, SpanMap, Superblock};
use std::alloc::{AllocError, Global};
use std::sync::Wait;
use std::{fmt, io};

// In how many of so many stripes a leg is in sync by the first sets and not by the second.
fn losses(before: &LegSets, after: &LegSets, stripes: usize) -> u32
    requires { stripes ≤ 64 }
{
    let mut count = 0u32;
    for stripe in 0..stripes {
        if before.in_sync(stripe) & !after.in_sync(stripe) != 0 {
            count = count.saturating_add(1);
        }
    }
    count
}

// How many spans are marked.
fn marks(map: &SpanMap) -> u32 {
    let mut count = 0u32;
    for span in 0..MOST_SPANS {
        if map.is_marked(span) {
            count = count.saturating_add(1);
        }
    }
    count
}

// The end of a line on the file of a leg's superblock that failed.
#[derive(Clone, Copy, Drop)]
struct Reason<'x> {
    leg: u8,
    error: Option<&'x io::Error>,
}

impl fmt::Display for Reason<'_> {
    fn fmt<W: fmt::Write>(&self, f: &mut fmt::Formatter<W>) -> fmt::Result {
        match self.error {
            Some(error) if error.raw_os_error() == Some(NOT_MADE) => {
                let leg = self.leg;
                write!(f, ": it is not written while a call of leg {leg} hangs")
            }
            Some(error) => write!(f, " cannot be written: {error}"),
            None => f.write_str(" cannot be written"),
        }
    }
}

// Whether the leg lacks the marked spans in some stripe.
fn is_partial(last: &Superblock, leg: u8) -> bool {
    for stripe in 0..MOST_STRIPES as usize {
        if leg < 8 && (last.sets.partial(stripe) >> leg) & 1 == 1 {
            return true;
        }
    }
    false
}

// Adds to a line that so many spans are to be copied to this leg.
fn put_copy(text: &mut String, count: u32, leg: u8) -> Result<(), AllocError> {
    let spans = if count == 1 { "span" } else { "spans" };
    write!(text, ", {count} {spans} to copy to leg {leg}")?;
    Ok(())
}

/// The superblocks' files while the server serves, their names, and the superblock that its start
/// went by, if there was one.
#[derive(Drop)]
pub struct SuperblockWriter<S: SlotFile> {
    pub(crate) alloc: Global,
    /// The files.
    pub files: SuperblockFiles<S>,
    // From leg 0 on.
    pub(crate) names: Vec<String>,
    pub(crate) slots_at: SlotsAt,
    went_by: Option<Superblock>,
}

impl<S: SlotFile> SuperblockWriter<S> {
    /// A writer of these files, with their names from leg 0's on, where in them the superblocks
    /// stand, and the newest one that was found in them: none where they were made.
    pub fn new(
        alloc: Global,
        files: SuperblockFiles<S>,
        names: Vec<String>,
        slots_at: SlotsAt,
        went_by: Option<Superblock>,
    ) -> SuperblockWriter<S>
        ensures { result.files ≡ files }
    {
        SuperblockWriter {
            alloc,
            files,
            names,
            slots_at,
            went_by,
        }
    }

    // What the start went by, and what it leaves to be copied.
    fn start_line(&self) -> Result<String, AllocError> {
        let last = self.files.image();
        let Some(by) = &self.went_by else {
            return format!(in self.alloc; "superblock: made, generation {}", last.generation);
        };
        let (generation, leg) = (by.generation, by.leg);
        let mut text = format!(in self.alloc; "superblock: generation {generation} of leg {leg}")?;
        let count = marks(&last.marked);
        for leg in 0..last.legs {
            if count > 0 && is_partial(last, leg) {
                put_copy(&mut text, count, leg)?;
            }
        }
        Ok(text)
    }

    /// Tells how the superblocks stand as the server begins.
    pub fn tell_start<R: Wait>(&self, rt: &R, status: &SaveStatus, lines: &LogLines) {
        let last = self.files.image();
        status.begin(marks(&last.marked), 0);
        status.end(last.generation);
        lines.inform(rt, self.start_line());
    }

    // The name of a leg's file.
    fn name(&self, leg: u8) -> &str {
        match self.names.get(leg as usize) {
            Some(name) => name.as_str(),
            None => "none",
        }
    }

    // Why a leg's file failed.
    fn reason(&self, leg: u8) -> Reason<'_> {
        Reason {
            leg,
            error: self.files.error(leg as usize),
        }
    }

    // The line on a leg that is the last in sync in some stripe, and whose file failed.
    fn last_line(&self, leg: u8) -> Result<String, AllocError> {
        let (name, why) = (self.name(leg), self.reason(leg));
        format!(in self.alloc;
            "leg {leg} is the last in sync somewhere, and its superblock ({name}){why}"
        )
    }

    // The line on a leg that is taken out, since its file failed.
    fn out_line(&self, leg: u8) -> Result<String, AllocError> {
        let (name, why) = (self.name(leg), self.reason(leg));
        format!(in self.alloc; "leg {leg} is taken out: its superblock ({name}){why}")
    }

    // Takes a leg out whose file failed. Whether saves go on without it.
    fn take_out<R: Wait, L: LegPart, G: Gate + Drop, J: Naming>(
        &self,
        rt: &R,
        mirror: &Mirror<L, G, J>,
        leg: u8,
        lines: &LogLines,
    ) -> bool {
        if leg >= mirror.legs() {
            return false;
        }
        let counts = mirror.fail_leg(rt, &mut mirror.actor(), leg);
        if is_last_somewhere(&counts) {
            lines.alert(rt, self.last_line(leg));
            return false;
        }
        lines.warn(rt, self.out_line(leg));
        true
    }

    // Whether the file of a leg has failed that is not out.
    fn has_failed_beside(&self, out: &LegSet) -> bool {
        for leg in 0..8usize {
            if !out.has(leg) && self.files.error(leg).is_some() {
                return true;
            }
        }
        false
    }

    // The times of legs' last changes that a save records without these legs: at the end those that
    // were read then.
    fn recorded_times(&self, ended: Option<[u64; 8]>, out: &LegSet) -> [u64; 8] {
        let last = self.files.image();
        let known = known_times(&ended.unwrap_or([0; 8]), &last.identities);
        saved_times(&known, &last.changed, out)
    }

    // Tries once to save what the mirror is, and says what follows. The files of legs that have
    // failed and were attached since are settled and read again first. At the end the times of
    // legs' last changes are told.
    fn try_save<R: Wait, L: LegPart, G: Gate + Drop, J: Naming>(
        &mut self,
        rt: &R,
        mirror: &Mirror<L, G, J>,
        status: &SaveStatus,
        ended: Option<[u64; 8]>,
    ) -> AfterTry {
        let order = mirror.begin_save(rt, &mut mirror.actor());
        let (sets, marked, out) = (order.sets(), order.marked(), order.out());
        if self.has_failed_beside(&out) {
            self.files.read_failed_again();
        }
        let stripes = mirror.shape().stripes.min(MOST_STRIPES) as usize;
        status.begin(
            marks(marked),
            losses(&self.files.image().sets, sets, stripes),
        );
        let legs = mirror.legs().min(MOST_LEGS);
        let clean = ended.is_some() && is_clean(sets, marked, stripes, legs);
        let changed = self.recorded_times(ended, &out);
        let tried = self.files.save(sets, marked, clean, &changed, &out);
        let after = after_try(&tried);
        if let Ok(saved) = tried {
            mirror.end_save(rt, &mut mirror.actor(), order, saved);
            status.end(self.files.image().generation);
        }
        after
    }

    // Saves what the mirror is, without the legs whose files fail. Whether it was saved.
    fn save<R: Wait, L: LegPart, G: Gate + Drop, J: Naming>(
        &mut self,
        rt: &R,
        mirror: &Mirror<L, G, J>,
        status: &SaveStatus,
        lines: &LogLines,
        ended: Option<[u64; 8]>,
    ) -> bool {
        for _ in rt.forever() {
            match self.try_save(rt, mirror, status, ended) {
                AfterTry::End => return true,
                AfterTry::TakeOut(leg) if self.take_out(rt, mirror, leg, lines) => (),
                _ => break,
            }
        }
        mirror.fail_save(rt, &mut mirror.actor());
        status.fail();
        let text = format!(in self.alloc;
            "no superblock can be written: the mirror is read-only from now on, until `reopen`"
        );
        lines.alert(rt, text);
        false
    }

    /// Saves what the mirror is. Whether that could be done.
    pub fn save_once<R: Wait, L: LegPart, G: Gate + Drop, J: Naming>(
        &mut self,
        rt: &R,
        mirror: &Mirror<L, G, J>,
        status: &SaveStatus,
        lines: &LogLines,
    ) -> bool {
        self.save(rt, mirror, status, lines, None)
    }

    /// Saves what the mirror is, though that could not be done before: each file that has failed is
    /// settled and read again first. Whether it could be done.
    pub fn save_again<R: Wait, L: LegPart, G: Gate + Drop, J: Naming>(
        &mut self,
        rt: &R,
        mirror: &Mirror<L, G, J>,
        status: &SaveStatus,
        lines: &LogLines,
    ) -> bool {
        let had_failed = status.has_failed();
        self.files.read_failed_again();
        if !self.save(rt, mirror, status, lines, None) {
            return false;
        }
        if had_failed {
            let text = format!(in self.alloc; "superblocks can be written again: writes go on");
            lines.inform(rt, text);
        }
        true
    }

    /// Saves what the mirror is, and settles the legs, once nothing else is at work: from then on
    /// nothing is written to them. Whether it was saved.
    pub fn settle<R: Wait, L: LegPart, G: Gate + Drop, J: Naming, D: Doubts>(
        &mut self,
        rt: &R,
        mirror: &Mirror<L, G, J>,
        doubts: &D,
        status: &SaveStatus,
        lines: &LogLines,
    ) -> bool {
        if status.has_failed() || !self.save(rt, mirror, status, lines, None) {
            return false;
        }
        mirror.settle_all(rt, doubts);
        true
    }

    /// Saves for the last time, with the times of legs' last changes: that the mirror ends in good
    /// order, where it does, with no leg in doubt.
    pub fn end<R: Wait, L: LegPart, G: Gate + Drop, J: Naming>(
        &mut self,
        rt: &R,
        mirror: &Mirror<L, G, J>,
        status: &SaveStatus,
        lines: &LogLines,
        changed: &[u64; 8],
    ) {
        let _ = self.save(rt, mirror, status, lines, Some(*changed));
    }
}
