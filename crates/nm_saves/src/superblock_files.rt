ghost use Rattle.std.specs.Prelude.{◌≡◌, ◌<◌, ◌≤◌, ◌⊎◌, IfErr, IfOk, OnOk, IsNone, None};
ghost use Rattle.std.specs.Prelude.{option_copied, replicate};
ghost use Rattle.nm_saves.specs.Errors.{error_of};
ghost use Rattle.nm_saves.specs.Files.{AreFailed, AreUpTo, IsLeastUpTo, file_of, newest_of};
ghost use Rattle.nm_saves.specs.SavingAll.{IsDone, IsUndone, TakesNone, request_of};

use crate::knowing::{failed_legs, highest_of, other_legs, seen_after};
use crate::named::{is_nameless, named_legs};
use crate::saved::Saved;
use crate::saving::{FailedFiles, save_to};
use crate::slot_file::SlotFile;
use crate::superblock_file::SuperblockFile;
use nm_geometry::LegSet;
use nm_superblock::{LegSets, SpanMap, Superblock};
use std::io;
use std::marker::Model;

/// The files of a mirror's superblock, one beside each leg that has one.
#[derive(Drop)]
pub struct SuperblockFiles<F: SlotFile> {
    pub(crate) files: Vec<Option<SuperblockFile<F>>>,
    /// The last superblock whose save was done.
    pub(crate) image: Superblock,
    /// No generation that was tried is higher, and no stamp that was in the files.
    pub(crate) highest: u64,
    /// The first error of each leg's file.
    pub(crate) errors: [Option<io::Error>; 8],
}

impl<F: SlotFile> Model for SuperblockFiles<F> {
    ghost use Rattle.nm_saves.specs.SavingAll.{FilesState};

    ghost Value = { FilesState };

    ghost view = { λ f. record {
      files = f.files.items;
      image = f.image;
      highest = f.highest;
      errors = f.errors;
    } };
}

impl<F: SlotFile> SuperblockFiles<F> {
    /// These files, the first beside leg 0. What is saved next goes on from the image: it has the
    /// mirror's id, shape, leg ids and lineages.
    pub fn new(files: Vec<Option<SuperblockFile<F>>>, image: Superblock) -> Self
        ensures files { result.files ≡ files.items }
        ensures image { result.image ≡ image }
        ensures own { image.generation ≤ result.highest }
        ensures above { AreUpTo 8 result.highest files.items }
        ensures least { IsLeastUpTo 8 image.generation result.highest files.items }
        ensures errors { result.errors ≡ replicate 8 None }
    {
        let highest = highest_of(&files, image.generation);
        SuperblockFiles {
            files,
            image,
            highest,
            errors: [None, None, None, None, None, None, None, None],
        }
    }

    /// The last superblock whose save was done.
    pub fn image(&self) -> &Superblock
        ensures { result.now ≡ self.now.image }
    {
        &self.image
    }

    /// The superblock in the file of this leg: none where it has no file, or no superblock in it.
    pub fn superblock(&self, leg: usize) -> Option<Superblock>
        ensures { result ≡ newest_of (file_of leg self.now.files) }
    {
        if leg >= self.files.len() {
            return None;
        }
        match &self.files[leg] {
            Some(file) => file.newest(),
            None => None,
        }
    }

    /// The legs whose file has failed, so that it is not written again.
    pub fn failed(&self) -> LegSet
        ensures { AreFailed 8 self.now.files result }
    {
        failed_legs(&self.files)
    }

    /// The error that is kept of the file of this leg: the first one, if a save into it failed.
    pub fn error(&self, leg: usize) -> Option<&io::Error>
        ensures own { leg < 8 → option_copied result ≡ error_of leg self.now.errors }
        ensures none { 8 ≤ leg → IsNone result }
    {
        if leg >= 8 {
            return None;
        }
        self.errors[leg].as_ref()
    }

    /// Saves the next superblock, with these sets, marks and times of last changes: first into the
    /// file of each leg that it names, which is one that is in sync in some stripe. Where one of
    /// these fails, no file of another leg is touched, and the answer is which failed. Then into
    /// those of the other legs, but for these that are out; a failure there is none of the save's.
    /// The answer is then what was saved.
    ///
    /// A save that names no leg in some stripe does not begin, nor one without a generation.
    pub fn save(
        &mut self,
        sets: &LegSets,
        marked: &SpanMap,
        clean: bool,
        changed: &[u64; 8],
        out: &LegSet,
    ) -> Result<Saved, FailedFiles>
        ensures done { OnOk result (IsDone F.honest
            (request_of sets.now marked.now clean changed.now out.now) self.old self.new) }
        ensures sets { IfOk result (λ saved. saved.sets ≡ sets.now) }
        ensures marks { IfOk result (λ saved. saved.marked ≡ marked.now) }
        ensures undone { IfErr result (λ e.
            TakesNone (request_of sets.now marked.now clean changed.now out.now) e.legs
            self.old self.new
            ⊎ IsUndone F.honest (request_of sets.now marked.now clean changed.now out.now) e.legs
            self.old self.new) }
    {
        if is_nameless(sets, self.image.stripes) {
            return Err(FailedFiles::none());
        }
        let Some(generation) = self.highest.checked_add(1) else {
            return Err(FailedFiles::none());
        };
        let mut next = self.image;
        next.generation = generation;
        next.sets = *sets;
        next.marked = *marked;
        next.clean = clean;
        next.changed = *changed;
        self.highest = generation;
        let named = named_legs(sets);
        let failed = save_to(&mut self.files, &mut self.errors, &next, &named);
        if failed.has_some() {
            return Err(FailedFiles { legs: failed });
        }
        let others = other_legs(&named, out);
        let lacking = save_to(&mut self.files, &mut self.errors, &next, &others);
        next.seen = seen_after(&next, &named, &others, &lacking);
        self.image = next;
        Ok(Saved::of(&next))
    }
}
