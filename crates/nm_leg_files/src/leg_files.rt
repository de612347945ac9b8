//! The files of the legs.
ghost use Rattle.std.specs.Prelude.{◌≡◌, ◌<◌, ◌≤◌, ◌↔◌, ◌^◌, map};
ghost use Rattle.std.specs.Prelude.{IsSome, IfSome, IfOk, IsTrue, is_some, true, false, ◌||◌};
ghost use Rattle.nm_geometry.specs.Geometry.{IsGeometry};
ghost use Rattle.nm_leg_files.specs.Files.{bytes_in, laid_over, leg_place, mirror_places, name_of};
ghost use Rattle.nm_leg_files.specs.Files.{names_of, place_on, stripe_places};
ghost use Rattle.nm_leg_files.specs.Here.{AllHere, AreHere, AreOfHere, SomeHere};
ghost use Rattle.nm_leg_files.specs.Here.{is_here, is_here_at};
ghost use Rattle.nm_leg_files.specs.Places.{kept_from, kept_in, kept_of};

use crate::absence::Absence;
use crate::counting_file::{BytesRead, CountingFile};
use crate::identities::RecordedFiles;
use crate::leg_file::{LegFile, share, unopened_by};
use crate::leg_opening::{BLOCK_BYTES, LegLength, LegRules, find_leg, first_of};
use crate::leg_place::LegPlace;
use crate::timed_calls::TimedCalls;
use nm_file_leg::{FileLeg, FileUser};
use nm_geometry::{LegSet, Shape};
use nm_lanes::NoGate;
use nm_mirror::Mirror;
use nm_reports::{LogLines, StartFault, Unopened};
use std::alloc::{AllocError, Global};
use std::fs::File;
use std::io::ErrorKind;
use std::rt::Files;
use std::sync::{Arc, Wait};
use std::thread::Threads;

/// How many blocks a region has.
pub const REGION: u64 = 128;

/// How many blocks a chunk of a copy has: a region, so that two calls copy it, and a copy that has
/// no open chunk never stands inside a region.
const CHUNK: u64 = REGION;

/// A leg on a file.
pub type Leg = FileLeg<CountingFile>;

/// The mirror that the program serves.
pub type FileMirror<J> = Mirror<Leg, NoGate, J>;

/// The legs' files, each opened once for all stripes and locked, so that no other server and no
/// other leg uses it. Some may be missing, where that is allowed.
#[derive(Drop)]
pub struct LegFiles {
    pub(crate) files: Vec<LegFile>,
    // How many blocks each of them has that is here.
    pub(crate) blocks: u64,
    pub(crate) rules: LegRules,
    // What the superblocks record of them, where there are superblocks.
    pub(crate) recorded: Option<RecordedFiles>,
}

// Opens, locks and measures the file of this leg, and says which leg is the first that is here,
// where so far this one is, or none.
fn open_leg<R: Files<File = File>>(
    rt: &R,
    alloc: Global,
    number: usize,
    name: &str,
    first: Option<LegLength>,
    rules: &LegRules,
) -> Result<(LegFile, Option<LegLength>), StartFault>
    requires { IfSome first (λ own. own.blocks ≤ 2 ^ 31) }
    ensures name { IfOk result (λ opened. name_of opened.0 ≡ name.now) }
    ensures blocks { IfOk result (λ opened. IfSome opened.1 (λ own. own.blocks ≤ 2 ^ 31)) }
    ensures first { IfOk result (λ opened.
        is_some opened.1 ≡ (is_some first || is_here opened.0)) }
    ensures here { rules.now.may_lack ≡ false → IfOk result (λ opened. is_here opened.0 ≡ true) }
{
    let found = match find_leg(rt, alloc, number, name, first, rules) {
        Ok(found) => found,
        Err(fault) => return Err(fault),
    };
    let after = first_of(number, first, &found);
    match share(alloc, name, found, rules) {
        Ok(leg) => Ok((leg, after)),
        Err(_) => Err(StartFault::Memory),
    }
}

// The first leg that is missing, and why.
fn first_missing(files: &[LegFile]) -> Option<(usize, Unopened)> {
    for (leg, file) in files.iter().enumerate() {
        if file.unopened.is_some() {
            return Some((leg, unopened_by(file)));
        }
    }
    None
}

// What is told where no leg is here.
fn none_here(files: &[LegFile]) -> StartFault {
    match first_missing(files) {
        Some((leg, why)) => StartFault::CannotOpen(leg, why),
        None => StartFault::Memory,
    }
}

// The line on a leg that is missing: the mirror starts without it.
fn missing_line(
    alloc: Global,
    leg: usize,
    name: &str,
    why: &Absence,
) -> Result<String, AllocError> {
    let before = match why {
        Absence::Unopened(_) => "cannot be opened: ",
        _ => "",
    };
    let mut text = format!(in alloc;
        "leg {leg} ({name}): {before}{why}; the mirror starts without it"
    )?;
    if matches!(why, Absence::Unknown) {
        write!(text, ", until replace {leg} copies it over")?;
    }
    Ok(text)
}

impl LegFiles {
    /// Opens, locks and measures the legs' files, one after the other, leg 0's by the first name.
    /// One that does not fit is refused, or the first that is here. One that the system does not
    /// open may be missing where the rules say so; some leg is here.
    pub fn open<R: Files<File = File>>(
        rt: &R,
        alloc: Global,
        names: &[&str],
        rules: &LegRules,
    ) -> Result<LegFiles, StartFault>
        ensures names { IfOk result (λ files. names_of files ≡ map (λ name. name.now) names.now) }
        ensures some { IfOk result SomeHere }
        ensures all { rules.now.may_lack ≡ false → IfOk result AllHere }
    {
        let mut files = Vec::new(alloc);
        let mut first = None;
        for number in 0..names.len() {
            let name = names[number];
            let (leg, own) = open_leg(rt, alloc, number, name, first, rules)?;
            first = own;
            if files.push(leg).is_err() {
                return Err(StartFault::Memory);
            }
        }
        let Some(own) = first else {
            return Err(none_here(&files));
        };
        Ok(LegFiles {
            files,
            blocks: own.blocks,
            rules: *rules,
            recorded: None,
        })
    }

    // The file of this leg as it was opened by its name.
    fn place(&self, alloc: Global, leg: usize, file: &LegFile) -> Result<LegPlace, AllocError>
        ensures { IfOk result (λ place. kept_in place ≡ kept_of self.now leg file.now) }
    {
        let name = String::from_str(alloc, file.name.as_str())?;
        let own = file.share(alloc)?;
        let bytes = self.blocks.saturating_mul(BLOCK_BYTES);
        let mut place = LegPlace::new(alloc, name, own, bytes, self.rules);
        if let Some(all) = self.recorded {
            place.recorded = Some((leg, all));
        }
        Ok(place)
    }

    /// The files as they were opened by their names, leg 0's first.
    pub fn places(&self, alloc: Global) -> Result<Vec<LegPlace>, AllocError>
        ensures { IfOk result (λ places.
            map kept_in places.items ≡ kept_from self.now 0 self.now.files.items) }
    {
        let mut places = Vec::new(alloc);
        for (number, file) in self.files.iter().enumerate() {
            let place = self.place(alloc, number, file)?;
            places.push(place)?;
        }
        Ok(places)
    }

    /// Starts the threads that make the legs' calls, where these are limited.
    pub fn start_threads<R>(&self, rt: &R) -> Result<(), StartFault>
    where
        R: Threads + Wait + Copy + Send + 'static,
    {
        for file in &self.files {
            if let Some(calls) = file.shared.file().limit() {
                if !TimedCalls::start(rt, calls) {
                    return Err(StartFault::Memory);
                }
            }
        }
        Ok(())
    }

    // Whether the leg's file is here.
    fn is_here(&self, leg: usize) -> bool
        ensures { result ≡ is_here_at leg self.now }
    {
        match self.files.get(leg) {
            Some(file) => file.unopened.is_none(),
            None => false,
        }
    }

    /// Which legs are here.
    pub fn here(&self) -> LegSet
        ensures { AreHere 8 self.now result }
    {
        let mut here = LegSet::none();
        'legs: for leg in 0..8 {
            here.set(leg, self.is_here(leg));
        }
        here
    }

    /// The first leg that is missing, and why.
    pub fn missing(&self) -> Option<(usize, Unopened)> {
        first_missing(&self.files)
    }

    /// Refuses a leg that was named as the newest one, and is missing.
    pub fn check_named(&self, named: Option<u8>) -> Result<(), StartFault>
        ensures { IfOk result (λ _. IfSome named (λ leg. IsTrue (is_here_at leg self.now))) }
    {
        let Some(leg) = named else {
            return Ok(());
        };
        if self.is_here(leg as usize) {
            return Ok(());
        }
        let why = match self.files.get(leg as usize) {
            Some(file) => unopened_by(file),
            None => Unopened::Cut,
        };
        Err(StartFault::CannotOpen(leg as usize, why))
    }

    /// For each leg its file and why that is not here; empty where it is.
    pub fn reasons(&self, alloc: Global) -> Result<Vec<String>, AllocError> {
        let mut reasons = Vec::new(alloc);
        for file in &self.files {
            let name = file.name.as_str();
            reasons.push(match file.unopened {
                Some(why) => format!(in alloc; "{name}: {why}")?,
                None => String::new(alloc),
            })?;
        }
        Ok(reasons)
    }

    /// Tells of each leg that is missing: the mirror starts without it.
    pub fn tell_missing<R: Wait>(&self, rt: &R, alloc: Global, lines: &LogLines) {
        for (leg, file) in self.files.iter().enumerate() {
            if let Some(why) = file.unopened {
                lines.warn(rt, missing_line(alloc, leg, file.name.as_str(), &why));
            }
        }
    }

    // Makes the leg's file durable as it is, and drops what the system's cache has of it.
    fn settle_leg(&self, leg: usize) -> bool
        ensures { IsTrue result → IsTrue (is_here_at leg self.now) }
    {
        if !self.is_here(leg) {
            return false;
        }
        match self.files.get(leg) {
            Some(file) => file.shared.file().late().settle(),
            None => false,
        }
    }

    /// Makes each leg's file durable as it is, and drops what the system's cache has of it, so that
    /// what is read from now on is what a loss of power would leave. Of which legs that succeeded:
    /// another one is missing, or may have lost what was written to it.
    pub fn settle(&self) -> LegSet
        ensures { AreOfHere 8 self.now result }
    {
        let mut settled = LegSet::none();
        'legs: for leg in 0..8 {
            settled.set(leg, self.settle_leg(leg));
        }
        settled
    }

    /// How many bytes all the files have for the export.
    pub fn bytes(&self) -> u64
        ensures { result ≡ bytes_in self.now }
    {
        let own = self.blocks.saturating_mul(BLOCK_BYTES);
        own.saturating_mul(self.files.len() as u64)
    }

    /// The shape of a mirror over these files, with so many stripes or one a region, of which each
    /// keeps so many entries of its history.
    pub fn shape(&self, stripes: u8, history: u16) -> Option<Shape>
        ensures some { IsSome result ↔ IsGeometry (laid_over stripes history self.now) }
        ensures shape { IfSome result (λ shape. shape ≡ laid_over stripes history self.now) }
    {
        let regions = self.blocks.div_ceil(REGION);
        let stripes = u64::from(stripes).min(regions) as u32;
        Shape::new(
            self.blocks,
            REGION,
            CHUNK,
            stripes,
            self.files.len().min(255) as u8,
            history,
        )
    }
}

// The leg of a stripe on this file, whose user of that number it is.
pub(crate) fn stripe_leg(
    alloc: Global,
    file: &LegFile,
    number: usize,
    shape: &Shape,
    stripe: u32,
    read: &BytesRead,
) -> Result<Leg, StartFault>
    requires { stripe < shape.now.stripes }
    ensures { IfOk result (λ leg. leg_place leg.medium leg.stripe leg.shape
        ≡ place_on stripe shape.now file.now) }
{
    let bytes = shape.blocks.saturating_mul(BLOCK_BYTES);
    let Ok(user) = FileUser::new(&file.shared, stripe as usize) else {
        return Err(StartFault::Memory);
    };
    let own = CountingFile::new(user, &file.shared, bytes, read, &file.trouble, &file.counts);
    let Ok(counting) = own else {
        return Err(StartFault::Memory);
    };
    match FileLeg::new(alloc, counting, shape, stripe) {
        Ok(leg) => Ok(leg),
        Err(error) if error.kind() == ErrorKind::OutOfMemory => Err(StartFault::Memory),
        Err(_) => Err(StartFault::CannotOpen(number, Unopened::Cut)),
    }
}

// The legs of one stripe, one on each leg's file in their order, and what is read of them counted.
pub(crate) fn stripe_legs(
    alloc: Global,
    files: &LegFiles,
    shape: &Shape,
    stripe: u32,
    read: &BytesRead,
) -> Result<Vec<Leg>, StartFault>
    requires { stripe < shape.now.stripes }
    ensures { IfOk result (λ legs.
        map (λ leg. leg_place leg.medium leg.stripe leg.shape) legs.items
        ≡ stripe_places stripe shape.now files.now) }
{
    let mut legs = Vec::new(alloc);
    for (number, file) in files.files.iter().enumerate() {
        let leg = match stripe_leg(alloc, file, number, shape, stripe, read) {
            Ok(leg) => leg,
            Err(fault) => return Err(fault),
        };
        if legs.push(leg).is_err() {
            return Err(StartFault::Memory);
        }
    }
    Ok(legs)
}

/// The legs of all stripes of a mirror, one list a stripe: each is a user of its own of its leg's
/// file, the first leg of each stripe of the first file.
pub fn mirror_legs(
    alloc: Global,
    files: &LegFiles,
    shape: &Shape,
    read: &BytesRead,
) -> Result<Vec<Vec<Leg>>, StartFault>
    ensures { IfOk result (λ legs. map (λ own.
        map (λ leg. leg_place leg.medium leg.stripe leg.shape) own.items) legs.items
        ≡ mirror_places shape.now files.now) }
{
    let mut all = Vec::new(alloc);
    for stripe in 0..shape.stripes {
        let own = match stripe_legs(alloc, files, shape, stripe, read) {
            Ok(own) => own,
            Err(fault) => return Err(fault),
        };
        if all.push(own).is_err() {
            return Err(StartFault::Memory);
        }
    }
    Ok(all)
}
