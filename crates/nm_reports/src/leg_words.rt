//! The words of lines on a leg that come again.

use crate::leg_trouble::Trouble;
use std::fmt;

/// The leg that a line is on.
///
/// It prints as `leg 1 (two.img)`.
#[derive(Drop)]
pub struct LegName {
    pub leg: usize,
    pub file: String,
}

impl fmt::Display for LegName {
    fn fmt<W: fmt::Write>(&self, f: &mut fmt::Formatter<W>) -> fmt::Result {
        write!(f, "leg {} ({})", self.leg, self.file)
    }
}

/// In how many of all stripes something is so.
///
/// It prints as `3 of 8 stripes`.
#[derive(Clone, Copy, Drop)]
pub struct Stripes {
    pub count: u64,
    pub all: usize,
}

impl fmt::Display for Stripes {
    fn fmt<W: fmt::Write>(&self, f: &mut fmt::Formatter<W>) -> fmt::Result {
        write!(f, "{} of {} stripes", self.count, self.all)
    }
}

/// The end of a line on a leg: what of its file failed last.
#[derive(Clone, Copy, Drop)]
pub struct Because {
    pub trouble: Option<Trouble>,
}

impl fmt::Display for Because {
    fn fmt<W: fmt::Write>(&self, f: &mut fmt::Formatter<W>) -> fmt::Result {
        match &self.trouble {
            Some(trouble) => write!(f, ": {trouble}"),
            None => Ok(()),
        }
    }
}

/// The end of a line on a leg that was attached: in how many stripes it is out still, if in some.
#[derive(Clone, Copy, Drop)]
pub struct Still {
    pub out: Stripes,
}

impl fmt::Display for Still {
    fn fmt<W: fmt::Write>(&self, f: &mut fmt::Formatter<W>) -> fmt::Result {
        match self.out.count {
            0 => Ok(()),
            _ => write!(f, ", and is out in {} still", self.out),
        }
    }
}

/// The end of a line on reads that failed: how many more there are.
#[derive(Clone, Copy, Drop)]
pub struct More {
    pub count: u64,
}

impl fmt::Display for More {
    fn fmt<W: fmt::Write>(&self, f: &mut fmt::Formatter<W>) -> fmt::Result {
        match self.count {
            0 => Ok(()),
            1 => f.write_str(" (and 1 more read)"),
            count => write!(f, " (and {count} more reads)"),
        }
    }
}
