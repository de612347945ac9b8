//! What the process may use at most.
ghost use Rattle.std.specs.Prelude.{◌<◌, ◌↔◌, IsTrue, IsSomeAnd};

use crate::kernel_tables::soft_limit;
use crate::system_files::contents;
use std::alloc::{AllocError, Global};
use std::fs::File;
use std::rt::Files;

/// What the process may use at most. None is unlimited, or not told.
#[derive(Clone, Copy, PartialEq, Eq)]
pub struct Limits {
    /// How many bytes of address space it may have.
    pub address_space: Option<u64>,
    /// How long a file may become that it writes, in bytes.
    pub file_bytes: Option<u64>,
    /// How many files it may have open at once.
    pub open_files: Option<u64>,
    /// How large the stack of a thread may become, in bytes.
    pub stack_bytes: Option<u64>,
}

impl Limits {
    /// The soft limits of this process.
    pub fn read<R: Files<File = File>>(rt: &R, alloc: Global) -> Result<Limits, AllocError> {
        let text = contents(rt, alloc, "/proc/self/limits")?;
        Ok(Limits {
            address_space: soft_limit(&text, "Max address space"),
            file_bytes: soft_limit(&text, "Max file size"),
            open_files: soft_limit(&text, "Max open files"),
            stack_bytes: soft_limit(&text, "Max stack size"),
        })
    }
}

/// Whether the limit is below what is needed.
pub fn is_below(limit: Option<u64>, needed: u64) -> bool
    ensures { IsTrue result ↔ IsSomeAnd limit (λ most. most < needed) }
{
    match limit {
        Some(most) => most < needed,
        None => false,
    }
}
