//! Error codes in replies ("Error values").

/// Operation not permitted: the export is read-only.
pub const EPERM: u32 = 1;

/// I/O error.
pub const EIO: u32 = 5;

/// Out of memory.
pub const ENOMEM: u32 = 12;

/// Invalid request.
pub const EINVAL: u32 = 22;

/// No space: the write reaches past the end of the export.
pub const ENOSPC: u32 = 28;
