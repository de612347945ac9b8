//! Blocks, arrays of blocks, the legal histories of an array, and the life of each operation on it.
//!
//! A history is a list of numbered entries, each one operation on one block. `Kept` keeps one, and
//! `check` and `check_indexed` answer exactly whether some array explains it.
//! `specs/Explained.antt` says when one array explains a list of begins, entries and replies, and
//! `laws` what follows.
#![tactic(auto)]

pub use block::{BLOCK_BYTES, Block};
pub use entry::{Entry, Kind};
#[doc(hidden)]
pub use head::Head;
pub use history::{check, check_indexed};
pub use kept::Kept;
pub use memory::Memory;
pub use plain_array::PlainArray;

mod block;
mod entry;
mod head;
mod history;
mod kept;
pub mod laws;
mod memory;
mod plain_array;
mod replacing;
