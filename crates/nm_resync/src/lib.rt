//! The buffer of one open chunk of a copy: blocks that are read from the master, and then written.
//!
//! Every call on `Copy` answers exactly what its chunk says, and leaves exactly what its move says.
//! All memory is taken by `Copy::new`.
#![tactic(auto)]

pub use copy::{Copy, MOST_CHUNK};
pub use copy_move::Move;

mod copy;
mod copy_move;
pub mod laws;
mod open_chunk;
