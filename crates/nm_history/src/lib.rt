//! The history of a stripe behind its gate: its moves, each with the stripe as it left it.
//!
//! The code keeps no list of them: they are entries of a log that exists in the proofs alone, as
//! are the arrivals of sessions' requests and what passes hear. Here is which lists are legal
//! (`LegalMoves`, `LegalNotes`), and what follows of each (`laws`).
#![tactic(auto)]

pub use transition::{Legal, Move, Noted, Transition};

pub mod laws;
mod transition;
