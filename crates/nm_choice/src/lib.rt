//! Which leg a read takes, and which leg becomes master.
//!
//! `pick` spreads the reads of a region with no write under way over the legs that are current
//! there; `elect` names the lowest leg in sync.
#![tactic(auto)]

pub use election::elect;
pub use leg_state::LegState;
pub use policy::{Policy, next_turn, pick};

mod election;
mod leg_state;
mod policy;
