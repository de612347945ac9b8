//! What an image of a superblock has each stripe of a mirror do at a start: how it opens, and what
//! its gate takes the superblock to say once the image is saved.
//!
//! The image is one value, so no stripe opens by what its gate does not know (`laws`).
#![tactic(auto)]

pub use gates::{durable_state, durable_states};
pub use sets::marks_in;
pub use starts::{Unplanned, stripe_start, stripe_starts};

mod gates;
pub mod laws;
mod sets;
mod starts;
