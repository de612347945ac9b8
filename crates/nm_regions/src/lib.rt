//! The regions of one stripe: which are being written, copied, or out of sync on a leg.
//!
//! Every call on `Regions` answers exactly what its table of regions says, and leaves exactly the
//! table that its change says. All memory is taken by `Regions::new`.
#![tactic(auto)]

pub use copy_place::CopyPlace;
pub use region_state::RegionState;
pub use regions::{LEGS, Regions};

mod copy_place;
pub mod laws;
mod leg_flags;
mod region_state;
mod regions;
