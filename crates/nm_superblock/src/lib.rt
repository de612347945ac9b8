//! The superblock beside each leg: what it says of the legs, and its bytes in two slots of sectors.
//!
//! Each sector of a slot has the superblock's generation as its stamp. So a save that is cut off
//! leaves a slot that is read as it was, as the new superblock, or as nothing.
#![tactic(auto)]

pub use damage::{is_damaged, is_place_damaged};
pub use leg_identities::LegIdentities;
pub use leg_sets::LegSets;
pub use place::{highest_stamp, is_second_written, newer, next_generation};
pub use span_map::SpanMap;
pub use superblock::Superblock;

mod bytes;
mod damage;
pub mod laws;
mod leg_identities;
mod leg_sets;
mod payload;
mod place;
mod sectors;
mod span_map;
mod superblock;
