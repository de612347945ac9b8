//! Where the blocks and bytes of an export lie: in which stripe, and in which pieces of blocks.
//!
//! Every call answers exactly what its word says, and nothing takes memory. `laws` say that the
//! words fit together: there and back, each block in one stripe, each byte in one piece.
#![tactic(auto)]

pub use byte_range::ByteRange;
pub use leg_set::LegSet;
pub use piece::Piece;
pub use shape::{MOST_BLOCKS, MOST_LEGS, MOST_REGION, MOST_STRIPES, Shape};

mod byte_range;
pub mod laws;
mod leg_set;
mod piece;
mod shape;
