//! Compares what the legs in sync of a mirror hold, two legs and one run of blocks at a time, by
//! one look a hold of a stripe, so that calls go on in between.
//!
//! What it finds counts only where no write came between both looks. It changes nothing of a stripe
//! but what a read does to a leg: a leg that differs, or that cannot be read, stays in sync.
#![tactic(auto)]

pub use agreement::{Agreed, run_without};
pub use cursor::{Cursor, MOST_TRIES};
pub use findings::{Findings, MOST_TOLD, RegionFindings, RegionPlace};
pub use looks::{Begun, Half, MOST_BYTES, Seen, is_same, look_first, look_second};
pub use pairs::{is_here, pair_of};
pub use runs::run_length;
pub use verification::Verification;

mod agreement;
mod cursor;
mod findings;
mod looks;
mod pairs;
mod runs;
mod verification;
