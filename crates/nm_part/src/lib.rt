//! The part of a pass in one stripe: it counts the entries that its steps were given, and keeps a
//! number that no entry of a later read is below.
//!
//! A pass is one client's way through a mirror. What its parts count is compared in the end with
//! what the stripes' histories have had.
#![tactic(auto)]

pub use part::Part;

mod part;
