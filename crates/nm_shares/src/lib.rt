//! What holds of a stripe over legs that share their syncs: an honest medium in memory whose syncs
//! fail, and the lists of steps of a stripe on two legs of it.
#![tactic(auto)]

pub mod file_stripes;
pub mod shared_medium;
pub mod shared_syncs;
