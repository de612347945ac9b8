//! Legs: places that each keep an array of blocks, and what a call of one promises.
//!
//! `LegPart` is a leg as the code above it sees one: what every leg promises, and what an honest
//! one does. `MemLeg` keeps its blocks in memory. The other legs are for tests. `CalledLeg` is a
//! leg that several threads call at once, and `LegCall` a call of either that is handed out, made
//! once, and answered by a `LegAnswer`.
#![tactic(auto)]

pub use asks::Asks;
pub use cached_leg::CachedLeg;
pub use call_tag::{CallOf, CallTag};
pub use called_leg::CalledLeg;
pub use counting_leg::CountingLeg;
pub use failing_leg::FailingLeg;
pub use fuse::Fuse;
pub use fuse_leg::FuseLeg;
pub use hold_leg::{Hold, HoldLeg};
pub use leg_answer::LegAnswer;
pub use leg_call::LegCall;
pub use leg_calls::{read_leg_at, sync_leg_at, write_leg_at};
pub use leg_fault::LegFault;
pub use leg_part::LegPart;
pub use lying_leg::LyingLeg;
pub use mem_leg::MemLeg;
pub use zeroes::zero_run;

mod asks;
mod cached_leg;
mod call_tag;
mod called_leg;
mod counting_leg;
mod failing_leg;
mod fuse;
mod fuse_leg;
mod hold_leg;
mod leg_answer;
mod leg_call;
mod leg_calls;
mod leg_fault;
mod leg_part;
mod lying_leg;
mod mem_leg;
mod moving;
mod zeroes;
