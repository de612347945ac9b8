//! The rules of one stripe, as plain data: when each step is refused, and what it leaves.
//!
//! The definitions in `specs/` speak of a stripe's state as contracts see it. The lemmas in
//! `proofs/` say that each step keeps what every stripe keeps, and that it acts once on the
//! stripe's array. The crate of the stripe itself stands on them; here is no body that calls a leg.
#![tactic(auto)]

pub use at::At;
pub use leg_opening::LegOpening;
pub use marked_plan::MarkedPlan;
pub use open_fault::OpenFault;
pub use refusal::Refusal;

mod at;
mod leg_opening;
mod marked_plan;
mod open_fault;
mod refusal;
