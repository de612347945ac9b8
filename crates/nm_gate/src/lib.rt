//! The gate in front of a stripe's steps: what the durable superblock may say of the stripe, and
//! which steps may be done by it.
//!
//! A leg's loss is saved before anything of the stripe is answered, a leg is listed before it is
//! called in sync, and a span is marked before its first write. So a start by the superblock finds
//! what was flushed and, where the process alone was lost, all that was answered (`laws`).
#![tactic(auto)]

pub use durable_state::DurableState;
pub use gate_refusal::GateRefusal;
pub use gated_stripe::GatedStripe;
pub use leg_claims::LegClaims;

mod durable_state;
mod gate;
mod gate_refusal;
mod gated_stripe;
pub mod laws;
mod leg_claims;
mod returning;
mod saves;
mod settling;
