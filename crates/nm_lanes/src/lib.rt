//! A mirror's calls, as lists of steps on its stripes.
//!
//! A lane is one stripe's access path: it does one step at a time on the stripe behind a lock, and
//! holds the lock for no longer. `laws` say when stripes that each act on an array of their own act
//! together on the mirror's one array.
#![tactic(auto)]

pub use call_error::CallError;
pub use call_error_kind::CallErrorKind;
pub use call_kind::CallKind;
pub use caller::Caller;
pub use flushing::{flush_by, sync_by};
pub use gate::{Gate, NoGate};
pub use lane::Lane;
pub use place::Place;
pub use reading::read_by;
pub use step_kind::StepKind;
pub use write_fault::WriteFault;
pub use writing::write_by;
pub use zeroing::zero_by;

mod blocker;
mod call;
mod call_error;
mod call_error_kind;
mod call_kind;
mod caller;
mod cutting;
mod flushing;
mod gate;
mod helping;
mod lane;
pub mod laws;
mod piece_range;
mod place;
mod reading;
mod region_pieces;
mod region_runs;
mod run;
mod run_write;
mod step_kind;
mod stripe_call;
mod turns;
mod write_fault;
mod writing;
mod writing_one;
mod zeroing;
