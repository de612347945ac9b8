//! A mirror of locked stripes: many threads read and write it while its legs fail, come back and
//! are copied again.
//!
//! Each step of a call is one hold of one stripe's lock. What the stripes' histories have had is
//! compared in the end with what the passes counted. `laws` say what the stripes' contracts make
//! of the mirror as a whole. What a caller needs of the crates below is handed on from here.
#![tactic(auto)]

pub use copy_round::{CopyRound, UnreadRegion};
pub use counts::{AttachCounts, FailCounts, ReplaceCounts};
pub use doubts::{Doubts, NoDoubts, Returning};
pub use gating::{gated, ungated};
pub use glance::Glance;
pub use initial_sync::InitialSync;
pub use last_entries::LastEntries;
pub use lock::Lock;
pub use marked_opening::{StripeStart, open_marked_stripes};
pub use mirror::Mirror;
pub use mirror_fault::MirrorFault;
pub use nm_book::Naming;
pub use nm_geometry::Shape;
pub use nm_lanes::{
    CallError, CallErrorKind, CallKind, Gate, Lane, NoGate, Place, StepKind, WriteFault, flush_by,
    laws, read_by, sync_by, write_by, zero_by,
};
pub use nm_verify::{Cursor, Findings, MOST_BYTES, RegionPlace, Seen, Verification};
pub use opening::{Opening, open_stripes};
pub use part_lane::PartLane;
pub use pass::{MOST_PASSES, Pass};
pub use refused::Refused;
pub use reopening::Reopened;
pub use replacing::Withdrawal;
pub use save_desk::MOST_SPANS;
pub use save_order::SaveOrder;
pub use session_trail::SessionTrail;
pub use sight::Sight;
pub use status::{LegStatus, StripeStatus};
pub use stripe_end::{Past, StripeEnd};
pub use totals::Totals;
pub use trail::{EmptyLog, LogPass, LogTold, OpenedLog, open_log};

mod ask;
mod astray;
mod attaching;
mod bounds;
mod calls;
mod claiming;
mod closing;
mod copy_round;
mod counts;
mod door;
mod doubts;
mod ending;
mod gated_steps;
mod gating;
mod glance;
mod hearing;
mod held;
mod initial_sync;
mod last_entries;
mod legs;
mod lock;
pub mod log_laws;
mod marked_opening;
mod mirror;
mod mirror_fault;
mod opening;
mod own_looks;
mod own_steps;
mod part_lane;
mod pass;
mod pass_shard;
mod refused;
mod reopening;
mod repair;
mod replacing;
mod resync;
mod save_desk;
mod save_order;
mod save_taking;
mod saving;
mod session_trail;
mod settling;
mod shutting;
mod sight;
mod status;
mod stripe_end;
mod totals;
mod trail;
mod unclaimed;
mod verify;
mod whole;
mod writes;
