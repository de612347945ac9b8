//! What cares for a mirror's legs, and the control port that answers for it.
//!
//! Legs are copied, compared, attached again, replaced and opened anew: that it is safe is proved.
#![tactic(auto)]

mod answering;
mod answering_meanwhile;
mod control_port;
mod controlled;
mod copied_mirror;
mod copier;
mod copy_orders;
mod copy_pacer;
mod due_syncs;
mod finding;
mod healing;
mod leg_answers;
mod leg_watch;
mod missing_legs;
mod reopening;
mod repairs;
mod replacing;
mod resync;
mod retiring;
mod stopped;
mod stripe_history;
mod verifier;
mod verify_answers;
mod verify_desk;
mod verify_text;
mod whole;

pub use crate::answering::{AnswersControl, control};
pub use crate::answering_meanwhile::answer_meanwhile;
pub use crate::control_port::serve_control;
pub use crate::controlled::Controlled;
pub use crate::copied_mirror::CopiedMirror;
pub use crate::copier::Copier;
pub use crate::copy_orders::CopyOrders;
pub use crate::healing::Healing;
pub use crate::leg_watch::LegWatch;
pub use crate::missing_legs::MissingLegs;
pub use crate::reopening::{ReopenCounts, reopen};
pub use crate::replacing::{LegRenewer, RenewsLegs, Replaced};
pub use crate::resync::resynchronise;
pub use crate::retiring::Retired;
