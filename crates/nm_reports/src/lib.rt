//! What the server tells: its log lines, what happens to legs, its metrics, how far a start is, and
//! why it does not start.
//!
//! It opens nothing. What is told of a mirror is asked of it here.
#![tactic(auto)]

mod address;
mod call_counts;
mod elapsed;
mod failed_reads;
mod fault_line;
mod incidents;
mod leg_counts;
mod leg_doubts;
mod leg_lines;
mod leg_story;
mod leg_trouble;
mod leg_words;
mod log_form;
mod log_lines;
mod metrics;
mod metrics_page;
mod metrics_text;
mod mirror_call;
mod mirror_doubts;
mod outage;
mod progress;
mod reason;
mod save_status;
mod server_info;
mod server_metrics;
mod start_fault;
mod superblock_names;
mod unbound;
mod unread;
mod verified;

pub use crate::address::{Address, Port};
pub use crate::call_counts::{CallCounts, CallTotals, MirrorCallKind, bytes_of};
pub use crate::elapsed::{microseconds_since, milliseconds_since};
pub use crate::failed_reads::{FailedRead, FailedReads};
pub use crate::fault_line::put_fault;
pub use crate::incidents::Incident;
pub use crate::leg_counts::{LegCall, LegCounts};
pub use crate::leg_doubts::{Failure, LegDoubts};
pub use crate::leg_lines::LegLines;
pub use crate::leg_story::LegStory;
pub use crate::leg_trouble::{FileCall, LegTrouble, NOT_MADE};
pub use crate::log_form::LogForm;
pub use crate::log_lines::LogLines;
pub use crate::metrics::Metrics;
pub use crate::metrics_text::put_metrics;
pub use crate::mirror_call::MirrorCall;
pub use crate::mirror_doubts::{MirrorDoubts, is_printable};
pub use crate::outage::{LastOutage, Outage};
pub use crate::progress::{Comparison, tell_progress};
pub use crate::reason::{Unopened, tell_reason};
pub use crate::save_status::{SaveStatus, Saved};
pub use crate::server_info::ServerInfo;
pub use crate::server_metrics::Known;
pub use crate::start_fault::StartFault;
pub use crate::superblock_names::superblock_name;
pub use crate::unbound::Unbound;
pub use crate::unread::{UnreadList, region_bytes};
pub use crate::verified::Verified;
