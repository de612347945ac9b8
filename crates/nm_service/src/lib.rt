//! What a server keeps in order while it serves, as plain data: the lines that wait to be written,
//! what happens again and again and is told now and then, when a leg is attached again by itself
//! and how often, what is ordered of each leg, how long a copy rests, which session has been idle
//! too long, times by powers of two, metrics and sizes as text, which connection of the control
//! port has to make room, and how well a mirror is, in one word.
//!
//! It starts no thread, waits for nothing and reads no clock: its callers say what time it is.
#![tactic(auto)]

mod auto_attach;
mod copy_pace;
mod health;
mod idle;
mod interval;
mod latency;
mod leg_change;
mod leg_orders;
mod line_queue;
mod mebibytes;
mod metric_text;
mod read_returns;
mod repeats;
mod seats;
mod severity;

pub use crate::auto_attach::{AttachTime, AutoAttach, LegEvent, event_of};
pub use crate::copy_pace::{CopyTurn, rest_after};
pub use crate::health::{Ailments, Health};
pub use crate::idle::{LastChange, SessionUse};
pub use crate::interval::Interval;
pub use crate::latency::{LATENCY_BUCKETS, latency_bucket};
pub use crate::leg_change::{LegChange, LegSight};
pub use crate::leg_orders::{LegOrder, LegOrders};
pub use crate::line_queue::LineQueue;
pub use crate::mebibytes::Mebibytes;
pub use crate::metric_text::{put_heading, put_sample};
pub use crate::read_returns::ReadReturns;
pub use crate::repeats::Repeats;
pub use crate::seats::{Seat, idle_longest};
pub use crate::severity::Severity;
