//! What a session's threads tell the thread that owns its core: pieces of the client's bytes, and
//! the outcomes of its requests, through one channel.
//!
//! The pieces that are received are a beginning of those sent, in order and each once, whatever the
//! threads do.
#![tactic(auto)]

pub use inbox::Inbox;
pub use message::{Message, Piece};
pub use opening::mailbox;
pub use outcome_end::OutcomeEnd;
pub use piece_end::PieceEnd;
pub use rule::{InOrder, Log};

mod inbox;
mod message;
mod opening;
mod outcome_end;
mod piece_end;
mod rule;
