//! What a session's owner has, what a round of it finds, and what comes of the round.
use nm_mailbox::Inbox;
use nm_replies::ReplyWriter;
use nm_session::{Served, SessionCore};

// What one thread of a session has to itself: the core and the log, the inbox to which the others
// send, and the writer of the replies.
#[derive(Drop)]
pub struct Owner<O, M: Drop, G> {
    pub(crate) core: SessionCore,
    pub(crate) log: G,
    pub(crate) inbox: Inbox<M>,
    pub(crate) sender: ReplyWriter<O>,
}

// Why no further request is handed out.
#[derive(Clone, Copy, PartialEq, Eq)]
pub enum NoRequest {
    // No whole request is there.
    Starved,
    // As many requests are outstanding as may be.
    Full,
    // Nothing more is read.
    Ended,
}

// What is known of the client's bytes that were not received yet.
#[derive(Clone, Copy, PartialEq, Eq)]
pub enum ReadState {
    // No read is under way.
    Idle,
    // A piece is to come.
    Pending,
    // They have ended.
    Eof,
}

// A lull in the requests: why no further one is handed out, and what is known of the client's bytes
// that were not received yet.
#[derive(Clone, Copy)]
pub struct Lull {
    pub(crate) why: NoRequest,
    pub(crate) state: ReadState,
}

// What came of a round. It tells what is known of the client's bytes.
#[derive(Clone, Copy)]
pub enum Round {
    // It goes on.
    Continue(ReadState),
    // It goes on, but another is to read from now on: the owner, or a thread.
    SwitchReader(ReadState),
    // The session is over.
    Done(Served),
}
