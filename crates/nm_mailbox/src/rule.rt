//! The rule of a mailbox's channel, which stands in proofs alone: what each end knows of what it
//! did, and how this and the messages that wait belong together.

use crate::message::{Message, Piece};
use crossbeam_channel::protocol::{Join, Lesson, Outcome, Protocol, Split};
use std::collections::LinkedList;

/// What one end may do and what it did. No value of it is ever made.
pub struct Log<O: Drop> {
    /// Whether it may send pieces.
    pub sends: bool,
    /// Whether it may receive.
    pub receives: bool,
    /// The pieces that it sent.
    pub pieces: LinkedList<Piece>,
    /// The outcomes that it sent.
    pub outcomes: LinkedList<O>,
    /// The messages that it received.
    pub received: LinkedList<Message<O>>,
}

/// The pieces sent are those received and then those that wait, in order.
pub struct InOrder;

impl<O: Drop> Protocol<Message<O>, Log<O>> for InOrder {
    ghost use Rattle.std.specs.Prelude.{true, []};
    ghost use Rattle.nm_mailbox.specs.Rule.{log, Delivers};

    ghost holds = { Delivers };

    ghost first = { log true true [] [] [] };
}

// A message is sent.
pub(crate) struct Sends;

impl<O: Drop> Outcome<Message<O>, Log<O>> for Sends {
    ghost use Rattle.nm_mailbox.specs.Rule.{HasSent};

    ghost then = { HasSent };
}

impl<O: Drop> Lesson<Message<O>, Log<O>> for Sends {
    ghost use Rattle.std.specs.Prelude.{⊤};

    ghost fact = { λ log waiting. ⊤ };
}

// A message is received.
pub(crate) struct Receives;

impl<O: Drop> Outcome<Message<O>, Log<O>> for Receives {
    ghost use Rattle.nm_mailbox.specs.Rule.{HasReceived};

    ghost then = { HasReceived };
}

impl<O: Drop> Lesson<Message<O>, Log<O>> for Receives {
    ghost use Rattle.std.specs.Prelude.{⊤};

    ghost fact = { λ log waiting. ⊤ };
}

// The end that sends pieces, and the one that receives.
pub(crate) struct Halves;

impl<O: Drop> Split<Log<O>> for Halves {
    ghost use Rattle.nm_mailbox.specs.Rule.{sending_half, receiving_half};

    ghost left = { sending_half };

    ghost right = { receiving_half };
}

impl<O: Drop> Join<Log<O>> for Halves {
    ghost use Rattle.nm_mailbox.specs.Rule.{whole, bystander};

    ghost both = { λ receiving sending. whole sending receiving };

    ghost spent = { bystander };
}

// One more end that sends outcomes.
pub(crate) struct Worker;

impl<O: Drop> Split<Log<O>> for Worker {
    ghost use Rattle.nm_mailbox.specs.Rule.{bystander};

    ghost left = { λ log. log };

    ghost right = { λ log. bystander };
}

// What both halves together know of the pieces.
pub(crate) struct Total;

impl<O: Drop> Lesson<Message<O>, Log<O>> for Total {
    ghost use Rattle.nm_mailbox.specs.Rule.{Accounts};

    ghost fact = { Accounts };
}
