ghost use Rattle.std.specs.Prelude.{◌≡◌, true};
ghost use Rattle.crossbeam_channel.specs.Claims.{view, IsSeatAt};
ghost use Rattle.crossbeam_channel.specs.Ends.{receives_on};

use crate::message::Message;
use crate::rule::{InOrder, Log, Receives};
use crossbeam_channel::{Pass, RuledReceiver};
use std::sync::Wait;

/// The end that receives; a mailbox has one.
#[derive(Drop)]
pub struct Inbox<O: Drop> {
    pub(crate) receiver: RuledReceiver<Message<O>, Log<O>, InOrder>,
    pub(crate) pass: Pass<Message<O>, Log<O>>,
    ghost seated: { IsSeatAt (receives_on receiver) pass },
    ghost role: { (view pass).receives ≡ true },
}

impl<O: Drop> Inbox<O> {
    ghost use Rattle.std.specs.Prelude.{[], ◌∷◌, ◌++◌, IfSome, IfNone};
    ghost use Rattle.nm_mailbox.specs.Ends.{received_by, IsSameInbox};

    /// Receives the oldest message, and waits for one while there is an end that could send it.
    pub fn recv<R: Wait>(&mut self, rt: &R) -> Option<Message<O>>
        ensures some { IfSome result
            (λ message. received_by self.new ≡ received_by self.old ++ message ∷ []) }
        ensures none { IfNone result (received_by self.new ≡ received_by self.old) }
        ensures channel { IsSameInbox self.new self.old }
    {
        self.receiver
            .recv_as::<Receives, R>(rt, &mut self.pass)
            .ok()
    }

    /// Receives the oldest message, if one waits.
    pub fn try_recv<R: Wait>(&mut self, rt: &R) -> Option<Message<O>>
        ensures some { IfSome result
            (λ message. received_by self.new ≡ received_by self.old ++ message ∷ []) }
        ensures none { IfNone result (received_by self.new ≡ received_by self.old) }
        ensures channel { IsSameInbox self.new self.old }
    {
        match self.receiver.try_recv_as::<Receives, R>(rt, &mut self.pass) {
            Ok(message) => Some(message),
            Err(_) => None,
        }
    }
}
