ghost use Rattle.std.specs.Prelude.{◌≡◌, false};
ghost use Rattle.crossbeam_channel.specs.Claims.{view, IsSeatAt};
ghost use Rattle.crossbeam_channel.specs.Ends.{sends_on};

use crate::message::Message;
use crate::rule::{InOrder, Log, Sends};
use crossbeam_channel::{Pass, RuledSender, SendError};
use std::sync::Wait;

/// An end that sends outcomes; a mailbox has one for each worker.
#[derive(Drop)]
pub struct OutcomeEnd<O: Drop> {
    pub(crate) sender: RuledSender<Message<O>, Log<O>, InOrder>,
    pub(crate) pass: Pass<Message<O>, Log<O>>,
    ghost seated: { IsSeatAt (sends_on sender) pass },
    ghost role: { (view pass).sends ≡ false },
}

impl<O: Drop> OutcomeEnd<O> {
    ghost use Rattle.std.specs.Prelude.{[], ◌∷◌, ◌++◌, MatchResult};
    ghost use Rattle.nm_mailbox.specs.Ends.{outcomes_by, IsSameOutcomeEnd};

    /// Sends an outcome, and waits while the mailbox is full. Where the inbox is gone the outcome
    /// comes back.
    pub fn send<R: Wait>(&mut self, rt: &R, outcome: O) -> Result<(), O>
        ensures sent { MatchResult result
            (λ _. outcomes_by self.new ≡ outcomes_by self.old ++ outcome ∷ [])
            (λ back. (back ≡ outcome) × (outcomes_by self.new ≡ outcomes_by self.old)) }
        ensures channel { IsSameOutcomeEnd self.new self.old }
    {
        match self
            .sender
            .send_as::<Sends, R>(rt, &mut self.pass, Message::Outcome(outcome))
        {
            Ok(()) => Ok(()),
            Err(error) => match error.into_inner() {
                Message::Outcome(outcome) => Err(outcome),
                Message::Piece(_) => unreachable!(),
            },
        }
    }
}
