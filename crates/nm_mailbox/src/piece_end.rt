ghost use Rattle.std.specs.Prelude.{◌≡◌, true};
ghost use Rattle.crossbeam_channel.specs.Claims.{view, IsSeatAt};
ghost use Rattle.crossbeam_channel.specs.Ends.{sends_on};

use crate::inbox::Inbox;
use crate::message::{Message, Piece};
use crate::outcome_end::OutcomeEnd;
use crate::rule::{Halves, InOrder, Log, Sends, Total, Worker};
use crossbeam_channel::{Pass, RuledSender, SendError};
use std::alloc::AllocError;
use std::sync::Wait;

/// The end that sends pieces; a mailbox has one.
#[derive(Drop)]
pub struct PieceEnd<O: Drop> {
    pub(crate) sender: RuledSender<Message<O>, Log<O>, InOrder>,
    pub(crate) pass: Pass<Message<O>, Log<O>>,
    ghost seated: { IsSeatAt (sends_on sender) pass },
    ghost role: { (view pass).sends ≡ true },
}

impl<O: Drop> PieceEnd<O> {
    ghost use Rattle.std.specs.Prelude.{[], ◌∷◌, ◌++◌, IfOk, MatchResult};
    ghost use Rattle.nm_mailbox.specs.Messages.{pieces_of, IsBeginning};
    ghost use Rattle.nm_mailbox.specs.Ends.{pieces_by, outcomes_by, received_by};
    ghost use Rattle.nm_mailbox.specs.Ends.{SendsTo, IsBeside, IsSameEnd, IsSameInbox};

    /// Sends a piece, and waits while the mailbox is full. Where the inbox is gone the piece comes
    /// back.
    pub fn send<R: Wait>(&mut self, rt: &R, piece: Piece) -> Result<(), Piece>
        ensures sent { MatchResult result
            (λ _. pieces_by self.new ≡ pieces_by self.old ++ piece ∷ [])
            (λ back. (back ≡ piece) × (pieces_by self.new ≡ pieces_by self.old)) }
        ensures channel { IsSameEnd self.new self.old }
    {
        match self
            .sender
            .send_as::<Sends, R>(rt, &mut self.pass, Message::Piece(piece))
        {
            Ok(()) => Ok(()),
            Err(error) => match error.into_inner() {
                Message::Piece(piece) => Err(piece),
                Message::Outcome(_) => unreachable!(),
            },
        }
    }

    // One more end of the same mailbox, which sends outcomes.
    pub(crate) fn outcome_end(&mut self) -> Result<OutcomeEnd<O>, AllocError>
        ensures mailbox { IfOk result (λ end. IsBeside end self.old) }
        ensures outcomes { IfOk result (λ end. outcomes_by end ≡ []) }
        ensures pieces { pieces_by self.new ≡ pieces_by self.old }
        ensures channel { IsSameEnd self.new self.old }
    {
        let pass = self.sender.another::<Worker>(&mut self.pass);
        let sender = self.sender.try_clone()?;
        Ok(OutcomeEnd { sender, pass })
    }

    /// Ends the sending: what the inbox received of the pieces is a beginning of what was sent.
    pub fn settle(self, inbox: &mut Inbox<O>)
        requires { SendsTo self inbox.old }
        ensures beginning { IsBeginning (pieces_of (received_by inbox.old)) (pieces_by self) }
        ensures received { received_by inbox.new ≡ received_by inbox.old }
        ensures channel { IsSameInbox inbox.new inbox.old }
    {
        let PieceEnd { sender, pass } = self;
        sender.absorb::<Halves>(&mut inbox.pass, pass);
        sender.learn_as::<Total>(&mut inbox.pass);
    }
}
