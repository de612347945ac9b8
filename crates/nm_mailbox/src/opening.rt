ghost use Rattle.std.specs.Prelude.{◌≡◌, [], IfOk, All, vec_len};
ghost use Rattle.nm_mailbox.specs.Ends.{pieces_by, outcomes_by, received_by};
ghost use Rattle.nm_mailbox.specs.Ends.{room_of, SendsTo, TellsTo};

use crate::inbox::Inbox;
use crate::message::Message;
use crate::outcome_end::OutcomeEnd;
use crate::piece_end::PieceEnd;
use crate::rule::{Halves, InOrder, Log};
use crossbeam_channel::bounded_with;
use std::alloc::{AllocError, Global};

// How many messages wait at most.
const ROOM: usize = 32;

/// A mailbox for 32 messages: the end that sends pieces, an end that sends outcomes for each of so
/// many workers, and the inbox that receives both.
pub fn mailbox<O: Drop>(
    alloc: Global,
    workers: usize,
) -> Result<(PieceEnd<O>, Vec<OutcomeEnd<O>>, Inbox<O>), AllocError>
    ensures room { IfOk result (λ r. room_of r.2 ≡ 32) }
    ensures pieces { IfOk result (λ r. SendsTo r.0 r.2) }
    ensures outcomes { IfOk result (λ r. All (λ end. TellsTo end r.2) r.1.items) }
    ensures workers { IfOk result (λ r. vec_len r.1 ≡ workers) }
    ensures sent { IfOk result (λ r. (pieces_by r.0 ≡ [])
        × All (λ end. outcomes_by end ≡ []) r.1.items) }
    ensures received { IfOk result (λ r. received_by r.2 ≡ []) }
{
    let (sender, receiver, mut pass) = bounded_with(alloc, ROOM)?;
    let receiving = sender.another::<Halves>(&mut pass);
    let mut pieces = PieceEnd { sender, pass };
    let mut outcomes = Vec::with_capacity(alloc, workers)?;
    for _ in 0..workers {
        outcomes.push(pieces.outcome_end()?)?;
    }
    let inbox = Inbox {
        receiver,
        pass: receiving,
    };
    Ok((pieces, outcomes, inbox))
}
