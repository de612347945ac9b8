//! The channel by which the owner of a session's core permits the reading thread to read. It
//! takes no lock, and wakes the reading thread only where that one sleeps.
ghost use Rattle.std.specs.Prelude.{◌≡◌, ◌<◌, []};
ghost use Rattle.nm_session.specs.Reading.{IsStarved};
ghost use Rattle.nm_workers.specs.declared.round.ReadState.TheVariants.{Idle};
ghost use Rattle.nm_workers.specs.Moving.{HasNoRequest};
ghost use Rattle.crossbeam_channel.specs.Claims.{IsSeatAt};
ghost use Rattle.crossbeam_channel.specs.Ends.{sends_on, receives_on};

use crate::read_buffer::{ReadBuffer, Room};
use crate::round::{Lull, NoRequest, ReadState};
use crossbeam_channel::protocol::{Free, Split};
use crossbeam_channel::{Pass, RuledReceiver, RuledSender, bounded_with};
use nm_session::SessionCore;
use nm_wire::Memory;
use std::alloc::{AllocError, Global};
use std::sync::Wait;

// The permit to read one piece, with the room that it is read into.
#[derive(Drop)]
pub struct ReadPermit {
    room: Room,
    ghost empty: { room.bytes.items ≡ [] },
    ghost some: { 0 < room.bytes.spare },
    ghost wanted: { 0 < room.wanted },
}

impl ReadPermit {
    // The permit to read the next piece, where no whole request is there, no piece is still to
    // come, and the client's bytes have not ended.
    pub(crate) fn next(
        alloc: Global,
        core: &SessionCore,
        lull: Lull,
        room: &mut ReadBuffer,
    ) -> Result<Option<ReadPermit>, Memory>
        requires why { HasNoRequest lull.why core.now }
    {
        match (lull.why, lull.state) {
            (NoRequest::Starved, ReadState::Idle) => Ok(Some(ReadPermit::new(
                alloc, core, lull.state, room,
            )?)),
            _ => Ok(None),
        }
    }

    // A permit with this room, where no whole request is there and no read is under way.
    fn new(
        alloc: Global,
        core: &SessionCore,
        _state: ReadState,
        room: &mut ReadBuffer,
    ) -> Result<ReadPermit, Memory>
        requires starved { IsStarved core.now }
        requires idle { _state ≡ Idle }
    {
        let room = room.take(alloc, core.missing())?;
        Ok(ReadPermit { room })
    }

    // The room.
    pub(crate) fn into_room(self) -> Room
        ensures empty { result.bytes.items ≡ [] }
        ensures some { 0 < result.bytes.spare }
        ensures wanted { 0 < result.wanted }
    {
        let ReadPermit { room } = self;
        room
    }
}

// How many permits wait at most: the next one is given once the piece for the last one has come.
const WAITING: usize = 1;

// The end that gives permits.
#[derive(Drop)]
pub struct PermitSender {
    sender: RuledSender<ReadPermit, (), Free>,
    pass: Pass<ReadPermit, ()>,
    ghost seated: { IsSeatAt (sends_on sender) pass },
}

impl PermitSender {
    // Gives a permit. False where the reading thread is gone.
    pub(crate) fn send<R: Wait>(&mut self, rt: &R, permit: ReadPermit) -> bool {
        self.sender
            .send_as::<Free, R>(rt, &mut self.pass, permit)
            .is_ok()
    }
}

// The end that gets them.
#[derive(Drop)]
pub struct PermitReceiver {
    receiver: RuledReceiver<ReadPermit, (), Free>,
    pass: Pass<ReadPermit, ()>,
    ghost seated: { IsSeatAt (receives_on receiver) pass },
}

impl PermitReceiver {
    // Waits for a permit. `None` where no further one comes.
    pub(crate) fn recv<R: Wait>(&mut self, rt: &R) -> Option<ReadPermit> {
        self.receiver.recv_as::<Free, R>(rt, &mut self.pass).ok()
    }
}

// A pass for each of the two ends. Neither knows anything.
struct TwoEnds;

impl Split<()> for TwoEnds {
    ghost left = { λ pass. tt };

    ghost right = { λ pass. tt };
}

// The two ends.
pub(crate) fn permit_channel(alloc: Global) -> Result<(PermitSender, PermitReceiver), AllocError> {
    let (sender, receiver, mut pass) = bounded_with(alloc, WAITING)?;
    let receiving = sender.another::<TwoEnds>(&mut pass);
    let receiver = PermitReceiver {
        receiver,
        pass: receiving,
    };
    Ok((PermitSender { sender, pass }, receiver))
}
