ghost use Rattle.std.specs.Prelude.{◌≡◌, ◌≤◌, ◌↔◌, false, length, IsTrue, IsFalse};
ghost use Rattle.nm_leg.specs.Call.{ActsOn};
ghost use Rattle.nm_leg.specs.HandedOut.{Fits, blocks_asked, call_of, found_of, is_read};
ghost use Rattle.nm_leg.specs.HandedOut.{room_asked};

use crate::called_leg::CalledLeg;
use crate::leg_answer::LegAnswer;
use crate::zeroes::zero_run;
use crate::{Asks, CallTag, LegPart};
use nm_replay::BLOCK_BYTES;

/// A leg call that was handed out and is to be made once. It cannot be copied.
///
/// Who hands out calls has a type `S` of its own, of which nobody else can make a value: so nobody
/// else makes up its calls, and none of their answers.
#[derive(Drop)]
pub struct LegCall<S: Drop> {
    seal: S,
    tag: CallTag,
    block: u64,
    asks: Asks,
    ghost few: { blocks_asked asks ≤ 128 },
}

impl<S: Drop> LegCall<S> {
    /// A call from this block on, for whoever has the seal.
    pub fn new(seal: S, tag: CallTag, block: u64, asks: Asks) -> LegCall<S>
        requires few { blocks_asked asks ≤ 128 }
        ensures tag { result.tag ≡ tag }
        ensures asks { (result.block ≡ block) × (result.asks ≡ asks) }
    {
        LegCall {
            seal,
            tag,
            block,
            asks,
        }
    }

    /// By what its answer is known.
    pub fn tag(&self) -> CallTag
        ensures { result ≡ self.now.tag }
    {
        self.tag
    }

    /// How many bytes of its maker's room the call takes: for what it reads, or of what it writes.
    pub fn room(&self) -> usize
        ensures { result ≡ room_asked self.now.asks }
    {
        self.asks.room()
    }

    /// Whether the call lies inside a leg of so many blocks, and takes a room of this length.
    pub fn fits(&self, blocks: u64, room: usize) -> bool
        ensures { IsTrue result ↔ Fits self.now.asks self.now.block blocks room }
    {
        if room != self.asks.room() {
            return false;
        }
        let is_inside = self.block <= blocks && self.asks.blocks() <= blocks - self.block;
        match &self.asks {
            Asks::Sync => true,
            Asks::Write(bytes) => {
                is_inside && !bytes.is_empty() && bytes.len() % BLOCK_BYTES == 0
            }
            Asks::Read(count) | Asks::Zero(count) => is_inside && *count > 0,
            Asks::Merged => is_inside,
        }
    }

    /// Makes the call of a leg that others may call meanwhile. Where no look is given, a write
    /// looks first. A call that does not fit the leg or the room is not made, and has failed.
    pub fn make<L: CalledLeg>(self, leg: &L, look: Option<L::Look>, room: &mut [u8]) -> LegAnswer<S>
        ensures tag { result.tag ≡ self.tag }
        ensures answers { Fits self.asks self.block (L.blocks leg.now) (length room.old)
            → L.answers leg.now (call_of self.asks self.block room.old)
            (found_of self.asks result.done room.new) }
        ensures stays { is_read self.asks ≡ false → room.new ≡ room.old }
        ensures unfit { ¬ Fits self.asks self.block (L.blocks leg.now) (length room.old)
            → IsFalse result.done × (room.new ≡ room.old) }
    {
        let done = self.fits(leg.len(), room.len()) && self.ask(leg, look, room);
        self.answered(done)
    }

    /// Makes the call of a leg that nobody else calls meanwhile. A call that does not fit the leg
    /// or the room is not made, and has failed.
    pub fn make_alone<L: LegPart>(self, leg: &mut L, room: &mut [u8]) -> LegAnswer<S>
        ensures tag { result.tag ≡ self.tag }
        ensures acts { Fits self.asks self.block (length (L.model leg.old).contents)
            (length room.old)
            → ActsOn L.honest (call_of self.asks self.block room.old)
            (found_of self.asks result.done room.new) (L.model leg.old) (L.model leg.new) }
        ensures stays { is_read self.asks ≡ false → room.new ≡ room.old }
        ensures unfit { ¬ Fits self.asks self.block (length (L.model leg.old).contents)
            (length room.old)
            → IsFalse result.done × (room.new ≡ room.old) × (leg.new ≡ leg.old) }
    {
        let done = self.fits(leg.len(), room.len()) && self.ask_alone(leg, room);
        self.answered(done)
    }

    /// The answer to the call, which was made.
    fn answered(self, done: bool) -> LegAnswer<S>
        ensures { (result.tag ≡ self.tag) × (result.done ≡ done) }
    {
        let LegCall { seal, tag, .. } = self;
        LegAnswer { seal, tag, done }
    }

    /// Asks a leg that others may call meanwhile. Whether the call succeeded.
    fn ask<L: CalledLeg>(&self, leg: &L, look: Option<L::Look>, room: &mut [u8]) -> bool
        requires { Fits self.now.asks self.now.block (L.blocks leg.now) (length room.old) }
        ensures answers { L.answers leg.now (call_of self.now.asks self.now.block room.old)
            (found_of self.now.asks result room.new) }
        ensures stays { is_read self.now.asks ≡ false → room.new ≡ room.old }
    {
        match &self.asks {
            Asks::Read(_) => leg.read(self.block, room).is_ok(),
            Asks::Write(bytes) => {
                let look = look_or(leg, look);
                leg.write(look, self.block, bytes.as_slice()).is_ok()
            }
            Asks::Zero(count) => {
                let look = look_or(leg, look);
                leg.zero(look, self.block, u64::from(*count)).is_ok()
            }
            Asks::Merged => {
                let look = look_or(leg, look);
                leg.write(look, self.block, room).is_ok()
            }
            Asks::Sync => leg.sync().is_ok(),
        }
    }

    /// Asks a leg that nobody else calls meanwhile. Whether the call succeeded.
    fn ask_alone<L: LegPart>(&self, leg: &mut L, room: &mut [u8]) -> bool
        requires { Fits self.now.asks self.now.block (length (L.model leg.old).contents)
            (length room.old) }
        ensures acts { ActsOn L.honest (call_of self.now.asks self.now.block room.old)
            (found_of self.now.asks result room.new) (L.model leg.old) (L.model leg.new) }
        ensures stays { is_read self.now.asks ≡ false → room.new ≡ room.old }
    {
        match &self.asks {
            Asks::Read(_) => leg.read(self.block, room).is_ok(),
            Asks::Write(bytes) => leg.write(self.block, bytes.as_slice()).is_ok(),
            Asks::Zero(count) => leg.write(self.block, zero_run(*count as usize)).is_ok(),
            Asks::Merged => leg.write(self.block, room).is_ok(),
            Asks::Sync => leg.sync().is_ok(),
        }
    }
}

/// The look that is given, or one that is made now.
fn look_or<L: CalledLeg>(leg: &L, look: Option<L::Look>) -> L::Look {
    match look {
        Some(look) => look,
        None => leg.look(),
    }
}
