//! A move of a stripe behind its gate.
use bytes::Bytes;
use nm_book::Legality;
use nm_gate::GatedStripe;
use nm_leg::LegPart;
use nm_stripe::{Answer, Room, Step};
use std::marker::PhantomData;

/// What is done to a stripe and its gate under the stripe's lock. No value of it is made.
pub enum Move<L> {
    /// The stripe opens, or opens anew once it has stopped.
    Opens,
    /// A step that the gate let pass, with its answer.
    Does(Step<L>, Answer<L>),
    /// This leg, in sync, is looked at from this block on, and has these bytes there, or fails.
    Looks(u8, u64, Option<Room>),
    /// A save begins, ends or fails: the durable superblock may say something else.
    Saves,
    /// Marks are cleared, where the legs are equal.
    Clears,
    /// This leg, which is out, loses power. No code notes it: what it lost shows once it is back.
    Loses(u8),
}

/// A move, and the stripe and its gate as it left them.
pub struct Transition<L: LegPart> {
    pub made: Move<L>,
    pub to: GatedStripe<L>,
}

/// What is noted in the log of a mirror. No value of it is made.
pub enum Noted<L: LegPart> {
    /// A transition of a stripe.
    Moved(Transition<L>),
    /// A session's request came, with its index among those of the session, and its payload.
    Asked(u64, Bytes),
    /// A pass took in a beginning of the log, of so many entries.
    Heard(u64),
}

/// Which lists of entries are legal in the shard of each number, of a stripe on legs of this type,
/// of a session or of a pass.
pub struct Legal<L> {
    of: PhantomData<L>,
}

impl<L: LegPart> Legality<Noted<L>> for Legal<L> {
    ghost use Rattle.nm_leg.specs.Leg.{leg_type};
    ghost use Rattle.nm_history.specs.Notes.{LegalNotes};

    ghost legal = { LegalNotes (leg_type L.model L.honest) };
}
