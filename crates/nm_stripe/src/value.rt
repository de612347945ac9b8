ghost use Rattle.std.specs.Prelude.{◌≡◌, ◌+◌, ◌<◌, ◌≤◌, ◌^◌};

use crate::receipt::Receipt;
use crate::room::Room;
use std::marker::Model;

/// The answer of a read: the blocks' bytes, and the read's entries in the stripe's history.
///
/// Only a `Stripe<L>` makes one, as it does the step `Step::Read`: the bytes are those that this
/// read got from a leg that is current there, the master or another.
#[derive(Drop)]
pub struct Value<L> {
    pub(crate) receipt: Receipt<L>,
    pub(crate) room: Room,
}

impl<L> Model for Value<L> {
    ghost use Rattle.nm_stripe.specs.Names.{ReadBytes};

    ghost Value = { ReadBytes };

    ghost view = { λ v. record { names = v.receipt; bytes = v.room } };
}

impl<L> Value<L> {
    /// The stripe's number.
    pub fn stripe(&self) -> u32
        ensures { result ≡ self.now.names.stripe }
    {
        self.receipt.stripe()
    }

    /// The first block, by its number in the stripe.
    pub fn block(&self) -> u64
        ensures { result ≡ self.now.names.block }
    {
        self.receipt.block()
    }

    /// The number of the first block's entry. Each further block has the next number, and all are
    /// below 2^63.
    pub fn number(&self) -> u64
        ensures number { result ≡ self.now.names.number }
        ensures below { result < 2 ^ 63 }
        ensures last { result + self.now.names.count ≤ 2 ^ 63 }
    {
        self.receipt.number()
    }

    /// How many blocks were read: at least one and at most 128.
    pub fn count(&self) -> u64
        ensures count { result ≡ self.now.names.count }
        ensures some { 0 < result }
        ensures most { result ≤ 128 }
    {
        self.receipt.count()
    }

    /// The blocks' bytes.
    pub fn bytes(&self) -> &[u8]
        ensures { result.now ≡ self.now.bytes }
    {
        self.room.bytes()
    }

    /// The room that was handed in, with the blocks' bytes.
    pub fn into_room(self) -> Room
        ensures { result ≡ self.bytes }
    {
        self.room
    }
}
