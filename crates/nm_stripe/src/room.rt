ghost use Rattle.std.specs.Prelude.{◌≡◌};

use std::marker::Model;

/// The room for the bytes of a read: it is handed in with the step, and comes back with the answer.
#[derive(Drop)]
pub struct Room {
    pub(crate) bytes: Vec<u8>,
}

impl Model for Room {
    ghost use Rattle.std.specs.Prelude.{ℕ, List};

    ghost Value = { List ℕ };

    ghost view = { λ r. r.bytes.items };
}

impl Room {
    /// These bytes, as room for others. A read takes 512 of them for each block.
    pub fn new(bytes: Vec<u8>) -> Room
        ensures room { result ≡ bytes.items }
    {
        Room { bytes }
    }

    /// The bytes, lent.
    pub fn bytes(&self) -> &[u8]
        ensures bytes { result.now ≡ self.now }
    {
        &self.bytes
    }

    /// The bytes, given back.
    pub fn into_bytes(self) -> Vec<u8>
        ensures bytes { result.items ≡ self }
    {
        self.bytes
    }
}
