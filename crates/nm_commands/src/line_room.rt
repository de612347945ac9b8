ghost use Rattle.std.specs.Prelude.{◌≡◌, ◌≤◌, [], length};
ghost use Rattle.nm_commands.specs.Feeding.{Feeds};

use std::marker::Model;

/// How many bytes a control line has at most, without its LF.
pub const MOST_BYTES: usize = 64;

/// What a byte makes of a line.
#[derive(Clone, Copy, PartialEq, Eq)]
pub enum Fed {
    /// The line goes on.
    More,
    /// The line is whole.
    Whole,
    /// The line is too long.
    TooLong,
}

/// Room for one control line. Contracts see the bytes of the line that were taken so far.
#[derive(Drop)]
pub struct LineRoom {
    bytes: [u8; MOST_BYTES],
    len: usize,
}

impl Model for LineRoom {
    ghost use Rattle.std.specs.Prelude.{ℕ, ◌≤◌, List, take};

    ghost Value = { List ℕ };

    ghost view = { λ room. take room.len room.bytes };

    ghost invariant = { λ room. room.len ≤ 64 };
}

impl LineRoom {
    /// Room for a line of which nothing was read.
    pub fn new() -> LineRoom
        ensures { result ≡ [] }
    {
        LineRoom {
            bytes: [0; MOST_BYTES],
            len: 0,
        }
    }

    /// Takes the next byte of a connection. The line is kept as it was where this byte ends it, and
    /// where there is no room for the byte.
    pub fn feed(&mut self, byte: u8) -> Fed
        ensures { Feeds self.old byte result self.new }
    {
        if byte == b'\n' {
            return Fed::Whole;
        }
        if self.len == MOST_BYTES {
            return Fed::TooLong;
        }
        self.bytes[self.len] = byte;
        self.len += 1;
        Fed::More
    }

    /// The line's bytes, 64 at most.
    pub fn line(&self) -> &[u8]
        ensures bytes { result.now ≡ self.now }
        ensures few { length result.now ≤ 64 }
    {
        &self.bytes[..self.len]
    }

    /// Begins the next line.
    pub fn clear(&mut self)
        ensures { self.new ≡ [] }
    {
        self.len = 0;
    }
}
