ghost use Rattle.std.specs.Prelude.{◌≡◌, ◌<◌, ◌*◌, ◌+◌, ◌↔◌, IsTrue, replicate};
ghost use Rattle.nm_superblock.specs.Identities.{IsKnown, IsSameIdentity, Puts};

/// For each of 8 legs the identity of its file or device, as four numbers: the SHA-256 of the text
/// of it. Zeroes where it is unknown.
#[derive(Clone, Copy, Debug, PartialEq, Eq)]
pub struct LegIdentities {
    /// The numbers, leg after leg.
    pub words: [u64; 32],
}

impl LegIdentities {
    /// None is known.
    pub fn unknown() -> LegIdentities
        ensures { result.words ≡ replicate 32 0 }
    {
        LegIdentities { words: [0; 32] }
    }

    /// Whether the leg's identity is known.
    pub fn is_known(&self, leg: usize) -> bool
        requires { leg < 8 }
        ensures { IsTrue result ↔ IsKnown leg self.now }
    {
        let at = 4 * leg;
        let first = self.words[at] != 0 || self.words[at + 1] != 0;
        first || self.words[at + 2] != 0 || self.words[at + 3] != 0
    }

    /// Whether the leg has the identity that the other leg has by the other one.
    pub fn is_same(&self, leg: usize, other: &LegIdentities, other_leg: usize) -> bool
        requires leg { leg < 8 }
        requires other { other_leg < 8 }
        ensures { IsTrue result ↔ IsSameIdentity leg self.now other_leg other.now }
    {
        let (a, b) = (4 * leg, 4 * other_leg);
        let first = self.words[a] == other.words[b] && self.words[a + 1] == other.words[b + 1];
        first && self.words[a + 2] == other.words[b + 2] && self.words[a + 3] == other.words[b + 3]
    }

    /// Gives the leg the identity that the other leg has by the other one.
    pub fn put(&mut self, leg: usize, other: &LegIdentities, other_leg: usize)
        requires leg { leg < 8 }
        requires other { other_leg < 8 }
        ensures { Puts leg other_leg other.now self.old self.new }
    {
        let (a, b) = (4 * leg, 4 * other_leg);
        self.words[a] = other.words[b];
        self.words[a + 1] = other.words[b + 1];
        self.words[a + 2] = other.words[b + 2];
        self.words[a + 3] = other.words[b + 3];
    }
}
