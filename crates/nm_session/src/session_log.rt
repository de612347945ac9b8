ghost use Rattle.std.specs.Prelude.{◌≡◌, ℕ, List};

use bytes::Bytes;

/// A session's place in the history of its targets: which of its requests came is noted there, and
/// what others have seen of it is taken in.
pub trait SessionLog {
    /// A beginning of the history that somebody has seen, for another.
    type Told: Send + Drop;

    /// The session's name in the history. It never changes.
    ghost session: { Self → ℕ };

    /// From one state to the other it was noted, behind all that was seen, that the request with
    /// this index came, with this payload, and nothing else was.
    ghost asks: { Self → (index : ℕ) → (payload : List ℕ) → Self → Type 0 };

    /// That this request of this session came, with this payload, is the last that is told.
    ghost has_come: { (session index : ℕ) → (payload : List ℕ) → Self.Told → Type 0 };

    /// From one state to the other this was taken in, and nothing was noted.
    ghost hears: { Self → Self.Told → Self → Type 0 };

    /// Notes that the request with this index came, with its payload, and tells what is seen then.
    fn ask(&mut self, index: u64, payload: &Bytes) -> Self::Told
        ensures asked { asks self.old index payload.now self.new }
        ensures told { has_come (session self.old) index payload.now result }
        ensures session { session self.new ≡ session self.old };

    /// Takes in what another has seen.
    fn hear(&mut self, told: Self::Told)
        ensures heard { hears self.old told self.new }
        ensures session { session self.new ≡ session self.old };
}

/// Of targets without a history, in which nothing is noted.
impl SessionLog for () {
    ghost use Rattle.std.specs.Prelude.{⊤};

    type Told = ();

    ghost session = { λ _. 0 };

    ghost asks = { λ _ _ _ _. ⊤ };

    ghost has_come = { λ _ _ _ _. ⊤ };

    ghost hears = { λ _ _ _. ⊤ };

    fn ask(&mut self, _index: u64, _payload: &Bytes) {}

    fn hear(&mut self, _told: ()) {}
}
