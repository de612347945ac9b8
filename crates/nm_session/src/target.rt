ghost use Rattle.std.specs.Prelude.{◌≡◌, ℕ, ◌+◌, ◌≤◌, List, [], ◌∷◌, ◌++◌, length};
ghost use Rattle.nm_session.specs.Target.{TargetCall, Reads, Writes, Zeroes, Flushes, Syncs};

use crate::session_log::SessionLog;
use crate::target_fault::TargetFault;
use bytes::Bytes;

/// What a session reads from and writes to, in bytes: offsets count from 0, and a call needs no
/// alignment.
///
/// A call that fails may have done any part of what it was asked for.
pub trait Target {
    /// A beginning of the history of what lies behind the target, as one has seen it.
    type Told: Send + Drop;

    /// How a session notes its requests in that history.
    type Log: SessionLog<Told = Self::Told> + Send + Drop;

    /// How many bytes the target has. It never changes.
    ghost size: { Self → ℕ };

    /// These calls, answered so, lead from one state of the target to another.
    ghost follows: { Self → List TargetCall → Self → Type 0 };

    /// From one state to the other that was taken in, and nothing was called: what is called from
    /// there on, until something else is taken in, stands behind it.
    ghost hears: { Self → Self.Told → Self → Type 0 };

    /// What the state has seen is told: what was called up to here stands in it.
    ghost has_told: { Self → Self.Told → Type 0 };

    /// Reads the bytes from `offset` on into all of `into`. A fault may leave any bytes there.
    fn read(&mut self, offset: u64, into: &mut [u8]) -> Result<(), TargetFault>
        requires { offset + length into.old ≤ size self.old }
        ensures call { follows self.old (Reads offset into.new result ∷ []) self.new }
        ensures size { size self.new ≡ size self.old };

    /// Writes the payload to the bytes from `offset` on.
    fn write(&mut self, offset: u64, payload: Bytes) -> Result<(), TargetFault>
        requires { offset + length payload ≤ size self.old }
        ensures call { follows self.old (Writes offset payload result ∷ []) self.new }
        ensures size { size self.new ≡ size self.old };

    /// Writes zeroes to so many bytes from `offset` on.
    fn zero(&mut self, offset: u64, length: u64) -> Result<(), TargetFault>
        requires { offset + length ≤ size self.old }
        ensures call { follows self.old (Zeroes offset length result ∷ []) self.new }
        ensures size { size self.new ≡ size self.old };

    /// Makes durable all that was written before.
    fn flush(&mut self) -> Result<(), TargetFault>
        ensures call { follows self.old (Flushes result ∷ []) self.new }
        ensures size { size self.new ≡ size self.old };

    /// Makes durable what was written before to so many bytes from `offset` on.
    fn sync_touched(&mut self, offset: u64, length: u64) -> Result<(), TargetFault>
        requires { offset + length ≤ size self.old }
        ensures call { follows self.old (Syncs offset length result ∷ []) self.new }
        ensures size { size self.new ≡ size self.old };

    /// Takes in what another has seen of the history.
    fn hear(&mut self, told: Self::Told)
        ensures heard { hears self.old told self.new }
        ensures size { size self.new ≡ size self.old };

    /// Tells what was seen of the history.
    fn tell(&mut self) -> Self::Told
        ensures told { has_told self.new result }
        ensures call { follows self.old [] self.new }
        ensures size { size self.new ≡ size self.old };

    /// No call leads from a state to itself.
    ghost stays: { (state : Self) → follows state [] state };

    /// Calls that follow one another are one list.
    ghost joins: { (from between to : Self) (first second : List TargetCall)
        → follows from first between → follows between second to
        → follows from (first ++ second) to };
}
