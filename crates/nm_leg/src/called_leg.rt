ghost use Rattle.std.specs.Prelude.{◌≡◌, ◌+◌, ◌<◌, ◌≤◌, ℕ, is_ok};
ghost use Rattle.nm_leg.specs.Call.{Call, Found, Reads, Syncs, Writes, Zeroes, found_by};
ghost use Rattle.nm_leg.specs.Leg.{IsRun, blocks_in};

use crate::LegFault;

/// A leg that several threads call at once: a place that keeps an array of blocks of 512 bytes,
/// numbered from 0.
///
/// No call takes memory. What a leg holds no contract can say, since others call it meanwhile: a
/// call says what was asked of the leg, and what came of it.
pub trait CalledLeg: Drop {
    /// What one look at the leg found, for the writes of an operation.
    type Look: Copy;

    /// How many blocks the leg has.
    ghost blocks: { Self → ℕ };

    /// The leg was asked for this, and this came of it.
    ghost answers: { Self → Call → Found → Type 0 };

    /// How many blocks the leg has. It never changes.
    fn len(&self) -> u64
        ensures { result ≡ blocks self.now };

    /// Looks whether the leg can be written.
    fn look(&self) -> Self::Look;

    /// Reads a run of blocks from `at` on into `into`, which a fault leaves with any bytes.
    fn read(&self, at: u64, into: &mut [u8]) -> Result<(), LegFault>
        requires { IsRun at (blocks self.now) into.old }
        ensures { answers self.now (Reads at (blocks_in into.old))
            (record { done = is_ok result; filled = into.new }) };

    /// Writes a run of blocks from `at` on, by a look that came before. A fault may leave any bytes
    /// in each of them.
    fn write(&self, look: Self::Look, at: u64, bytes: &[u8]) -> Result<(), LegFault>
        requires { IsRun at (blocks self.now) bytes.now }
        ensures { answers self.now (Writes at bytes.now) (found_by (is_ok result)) };

    /// Writes so many blocks of zeroes from `at` on, 128 at most, as `write` does.
    fn zero(&self, look: Self::Look, at: u64, count: u64) -> Result<(), LegFault>
        requires some { 0 < count }
        requires most { count ≤ 128 }
        requires inside { at + count ≤ blocks self.now }
        ensures { answers self.now (Zeroes at count) (found_by (is_ok result)) };

    /// Makes durable what was written, so that a loss of power leaves it.
    fn sync(&self) -> Result<(), LegFault>
        ensures { answers self.now Syncs (found_by (is_ok result)) };
}
