ghost use Rattle.std.specs.Prelude.{◌≤◌, ℕ, List, length, replicate, take, IsTrue, IfOk, OnOk};

use std::io;

/// A row of bytes that outlives the program, such as a file, which several threads call at once.
///
/// What it holds no contract can say, since others write it meanwhile. Each call says what it
/// moved.
pub trait CalledMedium: Drop {
    /// A call found these bytes from this place on.
    ghost found: { Self → ℕ → List ℕ → Type 0 };

    /// A call wrote these bytes from this place on.
    ghost wrote: { Self → ℕ → List ℕ → Type 0 };

    /// A sync succeeded.
    ghost synced: { Self → Type 0 };

    /// Reads bytes from `at` on, and says how many it found. A fault leaves any bytes in `into`.
    fn read_at(&self, at: u64, into: &mut [u8]) -> io::Result<usize>
        ensures bound { IfOk result (λ n. n ≤ length into.new) }
        ensures found { IfOk result (λ n. found self.now at (take n into.new)) };

    /// Writes bytes from `at` on, and says how many. A fault leaves any bytes in their place.
    fn write_at(&self, at: u64, bytes: &[u8]) -> io::Result<usize>
        ensures { IfOk result (λ n. wrote self.now at (take n bytes.now)) };

    /// Makes durable what was written, so that a loss of power leaves it.
    fn sync(&self) -> io::Result<()>
        ensures { OnOk result (synced self.now) };

    /// How many bytes the medium has.
    fn len(&self) -> io::Result<u64>;

    /// Whether the medium is known to hold zeroes in these bytes, so that writing zeroes there
    /// would change nothing. A look that fails, or that cannot tell, answers that it is not.
    fn is_hole(&self, at: u64, many: usize) -> bool
        ensures { IsTrue result → found self.now at (replicate many 0) };

    /// Whether a sync that failed, of another user, may have lost what this one wrote, and this one
    /// was not told yet. By this it is told, as by a sync of its own that fails.
    fn tells_loss(&self) -> bool;

    /// Whether a call failed, so that the medium may have lost what was written to it though later
    /// calls succeed: then a sync tells nothing of what was written before.
    fn is_doubted(&self) -> bool;
}
