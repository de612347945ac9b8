ghost use Rattle.std.specs.Prelude.{IfSome, IfNone};
ghost use Rattle.nm_assemble.specs.Start.{IsEmpty, IsNewest};

use nm_superblock::{Superblock, newer};

/// The newest of the superblocks that were found beside legs.
pub fn newest_of(found: &[Option<Superblock>; 8]) -> Option<Superblock>
    ensures some { IfSome result (λ s. IsNewest 8 s found.now) }
    ensures none { IfNone result (IsEmpty 8 found.now) }
{
    let mut newest = None;
    'legs: for leg in 0..8 {
        newest = newer(newest, found[leg]);
    }
    newest
}
