ghost use Rattle.std.specs.Prelude.{◌≡◌, ◌<◌, ◌↔◌, ℕ, IsTrue, IfSome, IfNone};
ghost use Rattle.nm_assemble.specs.Start.{IsListed, IsMissing, IsSureStart};

use nm_superblock::Superblock;

/// The first leg that may have a newer superblock than this one: it is listed in some stripe, and
/// no superblock was found beside it. Where there is none, the start is sure.
pub fn missing_leg(newest: &Superblock, found: &[Option<Superblock>; 8]) -> Option<usize>
    ensures some { IfSome result (λ leg. IsMissing leg newest.now found.now) }
    ensures none { IfNone result (IsSureStart newest.now found.now) }
{
    'legs: for leg in 0..8 {
        if found[leg].is_none() && is_listed_somewhere(newest, leg) {
            return Some(leg);
        }
    }
    None
}

// Whether the superblock lists the leg in some stripe.
fn is_listed_somewhere(superblock: &Superblock, leg: usize) -> bool
    requires { leg < 8 }
    ensures { IsTrue result ↔ ((stripe : ℕ) × (stripe < 64) × IsListed leg stripe superblock.now) }
{
    'stripes: for stripe in 0..64 {
        if is_listed(superblock, leg, stripe) {
            return true;
        }
    }
    false
}

// Whether the superblock lists the leg in the stripe.
fn is_listed(superblock: &Superblock, leg: usize, stripe: usize) -> bool
    requires leg { leg < 8 }
    requires stripe { stripe < 64 }
    ensures { IsTrue result ↔ IsListed leg stripe superblock.now }
{
    let in_sync = (superblock.sets.in_sync(stripe) >> leg) & 1 == 1;
    let candidate = (superblock.sets.candidates(stripe) >> leg) & 1 == 1;
    in_sync || candidate
}
