ghost use Rattle.std.specs.Prelude.{◌≡◌, ◌<◌, ◌↔◌, ℕ, false, IsTrue, IfSome, IfNone};
ghost use Rattle.nm_assemble.specs.Masters.{AllOpen, IsClosed, IsFirstClosed, IsMaster, MayOpenOn};

use nm_geometry::LegSet;
use nm_superblock::Superblock;

/// The leg on which a stripe opens: the first that is in sync there and fresh.
pub fn master_of(newest: &Superblock, fresh: &LegSet, stripe: usize) -> Option<usize>
    requires { stripe < 64 }
    ensures some { IfSome result (λ leg. IsMaster leg stripe newest.now fresh.now) }
    ensures none { IfNone result (IsClosed stripe newest.now fresh.now) }
{
    'legs: for leg in 0..8 {
        if may_open_on(newest, fresh, stripe, leg) {
            return Some(leg);
        }
    }
    None
}

// The first of the mirror's stripes that has no such leg.
pub(crate) fn closed_stripe(newest: &Superblock, fresh: &LegSet) -> Option<usize>
    ensures some { IfSome result (λ stripe. IsFirstClosed stripe newest.now fresh.now) }
    ensures none { IfNone result (AllOpen 64 newest.now fresh.now) }
{
    'stripes: for stripe in 0..64 {
        if is_closed(newest, fresh, stripe) {
            return Some(stripe);
        }
    }
    None
}

// Whether there is such a stripe, and it has no such leg.
fn is_closed(newest: &Superblock, fresh: &LegSet, stripe: usize) -> bool
    requires { stripe < 64 }
    ensures closed { IsTrue result
        → (stripe < newest.now.stripes) × IsClosed stripe newest.now fresh.now }
    ensures opens { result ≡ false → stripe < newest.now.stripes
        → (leg : ℕ) × IsMaster leg stripe newest.now fresh.now }
{
    stripe < newest.stripes as usize && master_of(newest, fresh, stripe).is_none()
}

// Whether the leg is in sync in the stripe, and fresh.
pub(crate) fn may_open_on(newest: &Superblock, fresh: &LegSet, stripe: usize, leg: usize) -> bool
    requires leg { leg < 8 }
    requires stripe { stripe < 64 }
    ensures { IsTrue result ↔ MayOpenOn leg stripe newest.now fresh.now }
{
    let in_sync = (newest.sets.in_sync(stripe) >> leg) & 1 == 1;
    in_sync && fresh.has(leg)
}

// Whether the stripe opens on the leg.
pub(crate) fn is_master(newest: &Superblock, fresh: &LegSet, leg: usize, stripe: usize) -> bool
    requires leg { leg < 8 }
    requires stripe { stripe < 64 }
    ensures { IsTrue result ↔ IsMaster leg stripe newest.now fresh.now }
{
    match master_of(newest, fresh, stripe) {
        Some(master) => master == leg,
        None => false,
    }
}
