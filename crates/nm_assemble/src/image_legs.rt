ghost use Rattle.std.specs.Prelude.{◌≡◌, ◌<◌, ◌↔◌, IsTrue, IfSome, IfNone};
ghost use Rattle.nm_assemble.specs.Legs.{IsFirstNamed, IsLegStart, IsNameless};
ghost use Rattle.std.specs.Int.{bit_at};
ghost use Rattle.nm_superblock.specs.Spans.{in_sync_of};

use nm_superblock::Superblock;

/// How a leg starts in a stripe.
#[derive(Clone, Copy, PartialEq, Eq)]
pub enum LegStart {
    /// The stripe opens on it.
    Master,
    /// It joins, behind in the marked spans alone.
    Partial,
    /// It joins, behind everywhere.
    Whole,
    /// Its file is not here: it is out.
    Missing,
}

/// How a leg starts in a stripe by an image, whose file is here or not.
pub fn leg_start(image: &Superblock, leg: usize, stripe: usize, is_here: bool) -> LegStart
    requires leg { leg < 8 }
    requires stripe { stripe < 64 }
    ensures { IsLegStart leg stripe image.now is_here result }
{
    if !is_here {
        LegStart::Missing
    } else if is_named(image, leg, stripe) {
        LegStart::Master
    } else if (image.sets.partial(stripe) >> leg) & 1 == 1 {
        LegStart::Partial
    } else {
        LegStart::Whole
    }
}

/// The leg on which a stripe opens by an image: the first that it names.
pub fn named_leg(image: &Superblock, stripe: usize) -> Option<usize>
    requires { stripe < 64 }
    ensures some { IfSome result (λ leg. IsFirstNamed leg stripe image.now) }
    ensures none { IfNone result (IsNameless 8 stripe image.now) }
{
    'legs: for leg in 0..8 {
        if is_named(image, leg, stripe) {
            return Some(leg);
        }
    }
    None
}

// Whether the image names the leg in the stripe.
fn is_named(image: &Superblock, leg: usize, stripe: usize) -> bool
    requires leg { leg < 8 }
    requires stripe { stripe < 64 }
    ensures { IsTrue result ↔ (bit_at (in_sync_of stripe image.now.sets) leg ≡ 1) }
{
    (image.sets.in_sync(stripe) >> leg) & 1 == 1
}
