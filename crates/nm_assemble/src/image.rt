//! What a start chose, as a superblock.
ghost use Rattle.std.specs.Prelude.{◌≡◌, ◌<◌, ◌↔◌, false, IsTrue, IfSome, IfNone};
ghost use Rattle.nm_assemble.specs.Image.{AreSetsOf, IsCandidate, IsClosedTo, IsImage, IsKnown};
ghost use Rattle.nm_assemble.specs.Image.{IsPartial, OpensAll, OpensOn};
ghost use Rattle.nm_assemble.specs.Masters.{MayOpenOn};
ghost use Rattle.nm_assemble.specs.StripeSets.{HasThese};

use crate::assembly::Assembly;
use crate::changes::kept_times;
use crate::masters::{is_master, may_open_on};
use crate::own::recorded;
use crate::stripe_sets::put;
use nm_geometry::LegSet;
use nm_superblock::{LegIdentities, LegSets, Superblock};

impl Assembly {
    /// The image of the start: what its first save says. Each stripe opens on the leg that is asked
    /// for, or on the first that it may open on. Which legs' files are here and their own is told,
    /// and what identities these have. The times of others stay: what something else has changed is
    /// not taken by a later start either.
    pub fn image(
        &self,
        here: &LegSet,
        identities: &LegIdentities,
        asked: Option<usize>,
    ) -> Superblock
        ensures { IsImage asked self.now here.now identities.now result }
    {
        let mut image = self.newest;
        image.sets = self.sets(here, asked);
        image.leg = 0;
        image.clean = false;
        image.version = 3;
        image.identities = recorded(&self.newest.identities, here, identities);
        image.changed = kept_times(&self.newest.changed, here);
        image
    }

    /// The first stripe that may not open on the leg: it is not in sync there, or not fresh.
    pub fn first_closed_to(&self, leg: usize) -> Option<usize>
        requires { leg < 8 }
        ensures some { IfSome result (IsClosedTo leg self.now) }
        ensures none { IfNone result (OpensAll leg self.now) }
    {
        'stripes: for stripe in 0..64 {
            if self.is_closed_to(leg, stripe) {
                return Some(stripe);
            }
        }
        None
    }

    // Whether there is such a stripe, and it may not open on the leg.
    fn is_closed_to(&self, leg: usize, stripe: usize) -> bool
        requires leg { leg < 8 }
        requires stripe { stripe < 64 }
        ensures closed { IsTrue result → (stripe < self.now.newest.stripes)
            × (MayOpenOn leg stripe self.now.newest self.now.fresh → ⊥) }
        ensures opens { result ≡ false → stripe < self.now.newest.stripes
            → MayOpenOn leg stripe self.now.newest self.now.fresh }
    {
        stripe < self.newest.stripes as usize
            && !may_open_on(&self.newest, &self.fresh, stripe, leg)
    }

    // The sets of all stripes.
    fn sets(&self, here: &LegSet, asked: Option<usize>) -> LegSets
        ensures { AreSetsOf 64 asked self.now here.now result }
    {
        let mut sets = LegSets { bytes: [0; 256] };
        'stripes: for stripe in 0..64 {
            if stripe < self.newest.stripes as usize {
                let named = self.named_set(asked, stripe);
                let candidates = self.candidate_set(here, asked, stripe);
                let partial = self.partial_set(here, asked, stripe);
                put(&mut sets, stripe, &named, &candidates, &partial);
            }
        }
        sets
    }

    // The leg that the stripe opens on.
    fn named_set(&self, asked: Option<usize>, stripe: usize) -> LegSet
        requires { stripe < 64 }
        ensures { HasThese 8 (OpensOn asked self.now stripe) result }
    {
        let mut set = LegSet::none();
        'legs: for leg in 0..8 {
            set.set(leg, self.opens_on(asked, stripe, leg));
        }
        set
    }

    // The legs that are about to be in sync.
    fn candidate_set(&self, here: &LegSet, asked: Option<usize>, stripe: usize) -> LegSet
        requires { stripe < 64 }
        ensures { HasThese 8 (IsCandidate asked self.now here.now stripe) result }
    {
        let mut set = LegSet::none();
        'legs: for leg in 0..8 {
            set.set(leg, self.is_candidate(here, asked, stripe, leg));
        }
        set
    }

    // The legs that lack no more than marked spans.
    fn partial_set(&self, here: &LegSet, asked: Option<usize>, stripe: usize) -> LegSet
        requires { stripe < 64 }
        ensures { HasThese 8 (IsPartial asked self.now here.now stripe) result }
    {
        let mut set = LegSet::none();
        'legs: for leg in 0..8 {
            set.set(leg, self.is_partial(here, asked, stripe, leg));
        }
        set
    }

    // Whether the stripe opens on the leg.
    fn opens_on(&self, asked: Option<usize>, stripe: usize, leg: usize) -> bool
        requires stripe { stripe < 64 }
        requires leg { leg < 8 }
        ensures { IsTrue result ↔ OpensOn asked self.now stripe leg }
    {
        match asked {
            Some(asked) => leg == asked,
            None => is_master(&self.newest, &self.fresh, leg, stripe),
        }
    }

    // Whether the leg is about to be in sync in the stripe.
    fn is_candidate(&self, here: &LegSet, asked: Option<usize>, stripe: usize, leg: usize) -> bool
        requires stripe { stripe < 64 }
        requires leg { leg < 8 }
        ensures { IsTrue result ↔ IsCandidate asked self.now here.now stripe leg }
    {
        here.has(leg) && self.newest.marked.is_empty() && self.is_partial(here, asked, stripe, leg)
    }

    // Whether the leg lacks no more than marked spans in the stripe, which does not open on it.
    fn is_partial(&self, here: &LegSet, asked: Option<usize>, stripe: usize, leg: usize) -> bool
        requires stripe { stripe < 64 }
        requires leg { leg < 8 }
        ensures { IsTrue result ↔ IsPartial asked self.now here.now stripe leg }
    {
        let is_told = self.fresh.has(leg) || !here.has(leg);
        is_told && is_known(&self.newest, leg, stripe) && !self.opens_on(asked, stripe, leg)
    }
}

// Whether the superblock calls the leg in sync, or out of sync in no more than marked spans.
fn is_known(newest: &Superblock, leg: usize, stripe: usize) -> bool
    requires leg { leg < 8 }
    requires stripe { stripe < 64 }
    ensures { IsTrue result ↔ IsKnown newest.now stripe leg }
{
    let in_sync = (newest.sets.in_sync(stripe) >> leg) & 1 == 1;
    let partial = (newest.sets.partial(stripe) >> leg) & 1 == 1;
    in_sync || partial
}
