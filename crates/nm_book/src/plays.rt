//! What each step on the table tells.
ghost use Rattle.std.specs.Prelude.{◌≡◌, [], IfSome, Option};
ghost use Rattle.nm_book.specs.Log.{Adds, Arrives, Observes, OneLog, as_closer, over_in, shard_of};

use crate::rule::{Legality, View};
use atomic_table::{Join, Play, Split};
use std::marker::{Brand, PhantomData};

// What is added at one call.
pub(crate) trait Picks<E> {
    ghost use Rattle.std.specs.Prelude.{Option};

    ghost what: { Option E };
}

impl<E> Picks<E> for Brand {
    ghost use Rattle.std.specs.Prelude.{None};

    ghost what = { None };
}

pub(crate) struct Append<G, N> {
    of: PhantomData<(G, N)>,
}

impl<E, G: Legality<E>, N: Picks<E>> Play<(), View<E>> for Append<G, N> {
    ghost then = { λ step v n w.
        IfSome N.what (λ what. Adds G.legal (shard_of v.0.role) what v.0 w.0) × (w.1 ≡ []) };
}

pub(crate) struct Enter<G> {
    of: PhantomData<G>,
}

impl<E, G: Legality<E>> Play<(), View<E>> for Enter<G> {
    ghost then = { λ step v n w. Arrives G.legal w.0 };
}

pub(crate) struct Observe<G> {
    of: PhantomData<G>,
}

impl<E, G: Legality<E>> Play<(), View<E>> for Observe<G> {
    ghost then = { λ step v n w. Observes G.legal v.0 w.0 × (w.1 ≡ []) };
}

pub(crate) struct TakesAlong;

impl<E> Join<View<E>> for TakesAlong {
    ghost use Rattle.nm_book.specs.Log.{view, nobody};

    ghost both = { λ v w. view v.acts v.who w.role v.seen v.heard v.mine };

    ghost spent = { nobody };
}

pub(crate) struct LetsGo;

impl<E> Split<View<E>> for LetsGo {
    ghost use Rattle.std.specs.Prelude.{false, []};
    ghost use Rattle.nm_book.specs.Log.{view};
    ghost use Rattle.nm_book.specs.declared.rule.Role.TheVariants.{Idle};

    ghost left = { λ v. view v.acts v.who Idle v.seen v.heard v.mine };

    ghost right = { λ v. view false 0 v.role [] [] [] };
}

pub(crate) struct NextKeeper;

impl<E> Split<View<E>> for NextKeeper {
    ghost use Rattle.std.specs.Prelude.{[], ◌+◌};
    ghost use Rattle.nm_book.specs.Log.{as_maker, as_keeper, shard_of};

    ghost left = { λ v. as_maker (shard_of v.role + 1) };

    ghost right = { λ v. as_keeper (shard_of v.role) [] };
}

pub(crate) struct Tells;

impl<E> Split<View<E>> for Tells {
    ghost use Rattle.nm_book.specs.Log.{as_told};

    ghost left = { λ v. v };

    ghost right = { λ v. as_told v.seen };
}

pub(crate) struct Hears;

impl<E> Join<View<E>> for Hears {
    ghost use Rattle.nm_book.specs.Log.{view, nobody};

    ghost both = { λ v w. view v.acts v.who v.role v.seen w.seen v.mine };

    ghost spent = { nobody };
}

pub(crate) struct Meets;

impl<E> Join<View<E>> for Meets {
    ghost use Rattle.nm_book.specs.Log.{meeting, nobody};

    ghost both = { meeting };

    ghost spent = { nobody };
}

pub(crate) struct Collect;

impl<E> Play<(), View<E>> for Collect {
    ghost then = { λ step v n w. w.0 ≡ as_closer [] [] };
}

pub(crate) struct Closes;

impl<E> Join<View<E>> for Closes {
    ghost use Rattle.std.specs.Prelude.{◌∷◌};
    ghost use Rattle.nm_book.specs.Log.{as_closer, nobody, over_in, past_of};

    ghost both = { λ v w. as_closer (past_of w ∷ v.gone) (over_in v.role) };

    ghost spent = { nobody };
}

pub(crate) struct ClosesShard;

impl<E> Join<View<E>> for ClosesShard {
    ghost use Rattle.std.specs.Prelude.{◌∷◌};
    ghost use Rattle.nm_book.specs.Log.{as_closer, nobody, over_in, over_of};

    ghost both = { λ v w. as_closer v.gone (over_of w ∷ over_in v.role) };

    ghost spent = { nobody };
}

pub(crate) struct End<G> {
    of: PhantomData<G>,
}

impl<E, G: Legality<E>> Play<(), View<E>> for End<G> {
    ghost then = { λ step v n w. (w ≡ (as_closer v.0.gone (over_in v.0.role), []))
        × OneLog G.legal v.0.gone (over_in v.0.role) };
}
