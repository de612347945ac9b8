//! What threads hold of the log.
ghost use Rattle.std.specs.Prelude.{◌≡◌, ◌+◌, []};
ghost use Rattle.nm_book.specs.Log.{KeeperView, PassView};

use crate::rule::{Naming, View};
use atomic_table::Seat;
use std::marker::{Model, PhantomData};

/// A caller's pass. Contracts see its number, what it has seen of the log, and its own entries.
#[derive(Drop)]
pub struct Pass<E, J: Naming> {
    pub(crate) seat: Seat<(), View<E>>,
    pub(crate) of: PhantomData<J>,
}

impl<E, J: Naming> Model for Pass<E, J> {
    ghost use Rattle.nm_book.specs.Log.{PassView, IsPass};

    ghost Value = { PassView E };

    ghost view = { λ p. record {
      who = p.seat.me.0.who;
      seen = p.seat.me.0.seen;
      mine = p.seat.me.0.mine;
    } };

    ghost invariant = { λ p. IsPass J.table p.seat.table_id p.seat.me };
}

/// The right to add to a shard's entries. Contracts see the shard and its entries.
#[derive(Drop)]
pub struct Keeper<E, J: Naming> {
    pub(crate) seat: Seat<(), View<E>>,
    pub(crate) of: PhantomData<J>,
}

impl<E, J: Naming> Model for Keeper<E, J> {
    ghost use Rattle.nm_book.specs.Log.{KeeperView, IsKeeper, shard_of, all_of};

    ghost Value = { KeeperView E };

    ghost view = { λ k. record {
      shard = shard_of k.seat.me.0.role;
      all = all_of k.seat.me.0.role;
    } };

    ghost invariant = { λ k. IsKeeper J.table k.seat.table_id k.seat.me };
}

/// A beginning of the log that a pass has seen, for another pass.
#[derive(Drop)]
pub struct Told<E, J: Naming> {
    pub(crate) seat: Seat<(), View<E>>,
    pub(crate) of: PhantomData<J>,
}

impl<E, J: Naming> Model for Told<E, J> {
    ghost use Rattle.std.specs.Prelude.{◌≡◌, List, []};
    ghost use Rattle.nm_book.specs.Log.{as_told};
    ghost use Rattle.nm_book.specs.declared.rule.Entry.{Entry};

    ghost Value = { List (Entry E) };

    ghost view = { λ t. t.seat.me.0.seen };

    ghost invariant = { λ t.
        (t.seat.table_id ≡ J.table) × (t.seat.me ≡ (as_told t.seat.me.0.seen, [])) };
}

/// Who collects the passes whose calls are over, and the shards. Contracts see these passes, and
/// these shards, the last one first.
#[derive(Drop)]
pub struct Closer<E, J: Naming> {
    pub(crate) seat: Seat<(), View<E>>,
    pub(crate) of: PhantomData<J>,
}

impl<E, J: Naming> Model for Closer<E, J> {
    ghost use Rattle.std.specs.Prelude.{◌≡◌, []};
    ghost use Rattle.nm_book.specs.Log.{ClosedView, as_closer, over_in};

    ghost Value = { ClosedView E };

    ghost view = { λ c. record {
      passes = c.seat.me.0.gone;
      shards = over_in c.seat.me.0.role;
    } };

    ghost invariant = { λ c. (c.seat.table_id ≡ J.table)
        × (c.seat.me ≡ (as_closer c.seat.me.0.gone (over_in c.seat.me.0.role), [])) };
}
