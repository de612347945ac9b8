//! The book.
ghost use Rattle.std.specs.Prelude.{◌≡◌, ◌≢◌, ◌+◌, ℕ, [], ◌∷◌, ◌++◌, IfSome};
ghost use Rattle.nm_book.specs.Log.{Adds, IsLegal, OneLog, MayAdd, NotesOn, SeesOn};
ghost use Rattle.nm_book.specs.Log.{as_maker, calls_by, entry, of_shard, shard_of, whats};
ghost use mathlib.Core.List.{IsPrefix};

use crate::plays::{
    Append, Closes, ClosesShard, Collect, End, Enter, Hears, LetsGo, Meets, NextKeeper, Observe,
    Picks, TakesAlong, Tells,
};
use crate::rule::{Legality, Naming, Notes, Rule, View};
use crate::tokens::{Closer, Keeper, Pass, Told};
use atomic_table::{Seat, Table};
use std::alloc::{AllocError, Global};
use std::marker::{Brand, PhantomData};

pub(crate) type Words<E, G> = Table<(), View<E>, (), Rule<E, G>, Global>;

/// A book with an empty log, which has no name yet.
#[derive(Drop)]
pub struct Opened<E, G: Legality<E>> {
    pub table: Words<E, G>,
    maker: Seat<(), View<E>>,
    ghost maker_is: { maker.me ≡ (as_maker 0, []) },
    ghost maker_of: { maker.table_id ≡ table.shared.table_id },
    ghost one_word: { table.shared.table_id.words ≡ 1 },
    ghost no_slots: { table.shared.table_id.slots ≡ 0 },
}

impl<E, G: Legality<E>> Opened<E, G> {
    pub fn new(alloc: Global) -> Result<Opened<E, G>, AllocError>
        requires { (s : ℕ) → G.legal s [] }
    {
        let (table, maker) = Table::of_words(alloc, &[0], &())?;
        Ok(Opened { table, maker })
    }

    /// The book under a name, and who makes its keepers.
    pub fn named<J: Naming>(self) -> (Book<E, G, J>, Maker<E, J>)
        requires { self.table.shared.table_id ≡ J.table }
        ensures { shard_of result.1.seat.me.0.role ≡ 0 }
    {
        let Opened { table, maker } = self;
        (
            Book {
                table,
                of: PhantomData,
            },
            Maker {
                seat: maker,
                of: PhantomData,
            },
        )
    }
}

/// Who makes the keepers.
#[derive(Drop)]
pub struct Maker<E, J: Naming> {
    pub seat: Seat<(), View<E>>,
    of: PhantomData<J>,
    ghost own: { seat.table_id ≡ J.table },
    ghost is: { seat.me ≡ (as_maker (shard_of seat.me.0.role), []) },
}

/// One log for all shards.
#[derive(Drop)]
pub struct Book<E, G: Legality<E>, J: Naming> {
    table: Words<E, G>,
    of: PhantomData<J>,
    ghost own: { table.shared.table_id ≡ J.table },
    ghost sized: { (table.shared.table_id.words ≡ 1) × (table.shared.table_id.slots ≡ 0) },
}

impl<E, G: Legality<E>, J: Naming> Book<E, G, J> {
    /// A new pass, which has done nothing.
    pub fn pass(&self) -> Pass<E, J>
        ensures mine { result.mine ≡ [] }
        ensures legal { IsLegal G.legal result.seen }
    {
        let (_, seat) = self.table.shared.load_new_seat::<Enter<G>>(0);
        Pass {
            seat,
            of: PhantomData,
        }
    }

    // Adds what was picked to the shard that the seat keeps.
    fn append<X, N: Picks<E>>(&self, seat: &mut Seat<(), View<E>>, _about: &X)
        requires own { seat.old.table_id ≡ J.table }
        requires free { seat.old.me.1 ≡ [] }
        requires may { MayAdd G.legal N.what seat.old.me.0 }
        ensures own { seat.new.table_id ≡ J.table }
        ensures adds { IfSome N.what (λ what.
            Adds G.legal (shard_of seat.old.me.0.role) what seat.old.me.0 seat.new.me.0) }
        ensures free { seat.new.me.1 ≡ [] }
    {
        self.table.shared.load::<Append<G, N>>(seat, 0);
    }

    /// Adds an entry, at the end of all that there is.
    pub fn note<X, M: Notes<X, E>>(
        &self,
        pass: &mut Pass<E, J>,
        keeper: Keeper<E, J>,
        about: &X,
    ) -> Keeper<E, J>
        requires { G.legal keeper.shard (whats keeper.all ++ M.what about.now ∷ []) }
        ensures pass { NotesOn G.legal keeper (M.what about.now) pass.old pass.new }
        ensures shard { result.shard ≡ keeper.shard }
        ensures all { result.all
            ≡ keeper.all ++ entry pass.old.who keeper.shard (M.what about.now) ∷ [] }
    {
        let shared = &self.table.shared;
        shared.join_seat::<TakesAlong>(&mut pass.seat, keeper.seat);
        self.append::<X, Brand>(&mut pass.seat, about);
        Keeper {
            seat: shared.split_seat::<LetsGo>(&mut pass.seat),
            of: PhantomData,
        }
    }

    /// Sees the log as it is, of which the keeper has all of its shard's entries.
    pub fn look(&self, pass: &mut Pass<E, J>, keeper: Keeper<E, J>) -> Keeper<E, J>
        ensures sees { SeesOn G.legal pass.old pass.new }
        ensures all { keeper.all ≡ of_shard keeper.shard pass.new.seen }
        ensures same { result ≡ keeper }
    {
        let shared = &self.table.shared;
        shared.join_seat::<TakesAlong>(&mut pass.seat, keeper.seat);
        shared.load::<Observe<G>>(&mut pass.seat, 0);
        Keeper {
            seat: shared.split_seat::<LetsGo>(&mut pass.seat),
            of: PhantomData,
        }
    }

    /// Sees the log as it is.
    pub fn observe(&self, pass: &mut Pass<E, J>)
        ensures { SeesOn G.legal pass.old pass.new }
    {
        self.table.shared.load::<Observe<G>>(&mut pass.seat, 0);
    }

    /// What the pass has seen, to be told to another.
    pub fn tell(&self, pass: &mut Pass<E, J>) -> Told<E, J>
        ensures told { result ≡ pass.old.seen }
        ensures same { pass.new ≡ pass.old }
    {
        Told {
            seat: self.table.shared.split_seat::<Tells>(&mut pass.seat),
            of: PhantomData,
        }
    }

    /// Takes in what another has seen: the log as it is goes on that too.
    pub fn hear(&self, pass: &mut Pass<E, J>, told: Told<E, J>)
        ensures sees { SeesOn G.legal pass.old pass.new }
        ensures told { IsPrefix told pass.new.seen }
    {
        let shared = &self.table.shared;
        shared.join_seat::<Hears>(&mut pass.seat, told.seat);
        shared.load::<Observe<G>>(&mut pass.seat, 0);
    }

    /// The keeper of the next shard, which has no entries.
    pub fn keeper(&self, maker: &mut Maker<E, J>) -> Keeper<E, J>
        ensures keeper { result ≡ record { shard = shard_of maker.old.seat.me.0.role; all = [] } }
        ensures next { shard_of maker.new.seat.me.0.role ≡ shard_of maker.old.seat.me.0.role + 1 }
    {
        Keeper {
            seat: self.table.shared.split_seat::<NextKeeper>(&mut maker.seat),
            of: PhantomData,
        }
    }

    /// Takes in another pass, whose calls are over: it is another, the log as it is goes on what it
    /// has seen too, and of its calls there it had just those that it made.
    pub fn meet(&self, pass: &mut Pass<E, J>, other: Pass<E, J>)
        ensures sees { SeesOn G.legal pass.old pass.new }
        ensures other { IsPrefix other.seen pass.new.seen }
        ensures apart { other.who ≢ pass.old.who }
        ensures own { calls_by other.who other.seen ≡ other.mine }
        ensures all { calls_by pass.new.who pass.new.seen ≡ pass.new.mine }
    {
        let shared = &self.table.shared;
        shared.join_seat::<Meets>(&mut pass.seat, other.seat);
        shared.load::<Observe<G>>(&mut pass.seat, 0);
    }

    /// Who collects passes and shards: none yet.
    pub fn closer(&self) -> Closer<E, J>
        ensures { result ≡ record { passes = []; shards = [] } }
    {
        let (_, seat) = self.table.shared.load_new_seat::<Collect>(0);
        Closer {
            seat,
            of: PhantomData,
        }
    }

    /// Takes in a pass whose calls are over.
    pub fn close(&self, closer: &mut Closer<E, J>, pass: Pass<E, J>)
        ensures passes { closer.new.passes
            ≡ record { who = pass.who; mine = pass.mine; seen = pass.seen } ∷ closer.old.passes }
        ensures shards { closer.new.shards ≡ closer.old.shards }
    {
        self.table
            .shared
            .join_seat::<Closes>(&mut closer.seat, pass.seat);
    }

    /// Takes in the keeper of a shard that is over.
    pub fn close_shard(&self, closer: &mut Closer<E, J>, keeper: Keeper<E, J>)
        ensures passes { closer.new.passes ≡ closer.old.passes }
        ensures shards { closer.new.shards
            ≡ record { shard = keeper.shard; all = keeper.all } ∷ closer.old.shards }
    {
        self.table
            .shared
            .join_seat::<ClosesShard>(&mut closer.seat, keeper.seat);
    }

    /// One legal log has all entries of all of these passes, each once, in the order of its pass,
    /// and of each of these shards just its entries. What each pass has seen is a beginning of it.
    pub fn end(&self, closer: &mut Closer<E, J>)
        ensures one { OneLog G.legal closer.old.passes closer.old.shards }
        ensures same { closer.new ≡ closer.old }
    {
        self.table.shared.load::<End<G>>(&mut closer.seat, 0);
    }
}
