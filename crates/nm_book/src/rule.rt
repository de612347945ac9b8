//! What is known of the log, and by whom.
use atomic_table::{Join, Play, Split, TableRule};
use std::collections::LinkedList;
use std::marker::{Brand, PhantomData};

/// What was done in a shard, and by which pass. The code keeps no list of them.
pub struct Entry<E> {
    pub by: u64,
    pub shard: u64,
    pub what: E,
}

/// What a seat may do: nothing besides what a pass does; add to a shard's entries, which it knows
/// all; make the keepers of the shards from some number on; or keep the shards that are over.
pub enum Role<E> {
    Idle,
    Keeps(u64, LinkedList<Entry<E>>),
    Makes(u64),
    Ends(LinkedList<Shard<E>>),
}

/// What a seat knows: the number of its pass, a beginning of the log, one that it was told, its own
/// entries in the log, and the number of a pass that it met. No value of it is made.
pub struct View<E> {
    pub acts: bool,
    pub who: u64,
    pub role: Role<E>,
    pub seen: LinkedList<Entry<E>>,
    pub heard: LinkedList<Entry<E>>,
    pub mine: LinkedList<Entry<E>>,
    pub met: Option<u64>,
    pub gone: LinkedList<Past<E>>,
}

/// A pass whose calls are over, with its entries, and what it has seen of the log.
pub struct Past<E> {
    pub who: u64,
    pub mine: LinkedList<Entry<E>>,
    pub seen: LinkedList<Entry<E>>,
}

/// A shard that is over, to which nobody adds any more, with its entries.
pub struct Shard<E> {
    pub shard: u64,
    pub all: LinkedList<Entry<E>>,
}

/// Which lists of a shard's entries are legal.
pub trait Legality<E> {
    ghost use Rattle.std.specs.Prelude.{ℕ, List};

    ghost legal: { ℕ → List E → Type 0 };
}

/// Which book it is. Each call of a program picks it.
pub trait Naming {
    ghost use Rattle.atomic_table.specs.Seated.{TableId};

    ghost table: { TableId };
}

impl Naming for Brand {
    ghost use Rattle.nm_book.specs.Log.{no_table};

    ghost table = { no_table };
}

/// What an entry says, by what the caller has in hand.
pub trait Notes<X, E> {
    ghost what: { X → E };
}

/// The rule of the book.
pub struct Rule<E, G> {
    of: PhantomData<(E, G)>,
}

impl<E, G: Legality<E>> TableRule<(), View<E>, ()> for Rule<E, G> {
    ghost use Rattle.nm_book.specs.Log.{Kept, as_maker};

    ghost holds = { λ key s. Kept G.legal s.views };

    ghost first = { λ key. as_maker 0 };
}
