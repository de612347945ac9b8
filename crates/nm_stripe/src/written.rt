ghost use Rattle.std.specs.Prelude.{◌≡◌, ◌+◌, ◌<◌, ◌≤◌, ◌^◌};

use crate::receipt::Receipt;
use std::marker::Model;

/// The answer of a claim: the entries of a finished write in the stripe's history.
///
/// Only a `Stripe<L>` makes one, once the write has reached every leg that it owed.
#[derive(Drop)]
pub struct Written<L>(Receipt<L>);

impl<L> Model for Written<L> {
    ghost use Rattle.nm_rules.specs.Runs.{EntryNames};
    ghost use Rattle.nm_stripe.specs.Names.{AreNamed};

    ghost Value = { EntryNames };

    ghost view = { λ w. w.0 };

    ghost invariant = { λ w. AreNamed w.0 };
}

impl<L> Written<L> {
    pub(crate) fn new(stripe: u32, block: u64, number: u64, count: u64) -> Self
        requires some { 0 < count }
        requires most { count ≤ 128 }
        requires below { number + count ≤ 2 ^ 63 }
        ensures { result
            ≡ record { stripe = stripe; block = block; number = number; count = count } }
    {
        Written(Receipt::new(stripe, block, number, count))
    }

    /// The stripe's number.
    pub fn stripe(&self) -> u32
        ensures { result ≡ self.now.stripe }
    {
        self.0.stripe()
    }

    /// The first block, by its number in the stripe.
    pub fn block(&self) -> u64
        ensures { result ≡ self.now.block }
    {
        self.0.block()
    }

    /// The number of the first block's entry. Each further block has the next number, and all are
    /// below 2^63.
    pub fn number(&self) -> u64
        ensures number { result ≡ self.now.number }
        ensures below { result < 2 ^ 63 }
        ensures last { result + self.now.count ≤ 2 ^ 63 }
    {
        self.0.number()
    }

    /// How many blocks were written, each with its entry: at least one and at most 128.
    pub fn count(&self) -> u64
        ensures count { result ≡ self.now.count }
        ensures some { 0 < result }
        ensures most { result ≤ 128 }
    {
        self.0.count()
    }
}
