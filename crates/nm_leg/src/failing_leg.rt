ghost use Rattle.std.specs.Prelude.{◌≡◌, ◌+◌, ◌%◌, ◌^◌, true, refl, is_ok, IsErr};
ghost use Rattle.nm_leg.specs.Leg.{ReadsLeg, WritesLeg, SyncsLeg, zeroed_leg};
ghost use Rattle.nm_leg.specs.TestLegs.{of_failing};

use crate::{LegFault, LegPart};

/// A leg whose every read, write and sync fails, for tests. It is honest: it keeps its zero blocks.
#[derive(Drop)]
pub struct FailingLeg {
    blocks: u64,
    faults: u64,
}

impl FailingLeg {
    /// A leg of so many zero blocks, of which no call has failed yet. It takes no memory.
    pub fn new(blocks: u64) -> Self
        ensures { of_failing result ≡ zeroed_leg blocks }
    {
        FailingLeg { blocks, faults: 0 }
    }

    fn fail(&mut self) -> Result<(), LegFault>
        ensures fails { IsErr result }
        ensures counted { self.new ≡ record self.old { faults = (self.old.faults + 1) % 2 ^ 64 } }
    {
        self.faults = self.faults.wrapping_add(1);
        Err(LegFault)
    }
}

impl LegPart for FailingLeg {
    ghost use Rattle.std.proofs.Common.{false, sym, ◌∙◌};
    ghost use Rattle.std.proofs.lemmas.List.{length-replicate};

    ghost honest = { true };

    ghost model = { of_failing };

    ghost same_length = { λ leg. refl };

    ghost marked_each = { λ leg. length-replicate leg.blocks false
        ∙ sym (length-replicate leg.blocks _) };

    ghost durable_elsewhere = { λ leg is_honest k is. refl };

    fn len(&self) -> u64 {
        self.blocks
    }

    fn read(&mut self, at: u64, into: &mut [u8]) -> Result<(), LegFault>
        ensures fails { IsErr result }
        ensures reads { ReadsLeg true (is_ok result) at
            (of_failing self.old) (of_failing self.new) into.new }
    {
        self.fail()
    }

    fn write(&mut self, at: u64, bytes: &[u8]) -> Result<(), LegFault>
        ensures fails { IsErr result }
        ensures writes { WritesLeg true (is_ok result) at bytes.now
            (of_failing self.old) (of_failing self.new) }
    {
        self.fail()
    }

    fn sync(&mut self) -> Result<(), LegFault>
        ensures fails { IsErr result }
        ensures syncs { SyncsLeg true (is_ok result) (of_failing self.old) (of_failing self.new) }
    {
        self.fail()
    }

    fn is_unsynced(&self, _at: u64, _count: u64) -> bool {
        false
    }

    fn faults(&self) -> u64 {
        self.faults
    }
}
