ghost use Rattle.std.specs.Prelude.{◌≡◌, false, length, refl, replicate, is_ok};
ghost use Rattle.nm_leg.specs.Leg.{ReadsLeg, zeroed_leg};
ghost use Rattle.nm_leg.specs.TestLegs.{of_lying};

use crate::{LegFault, LegPart};

/// A leg that is not honest, for tests: it answers success to every call, keeps nothing that is
/// written, and each read of it gives bytes of 255.
#[derive(Drop)]
pub struct LyingLeg {
    blocks: u64,
}

impl LyingLeg {
    /// A leg that claims so many blocks. It takes no memory.
    pub fn new(blocks: u64) -> Self
        ensures { of_lying result ≡ zeroed_leg blocks }
    {
        LyingLeg { blocks }
    }
}

impl LegPart for LyingLeg {
    ghost use Rattle.std.proofs.Common.{sym, ◌∙◌};
    ghost use Rattle.std.proofs.lemmas.List.{length-replicate};

    ghost honest = { false };

    ghost model = { of_lying };

    ghost same_length = { λ leg. refl };

    ghost marked_each = { λ leg. length-replicate leg.blocks false
        ∙ sym (length-replicate leg.blocks _) };

    ghost durable_elsewhere = { λ leg is_honest k is. refl };

    fn len(&self) -> u64 {
        self.blocks
    }

    fn read(&mut self, at: u64, into: &mut [u8]) -> Result<(), LegFault>
        ensures lies { into.new ≡ replicate (length into.old) 255 }
        ensures reads { ReadsLeg false (is_ok result) at
            (of_lying self.old) (of_lying self.new) into.new }
    {
        into.fill(255);
        Ok(())
    }

    fn write(&mut self, _at: u64, _bytes: &[u8]) -> Result<(), LegFault> {
        Ok(())
    }

    fn sync(&mut self) -> Result<(), LegFault> {
        Ok(())
    }

    fn is_unsynced(&self, _at: u64, _count: u64) -> bool {
        false
    }

    fn faults(&self) -> u64 {
        0
    }
}
