ghost use Rattle.std.specs.Prelude.{◌≡◌, ◌+◌, ◌-◌, ◌≤◌, true, false, length, replicate, min, Ok};
ghost use Rattle.std.specs.Prelude.{IsOk, IsTrue, IsFalse};
ghost use Rattle.nm_file_leg.specs.Media.{of_mem};
ghost use Rattle.nm_file_leg.specs.Medium.{ReadsMedium, WritesMedium, SyncsMedium, TellsLength};
ghost use Rattle.nm_file_leg.specs.Medium.{FindsHole, window};

use crate::Medium;
use crate::splice::splice;
use crate::zeroes::are_zeroes;
use std::io;

/// An honest medium in memory.
///
/// It keeps the length that it is made with: what is written past its end is not kept. A sync
/// does nothing: what the medium holds counts as durable at once.
#[derive(Drop)]
pub struct MemMedium {
    bytes: Vec<u8>,
}

impl MemMedium {
    ghost use Rattle.nm_file_leg.specs.Media.{of_mem, steady};

    /// A medium of these bytes.
    pub fn new(bytes: Vec<u8>) -> Self
        ensures { of_mem result ≡ steady bytes.items }
    {
        MemMedium { bytes }
    }

    /// What the medium holds.
    pub fn bytes(&self) -> &[u8]
        ensures { of_mem self.now ≡ steady result.now }
    {
        &self.bytes
    }
}

impl Medium for MemMedium {
    ghost use Rattle.nm_file_leg.specs.Media.{of_mem};

    ghost honest = { true };

    ghost held = { of_mem };

    ghost tells = { λ _. false };

    ghost doubted = { λ _. false };

    fn read_at(&mut self, at: u64, into: &mut [u8]) -> io::Result<usize>
        ensures reads { ReadsMedium true result at (of_mem self.old) (of_mem self.new) into.new }
        ensures all { result ≡ Ok (min (length into.old) (length self.old.bytes.items - at)) }
    {
        if at >= self.bytes.len() as u64 {
            return Ok(0);
        }
        let from = at as usize;
        let many = into.len().min(self.bytes.len() - from);
        into[..many].copy_from_slice(&self.bytes[from..from + many]);
        Ok(many)
    }

    fn write_at(&mut self, at: u64, bytes: &[u8]) -> io::Result<usize>
        ensures writes { WritesMedium true result at bytes.now (of_mem self.old)
            (of_mem self.new) }
        ensures all { result ≡ Ok (min (length bytes.now) (length self.old.bytes.items - at)) }
        ensures long { length self.new.bytes.items ≡ length self.old.bytes.items }
    {
        if at >= self.bytes.len() as u64 {
            return Ok(0);
        }
        let from = at as usize;
        let many = bytes.len().min(self.bytes.len() - from);
        splice(&mut self.bytes, from, &bytes[..many]);
        Ok(many)
    }

    fn sync(&mut self) -> io::Result<()>
        ensures syncs { SyncsMedium true result (of_mem self.old) (of_mem self.new) }
        ensures done { IsOk result }
    {
        Ok(())
    }

    fn len(&self) -> io::Result<u64>
        ensures tells { TellsLength true result (of_mem self.now) }
        ensures known { result ≡ Ok (length self.now.bytes.items) }
    {
        Ok(self.bytes.len() as u64)
    }

    fn is_hole(&self, at: u64, many: usize) -> bool
        ensures finds { FindsHole true result at many (of_mem self.now) }
        ensures all { at + many ≤ length self.now.bytes.items
            → window at many self.now.bytes.items ≡ replicate many 0 → IsTrue result }
    {
        if at > self.bytes.len() as u64 {
            return false;
        }
        let from = at as usize;
        many <= self.bytes.len() - from && are_zeroes(&self.bytes[from..from + many])
    }

    fn tells_loss(&self) -> bool
        ensures { IsFalse result }
    {
        false
    }

    fn is_doubted(&self) -> bool
        ensures { IsFalse result }
    {
        false
    }
}
