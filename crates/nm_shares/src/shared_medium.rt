//! An array in memory that several users share: an honest medium whose syncs fail.
ghost use Rattle.std.specs.Prelude.{◌≡◌, ◌<◌, true, false, IfOk};
ghost use Rattle.nm_file_leg.specs.Media.{of_mem, steady};
ghost use Rattle.nm_shares.specs.SharedMedium.{IsArray, bytes_of, settled, new_leg, share_of};

use crate::shared_syncs::SharedSyncs;
use nm_file_leg::{FileLeg, Medium, MemMedium};
use nm_geometry::Shape;
use nm_leg::LegPart;
use std::alloc::{AllocError, Global};
use std::io;
use std::io::ErrorKind;
use std::sync::Arc;
use std::test::Fail;

/// One user's share of an array in memory: the blocks of one stripe of an export.
///
/// It keeps both premises of an honest medium. Only this user has these bytes, so no other changes
/// them; and a sync that fails fails the next sync of each other user. What was written and not yet
/// made durable is lost where a sync fails: no later one makes it durable.
#[derive(Drop)]
pub struct SharedMedium {
    shape: Shape,
    stripe: u32,
    contents: MemMedium,
    /// What the next sync that succeeds makes durable.
    pending: MemMedium,
    durable: MemMedium,
    syncs: Arc<SharedSyncs>,
    ghost array: { IsArray (bytes_of contents pending durable) },
}

/// A medium of these bytes.
fn medium_of(alloc: Global, bytes: &[u8]) -> Result<MemMedium, AllocError>
    ensures { IfOk result (λ medium. of_mem medium ≡ steady bytes.now) }
{
    let mut all = Vec::new(alloc);
    all.extend_from_slice(bytes)?;
    Ok(MemMedium::new(all))
}

impl SharedMedium {
    /// The share of the user that has this stripe's blocks, of an array of these bytes.
    pub fn new(
        alloc: Global,
        syncs: &Arc<SharedSyncs>,
        shape: &Shape,
        stripe: u32,
        bytes: &[u8],
    ) -> Result<Self, AllocError>
        ensures { IfOk result (λ medium. share_of medium.stripe medium.shape
            (bytes_of medium.contents medium.pending medium.durable)
            ≡ share_of stripe shape.now (settled bytes.now)) }
    {
        Ok(SharedMedium {
            shape: *shape,
            stripe,
            contents: medium_of(alloc, bytes)?,
            pending: medium_of(alloc, bytes)?,
            durable: medium_of(alloc, bytes)?,
            syncs: Arc::try_clone(syncs)?,
        })
    }

    /// What a loss of power would leave.
    pub fn durable_bytes(&self) -> &[u8]
        ensures { steady result.now ≡ of_mem self.now.durable }
    {
        self.durable.bytes()
    }
}

impl Medium for SharedMedium {
    ghost use Rattle.nm_shares.specs.SharedMedium.{bytes_of, share_of};

    ghost honest = { true };

    ghost held = { λ medium. share_of medium.stripe medium.shape
        (bytes_of medium.contents medium.pending medium.durable) };

    ghost tells = { λ _. false };

    ghost doubted = { λ _. false };

    fn read_at(&mut self, at: u64, into: &mut [u8]) -> io::Result<usize> {
        self.contents.read_at(at, into)
    }

    fn write_at(&mut self, at: u64, bytes: &[u8]) -> io::Result<usize> {
        self.contents.write_at(at, bytes)?;
        self.pending.write_at(at, bytes)
    }

    fn sync(&mut self) -> io::Result<()> {
        if !self.syncs.try_sync(self.stripe) {
            self.pending.write_at(0, self.durable.bytes())?;
            return Err(io::Error::from(ErrorKind::Other));
        }
        self.durable.write_at(0, self.pending.bytes())?;
        Ok(())
    }

    fn len(&self) -> io::Result<u64> {
        self.contents.len()
    }

    fn is_hole(&self, at: u64, many: usize) -> bool {
        self.contents.is_hole(at, many)
    }

    fn tells_loss(&self) -> bool {
        false
    }

    fn is_doubted(&self) -> bool {
        false
    }
}

/// A leg on one user's share of an array.
pub type SharedLeg = FileLeg<SharedMedium>;

/// The leg of this stripe on its share of an array of these bytes, none of which it has synced.
pub fn leg_on_share(
    alloc: Global,
    syncs: &Arc<SharedSyncs>,
    shape: &Shape,
    stripe: u32,
    bytes: &[u8],
) -> Result<SharedLeg, Fail>
    requires { stripe < shape.now.stripes }
    ensures { IfOk result (λ leg. ⟦<FileLeg<SharedMedium> as LegPart>⟧.model leg
        ≡ new_leg (share_of stripe shape.now (settled bytes.now)) stripe shape.now) }
{
    let _regions = shape.regions();
    let medium = SharedMedium::new(alloc, syncs, shape, stripe, bytes)?;
    Ok(FileLeg::new(alloc, medium, shape, stripe)?)
}
