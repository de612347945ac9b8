ghost use Rattle.std.specs.Prelude.{◌≤◌, ◌^◌, length};

use crate::export_flags::ExportFlags;
use crate::name::Name;
use bitflags::Flags;
use std::alloc::AllocError;

/// The one disk that is served.
#[derive(Drop)]
pub struct Export {
    /// The name that clients ask for, at most 255 bytes.
    pub name: Name,
    /// The length in blocks of 512 bytes, at most 2^31.
    pub blocks: u64,
    /// Whether writes are refused.
    pub read_only: bool,
    pub ghost short_name: { length name ≤ 255 },
    pub ghost bounded: { blocks ≤ 2 ^ 31 },
}

impl Export {
    ghost use Rattle.std.specs.Prelude.{◌≡◌};
    ghost use Rattle.nm_wire.specs.Export.{size_of, flags_of};

    /// The length in bytes.
    pub fn size(&self) -> u64
        ensures { result ≡ size_of self.now }
    {
        self.blocks * 512
    }

    /// The transmission flags that the export announces ("Transmission flags").
    pub fn flags(&self) -> ExportFlags
        ensures { result.0 ≡ flags_of self.now }
    {
        let every = ExportFlags::HAS_FLAGS
            .union(ExportFlags::SEND_FLUSH)
            .union(ExportFlags::CAN_MULTI_CONN);
        if self.read_only {
            every.union(ExportFlags::READ_ONLY)
        } else {
            every
                .union(ExportFlags::SEND_FUA)
                .union(ExportFlags::SEND_TRIM)
                .union(ExportFlags::SEND_WRITE_ZEROES)
        }
    }
}

impl Clone for Export {
    ghost use Rattle.std.specs.Prelude.{◌≡◌};

    ghost is_clone = { λ export copy. copy ≡ export };

    fn clone(&self) -> Result<Export, AllocError> {
        Ok(Export {
            name: self.name.clone()?,
            blocks: self.blocks,
            read_only: self.read_only,
        })
    }
}
