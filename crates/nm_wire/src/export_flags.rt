ghost use Rattle.std.specs.Prelude.{⊤, [], ◌∷◌, codes};

use bitflags::{Flag, Flags, bitflag_items};

/// What an export supports, 16 bits ("Transmission flags").
#[derive(Clone, Copy, PartialEq, Eq)]
pub struct ExportFlags(pub u16);

bitflag_items! {
    impl ExportFlags: u16 {
        /// The other bits are valid; always set.
        const HAS_FLAGS = 1;
        /// The export takes no writes.
        const READ_ONLY = 2;
        /// FLUSH is served.
        const SEND_FLUSH = 4;
        /// The flag FUA is served.
        const SEND_FUA = 8;
        /// The export is on a rotating disk.
        const ROTATIONAL = 16;
        /// TRIM is served.
        const SEND_TRIM = 32;
        /// WRITE_ZEROES is served.
        const SEND_WRITE_ZEROES = 64;
        /// The flag DF is served.
        const SEND_DF = 128;
        /// A FLUSH on one connection also covers the writes of the others.
        const CAN_MULTI_CONN = 256;
    }
}

impl Flags for ExportFlags {
    type Bits = u16;

    ghost exact = { ⊤ };

    ghost table = { (codes "HAS_FLAGS", 1)
        ∷ (codes "READ_ONLY", 2)
        ∷ (codes "SEND_FLUSH", 4)
        ∷ (codes "SEND_FUA", 8)
        ∷ (codes "ROTATIONAL", 16)
        ∷ (codes "SEND_TRIM", 32)
        ∷ (codes "SEND_WRITE_ZEROES", 64)
        ∷ (codes "SEND_DF", 128)
        ∷ (codes "CAN_MULTI_CONN", 256)
        ∷ [] };

    ghost set_of = { λ flags. flags.0 };

    fn flags<'a>() -> &'a [Flag<ExportFlags>] {
        ExportFlags::FLAGS
    }

    fn bits(&self) -> u16 {
        self.0
    }

    fn from_bits_retain(bits: u16) -> ExportFlags {
        ExportFlags(bits)
    }
}
