ghost use Rattle.std.specs.Prelude.{⊤, [], ◌∷◌, codes};

use bitflags::{Flag, Flags, bitflag_items};

/// The client's answer to the greeting, 32 bits ("Client flags"). Unknown bits are kept.
#[derive(Clone, Copy, PartialEq, Eq)]
pub struct ClientFlags(pub u32);

bitflag_items! {
    impl ClientFlags: u32 {
        /// The client speaks the fixed newstyle negotiation.
        const FIXED_NEWSTYLE = 1;
        /// The client wants no zeroes at the end of the reply to EXPORT_NAME.
        const NO_ZEROES = 2;
    }
}

impl Flags for ClientFlags {
    type Bits = u32;

    ghost exact = { ⊤ };

    ghost table = { (codes "FIXED_NEWSTYLE", 1)
        ∷ (codes "NO_ZEROES", 2)
        ∷ [] };

    ghost set_of = { λ flags. flags.0 };

    fn flags<'a>() -> &'a [Flag<ClientFlags>] {
        ClientFlags::FLAGS
    }

    fn bits(&self) -> u32 {
        self.0
    }

    fn from_bits_retain(bits: u32) -> ClientFlags {
        ClientFlags(bits)
    }
}
