ghost use Rattle.std.specs.Prelude.{⊤, [], ◌∷◌, codes};

use bitflags::{Flag, Flags, bitflag_items};

/// What the server offers in its greeting, 16 bits ("Handshake flags").
#[derive(Clone, Copy, PartialEq, Eq)]
pub struct ServerFlags(pub u16);

bitflag_items! {
    impl ServerFlags: u16 {
        /// The server speaks the fixed newstyle negotiation.
        const FIXED_NEWSTYLE = 1;
        /// The zeroes at the end of the reply to EXPORT_NAME can be left out.
        const NO_ZEROES = 2;
    }
}

impl Flags for ServerFlags {
    type Bits = u16;

    ghost exact = { ⊤ };

    ghost table = { (codes "FIXED_NEWSTYLE", 1)
        ∷ (codes "NO_ZEROES", 2)
        ∷ [] };

    ghost set_of = { λ flags. flags.0 };

    fn flags<'a>() -> &'a [Flag<ServerFlags>] {
        ServerFlags::FLAGS
    }

    fn bits(&self) -> u16 {
        self.0
    }

    fn from_bits_retain(bits: u16) -> ServerFlags {
        ServerFlags(bits)
    }
}
