ghost use Rattle.std.specs.Prelude.{⊤, [], ◌∷◌, codes};

use bitflags::{Flag, Flags, bitflag_items};

/// The flags of one request, 16 bits ("Command flags"). Unknown bits are kept.
#[derive(Clone, Copy, PartialEq, Eq)]
pub struct CommandFlags(pub u16);

bitflag_items! {
    impl CommandFlags: u16 {
        /// Force unit access: the data are durable before the reply is sent.
        const FUA = 1;
        /// WRITE_ZEROES allocates the range; it makes no hole.
        const NO_HOLE = 2;
        /// The reply to a READ is not fragmented.
        const DF = 4;
    }
}

impl Flags for CommandFlags {
    type Bits = u16;

    ghost exact = { ⊤ };

    ghost table = { (codes "FUA", 1)
        ∷ (codes "NO_HOLE", 2)
        ∷ (codes "DF", 4)
        ∷ [] };

    ghost set_of = { λ flags. flags.0 };

    fn flags<'a>() -> &'a [Flag<CommandFlags>] {
        CommandFlags::FLAGS
    }

    fn bits(&self) -> u16 {
        self.0
    }

    fn from_bits_retain(bits: u16) -> CommandFlags {
        CommandFlags(bits)
    }
}
