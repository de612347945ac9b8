ghost use Rattle.std.specs.Prelude.{◌≡◌, ◌<◌};
ghost use Rattle.nm_superblock.specs.Spans.{candidates_of, in_sync_of, partial_of};

/// For each of 64 stripes three sets of legs, as four bytes: those in sync, those about to be, and
/// those that lack no more than marked spans; the fourth byte is not used. Bit `l` is leg `l`.
#[derive(Clone, Copy, Debug, PartialEq, Eq)]
pub struct LegSets {
    /// The sets, stripe after stripe.
    pub bytes: [u8; 256],
}

impl LegSets {
    /// The legs that are in sync in the stripe.
    pub fn in_sync(&self, stripe: usize) -> u8
        requires { stripe < 64 }
        ensures { result ≡ in_sync_of stripe self.now }
    {
        self.bytes[4 * stripe]
    }

    /// The legs that are about to be in sync in the stripe.
    pub fn candidates(&self, stripe: usize) -> u8
        requires { stripe < 64 }
        ensures { result ≡ candidates_of stripe self.now }
    {
        self.bytes[4 * stripe + 1]
    }

    /// The legs that are not in sync in the stripe, and lack no more than marked spans.
    pub fn partial(&self, stripe: usize) -> u8
        requires { stripe < 64 }
        ensures { result ≡ partial_of stripe self.now }
    {
        self.bytes[4 * stripe + 2]
    }
}
