ghost use Rattle.std.specs.Prelude.{◌≡◌, ◌<◌, IfSome};
ghost use Rattle.nm_service.specs.CopyPacing.{rest_after, rest_beside, time_for};

/// How many microseconds a copy beside clients rests at most.
const MOST_REST: u64 = 100_000;

/// A turn of a copy that is over.
#[derive(Clone, Copy)]
pub struct CopyTurn {
    /// How many bytes it copied.
    pub bytes: u32,
    /// How many microseconds it took.
    pub took: u64,
    /// Whether clients asked for something since the turn before it ended.
    pub is_shared: bool,
}

// How many microseconds so many bytes take at so many MiB a second.
fn time_for(bytes: u32, mib: u16) -> u64
    requires { 0 < mib }
    ensures { result ≡ time_for bytes mib }
{
    1_000_000 * u64::from(bytes) / (1_048_576 * u64::from(mib))
}

// How many microseconds a copy rests for clients, after a turn that took so long.
fn rest_beside(is_shared: bool, took: u64) -> u64
    ensures { result ≡ rest_beside is_shared took }
{
    if !is_shared {
        0
    } else if took > MOST_REST / 3 {
        MOST_REST
    } else {
        3 * took
    }
}

/// How many microseconds a copy rests after a turn.
///
/// With a rate, in MiB a second, until the turn's bytes have had their time: a turn that was late
/// gives the next one no more. Without one it leaves three quarters of the time to clients, and
/// rests for at most a tenth of a second, so that it ends beside clients that never pause.
pub fn rest_after(rate: Option<u16>, turn: &CopyTurn) -> u64
    requires { IfSome rate (λ mib. 0 < mib) }
    ensures { result ≡ rest_after rate turn.now }
{
    match rate {
        Some(mib) => time_for(turn.bytes, mib).saturating_sub(turn.took),
        None => rest_beside(turn.is_shared, turn.took),
    }
}
