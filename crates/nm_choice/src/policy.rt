ghost use Rattle.std.specs.Prelude.{◌≡◌, ◌<◌, ◌≤◌, length, Some};
ghost use Rattle.nm_choice.specs.Choice.{place_of, picked, next_turn};

/// How a read of a quiet region picks its leg among those that are current there.
#[derive(Clone, Copy, Debug, PartialEq, Eq)]
pub enum Policy {
    /// One leg after the other, by the turn.
    RoundRobin,
    /// By the region's number, so that neighbouring regions are read from different legs.
    Striped,
}

impl Policy {
    /// The place that the policy picks among so many candidates.
    fn place(self, turn: u64, region: u64, candidates: u64) -> u64
        requires { 0 < candidates }
        ensures place { result ≡ place_of self turn region candidates }
        ensures inside { result < candidates }
    {
        match self {
            Policy::RoundRobin => turn % candidates,
            Policy::Striped => region % candidates,
        }
    }
}

/// The leg that a read takes. In a quiet region it is one of `current`, the legs that are current
/// at the block by rising number; else the master alone is read.
pub fn pick(policy: Policy, turn: u64, region: u64, current: &[u8], master: u8, quiet: bool) -> u8
    requires { 0 < length current.now }
    ensures { picked policy turn region current.now master quiet ≡ Some result }
{
    if !quiet {
        return master;
    }
    let place = policy.place(turn, region, current.len() as u64);
    current[place as usize]
}

/// The turn after a read of a quiet region. It counts to 840, of which each number of legs up to
/// eight is a divisor, so that starting anew favours no leg.
pub fn next_turn(turn: u64) -> u64
    requires { turn < 840 }
    ensures next { result ≡ next_turn turn }
    ensures below { result < 840 }
{
    (turn + 1) % 840
}
