ghost use Rattle.std.specs.Prelude.{◌≡◌, ◌<◌, ◌≤◌, length, position, IfSome};
ghost use Rattle.nm_choice.specs.Choice.{elected, is_in_sync};

use crate::LegState;

/// The first leg in sync.
fn first_in_sync(states: &[LegState]) -> Option<usize>
    ensures first { result ≡ position is_in_sync states.now }
    ensures within { IfSome result (λ leg. leg < length states.now) }
{
    states.iter().position(|state| *state == LegState::InSync)
}

/// The leg that becomes master: the lowest in sync, where there is one.
pub fn elect(states: &[LegState]) -> Option<u8>
    requires few { length states.now ≤ 8 }
    ensures { result ≡ elected states.now }
{
    let leg = first_in_sync(states)?;
    Some(leg as u8)
}
