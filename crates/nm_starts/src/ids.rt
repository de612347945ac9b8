//! Numbers drawn at random, by which mirrors, legs and lineages are told apart.
ghost use Rattle.std.specs.Prelude.{◌<◌, IfOk};

use nm_reports::StartFault;
use std::random::RandomSource;

/// A number that is not 0.
pub fn draw_id<R: RandomSource>(rt: &R) -> Result<u64, StartFault>
    ensures { IfOk result (λ id. 0 < id) }
{
    let mut bytes = [0; 8];
    if rt.fill_bytes(&mut bytes).is_err() {
        return Err(StartFault::NoRandomNumbers);
    }
    Ok(u64::from_be_bytes(bytes).max(1))
}

/// The number of a new mirror, that is not 0.
pub fn draw_mirror_id<R: RandomSource>(rt: &R) -> Result<u128, StartFault>
    ensures { IfOk result (λ id. 0 < id) }
{
    let high = draw_id(rt)?;
    let low = draw_id(rt)?;
    Ok(u128::from(high) << 64 | u128::from(low))
}
