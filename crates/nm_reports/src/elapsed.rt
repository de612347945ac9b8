//! How much time has passed, as numbers.

use std::time::{Clock, Duration, Instant, SystemTime};

// How much time has passed since this moment: none, where the clock cannot be read.
fn since<R: Clock>(rt: &R, begun: &Option<Instant>) -> Duration {
    match begun {
        Some(begun) => begun.elapsed(rt).unwrap_or(Duration::ZERO),
        None => Duration::ZERO,
    }
}

/// How many milliseconds have passed since this moment: none, where the clock cannot be read.
pub fn milliseconds_since<R: Clock>(rt: &R, begun: &Option<Instant>) -> u64 {
    u64::try_from(since(rt, begun).as_millis()).unwrap_or(u64::MAX)
}

/// How many microseconds have passed since this moment: none, where the clock cannot be read.
pub fn microseconds_since<R: Clock>(rt: &R, begun: &Option<Instant>) -> u64 {
    u64::try_from(since(rt, begun).as_micros()).unwrap_or(u64::MAX)
}

/// The present second, counted from 1970 on: 0 where the clock cannot be read.
pub fn present_second<R: Clock>(rt: &R) -> u64 {
    let Ok(now) = SystemTime::now(rt) else {
        return 0;
    };
    let passed: Duration = now
        .duration_since(SystemTime::UNIX_EPOCH)
        .unwrap_or(Duration::ZERO);
    passed.as_secs()
}
