//! Times in milliseconds.

use std::time::{Clock, Duration, Instant};

/// The milliseconds of a duration.
pub fn millis_of(duration: Duration) -> u64 {
    u64::try_from(duration.as_millis()).unwrap_or(u64::MAX)
}

/// The time of the steady clock; 0 if it fails.
pub fn now<R: Clock>(rt: &R) -> u64 {
    rt.monotonic().map_or(0, |moment| millis_of(moment))
}

/// The milliseconds since then, where the clock tells.
pub fn millis_since<R: Clock>(rt: &R, start: Option<Instant>) -> Option<u64> {
    Some(millis_of(start?.elapsed(rt).ok()?))
}
