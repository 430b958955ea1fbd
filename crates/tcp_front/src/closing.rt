//! The close of a connection. It is read on for a while, so that what was written last arrives: a system that closes a
//! connection with input unread throws away what the peer has not got so far.

ghost use Rattle.std.specs.Prelude.{◌≡◌, ◌+◌, ◌<◌, ◌≤◌, max, IfSome, IfNone};
ghost use Rattle.std.specs.Duration.{as_nanos};

use crate::patience::seconds;
use crate::stream::Stream;
use std::io;
use std::io::Read;
use std::net::Shutdown;
use std::time::{Clock, Duration, Instant};

/// For how many seconds a connection is read on, at most.
const MOST_SECONDS: u32 = 1;

/// The bound on the bytes that are read on, where the session may not read so many more itself.
const LEAST_BOUND: u64 = 65_536;

/// How many bytes at most are read on, where the session might have read so many more.
fn bound(left: u64) -> u64
    ensures { result ≡ max left 65_536 }
{
    left.max(LEAST_BOUND)
}

/// What is left of the second of which so much is over, if anything is.
fn rest_of_second(over: Duration) -> Option<Duration>
    ensures rest { IfSome result (λ rest. (0 < as_nanos rest) × (as_nanos rest + as_nanos over ≡ 1_000_000_000)) }
    ensures none { IfNone result (1_000_000_000 ≤ as_nanos over) }
{
    let rest = seconds(MOST_SECONDS).saturating_sub(over);
    if rest.is_zero() {
        return None;
    }
    Some(rest)
}

/// Reads what comes and drops it, until the input ends, so many bytes have come, or a second is over.
fn read_on<C: Clock>(clock: &C, stream: &Stream, most_bytes: u64) -> io::Result<()> {
    let start = Instant::now(clock)?;
    let mut input = stream.take(most_bytes);
    let mut piece = [0u8; 8_192];
    // each turn reads a byte at least
    for _ in 0..most_bytes {
        let Some(rest) = rest_of_second(start.elapsed(clock)?) else {
            return Ok(());
        };
        stream.set_read_timeout(Some(rest))?;
        if input.read(&mut piece)? == 0 {
            return Ok(());
        }
    }
    Ok(())
}

/// Ends a connection whose session is over, before it is dropped: nothing more is written, and what comes is read on to
/// its end and dropped, for a second at most. So a peer that sends no more than that gets all that was written.
///
/// At most 65,536 bytes are read on, or those that are left of what the session may read, if these are more. A call
/// that fails ends it.
pub fn finish<C: Clock>(clock: &C, stream: &Stream, left: u64) {
    if stream.shutdown(Shutdown::Write).is_ok() {
        let _failed = read_on(clock, stream, bound(left));
    }
}
