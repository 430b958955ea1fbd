//! Calls that are tried again while the system has no room for what they make.

ghost use Rattle.std.specs.Prelude.{◌≡◌};
ghost use Rattle.tcp_front.specs.Misses.{miss_for};

use std::io;
use std::time::{Clock, Duration};

/// How often a call is tried again while there is no room.
const MAX_TRIES: u32 = 6_000;

/// How many connections that are gone are passed over in a row before there is a pause.
const MAX_GONE: u64 = 1_000;

/// The pause before each further try, in milliseconds.
const PAUSE: u64 = 100;

/// Why a call made no connection.
#[derive(Clone, Copy, Debug, PartialEq, Eq)]
pub(crate) enum Miss {
    /// The connection was gone before it was accepted, or its network was.
    Gone,
    /// There is no descriptor, or no memory, for one more.
    NoRoom,
    /// Anything else.
    Failed,
}

/// Why a call made no connection, by the number that Linux gives: that of a missing descriptor (the process's 24, the
/// system's 23) or of missing memory (12, 105), or one of those that `accept` passes on from a connection that is gone.
pub(crate) fn miss_of(code: Option<i32>) -> Miss
    ensures { result ≡ miss_for code }
{
    match code {
        Some(12 | 23 | 24 | 105) => Miss::NoRoom,
        Some(1 | 64 | 71 | 92 | 95 | 100 | 101 | 103 | 112 | 113) => Miss::Gone,
        _ => Miss::Failed,
    }
}

/// Something that is made by a call of the system.
pub(crate) trait Attempt {
    /// What it makes.
    type Made: Drop;

    /// One call.
    fn attempt(&self) -> io::Result<Self::Made>;
}

/// Whether a call made nothing for this reason.
fn is_missed<T>(made: &io::Result<T>, miss: Miss) -> bool {
    match made {
        Ok(_) => false,
        Err(error) => miss_of(error.raw_os_error()) == miss,
    }
}

/// What the call makes. While there is no room it is made again after a pause, at most `MAX_TRIES` times.
pub(crate) fn tried<C: Clock, A: Attempt>(clock: &C, call: &A) -> io::Result<A::Made> {
    for _ in 0..MAX_TRIES {
        let made = call.attempt();
        if !is_missed(&made, Miss::NoRoom) {
            return made;
        }
        clock.sleep(Duration::from_millis(PAUSE));
    }
    call.attempt()
}

/// What the call makes, tried as above. One that is gone is passed over; after so many in a row there is a pause, so
/// that a system which tells nothing else cannot keep a processor busy.
pub(crate) fn present<C: Clock, A: Attempt>(clock: &C, call: &A) -> io::Result<A::Made> {
    for gone in 1..u64::MAX {
        let made = tried(clock, call);
        if !is_missed(&made, Miss::Gone) {
            return made;
        }
        if gone % MAX_GONE == 0 {
            clock.sleep(Duration::from_millis(PAUSE));
        }
    }
    tried(clock, call)
}

#[cfg(test)]
mod tests {
    use super::{Attempt, MAX_TRIES, present, tried};
    use std::io;
    use std::sync::atomic::{AtomicU32, Ordering};
    use std::time::{Clock, Duration};

    /// A call that fails with this number, this many times.
    #[derive(Drop)]
    struct Scarce {
        code: i32,
        left: AtomicU32,
    }

    impl Attempt for Scarce {
        type Made = u32;

        fn attempt(&self) -> io::Result<u32> {
            let one_less = |left: u32| left.checked_sub(1);
            match self
                .left
                .fetch_update(Ordering::SeqCst, Ordering::SeqCst, one_less)
            {
                Ok(_) => Err(io::Error::from_raw_os_error(self.code)),
                Err(_) => Ok(7),
            }
        }
    }

    /// A clock that counts the pauses.
    #[derive(Drop)]
    struct Pauses(AtomicU32);

    impl Clock for Pauses {
        fn monotonic(&self) -> io::Result<Duration> {
            Ok(Duration::ZERO)
        }

        fn since_1970(&self) -> io::Result<Duration> {
            Ok(Duration::ZERO)
        }

        fn sleep(&self, _duration: Duration) {
            self.0.fetch_add(1, Ordering::SeqCst);
        }
    }

    /// Whether the call is made at last, and the number of pauses.
    fn run(code: i32, times: u32, passes_over: bool) -> (bool, u32) {
        let call = Scarce {
            code,
            left: AtomicU32::new(times),
        };
        let clock = Pauses(AtomicU32::new(0));
        let made = if passes_over {
            present(&clock, &call)
        } else {
            tried(&clock, &call)
        };
        (made.is_ok(), clock.0.load(Ordering::SeqCst))
    }

    #[test]
    fn no_room_is_waited_for(rt: HostRuntime) {
        for code in [12, 23, 24, 105] {
            assert_eq!(rt; run(code, 3, false), (true, 3));
        }
        assert_eq!(rt; run(24, MAX_TRIES, false), (true, MAX_TRIES));
        assert_eq!(rt; run(24, MAX_TRIES + 1, false), (false, MAX_TRIES));
    }

    #[test]
    fn what_is_gone_is_passed_over(rt: HostRuntime) {
        assert_eq!(rt; run(103, 999, true), (true, 0));
        assert_eq!(rt; run(103, 2_000, true), (true, 2));
        assert_eq!(rt; run(103, 1, false), (false, 0));
        assert_eq!(rt; run(24, 2, true), (true, 2));
    }

    #[test]
    fn other_faults_end_it(rt: HostRuntime) {
        assert_eq!(rt; run(11, 1, true), (false, 0));
        assert_eq!(rt; run(22, 1, true), (false, 0));
    }
}
