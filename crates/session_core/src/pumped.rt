//! What one call did, and how it left off.

ghost use Rattle.std.specs.Prelude.{◌≡◌};
ghost use Rattle.session_core.specs.Links.{both_of, pause_at};

use crate::fault::LinkFault;
use crate::polled::Last;

/// How a call left off.
#[derive(Clone, Copy, Debug, PartialEq, Eq)]
pub enum Pause {
    /// There is nothing to read, or no room to write: go on once the stream is ready.
    Waits,
    /// The call did as much as one call may: go on soon.
    More,
    /// The first message is whole, or no byte comes after what has come: open the session. None that is open leaves off
    /// so.
    Opens,
    /// The session is over, and all of its text is written.
    Over,
}

/// What one call did.
#[derive(Clone, Copy, Debug, PartialEq, Eq)]
pub struct Pumped {
    /// How it left off.
    pub pause: Pause,
    /// How many bytes it read. It stops at the greatest number.
    pub read: u64,
    /// How many bytes it wrote. It stops at the greatest number.
    pub written: u64,
}

/// How a read or a write leaves off; or the fault, where it failed.
pub fn pause_of(last: Last, fault: LinkFault) -> Result<Pause, LinkFault>
    ensures { result ≡ pause_at last fault }
{
    match last {
        Last::Waits => Ok(Pause::Waits),
        Last::Failed => Err(fault),
        _ => Ok(Pause::More),
    }
}

/// What two calls did, one after the other.
pub fn both(first: Pumped, second: Pumped) -> Pumped
    ensures { result ≡ both_of first second }
{
    Pumped {
        pause: second.pause,
        read: first.read.saturating_add(second.read),
        written: first.written.saturating_add(second.written),
    }
}
