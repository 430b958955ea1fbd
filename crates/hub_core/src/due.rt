//! When the first message of a peer is judged.

ghost use Rattle.std.specs.Prelude.{◌≡◌, ◌≤◌, drop, length};
ghost use Rattle.std.specs.Int.{w32, from_be_bytes};
ghost use Rattle.hub_core.specs.Firsts as firsts;
ghost use Rattle.hub_core.specs.Greetings as greetings;

use digest_core::{Counted, Fingerprint, Print, WireSummary};

/// The length of a hello.
pub const HELLO: usize = 4;

/// Where the body of the first frame begins: after the hello and the length.
const BODY: usize = 8;

/// A session is opened at once for a frame that is longer than this, and once more than `MOST` bytes have come.
const LONG: u32 = 512;

const MOST: usize = 1_024;

/// The length of the end of a message.
const END: [u8; 4] = [0, 0, 0, 1];

/// How a frame begins that may begin a session: its length, and a Sum over all items.
const FRONT: [u8; 7] = [0, 0, 0, 35, 1, 0, 0xFF];

/// The same in profile 2.
const COUNTED_FRONT: [u8; 7] = [0, 0, 0, 39, 1, 0, 0xFF];

/// The same in the compact profile.
const COMPACT_FRONT: [u8; 7] = [0, 0, 0, 15, 1, 0, 0xFF];

/// Whether these bytes begin with the hello of profile 2.
pub(crate) fn is_counted(came: &[u8]) -> bool
    ensures { result ≡ greetings.is_counted came.now }
{
    let front = &came[..came.len().min(HELLO)];
    front == Counted::hello().as_slice()
}

/// Whether these bytes begin with the hello of the compact profile.
pub(crate) fn is_compact(came: &[u8]) -> bool
    ensures { result ≡ greetings.is_compact came.now }
{
    let front = &came[..came.len().min(HELLO)];
    front == Print::hello().as_slice()
}

/// Whether these bytes begin with the hello of profile 1.
fn is_plain(came: &[u8]) -> bool
    ensures { result ≡ firsts.is_plain came.now }
{
    let front = &came[..came.len().min(HELLO)];
    front == Fingerprint::hello().as_slice()
}

/// Whether these bytes begin with a hello that no profile has.
fn is_strange(came: &[u8]) -> bool
    ensures { result ≡ firsts.is_strange came.now }
{
    came.len() >= HELLO && !is_counted(came) && !is_compact(came) && !is_plain(came)
}

/// The bytes from this place on.
pub(crate) fn rest_of(bytes: &[u8], from: usize) -> &[u8]
    requires { from ≤ length bytes.now }
    ensures { result.now ≡ drop from bytes.now }
{
    &bytes[from..]
}

/// The number that 4 bytes spell, the highest first.
fn number(bytes: &[u8]) -> u32
    requires { length bytes.now ≡ 4 }
    ensures { result ≡ from_be_bytes w32 bytes.now }
{
    u32::from_be_bytes([bytes[0], bytes[1], bytes[2], bytes[3]])
}

/// The length of the first frame.
fn long(came: &[u8]) -> u32
    requires { 8 ≤ length came.now }
    ensures { result ≡ firsts.long came.now }
{
    number(&came[HELLO..BODY])
}

/// Whether the first frame is one that may begin a session, as far as its length and its range say.
fn is_front(came: &[u8]) -> bool
    requires { 8 ≤ length came.now }
    ensures { result ≡ firsts.is_front came.now }
{
    let end = came.len().min(HELLO + FRONT.len());
    let front = &came[HELLO..end];
    if is_counted(came) {
        return front == COUNTED_FRONT.as_slice();
    }
    if is_compact(came) {
        return front == COMPACT_FRONT.as_slice();
    }
    front == FRONT.as_slice()
}

/// Whether it is known what comes after a frame that may begin a session: the end of the message, or none.
fn is_told(rest: &[u8]) -> bool
    ensures { result ≡ firsts.is_told rest.now }
{
    rest.len() >= END.len() && rest != END.as_slice()
}

/// Whether the first frame is whole, and is none that may begin a session, or it is known what comes after it.
fn is_framed(came: &[u8], long: u32) -> bool
    requires { (8 ≤ length came.now) × (long ≡ firsts.long came.now) }
    ensures { result ≡ firsts.is_framed came.now }
{
    let end = BODY + long as usize;
    came.len() >= end && (!is_front(came) || is_told(rest_of(came, end)))
}

/// Whether the first frame is judged, whose length has come.
fn is_judged(came: &[u8]) -> bool
    requires { 8 ≤ length came.now }
    ensures { result ≡ firsts.is_judged came.now }
{
    let long = long(came);
    long == 0 || long > LONG || is_framed(came, long)
}

/// Whether a session is to be opened for these bytes: the first message is whole, or it is refused already, or it is
/// too long to wait for.
pub(crate) fn is_due(came: &[u8]) -> bool
    ensures { result ≡ firsts.is_due came.now }
{
    came.len() > MOST || is_strange(came) || (came.len() >= BODY && is_judged(came))
}
