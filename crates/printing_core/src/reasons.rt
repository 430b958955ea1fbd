//! The second lines that want more than the error that they speak of.

ghost use Rattle.std.specs.Prelude.{◌≡◌};
ghost use Rattle.printing_core.specs.Refusals.{IsSaidOfLine, full_why, message_why, broken_why, refusing_why};
ghost use Rattle.printing_core.specs.Refusals.{session_why, peer_why};

use crate::fault::Fault;
use crate::shown::shown_line;
use crate::why::{OtherSide, Why};
use item_files::BadLine;
use settings_core::shard_bits_for;
use std::alloc::Global;
use tcp_front::Limits;
use wire_core::WireFault;

/// The greatest cap of a strategy.
const MAX_CAP: usize = 65_536;

/// A set is cut into at most 2 to this power shards.
const MAX_BITS: u8 = 12;

/// The number of the refusal of a message that ends too early.
const TRUNCATED: u8 = 3;

/// For a bad line of a file of items. None where memory runs out.
pub(crate) fn why_bad_line<'a>(alloc: Global, file: &'a str, bad: &BadLine) -> Option<Why<'a>>
    ensures { IsSaidOfLine file.entry bad.now result }
{
    let shown = shown_line(alloc, bad.front.bytes()).ok()?;
    Some(Why::BadLine {
        file,
        line: bad.number,
        flaw: bad.flaw,
        shown,
    })
}

/// For a set of so many items in a file, above this cap: in shards there is room, where no cap is greater.
pub(crate) fn why_full<'a>(file: &'a str, cap: usize, count: usize) -> Why<'a>
    ensures { result ≡ full_why file.entry cap count }
{
    if cap < MAX_CAP {
        return Why::LowCap { file, cap };
    }
    let count = count.min(u32::MAX as usize) as u32;
    let bits = shard_bits_for(count).unwrap_or(MAX_BITS);
    Why::NoShards { file, cap, bits }
}

/// For the input of `answer`, in hex or in bytes, and for its output.
pub(crate) fn why_message(is_hexed: bool, fault: Fault) -> Option<Why<'static>>
    ensures { result ≡ message_why is_hexed fault }
{
    match fault {
        Fault::CannotRead => Some(Why::NoInput),
        Fault::NotHex => Some(Why::NotHex),
        Fault::Wire(WireFault::Truncated) => Some(Why::CutInput),
        Fault::Wire(_) if is_hexed => Some(Why::NotMessage),
        Fault::Wire(_) => Some(Why::NotBytes),
        Fault::Misplaced => Some(Why::NotSum),
        Fault::WriterFailed => Some(Why::Output),
        _ => None,
    }
}

/// For a session that was refused here with a number other than 3.
fn why_broken(side: OtherSide, code: u8) -> Option<Why<'static>>
    ensures { result ≡ broken_why side code }
{
    match code {
        1 => Some(Why::Stranger { side }),
        12 => Some(Why::TooManyParts { side }),
        2..=26 => Some(Why::Unruly { side }),
        55 => Some(Why::OtherSet { side }),
        _ => None,
    }
}

/// For a session that a server refused with this number.
fn why_refusing(code: u8) -> Why<'static>
    ensures { result ≡ refusing_why code }
{
    let side = OtherSide::Server;
    match code {
        1 => Why::NoHello,
        55 => Why::OtherShape,
        _ => Why::Refusing { side, code },
    }
}

/// For a session with a server, of which so many bytes were read.
pub(crate) fn why_session(limits: Limits, received: u64, fault: Fault) -> Option<Why<'static>>
    ensures { result ≡ session_why limits received fault }
{
    let Limits {
        patience,
        most_bytes,
    } = limits;
    match fault {
        Fault::Session { code: TRUNCATED } if received < u64::from(most_bytes) => Some(Why::Ended),
        Fault::Session { code: TRUNCATED } => Some(Why::TooMuch { most_bytes }),
        Fault::Session { code } => why_broken(OtherSide::Server, code),
        Fault::PeerRefused { code } => Some(why_refusing(code)),
        Fault::ReaderFailed => Some(Why::Silent { patience }),
        Fault::WriterFailed => Some(Why::NotTaking { patience }),
        _ => None,
    }
}

/// For a session over standard input and output, of which so many bytes may be read.
pub(crate) fn why_peer(most_bytes: u32, fault: Fault) -> Option<Why<'static>>
    ensures { result ≡ peer_why most_bytes fault }
{
    let side = OtherSide::Peer;
    match fault {
        Fault::Session { code: TRUNCATED } => Some(Why::Cut { most_bytes }),
        Fault::Session { code } => why_broken(side, code),
        Fault::PeerRefused { code } => Some(Why::Refusing { side, code }),
        Fault::ReaderFailed => Some(Why::PeerUnread),
        Fault::WriterFailed => Some(Why::PeerClosed),
        _ => None,
    }
}
