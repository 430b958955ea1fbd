//! Why an address is not listened at, or not reached.

ghost use Rattle.std.specs.Prelude.{◌≡◌, option_copied};
ghost use Rattle.std.specs.Char.{is_ascii_digit};
ghost use Rattle.std.specs.IoError.{error_kind};
ghost use Rattle.std.specs.List.{list_all};
ghost use Rattle.tcp_front.specs.Causes.{port_of, is_too_high, port_is_too_high, path_flaw};
ghost use Rattle.tcp_front.specs.Causes.{unknown, unheard, unmet, unix_unheard, unix_unmet};

use std::io;
use std::io::ErrorKind;

/// The greatest number of bytes of the path of a socket.
const MOST_BYTES: usize = 107;

/// Why an address is not listened at, or not reached.
#[derive(Clone, Copy, Debug, PartialEq, Eq)]
pub enum Unreached {
    /// Its text has no port.
    NoPort,
    /// Its port is above 65535.
    PortTooHigh,
    /// Its host has no address.
    NoHost,
    /// It is in use.
    InUse,
    /// It is another machine's.
    NotHere,
    /// This user may not listen there.
    NoLeave,
    /// It is not listened at, for any other reason.
    NotFree,
    /// Nobody answers there.
    Nobody,
    /// No answer came in so many seconds.
    NoAnswer { seconds: u32 },
    /// The network has no way there.
    NoWay,
    /// It is a Unix socket without a path.
    NoPath,
    /// The path of the socket is too long.
    PathTooLong,
    /// A folder stands at the path of the socket.
    Folder,
    /// A file that is no socket stands at its path.
    NotASocket,
    /// The folder of the socket is not there.
    NoFolder,
    /// No socket can be made there, for any other reason.
    NoSocket,
    /// This user may not connect there.
    NoEntry,
}

/// What follows the last `:` of an address, if it has one.
fn port_of(address: &str) -> Option<&str>
    ensures { option_copied result ≡ port_of address.now }
{
    let (_host, port) = address.rsplit_once(':')?;
    Some(port)
}

/// Whether all bytes are decimal digits.
fn are_digits(bytes: &[u8]) -> bool
    ensures { result ≡ list_all is_ascii_digit bytes.now }
{
    bytes.iter().all(|byte| byte.is_ascii_digit())
}

/// Whether this is decimal digits, and a number above 65535.
fn is_too_high(digits: &str) -> bool
    ensures { result ≡ is_too_high digits.now }
{
    if digits.is_empty() {
        return false;
    }
    if !are_digits(digits.as_bytes()) {
        return false;
    }
    digits.parse::<u16>().is_err()
}

/// Whether what follows the last `:` of an address is decimal digits, and a number above 65535.
pub(crate) fn port_is_too_high(address: &str) -> bool
    ensures { result ≡ port_is_too_high address.now }
{
    match port_of(address) {
        Some(port) => is_too_high(port),
        None => false,
    }
}

/// What is wrong with the path of a Unix socket itself, if anything is.
pub(crate) fn path_flaw(path: &str) -> Option<Unreached>
    ensures { result ≡ path_flaw path.now }
{
    if path.is_empty() {
        return Some(Unreached::NoPath);
    }
    if path.len() > MOST_BYTES {
        return Some(Unreached::PathTooLong);
    }
    None
}

/// Why the text of an address was not looked up, by what the system said; none where memory ran out.
pub(crate) fn unknown(error: &io::Error) -> Option<Unreached>
    ensures { result ≡ unknown (error_kind error.now) }
{
    match error.kind() {
        ErrorKind::OutOfMemory => None,
        ErrorKind::InvalidInput => Some(Unreached::NoPort),
        _ => Some(Unreached::NoHost),
    }
}

/// Why an address is not listened at.
pub(crate) fn unheard(error: &io::Error) -> Option<Unreached>
    ensures { result ≡ unheard (error_kind error.now) }
{
    match error.kind() {
        ErrorKind::OutOfMemory => None,
        ErrorKind::AddrInUse => Some(Unreached::InUse),
        ErrorKind::AddrNotAvailable => Some(Unreached::NotHere),
        ErrorKind::PermissionDenied => Some(Unreached::NoLeave),
        _ => Some(Unreached::NotFree),
    }
}

/// Why an address is not reached, for which there were so many seconds.
pub(crate) fn unmet(error: &io::Error, seconds: u32) -> Option<Unreached>
    ensures { result ≡ unmet (error_kind error.now) seconds }
{
    match error.kind() {
        ErrorKind::OutOfMemory => None,
        ErrorKind::TimedOut | ErrorKind::WouldBlock => Some(Unreached::NoAnswer { seconds }),
        ErrorKind::HostUnreachable | ErrorKind::NetworkUnreachable => Some(Unreached::NoWay),
        _ => Some(Unreached::Nobody),
    }
}

/// Why a path is not listened at, which may be a socket's.
pub(crate) fn unix_unheard(error: &io::Error) -> Option<Unreached>
    ensures { result ≡ unix_unheard (error_kind error.now) }
{
    match error.kind() {
        ErrorKind::OutOfMemory => None,
        ErrorKind::AddrInUse => Some(Unreached::InUse),
        ErrorKind::NotFound | ErrorKind::NotADirectory => Some(Unreached::NoFolder),
        ErrorKind::PermissionDenied => Some(Unreached::NoLeave),
        _ => Some(Unreached::NoSocket),
    }
}

/// Why nobody is reached at a path, which may be a socket's.
pub(crate) fn unix_unmet(error: &io::Error) -> Option<Unreached>
    ensures { result ≡ unix_unmet (error_kind error.now) }
{
    match error.kind() {
        ErrorKind::OutOfMemory => None,
        ErrorKind::PermissionDenied => Some(Unreached::NoEntry),
        _ => Some(Unreached::Nobody),
    }
}
