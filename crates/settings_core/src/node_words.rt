//! Words by which a server keeps its set equal with others, and answers this machine's own programs.

ghost use Rattle.std.specs.Prelude.{◌≡◌, option_map};
ghost use Rattle.std.specs.List.{list_all};
ghost use Rattle.settings_core.specs.NodeWords.{scan_after, scanned, are_partners, is_part_of_four, is_four};
ghost use Rattle.settings_core.specs.NodeWords.{host_in, is_loopback, is_unix, may_control, all_fit, node_flaw};

use crate::addresses::{host_of, is_host};
use thiserror::Error;

/// The greatest number of partners.
pub(crate) const MAX_PARTNERS: u32 = 64;

/// The word in place of an address of a server that nobody may call, which calls others.
pub const NO_ADDRESS: &str = "none";

/// Why a server does not keep its set equal with others, or answers no programs or browsers, as its words ask for it.
///
/// It prints as the text for standard error.
#[derive(Clone, Copy, Debug, PartialEq, Eq, Error)]
pub enum NodeFlaw {
    /// It is said how often partners are called, and there are none.
    #[error("error: --every needs --with")]
    NoPartners,
    /// The session is to be spoken over standard input and output.
    #[error("error: --with and --control cannot be used with --stdio")]
    Stdio,
    /// The partners are none, or too many, or one has no address.
    #[error("error: --with takes 1 to 64 addresses, with a comma between two")]
    Partners,
    /// It is said of which origins pages may connect, and none can.
    #[error("error: --origin needs --websocket")]
    NoPages,
    /// Browsers are to connect, and the session is to be spoken over standard input and output.
    #[error("error: --websocket cannot be used with --stdio")]
    WebStdio,
    /// Programs would be answered that are not on this machine.
    #[error("error: --control takes unix:PATH or an address of the loopback, as 127.0.0.1:7707")]
    Control,
}

/// The words of a server that may be about partners, browsers, or this machine's own programs.
#[derive(Clone, Copy, Debug, PartialEq, Eq)]
pub struct NodeWords<'a> {
    /// The addresses of the partners, if they are given.
    pub partners: Option<&'a str>,
    /// Whether it is said how often they are called.
    pub has_every: bool,
    /// Where programs are answered, if that is given.
    pub control: Option<&'a str>,
    /// Whether browsers may connect.
    pub has_pages: bool,
    /// Whether it is said of which origins their pages may be.
    pub has_origins: bool,
    /// Whether the session is to be spoken over standard input and output.
    pub is_stdio: bool,
}

/// How far a list of addresses was read: how many more may follow, and whether the last one has no byte so far.
#[derive(Clone, Copy)]
struct Scan {
    left: u32,
    is_empty: bool,
}

impl Scan {
    /// The same with one more byte; none where an address without a byte is over, or there is one too many.
    fn after(self, byte: u8) -> Option<Scan>
        ensures { option_map scanned result ≡ scan_after (scanned self) byte }
    {
        if byte != b',' {
            return Some(Scan {
                left: self.left,
                is_empty: false,
            });
        }
        if self.is_empty || self.left == 0 {
            return None;
        }
        Some(Scan {
            left: self.left - 1,
            is_empty: true,
        })
    }
}

/// Whether a text is 1 to 64 addresses with a comma between two, each of a byte at least.
fn are_partners(text: &[u8]) -> bool
    ensures { result ≡ are_partners text.now }
{
    let mut scan = Scan {
        left: MAX_PARTNERS - 1,
        is_empty: true,
    };
    for byte in text {
        let Some(next) = scan.after(*byte) else {
            return false;
        };
        scan = next;
    }
    !scan.is_empty
}

/// Whether all bytes are decimal digits and points.
fn are_dotted(bytes: &[u8]) -> bool
    ensures { result ≡ list_all is_part_of_four bytes.now }
{
    bytes
        .iter()
        .all(|byte| *byte == b'.' || byte.is_ascii_digit())
}

/// Whether a host is an IPv4 address of the loopback: `127.` and decimal digits and points.
fn is_four(host: &str) -> bool
    ensures { result ≡ is_four host.now }
{
    let Some((first, rest)) = host.split_once('.') else {
        return false;
    };
    first == "127" && are_dotted(rest.as_bytes())
}

/// The host of an address, which may have a port.
fn host_in(address: &str) -> &str
    ensures { result.now ≡ host_in address.now }
{
    if is_host(address) {
        return address;
    }
    host_of(address).unwrap_or(address)
}

/// Whether an address, with a port or without one, is of the loopback.
fn is_loopback(address: &str) -> bool
    ensures { result ≡ is_loopback address.now }
{
    if address == "::1" {
        return true;
    }
    let host = host_in(address);
    host == "localhost" || host == "[::1]" || is_four(host)
}

/// Whether a word is the path of a Unix socket.
fn is_unix(word: &str) -> bool
    ensures { result ≡ is_unix word.now }
{
    let Some((kind, _path)) = word.split_once(':') else {
        return false;
    };
    kind == "unix"
}

/// Whether this machine's own programs alone reach this place: a Unix socket, or an address of the loopback.
fn may_control(word: &str) -> bool
    ensures { result ≡ may_control word.now }
{
    is_unix(word) || is_loopback(word)
}

/// Whether the partners are a list of addresses, if they are given.
fn fits_partners(partners: Option<&str>) -> bool
    ensures { result ≡ all_fit are_partners (option_map (λ text. text.now) partners.entry) }
{
    match partners {
        Some(text) => are_partners(text.as_bytes()),
        None => true,
    }
}

/// Whether this machine's own programs alone are answered, if any are.
fn fits_control(control: Option<&str>) -> bool
    ensures { result ≡ all_fit may_control (option_map (λ text. text.now) control.entry) }
{
    match control {
        Some(word) => may_control(word),
        None => true,
    }
}

/// Why such a server is not run, the first of these that holds: the pause between sessions is given and no partners, or
/// origins and no place where browsers connect; a session is to be spoken over standard input and output; the partners
/// are no list of addresses, or other machines would reach the place where programs are answered.
pub fn node_flaw(words: NodeWords<'_>) -> Option<NodeFlaw>
    ensures { result ≡ node_flaw (option_map (λ text. text.now) words.entry.partners) words.entry.has_every
        (option_map (λ text. text.now) words.entry.control) words.entry.has_pages words.entry.has_origins
        words.entry.is_stdio }
{
    if words.partners.is_none() && words.has_every {
        return Some(NodeFlaw::NoPartners);
    }
    if words.has_origins && !words.has_pages {
        return Some(NodeFlaw::NoPages);
    }
    if words.is_stdio && (words.partners.is_some() || words.control.is_some()) {
        return Some(NodeFlaw::Stdio);
    }
    if words.is_stdio && words.has_pages {
        return Some(NodeFlaw::WebStdio);
    }
    if !fits_partners(words.partners) {
        return Some(NodeFlaw::Partners);
    }
    if !fits_control(words.control) {
        return Some(NodeFlaw::Control);
    }
    None
}
