//! Where a side of sessions listens or connects.

ghost use Rattle.std.specs.Prelude.{◌≡◌, IfOk, option_map, string_bytes};
ghost use Rattle.std.specs.List.{list_any};
ghost use Rattle.settings_core.specs.Addresses.{IsAddress, is_colon, ends_in, is_host, host_of, is_part_of_six};
ghost use Rattle.settings_core.specs.Addresses.{whole_address};

use std::alloc::{AllocError, Global};

/// The address, if none is given.
pub const DEFAULT_ADDRESS: &str = "127.0.0.1:7700";

/// The port of an address that is given without one.
pub const DEFAULT_PORT: &str = "7700";

/// The port of an address for browsers that is given without one.
pub const WEBSOCKET_PORT: &str = "7708";

/// The port of an address for metrics that is given without one.
pub const METRICS_PORT: &str = "7702";

/// The port of an address for this machine's own programs that is given without one.
pub const CONTROL_PORT: &str = "7707";

/// Where one listens, or connects.
#[derive(Clone, Copy, Debug, PartialEq, Eq)]
pub enum Address<'a> {
    /// At an IP address or a host's name, and a port.
    Tcp(&'a str),
    /// At the path of a Unix socket.
    Unix(&'a str),
}

/// The address that a word names: what follows `unix:` is the path of a Unix socket, and any other word is an address
/// of TCP.
pub fn address_of(word: &str) -> Address<'_>
    ensures { IsAddress word.now result }
{
    match word.strip_prefix("unix:") {
        Some(path) => Address::Unix(path),
        None => Address::Tcp(word),
    }
}

/// Whether there is a `:` among these bytes.
fn has_colon(bytes: &[u8]) -> bool
    ensures { result ≡ list_any is_colon bytes.now }
{
    bytes.iter().any(|byte| *byte == b':')
}

/// Whether this is the last of these bytes.
fn ends_in(bytes: &[u8], last: u8) -> bool
    ensures { result ≡ ends_in last bytes.now }
{
    !bytes.is_empty() && bytes[bytes.len() - 1] == last
}

/// Whether an address is a host alone: it has no `:`, or ends with the bracket of an IPv6 address.
pub(crate) fn is_host(address: &str) -> bool
    ensures { result ≡ is_host address.now }
{
    !has_colon(address.as_bytes()) || ends_in(address.as_bytes(), b']')
}

/// What stands before the last `:` of an address, if it has one.
pub(crate) fn host_of(address: &str) -> Option<&str>
    ensures { option_map (λ text. text.now) result ≡ host_of address.now }
{
    let (host, _port) = address.rsplit_once(':')?;
    Some(host)
}

/// Whether what stands before the last `:` of an address is no host, but a part of an IPv6 address: it ends with a `:`
/// too, and is not the address `::`.
fn is_six_alone(address: &str) -> bool
    ensures { result ≡ is_part_of_six (host_of address.now) }
{
    match host_of(address) {
        Some(host) => host != "::" && ends_in(host.as_bytes(), b':'),
        None => false,
    }
}

/// The address with this port, if it has none: a host alone, or an IPv6 address, which then stands in brackets.
pub fn whole_address(alloc: Global, address: &str, port: &str) -> Result<String, AllocError>
    ensures { IfOk result (λ text. string_bytes text ≡ whole_address port.now address.now) }
{
    if is_host(address) {
        return format!(in alloc; "{address}:{port}");
    }
    if is_six_alone(address) {
        return format!(in alloc; "[{address}]:{port}");
    }
    String::from_str(alloc, address)
}
