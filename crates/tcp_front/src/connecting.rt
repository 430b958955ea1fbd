//! A connection that is made.

use crate::fault::ConnectFault;
use crate::patience::{bounded, seconds};
use crate::stream::Stream;
use crate::unreached::{Unreached, port_is_too_high, unknown, unmet};
use std::alloc::Global;
use std::io;
use std::io::ErrorKind;
use std::net::{Net, SocketAddr, TcpStream, ToSocketAddrs};

/// A connection to this address, none of whose calls takes longer.
fn reach<R: Net<Stream = TcpStream>>(
    rt: &R,
    address: &SocketAddr,
    patience: u32,
) -> io::Result<Stream> {
    let stream = TcpStream::connect_timeout(rt, address, seconds(patience))?;
    bounded(Stream::Tcp(stream), patience)
}

/// The addresses of a text: that of an IP address and a port, as `127.0.0.1:7700`, or all that the system knows of a
/// host's name, each once and in the system's order. The look-up of a name may take as long as the system lets it.
///
/// Fails with 61 if the text is no address or its name is not known, and with 90.
pub fn addresses_of<R: Net>(
    rt: &R,
    alloc: Global,
    text: &str,
) -> Result<Vec<SocketAddr>, ConnectFault> {
    if port_is_too_high(text) {
        return Err(ConnectFault::Unreached(Unreached::PortTooHigh));
    }
    let places = match text.to_socket_addrs(rt) {
        Ok(places) => places,
        Err(error) => return Err(ConnectFault::of(unknown(&error))),
    };
    let mut addresses = Vec::new(alloc);
    for place in places {
        if !addresses.contains(&place) && addresses.push(place).is_err() {
            return Err(ConnectFault::Memory);
        }
    }
    Ok(addresses)
}

/// A connection to the first of these addresses that answers in time.
fn reach_any<R: Net<Stream = TcpStream>>(
    rt: &R,
    addresses: &[SocketAddr],
    patience: u32,
) -> Result<Stream, ConnectFault> {
    let mut last = io::Error::from(ErrorKind::InvalidInput);
    for address in addresses {
        match reach(rt, address, patience) {
            Ok(stream) => return Ok(stream),
            Err(error) => last = error,
        }
    }
    Err(ConnectFault::of(unmet(&last, patience)))
}

/// Connects to the first of these addresses that answers. Small messages are sent at once, where the system takes that
/// setting. The connect, a read or a write that takes longer than this many seconds fails.
///
/// Fails with 61 if nobody answers there in time, and with 90.
pub fn connect_any<R: Net<Stream = TcpStream>>(
    rt: &R,
    addresses: &[SocketAddr],
    patience: u32,
) -> Result<Stream, ConnectFault> {
    let stream = reach_any(rt, addresses, patience)?;
    stream.send_at_once();
    Ok(stream)
}

/// Connects to an address: an IP address or a host's name, and a port, as `127.0.0.1:7700`; of a name, at its first
/// address that answers. Else as `addresses_of` and `connect_any`.
pub fn connect<R: Net<Stream = TcpStream> + AllocGlobal>(
    rt: &R,
    address: &str,
    patience: u32,
) -> Result<Stream, ConnectFault> {
    let addresses = addresses_of(rt, rt.alloc(), address)?;
    connect_any(rt, &addresses, patience)
}
