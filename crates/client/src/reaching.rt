//! Connections to an address as the words give it: over TCP, or to a Unix socket.

use printing_core::Refusal;
use settings_core::{Address, address_of};
use std::net::{Net, TcpStream};
use std::rt::Files;
use tcp_front::{ConnectFault, Stream, connect, connect_unix};

/// Connects to the address of this word over TCP or to a Unix socket.
fn connect_at<R: Files + Net<Stream = TcpStream> + AllocGlobal>(
    rt: &R,
    word: &str,
    patience: u32,
) -> Result<Stream, ConnectFault> {
    match address_of(word) {
        Address::Tcp(address) => connect(rt, address, patience),
        Address::Unix(path) => connect_unix(rt, path, patience),
    }
}

/// Connects to the address of this word. A read or a write that takes longer than this many seconds fails, and so does
/// a connect over TCP. Else 61 or 90.
pub fn connect_to<'a, R: Files + Net<Stream = TcpStream> + AllocGlobal>(
    rt: &R,
    word: &'a str,
    patience: u32,
) -> Result<Stream, Refusal<'a>> {
    match connect_at(rt, word, patience) {
        Ok(stream) => Ok(stream),
        Err(fault) => Err(Refusal::of_connect(word, fault)),
    }
}
