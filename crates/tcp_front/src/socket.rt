//! What is listened at: an address of TCP, or a Unix socket.

use crate::stream::Stream;
use std::io;
use std::net::{SocketAddr, TcpListener};
use std::os::fd::{AsRawFd, RawFd};
use std::os::unix::net::UnixListener;

/// What is listened at.
#[derive(Drop)]
pub(crate) enum Socket {
    /// An address of TCP.
    Tcp(TcpListener),
    /// The path of a Unix socket.
    Unix(UnixListener),
}

impl Socket {
    /// The next connection, and the address of its other side over TCP.
    pub(crate) fn accept(&self) -> io::Result<(Stream, Option<SocketAddr>)> {
        match self {
            Socket::Tcp(listener) => {
                let (stream, from) = listener.accept()?;
                Ok((Stream::Tcp(stream), Some(from)))
            }
            Socket::Unix(listener) => {
                let (stream, _from) = listener.accept()?;
                Ok((Stream::Unix(stream), None))
            }
        }
    }

    /// From now on an accept with nobody there does not wait.
    pub(crate) fn never_wait(&self) -> io::Result<()> {
        match self {
            Socket::Tcp(listener) => listener.set_nonblocking(true),
            Socket::Unix(listener) => listener.set_nonblocking(true),
        }
    }

    /// The address of TCP, with its real port, if it is one and the system tells it.
    pub(crate) fn local_addr(&self) -> Option<SocketAddr> {
        match self {
            Socket::Tcp(listener) => listener.local_addr().ok(),
            Socket::Unix(_) => None,
        }
    }
}

impl AsRawFd for Socket {
    fn as_raw_fd(&self) -> RawFd {
        match self {
            Socket::Tcp(listener) => listener.as_raw_fd(),
            Socket::Unix(listener) => listener.as_raw_fd(),
        }
    }
}
