//! A connection, over TCP or over a Unix socket.

ghost use Rattle.std.specs.Io.{ReadsAtMost, WritesAtMost};

use std::io;
use std::io::{IoSlice, Read, Write};
use std::net::{Shutdown, SocketAddr, TcpStream};
use std::os::fd::{AsRawFd, RawFd};
use std::os::unix::net::UnixStream;
use std::time::Duration;

/// A connection, over TCP or over a Unix socket.
#[derive(Drop)]
pub enum Stream {
    /// Over TCP.
    Tcp(TcpStream),
    /// Over a Unix socket.
    Unix(UnixStream),
}

impl Stream {
    /// From now on small messages are sent at once, where the system takes that setting. Over a Unix socket they always
    /// are.
    pub(crate) fn send_at_once(&self) {
        if let Stream::Tcp(stream) = self {
            let _set = stream.set_nodelay(true);
        }
    }

    /// Ends one way of the connection, or both.
    pub(crate) fn shutdown(&self, how: Shutdown) -> io::Result<()> {
        match self {
            Stream::Tcp(stream) => stream.shutdown(how),
            Stream::Unix(stream) => stream.shutdown(how),
        }
    }

    /// From now on a read that takes longer fails.
    pub(crate) fn set_read_timeout(&self, most: Option<Duration>) -> io::Result<()> {
        match self {
            Stream::Tcp(stream) => stream.set_read_timeout(most),
            Stream::Unix(stream) => stream.set_read_timeout(most),
        }
    }

    /// From now on a write that takes longer fails.
    pub(crate) fn set_write_timeout(&self, most: Option<Duration>) -> io::Result<()> {
        match self {
            Stream::Tcp(stream) => stream.set_write_timeout(most),
            Stream::Unix(stream) => stream.set_write_timeout(most),
        }
    }

    /// The address of TCP of the other side, if it is known.
    pub fn address(&self) -> Option<SocketAddr> {
        match self {
            Stream::Tcp(stream) => stream.peer_addr().ok(),
            Stream::Unix(_) => None,
        }
    }

    /// From now on no call waits.
    pub(crate) fn never_wait(&self) -> io::Result<()> {
        match self {
            Stream::Tcp(stream) => stream.set_nonblocking(true),
            Stream::Unix(stream) => stream.set_nonblocking(true),
        }
    }
}

impl AsRawFd for Stream {
    fn as_raw_fd(&self) -> RawFd {
        match self {
            Stream::Tcp(stream) => stream.as_raw_fd(),
            Stream::Unix(stream) => stream.as_raw_fd(),
        }
    }
}

/// What the system gives of a connection over TCP.
fn read_tcp(stream: &TcpStream, buf: &mut [u8]) -> io::Result<usize>
    ensures bound { ReadsAtMost result buf.new }
{
    let mut stream: &TcpStream = stream;
    stream.read(buf)
}

/// What the system gives of a connection over a Unix socket.
fn read_unix(stream: &UnixStream, buf: &mut [u8]) -> io::Result<usize>
    ensures bound { ReadsAtMost result buf.new }
{
    let mut stream: &UnixStream = stream;
    stream.read(buf)
}

/// What the system takes for a connection over TCP.
fn write_tcp(stream: &TcpStream, buf: &[u8]) -> io::Result<usize>
    ensures bound { WritesAtMost result buf.now }
{
    let mut stream: &TcpStream = stream;
    stream.write(buf)
}

/// What the system takes for a connection over a Unix socket.
fn write_unix(stream: &UnixStream, buf: &[u8]) -> io::Result<usize>
    ensures bound { WritesAtMost result buf.now }
{
    let mut stream: &UnixStream = stream;
    stream.write(buf)
}

impl Stream {
    /// What the system gives of the connection.
    pub(crate) fn receive(&self, buf: &mut [u8]) -> io::Result<usize>
        ensures bound { ReadsAtMost result buf.new }
    {
        match self {
            Stream::Tcp(stream) => read_tcp(stream, buf),
            Stream::Unix(stream) => read_unix(stream, buf),
        }
    }

    /// What the system takes for the connection.
    pub(crate) fn send(&self, buf: &[u8]) -> io::Result<usize>
        ensures bound { WritesAtMost result buf.now }
    {
        match self {
            Stream::Tcp(stream) => write_tcp(stream, buf),
            Stream::Unix(stream) => write_unix(stream, buf),
        }
    }
}

/// What the system takes of two texts, one after the other, for a connection over TCP.
fn write_both_tcp(stream: &TcpStream, front: &[u8], buf: &[u8]) -> io::Result<usize> {
    stream.write_vectored(&[IoSlice::new(front), IoSlice::new(buf)])
}

/// What the system takes of two texts, one after the other, for a connection over a Unix socket.
fn write_both_unix(stream: &UnixStream, front: &[u8], buf: &[u8]) -> io::Result<usize> {
    stream.write_vectored(&[IoSlice::new(front), IoSlice::new(buf)])
}

impl Stream {
    /// What the system takes of two texts, one after the other.
    pub(crate) fn send_both(&self, front: &[u8], buf: &[u8]) -> io::Result<usize> {
        match self {
            Stream::Tcp(stream) => write_both_tcp(stream, front, buf),
            Stream::Unix(stream) => write_both_unix(stream, front, buf),
        }
    }
}

impl Read for &Stream {
    fn read(&mut self, buf: &mut [u8]) -> io::Result<usize> {
        self.receive(buf)
    }
}

impl Write for &Stream {
    fn write(&mut self, buf: &[u8]) -> io::Result<usize> {
        self.send(buf)
    }

    /// Nothing waits to be written.
    fn flush(&mut self) -> io::Result<()> {
        Ok(())
    }
}
