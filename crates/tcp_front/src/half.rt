//! The two halves of a connection.

ghost use Rattle.std.specs.Io.{ReadsAtMost, WritesAtMost};

use crate::origin::origin_of;
use crate::stream::Stream;
use crate::web::{Origins, WebReader, write_close};
use http_core::Framing;
use std::alloc::Global;
use std::io;
use std::io::{ErrorKind, Read, Write};
use std::net::{Shutdown, SocketAddr};
use std::os::fd::{AsRawFd, RawFd};
use std::sync::Arc;

/// What one half does with the bytes that go through.
#[derive(Drop)]
enum Way {
    /// Nothing.
    Plain,
    /// It takes them out of the frames of a WebSocket.
    Reads(Box<WebReader>),
    /// It puts them into frames.
    Writes(Framing),
}

/// One half of a connection: what is read of it, or what is written to it. Of a WebSocket it is what its frames have.
///
/// Both halves share the connection's one descriptor, so a session takes no second one. The connection is closed when
/// both are dropped.
#[derive(Drop)]
pub struct Half {
    stream: Arc<Stream>,
    /// The address of TCP of the other side, if it is known.
    address: Option<SocketAddr>,
    /// How many bytes went through. The count stops at 2^64 - 1.
    bytes: u64,
    way: Way,
}

impl Half {
    /// One half of a connection from this address, through which nothing went so far.
    fn new(stream: Arc<Stream>, address: Option<SocketAddr>, way: Way) -> Half {
        Half {
            stream,
            address,
            bytes: 0,
            way,
        }
    }

    /// The connection.
    pub(crate) fn stream(&self) -> &Stream {
        &self.stream
    }

    /// The address of TCP of the other side, if it is known.
    pub fn address(&self) -> Option<SocketAddr> {
        self.address
    }

    /// Where the other side counts, if it has an address of TCP.
    pub fn origin(&self) -> Option<u128> {
        match self.address {
            Some(address) => Some(origin_of(address)),
            None => None,
        }
    }

    /// How many bytes were read of this half, or written to it, on the connection itself.
    pub fn bytes(&self) -> u64 {
        match &self.way {
            Way::Reads(web) => self.bytes.saturating_add(web.bytes()),
            _ => self.bytes,
        }
    }

    /// Nothing more is written to the connection.
    pub fn end_output(&self) -> io::Result<()> {
        self.stream.shutdown(Shutdown::Write)
    }

    /// Nothing more is written to this half of a connection, of which that one was read. A WebSocket that has begun,
    /// and of which no frame is cut, is closed first.
    pub fn end_after(&self, reader: &Half) -> io::Result<()> {
        if let (Way::Writes(framing), Way::Reads(web)) = (&self.way, &reader.way) {
            if web.has_begun() && !framing.is_inside() {
                write_close(&self.stream, web.close_code());
            }
        }
        self.end_output()
    }

    /// What the connection gives, whatever it is.
    pub fn read_on(&mut self, buf: &mut [u8]) -> io::Result<usize>
        ensures { ReadsAtMost result buf.new }
    {
        let count = self.stream.receive(buf)?;
        self.bytes = self.bytes.saturating_add(count as u64);
        Ok(count)
    }
}

impl AsRawFd for Half {
    fn as_raw_fd(&self) -> RawFd {
        self.stream.as_raw_fd()
    }
}

impl Read for Half {
    fn read(&mut self, buf: &mut [u8]) -> io::Result<usize> {
        match &mut self.way {
            Way::Reads(web) => web.read(&self.stream, buf),
            _ => self.read_on(buf),
        }
    }
}

/// Writes bytes in a frame: what is owed of its head, and as many as it has room for. How many of them were taken.
fn write_framed(
    stream: &Stream,
    framing: &mut Framing,
    buf: &[u8],
    bytes: &mut u64,
) -> io::Result<usize>
    ensures bound { WritesAtMost result buf.now }
{
    let most = framing.begin(buf.len());
    let count = stream.send_both(framing.owed(), &buf[..most])?;
    *bytes = bytes.saturating_add(count as u64);
    let taken = framing.wrote(count).min(most);
    if taken == 0 && most > 0 {
        return Err(io::Error::from(ErrorKind::WouldBlock));
    }
    Ok(taken)
}

impl Half {
    /// Writes bytes as they are.
    fn write_plain(&mut self, buf: &[u8]) -> io::Result<usize>
        ensures bound { WritesAtMost result buf.now }
    {
        let count = self.stream.send(buf)?;
        self.bytes = self.bytes.saturating_add(count as u64);
        Ok(count)
    }
}

impl Write for Half {
    fn write(&mut self, buf: &[u8]) -> io::Result<usize> {
        match &mut self.way {
            Way::Writes(framing) => write_framed(&self.stream, framing, buf, &mut self.bytes),
            _ => self.write_plain(buf),
        }
    }

    fn flush(&mut self) -> io::Result<()> {
        Ok(())
    }
}

/// The half that is read and the half that is written of a connection from this address; without memory there are none,
/// and the connection is closed.
pub(crate) fn halves(
    alloc: Global,
    stream: Stream,
    address: Option<SocketAddr>,
) -> Option<(Half, Half)> {
    let reader = Arc::new(alloc, stream).ok()?;
    let writer = Arc::try_clone(&reader).ok()?;
    Some((
        Half::new(reader, address, Way::Plain),
        Half::new(writer, address, Way::Plain),
    ))
}

/// The same of a connection that is to be a WebSocket, which pages of these origins may open, and whose frames have at
/// most so many bytes.
pub(crate) fn web_halves(
    alloc: Global,
    stream: Stream,
    address: Option<SocketAddr>,
    pages: (&Origins, u64),
) -> Option<(Half, Half)> {
    let (origins, most) = pages;
    let origins = Arc::try_clone(origins).ok()?;
    let web = Box::new(alloc, WebReader::new(alloc, origins, most)).ok()?;
    let (reader, writer) = halves(alloc, stream, address)?;
    Some((
        Half {
            way: Way::Reads(web),
            ..reader
        },
        Half {
            way: Way::Writes(Framing::new()),
            ..writer
        },
    ))
}
