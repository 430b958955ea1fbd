//! A listener that workers share.

ghost use Rattle.std.specs.Prelude.{◌≡◌};
ghost use Rattle.std.specs.IoError.{error_kind};
ghost use Rattle.tcp_front.specs.Causes.{accept_fault};

use crate::closing::finish;
use crate::fault::ListenFault;
use crate::half::{Half, halves};
use crate::limits::{Limits, limited};
use crate::patience::bounded;
use crate::socket::Socket;
use crate::stream::Stream;
use crate::trying::{Attempt, present};
use crate::unix_socket::SocketFile;
use crate::unreached::{Unreached, port_is_too_high, unheard, unknown};
use crate::web::Origins;
use session_table::{Source, SourceFault};
use std::alloc::{AllocError, Global};
use std::io;
use std::io::{ErrorKind, Take};
use std::net::{Net, SocketAddr, TcpListener, TcpStream, ToSocketAddrs};
use std::os::fd::{AsRawFd, RawFd};
use std::rt::Files;
use std::sync::Arc;
use std::sync::atomic::{AtomicU64, Ordering};
use std::time::Clock;

/// One place where a listener listens.
#[derive(Drop)]
pub(crate) struct Entrance<'a> {
    pub(crate) socket: Socket,
    // That of a Unix socket.
    file: Option<SocketFile<'a>>,
    // Which pages may connect, where those who come speak over WebSockets.
    pub(crate) pages: Option<Origins>,
}

/// A listener that workers share, and how many connections they may still wait for. It may listen at two places.
///
/// A worker counts its connection before it waits to accept, so none waits for one beyond the number. A connection that
/// is gone before it is accepted is passed over. Where there is no descriptor or memory for one, it is tried again
/// after a pause, a bounded number of times. After an accept that failed no connection is left.
#[derive(Drop)]
pub struct Listener<'a, C> {
    entrance: Entrance<'a>,
    second: Option<Entrance<'a>>,
    left: AtomicU64,
    // What each connection may cost.
    pub(crate) limits: Limits,
    pub(crate) alloc: Global,
    clock: &'a C,
}

/// Why a connection was not accepted.
pub(crate) fn accept_fault(error: &io::Error) -> SourceFault
    ensures { result ≡ accept_fault (error_kind error.now) }
{
    match error.kind() {
        ErrorKind::OutOfMemory => SourceFault::Memory,
        _ => SourceFault::Accept,
    }
}

/// A socket that listens at the first address of the text at which it may.
fn bind_any<R: Net<Listener = TcpListener, Stream = TcpStream>>(
    rt: &R,
    address: &str,
) -> Result<TcpListener, ListenFault> {
    if port_is_too_high(address) {
        return Err(ListenFault::Unreached(Unreached::PortTooHigh));
    }
    let places = match address.to_socket_addrs(rt) {
        Ok(places) => places,
        Err(error) => return Err(ListenFault::of(unknown(&error))),
    };
    let mut last = io::Error::from(ErrorKind::InvalidInput);
    for place in places {
        match TcpListener::bind(rt, place) {
            Ok(socket) => return Ok(socket),
            Err(error) => last = error,
        }
    }
    Err(ListenFault::of(unheard(&last)))
}

/// Listens at an address: an IP address or a host's name, and a port, as `127.0.0.1:7700`; at port 0 the system chooses
/// one. After this many connections the listener gives no more; with none it has no end. A read or a write of a
/// connection that takes longer than the limits say fails, and its input ends after the bytes that they say. A
/// connection is closed as by `finish`.
///
/// Fails with 60 if the text is no address, or the address is in use or may not be listened at, and with 90.
pub fn listen<'a, R: Net<Listener = TcpListener, Stream = TcpStream> + Clock + AllocGlobal>(
    rt: &'a R,
    address: &str,
    connections: Option<u32>,
    limits: Limits,
) -> Result<Listener<'a, R>, ListenFault> {
    let socket = Socket::Tcp(bind_any(rt, address)?);
    Ok(Listener::new(rt, socket, connections, limits))
}

/// The next connection of a socket.
#[derive(Drop)]
struct Next<'a>(&'a Socket);

impl Attempt for Next<'_> {
    type Made = Stream;

    fn attempt(&self) -> io::Result<Stream> {
        let (stream, _from) = self.0.accept()?;
        Ok(stream)
    }
}

impl<'a, R: AllocGlobal> Listener<'a, R> {
    /// Listens at this socket for so many connections.
    pub(crate) fn new(
        rt: &'a R,
        socket: Socket,
        connections: Option<u32>,
        limits: Limits,
    ) -> Listener<'a, R> {
        Listener {
            entrance: Entrance {
                socket,
                file: None,
                pages: None,
            },
            second: None,
            left: AtomicU64::new(connections.map_or(u64::MAX, u64::from)),
            limits,
            alloc: rt.alloc(),
            clock: rt,
        }
    }

    /// The same listener, whose socket has this file.
    pub(crate) fn with_file(self, file: SocketFile<'a>) -> Listener<'a, R> {
        Listener {
            entrance: Entrance {
                file: Some(file),
                ..self.entrance
            },
            ..self
        }
    }
}

impl<'a, C> Listener<'a, C> {
    /// The same listener, to which browsers come: over WebSockets, and from pages of these origins, with commas between
    /// them.
    pub fn for_pages(self, origins: &str) -> Result<Listener<'a, C>, AllocError> {
        let alloc = self.alloc;
        let pages = Arc::new(alloc, Vec::from_slice(alloc, origins.as_bytes())?)?;
        Ok(Listener {
            entrance: Entrance {
                pages: Some(pages),
                ..self.entrance
            },
            ..self
        })
    }

    /// The same listener, which listens at the place of another one too.
    pub fn beside(self, other: Listener<'a, C>) -> Listener<'a, C> {
        let Listener { entrance, .. } = other;
        Listener {
            second: Some(entrance),
            ..self
        }
    }
}

impl<C> Listener<'_, C> {
    /// The address of TCP that is listened at, with its real port, if it is one and the system tells it.
    pub fn local_addr(&self) -> Option<SocketAddr> {
        self.entrance.socket.local_addr()
    }

    /// The same of the second place, if there is one.
    pub fn second_addr(&self) -> Option<SocketAddr> {
        match &self.second {
            Some(second) => second.socket.local_addr(),
            None => None,
        }
    }

    /// The descriptor of the second place, if there is one.
    pub fn second_fd(&self) -> Option<RawFd> {
        match &self.second {
            Some(second) => Some(second.socket.as_raw_fd()),
            None => None,
        }
    }

    /// The places where it listens, each of them first by turns.
    pub(crate) fn entrances(&self) -> (&Entrance<'_>, Option<&Entrance<'_>>) {
        match &self.second {
            Some(second) if self.left.load(Ordering::SeqCst) % 2 == 0 => {
                (second, Some(&self.entrance))
            }
            Some(second) => (&self.entrance, Some(second)),
            None => (&self.entrance, None),
        }
    }

    /// Removes the file of each Unix socket whose file is still the one that was made: from then on nobody finds it.
    /// Without this call it is stale once the listener is dropped.
    pub fn remove_file<R: Files>(&self, rt: &R) {
        if let Some(file) = self.entrance.file {
            file.remove(rt);
        }
        if let Some(
            Entrance {
                file: Some(file),
                ..
            },
        ) = &self.second
        {
            file.remove(rt);
        }
    }

    /// Counts one connection more, if one is left.
    pub(crate) fn count(&self) -> bool {
        self.left
            .fetch_update(Ordering::SeqCst, Ordering::SeqCst, |left| {
                left.checked_sub(1)
            })
            .is_ok()
    }

    /// Counts one connection less.
    pub(crate) fn uncount(&self) {
        let _ = self
            .left
            .fetch_update(Ordering::SeqCst, Ordering::SeqCst, |left| {
                left.checked_add(1)
            });
    }

    /// No connection is left.
    pub(crate) fn end(&self) {
        self.left.store(0, Ordering::SeqCst);
    }
}

impl<C: Clock> Listener<'_, C> {
    /// Waits for a connection, of which small messages are sent at once where the system takes that setting.
    fn accept(&self) -> io::Result<Stream> {
        let stream = present(self.clock, &Next(&self.entrance.socket))?;
        stream.send_at_once();
        bounded(stream, self.limits.patience)
    }

    /// Waits for a connection, and gives its two halves.
    fn next(&self) -> Result<(Take<Half>, Half), SourceFault> {
        let stream = self.accept().map_err(|error| accept_fault(&error))?;
        let (reader, writer) = halves(self.alloc, stream, None).ok_or(SourceFault::Memory)?;
        Ok((limited(reader, self.limits.most_bytes), writer))
    }
}

impl<C: Clock> Source for Listener<'_, C> {
    type In = Take<Half>;

    type Out = Half;

    fn take(&self) -> Result<Option<(Take<Half>, Half)>, SourceFault> {
        if !self.count() {
            return Ok(None);
        }
        let next = self.next();
        if next.is_err() {
            self.end();
        }
        Ok(Some(next?))
    }

    fn close(&self, reader: Take<Half>, _writer: Half) {
        finish(self.clock, reader.get_ref().stream(), reader.limit());
    }
}

impl<C> AsRawFd for Listener<'_, C> {
    fn as_raw_fd(&self) -> RawFd {
        self.entrance.socket.as_raw_fd()
    }
}
