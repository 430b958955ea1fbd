//! Connections that are taken without waiting, and of which no call waits.

ghost use Rattle.std.specs.Prelude.{◌≡◌};
ghost use Rattle.tcp_front.specs.Misses.{miss_for};

use crate::half::{Half, halves, web_halves};
use crate::listener::{Entrance, Listener, accept_fault};
use crate::stream::Stream;
use crate::trying::{Miss, miss_of};
use session_table::SourceFault;
use std::alloc::Global;
use std::io;
use std::io::ErrorKind;
use std::net::SocketAddr;

/// What a listener has for someone who does not wait.
#[derive(Drop)]
pub enum Arrival {
    /// A connection: the half that is read, and the half that is written.
    Came(Half, Half),
    /// Nobody is there now.
    Nobody,
    /// Somebody was there, and is gone.
    Gone,
    /// There is no descriptor, or no memory, for one more.
    NoRoom,
    /// As many were taken as were to be.
    NoMore,
}

/// What an accept gave that made no connection. Else the source fails.
fn missed(error: &io::Error) -> Result<Arrival, SourceFault> {
    match error.kind() {
        ErrorKind::WouldBlock => return Ok(Arrival::Nobody),
        ErrorKind::Interrupted => return Ok(Arrival::Gone),
        _ => {}
    }
    match miss_of(error.raw_os_error()) {
        Miss::Gone => Ok(Arrival::Gone),
        Miss::NoRoom => Ok(Arrival::NoRoom),
        Miss::Failed => Err(accept_fault(error)),
    }
}

/// A connection of which no call waits, and of which small messages are sent at once where the system takes that
/// setting.
fn prompt(stream: Stream) -> io::Result<Stream> {
    stream.send_at_once();
    stream.never_wait()?;
    Ok(stream)
}

/// The two halves of a connection that was accepted at this place, from this address if it is known.
fn halves_at(
    alloc: Global,
    entrance: &Entrance<'_>,
    (stream, from): (Stream, Option<SocketAddr>),
    most_bytes: u64,
) -> Option<(Half, Half)> {
    match &entrance.pages {
        Some(pages) => web_halves(alloc, stream, from, (pages, most_bytes)),
        None => halves(alloc, stream, from),
    }
}

impl<C> Listener<'_, C> {
    /// From now on an accept with nobody there does not wait.
    pub fn never_wait(&self) -> io::Result<()> {
        let (first, second) = self.entrances();
        first.socket.never_wait()?;
        match second {
            Some(second) => second.socket.never_wait(),
            None => Ok(()),
        }
    }

    /// The two halves of a connection that was accepted at this place, from this address if it is known. One that is
    /// gone meanwhile is passed over.
    fn arrived(
        &self,
        entrance: &Entrance<'_>,
        stream: Stream,
        from: Option<SocketAddr>,
    ) -> Arrival {
        let most_bytes = u64::from(self.limits.most_bytes);
        match prompt(stream) {
            Ok(stream) => match halves_at(self.alloc, entrance, (stream, from), most_bytes) {
                Some((reader, writer)) => Arrival::Came(reader, writer),
                None => Arrival::NoRoom,
            },
            Err(_) => Arrival::Gone,
        }
    }

    /// Takes one connection at this place, if somebody is there.
    fn arrival_at(&self, entrance: &Entrance<'_>) -> Result<Arrival, SourceFault> {
        match entrance.socket.accept() {
            Ok((stream, from)) => Ok(self.arrived(entrance, stream, from)),
            Err(error) => missed(&error),
        }
    }

    /// Takes one connection, if somebody is there.
    fn arrival_anywhere(&self) -> Result<Arrival, SourceFault> {
        let (first, second) = self.entrances();
        let arrival = self.arrival_at(first)?;
        match second {
            Some(second) if matches!(arrival, Arrival::Nobody) => self.arrival_at(second),
            _ => Ok(arrival),
        }
    }

    /// Takes one connection, if somebody is there, and does not wait. It counts only those that came. After a failure
    /// no connection is left.
    pub fn arrival(&self) -> Result<Arrival, SourceFault> {
        if !self.count() {
            return Ok(Arrival::NoMore);
        }
        let arrival = self.arrival_anywhere();
        if !matches!(arrival, Ok(Arrival::Came(_, _))) {
            self.uncount();
        }
        if arrival.is_err() {
            self.end();
        }
        arrival
    }
}
