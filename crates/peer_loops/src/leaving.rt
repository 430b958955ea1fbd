//! Connections whose session is over. Each is read on for a while, so that what was written last arrives.

use mio::unix::SourceFd;
use mio::{Interest, Registry, Token};
use slab::Slab;
use std::alloc::Global;
use std::io::ErrorKind;
use std::os::fd::AsRawFd;
use tcp_front::Half;

/// For how many milliseconds a connection is read on, at most.
const MOST_MILLISECONDS: u64 = 1_000;

/// The bound on the bytes that are read on, where the session may not read so many more itself.
const LEAST_BOUND: u64 = 65_536;

/// How many reads one call makes at most.
const TURNS: usize = 16;

/// The token of the first of them. A peer's token is its key, which is less.
const FIRST: usize = 4_294_967_296;

/// How one call left off.
#[derive(Clone, Copy, Debug, PartialEq, Eq)]
enum Reading {
    /// There was no more to read.
    Waits,
    /// It read as much as one call may.
    More,
    /// The connection is to be closed.
    Done,
}

/// A connection that is read on.
#[derive(Drop)]
struct Leaving {
    reader: Half,
    /// How many bytes more are read.
    left: u64,
    /// When it is closed.
    until: u64,
}

impl Leaving {
    /// Reads what is there into this room, and drops it.
    fn read_on(&mut self, room: &mut [u8]) -> Reading {
        for _turn in 0..TURNS {
            match self.reader.read_on(room) {
                Ok(0) => return Reading::Done,
                Ok(count) => self.left = self.left.saturating_sub(count as u64),
                Err(error) if error.kind() == ErrorKind::WouldBlock => return Reading::Waits,
                Err(_) => return Reading::Done,
            }
            if self.left == 0 {
                return Reading::Done;
            }
        }
        Reading::More
    }

    /// Has the system report again under this token what is there. Whether it does.
    fn register_again(&self, registry: &Registry, token: Token) -> bool {
        let fd = self.reader.as_raw_fd();
        registry
            .reregister(&mut SourceFd(&fd), token, Interest::READABLE)
            .is_ok()
    }
}

/// Connections whose session is over.
#[derive(Drop)]
pub(crate) struct Leavers {
    all: Slab<Leaving>,
}

impl Leavers {
    /// None so far.
    pub(crate) fn new(alloc: Global) -> Leavers {
        Leavers {
            all: Slab::new(alloc),
        }
    }

    /// Whether there is none.
    pub(crate) fn is_empty(&self) -> bool {
        self.all.is_empty()
    }

    /// Writes no more to a connection, of which the session may read so many bytes more, and reads it on. A call that
    /// fails closes it.
    pub(crate) fn add(
        &mut self,
        registry: &Registry,
        connection: (Half, Half),
        left: u64,
        now: u64,
    ) {
        let (reader, writer) = connection;
        if writer.end_after(&reader).is_err() {
            return;
        }
        let leaving = Leaving {
            reader,
            left: left.max(LEAST_BOUND),
            until: now.saturating_add(MOST_MILLISECONDS),
        };
        let token = Token(FIRST.saturating_add(self.all.vacant_key()));
        if leaving.register_again(registry, token) {
            let _key = self.all.insert(leaving);
        }
    }

    /// Reads on of the one with this token, if it is one's. Whether it is.
    pub(crate) fn read_on(&mut self, registry: &Registry, token: Token, room: &mut [u8]) -> bool {
        let Some(key) = token.0.checked_sub(FIRST) else {
            return false;
        };
        let Some(leaving) = self.all.get_mut(key) else {
            return false;
        };
        let goes_on = match leaving.read_on(room) {
            Reading::Waits => true,
            Reading::More => leaving.register_again(registry, token),
            Reading::Done => false,
        };
        if !goes_on {
            let _closed = self.all.try_remove(key);
        }
        true
    }

    /// Closes those whose time is over.
    pub(crate) fn close_late(&mut self, now: u64) {
        self.all.retain(|_key, leaving| leaving.until > now);
    }

    /// Closes all.
    pub(crate) fn close_all(&mut self) {
        self.all.clear();
    }
}
