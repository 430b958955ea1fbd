//! One who asks by HTTP, on a connection that never waits: it is heard for a while, answered, and read on until it
//! closes.

use http_core::{DoorRequest, Request, door_request_in, request_in};
use std::alloc::{AllocError, Global};
use std::io;
use std::io::{ErrorKind, Read, Write};
use std::os::fd::{AsRawFd, RawFd};
use tcp_front::Half;

/// For how many milliseconds a connection is kept: at a window from its start, at a door since a byte of it was last
/// read or written.
const MOST_MILLISECONDS: u64 = 5_000;

/// What one is told that waits for a line before it sends its body.
const GO_AHEAD: &[u8] = b"HTTP/1.1 100 Continue\r\n\r\n";

/// How many bytes are read of one, at most: the head of a request, and what may follow it.
const MOST_BYTES: usize = 1_048_576;

/// How many bytes are read at a time.
const ROOM: usize = 16_384;

/// How many reads or writes one call makes at most.
const TURNS: usize = 32;

/// How far a caller is.
#[derive(Clone, Copy, Debug, PartialEq, Eq)]
enum CallerStage {
    /// Its request has not come whole.
    Asks,
    /// It waits for an answer, or for more of it.
    Waits,
    /// The answer is being written, or a part of it.
    Hears,
    /// The answer is written. What the caller still sends is dropped.
    Leaves,
}

/// How a call left off.
#[derive(Clone, Copy, Debug, PartialEq, Eq)]
pub enum CallerStep {
    /// There is nothing to do now; until its connection is ready, if that is not.
    Waits,
    /// This is asked for.
    Asks(Called),
    /// What there was of its answer is written, and it waits for more.
    HasHeard,
    /// The connection is to be closed.
    Gone,
}

/// Where somebody asks.
#[derive(Clone, Copy, Debug, PartialEq, Eq)]
pub enum Place {
    /// At the window through which a server is watched.
    Window,
    /// At the door for programs of this machine: over TCP, or at a Unix socket.
    Door {
        /// Whether it is over TCP.
        is_tcp: bool,
    },
}

/// What somebody asks for.
#[derive(Clone, Copy, Debug, PartialEq, Eq)]
pub enum Called {
    /// This, at a window.
    AtWindow(Request),
    /// This, at a door.
    AtDoor(DoorRequest),
}

/// Someone who asks by HTTP.
#[derive(Drop)]
pub struct Caller {
    reader: Half,
    writer: Half,
    place: Place,
    stage: CallerStage,
    /// What came so far, while it asks.
    came: Vec<u8>,
    /// Before so many bytes have come there is nothing new to see.
    enough: usize,
    /// The answer or a part of it, how many bytes of that are written, and whether it is the last part.
    answer: Vec<u8>,
    said: usize,
    is_last: bool,
    /// How many bytes more are read.
    left: usize,
    /// Whether the connection may go on without waiting.
    is_ready: bool,
    /// When the connection is closed.
    until: u64,
    /// When a byte of it was last read or written.
    heard: u64,
}

impl Caller {
    /// One that has just come.
    pub fn new(alloc: Global, place: Place, connection: (Half, Half), now: u64) -> Caller {
        let (reader, writer) = connection;
        Caller {
            reader,
            writer,
            place,
            stage: CallerStage::Asks,
            came: Vec::new(alloc),
            enough: 0,
            answer: Vec::new(alloc),
            said: 0,
            is_last: false,
            left: MOST_BYTES,
            is_ready: true,
            until: now.saturating_add(MOST_MILLISECONDS),
            heard: now,
        }
    }

    /// Where it counts, if it has an address of TCP.
    pub fn origin(&self) -> Option<u128> {
        self.reader.origin()
    }

    /// When a byte of it was last read or written.
    pub fn heard(&self) -> u64 {
        self.heard
    }

    /// Whether its connection may go on without waiting.
    pub fn is_ready(&self) -> bool {
        self.is_ready
    }

    /// Whether it waits for an answer, or for more of it.
    pub fn is_waiting(&self) -> bool {
        self.stage == CallerStage::Waits
    }

    /// From now on its connection may go on.
    pub fn wake(&mut self) {
        self.is_ready = true;
    }

    /// Its connection is to be waited for, if it failed for that; else it is to be closed.
    fn after(&mut self, error: &io::Error) -> CallerStep {
        if error.kind() != ErrorKind::WouldBlock {
            return CallerStep::Gone;
        }
        self.is_ready = false;
        CallerStep::Waits
    }

    /// How many bytes were read of it and written to it.
    fn bytes(&self) -> u64 {
        Half::bytes(&self.reader).saturating_add(Half::bytes(&self.writer))
    }

    /// Whether its time is over.
    pub fn is_late(&self, now: u64) -> bool {
        self.until <= now
    }

    /// The request at a door, if it has come whole, with its body. One that waits for a line before its body is told to
    /// go ahead.
    fn door_request(&mut self, is_tcp: bool) -> Option<DoorRequest> {
        let request = door_request_in(&self.came, is_tcp)?;
        let length = usize::try_from(request.length).unwrap_or(usize::MAX);
        let whole = request.start.saturating_add(length);
        if self.came.len() >= whole {
            return Some(request);
        }
        self.enough = whole;
        if request.expects {
            // Where it is not told, it sends the body after a while.
            let _told = self.writer.write(GO_AHEAD);
        }
        None
    }

    /// What is asked for, if that has come whole.
    fn called(&mut self) -> Option<Called> {
        match self.place {
            Place::Window => Some(Called::AtWindow(request_in(&self.came)?)),
            Place::Door { is_tcp } => Some(Called::AtDoor(self.door_request(is_tcp)?)),
        }
    }

    /// Keeps what came. What is asked for, if that has come whole.
    fn keep(&mut self, piece: &[u8]) -> Result<Option<Called>, AllocError> {
        self.came.extend_from_slice(piece)?;
        if self.came.len() < self.enough {
            return Ok(None);
        }
        Ok(self.called())
    }

    /// The target of its request.
    pub fn target(&self, request: &DoorRequest) -> &[u8] {
        let (start, end) = request.target;
        self.came.get(start..end).unwrap_or(b"")
    }

    /// The body of its request.
    pub fn body(&self, request: &DoorRequest) -> &[u8] {
        let length = usize::try_from(request.length).unwrap_or(usize::MAX);
        let end = request.start.saturating_add(length);
        self.came.get(request.start..end).unwrap_or(b"")
    }

    /// Reads until its request has come.
    fn hear(&mut self) -> CallerStep {
        let mut room = [0u8; ROOM];
        for _ in 0..TURNS {
            let count = match self.reader.read(&mut room) {
                Ok(0) => return CallerStep::Gone,
                Ok(count) => count,
                Err(error) => return self.after(&error),
            };
            match self.keep(&room[..count]) {
                Ok(Some(asked)) => {
                    self.stage = CallerStage::Waits;
                    return CallerStep::Asks(asked);
                }
                Ok(None) => {}
                Err(AllocError) => return CallerStep::Gone,
            }
        }
        CallerStep::Waits
    }

    /// From now on it hears this answer, or this part of it.
    pub fn answer(&mut self, answer: Vec<u8>, is_last: bool) {
        self.answer = answer;
        self.said = 0;
        self.is_last = is_last;
        self.stage = CallerStage::Hears;
        // While it waited nothing was written: whether it could be is seen at the first write.
        self.is_ready = true;
    }

    /// It is kept until then, though nothing comes.
    pub fn keep_until(&mut self, until: u64) {
        self.until = until.saturating_add(MOST_MILLISECONDS);
    }

    /// What there was of its answer is written: it leaves, or waits for more.
    fn has_heard(&mut self) -> CallerStep {
        if self.is_last {
            return self.leave();
        }
        self.stage = CallerStage::Waits;
        CallerStep::HasHeard
    }

    /// Writes what is left of the answer, and then says that no more comes.
    fn say(&mut self) -> CallerStep {
        for _ in 0..TURNS {
            let Some(rest) = self.answer.get(self.said..) else {
                return CallerStep::Gone;
            };
            if rest.is_empty() {
                return self.has_heard();
            }
            match self.writer.write(rest) {
                Ok(0) => return CallerStep::Gone,
                Ok(count) => self.said = self.said.saturating_add(count),
                Err(error) => return self.after(&error),
            }
        }
        CallerStep::Waits
    }

    /// Says that no more comes, and reads on.
    fn leave(&mut self) -> CallerStep {
        self.stage = CallerStage::Leaves;
        if self.writer.end_output().is_err() {
            return CallerStep::Gone;
        }
        self.read_on()
    }

    /// Reads what still comes, and drops it: a system that closes a connection with input unread throws away what the
    /// caller has not got so far.
    fn read_on(&mut self) -> CallerStep {
        let mut room = [0u8; ROOM];
        for _ in 0..TURNS {
            match self.reader.read(&mut room) {
                Ok(0) => return CallerStep::Gone,
                Ok(count) => self.left = self.left.saturating_sub(count),
                Err(error) => return self.after(&error),
            }
            if self.left == 0 {
                return CallerStep::Gone;
            }
        }
        CallerStep::Waits
    }

    /// Does what is next of it.
    fn go_on_once(&mut self) -> CallerStep {
        match self.stage {
            CallerStage::Asks => self.hear(),
            CallerStage::Hears => self.say(),
            CallerStage::Waits | CallerStage::Leaves => self.read_on(),
        }
    }

    /// Goes on as far as the connection goes without waiting.
    pub fn go_on(&mut self, now: u64) -> CallerStep {
        let before = self.bytes();
        let step = self.go_on_once();
        if self.bytes() != before {
            self.heard = now;
            if self.place != Place::Window {
                self.until = self.until.max(now.saturating_add(MOST_MILLISECONDS));
            }
        }
        step
    }
}

impl AsRawFd for Caller {
    fn as_raw_fd(&self) -> RawFd {
        self.reader.as_raw_fd()
    }
}
