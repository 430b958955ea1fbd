//! A connection that is a WebSocket: what is read of it is the payload of its frames, in order.

ghost use Rattle.std.specs.Io.{ReadsAtMost};

use crate::stream::Stream;
use http_core::{
    Framed, MOST_UPGRADE, Stop, Upgrade, control_frame, given_text, no_upgrade_text, upgrade_in,
};
use std::alloc::{AllocError, Global};
use std::io;
use std::io::{Chain, Cursor, ErrorKind, Read};
use std::sync::Arc;

/// How many bytes of the head of a request are read at a time.
const ROOM: usize = 1_024;

/// How many steps of the beginning one call makes at most.
const TURNS: usize = 16;

/// Which pages may connect: their origins, with commas between them.
pub(crate) type Origins = Arc<Vec<u8>>;

/// The connection under the frames, and how many bytes were read of it.
#[derive(Drop)]
struct Raw {
    stream: Arc<Stream>,
    bytes: u64,
}

impl Read for Raw {
    fn read(&mut self, buf: &mut [u8]) -> io::Result<usize> {
        let count = self.stream.receive(buf)?;
        self.bytes = self.bytes.saturating_add(count as u64);
        Ok(count)
    }
}

/// The stream in the frames of a connection: in those that came with the head of the request first.
type WebStream = Framed<Chain<Cursor<Vec<u8>>, Raw>>;

/// The head of a request that is read.
#[derive(Drop)]
struct Asking {
    alloc: Global,
    came: Vec<u8>,
    origins: Origins,
    // How many bytes a frame has at most.
    most: u64,
}

/// How far the beginning of a WebSocket is.
#[derive(Drop)]
enum Stage {
    /// The head of the request is read.
    Asked(Asking),
    /// The request is answered: by this text, of which so many bytes are written, and by a WebSocket if this is one.
    Answered(Vec<u8>, usize, Option<WebStream>),
    /// Frames are read.
    Begun(WebStream),
}

/// What is read of a WebSocket.
#[derive(Drop)]
pub(crate) struct WebReader {
    stage: Stage,
    // How many bytes were read before frames were.
    bytes: u64,
}

/// What a step of the beginning found.
#[derive(Clone, Copy, PartialEq, Eq)]
enum Turn {
    /// It is to be gone on with.
    Again,
    /// Frames are read from now on.
    Done,
}

/// The error of a connection that ended, or that gets no WebSocket.
fn gone() -> io::Error {
    io::Error::from(ErrorKind::ConnectionAborted)
}

/// The error where memory runs out.
fn no_memory(_refused: AllocError) -> io::Error {
    io::Error::from(ErrorKind::OutOfMemory)
}

/// Writes on of a text of which so many bytes are written; how many are then.
fn write_on(stream: &Stream, text: &[u8], said: usize) -> io::Result<usize> {
    let rest = text.get(said..).unwrap_or(&[]);
    if rest.is_empty() {
        return Ok(said);
    }
    match stream.send(rest)? {
        0 => Err(io::Error::from(ErrorKind::WriteZero)),
        count => Ok(said.saturating_add(count)),
    }
}

/// Writes a text at once, or nothing of it. A text that is taken in part ends the connection.
fn write_whole(stream: &Stream, text: &[u8]) -> io::Result<bool> {
    match stream.send(text) {
        Ok(count) if count == text.len() => Ok(true),
        Ok(_) => Err(io::Error::from(ErrorKind::WriteZero)),
        Err(error) if error.kind() == ErrorKind::WouldBlock => Ok(false),
        Err(error) => Err(error),
    }
}

impl Asking {
    /// The stream of the frames that come after a head of so many bytes.
    fn frames(&self, stream: &Arc<Stream>, length: usize) -> Result<WebStream, AllocError> {
        let rest = Vec::from_slice(self.alloc, self.came.get(length..).unwrap_or(&[]))?;
        let raw = Raw {
            stream: Arc::try_clone(stream)?,
            bytes: 0,
        };
        Ok(Framed::new(Cursor::new(rest).chain(raw), self.most))
    }

    /// The request gets this; how far the beginning is then.
    fn answer(&self, stream: &Arc<Stream>, upgrade: Upgrade) -> Result<Stage, AllocError> {
        match upgrade {
            Upgrade::Given {
                accept,
                is_named,
                length,
            } => {
                let text = given_text(self.alloc, &accept, is_named)?;
                Ok(Stage::Answered(text, 0, Some(self.frames(stream, length)?)))
            }
            Upgrade::Refused(why) => {
                let text = Vec::from_slice(self.alloc, no_upgrade_text(why).as_bytes())?;
                Ok(Stage::Answered(text, 0, None))
            }
        }
    }

    /// Reads on of the head: how many bytes were read, and what it gets, if it has come whole.
    fn read_on(&mut self, stream: &Stream) -> io::Result<(usize, Option<Upgrade>)> {
        let mut room = [0u8; ROOM];
        let most = MOST_UPGRADE.saturating_sub(self.came.len()).min(ROOM);
        let count = stream.receive(&mut room[..most])?;
        if count == 0 {
            return Err(gone());
        }
        self.came
            .extend_from_slice(room.get(..count).unwrap_or(&[]))
            .map_err(no_memory)?;
        Ok((count, upgrade_in(&self.came, &self.origins)))
    }
}

/// Answers the last ping, if that is to be answered and the system takes the answer now. The session writes nothing
/// while it reads, so no frame is cut.
fn answer_ping(framed: &mut WebStream, stream: &Stream) -> io::Result<()> {
    let Some(ping) = framed.ping() else {
        return Ok(());
    };
    if write_whole(stream, &control_frame(PONG, ping))? {
        framed.answer_ping();
    }
    Ok(())
}

impl WebReader {
    /// One of which nothing was read, that pages of these origins may open; a frame has at most so many bytes.
    pub(crate) fn new(alloc: Global, origins: Origins, most: u64) -> WebReader {
        WebReader {
            stage: Stage::Asked(Asking {
                alloc,
                came: Vec::new(alloc),
                origins,
                most,
            }),
            bytes: 0,
        }
    }

    /// Whether it has begun: frames are read and written.
    pub(crate) fn has_begun(&self) -> bool {
        matches!(self.stage, Stage::Begun(_))
    }

    /// The code with which it is closed.
    pub(crate) fn close_code(&self) -> u16 {
        match &self.stage {
            Stage::Begun(framed) => framed.stop().unwrap_or(Stop::Closed).code(),
            _ => Stop::Closed.code(),
        }
    }

    /// How many bytes were read of the connection.
    pub(crate) fn bytes(&self) -> u64 {
        match &self.stage {
            Stage::Begun(framed) => self.bytes.saturating_add(framed.reader().get_ref().1.bytes),
            _ => self.bytes,
        }
    }

    /// Writes on of the answer to the request.
    fn write_answer(&mut self, stream: &Stream) -> io::Result<Turn> {
        let Stage::Answered(text, said, framed) = &mut self.stage else {
            return Ok(Turn::Done);
        };
        *said = write_on(stream, text, *said)?;
        if *said < text.len() {
            return Ok(Turn::Again);
        }
        self.stage = Stage::Begun(framed.take().ok_or_else(gone)?);
        Ok(Turn::Done)
    }

    /// Goes on with the beginning.
    fn begin_on(&mut self, stream: &Arc<Stream>) -> io::Result<Turn> {
        let Stage::Asked(asking) = &mut self.stage else {
            return self.write_answer(stream);
        };
        let (count, upgrade) = asking.read_on(stream)?;
        self.bytes = self.bytes.saturating_add(count as u64);
        if let Some(upgrade) = upgrade {
            self.stage = asking.answer(stream, upgrade).map_err(no_memory)?;
        }
        Ok(Turn::Again)
    }

    /// Goes on with the beginning, until frames can be read.
    fn begin(&mut self, stream: &Arc<Stream>) -> io::Result<()> {
        for _turn in 0..TURNS {
            if self.begin_on(stream)? == Turn::Done {
                return Ok(());
            }
        }
        Err(io::Error::from(ErrorKind::Interrupted))
    }

    /// Reads bytes of the stream. It has ended with the frame that closes it; a frame that is not taken is an error.
    pub(crate) fn read(&mut self, stream: &Arc<Stream>, buf: &mut [u8]) -> io::Result<usize>
        ensures bound { ReadsAtMost result buf.new }
    {
        self.begin(stream)?;
        let Stage::Begun(framed) = &mut self.stage else {
            return Err(gone());
        };
        answer_ping(framed, stream)?;
        let read = framed.read(buf);
        answer_ping(framed, stream)?;
        read
    }
}

/// The opcodes of a pong and of a close.
const PONG: u8 = 10;

const CLOSE: u8 = 8;

/// Writes the frame that closes a WebSocket with this code, as far as the system takes it now.
pub(crate) fn write_close(stream: &Stream, code: u16) {
    let _taken = stream.send(&control_frame(CLOSE, &code.to_be_bytes()));
}
