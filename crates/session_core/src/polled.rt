//! One way of a stream that never waits, and what its last call did.

ghost use Rattle.std.specs.Prelude.{◌≡◌, ◌<◌, ◌≤◌, length, take};
ghost use Rattle.std.specs.IoError.{error_kind};
ghost use Rattle.std.specs.Io.KnownBytes.{Consumes, Appends, IsAtEnd};
ghost use Rattle.session_core.specs.Polls.{ReadsSo, WritesSo, stopped_by};
ghost use Rattle.session_core.specs.Overs.{after_read, after_write};
ghost use Rattle.session_core.specs.declared.polled.Last.TheVariants as lasts;

use std::io;
use std::io::{ErrorKind, Read, Write};
use std::marker::Model;

/// What the last read or write did.
#[derive(Clone, Copy, Debug, PartialEq, Eq)]
pub enum Last {
    /// There was none since the stream was ready.
    Unknown,
    /// Bytes were read or written.
    Moved,
    /// It would have waited.
    Waits,
    /// It was interrupted.
    Interrupted,
    /// The input has ended.
    Ended,
    /// It gave an error, or it took no byte of a rest.
    Failed,
}

/// A reader or a writer that never waits, and what its last call did.
#[derive(Debug, Drop)]
pub struct Polled<T> {
    way: T,
    last: Last,
}

impl<T> Model for Polled<T> {
    ghost use Rattle.session_core.specs.Polls.{Poll};

    ghost Value = { Poll T };

    ghost view = { λ p. record { way = p.way; last = p.last } };
}

/// What a call did that gave this error.
fn stop_of(error: &io::Error) -> Last
    ensures { result ≡ stopped_by (error_kind error.now) }
{
    match error.kind() {
        ErrorKind::WouldBlock => Last::Waits,
        ErrorKind::Interrupted => Last::Interrupted,
        _ => Last::Failed,
    }
}

/// What a read did that gave this.
fn after_read(given: &io::Result<usize>) -> Last
    ensures { result ≡ after_read given.now }
{
    match given {
        Ok(0) => Last::Ended,
        Ok(_) => Last::Moved,
        Err(error) => stop_of(error),
    }
}

/// What a write did that gave this.
fn after_write(given: &io::Result<usize>) -> Last
    ensures { result ≡ after_write given.now }
{
    match given {
        Ok(0) => Last::Failed,
        Ok(_) => Last::Moved,
        Err(error) => stop_of(error),
    }
}

impl<T> Polled<T> {
    /// Nothing was read or written.
    pub fn new(way: T) -> Polled<T>
        ensures { result ≡ record { way = way; last = lasts.Unknown } }
    {
        Polled {
            way,
            last: Last::Unknown,
        }
    }

    /// What the last call did.
    pub fn last(&self) -> Last
        ensures { result ≡ self.now.last }
    {
        self.last
    }

    /// The stream is ready again.
    pub fn wake(&mut self)
        ensures { self.new ≡ record self.old { last = lasts.Unknown } }
    {
        self.last = Last::Unknown;
    }

    /// The reader or writer itself.
    pub fn way(&self) -> &T
        ensures { result.now ≡ self.now.way }
    {
        &self.way
    }

    /// The same, for good.
    pub fn into_inner(self) -> T
        ensures { result ≡ self.way }
    {
        let Polled { way, last: _ } = self;
        way
    }
}

impl<I: Read> Polled<I> {
    /// Reads once, and returns how many bytes came.
    pub fn read(&mut self, room: &mut [u8]) -> usize
        requires { 0 < length room.old }
        ensures room { length room.new ≡ length room.old }
        ensures bound { result ≤ length room.new }
        ensures bytes { Consumes (I.remaining self.old.way) (I.remaining self.new.way) (take result room.new) }
        ensures last { ReadsSo result self.new.last }
        ensures ended { self.new.last ≡ lasts.Ended → IsAtEnd (I.remaining self.new.way) }
    {
        let given = self.way.read(room);
        self.last = after_read(&given);
        given.unwrap_or(0)
    }
}

impl<O: Write> Polled<O> {
    /// Writes once, and returns how many bytes were taken.
    pub fn write(&mut self, bytes: &[u8]) -> usize
        ensures bound { result ≤ length bytes.now }
        ensures bytes { Appends (O.contents self.old.way) (O.contents self.new.way) (take result bytes.now) }
        ensures last { WritesSo result self.new.last }
    {
        let given = self.way.write(bytes);
        self.last = after_write(&given);
        given.unwrap_or(0)
    }
}
