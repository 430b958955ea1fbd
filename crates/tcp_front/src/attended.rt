//! A connection whose reads and writes are given up once someone says so.

ghost use Rattle.std.specs.Io.{ReadsAtMost, WritesAtMost};

use crate::stream::Stream;
use std::io;
use std::io::{ErrorKind, Read, Write};
use std::sync::atomic::{AtomicBool, Ordering};
use std::time::Duration;

/// For how many milliseconds the system waits at a time.
const TICK: u64 = 250;

/// How many such times a second has.
const TICKS: u32 = 4;

/// One way of a connection. A read or a write fails that takes longer than it may; and one that waits also fails,
/// within a quarter of a second, once it is given up.
#[derive(Drop)]
pub struct Attended<'a> {
    stream: &'a Stream,
    is_given_up: &'a AtomicBool,
    ticks: u32,
    /// How many bytes went through. The count stops at 2^64 - 1.
    bytes: u64,
}

/// Whether a call took too long, and may be made again.
fn is_slow(error: &io::Error) -> bool {
    matches!(
        error.kind(),
        ErrorKind::WouldBlock | ErrorKind::TimedOut | ErrorKind::Interrupted
    )
}

/// Both ways of a connection: what is read of it, and what is written to it. A call takes so many seconds at most.
pub fn attend<'a>(
    stream: &'a Stream,
    patience: u32,
    is_given_up: &'a AtomicBool,
) -> io::Result<(Attended<'a>, Attended<'a>)> {
    let tick = Duration::from_millis(TICK);
    stream.set_read_timeout(Some(tick))?;
    stream.set_write_timeout(Some(tick))?;
    let ticks = patience.saturating_mul(TICKS);
    Ok((
        Attended {
            stream,
            is_given_up,
            ticks,
            bytes: 0,
        },
        Attended {
            stream,
            is_given_up,
            ticks,
            bytes: 0,
        },
    ))
}

impl Attended<'_> {
    /// How many bytes were read, or written.
    pub fn passed(&self) -> u64 {
        self.bytes
    }

    /// Whether a call that ended so is made again.
    fn goes_on(&self, error: &io::Error) -> bool {
        is_slow(error) && !self.is_given_up.load(Ordering::SeqCst)
    }

    /// What the system gives of the connection, as soon as it gives something.
    fn receive(&self, buf: &mut [u8]) -> io::Result<usize>
        ensures bound { ReadsAtMost result buf.new }
    {
        for _tick in 1..self.ticks {
            match self.stream.receive(buf) {
                Err(error) if self.goes_on(&error) => {}
                other => return other,
            }
        }
        self.stream.receive(buf)
    }

    /// What the system takes for the connection, as soon as it takes something.
    fn send(&self, buf: &[u8]) -> io::Result<usize>
        ensures bound { WritesAtMost result buf.now }
    {
        for _tick in 1..self.ticks {
            match self.stream.send(buf) {
                Err(error) if self.goes_on(&error) => {}
                other => return other,
            }
        }
        self.stream.send(buf)
    }
}

impl Read for Attended<'_> {
    fn read(&mut self, buf: &mut [u8]) -> io::Result<usize> {
        let count = self.receive(buf)?;
        self.bytes = self.bytes.saturating_add(count as u64);
        Ok(count)
    }
}

impl Write for Attended<'_> {
    fn write(&mut self, buf: &[u8]) -> io::Result<usize> {
        let count = self.send(buf)?;
        self.bytes = self.bytes.saturating_add(count as u64);
        Ok(count)
    }

    /// Nothing waits to be written.
    fn flush(&mut self) -> io::Result<()> {
        Ok(())
    }
}
