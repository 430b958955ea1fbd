//! Counting what goes over a connection: bytes, and by their frames the messages and parts.

ghost use Rattle.std.specs.Prelude.{◌≡◌, IfOk, OnErr, length};
ghost use Rattle.std.specs.Io.{ReadsAtMost, WritesAtMost};
ghost use Rattle.std.specs.Io.KnownBytes.{ReadConsumes, WriteAppends, Keeps};
ghost use Rattle.loading.specs.Metering.{metered, bytes_after};

use printing_core::Tally;
use std::io;
use std::io::{Read, Write};
use std::marker::Model;

/// Where in the bytes of one side a byte stands.
#[derive(Clone, Copy, Debug, PartialEq, Eq)]
enum Within {
    /// In the hello, with so many bytes of it to come.
    Hello(u8),
    /// In the length of a frame, with so many bytes of it to come.
    Length { left: u8, length: u32 },
    /// In front of the kind of a frame of this length.
    Kind { length: u32 },
    /// In a frame, with so many bytes of it to come, one at least.
    Body { left: u32, kind: u8 },
}

/// The kind of a message's end.
const END: u8 = 4;

/// What was counted of one side's bytes.
#[derive(Clone, Copy, Debug, PartialEq, Eq)]
struct Meter {
    within: Within,
    /// The number that the bytes of the hello spell, as far as they were seen.
    hello: u32,
    tally: Tally,
}

/// Where the byte after a whole frame stands, or the one after the hello.
const NEXT: Within = Within::Length { left: 4, length: 0 };

impl Meter {
    /// Nothing was seen so far.
    fn new() -> Meter
        ensures { (result.tally.messages ≡ 0) × (result.tally.parts ≡ 0) × (result.tally.bytes ≡ 0) }
    {
        Meter {
            within: Within::Hello(4),
            hello: 0,
            tally: Tally {
                messages: 0,
                parts: 0,
                bytes: 0,
            },
        }
    }

    /// Counts a whole frame of this kind: 1 to 3 are parts, 4 is the end of a message, 5 a fault.
    fn frame(&mut self, kind: u8) {
        match kind {
            1..=3 => self.tally.parts = self.tally.parts.saturating_add(1),
            END => self.tally.messages = self.tally.messages.saturating_add(1),
            _ => {}
        }
    }

    /// Goes on past this byte, with which a frame may be whole.
    fn step(&mut self, byte: u8) {
        self.within = match self.within {
            Within::Hello(left) => {
                self.hello = self.hello << 8 | u32::from(byte);
                if left > 1 {
                    Within::Hello(left - 1)
                } else {
                    NEXT
                }
            }
            Within::Length { left, length } => {
                let length = length << 8 | u32::from(byte);
                if left > 1 {
                    Within::Length {
                        left: left - 1,
                        length,
                    }
                } else {
                    Within::Kind { length }
                }
            }
            Within::Kind { length } => self.after(length.saturating_sub(1), byte),
            Within::Body { left, kind } => self.after(left.saturating_sub(1), kind),
        };
    }

    /// Where the next byte stands, if a frame of this kind has so many bytes to come.
    fn after(&mut self, left: u32, kind: u8) -> Within {
        if left > 0 {
            return Within::Body { left, kind };
        }
        self.frame(kind);
        NEXT
    }

    /// Counts these bytes.
    fn see(&mut self, bytes: &[u8])
        ensures { self.new.tally.bytes ≡ bytes_after self.old.tally (length bytes.now) }
    {
        let count = self.tally.bytes.saturating_add(bytes.len() as u64);
        for byte in bytes {
            self.step(*byte);
        }
        self.tally.bytes = count;
    }
}

/// A reader or a writer that passes each call on, and counts what goes through it.
#[derive(Debug, Drop)]
pub struct Metered<T> {
    inner: T,
    meter: Meter,
}

impl<T> Model for Metered<T> {
    ghost use Rattle.loading.specs.Metering.{MeteredState};

    ghost Value = { MeteredState T };

    ghost view = { λ m. record { inner = m.inner; tally = m.meter.tally } };
}

impl<T> Metered<T> {
    /// Nothing went through so far.
    pub fn new(inner: T) -> Metered<T>
        ensures { result ≡ metered inner }
    {
        Metered {
            inner,
            meter: Meter::new(),
        }
    }

    /// What went through.
    pub fn tally(&self) -> Tally
        ensures { result ≡ self.now.tally }
    {
        self.meter.tally
    }

    /// The reader or the writer itself.
    pub fn inner(&self) -> &T
        ensures { result.now ≡ self.now.inner }
    {
        &self.inner
    }

    /// The hello that went through; no hello at all, as long as fewer bytes did.
    pub fn hello(&self) -> [u8; 4] {
        self.meter.hello.to_be_bytes()
    }
}

impl<R: Read> Read for Metered<R> {
    ghost remaining = { λ m. R.remaining m.inner };

    fn read(&mut self, buf: &mut [u8]) -> io::Result<usize>
        ensures bound { ReadsAtMost result buf.new }
        ensures bytes { ReadConsumes (R.remaining self.old.inner) (R.remaining self.new.inner) result buf.new }
        ensures counted { IfOk result (λ n. self.new.tally.bytes ≡ bytes_after self.old.tally n) }
        ensures failed { OnErr result (self.new.tally ≡ self.old.tally) }
    {
        let count = self.inner.read(buf)?;
        self.meter.see(&buf[..count]);
        Ok(count)
    }
}

impl<W: Write> Write for Metered<W> {
    ghost contents = { λ m. W.contents m.inner };

    fn write(&mut self, buf: &[u8]) -> io::Result<usize>
        ensures bound { WritesAtMost result buf.now }
        ensures bytes { WriteAppends (W.contents self.old.inner) (W.contents self.new.inner) result buf.now }
        ensures counted { IfOk result (λ n. self.new.tally.bytes ≡ bytes_after self.old.tally n) }
        ensures failed { OnErr result (self.new.tally ≡ self.old.tally) }
    {
        let count = self.inner.write(buf)?;
        self.meter.see(&buf[..count]);
        Ok(count)
    }

    fn flush(&mut self) -> io::Result<()>
        ensures bytes { Keeps (W.contents self.old.inner) (W.contents self.new.inner) }
        ensures counted { self.new.tally ≡ self.old.tally }
    {
        self.inner.flush()
    }
}
