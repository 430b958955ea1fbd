ghost use Rattle.std.specs.Prelude.{◌≡◌, ◌||◌, false, None, is_err};
ghost use Rattle.std.specs.Io.{ReadsAtMost, WritesAtMost};
ghost use Rattle.std.specs.Io.KnownBytes.{ReadConsumes, WriteAppends, Keeps};
ghost use Rattle.io_core.specs.Watch.{failed_read, ended_read, failed_write, fault_read, one_more};

use crate::read_fault::ReadFault;
use std::io;
use std::io::{Read, Write};
use std::marker::Model;

/// A reader or a writer that passes each call on, and tells whether one failed, and why, whether the input ended, and
/// how often it was read.
#[derive(Debug, Drop)]
pub struct Watched<T> {
    inner: T,
    failed: bool,
    ended: bool,
    reads: u64,
    fault: Option<ReadFault>,
}

impl<T> Model for Watched<T> {
    ghost use Rattle.io_core.specs.Watch.{Watch};

    ghost Value = { Watch T };

    ghost view = { λ a. record {
      inner = a.inner;
      failed = a.failed;
      ended = a.ended;
      reads = a.reads;
      fault = a.fault;
    } };
}

impl<T> Watched<T> {
    /// Nothing has failed or ended so far.
    pub fn new(inner: T) -> Watched<T>
        ensures { result ≡ record { inner = inner; failed = false; ended = false; reads = 0; fault = None } }
    {
        Watched {
            inner,
            failed: false,
            ended: false,
            reads: 0,
            fault: None,
        }
    }

    /// Whether a call gave an error, or a write took no byte of a rest.
    pub fn failed(&self) -> bool
        ensures { result ≡ self.now.failed }
    {
        self.failed
    }

    /// Whether a read into room gave no byte.
    pub fn ended(&self) -> bool
        ensures { result ≡ self.now.ended }
    {
        self.ended
    }

    /// How many reads there were, failed ones too. It stops at the greatest number.
    pub fn reads(&self) -> u64
        ensures { result ≡ self.now.reads }
    {
        self.reads
    }

    /// Why the last read that failed did.
    pub fn fault(&self) -> Option<ReadFault>
        ensures { result ≡ self.now.fault }
    {
        self.fault
    }

    /// The reader or writer itself.
    pub fn into_inner(self) -> T
        ensures { result ≡ self.inner }
    {
        let Watched {
            inner,
            failed: _,
            ended: _,
            reads: _,
            fault: _,
        } = self;
        inner
    }
}

impl<R: Read> Read for Watched<R> {
    ghost remaining = { λ w. R.remaining w.inner };

    fn read(&mut self, buf: &mut [u8]) -> io::Result<usize>
        ensures bound { ReadsAtMost result buf.new }
        ensures bytes { ReadConsumes (R.remaining self.old.inner) (R.remaining self.new.inner) result buf.new }
        ensures failed { self.new.failed ≡ (self.old.failed || failed_read result) }
        ensures ended { self.new.ended ≡ (self.old.ended || ended_read result buf.new) }
        ensures reads { self.new.reads ≡ one_more self.old.reads }
        ensures fault { self.new.fault ≡ fault_read self.old.fault result }
    {
        self.reads = self.reads.saturating_add(1);
        let result = self.inner.read(buf);
        match &result {
            Ok(count) => self.ended = self.ended || (*count == 0 && !buf.is_empty()),
            Err(error) => {
                self.failed = true;
                self.fault = Some(ReadFault::of(error));
            }
        }
        result
    }
}

impl<W: Write> Write for Watched<W> {
    ghost contents = { λ w. W.contents w.inner };

    fn write(&mut self, buf: &[u8]) -> io::Result<usize>
        ensures bound { WritesAtMost result buf.now }
        ensures bytes { WriteAppends (W.contents self.old.inner) (W.contents self.new.inner) result buf.now }
        ensures failed { self.new.failed ≡ (self.old.failed || failed_write result buf.now) }
        ensures ended { self.new.ended ≡ self.old.ended }
        ensures reads { self.new.reads ≡ self.old.reads }
        ensures fault { self.new.fault ≡ self.old.fault }
    {
        let result = self.inner.write(buf);
        match &result {
            Ok(count) => self.failed = self.failed || (*count == 0 && !buf.is_empty()),
            Err(_) => self.failed = true,
        }
        result
    }

    fn flush(&mut self) -> io::Result<()>
        ensures bytes { Keeps (W.contents self.old.inner) (W.contents self.new.inner) }
        ensures failed { self.new.failed ≡ (self.old.failed || is_err result) }
        ensures ended { self.new.ended ≡ self.old.ended }
        ensures reads { self.new.reads ≡ self.old.reads }
        ensures fault { self.new.fault ≡ self.old.fault }
    {
        let result = self.inner.flush();
        self.failed = self.failed || result.is_err();
        result
    }
}
