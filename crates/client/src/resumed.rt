//! A reader that is asked again where a call was interrupted.

ghost use Rattle.std.specs.Prelude.{◌≡◌, false, IfOk};
ghost use Rattle.std.specs.Io.{ReadsAtMost};
ghost use Rattle.std.specs.Io.KnownBytes.{ReadConsumes};

use std::io;
use std::io::{ErrorKind, Read};
use std::marker::Model;

/// A reader over one that may be interrupted: in the compact profile after some reads that gave no whole unit.
#[derive(Drop)]
pub struct Resumed<R> {
    inner: R,
}

impl<R> Model for Resumed<R> {
    ghost Value = { R };

    ghost view = { λ r. r.inner };
}

/// Whether the call was interrupted.
fn is_interrupted(read: &io::Result<usize>) -> bool
    ensures { IfOk read.now (λ _. result ≡ false) }
{
    match read {
        Ok(_) => false,
        Err(fault) => fault.kind() == ErrorKind::Interrupted,
    }
}

impl<R> Resumed<R> {
    /// Over this reader.
    pub fn new(inner: R) -> Resumed<R>
        ensures { result ≡ inner }
    {
        Resumed { inner }
    }

    /// The reader itself.
    pub fn into_inner(self) -> R
        ensures { result ≡ self }
    {
        let Resumed { inner } = self;
        inner
    }
}

impl<R: Read> Resumed<R> {
    /// Reads as often as the reader is interrupted, and once more.
    fn read_on(&mut self, buf: &mut [u8]) -> io::Result<usize>
        ensures bound { ReadsAtMost result buf.new }
        ensures bytes { ReadConsumes (R.remaining self.old) (R.remaining self.new) result buf.new }
    {
        'again: for _turn in 0..u64::MAX {
            let read = self.inner.read(buf);
            if !is_interrupted(&read) {
                return read;
            }
        }
        Err(io::Error::from(ErrorKind::Interrupted))
    }
}

impl<R: Read> Read for Resumed<R> {
    ghost remaining = { λ inner. R.remaining inner };

    fn read(&mut self, buf: &mut [u8]) -> io::Result<usize>
        ensures bound { ReadsAtMost result buf.new }
        ensures bytes { ReadConsumes (R.remaining self.old) (R.remaining self.new) result buf.new }
    {
        self.read_on(buf)
    }
}
