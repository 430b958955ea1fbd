//! A reader of what a session reads, over one of what the other side says.

ghost use Rattle.std.specs.Prelude.{◌≡◌, ◌+◌, ◌-◌, ◌^◌, [], Some, None, true, false, length, take, drop, min};
ghost use Rattle.std.specs.Prelude.{bytes_eq, IfOk};
ghost use Rattle.std.specs.Io.{ReadsAtMost};
ghost use Rattle.std.specs.Io.KnownBytes.{IsAtEnd, Keeps, ReadConsumes};
ghost use Rattle.compact_core.specs.Unpackings.{unpacked_left};

use crate::buffers::{Queue, read_piece};
use crate::hello::Hello;
use crate::unpacker::Unpacker;
use digest_core::{Fingerprint, WireSummary};
use std::alloc::{AllocError, Global};
use std::io;
use std::io::{ErrorKind, Read};
use std::marker::Model;

/// How many reads one call makes at most that give no byte of the stream.
const TURNS: usize = 16;

/// A reader of the hello and of frames, over one of the hello and of compact bytes. After another hello all bytes are
/// as they are.
///
/// It takes no memory before the compact hello, nor after another one; after the compact one, that of an unfinished
/// unit, and of frames that are not handed on.
#[derive(Drop)]
pub struct Unpacking<R, F: WireSummary = Fingerprint> {
    reader: R,
    alloc: Global,
    hello: Hello,
    unpacker: Unpacker<F>,
    /// What was read and not unpacked, as memory ran out.
    piece: Vec<u8>,
    ready: Queue,
}

impl<R, F: WireSummary> Model for Unpacking<R, F> {
    ghost use Rattle.compact_core.specs.Unpackings.{UnpackingState};

    ghost Value = { UnpackingState R };

    ghost view = { λ u. record {
      reader = u.reader;
      opening = record { hello = u.hello; unpacker = u.unpacker };
      piece = u.piece.items;
      ready = u.ready;
    } };

    ghost use Rattle.std.specs.Prelude.{◌≡◌, [], false, bytes_eq, vec_items};
    ghost use Rattle.compact_core.specs.Unpacking.{frames_after};

    // All that has come was said, and without the compact hello nothing waits.
    ghost invariant = { λ u. (frames_after F.profile u.unpacker [] ≡ [])
        × (bytes_eq u.hello F.profile.hello ≡ false → (vec_items u.piece ≡ []) × (u.ready ≡ [])) };
}

impl<R, F: WireSummary> Unpacking<R, F> {
    /// Nothing was read.
    pub fn new(alloc: Global, reader: R) -> Unpacking<R, F>
        ensures { result ≡ record {
          reader = reader;
          opening = record { hello = []; unpacker = record { to = Some []; kept = []; fault = None } };
          piece = [];
          ready = [];
        } }
    {
        Unpacking {
            reader,
            alloc,
            hello: Hello::new(),
            unpacker: Unpacker::new(alloc),
            piece: Vec::new(alloc),
            ready: Queue::of(Vec::new(alloc)),
        }
    }

    /// The reader of what the other side says.
    pub fn reader(&self) -> &R
        ensures { result.now ≡ self.now.reader }
    {
        &self.reader
    }

    /// How many bytes it keeps: those of an unfinished unit, those that are not unpacked, and those of frames that are
    /// not handed on.
    pub fn held(&self) -> u64
        ensures { result ≡ min (length self.now.opening.unpacker.kept + length self.now.piece + length self.now.ready)
            (2 ^ 64 - 1) }
    {
        let unpacked = self.unpacker.held().saturating_add(self.piece.len());
        (unpacked as u64).saturating_add(self.ready.rest().len() as u64)
    }

    /// The same for good.
    pub fn into_reader(self) -> R
        ensures { result ≡ self.reader }
    {
        let Unpacking { reader, .. } = self;
        reader
    }
}

impl<R: Read, F: WireSummary> Unpacking<R, F> {
    /// Reads where the compact hello has not come: of the hello, and nothing after it; after another one, bytes as they
    /// are.
    fn read_plain(&mut self, buf: &mut [u8]) -> io::Result<usize>
        requires { bytes_eq self.old.opening.hello F.profile.hello ≡ false }
        ensures bound { ReadsAtMost result buf.new }
        ensures bytes { ReadConsumes (unpacked_left F.profile self.old (R.remaining self.old.reader))
            (unpacked_left F.profile self.new (R.remaining self.new.reader)) result buf.new }
    {
        let due = self.hello.due();
        if due == 0 {
            return self.reader.read(buf);
        }
        let most = due.min(buf.len());
        let count = self.reader.read(&mut buf[..most])?;
        self.hello.hear(&buf[..count]);
        Ok(count)
    }

    /// Reads a piece, where none waits.
    fn fill(&mut self) -> io::Result<()>
        requires { (self.old.ready ≡ []) × (bytes_eq self.old.opening.hello F.profile.hello ≡ true) }
        ensures bytes { Keeps (unpacked_left F.profile self.old (R.remaining self.old.reader))
            (unpacked_left F.profile self.new (R.remaining self.new.reader)) }
        ensures ended { IfOk result (λ _. self.new.piece ≡ [] →
            IsAtEnd (unpacked_left F.profile self.new (R.remaining self.new.reader))) }
        ensures same { (self.new.ready ≡ []) × (self.new.opening.hello ≡ self.old.opening.hello) }
    {
        if !self.piece.is_empty() {
            return Ok(());
        }
        self.piece = read_piece(self.alloc, &mut self.reader)?;
        Ok(())
    }

    /// Unpacks the piece that waits.
    fn unpack_piece(&mut self) -> io::Result<()>
        requires { (self.old.ready ≡ []) × (bytes_eq self.old.opening.hello F.profile.hello ≡ true) }
        ensures bytes { Keeps (unpacked_left F.profile self.old (R.remaining self.old.reader))
            (unpacked_left F.profile self.new (R.remaining self.new.reader)) }
        ensures hello { self.new.opening.hello ≡ self.old.opening.hello }
    {
        let mut ready = Vec::new(self.alloc);
        match self.unpacker.push(self.alloc, &self.piece, &mut ready) {
            Ok(()) => {
                self.piece = Vec::new(self.alloc);
                self.ready = Queue::of(ready);
                Ok(())
            }
            Err(AllocError) => Err(io::Error::from(ErrorKind::OutOfMemory)),
        }
    }

    /// Unpacks the bytes of one read, which is made where none wait. Whether there were any.
    #[tactic(auto, using(crate::proofs::Written::held_on))]
    fn unpack(&mut self) -> io::Result<bool>
        requires { (self.old.ready ≡ []) × (bytes_eq self.old.opening.hello F.profile.hello ≡ true) }
        ensures bytes { Keeps (unpacked_left F.profile self.old (R.remaining self.old.reader))
            (unpacked_left F.profile self.new (R.remaining self.new.reader)) }
        ensures ended { IfOk result (λ more. more ≡ false →
            IsAtEnd (unpacked_left F.profile self.new (R.remaining self.new.reader))) }
        ensures hello { self.new.opening.hello ≡ self.old.opening.hello }
    {
        self.fill()?;
        if self.piece.is_empty() {
            return Ok(false);
        }
        self.unpack_piece()?;
        Ok(true)
    }

    /// Hands on frames that are ready; where they are all handed on, their memory is let go.
    fn give(&mut self, buf: &mut [u8]) -> usize
        requires { bytes_eq self.old.opening.hello F.profile.hello ≡ true }
        ensures few { result ≡ min (length self.old.ready) (length buf.old) }
        ensures given { take result buf.new ≡ take result self.old.ready }
        ensures left { self.new ≡ record self.old { ready = drop result self.old.ready } }
        ensures room { length buf.new ≡ length buf.old }
    {
        let count = self.ready.give(buf);
        if self.ready.is_empty() {
            self.ready = Queue::of(Vec::new(self.alloc));
        }
        count
    }

    /// Reads of the frames after the compact hello.
    fn read_frames(&mut self, buf: &mut [u8]) -> io::Result<usize>
        requires { bytes_eq self.old.opening.hello F.profile.hello ≡ true }
        ensures bound { ReadsAtMost result buf.new }
        ensures bytes { ReadConsumes (unpacked_left F.profile self.old (R.remaining self.old.reader))
            (unpacked_left F.profile self.new (R.remaining self.new.reader)) result buf.new }
    {
        'turns: for _turn in 0..TURNS {
            if !self.ready.is_empty() {
                return Ok(self.give(buf));
            }
            if !self.unpack()? {
                return Ok(0);
            }
        }
        Err(io::Error::from(ErrorKind::Interrupted))
    }
}

impl<R: Read, F: WireSummary> Read for Unpacking<R, F> {
    ghost remaining = { λ u. unpacked_left F.profile u (R.remaining u.reader) };

    /// Reads bytes of the stream. Where memory runs out nothing is lost: the next call goes on.
    fn read(&mut self, buf: &mut [u8]) -> io::Result<usize>
        ensures bound { ReadsAtMost result buf.new }
        ensures bytes { ReadConsumes (unpacked_left F.profile self.old (R.remaining self.old.reader))
            (unpacked_left F.profile self.new (R.remaining self.new.reader)) result buf.new }
    {
        if !self.hello.is_of::<F>() {
            return self.read_plain(buf);
        }
        self.read_frames(buf)
    }
}
