//! A reader of what a client says over a WebSocket: the payloads of its frames, in order.

ghost use Rattle.std.specs.Prelude.{◌≡◌, ◌≤◌, ℕ, List, true, false, Some, length, option_map, IfOk, IfSome, IfNone};
ghost use Rattle.std.specs.List.{AllByRecursion};
ghost use Rattle.std.specs.Io.{ReadsAtMost};
ghost use Rattle.std.specs.Io.KnownBytes.{ReadConsumes};
ghost use Rattle.http_core.specs.Frames.{asked_in, fresh, run};
ghost use Rattle.http_core.specs.SentFrames.{SentFrame, MaySend, encoded, stream_of};
ghost use Rattle.http_core.specs.Streams.{GivesOnce, may_end, stream_left};

use crate::frames::{Frames, Stop};
use std::io;
use std::io::{ErrorKind, Read};
use std::marker::Model;

/// How many reads one call makes at most that give no byte of the stream.
const TURNS: usize = 16;

/// A reader of the bytes of the stream, over one of frames.
#[derive(Drop)]
pub struct Framed<R> {
    reader: R,
    frames: Frames,
}

impl<R> Model for Framed<R> {
    ghost use Rattle.http_core.specs.Streams.{FramedState};

    ghost Value = { FramedState R };

    ghost view = { λ f. record { reader = f.reader; frames = f.frames } };
}

impl<R> Framed<R> {
    /// Nothing was read of these frames, each of which may have so many bytes of payload. The stream of whole frames that
    /// a client may send is their payloads.
    #[tactic(auto, using(crate::proofs::Whole::in_order))]
    pub fn new(reader: R, most: u64) -> Framed<R>
        ensures new { result ≡ record { reader = reader; frames = fresh most } }
        ensures stream { (sent : List SentFrame) → AllByRecursion (MaySend most) sent →
            stream_left result.frames (Some (encoded false sent)) ≡ Some (stream_of sent) }
    {
        Framed {
            reader,
            frames: Frames::new(most),
        }
    }

    /// The reader of the frames.
    pub fn reader(&self) -> &R
        ensures { result.now ≡ self.now.reader }
    {
        &self.reader
    }

    /// Why no more is read, if it is not.
    pub fn stop(&self) -> Option<Stop>
        ensures { result ≡ self.now.frames.stop }
    {
        self.frames.stop()
    }

    /// The payload of the last ping, if that is whole and not answered: at most 125 bytes.
    pub fn ping(&self) -> Option<&[u8]>
        ensures ping { option_map (λ text. text.now) result ≡ asked_in self.now.frames }
        ensures few { IfSome result (λ text. length text.now ≤ 125) }
    {
        self.frames.ping()
    }

    /// The last ping is answered. The stream stays as it is.
    #[tactic(auto, using(crate::proofs::Answered::same_stream))]
    pub fn answer_ping(&mut self)
        ensures answered { self.new ≡ record self.old { frames = record self.old.frames { asks = false } } }
        ensures stream { (bytes : List ℕ) → (run self.new.frames bytes).1 ≡ (run self.old.frames bytes).1 }
    {
        self.frames.answer_ping();
    }
}

impl<R: Read> Framed<R> {
    /// Reads frames once, and gives the bytes of the stream that are in them. None where no more are read.
    fn read_once(&mut self, buf: &mut [u8]) -> io::Result<Option<usize>>
        ensures bound { IfOk result (λ read. IfSome read (λ count. count ≤ length buf.new)) }
        ensures bytes { GivesOnce (stream_left self.old.frames (R.remaining self.old.reader))
            (stream_left self.new.frames (R.remaining self.new.reader)) result buf.new }
        ensures room { length buf.new ≡ length buf.old }
        ensures ended { IfOk result (λ read. IfNone read (may_end self.new.frames.stop ≡ true)) }
    {
        match self.frames.stop() {
            None => {}
            Some(Stop::Closed) => return Ok(None),
            Some(_) => return Err(io::Error::from(ErrorKind::InvalidData)),
        }
        let count = self.reader.read(buf)?;
        if count == 0 {
            return Ok(None);
        }
        Ok(Some(self.frames.unframe(&mut buf[..count])))
    }
}

impl<R: Read> Read for Framed<R> {
    ghost remaining = { λ f. stream_left f.frames (R.remaining f.reader) };

    /// Reads bytes of the stream. It has ended with the frame that closes it; after one that is not taken each read is
    /// an error.
    fn read(&mut self, buf: &mut [u8]) -> io::Result<usize>
        ensures bound { ReadsAtMost result buf.new }
        ensures bytes { ReadConsumes (stream_left self.old.frames (R.remaining self.old.reader))
            (stream_left self.new.frames (R.remaining self.new.reader)) result buf.new }
        ensures ended { IfOk result (λ count. count ≡ 0 → may_end self.new.frames.stop ≡ true) }
    {
        for _turn in 0..TURNS {
            match self.read_once(buf)? {
                None => return Ok(0),
                Some(0) => {}
                Some(kept) => return Ok(kept),
            }
        }
        Err(io::Error::from(ErrorKind::Interrupted))
    }
}
