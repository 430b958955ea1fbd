//! A writer of what a session says, over one of what is sent.

ghost use Rattle.std.specs.Prelude.{◌≡◌, ◌<◌, ◌≤◌, ◌-◌, ◌⊎◌, true, [], Some, min, length, take, IfOk, OnOk, OnErr};
ghost use Rattle.std.specs.Io.{WritesAtMost};
ghost use Rattle.std.specs.Io.KnownBytes.{Keeps, append_known};
ghost use Rattle.compact_core.specs.Sendings.{packed_of, passes, taken_of};
ghost use Rattle.compact_core.specs.Writes.{Wrote};

use crate::buffers::Queue;
use crate::hello::parted;
use crate::sending::Sending;
use digest_core::{Fingerprint, WireSummary};
use std::alloc::Global;
use std::io;
use std::io::{ErrorKind, Write};
use std::marker::Model;

/// How many bytes one call packs at most: that they are written is told before more are.
const MOST: usize = 16_384;

/// A writer of the hello and of frames, over one of the hello and of compact text. After another hello all bytes are as
/// they are.
#[derive(Drop)]
pub struct Packing<W, F: WireSummary = Fingerprint> {
    writer: W,
    alloc: Global,
    sending: Sending<F>,
    /// The text that is not written yet.
    pending: Queue,
    /// How many bytes it stands for that were not told as written.
    untold: usize,
}

impl<W, F: WireSummary> Model for Packing<W, F> {
    ghost use Rattle.compact_core.specs.Sendings.{PackingState};

    ghost Value = { PackingState W };

    ghost view = { λ a. record { writer = a.writer; sending = a.sending; pending = a.pending; untold = a.untold } };

    ghost use Rattle.std.specs.Prelude.{◌≡◌, []};

    ghost invariant = { λ a. a.untold ≡ 0 → a.pending ≡ [] };
}

impl<W, F: WireSummary> Packing<W, F> {
    /// Nothing was written.
    pub fn new(alloc: Global, writer: W) -> Packing<W, F>
        ensures { result ≡ record {
          writer = writer;
          sending = record { hello = []; packer = record { to = Some []; kept = [] } };
          pending = [];
          untold = 0;
        } }
    {
        Packing {
            writer,
            alloc,
            sending: Sending::new(alloc),
            pending: Queue::of(Vec::new(alloc)),
            untold: 0,
        }
    }

    /// The writer of what is sent.
    pub fn writer(&self) -> &W
        ensures { result.now ≡ self.now.writer }
    {
        &self.writer
    }

    /// The same for good.
    pub fn into_writer(self) -> W
        ensures { result ≡ self.writer }
    {
        let Packing { writer, .. } = self;
        writer
    }

    /// Whether bytes are handed on as they are.
    fn passes(&self) -> bool
        ensures { result ≡ passes F.profile self.now }
    {
        self.untold == 0 && self.sending.is_plain()
    }

    /// Packs the bytes, unless bytes wait that were packed before, or there are none.
    fn pack(&mut self, bytes: &[u8]) -> io::Result<()>
        ensures packed { OnOk result (self.new ≡ packed_of F.profile self.old bytes.now) }
        ensures memory { OnErr result (self.new ≡ self.old) }
    {
        if self.untold > 0 || bytes.is_empty() {
            return Ok(());
        }
        let mut text = Vec::new(self.alloc);
        if self.sending.push(self.alloc, bytes, &mut text).is_err() {
            return Err(io::Error::from(ErrorKind::OutOfMemory));
        }
        self.pending = Queue::of(text);
        self.untold = bytes.len();
        Ok(())
    }
}

/// The first of the bytes, as many as one call packs.
fn first_piece(bytes: &[u8]) -> &[u8]
    ensures { result.now ≡ take 16384 bytes.now }
{
    let (first, _) = parted(MOST, bytes);
    first
}

/// Writes once, and gives how many bytes were taken.
fn write_once<W: Write>(writer: &mut W, pending: &mut Queue) -> io::Result<usize>
    ensures held { Keeps (append_known (W.contents writer.old) pending.old)
        (append_known (W.contents writer.new) pending.new) }
    ensures shorter { IfOk result (λ count. 0 < count → length pending.new < length pending.old) }
    ensures most { length pending.new ≤ length pending.old }
{
    let count = writer.write(pending.rest())?;
    pending.skip(count);
    Ok(count)
}

/// Writes all, and tells whether it did: not where the writer takes nothing.
#[tactic(auto, using(crate::proofs::Written::held_same, crate::proofs::Written::held_on))]
fn write_out<W: Write>(writer: &mut W, pending: &mut Queue) -> io::Result<bool>
    ensures held { Keeps (append_known (W.contents writer.old) pending.old)
        (append_known (W.contents writer.new) pending.new) }
    ensures all { IfOk result (λ all. all ≡ true → pending.new ≡ []) }
    ensures shorter { length pending.new ≤ length pending.old }
{
    'writes: while !pending.is_empty() {
        if write_once(writer, pending)? == 0 {
            return Ok(false);
        }
    }
    Ok(true)
}

impl<W: Write, F: WireSummary> Packing<W, F> {
    /// Packs a piece of the bytes, and writes its text, or that of bytes that wait.
    fn write_packed(&mut self, bytes: &[u8]) -> io::Result<usize>
        ensures bound { WritesAtMost result bytes.now }
        ensures step { (self.new ≡ self.old)
            ⊎ Wrote W.contents (packed_of F.profile self.old (take 16384 bytes.now)) self.new }
        ensures told { IfOk result (λ n. 0 < n →
            Wrote W.contents (packed_of F.profile self.old (take 16384 bytes.now)) self.new
            × (self.new.pending ≡ [])
            × (self.new.untold ≡ (packed_of F.profile self.old (take 16384 bytes.now)).untold - n)
            × (n ≡ min (packed_of F.profile self.old (take 16384 bytes.now)).untold (length bytes.now))) }
    {
        self.pack(first_piece(bytes))?;
        if !write_out(&mut self.writer, &mut self.pending)? {
            return Ok(0);
        }
        self.pending = Queue::of(Vec::new(self.alloc));
        let told = self.untold.min(bytes.len());
        self.untold -= told;
        Ok(told)
    }
}

impl<W: Write, F: WireSummary> Write for Packing<W, F> {
    /// Says that bytes are written once the text of all their whole frames is.
    ///
    /// After an error the bytes are not told, and their text is kept: the next call is to have the same bytes at the
    /// front, and goes on with it.
    fn write(&mut self, buf: &[u8]) -> io::Result<usize>
        ensures bound { WritesAtMost result buf.now }
        // What the inner writer holds, and the text that waits, are what they were and the text of the bytes.
        ensures step { (self.new ≡ self.old) ⊎ Wrote W.contents
            (packed_of F.profile self.old (taken_of F.profile self.old buf.now result)) self.new }
        ensures told { IfOk result (λ n. 0 < n →
            Wrote W.contents (packed_of F.profile self.old (taken_of F.profile self.old buf.now result)) self.new
            × (self.new.pending ≡ [])
            × (self.new.untold
            ≡ (packed_of F.profile self.old (taken_of F.profile self.old buf.now result)).untold - n)
            × (n ≡ min (packed_of F.profile self.old (taken_of F.profile self.old buf.now result)).untold
            (length buf.now))) }
    {
        if self.passes() {
            return self.writer.write(buf);
        }
        self.write_packed(buf)
    }

    fn flush(&mut self) -> io::Result<()> {
        self.writer.flush()
    }
}
