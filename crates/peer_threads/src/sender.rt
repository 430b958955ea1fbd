//! What goes out on a connection: the hello, whole messages, and one fault frame.

ghost use Rattle.std.specs.Prelude.{◌≡◌, ◌<◌, ◌+◌, false, true, OnOk, OnErr, IsTrue};
ghost use Rattle.std.specs.Io.KnownBytes.{Appends};
ghost use Rattle.peer_threads.specs.Senders.{sender_state, hello_due, refusal_text, Begins, BreaksIn, WroteSo};

use crate::tokens::Counted;
use digest_core::WireSummary;
use io_core::{Watched, WriterFailed, write_output};
use std::io::Write;
use std::marker::{Model, PhantomData};
use wire_core::{encode_fault, encode_hello};

/// What a side has written: whether its hello, and how many messages whole.
#[derive(Drop)]
pub(crate) struct Sender<F: WireSummary> {
    greeted: bool,
    sent: u32,
    of: PhantomData<F>,
}

impl<F: WireSummary> Model for Sender<F> {
    ghost use Rattle.peer_threads.specs.Senders.{SenderState, sender_state};

    ghost Value = { SenderState };

    ghost view = { λ o. sender_state o.greeted o.sent };
}

impl<F: WireSummary> Sender<F> {
    /// Nothing was written.
    pub(crate) fn new() -> Sender<F>
        ensures { result ≡ sender_state false 0 }
    {
        Sender {
            greeted: false,
            sent: 0,
            of: PhantomData,
        }
    }

    /// How many messages were written whole.
    pub(crate) fn sent(&self) -> u32
        ensures { result ≡ self.now.sent }
    {
        self.sent
    }

    /// Writes the hello, if it was not written.
    pub(crate) fn greet<W: Write>(&mut self, writer: &mut Watched<W>) -> Result<(), WriterFailed>
        requires { writer.old.failed ≡ false }
        ensures whole { OnOk result (Appends (W.contents writer.old.inner) (W.contents writer.new.inner)
            (hello_due F.profile self.old)) }
        ensures greeted { OnOk result (self.new ≡ sender_state true self.old.sent) }
        ensures fine { OnOk result (writer.new.failed ≡ false) }
        ensures front { OnErr result (BreaksIn (W.contents writer.old.inner) (W.contents writer.new.inner)
            (hello_due F.profile self.old)) }
        ensures same { OnErr result (self.new ≡ self.old) }
        ensures failed { OnErr result (IsTrue writer.new.failed) }
    {
        if self.greeted {
            return Ok(());
        }
        write_output(writer, &encode_hello::<F>())?;
        self.greeted = true;
        Ok(())
    }

    /// Writes the text of a message that the table has counted. It is sent once it is written whole.
    pub(crate) fn send<W: Write>(
        &mut self,
        writer: &mut Watched<W>,
        text: &[u8],
        counted: Counted,
    ) -> Result<(), WriterFailed>
        requires fine { writer.old.failed ≡ false }
        requires room { self.old.sent < 4294967295 }
        ensures whole { OnOk result (Appends (W.contents writer.old.inner) (W.contents writer.new.inner) text.now) }
        ensures counted { OnOk result (self.new ≡ sender_state self.old.greeted (self.old.sent + 1)) }
        ensures fine { OnOk result (writer.new.failed ≡ false) }
        ensures front { OnErr result (BreaksIn (W.contents writer.old.inner) (W.contents writer.new.inner) text.now) }
        ensures same { OnErr result (self.new ≡ self.old) }
        ensures failed { OnErr result (IsTrue writer.new.failed) }
    {
        counted.use_up();
        write_output(writer, text)?;
        self.sent += 1;
        Ok(())
    }

    /// Writes one fault frame, after the hello if that was not written, unless the writer failed before. It takes no
    /// memory, and where the writer fails a beginning of it was written.
    pub(crate) fn refuse<W: Write>(self, writer: &mut Watched<W>, code: u8)
        ensures { WroteSo (W.contents writer.old.inner) (W.contents writer.new.inner) writer.new.failed
            (refusal_text F.profile self code) }
    {
        if writer.failed() {
            return;
        }
        let _ = self.write_refusal(writer, code);
    }

    /// Writes the hello, if it was not written, and one fault frame.
    fn write_refusal<W: Write>(
        mut self,
        writer: &mut Watched<W>,
        code: u8,
    ) -> Result<(), WriterFailed>
        requires { writer.old.failed ≡ false }
        ensures whole { OnOk result (Appends (W.contents writer.old.inner) (W.contents writer.new.inner)
            (refusal_text F.profile self code)) }
        ensures front { OnErr result (Begins (W.contents writer.old.inner) (W.contents writer.new.inner)
            (refusal_text F.profile self code)) }
        ensures failed { OnErr result (IsTrue writer.new.failed) }
    {
        self.greet(writer)?;
        write_output(writer, &encode_fault(code))
    }
}
