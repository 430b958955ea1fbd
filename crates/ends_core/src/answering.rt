ghost use Rattle.std.specs.Prelude.{◌≡◌, ◌≤◌, false, length};
ghost use Rattle.store_core.specs.Flat.{flat_items};
ghost use Rattle.ends_core.specs.Answered.{Asked, Prepared, Answered};
ghost use Rattle.ends_core.specs.declared.answering.AnswerFault.TheVariants as faults;
ghost use Rattle.ends_core.specs.FaultsOf.{of_input, of_decoding, of_listing};

use crate::listing::{ListReplyFault, list_reply};
use io_core::{InputFault, Watched, WriterFailed, read_input, write_output};
use std::alloc::{AllocError, Global};
use std::io::{Read, Write};
use store_core::FlatStore;
use wire_core::{DecodeError, Message, WireFault, decode_message, encode_message};

/// Why no reply was written, or not all of it.
#[derive(Clone, Copy, Debug, PartialEq, Eq)]
pub enum AnswerFault {
    /// The reader failed, or the input is above 16,777,216 bytes.
    CannotRead,
    /// The input spells no message.
    Wire(WireFault),
    /// A part of the message is no Sum.
    Misplaced,
    /// The writer failed: a beginning of the reply was written.
    Io,
    /// Memory ran out.
    Memory,
}

impl From<InputFault> for AnswerFault {
    ghost from_gives = { λ f e. e ≡ of_input f };

    fn from(fault: InputFault) -> AnswerFault {
        match fault {
            InputFault::CannotRead(_) => AnswerFault::CannotRead,
            InputFault::Memory => AnswerFault::Memory,
        }
    }
}

impl From<DecodeError> for AnswerFault {
    ghost from_gives = { λ f e. e ≡ of_decoding f };

    fn from(error: DecodeError) -> AnswerFault {
        match error {
            DecodeError::Fault(fault) => AnswerFault::Wire(fault),
            DecodeError::Memory => AnswerFault::Memory,
        }
    }
}

impl From<ListReplyFault> for AnswerFault {
    ghost from_gives = { λ f e. e ≡ of_listing f };

    fn from(fault: ListReplyFault) -> AnswerFault {
        match fault {
            ListReplyFault::Misplaced => AnswerFault::Misplaced,
            ListReplyFault::Memory => AnswerFault::Memory,
        }
    }
}

impl From<AllocError> for AnswerFault {
    ghost from_gives = { λ _ e. e ≡ faults.Memory };

    fn from(_refused: AllocError) -> AnswerFault {
        AnswerFault::Memory
    }
}

impl From<WriterFailed> for AnswerFault {
    ghost from_gives = { λ _ e. e ≡ faults.Io };

    fn from(_failed: WriterFailed) -> AnswerFault {
        AnswerFault::Io
    }
}

/// The message that the input spells. The input itself is given up.
fn asked<R: Read>(alloc: Global, reader: &mut Watched<R>) -> Result<Message, AnswerFault>
    requires { reader.old.failed ≡ false }
    ensures { Asked
        (record {
          old = R.remaining reader.old.inner;
          new = R.remaining reader.new.inner;
          failed = reader.new.failed;
        }) result }
{
    let input = read_input(alloc, reader)?;
    Ok(decode_message(alloc, &input)?)
}

/// The spelling of the reply to the message that the input spells.
fn reply_for<R: Read>(
    alloc: Global,
    store: &FlatStore,
    reader: &mut Watched<R>,
) -> Result<Vec<u8>, AnswerFault>
    requires few { length (flat_items store.now) ≤ 65536 }
    requires fresh { reader.old.failed ≡ false }
    ensures { Prepared (λ v. v.items) (flat_items store.now)
        (record {
          old = R.remaining reader.old.inner;
          new = R.remaining reader.new.inner;
          failed = reader.new.failed;
        }) result }
{
    let message = asked(alloc, reader)?;
    let reply = list_reply(alloc, store, &message)?;
    Ok(encode_message(alloc, &reply)?)
}

/// Reads one message to the end of the input, without a hello, and writes the spelling of its reply under the table
/// that lists every range.
///
/// Nothing is written in any refusal but Io.
pub fn answer<R: Read, W: Write>(
    alloc: Global,
    store: &FlatStore,
    reader: &mut Watched<R>,
    writer: &mut Watched<W>,
) -> Result<(), AnswerFault>
    requires few { length (flat_items store.now) ≤ 65536 }
    requires reader { reader.old.failed ≡ false }
    requires writer { writer.old.failed ≡ false }
    ensures { Answered (flat_items store.now)
        (record {
          old = R.remaining reader.old.inner;
          new = R.remaining reader.new.inner;
          failed = reader.new.failed;
        })
        (record {
          old = W.contents writer.old.inner;
          new = W.contents writer.new.inner;
          failed = writer.new.failed;
        }) result }
{
    let text = reply_for(alloc, store, reader)?;
    write_output(writer, &text)?;
    Ok(())
}
