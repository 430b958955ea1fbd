//! The command `answer`.

ghost use Rattle.std.specs.Prelude.{◌≤◌, length};
ghost use Rattle.store_core.specs.Flat.{flat_items};

use ends_core::{answer, list_reply};
use io_core::{Watched, read_input, write_output};
use loading::items_of;
use printing_core::{Fault, Refusal, decode_text, encode_lines};
use settings_core::AnswerWords;
use std::alloc::Global;
use std::io::{Read, Write};
use std::rt::Files;
use store_core::{FlatStore, RangeStore};
use wire_core::decode_message;

/// The greatest number of different items of `answer`.
const MAX_ITEMS: usize = 65_536;

/// Answers bytes with bytes, or hex text with hex text.
fn answer_in<I: Read + Drop, O: Write + Drop>(
    alloc: Global,
    hexed: bool,
    store: &FlatStore,
    reader: I,
    out: O,
) -> Result<(), Fault>
    requires few { length (flat_items store.now) ≤ 65536 }
{
    let mut reader = Watched::new(reader);
    let mut out = Watched::new(out);
    if !hexed {
        answer(alloc, store, &mut reader, &mut out)?;
        return Ok(());
    }
    let text = read_input(alloc, &mut reader)?;
    let message = decode_message(alloc, &decode_text(alloc, &text)?)?;
    let reply = list_reply(alloc, store, &message)?;
    write_output(&mut out, &encode_lines(alloc, &reply)?)?;
    Ok(())
}

/// Answers the message of the input, in hex or in bytes, for the items of the file.
pub fn answer_for<'a, R: Files + AllocGlobal, I: Read + Drop, O: Write + Drop>(
    rt: &R,
    words: AnswerWords<'a>,
    reader: I,
    out: O,
) -> Result<(), Refusal<'a>> {
    let items = items_of(rt, words.form, words.items, MAX_ITEMS)?;
    let store = FlatStore::from_rising(rt.alloc(), &items)?;
    match answer_in(rt.alloc(), words.hexed, &store, reader, out) {
        Ok(()) => Ok(()),
        Err(fault) => Err(Refusal::of_message(words.hexed, fault)),
    }
}
