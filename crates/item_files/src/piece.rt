//! The items of a piece of a text, which up to four threads read.

ghost use Rattle.std.specs.Prelude.{◌≡◌, ◌+◌, ◌<◌, ◌≤◌, ◌^◌, ℕ, List, ◌∷◌, ◌++◌, length, IfOk, IfSome};
ghost use Rattle.std.specs.Thread.{IsSync};
ghost use Rattle.item_files.specs.PieceTexts.{feeds, later_line, IsPiece};

use crate::bad_line::BadLine;
use crate::fault::SettingsFault;
use crate::form::ItemForm;
use crate::item_file::items_of;
use crate::load_fault::LoadFault;
use item_core::Item;
use memchr::memrchr;
use std::alloc::{AllocError, Global};
use std::thread::{Threads, join};

/// Shorter pieces are read by one thread.
const SHORT: usize = 65_536;

/// What comes before a piece, and how its items stand there.
#[derive(Clone, Copy)]
pub struct PieceStart {
    /// How the items stand in the text.
    pub form: ItemForm,
    /// How many line feeds come before the piece.
    pub feeds: usize,
}

/// How many line feeds a text has.
#[tactic(auto, using(crate::proofs::Counts::feeds_few))]
pub fn feeds_in(text: &[u8]) -> usize
    ensures feeds { result ≡ feeds text.now }
    ensures few { result ≤ length text.now }
{
    text.iter().filter(|byte| **byte == b'\n').count()
}

/// A bad line of a piece, as a line of the whole text: so many line feeds come before the piece.
fn later_line(bad: BadLine, feeds: usize) -> BadLine
    requires { bad.number + feeds ≤ 2 ^ 40 }
    ensures { result ≡ later_line feeds bad }
{
    BadLine {
        number: bad.number + feeds,
        front: bad.front,
        flaw: bad.flaw,
    }
}

/// The items of a piece in order, by one thread.
fn read_alone(alloc: Global, start: PieceStart, text: &[u8]) -> Result<Vec<Item>, LoadFault>
    requires { start.feeds + length text.now < 2 ^ 40 }
    ensures { IsPiece start.form text.now start.feeds result }
{
    match items_of(alloc, start.form, text) {
        Ok(items) => Ok(items),
        Err(SettingsFault::BadItemLine(bad)) => {
            Err(LoadFault::BadItemLine(later_line(bad, start.feeds)))
        }
        // Of a text that is there no other fault is told.
        Err(_) => Err(LoadFault::Memory),
    }
}

/// The text in front of a line feed about the middle, and the text from that line feed on, if there is one.
fn halves(text: &[u8]) -> Option<(&[u8], &[u8])>
    ensures { IfSome result (λ h. (q : List ℕ) × (h.1.now ≡ 10 ∷ q) × (text.now ≡ h.0.now ++ 10 ∷ q)) }
{
    let Some(end) = memrchr(b'\n', &text[..text.len() / 2]) else {
        return None;
    };
    Some(text.split_at(end))
}

/// The start of the piece that follows this text.
fn start_after(start: PieceStart, text: &[u8]) -> PieceStart
    requires { start.feeds + length text.now < 2 ^ 40 }
    ensures form { result.form ≡ start.form }
    ensures feeds { result.feeds ≡ start.feeds + feeds text.now }
    ensures few { result.feeds ≤ start.feeds + length text.now }
{
    PieceStart {
        form: start.form,
        feeds: start.feeds + feeds_in(text),
    }
}

/// The items of both lists, one list after the other.
fn both(front: Vec<Item>, back: Vec<Item>) -> Result<Vec<Item>, AllocError>
    ensures { IfOk result (λ v. v.items ≡ front.items ++ back.items) }
{
    let mut items = front;
    let mut back = back;
    items.append(&mut back)?;
    Ok(items)
}

/// The items of a piece in order. It is cut in two `halvings` times, and each half has its own thread.
fn read_by<R: Threads + Sync>(
    rt: &R,
    alloc: Global,
    start: PieceStart,
    text: &[u8],
    halvings: u32,
) -> Result<Vec<Item>, LoadFault>
    requires few { start.feeds + length text.now < 2 ^ 40 }
    requires halvings { halvings ≤ 2 }
    ensures { IsPiece start.form text.now start.feeds result }
{
    if halvings == 0 || text.len() < SHORT {
        return read_alone(alloc, start, text);
    }
    let Some((front, back)) = halves(text) else {
        return read_alone(alloc, start, text);
    };
    let later = start_after(start, front);
    let less = halvings - 1;
    let (first, second) = join(
        rt,
        move || -> Result<Vec<Item>, LoadFault>
            requires { IsSync R.row × (less ≤ 2) × (start.feeds + length front.now < 2 ^ 40) }
            ensures { IsPiece start.form front.entry.now start.feeds result }
        { read_by(rt, alloc, start, front, less) },
        move || -> Result<Vec<Item>, LoadFault>
            requires { IsSync R.row × (less ≤ 2) × (later.feeds + length back.now < 2 ^ 40) }
            ensures { IsPiece later.form back.entry.now later.feeds result }
        { read_by(rt, alloc, later, back, less) },
    );
    Ok(both(first?, second?)?)
}

/// The items of a piece in order, or its first bad line, whatever threads read it.
pub fn piece_items<R: Threads + Sync>(
    rt: &R,
    alloc: Global,
    start: PieceStart,
    text: &[u8],
) -> Result<Vec<Item>, LoadFault>
    requires { start.feeds + length text.now < 2 ^ 40 }
    ensures { IsPiece start.form text.now start.feeds result }
{
    read_by(rt, alloc, start, text, 2)
}
