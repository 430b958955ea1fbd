//! Item files: one item a line, in hex or as text.
//!
//! In hex a carriage return at a line's end, then spaces and tabs at both its ends, and blank lines are ignored. A line
//! of text without one carriage return at its end is an item as it stands, or spells one in hex after `0x`; empty
//! lines are ignored. Of lines that are hashed this is so too, but that the SHA-256 digest of a line is its item,
//! unless the line begins with `0x`. An item given twice counts once. A file that begins with a byte order mark is
//! refused.

ghost use Rattle.std.specs.Prelude.{◌≡◌, ◌≢◌, ◌<◌, ◌≤◌, ℕ, List, [], ◌∷◌, ◌++◌, length, IfOk, IfErr, IfSome, OnOk};
ghost use Rattle.std.specs.Prelude.{option_map, Some, None, Ok, Err};
ghost use Rattle.std.specs.Char.{is_ascii_hexdigit};
ghost use Rattle.std.specs.List.{list_all};
ghost use Rattle.definitions.specs.Items.{Item as Bytes};
ghost use Rattle.hex.specs.Hex.{decode_of};
ghost use Rattle.definitions.specs.Sets.{IsSet};
ghost use Rattle.item_files.specs.Faults.{IsSetOf};
ghost use Rattle.item_files.specs.Files.{IsFromFile, IsAllOf};
ghost use Rattle.item_files.specs.ItemFiles.{is_blank, without_front, without_end, digits_in, decoded, line_items};
ghost use Rattle.item_files.specs.ItemFiles.{lines, lines_in, items_from, file_items, text_in, text_item, hashed_item};
ghost use Rattle.item_files.specs.ItemFiles.{content_of, spelled, has_byte_order_mark, are_long_digits, is_long};
ghost use Rattle.item_files.specs.ItemFiles.{line_flaw, other_flaw, bad_line};
ghost use Rattle.item_files.specs.declared.bad_line.BadLine.{BadLine};
ghost use Rattle.item_files.specs.declared.bad_line.LineFlaw.TheVariants as flaws;

use crate::bad_line::{BadLine, Front, LineFlaw};
use crate::fault::SettingsFault;
use crate::file::{read_file, read_text};
use crate::form::ItemForm;
use item_core::Item;
use memchr::memchr;
use sha2::{Digest, Sha256};
use std::alloc::Global;
use std::io::Read;
use std::rt::Files;
use store_core::{set_laws, spans};

/// Whether a byte is a blank of an item line.
fn is_blank(byte: u8) -> bool
    ensures { result ≡ is_blank byte }
{
    byte == b' ' || byte == b'\t'
}

/// The line without the blanks at its front.
fn without_front(line: &[u8]) -> &[u8]
    ensures { result.now ≡ without_front line.now }
{
    let mut rest = line;
    while let Some((first, others)) = rest.split_first() {
        if !is_blank(*first) {
            break;
        }
        rest = others;
    }
    rest
}

/// The line without the blanks at its end.
fn without_end(line: &[u8]) -> &[u8]
    ensures { result.now ≡ without_end line.now }
{
    let mut rest = line;
    while let Some((last, others)) = rest.split_last() {
        if !is_blank(*last) {
            break;
        }
        rest = others;
    }
    rest
}

/// The line without one carriage return at its end, and then without the blanks at both ends.
fn digits_in(line: &[u8]) -> &[u8]
    ensures { result.now ≡ digits_in line.now }
{
    without_front(without_end(line.strip_suffix(b"\r").unwrap_or(line)))
}

/// The item that hex digits spell, if they spell one.
pub fn item_of(digits: &[u8]) -> Option<Item>
    ensures { result ≡ decoded (decode_of digits.now) }
{
    if digits.len() > 128 {
        return None;
    }
    let mut bytes = [0u8; 64];
    let room = &mut bytes[..digits.len() / 2];
    hex::decode_to_slice(digits, room).ok()?;
    Item::new(room).ok()
}

/// The line without one carriage return at its end.
fn text_in(line: &[u8]) -> &[u8]
    ensures { result.now ≡ text_in line.now }
{
    line.strip_suffix(b"\r").unwrap_or(line)
}

/// The item of a text, if it has one: after `0x` the one that the digits spell, else its bytes.
fn text_item(text: &[u8]) -> Option<Item>
    ensures { result ≡ text_item text.now }
{
    match text.strip_prefix(b"0x") {
        Some(digits) => item_of(digits),
        None => Item::new(text).ok(),
    }
}

/// The item of a line that is hashed, if it has one: after `0x` the one that the digits spell, else the digest of its
/// bytes.
fn hashed_item(text: &[u8]) -> Option<Item>
    ensures { result ≡ hashed_item text.now }
{
    match text.strip_prefix(b"0x") {
        Some(digits) => item_of(digits),
        None => {
            let digest = Sha256::digest(text);
            Item::new(&digest[..]).ok()
        }
    }
}

/// What is left of a line: its digits, or its text.
fn content_of(form: ItemForm, line: &[u8]) -> &[u8]
    ensures { result.now ≡ content_of form line.now }
{
    match form {
        ItemForm::Hex => digits_in(line),
        ItemForm::Text | ItemForm::Hash => text_in(line),
    }
}

/// The item that what is left of a line spells, if it spells one.
pub fn spelled(form: ItemForm, content: &[u8]) -> Option<Item>
    ensures { result ≡ spelled form content.now }
{
    match form {
        ItemForm::Hex => item_of(content),
        ItemForm::Text => text_item(content),
        ItemForm::Hash => hashed_item(content),
    }
}

/// Whether all bytes are hex digits.
fn are_digits(bytes: &[u8]) -> bool
    ensures { result ≡ list_all is_ascii_hexdigit bytes.now }
{
    bytes.iter().all(|byte| byte.is_ascii_hexdigit())
}

/// Whether these are hex digits of more than 64 bytes.
fn are_long_digits(digits: &[u8]) -> bool
    ensures { result ≡ are_long_digits digits.now }
{
    if digits.len() <= 128 {
        return false;
    }
    are_digits(digits)
}

/// Whether what is left of a line spells more than 64 bytes.
fn is_long(form: ItemForm, content: &[u8]) -> bool
    ensures { result ≡ is_long form content.now }
{
    match form {
        ItemForm::Hex => are_long_digits(content),
        ItemForm::Text => match content.strip_prefix(b"0x") {
            Some(digits) => are_long_digits(digits),
            None => content.len() > 64,
        },
        ItemForm::Hash => match content.strip_prefix(b"0x") {
            Some(digits) => are_long_digits(digits),
            None => false,
        },
    }
}

/// What is wrong with what is left of a line, which spells no item and is not too long.
fn other_flaw(form: ItemForm, content: &[u8]) -> LineFlaw
    ensures { result ≡ other_flaw form content.now }
{
    match form {
        ItemForm::Hex => {
            if are_digits(content) {
                LineFlaw::OddDigits
            } else {
                LineFlaw::NotHex
            }
        }
        ItemForm::Text | ItemForm::Hash => LineFlaw::NoItem,
    }
}

/// What is wrong with a line that spells no item.
fn line_flaw(form: ItemForm, line: &[u8]) -> LineFlaw
    ensures { result ≡ line_flaw form line.now }
{
    let content = content_of(form, line);
    if is_long(form, content) {
        LineFlaw::TooLong
    } else {
        other_flaw(form, content)
    }
}

/// The line of this number, which is bad for this flaw.
fn bad_line(flaw: LineFlaw, number: usize, line: &[u8]) -> BadLine
    ensures { result ≡ bad_line flaw number line.now }
{
    BadLine {
        number,
        front: Front::of_line(text_in(line)),
        flaw,
    }
}

/// Appends the item of a line, if anything is left of it.
fn push_line(
    form: ItemForm,
    items: &mut Vec<Item>,
    line: &[u8],
    number: usize,
) -> Result<(), SettingsFault>
    ensures item { OnOk result ((xs : List Bytes) × (line_items form line.now ≡ Some xs)
        × (items.new.items ≡ items.old.items ++ xs)) }
    ensures bad { IfErr result (λ e. e ≢ SettingsFault.Memory →
        (e ≡ SettingsFault.BadItemLine (bad_line (line_flaw form line.now) number line.now))
        × (line_items form line.now ≡ None)) }
{
    let content = content_of(form, line);
    if content.is_empty() {
        return Ok(());
    }
    let Some(item) = spelled(form, content) else {
        let flaw = line_flaw(form, line);
        return Err(SettingsFault::BadItemLine(bad_line(flaw, number, line)));
    };
    items.push(item)?;
    Ok(())
}

/// The first line of the text, and what follows its line feed, if it ends with one.
fn first_line(text: &[u8]) -> (&[u8], Option<&[u8]>)
    ensures lines { lines text.now ≡ result.0.now ∷ lines_in (option_map (λ rest. rest.now) result.1) }
    ensures shorter { IfSome result.1 (λ rest. length rest.now < length text.now) }
{
    match memchr(b'\n', text) {
        None => (text, None),
        Some(end) => (&text[..end], Some(&text[end + 1..])),
    }
}

/// The items of the lines in order.
fn items_of_lines(alloc: Global, form: ItemForm, text: &[u8]) -> Result<Vec<Item>, SettingsFault>
    ensures items { IfOk result (λ v. items_from form 1 (lines text.now) ≡ Ok v.items) }
    ensures refused { IfErr result (λ e. e ≢ SettingsFault.Memory → (bad : BadLine)
        × (e ≡ SettingsFault.BadItemLine bad) × (items_from form 1 (lines text.now) ≡ Err bad)) }
{
    let mut items = Vec::new(alloc);
    let mut rest = Some(text);
    let mut number = 0;
    while let Some(left) = rest {
        let (line, after) = first_line(left);
        number += 1;
        push_line(form, &mut items, line, number)?;
        rest = after;
    }
    Ok(items)
}

/// Whether a file's text begins with a byte order mark. Its line 1 is bad then.
pub fn has_byte_order_mark(text: &[u8]) -> bool
    ensures { result ≡ has_byte_order_mark text.now }
{
    text.starts_with(b"\xEF\xBB\xBF")
}

/// The items of a file's text in order.
pub(crate) fn items_of(
    alloc: Global,
    form: ItemForm,
    text: &[u8],
) -> Result<Vec<Item>, SettingsFault>
    ensures items { IfOk result (λ v. file_items form text.now ≡ Ok v.items) }
    ensures refused { IfErr result (λ e. e ≢ SettingsFault.Memory → (bad : BadLine)
        × (e ≡ SettingsFault.BadItemLine bad) × (file_items form text.now ≡ Err bad)) }
{
    if has_byte_order_mark(text) {
        let (line, _after) = first_line(text);
        let bad = bad_line(LineFlaw::ByteOrderMark, 1, line);
        return Err(SettingsFault::BadItemLine(bad));
    }
    items_of_lines(alloc, form, text)
}

/// The set of the items of a file's text, in rising order.
///
/// Refused 81 by its first bad line, and then 82 where it has more than `cap` different items.
pub fn item_set(
    alloc: Global,
    form: ItemForm,
    text: &[u8],
    cap: usize,
) -> Result<Vec<Item>, SettingsFault>
    ensures set { IsSetOf (λ v. v.items) form text.now cap result }
    ensures rises { IfOk result (λ v. IsSet v.items) }
{
    set_laws::set_of_a_list();
    let items = spans::distinct(items_of(alloc, form, text)?);
    if items.len() > cap {
        let count = items.len();
        return Err(SettingsFault::TooManyItems { cap, count });
    }
    Ok(items)
}

/// The set of the items in the file, in rising order.
///
/// Refused 80 where the file is not read, 81 by its first bad line, and then 82 where there are more than `cap`
/// different items.
pub fn read_items<R: Files + AllocGlobal>(
    rt: &R,
    form: ItemForm,
    path: &str,
    cap: usize,
) -> Result<Vec<Item>, SettingsFault>
    ensures set { IsFromFile (λ text. IsSetOf (λ v. v.items) form text cap) result }
    ensures rises { IfOk result (λ v. IsSet v.items) }
    ensures few { IfOk result (λ v. length v.items ≤ cap) }
{
    item_set(rt.alloc(), form, &read_file(rt, path)?, cap)
}

/// The set of the items that are left to read, in rising order. What is read is refused as a file is.
pub fn read_input_items<R: Read + Drop>(
    alloc: Global,
    form: ItemForm,
    reader: R,
    cap: usize,
) -> Result<Vec<Item>, SettingsFault>
    // The text is all that the reader has left.
    ensures set { IsFromFile (λ text r. IsAllOf (R.remaining reader) text × IsSetOf (λ v. v.items) form text cap r)
        result }
    ensures rises { IfOk result (λ v. IsSet v.items) }
    ensures few { IfOk result (λ v. length v.items ≤ cap) }
{
    item_set(alloc, form, &read_text(alloc, reader)?, cap)
}
