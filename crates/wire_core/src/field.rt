//! Reading the fields of a body. Each reader takes a field off the front of the bytes and gives its value, or the
//! fault.

ghost use Rattle.std.specs.Prelude.{◌≡◌, ◌≤◌, ◌*◌, [], length, vec_capacity, None, IfOk};
ghost use Rattle.std.specs.Option.{option_copied};
ghost use Rattle.definitions.specs.Reading as reading;
ghost use Rattle.definitions.specs.Faults as faults;
ghost use Rattle.item_core.specs.Bounds.{upper_value};
ghost use Rattle.wire_core.specs.Refused.{GivesField, Gives};
ghost use Rattle.wire_core.specs.Readers.{byte_at};

use crate::fault::{DecodeError, WireFault};
use item_core::{Item, Lower, Range, Upper};
use std::alloc::{AllocError, Global};

/// So many bytes.
pub fn take_bytes<'a>(bytes: &mut &'a [u8], count: usize) -> Result<&'a [u8], WireFault>
    ensures read { GivesField (λ x. (x.now, bytes.new.now)) result (reading.bytes_at count bytes.old.now) }
    ensures length { IfOk result (λ x. length x.now ≡ count) }
{
    if bytes.len() < count {
        return Err(WireFault::FrameLength);
    }
    let (front, rest) = bytes.split_at(count);
    *bytes = rest;
    Ok(front)
}

/// One byte: a kind, or a length.
pub fn take_byte(bytes: &mut &[u8]) -> Result<u8, WireFault>
    ensures { GivesField (λ x. (x, bytes.new.now)) result (byte_at bytes.old.now) }
{
    let Some((&byte, rest)) = bytes.split_first() else {
        return Err(WireFault::FrameLength);
    };
    *bytes = rest;
    Ok(byte)
}

/// A number of four bytes, the greatest first.
pub fn take_number(bytes: &mut &[u8]) -> Result<u32, WireFault>
    ensures { GivesField (λ x. (x, bytes.new.now)) result (reading.number_at bytes.old.now) }
{
    let four = take_bytes(bytes, 4)?;
    Ok(u32::from_be_bytes([four[0], four[1], four[2], four[3]]))
}

/// The bytes of a lower bound: its length, 0 to 64, and so many bytes.
pub fn take_lower<'a>(bytes: &mut &'a [u8]) -> Result<&'a [u8], WireFault>
    ensures read { GivesField (λ x. (x.now, bytes.new.now)) result (reading.lower_at bytes.old.now) }
    ensures length { IfOk result (λ x. length x.now ≤ 64) }
{
    let length = take_byte(bytes)?;
    if length > 64 {
        return Err(WireFault::BadBound);
    }
    take_bytes(bytes, length as usize)
}

/// Whether an item may have so many bytes: 1 to 64.
fn is_item_length(length: u8) -> bool
    ensures { result ≡ reading.is_item_length length }
{
    length > 0 && length <= 64
}

/// An upper bound: its length, 1 to 64, and its bytes, or 255 for the end.
pub fn take_upper(bytes: &mut &[u8]) -> Result<Upper, WireFault>
    ensures { GivesField (λ x. (upper_value x, bytes.new.now)) result (reading.upper_at bytes.old.now) }
{
    let length = take_byte(bytes)?;
    if length == 255 {
        return Ok(Upper::End);
    }
    if !is_item_length(length) {
        return Err(WireFault::BadBound);
    }
    let text = take_bytes(bytes, length as usize)?;
    Ok(Upper::Before(Item::of(text)))
}

/// A lower and an upper bound, the lower one below the upper one.
pub fn take_range(bytes: &mut &[u8]) -> Result<Range, WireFault>
    ensures { GivesField (λ x. (x, bytes.new.now)) result (reading.range_at bytes.old.now) }
{
    let lower = take_lower(bytes)?;
    let upper = take_upper(bytes)?;
    let Ok(range) = Range::new(Lower::of(lower), upper) else {
        return Err(WireFault::EmptyRange);
    };
    Ok(range)
}

/// The bytes of an item: its length, 1 to 64, and so many bytes.
pub fn take_text<'a>(bytes: &mut &'a [u8]) -> Result<&'a [u8], WireFault>
    ensures read { GivesField (λ x. (x.now, bytes.new.now)) result (reading.text_at bytes.old.now) }
    ensures length { IfOk result (λ x. (1 ≤ length x.now) × (length x.now ≤ 64)) }
{
    let length = take_byte(bytes)?;
    if !is_item_length(length) {
        return Err(WireFault::ItemLength);
    }
    take_bytes(bytes, length as usize)
}

/// Whether the bytes are greater than those of the item before them, if there is one.
pub fn rises_from(before: Option<&[u8]>, bytes: &[u8]) -> bool
    ensures { result ≡ faults.rises_from (option_copied before.entry) bytes.now }
{
    match before {
        None => true,
        Some(before) => before.cmp(bytes).is_lt(),
    }
}

/// The bytes of an item of the range that is greater than the one before it, if there is one.
///
/// They are compared where they lie. To read an item that has just been built makes a processor wait for its copies.
pub fn take_item<'a>(
    bytes: &mut &'a [u8],
    range: &Range,
    before: Option<&[u8]>,
) -> Result<&'a [u8], WireFault>
    ensures read { GivesField (λ x. (x.now, bytes.new.now)) result
        (reading.item_at range.now (option_copied before.entry) bytes.old.now) }
    ensures length { IfOk result (λ x. (1 ≤ length x.now) × (length x.now ≤ 64)) }
{
    let text = take_text(bytes)?;
    if !rises_from(before, text) {
        return Err(WireFault::ItemOrder);
    }
    if !range.contains_bytes(text) {
        return Err(WireFault::ItemOutside);
    }
    Ok(text)
}

/// Room for so many items, but for no more than the bytes can hold: an item takes two bytes at least. So a count alone
/// makes nobody take memory.
fn room_for(alloc: Global, bytes: &[u8], count: u32) -> Result<Vec<Item>, AllocError>
    ensures none { IfOk result (λ items. items.items ≡ []) }
    ensures few { IfOk result (λ items. 2 * vec_capacity items ≤ length bytes.now) }
{
    Vec::with_capacity(alloc, bytes.len().min(2 * count as usize) / 2)
}

/// So many items, which rise and lie in the range.
pub fn take_items(
    alloc: Global,
    bytes: &mut &[u8],
    range: &Range,
    count: u32,
) -> Result<Vec<Item>, DecodeError>
    ensures { Gives (λ x. (x.items, bytes.new.now)) result (reading.items_at range.now count None bytes.old.now) }
{
    let mut items = room_for(alloc, bytes, count)?;
    let mut before: Option<&[u8]> = None;
    'each: for _ in 0..count {
        let text = take_item(bytes, range, before)?;
        items.push(Item::of(text))?;
        before = Some(text);
    }
    Ok(items)
}
