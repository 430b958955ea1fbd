//! Reading parts: a range, and the fields that follow it.

ghost use Rattle.std.specs.Prelude.{◌≡◌, ◌+◌, ◌≤◌, length};
ghost use Rattle.definitions.specs.Messages.{Listing, Answer};
ghost use Rattle.definitions.specs.Wire as wire;
ghost use Rattle.definitions.specs.Wire.{IsPart};
ghost use Rattle.definitions.specs.CompactReading as reading;
ghost use Rattle.item_core.specs.Bounds.{upper_value};
ghost use Rattle.compact_core.specs.Readings.{GivesField, Gives, in_field, field_bytes_from, range_from, with_room};

use crate::bound::{take_bound, take_upper};
use crate::bytes::{take_byte, take_bytes, take_number};
use crate::items::take_items;
use crate::stop::{ReadError, Stop};
use digest_core::WireSummary;
use item_core::{Item, Lower, Range};
use std::alloc::Global;
use wire_core::{Marks, Part, WireFault, has_padding};

/// The greatest length of a frame's body in bytes.
const MAX_BODY: usize = 8_388_608;

/// The greatest length of a field: less than 256 bytes more than that of the body.
const MAX_FIELD: u32 = 8_388_864;

/// The length in bytes of a frame's body with this range, a kind and nothing else.
fn body_length(range: &Range) -> usize
    ensures length { result ≡ 1 + length (wire.range_text range.now) }
    ensures small { result ≤ 131 }
{
    let lower = range.lower();
    let upper = range.upper();
    1 + 1 + lower.bytes().len() + 1 + upper.bytes().map_or(0, |bytes| bytes.len())
}

/// The items of a part whose body has this size without them.
fn take_part_items(
    alloc: Global,
    bytes: &mut &[u8],
    range: &Range,
    size: usize,
) -> Result<Vec<Item>, ReadError>
    ensures { Gives (λ x. (x.items, bytes.new.now)) result (with_room range.now size bytes.old.now) }
{
    if size > MAX_BODY {
        return Err(ReadError::Stop(Stop::Fault(WireFault::FrameLength)));
    }
    take_items(alloc, bytes, range, MAX_BODY - size)
}

/// The items of a List.
fn take_listing<F: WireSummary>(
    alloc: Global,
    bytes: &mut &[u8],
    range: &Range,
) -> Result<Vec<Item>, ReadError>
    ensures { Gives (λ x. (Listing range.now x.items, bytes.new.now)) result
        (reading.listing_in F.profile range.now bytes.old.now) }
{
    take_part_items(alloc, bytes, range, body_length(range) + 4)
}

/// The marks of an Answer.
fn take_marks(alloc: Global, bytes: &mut &[u8]) -> Result<Marks, ReadError>
    ensures { Gives (λ x. (x, bytes.new.now)) result (reading.marks_from bytes.old.now) }
{
    let count = take_number(bytes)?;
    let held = take_bytes(bytes, count.div_ceil(8) as usize)?;
    if has_padding(held, count) {
        return Err(ReadError::Stop(Stop::Fault(WireFault::MarkPadding)));
    }
    Ok(Marks::of_packed(alloc, held, count)?)
}

/// The marks and the items of an Answer.
fn take_answer<F: WireSummary>(
    alloc: Global,
    bytes: &mut &[u8],
    range: &Range,
) -> Result<(Marks, Vec<Item>), ReadError>
    ensures { Gives (λ x. (Answer range.now x.0 x.1.items, bytes.new.now)) result
        (reading.answer_in F.profile range.now bytes.old.now) }
{
    let marks = take_marks(alloc, bytes)?;
    let size = body_length(range) + 4 + marks.bytes().len() + 4;
    let items = take_part_items(alloc, bytes, range, size)?;
    Ok((marks, items))
}

/// The bytes of a field: their number, and as many bytes.
fn take_field<'a>(bytes: &mut &'a [u8]) -> Result<&'a [u8], Stop>
    ensures read { GivesField (λ x. (x.now, bytes.new.now)) result (field_bytes_from bytes.old.now) }
    ensures shorter { length bytes.new.now ≤ length bytes.old.now }
{
    let count = take_number(bytes)?;
    if count > MAX_FIELD {
        return Err(Stop::Fault(WireFault::FrameLength));
    }
    take_bytes(bytes, count as usize)
}

/// A Sum of the range.
fn take_sum_part<F: WireSummary>(bytes: &mut &[u8], range: Range) -> Result<Part<F>, Stop>
    ensures read { GivesField (λ p. (p, bytes.new.now)) result (reading.sum_from F.profile range bytes.old.now) }
    ensures shorter { length bytes.new.now ≤ length bytes.old.now }
{
    Ok(Part::sum(range, F::read(take_bytes(bytes, F::size())?)))
}

/// A List of the range.
fn take_list_part<F: WireSummary>(
    alloc: Global,
    bytes: &mut &[u8],
    range: Range,
) -> Result<Part<F>, ReadError>
    ensures read { Gives (λ p. (p, bytes.new.now)) result
        (reading.field_from (reading.listing_in F.profile range) bytes.old.now) }
    ensures shorter { length bytes.new.now ≤ length bytes.old.now }
{
    laws::codec::are_bytes(bytes);
    let _ = range.lower(); // proof only: the range is one
    let mut field = take_field(bytes)?;
    match take_listing::<F>(alloc, &mut field, &range) {
        Ok(items) => Ok(Part::listing(range, items)),
        Err(error) => Err(error.in_field()),
    }
}

/// An Answer of the range.
fn take_answer_part<F: WireSummary>(
    alloc: Global,
    bytes: &mut &[u8],
    range: Range,
) -> Result<Part<F>, ReadError>
    ensures read { Gives (λ p. (p, bytes.new.now)) result
        (reading.field_from (reading.answer_in F.profile range) bytes.old.now) }
    ensures shorter { length bytes.new.now ≤ length bytes.old.now }
{
    laws::codec::are_bytes(bytes);
    let _ = range.lower(); // proof only: the range is one
    let mut field = take_field(bytes)?;
    match take_answer::<F>(alloc, &mut field, &range) {
        Ok((marks, items)) => Ok(answered(range, marks, items)),
        Err(error) => Err(error.in_field()),
    }
}

/// The Answer of marks and items that are known to be one.
fn answered<F: WireSummary>(range: Range, marks: Marks, items: Vec<Item>) -> Part<F>
    requires { IsPart F.profile (Answer range marks items.items) }
    ensures { result ≡ Answer range marks items.items }
{
    match Part::answer(range, marks, items) {
        Ok(part) => part,
        Err(_) => unreachable!(),
    }
}

/// The fields of a part of this kind: 1 to 3.
fn take_fields<F: WireSummary>(
    alloc: Global,
    bytes: &mut &[u8],
    kind: u8,
    range: Range,
) -> Result<Part<F>, ReadError>
    ensures read { Gives (λ p. (p, bytes.new.now)) result (reading.fields_from F.profile kind range bytes.old.now) }
    ensures shorter { length bytes.new.now ≤ length bytes.old.now }
{
    match kind {
        1 => Ok(take_sum_part(bytes, range)?),
        2 => take_list_part(alloc, bytes, range),
        _ => take_answer_part(alloc, bytes, range),
    }
}

/// The range of a part that begins there, whose head is read.
fn take_range(bytes: &mut &[u8], lower: Lower, head: u8) -> Result<Range, Stop>
    ensures read { GivesField (λ x. (x, bytes.new.now)) result (range_from lower head bytes.old.now) }
    ensures shorter { length bytes.new.now ≤ length bytes.old.now }
{
    let upper = take_upper(bytes, lower.bytes(), head)?;
    match Range::new(lower, upper) {
        Ok(range) => Ok(range),
        Err(_) => unreachable!(),
    }
}

/// A part that begins there, whose head is read.
fn take_body<F: WireSummary>(
    alloc: Global,
    bytes: &mut &[u8],
    lower: Lower,
    head: u8,
) -> Result<Part<F>, ReadError>
    ensures read { Gives (λ p. (p, bytes.new.now)) result (reading.body_from F.profile lower head bytes.old.now) }
    ensures shorter { length bytes.new.now ≤ length bytes.old.now }
{
    let range = take_range(bytes, lower, head)?;
    take_fields(alloc, bytes, head / 64, range)
}

/// A part that begins there, after a skip.
fn take_skipped<F: WireSummary>(
    alloc: Global,
    bytes: &mut &[u8],
    lower: Lower,
) -> Result<Part<F>, ReadError>
    ensures read { Gives (λ p. (p, bytes.new.now)) result (reading.skipped_from F.profile lower bytes.old.now) }
    ensures shorter { length bytes.new.now ≤ length bytes.old.now }
{
    let head = take_byte(bytes)?;
    if head < 64 {
        return Err(ReadError::Stop(Stop::Fault(WireFault::BadKind)));
    }
    take_body(alloc, bytes, lower, head)
}

/// A part after what was come to, whose first byte is read: that is neither 0 nor 8.
pub fn take_part<F: WireSummary>(
    alloc: Global,
    bytes: &mut &[u8],
    come_to: Lower,
    head: u8,
) -> Result<Part<F>, ReadError>
    ensures read { Gives (λ p. (p, bytes.new.now)) result
        (reading.part_from F.profile come_to head bytes.old.now) }
    ensures shorter { length bytes.new.now ≤ length bytes.old.now }
{
    if head > 63 {
        return take_body(alloc, bytes, come_to, head);
    }
    if head % 8 == 0 {
        return Err(ReadError::Stop(Stop::Fault(WireFault::BadKind)));
    }
    let lower = take_bound(bytes, come_to.bytes(), head)?;
    take_skipped(alloc, bytes, Lower::from(lower))
}
