//! Reading items: each is written against the one before it, and the first one against the lower bound.

ghost use Rattle.std.specs.Prelude.{◌≡◌, ◌+◌, ◌<◌, ◌≤◌, true, nat_eq, length, length as len, IfOk, OnOk};
ghost use Rattle.std.specs.List.{list_all};
ghost use Rattle.definitions.specs.Compact as compact;
ghost use Rattle.definitions.specs.CompactReading as reading;
ghost use Rattle.item_core.specs.Bounds.{upper_value};
ghost use Rattle.compact_core.specs.Readings.{GivesField, Gives, may_follow};

use crate::bound::{goes_above, joined};
use crate::bytes::{take_byte, take_bytes};
use crate::stop::{ReadError, Stop};
use item_core::{Item, Lower, Range, Upper};
use std::alloc::Global;
use wire_core::WireFault;

/// How many bytes an item shares with what stands before it.
fn take_entry_share(bytes: &mut &[u8], before: &[u8]) -> Result<u8, Stop>
    ensures read { GivesField (λ x. (x, bytes.new.now)) result (reading.entry_share_from before.now bytes.old.now) }
    ensures within { IfOk result (λ x. x ≤ length before.now) }
    ensures shorter { OnOk result (length bytes.new.now < length bytes.old.now) }
{
    let share = take_byte(bytes)?;
    if share as usize > before.len() {
        return Err(Stop::Fault(WireFault::ItemLength));
    }
    Ok(share)
}

/// How many bytes follow those that an item shares, where it says so itself.
fn take_own_length(bytes: &mut &[u8], share: u8) -> Result<u8, Stop>
    ensures read { GivesField (λ x. (x, bytes.new.now)) result (reading.own_length_from share bytes.old.now) }
    ensures some { IfOk result (λ x. 1 ≤ share + x) }
    ensures few { IfOk result (λ x. share + x ≤ 64) }
    ensures shorter { length bytes.new.now ≤ length bytes.old.now }
{
    let length = take_byte(bytes)?;
    let all = share as usize + length as usize;
    if all == 0 || all > 64 {
        return Err(Stop::Fault(WireFault::ItemLength));
    }
    Ok(length)
}

/// How many bytes follow those that an item shares: all items have this width, or 0 says that each has its own length.
fn take_entry_length(bytes: &mut &[u8], width: u8, share: u8) -> Result<u8, Stop>
    requires { width ≤ 64 }
    ensures read { GivesField (λ x. (x, bytes.new.now)) result
        (reading.entry_length_from width share bytes.old.now) }
    ensures some { IfOk result (λ x. 1 ≤ share + x) }
    ensures few { IfOk result (λ x. share + x ≤ 64) }
    ensures shorter { length bytes.new.now ≤ length bytes.old.now }
{
    if width == 0 {
        return take_own_length(bytes, share);
    }
    if share > width {
        return Err(Stop::Fault(WireFault::ItemLength));
    }
    Ok(width - share)
}

/// Whether bytes may stand where these are left of what stands before: the first item may be the lower bound itself.
fn is_next(first: bool, left: &[u8], rest: &[u8]) -> bool
    ensures { result ≡ may_follow first left.now rest.now }
{
    (first || !rest.is_empty()) && goes_above(left, rest)
}

/// An item after what stands before it.
fn take_entry(bytes: &mut &[u8], width: u8, first: bool, before: &[u8]) -> Result<Item, Stop>
    requires { width ≤ 64 }
    ensures read { GivesField (λ x. (x, bytes.new.now)) result
        (reading.entry_from width first before.now bytes.old.now) }
    ensures shorter { OnOk result (length bytes.new.now < length bytes.old.now) }
{
    let share = take_entry_share(bytes, before)?;
    let length = take_entry_length(bytes, width, share)?;
    let rest = take_bytes(bytes, length as usize)?;
    let (front, left) = before.split_at(share as usize);
    if !is_next(first, left, rest) {
        return Err(Stop::Fault(WireFault::ItemOrder));
    }
    Ok(joined(front, rest))
}

/// An item of the range, for which the body of a frame has room.
fn take_item(
    bytes: &mut &[u8],
    width: u8,
    upper: &Upper,
    room: usize,
    first: bool,
    before: &[u8],
) -> Result<Item, Stop>
    requires { width ≤ 64 }
    ensures read { GivesField (λ x. (x, bytes.new.now)) result
        (reading.item_from width (upper_value upper.now) room first before.now bytes.old.now) }
    ensures room { IfOk result (λ x. 1 + length x ≤ room) }
    ensures shorter { OnOk result (length bytes.new.now < length bytes.old.now) }
{
    let item = take_entry(bytes, width, first, before)?;
    if !upper.is_above(&item) {
        return Err(Stop::Fault(WireFault::ItemOutside));
    }
    if room < 1 + item.bytes().len() {
        return Err(Stop::Fault(WireFault::FrameLength));
    }
    Ok(item)
}

/// One item or more, and nothing else.
fn take_entries(
    alloc: Global,
    bytes: &mut &[u8],
    width: u8,
    range: &Range,
    room: usize,
) -> Result<Vec<Item>, ReadError>
    requires { width ≤ 64 }
    ensures { Gives (λ x. (x.items, bytes.new.now)) result (reading.entries_from (length bytes.old.now) width
        range.now.upper room true range.now.lower bytes.old.now) }
{
    if bytes.is_empty() {
        return Err(ReadError::Stop(Stop::Unfinished));
    }
    let mut items = Vec::new(alloc);
    let mut left = room;
    let mut before = *range.lower();
    let mut first = true;
    'each: while !bytes.is_empty() {
        let item = take_item(bytes, width, range.upper(), left, first, before.bytes())?;
        items.push(item)?;
        left -= 1 + item.bytes().len();
        before = Lower::from(item);
        first = false;
    }
    Ok(items)
}

/// Whether each item has this length.
fn have_length(items: &[Item], length: usize) -> bool
    ensures { result ≡ list_all (λ x. nat_eq (len x) length) items.now }
{
    items.iter().all(|item| item.bytes().len() == length)
}

/// The length of all items, or 0 where they have two lengths or more.
pub fn common_length(items: &[Item]) -> u8
    ensures length { result ≡ compact.common_length items.now }
    ensures short { result ≤ 64 }
{
    let Some((first, rest)) = items.split_first() else {
        return 0;
    };
    let length = first.bytes().len();
    if !have_length(rest, length) {
        return 0;
    }
    length as u8
}

/// One item or more, after their width.
fn take_wide_items(
    alloc: Global,
    bytes: &mut &[u8],
    width: u8,
    range: &Range,
    room: usize,
) -> Result<Vec<Item>, ReadError>
    requires { width ≤ 64 }
    ensures { Gives (λ x. (x.items, bytes.new.now)) result
        (reading.wide_items_from width range.now room bytes.old.now) }
{
    let items = take_entries(alloc, bytes, width, range, room)?;
    if common_length(&items) != width {
        return Err(ReadError::Stop(Stop::Fault(WireFault::ItemLength)));
    }
    Ok(items)
}

/// All items, for which the body of a frame has so much room.
pub fn take_items(
    alloc: Global,
    bytes: &mut &[u8],
    range: &Range,
    room: usize,
) -> Result<Vec<Item>, ReadError>
    ensures { Gives (λ x. (x.items, bytes.new.now)) result (reading.items_from range.now room bytes.old.now) }
{
    if bytes.is_empty() {
        return Ok(Vec::new(alloc));
    }
    let width = take_byte(bytes)?;
    if width > 64 {
        return Err(ReadError::Stop(Stop::Fault(WireFault::ItemLength)));
    }
    take_wide_items(alloc, bytes, width, range, room)
}
