//! Reading bounds: each is written against the one before it.

ghost use Rattle.std.specs.Prelude.{◌≡◌, ◌+◌, ◌*◌, ◌<◌, ◌≤◌, ◌%◌, ◌++◌, true, take, drop, length, IfOk, Some};
ghost use Rattle.definitions.specs.Items.{comes_before, is_below};
ghost use Rattle.definitions.specs.CompactReading as reading;
ghost use Rattle.item_core.specs.Bounds.{upper_value};
ghost use Rattle.compact_core.specs.Readings.{GivesField};

use crate::bytes::{take_byte, take_bytes};
use crate::stop::Stop;
use item_core::{Item, Upper};
use wire_core::WireFault;

/// Whether bytes that differ in the first one are after those that are left.
pub fn goes_above(left: &[u8], rest: &[u8]) -> bool
    ensures { result ≡ reading.goes_above left.now rest.now }
{
    match left {
        [] => true,
        [byte, ..] => rest.first().is_some_and(|first| byte < first),
    }
}

/// The item of these bytes, one after the other.
pub fn joined(front: &[u8], rest: &[u8]) -> Item
    requires { (1 ≤ length front.now + length rest.now) × (length front.now + length rest.now ≤ 64) }
    ensures { result ≡ front.now ++ rest.now }
{
    let mut room = [0u8; 64];
    let count = front.len();
    let end = count + rest.len();
    room[..count].copy_from_slice(front);
    room[count..end].copy_from_slice(rest);
    Item::of(&room[..end])
}

/// An amount that the head says, or that has a byte of its own where the head says seven.
fn take_amount(bytes: &mut &[u8], said: u8) -> Result<u8, Stop>
    ensures read { GivesField (λ x. (x, bytes.new.now)) result (reading.amount_at said bytes.old.now) }
    ensures some { 0 < said → IfOk result (λ x. 0 < x) }
    ensures shorter { length bytes.new.now ≤ length bytes.old.now }
{
    if said < 7 {
        return Ok(said);
    }
    let amount = take_byte(bytes)?;
    if amount < 7 {
        return Err(Stop::Fault(WireFault::BadBound));
    }
    Ok(amount)
}

/// How many bytes a bound shares with the one before it.
fn take_share(bytes: &mut &[u8], before: &[u8], head: u8) -> Result<u8, Stop>
    ensures read { GivesField (λ x. (x, bytes.new.now)) result (reading.share_at before.now head bytes.old.now) }
    ensures within { IfOk result (λ x. x ≤ length before.now) }
    ensures shorter { length bytes.new.now ≤ length bytes.old.now }
{
    let share = take_amount(bytes, head / 8 % 8)?;
    if share > 63 || share as usize > before.len() {
        return Err(Stop::Fault(WireFault::BadBound));
    }
    Ok(share)
}

/// How many bytes follow those that are shared.
fn take_rest_length(bytes: &mut &[u8], share: u8, head: u8) -> Result<u8, Stop>
    ensures read { GivesField (λ x. (x, bytes.new.now)) result (reading.rest_length_at share head bytes.old.now) }
    ensures some { 0 < head % 8 → IfOk result (λ x. 0 < x) }
    ensures few { IfOk result (λ x. share + x ≤ 64) }
    ensures shorter { length bytes.new.now ≤ length bytes.old.now }
{
    let length = take_amount(bytes, head % 8)?;
    if share as usize + length as usize > 64 {
        return Err(Stop::Fault(WireFault::BadBound));
    }
    Ok(length)
}

/// A bound that is an item after the one before it: what follows its head.
pub fn take_bound(bytes: &mut &[u8], before: &[u8], head: u8) -> Result<Item, Stop>
    requires { 0 < head % 8 }
    ensures read { GivesField (λ x. (x, bytes.new.now)) result (reading.bound_at before.now head bytes.old.now) }
    ensures after { IfOk result (λ x. comes_before before.now x ≡ true) }
    ensures shorter { length bytes.new.now ≤ length bytes.old.now }
{
    let share = take_share(bytes, before, head)?;
    let length = take_rest_length(bytes, share, head)?;
    let rest = take_bytes(bytes, length as usize)?;
    let (front, left) = before.split_at(share as usize);
    if !goes_above(left, rest) {
        return Err(Stop::Fault(WireFault::EmptyRange));
    }
    Ok(joined(front, rest))
}

/// An upper bound: an item after the lower one, or the end.
pub fn take_upper(bytes: &mut &[u8], lower: &[u8], head: u8) -> Result<Upper, Stop>
    ensures read { GivesField (λ x. (upper_value x, bytes.new.now)) result
        (reading.upper_from lower.now head bytes.old.now) }
    ensures after { IfOk result (λ x. is_below lower.now (upper_value x) ≡ true) }
    ensures shorter { length bytes.new.now ≤ length bytes.old.now }
{
    if head % 8 != 0 {
        return Ok(Upper::Before(take_bound(bytes, lower, head)?));
    }
    if head / 8 % 8 != 0 {
        return Err(Stop::Fault(WireFault::BadBound));
    }
    Ok(Upper::End)
}
