//! Writing bounds, numbers and items: each appends a text.

ghost use Rattle.std.specs.Prelude.{◌≡◌, ◌+◌, ◌<◌, ◌≤◌, ◌^◌, ◌++◌, Some, length, OnOk};
ghost use Rattle.definitions.specs.Compact as compact;
ghost use Rattle.compact_core.specs.Spellings.{rest_text};

use crate::items::common_length;
use item_core::{Item, Range};
use std::alloc::AllocError;
use wire_core::Marks;

/// How many bytes at the front are the same in both.
fn shared(left: &[u8], right: &[u8]) -> usize
    ensures shared { result ≡ compact.shared left.now right.now }
    ensures within { (result ≤ length left.now) × (result ≤ length right.now) }
{
    let most = left.len().min(right.len());
    'same: for index in 0..most {
        if left[index] != right[index] {
            return index;
        }
    }
    most
}

/// What the head says of an amount: seven, if that has a byte of its own.
fn in_head(amount: u8) -> u8
    ensures head { result ≡ compact.in_head amount }
    ensures small { result ≤ 7 }
{
    if amount < 7 { amount } else { 7 }
}

/// The first byte of a bound.
fn head_of(kind: u8, share: u8, more: u8) -> u8
    requires { kind < 4 }
    ensures { result ≡ compact.head_of kind share more }
{
    64 * kind + (8 * in_head(share) + in_head(more))
}

/// Appends the byte of an amount that the head does not say.
fn push_amount(out: &mut Vec<u8>, amount: u8) -> Result<(), AllocError>
    ensures { OnOk result (out.new.items ≡ out.old.items ++ compact.after_head amount) }
{
    if amount < 7 {
        return Ok(());
    }
    out.push(amount)?;
    Ok(())
}

/// Appends a bound after another one, and in its first byte the kind of what it belongs to.
pub fn push_bound(
    out: &mut Vec<u8>,
    kind: u8,
    before: &[u8],
    bound: &[u8],
) -> Result<(), AllocError>
    requires kind { kind < 4 }
    requires short { length bound.now ≤ 64 }
    ensures { OnOk result (out.new.items ≡ out.old.items
        ++ compact.bound_text kind before.now (Some bound.now)) }
{
    let (share, rest) = bound.split_at(shared(before, bound));
    let (share, more) = (share.len() as u8, rest.len() as u8);
    out.push(head_of(kind, share, more))?;
    push_amount(out, share)?;
    push_amount(out, more)?;
    out.extend_from_slice(rest)?;
    Ok(())
}

/// Appends the upper bound of a range after the lower one, and in its first byte the kind of the part.
pub fn push_upper(out: &mut Vec<u8>, kind: u8, range: &Range) -> Result<(), AllocError>
    requires { kind < 4 }
    ensures { OnOk result (out.new.items ≡ out.old.items
        ++ compact.bound_text kind range.now.lower range.now.upper) }
{
    match range.upper().bytes() {
        Some(bound) => push_bound(out, kind, range.lower().bytes(), bound),
        None => {
            out.push(64 * kind)?;
            Ok(())
        }
    }
}

/// Appends what leads from one bound to another, if they are two.
pub fn push_skip(out: &mut Vec<u8>, before: &[u8], bound: &[u8]) -> Result<(), AllocError>
    requires { length bound.now ≤ 64 }
    ensures { OnOk result (out.new.items ≡ out.old.items ++ compact.skip_text before.now bound.now) }
{
    if before == bound {
        return Ok(());
    }
    push_bound(out, 0, before, bound)
}

/// Appends a number, seven bits a byte.
fn push_number(out: &mut Vec<u8>, number: u32) -> Result<(), AllocError>
    requires { number < 2 ^ 28 }
    ensures { OnOk result (out.new.items ≡ out.old.items ++ compact.number_text number) }
{
    let low = (number % 128) as u8;
    if number < 128 {
        out.push(low)?;
        return Ok(());
    }
    if number < 16_384 {
        out.extend_from_slice(&[128 + (number / 128) as u8, low])?;
        return Ok(());
    }
    let second = 128 + (number / 128 % 128) as u8;
    if number < 2_097_152 {
        out.extend_from_slice(&[128 + (number / 16_384) as u8, second, low])?;
        return Ok(());
    }
    let third = 128 + (number / 16_384 % 128) as u8;
    out.extend_from_slice(&[128 + (number / 2_097_152) as u8, third, second, low])?;
    Ok(())
}

/// Appends the bytes of an item that are not shared; before them their number, where items have no common width.
fn push_rest(out: &mut Vec<u8>, width: u8, rest: &[u8]) -> Result<(), AllocError>
    requires { length rest.now ≤ 64 }
    ensures { OnOk result (out.new.items ≡ out.old.items ++ rest_text width rest.now) }
{
    if width == 0 {
        out.push(rest.len() as u8)?;
    }
    out.extend_from_slice(rest)?;
    Ok(())
}

/// Appends an item after what stands before it.
fn push_entry(out: &mut Vec<u8>, width: u8, before: &[u8], item: &[u8]) -> Result<(), AllocError>
    requires { length item.now ≤ 64 }
    ensures { OnOk result (out.new.items ≡ out.old.items ++ compact.entry_text width before.now item.now) }
{
    let (share, rest) = item.split_at(shared(before, item));
    out.push(share.len() as u8)?;
    push_rest(out, width, rest)
}

/// Appends items, the first one after the lower bound.
fn push_entries(
    out: &mut Vec<u8>,
    width: u8,
    lower: &[u8],
    items: &[Item],
) -> Result<(), AllocError>
    ensures { OnOk result (out.new.items ≡ out.old.items ++ compact.entries_text width lower.now items.now) }
{
    let mut before = lower;
    'each: for item in items {
        push_entry(out, width, before, item.bytes())?;
        before = item.bytes();
    }
    Ok(())
}

/// Appends the items of a part that begins at a bound.
pub fn push_items(out: &mut Vec<u8>, lower: &[u8], items: &[Item]) -> Result<(), AllocError>
    ensures { OnOk result (out.new.items ≡ out.old.items ++ compact.compact_items lower.now items.now) }
{
    if items.is_empty() {
        return Ok(());
    }
    let width = common_length(items);
    out.push(width)?;
    push_entries(out, width, lower, items)
}

/// Appends the marks of an Answer.
pub fn push_marks(out: &mut Vec<u8>, marks: &Marks) -> Result<(), AllocError>
    requires { length marks.now < 2 ^ 28 }
    ensures { OnOk result (out.new.items ≡ out.old.items ++ compact.compact_marks marks.now) }
{
    push_number(out, marks.len() as u32)?;
    out.extend_from_slice(marks.bytes())?;
    Ok(())
}

/// Appends the bytes of a field, and before them their number.
pub fn push_field(out: &mut Vec<u8>, field: &[u8]) -> Result<(), AllocError>
    requires { length field.now < 2 ^ 28 }
    ensures { OnOk result (out.new.items ≡ out.old.items ++ compact.field_text field.now) }
{
    push_number(out, field.len() as u32)?;
    out.extend_from_slice(field)?;
    Ok(())
}
