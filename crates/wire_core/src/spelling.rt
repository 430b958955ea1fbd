//! Writing parts and messages: each in its one spelling.

ghost use Rattle.std.specs.Prelude.{◌≡◌, ◌++◌, ◌≤◌, ◌<◌, ◌^◌, length, IfOk, OnOk};
ghost use Rattle.definitions.specs.Wire as wire;
ghost use Rattle.definitions.specs.Wire.{part_text, message_text, fault_text, IsPart, IsMessage, Spells};
ghost use Rattle.item_core.specs.Bounds.{upper_value};
ghost use Rattle.wire_core.specs.Bodies.{part_of, items_in, fields_text};

use crate::body::Body;
use crate::marks::Marks;
use crate::message::Message;
use crate::part::Part;
use digest_core::WireSummary;
use item_core::{Item, Range, Upper};
use std::alloc::{AllocError, Global};

/// The frame of a message's end.
const END: [u8; 5] = [0, 0, 0, 1, 4];

// The hints below: with two profiles in a program, a range would else be written by a call, and Sums take a twentieth
// longer.

/// Appends a length byte and the bytes: an item, or a lower bound.
#[inline(always)]
fn push_short(out: &mut Vec<u8>, bytes: &[u8]) -> Result<(), AllocError>
    requires { length bytes.now ≤ 64 }
    ensures { OnOk result (out.new.items ≡ out.old.items ++ wire.short_text bytes.now) }
{
    out.push(bytes.len() as u8)?;
    out.extend_from_slice(bytes)?;
    Ok(())
}

/// Appends an upper bound.
#[inline(always)]
fn push_upper(out: &mut Vec<u8>, upper: &Upper) -> Result<(), AllocError>
    ensures { OnOk result (out.new.items ≡ out.old.items ++ wire.upper_text (upper_value upper.now)) }
{
    match upper.bytes() {
        Some(bytes) => push_short(out, bytes),
        None => {
            out.push(255)?;
            Ok(())
        }
    }
}

/// Appends both bounds of a range.
#[inline(always)]
fn push_range(out: &mut Vec<u8>, range: &Range) -> Result<(), AllocError>
    ensures { OnOk result (out.new.items ≡ out.old.items ++ wire.range_text range.now) }
{
    push_short(out, range.lower().bytes())?;
    push_upper(out, range.upper())
}

/// Appends a number of four bytes, the greatest first.
#[inline(always)]
fn push_number(out: &mut Vec<u8>, number: u32) -> Result<(), AllocError>
    ensures { OnOk result (out.new.items ≡ out.old.items ++ wire.count_text number) }
{
    out.extend_from_slice(&number.to_be_bytes())?;
    Ok(())
}

/// Appends the number of items, and the items.
fn push_items(out: &mut Vec<u8>, items: &[Item]) -> Result<(), AllocError>
    requires { length items.now < 2 ^ 32 }
    ensures { OnOk result (out.new.items ≡ out.old.items ++ wire.items_text items.now) }
{
    push_number(out, items.len() as u32)?;
    for item in items {
        push_short(out, item.bytes())?;
    }
    Ok(())
}

/// Appends the number of marks, and the marks.
fn push_marks(out: &mut Vec<u8>, marks: &Marks) -> Result<(), AllocError>
    ensures { OnOk result (out.new.items ≡ out.old.items ++ wire.marks_text marks.now) }
{
    push_number(out, marks.len() as u32)?;
    out.extend_from_slice(marks.bytes())?;
    Ok(())
}

/// Appends the fields of a body after its range.
fn push_fields<F: WireSummary>(out: &mut Vec<u8>, body: &Body<F>) -> Result<(), AllocError>
    requires { length (items_in body.now) < 2 ^ 32 }
    ensures { OnOk result (out.new.items ≡ out.old.items ++ fields_text F.profile body.now) }
{
    match body {
        Body::Sum(sum) => sum.push(out),
        Body::List(items) => push_items(out, items),
        Body::Answer(marks, items) => {
            push_marks(out, marks)?;
            push_items(out, items)
        }
    }
}

/// Appends the frame of a part.
#[tactic(auto, using(crate::proofs::Lengths::lengths))]
pub fn push_frame<F: WireSummary>(
    out: &mut Vec<u8>,
    range: &Range,
    body: &Body<F>,
) -> Result<(), AllocError>
    requires { IsPart F.profile (part_of range.now body.now) }
    ensures { OnOk result (out.new.items ≡ out.old.items ++ part_text F.profile
        (part_of range.now body.now)) }
{
    let length = body.length(range);
    out.reserve(4 + length)?;
    push_number(out, length as u32)?;
    out.push(body.kind())?;
    push_range(out, range)?;
    push_fields(out, body)
}

/// The one spelling of a part: a frame.
pub fn encode_part<F: WireSummary>(alloc: Global, part: &Part<F>) -> Result<Vec<u8>, AllocError>
    ensures { IfOk result (λ text. text.items ≡ part_text F.profile part.now) }
{
    let mut frame = Vec::new(alloc);
    part.push(&mut frame)?;
    Ok(frame)
}

/// Appends the one spelling of a message: its parts' frames in order, and the frame of its end.
pub fn push_message<F: WireSummary>(
    out: &mut Vec<u8>,
    message: &Message<F>,
) -> Result<(), AllocError>
    ensures text { OnOk result (out.new.items ≡ out.old.items ++ message_text F.profile message.now) }
    ensures message { IsMessage F.profile message.now }
{
    for part in message.parts() {
        part.push(out)?;
    }
    out.extend_from_slice(&END)?;
    Ok(())
}

/// The one spelling of a message.
pub fn encode_message<F: WireSummary>(
    alloc: Global,
    message: &Message<F>,
) -> Result<Vec<u8>, AllocError>
    ensures { IfOk result (λ text. Spells F.profile message.now text.items) }
{
    let mut out = Vec::new(alloc);
    push_message(&mut out, message)?;
    Ok(out)
}

/// The four bytes with which each side's stream begins.
pub fn encode_hello<F: WireSummary>() -> [u8; 4]
    ensures { result ≡ F.profile.hello }
{
    F::hello()
}

/// The frame by which a side refuses, with this number.
pub fn encode_fault(code: u8) -> [u8; 6]
    ensures { result ≡ fault_text code }
{
    [0, 0, 0, 2, 5, code]
}
