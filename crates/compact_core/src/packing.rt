//! Writing units: a part after the bound that the message has come to, the end of a message, a fault.

ghost use Rattle.std.specs.Prelude.{◌≡◌, ◌++◌, OnOk, IfOk};
ghost use Rattle.definitions.specs.Messages.{Listing, Answer};
ghost use Rattle.definitions.specs.Wire.{IsPart};
ghost use Rattle.definitions.specs.Compact as compact;
ghost use Rattle.wire_core.specs.Events.{event_value};

use crate::spelling::{push_field, push_items, push_marks, push_skip, push_upper};
use digest_core::WireSummary;
use item_core::{Item, Lower, Range};
use std::alloc::{AllocError, Global};
use wire_core::{Event, Marks, Part};

/// Appends the text of a List after its lower bound.
fn push_list<F: WireSummary>(
    alloc: Global,
    out: &mut Vec<u8>,
    range: &Range,
    items: &[Item],
) -> Result<(), AllocError>
    requires { IsPart F.profile (Listing range.now items.now) }
    ensures { OnOk result (out.new.items ≡ out.old.items
        ++ compact.compact_body F.profile (Listing range.now items.now)) }
{
    let mut field = Vec::new(alloc);
    push_items(&mut field, range.lower().bytes(), items)?;
    push_upper(out, 2, range)?;
    push_field(out, &field)
}

/// Appends the text of an Answer after its lower bound.
fn push_answer<F: WireSummary>(
    alloc: Global,
    out: &mut Vec<u8>,
    range: &Range,
    marks: &Marks,
    items: &[Item],
) -> Result<(), AllocError>
    requires { IsPart F.profile (Answer range.now marks.now items.now) }
    ensures { OnOk result (out.new.items ≡ out.old.items
        ++ compact.compact_body F.profile (Answer range.now marks.now items.now)) }
{
    let mut field = Vec::new(alloc);
    push_marks(&mut field, marks)?;
    push_items(&mut field, range.lower().bytes(), items)?;
    push_upper(out, 3, range)?;
    push_field(out, &field)
}

/// Appends the text of a part after its lower bound.
fn push_body<F: WireSummary>(
    alloc: Global,
    out: &mut Vec<u8>,
    part: &Part<F>,
) -> Result<(), AllocError>
    ensures { OnOk result (out.new.items ≡ out.old.items ++ compact.compact_body F.profile part.now) }
{
    let range = part.range();
    if let Some(sum) = part.fingerprint() {
        push_upper(out, 1, range)?;
        return sum.push(out);
    }
    let items = part.items().unwrap_or(&[]);
    match part.marks() {
        None => push_list::<F>(alloc, out, range, items),
        Some(marks) => push_answer::<F>(alloc, out, range, marks, items),
    }
}

/// Appends the text of a unit after what the message has come to: none of a part after the end of everything.
pub fn push_unit<F: WireSummary>(
    alloc: Global,
    out: &mut Vec<u8>,
    come_to: &Option<Lower>,
    event: &Event<F>,
) -> Result<(), AllocError>
    ensures { OnOk result (out.new.items ≡ out.old.items
        ++ compact.unit_text F.profile come_to.now (event_value event.now)) }
{
    match event {
        Event::Part(part) => match come_to {
            Some(before) => {
                push_skip(out, before.bytes(), part.range().lower().bytes())?;
                push_body(alloc, out, part)
            }
            None => Ok(()),
        },
        Event::End => {
            out.push(0)?;
            Ok(())
        }
        Event::Fault(code) => {
            out.extend_from_slice(&[8, *code])?;
            Ok(())
        }
    }
}
