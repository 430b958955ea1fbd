//! Reading what follows the kind of a part, and a whole body.

ghost use Rattle.std.specs.Prelude.{◌≡◌, ◌<◌, ◌≤◌, None, [], OnOk, IfErr, length};
ghost use Rattle.definitions.specs.Wire.{max_body, One_message, Stream};
ghost use Rattle.definitions.specs.Reading as reading;
ghost use Rattle.wire_core.specs.Refused.{GivesField, Gives};
ghost use Rattle.wire_core.specs.Bodies.{part_of, fields_event};
ghost use Rattle.wire_core.specs.Events.{event_value};
ghost use Rattle.wire_core.specs.Readers.{event_of, fingerprint_at, code_at};

use crate::body::Body;
use crate::event::Event;
use crate::fault::{DecodeError, WireFault};
use crate::field::{take_byte, take_bytes, take_items, take_number, take_range};
use crate::marks::{Marks, has_padding};
use crate::part::Part;
use digest_core::WireSummary;
use item_core::{Item, Range};
use std::alloc::Global;

/// The items of a list: their number, and so many items.
fn take_list(alloc: Global, bytes: &mut &[u8], range: &Range) -> Result<Vec<Item>, DecodeError>
    ensures { Gives (λ x. (x.items, bytes.new.now)) result (reading.list_at range.now bytes.old.now) }
{
    let count = take_number(bytes)?;
    take_items(alloc, bytes, range, count)
}

/// The marks of an Answer: their number, and as many bytes as hold them.
fn take_marks(alloc: Global, bytes: &mut &[u8]) -> Result<Marks, DecodeError>
    ensures { Gives (λ x. (x, bytes.new.now)) result (reading.marks_at bytes.old.now) }
{
    let count = take_number(bytes)?;
    let held = take_bytes(bytes, count.div_ceil(8) as usize)?;
    if has_padding(held, count) {
        return Err(DecodeError::Fault(WireFault::MarkPadding));
    }
    Ok(Marks::of_packed(alloc, held, count)?)
}

/// A fingerprint.
fn take_fingerprint<F: WireSummary>(bytes: &mut &[u8]) -> Result<F, WireFault>
    ensures { GivesField (λ x. (x, bytes.new.now)) result (fingerprint_at F.profile bytes.old.now) }
{
    Ok(F::read(take_bytes(bytes, F::size())?))
}

/// What follows the kind of a Sum.
fn take_sum<F: WireSummary>(bytes: &mut &[u8]) -> Result<(Range, Body<F>), WireFault>
    ensures { GivesField (λ x. (part_of x.0 x.1, bytes.new.now)) result
        (reading.sum_at F.profile bytes.old.now) }
{
    let range = take_range(bytes)?;
    let sum = take_fingerprint(bytes)?;
    Ok((range, Body::Sum(sum)))
}

/// What follows the kind of a List.
fn take_listing<F: WireSummary>(
    alloc: Global,
    bytes: &mut &[u8],
) -> Result<(Range, Body<F>), DecodeError>
    ensures { Gives (λ x. (part_of x.0 x.1, bytes.new.now)) result (reading.listing_at bytes.old.now) }
{
    let range = take_range(bytes)?;
    let items = take_list(alloc, bytes, &range)?;
    Ok((range, Body::List(items)))
}

/// What follows the kind of an Answer.
fn take_answer<F: WireSummary>(
    alloc: Global,
    bytes: &mut &[u8],
) -> Result<(Range, Body<F>), DecodeError>
    ensures { Gives (λ x. (part_of x.0 x.1, bytes.new.now)) result (reading.answer_at bytes.old.now) }
{
    let range = take_range(bytes)?;
    let marks = take_marks(alloc, bytes)?;
    let items = take_list(alloc, bytes, &range)?;
    Ok((range, Body::Answer(marks, items)))
}

/// No bytes are left.
fn ends(bytes: &[u8]) -> Result<(), WireFault>
    ensures ok { OnOk result (bytes.now ≡ []) }
    ensures trailing { IfErr result (λ fault. (fault ≡ WireFault.Trailing) × (0 < length bytes.now)) }
{
    if bytes.is_empty() {
        Ok(())
    } else {
        Err(WireFault::Trailing)
    }
}

/// What follows a kind where one message is read: the fields of a part, or the end of the message.
fn take_fields<F: WireSummary>(
    alloc: Global,
    bytes: &mut &[u8],
    kind: u8,
) -> Result<Option<(Range, Body<F>)>, DecodeError>
    ensures { Gives (λ x. (fields_event x, bytes.new.now)) result
        (reading.fields_at F.profile One_message kind bytes.old.now) }
{
    match kind {
        1 => Ok(Some(take_sum(bytes)?)),
        2 => Ok(Some(take_listing(alloc, bytes)?)),
        3 => Ok(Some(take_answer(alloc, bytes)?)),
        4 => Ok(None),
        _ => Err(DecodeError::Fault(WireFault::BadKind)),
    }
}

/// All of a body where one message is read: the fields of a part, or the end of the message.
fn fields_in<F: WireSummary>(
    alloc: Global,
    body: &[u8],
) -> Result<Option<(Range, Body<F>)>, DecodeError>
    ensures { Gives fields_event result (reading.event_in F.profile One_message body.now) }
{
    let mut rest = body;
    let kind = take_byte(&mut rest)?;
    let fields = take_fields(alloc, &mut rest, kind)?;
    ends(rest)?;
    Ok(fields)
}

/// What a frame's body says where one message is read: a part, or the end of the message.
pub fn part_in<F: WireSummary>(alloc: Global, body: &[u8]) -> Result<Option<Part<F>>, DecodeError>
    requires { length body.now ≤ max_body }
    ensures { Gives event_of result (reading.event_in F.profile One_message body.now) }
{
    laws::codec::reads_are_bytes();
    laws::codec::body_is_exact::<F>();
    let Some(fields) = fields_in(alloc, body)? else {
        return Ok(None);
    };
    Ok(Some(Part::of_fields(fields)))
}

/// What follows the kind of a fault frame: its code.
fn code_in(rest: &[u8]) -> Result<u8, WireFault>
    ensures { GivesField (λ code. code) result (code_at rest.now) }
{
    let mut bytes = rest;
    let code = take_byte(&mut bytes)?;
    ends(bytes)?;
    Ok(code)
}

/// What a frame's body says in a stream.
pub fn event_in<F: WireSummary>(alloc: Global, body: &[u8]) -> Result<Event<F>, DecodeError>
    requires { length body.now ≤ max_body }
    ensures { Gives event_value result (reading.event_in F.profile Stream body.now) }
{
    let Some((&kind, rest)) = body.split_first() else {
        return Err(DecodeError::Fault(WireFault::FrameLength));
    };
    if kind == 5 {
        return Ok(Event::Fault(code_in(rest)?));
    }
    let Some(part) = part_in(alloc, body)? else {
        return Ok(Event::End);
    };
    Ok(Event::Part(part))
}
