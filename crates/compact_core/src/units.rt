//! Units: a part with the skip before it, the end of a message, a fault. Reading one, and where the message comes to.

ghost use Rattle.std.specs.Prelude.{◌≡◌, ◌<◌, ◌≤◌, ◌++◌, length, OnOk};
ghost use Rattle.definitions.specs.Wire.{Came};
ghost use Rattle.definitions.specs.Compact as compact;
ghost use Rattle.definitions.specs.CompactReading as reading;
ghost use Rattle.definitions.specs.Packing.{event_frame, faulty_text};
ghost use Rattle.wire_core.specs.Events.{event_value};
ghost use Rattle.wire_core.specs.Refused.{fault_number};
ghost use Rattle.compact_core.specs.Readings.{Gives};

use crate::bytes::take_byte;
use crate::parts::take_part;
use crate::stop::{ReadError, Stop};
use digest_core::WireSummary;
use item_core::{Lower, Upper};
use std::alloc::{AllocError, Global};
use wire_core::{Event, Part, WireFault, encode_fault};

/// The frame of a message's end.
const END: [u8; 5] = [0, 0, 0, 1, 4];

/// Why no part has this head after the end of everything.
fn end_fault(head: u8) -> WireFault
    ensures { fault_number result ≡ reading.end_fault head }
{
    if head % 8 > 0 || head / 8 % 8 == 0 {
        WireFault::EmptyRange
    } else if head > 63 {
        WireFault::BadBound
    } else {
        WireFault::BadKind
    }
}

/// A part after what was come to, whose first byte is read.
fn take_next_part<F: WireSummary>(
    alloc: Global,
    bytes: &mut &[u8],
    come_to: Option<Lower>,
    head: u8,
) -> Result<Part<F>, ReadError>
    ensures read { Gives (λ p. (Came p, bytes.new.now)) result
        (reading.came_at F.profile come_to head bytes.old.now) }
    ensures shorter { length bytes.new.now ≤ length bytes.old.now }
{
    match come_to {
        Some(lower) => take_part(alloc, bytes, lower, head),
        None => Err(ReadError::Stop(Stop::Fault(end_fault(head)))),
    }
}

/// Takes the unit that stands next off the front.
pub fn take_unit<F: WireSummary>(
    alloc: Global,
    bytes: &mut &[u8],
    come_to: Option<Lower>,
) -> Result<Event<F>, ReadError>
    ensures read { Gives (λ e. (event_value e, bytes.new.now)) result
        (reading.unit_at F.profile come_to bytes.old.now) }
    ensures shorter { OnOk result (length bytes.new.now < length bytes.old.now) }
{
    let head = take_byte(bytes)?;
    match head {
        0 => Ok(Event::End),
        8 => Ok(Event::Fault(take_byte(bytes)?)),
        _ => Ok(Event::Part(take_next_part(alloc, bytes, come_to, head)?)),
    }
}

/// Where a message has come to after a unit; none is the end of everything.
pub fn comes_to<F: WireSummary>(come_to: Option<Lower>, event: &Event<F>) -> Option<Lower>
    ensures { result ≡ compact.come_to come_to (event_value event.now) }
{
    match event {
        Event::Part(part) => match part.range().upper() {
            Upper::Before(item) => Some(Lower::from(*item)),
            Upper::End => None,
        },
        Event::End => Some(Lower::start()),
        Event::Fault(_) => come_to,
    }
}

/// Appends the frame of a unit.
pub fn push_frame<F: WireSummary>(out: &mut Vec<u8>, event: &Event<F>) -> Result<(), AllocError>
    ensures { OnOk result (out.new.items ≡ out.old.items ++ event_frame F.profile (event_value event.now)) }
{
    match event {
        Event::Part(part) => part.push(out)?,
        Event::End => out.extend_from_slice(&END)?,
        Event::Fault(code) => out.extend_from_slice(&encode_fault(*code))?,
    }
    Ok(())
}

/// A frame that is refused with this fault.
pub fn faulty_frame(fault: WireFault) -> &'static [u8]
    ensures { result.now ≡ faulty_text (fault_number fault) }
{
    match fault {
        WireFault::BadKind => &[0, 0, 0, 1, 0],
        WireFault::BadBound => &[0, 0, 0, 2, 1, 65],
        WireFault::EmptyRange => &[0, 0, 0, 5, 1, 1, 0, 1, 0],
        WireFault::ItemLength => &[0, 0, 0, 8, 2, 0, 255, 0, 0, 0, 1, 0],
        WireFault::ItemOrder => &[0, 0, 0, 11, 2, 0, 255, 0, 0, 0, 2, 1, 0, 1, 0],
        WireFault::ItemOutside => &[0, 0, 0, 10, 2, 0, 1, 0, 0, 0, 0, 1, 1, 0],
        WireFault::MarkPadding => &[0, 0, 0, 12, 3, 0, 255, 0, 0, 0, 1, 2, 0, 0, 0, 0],
        _ => &[0, 0, 0, 0],
    }
}
