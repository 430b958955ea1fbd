//! Reading what stands next in a stream: the hello, where it is due, and one frame.

ghost use Rattle.std.specs.Prelude.{◌≡◌, ℕ, ◌+◌, ◌≤◌, false, None, IfOk, IfSome, IfNone, length, take, option_map};
ghost use Rattle.std.specs.Int.{w32, from_be_bytes};
ghost use Rattle.definitions.specs.Wire.{Stream, Counts};
ghost use Rattle.definitions.specs.Reading as reading;
ghost use Rattle.definitions.specs.Streams.{Before_hello, feed_frames, feed_start, feed};
ghost use Rattle.wire_core.specs.Refused.{Gives};
ghost use Rattle.wire_core.specs.Events.{event_value};
ghost use Rattle.wire_core.specs.Feeds.{fault_at};
ghost use Rattle.wire_core.specs.Nexts.{frame_end};
ghost use Rattle.wire_core.specs.Standings.{standing_of, stands_after, starts_at, is_over, IsRead};

use crate::decoding::take_frame;
use crate::event::Event;
use crate::fault::{DecodeError, WireFault};
use crate::message::MAX_PARTS;
use crate::reading::event_in;
use crate::standing::Standing;
use digest_core::WireSummary;
use std::alloc::Global;

/// Takes the next frame off the front, after so many parts of its message, and gives its event, if a whole one has
/// come.
pub fn take_event<F: WireSummary>(
    alloc: Global,
    bytes: &mut &[u8],
    parts: usize,
) -> Result<Option<Event<F>>, DecodeError>
    ensures read { Gives (λ x. option_map (λ e. (event_value e, bytes.new.now)) x) result
        (reading.event_at F.profile Stream parts bytes.old.now) }
    ensures same { IfOk result (λ x. IfNone x (bytes.new.now ≡ bytes.old.now)) }
    ensures room { IfOk result (λ x. IfSome x (λ e. Counts parts (event_value e))) }
{
    let Some(body) = take_frame(bytes)? else {
        return Ok(None);
    };
    let event = event_in(alloc, body)?;
    if matches!(event, Event::Part(_)) && parts >= MAX_PARTS {
        return Err(DecodeError::Fault(WireFault::TooManyParts));
    }
    Ok(Some(event))
}

/// Where a stream stands after an event that came after so many parts of its message.
fn standing_after<F: WireSummary>(event: &Event<F>, parts: usize) -> Standing
    requires { Counts parts (event_value event.now) }
    ensures after { standing_of result ≡ stands_after parts (event_value event.now) }
    ensures faultless { fault_at (standing_of result) ≡ None }
{
    match event {
        Event::Part(_) => Standing::InMessage(parts + 1),
        Event::End => Standing::InMessage(0),
        Event::Fault(_) => Standing::MeaningOver,
    }
}

/// Takes a frame off the front, after so many parts of its message, if it has come whole. The bytes reach no further.
fn take_one<F: WireSummary>(
    alloc: Global,
    bytes: &mut &[u8],
    parts: usize,
) -> Result<(Standing, Option<Event<F>>), DecodeError>
    requires { length bytes.old.now ≤ 4 + from_be_bytes w32 (take 4 bytes.old.now) }
    ensures read { (fuel : ℕ) → length bytes.old.now ≤ fuel →
        IsRead (feed_frames F.profile fuel parts bytes.old.now) result bytes.new.now }
    ensures faultless { IfOk result (λ x. fault_at (standing_of x.0) ≡ None) }
{
    laws::codec::next_is_exact::<F>();
    laws::codec::are_bytes(bytes);
    match take_event(alloc, bytes, parts)? {
        Some(event) => Ok((standing_after(&event, parts), Some(event))),
        None => Ok((Standing::InMessage(parts), None)),
    }
}

/// Takes the hello off the front, if its four bytes have come: then no part of a message has.
#[tactic(auto, using(crate::proofs::Outcomes::after_cut))]
fn take_hello<F: WireSummary>(bytes: &mut &[u8]) -> Result<Option<usize>, WireFault>
    ensures step { feed_start F.profile bytes.old.now
        ≡ starts_at result bytes.new.now (feed_frames F.profile (length bytes.old.now)) }
    ensures shorter { length bytes.new.now ≤ length bytes.old.now }
    ensures cut { length bytes.old.now ≤ frame_end Before_hello bytes.old.now → IfOk result (λ x. IfSome x (λ _.
        length bytes.new.now ≤ 4 + from_be_bytes w32 (take 4 bytes.new.now))) }
{
    if bytes.len() < 4 {
        return Ok(None);
    }
    let (hello, rest) = bytes.split_at(4);
    if hello != F::hello().as_slice() {
        return Err(WireFault::BadHello);
    }
    *bytes = rest;
    Ok(Some(0))
}

/// Takes the hello off the front, where it is due. How many parts of the message have come, if a frame is next.
fn take_start<F: WireSummary>(
    bytes: &mut &[u8],
    standing: Standing,
) -> Result<Option<usize>, WireFault>
    requires { is_over (standing_of standing) ≡ false }
    ensures step { feed F.profile (standing_of standing) bytes.old.now
        ≡ starts_at result bytes.new.now (feed_frames F.profile (length bytes.old.now)) }
    ensures shorter { length bytes.new.now ≤ length bytes.old.now }
    // Where the bytes reached no further than one frame, those after the hello reach no further.
    ensures cut { length bytes.old.now ≤ frame_end (standing_of standing) bytes.old.now → IfOk result (λ x. IfSome x
        (λ _. length bytes.new.now ≤ 4 + from_be_bytes w32 (take 4 bytes.new.now))) }
{
    match standing {
        Standing::InMessage(parts) => Ok(Some(parts)),
        _ => take_hello::<F>(bytes),
    }
}

/// Takes what stands next off the front: the hello, where it is due, and a frame, if it has come whole. The bytes reach
/// no further.
pub fn take_next<F: WireSummary>(
    alloc: Global,
    bytes: &mut &[u8],
    standing: Standing,
) -> Result<(Standing, Option<Event<F>>), DecodeError>
    requires counts { is_over (standing_of standing) ≡ false }
    requires one { length bytes.old.now ≤ frame_end (standing_of standing) bytes.old.now }
    ensures read { IsRead (feed F.profile (standing_of standing) bytes.old.now) result bytes.new.now }
    ensures faultless { IfOk result (λ x. fault_at (standing_of x.0) ≡ None) }
{
    match take_start::<F>(bytes, standing)? {
        Some(parts) => take_one(alloc, bytes, parts),
        None => Ok((Standing::BeforeHello, None)),
    }
}
