ghost use Rattle.std.specs.Prelude.{◌≡◌, ◌<◌, ◌≤◌, length, IfOk, IfSome, IfNone, OnOk, IfErr, Ok, option_map};
ghost use Rattle.definitions.specs.Messages as messages;
ghost use Rattle.definitions.specs.Wire.{max_body, max_parts, Spells};
ghost use Rattle.definitions.specs.Faults.{FaultyMessage};
ghost use Rattle.definitions.specs.Reading as reading;
ghost use Rattle.definitions.specs.Streams.{message_in};
ghost use Rattle.wire_core.specs.Refused.{GivesField, Gives, IfFault};
ghost use Rattle.wire_core.specs.Readers.{event_of, next_at};

use crate::body::MAX_BODY;
use crate::fault::{DecodeError, WireFault};
use crate::field::{take_bytes, take_number};
use crate::message::{MAX_PARTS, Message};
use crate::part::Part;
use crate::reading::part_in;
use digest_core::WireSummary;
use std::alloc::Global;

/// Takes a frame off the front and gives its body, if a whole one has come.
pub fn take_frame<'a>(bytes: &mut &'a [u8]) -> Result<Option<&'a [u8]>, WireFault>
    ensures read { GivesField (λ x. option_map (λ body. (body.now, bytes.new.now)) x) result
        (reading.frame_at bytes.old.now) }
    ensures short { IfOk result (λ x. IfSome x (λ body. length body.now ≤ max_body)) }
    ensures shorter { IfOk result (λ x. IfSome x (λ _. length bytes.new.now < length bytes.old.now)) }
    ensures same { IfOk result (λ x. IfNone x (bytes.new.now ≡ bytes.old.now)) }
{
    if bytes.len() < 4 {
        return Ok(None);
    }
    let mut rest = *bytes;
    let length = take_number(&mut rest)? as usize;
    if length == 0 || length > MAX_BODY {
        return Err(WireFault::FrameLength);
    }
    if rest.len() < length {
        return Ok(None);
    }
    let body = take_bytes(&mut rest, length)?;
    *bytes = rest;
    Ok(Some(body))
}

/// Takes the next frame of a message off the front, after so many parts of it: a part, or none at the message's end.
fn take_part<F: WireSummary>(
    alloc: Global,
    bytes: &mut &[u8],
    parts: usize,
) -> Result<Option<Part<F>>, DecodeError>
    ensures read { Gives (λ x. (event_of x, bytes.new.now)) result (next_at F.profile parts bytes.old.now) }
    ensures shorter { OnOk result (length bytes.new.now < length bytes.old.now) }
    ensures room { IfOk result (λ x. IfSome x (λ _. parts < max_parts)) }
{
    let Some(body) = take_frame(bytes)? else {
        return Err(DecodeError::Fault(WireFault::Truncated));
    };
    let part = part_in(alloc, body)?;
    if part.is_some() && parts >= MAX_PARTS {
        return Err(DecodeError::Fault(WireFault::TooManyParts));
    }
    Ok(part)
}

/// The parts of the one message that the bytes spell.
fn parts_in<F: WireSummary>(alloc: Global, bytes: &[u8]) -> Result<Vec<Part<F>>, DecodeError>
    ensures exact { Gives (λ v. v.items) result (message_in F.profile bytes.now) }
    ensures few { IfOk result (λ v. length v.items ≤ max_parts) }
{
    let mut parts: Vec<Part<F>> = Vec::new(alloc);
    let mut rest = bytes;
    'frames: while let Some(part) = take_part(alloc, &mut rest, parts.len())? {
        parts.push(part)?;
    }
    if !rest.is_empty() {
        return Err(DecodeError::Fault(WireFault::Trailing));
    }
    Ok(parts)
}

/// The message that the bytes spell, or the first fault.
fn message_of<F: WireSummary>(alloc: Global, bytes: &[u8]) -> Result<Message<F>, DecodeError>
    ensures { Gives (λ message. message) result (message_in F.profile bytes.now) }
{
    laws::codec::reads_are_bytes();
    laws::codec::message_is_exact::<F>();
    Ok(Message::of_parts(parts_in(alloc, bytes)?))
}

/// The one message that the bytes spell, from the first byte to the last, without a hello.
///
/// Else the first fault from left to right, 2 to 12; memory may run out before any of these.
pub fn decode_message<F: WireSummary>(
    alloc: Global,
    bytes: &[u8],
) -> Result<Message<F>, DecodeError>
    // What is read is spelled so.
    ensures found { IfOk result (λ message. Spells F.profile message bytes.now) }
    // What is spelled so is read, unless memory runs out.
    ensures only { (M : messages.Message F) → Spells F.profile M bytes.now →
        Gives (λ message. message) result (Ok M) }
    // Which fault it is.
    ensures fault { IfFault result (FaultyMessage F.profile bytes.now) }
    ensures exact { Gives (λ message. message) result (message_in F.profile bytes.now) }
{
    laws::codec::reads_are_bytes();
    laws::codec::message_is_exact::<F>();
    message_of(alloc, bytes)
}
