ghost use Rattle.std.specs.Prelude.{◌≡◌, ◌++◌, ◌<◌, ◌≤◌, [], None, Some, length, drop, option_map};
ghost use Rattle.std.specs.Prelude.{IfOk, IfSome, IfNone, OnOk, OnErr, if◌then◌else◌};
ghost use Rattle.std.specs.Prelude.{List, ℕ};
ghost use Rattle.definitions.specs.Items.{IsBytes};
ghost use Rattle.definitions.specs.CompactReading as reading;
ghost use Rattle.definitions.specs.Packing.{event_frame, frames_of, unpack, after_units};
ghost use Rattle.definitions.specs.Compact as compact;
ghost use Rattle.wire_core.specs.Events.{event_value};
ghost use Rattle.wire_core.specs.Refused.{Gives, fault_number};
ghost use Rattle.compact_core.specs.Unpacking.{Unpacks, stands, frames_after, state_after};
ghost use Rattle.laws.specs.Compact.{IsFrom};
ghost use Rattle.compact_core.specs.Places.{place_state};

use crate::kept::kept_of;
use crate::stop::{ReadError, Stop};
use crate::units::{comes_to, faulty_frame, push_frame, take_unit};
use digest_core::{Fingerprint, WireSummary};
use item_core::Lower;
use std::alloc::{AllocError, Global};
use std::marker::{Model, PhantomData};
use wire_core::{DecodeError, Event, WireFault};

/// Compact bytes that come in pieces, and the frames that they mean. Keeps the bytes of an unfinished unit, and no
/// more.
#[derive(Debug, Drop)]
pub struct Unpacker<F: WireSummary = Fingerprint> {
    come_to: Option<Lower>,
    kept: Vec<u8>,
    fault: Option<WireFault>,
    of: PhantomData<F>,
}

impl<F: WireSummary> Model for Unpacker<F> {
    ghost use Rattle.std.specs.Prelude.{option_map};
    ghost use Rattle.wire_core.specs.Refused.{fault_number};
    ghost use Rattle.compact_core.specs.Unpacking.{UnpackerState};

    ghost Value = { UnpackerState };

    ghost view = { λ a. record { to = a.come_to; kept = a.kept.items; fault = option_map fault_number a.fault } };
}

/// Where units have come to.
#[derive(Debug, Drop)]
struct Place {
    come_to: Option<Lower>,
    fault: Option<WireFault>,
    /// What is kept of the bytes, if that is not all of them.
    kept: Option<Vec<u8>>,
}

/// Takes the unit that stands next off the front, if it has all come.
fn next_unit<F: WireSummary>(
    alloc: Global,
    bytes: &mut &[u8],
    come_to: Option<Lower>,
) -> Result<Option<Event<F>>, DecodeError>
    ensures read { Gives (λ x. option_map (λ e. (event_value e, bytes.new.now)) x) result
        (reading.unit_at F.profile come_to bytes.old.now) }
    ensures shorter { IfOk result (λ x. IfSome x (λ _. length bytes.new.now < length bytes.old.now)) }
    ensures same { IfOk result (λ x. IfNone x (bytes.new.now ≡ bytes.old.now)) }
{
    let mut rest = *bytes;
    match take_unit(alloc, &mut rest, come_to) {
        Ok(event) => {
            *bytes = rest;
            Ok(Some(event))
        }
        Err(ReadError::Stop(Stop::Unfinished)) => Ok(None),
        Err(ReadError::Stop(Stop::Fault(fault))) => Err(DecodeError::Fault(fault)),
        Err(ReadError::Memory) => Err(DecodeError::Memory),
    }
}

/// Appends the frame of a unit, and gives what the message has come to after it.
fn push_event<F: WireSummary>(
    frames: &mut Vec<u8>,
    come_to: Option<Lower>,
    event: Event<F>,
) -> Result<Option<Lower>, AllocError>
    ensures frame { OnOk result (frames.new.items ≡ frames.old.items ++ event_frame F.profile (event_value event)) }
    ensures next { IfOk result (λ z. z ≡ compact.come_to come_to (event_value event)) }
{
    push_frame(frames, &event)?;
    Ok(comes_to(come_to, &event))
}

/// Takes all units that have come whole off the front, and appends their frames.
fn unpack_units<F: WireSummary>(
    alloc: Global,
    bytes: &mut &[u8],
    come_to: &mut Option<Lower>,
    frames: &mut Vec<u8>,
) -> Result<(), DecodeError>
    ensures units { Unpacks F.profile (unpack F.profile come_to.old bytes.old.now) frames.old.items frames.new.items
        come_to.new bytes.new.now result }
    ensures all { OnOk result (length bytes.old.now ≤ length bytes.new.now → bytes.new.now ≡ bytes.old.now) }
{
    'units: while let Some(event) = next_unit::<F>(alloc, bytes, *come_to)? {
        let next = push_event(frames, *come_to, event)?;
        *come_to = next;
    }
    Ok(())
}

/// Appends what tells how the units end: a frame with the fault, or the first byte of the frame of a unit that has
/// begun.
fn push_end(frames: &mut Vec<u8>, fault: Option<WireFault>, rest: &[u8]) -> Result<(), AllocError>
    ensures text { OnOk result (frames.new.items
        ≡ frames.old.items ++ after_units (option_map fault_number fault) rest.now) }
{
    match fault {
        Some(fault) => frames.extend_from_slice(faulty_frame(fault))?,
        None if rest.is_empty() => {}
        None => frames.push(0)?,
    }
    Ok(())
}

/// Appends the frames that the bytes mean, and gives where they have come to.
fn unpack_bytes<F: WireSummary>(
    alloc: Global,
    come_to: Option<Lower>,
    bytes: &[u8],
    frames: &mut Vec<u8>,
) -> Result<Place, AllocError>
    ensures frames { OnOk result (frames.new.items ≡ frames.old.items ++ frames_of F.profile come_to bytes.now) }
    ensures place { IfOk result (λ p. place_state bytes.now p ≡ stands (unpack F.profile come_to bytes.now)) }
{
    let mut rest = bytes;
    let mut come_to = come_to;
    let fault = match unpack_units::<F>(alloc, &mut rest, &mut come_to, frames) {
        Ok(()) => None,
        Err(DecodeError::Fault(fault)) => {
            rest = &[];
            Some(fault)
        }
        Err(DecodeError::Memory) => return Err(AllocError),
    };
    push_end(frames, fault, rest)?;
    let kept = kept_of(alloc, bytes, rest)?;
    Ok(Place {
        come_to,
        fault,
        kept,
    })
}

/// The frames, but for the first byte of them where that was said before.
fn anew(frames: &[u8], has_begun: bool) -> &[u8]
    ensures { result.now ≡ drop (if has_begun then 1 else 0) frames.now }
{
    match frames {
        [_, rest @ ..] if has_begun => rest,
        _ => frames,
    }
}

/// Appends the frames that the bytes mean, but for the first byte of them where that was said before, and gives where
/// they have come to.
fn unpack_anew<F: WireSummary>(
    alloc: Global,
    come_to: Option<Lower>,
    bytes: &[u8],
    has_begun: bool,
    frames: &mut Vec<u8>,
) -> Result<Place, AllocError>
    ensures frames { OnOk result (frames.new.items ≡ frames.old.items
        ++ drop (if has_begun then 1 else 0) (frames_of F.profile come_to bytes.now)) }
    ensures place { IfOk result (λ p. place_state bytes.now p ≡ stands (unpack F.profile come_to bytes.now)) }
    ensures memory { OnErr result (frames.new.items ≡ frames.old.items) }
{
    let mut fresh = Vec::new(alloc);
    let place = unpack_bytes::<F>(alloc, come_to, bytes, &mut fresh)?;
    frames.extend_from_slice(anew(&fresh, has_begun))?;
    Ok(place)
}

/// Tells a proof that a message may have come to it.
fn is_from(come_to: &Option<Lower>)
    ensures { IsFrom come_to.now }
{
    if let Some(lower) = come_to {
        let _ = lower.bytes(); // proof only: a lower bound is one
    }
}

impl<F: WireSummary> Unpacker<F> {
    /// Nothing has come.
    pub fn new(alloc: Global) -> Unpacker<F>
        ensures { result ≡ record { to = Some []; kept = []; fault = None } }
    {
        Unpacker {
            come_to: Some(Lower::start()),
            kept: Vec::new(alloc),
            fault: None,
            of: PhantomData,
        }
    }

    /// How many bytes of an unfinished unit it keeps.
    pub fn held(&self) -> usize
        ensures { result ≡ length self.now.kept }
    {
        self.kept.len()
    }

    /// Appends the frames that the piece completes.
    ///
    /// They are the frames of the kept bytes and the piece, but for the byte that was appended when a unit had begun.
    /// The first fault appends a frame that is refused with its number; nothing is appended after it. Where memory runs
    /// out, the unpacker and the frames are as before the call.
    pub fn push(
        &mut self,
        alloc: Global,
        piece: &[u8],
        frames: &mut Vec<u8>,
    ) -> Result<(), AllocError>
        ensures frames { OnOk result (frames.new.items
            ≡ frames.old.items ++ frames_after F.profile self.old piece.now) }
        ensures state { OnOk result (self.new ≡ state_after F.profile self.old piece.now) }
        ensures memory { OnErr result ((self.new ≡ self.old) × (frames.new.items ≡ frames.old.items)) }
        // The cutting does not matter: more bytes mean what they do after the piece.
        ensures joined { OnOk result ((more : List ℕ) → IsBytes more →
            frames_after F.profile self.old (piece.now ++ more)
            ≡ frames_after F.profile self.old piece.now ++ frames_after F.profile self.new more) }
        // All that has come was said.
        ensures rests { OnOk result (frames_after F.profile self.new [] ≡ []) }
    {
        laws::compact::pieces_add::<F>();
        laws::compact::unpacking_is_exact::<F>();
        laws::codec::are_bytes(&self.kept);
        laws::codec::are_bytes(piece);
        is_from(&self.come_to);
        self.push_piece(alloc, piece, frames)
    }

    /// The same, with the clauses that need no law.
    fn push_piece(
        &mut self,
        alloc: Global,
        piece: &[u8],
        frames: &mut Vec<u8>,
    ) -> Result<(), AllocError>
        ensures frames { OnOk result (frames.new.items
            ≡ frames.old.items ++ frames_after F.profile self.old piece.now) }
        ensures state { OnOk result (self.new ≡ state_after F.profile self.old piece.now) }
        ensures memory { OnErr result ((self.new ≡ self.old) × (frames.new.items ≡ frames.old.items)) }
    {
        if self.fault.is_some() {
            return Ok(());
        }
        let begun = self.kept.len();
        self.kept.extend_from_slice(piece)?;
        match unpack_anew::<F>(alloc, self.come_to, &self.kept, begun > 0, frames) {
            Ok(place) => {
                self.settle(place);
                Ok(())
            }
            Err(refused) => {
                self.kept.truncate(begun);
                Err(refused)
            }
        }
    }

    /// Stands where the kept bytes have come to.
    fn settle(&mut self, place: Place)
        ensures { self.new ≡ place_state self.old.kept place }
    {
        let Place {
            come_to,
            fault,
            kept,
        } = place;
        self.come_to = come_to;
        self.fault = fault;
        if let Some(kept) = kept {
            self.kept = kept;
        }
    }
}
