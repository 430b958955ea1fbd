ghost use Rattle.std.specs.Prelude.{◌≡◌, ◌++◌, ◌<◌, ◌≤◌, [], Some, length, IfOk, IfSome, IfNone, OnOk, OnErr};
ghost use Rattle.definitions.specs.Wire.{Stream};
ghost use Rattle.definitions.specs.Reading.{event_at};
ghost use Rattle.definitions.specs.Compact as compact;
ghost use Rattle.definitions.specs.Packing.{pack};
ghost use Rattle.wire_core.specs.Events.{event_value};
ghost use Rattle.compact_core.specs.Packing.{TakesFrame, packed_state};
ghost use Rattle.compact_core.specs.Reached.{reached_state};

use crate::kept::kept_of;
use crate::packing::push_unit;
use crate::units::comes_to;
use digest_core::{Fingerprint, WireSummary};
use item_core::Lower;
use std::alloc::{AllocError, Global};
use std::marker::{Model, PhantomData};
use wire_core::{DecodeError, Event, take_event};

/// Frames that come in pieces, and their compact spelling. Keeps the bytes of an unfinished frame, and no more.
#[derive(Debug, Drop)]
pub struct Packer<F: WireSummary = Fingerprint> {
    come_to: Option<Lower>,
    kept: Vec<u8>,
    of: PhantomData<F>,
}

impl<F: WireSummary> Model for Packer<F> {
    ghost use Rattle.compact_core.specs.Packing.{PackerState};

    ghost Value = { PackerState };

    ghost view = { λ a. record { to = a.come_to; kept = a.kept.items } };
}

/// Where frames have come to.
#[derive(Debug, Drop)]
struct Reached {
    come_to: Option<Lower>,
    /// What is kept of the bytes, if that is not all of them.
    kept: Option<Vec<u8>>,
}

/// Takes the frame that stands next off the front, if it is whole and is one.
fn next_frame<F: WireSummary>(
    alloc: Global,
    bytes: &mut &[u8],
) -> Result<Option<Event<F>>, AllocError>
    ensures read { IfOk result (TakesFrame (event_at F.profile Stream 0 bytes.old.now) bytes.new.now) }
    ensures shorter { IfOk result (λ x. IfSome x (λ _. length bytes.new.now < length bytes.old.now)) }
    ensures same { IfOk result (λ x. IfNone x (bytes.new.now ≡ bytes.old.now)) }
{
    let mut rest = *bytes;
    match take_event(alloc, &mut rest, 0) {
        Ok(None) => Ok(None),
        Ok(Some(event)) => {
            *bytes = rest;
            Ok(Some(event))
        }
        Err(DecodeError::Fault(_)) => Ok(None),
        Err(DecodeError::Memory) => Err(AllocError),
    }
}

/// Appends the compact text of a frame's event, and gives what the message has come to after it.
fn push_event<F: WireSummary>(
    alloc: Global,
    out: &mut Vec<u8>,
    come_to: Option<Lower>,
    event: Event<F>,
) -> Result<Option<Lower>, AllocError>
    ensures text { OnOk result (out.new.items ≡ out.old.items
        ++ compact.unit_text F.profile come_to (event_value event)) }
    ensures next { IfOk result (λ z. z ≡ compact.come_to come_to (event_value event)) }
{
    push_unit(alloc, out, &come_to, &event)?;
    Ok(comes_to(come_to, &event))
}

/// Takes all whole frames off the front, and appends their compact text.
fn pack_frames<F: WireSummary>(
    alloc: Global,
    bytes: &mut &[u8],
    come_to: &mut Option<Lower>,
    out: &mut Vec<u8>,
) -> Result<(), AllocError>
    ensures text { OnOk result (out.new.items ≡ out.old.items ++ (pack F.profile come_to.old bytes.old.now).text) }
    ensures state { OnOk result (packed_state (pack F.profile come_to.old bytes.old.now)
        ≡ record { to = come_to.new; kept = bytes.new.now }) }
    ensures all { OnOk result (length bytes.old.now ≤ length bytes.new.now → bytes.new.now ≡ bytes.old.now) }
{
    'frames: while let Some(event) = next_frame::<F>(alloc, bytes)? {
        let next = push_event(alloc, out, *come_to, event)?;
        *come_to = next;
    }
    Ok(())
}

/// Appends the compact text of all whole frames, and gives where they have come to.
fn pack_bytes<F: WireSummary>(
    alloc: Global,
    come_to: Option<Lower>,
    bytes: &[u8],
    out: &mut Vec<u8>,
) -> Result<Reached, AllocError>
    ensures text { OnOk result (out.new.items ≡ out.old.items ++ (pack F.profile come_to bytes.now).text) }
    ensures reached { IfOk result (λ r. reached_state bytes.now r ≡ packed_state (pack F.profile come_to bytes.now)) }
{
    let mut rest = bytes;
    let mut come_to = come_to;
    pack_frames::<F>(alloc, &mut rest, &mut come_to, out)?;
    let kept = kept_of(alloc, bytes, rest)?;
    Ok(Reached { come_to, kept })
}

/// The same; where memory runs out, nothing is appended.
fn pack_anew<F: WireSummary>(
    alloc: Global,
    come_to: Option<Lower>,
    bytes: &[u8],
    out: &mut Vec<u8>,
) -> Result<Reached, AllocError>
    ensures text { OnOk result (out.new.items ≡ out.old.items ++ (pack F.profile come_to bytes.now).text) }
    ensures reached { IfOk result (λ r. reached_state bytes.now r ≡ packed_state (pack F.profile come_to bytes.now)) }
    ensures memory { OnErr result (out.new.items ≡ out.old.items) }
{
    let mut fresh = Vec::new(alloc);
    let reached = pack_bytes::<F>(alloc, come_to, bytes, &mut fresh)?;
    out.extend_from_slice(&fresh)?;
    Ok(reached)
}

impl<F: WireSummary> Packer<F> {
    /// Nothing has come.
    pub fn new(alloc: Global) -> Packer<F>
        ensures { result ≡ record { to = Some []; kept = [] } }
    {
        Packer {
            come_to: Some(Lower::start()),
            kept: Vec::new(alloc),
            of: PhantomData,
        }
    }

    /// Appends the compact text of the frames that are whole now, and keeps the bytes of one that is not.
    ///
    /// Bytes that are no frame are kept, and nothing more is appended. Where memory runs out, the packer and the text
    /// are as before the call.
    pub fn push(
        &mut self,
        alloc: Global,
        frames: &[u8],
        out: &mut Vec<u8>,
    ) -> Result<(), AllocError>
        ensures text { OnOk result (out.new.items ≡ out.old.items
            ++ (pack F.profile self.old.to (self.old.kept ++ frames.now)).text) }
        ensures state { OnOk result (self.new
            ≡ packed_state (pack F.profile self.old.to (self.old.kept ++ frames.now))) }
        ensures memory { OnErr result ((self.new ≡ self.old) × (out.new.items ≡ out.old.items)) }
    {
        let begun = self.kept.len();
        self.kept.extend_from_slice(frames)?;
        match pack_anew::<F>(alloc, self.come_to, &self.kept, out) {
            Ok(reached) => {
                self.settle(reached);
                Ok(())
            }
            Err(refused) => {
                self.kept.truncate(begun);
                Err(refused)
            }
        }
    }

    /// Stands where the kept bytes have come to.
    fn settle(&mut self, reached: Reached)
        ensures { self.new ≡ reached_state self.old.kept reached }
    {
        let Reached { come_to, kept } = reached;
        self.come_to = come_to;
        if let Some(kept) = kept {
            self.kept = kept;
        }
    }
}
