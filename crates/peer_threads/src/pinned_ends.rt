//! An end of a session with the version that a pin holds.

ghost use Rattle.std.specs.Prelude.{◌≡◌, ◌≤◌, length, IfOk};
ghost use Rattle.std.specs.Arc.{arc_value};
ghost use Rattle.definitions.specs.Replies.{opening};
ghost use Rattle.definitions.specs.Ends as ends;
ghost use Rattle.ends_core.specs.Turns.{fresh};
ghost use Rattle.ends_core.specs.Sides.{peer_of};

use crate::booking::Host;
use digest_core::WireSummary;
use ends_core::{Initiator, Responder};
use std::alloc::AllocError;
use std::sync::Arc;
use store_core::RangeStore;
use version_lock::Pin;
use wire_core::Message;

/// The end that is spoken to first.
pub(crate) fn new_responder<T, S: RangeStore, G, F: WireSummary>(
    host: &Host<'_, T, G>,
    pin: Pin<S>,
) -> Result<Responder<S, F>, AllocError>
    requires { length pin.items ≤ (arc_value host.now.accepted.now).table.cap }
    ensures { IfOk result (λ end. end ≡ fresh (arc_value host.now.accepted.now).steps
        (ends.responder F.summary (peer_of (arc_value host.now.accepted.now) pin.items))) }
{
    let accepted = Arc::try_clone(host.accepted)?;
    Ok(Responder::new(host.alloc, accepted, pin.into_store()))
}

/// The end that speaks first, and its first message.
pub(crate) fn new_initiator<T, S: RangeStore, G, F: WireSummary>(
    host: &Host<'_, T, G>,
    pin: Pin<S>,
) -> Result<(Initiator<S, F>, Message<F>), AllocError>
    requires { length pin.items ≤ (arc_value host.now.accepted.now).table.cap }
    ensures end { IfOk result (λ r. r.0 ≡ fresh (arc_value host.now.accepted.now).steps
        (ends.initiator F.summary (peer_of (arc_value host.now.accepted.now) pin.items))) }
    ensures message { IfOk result (λ r. r.1 ≡ opening F.summary
        (peer_of (arc_value host.now.accepted.now) pin.items)) }
{
    let accepted = Arc::try_clone(host.accepted)?;
    match Initiator::start(host.alloc, accepted, pin.into_store()) {
        Ok(started) => Ok(started),
        Err(_) => Err(AllocError),
    }
}
