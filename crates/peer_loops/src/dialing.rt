//! One session with a partner over a part: it is spoken first, and what it learned is put in.

ghost use Rattle.std.specs.Prelude.{◌≡◌, ◌+◌, ⊤, false, length, IfOk, OnErr};
ghost use Rattle.std.specs.Arc.{arc_value};
ghost use Rattle.definitions.specs.Fingerprints.{two_lanes};
ghost use Rattle.definitions.specs.Histories.{content};
ghost use Rattle.definitions.specs.Wire.{two_lane_profile};
ghost use Rattle.definitions.specs.Engines.{initiating};
ghost use Rattle.definitions.specs.Ranks.{rank_by};
ghost use Rattle.ends_core.specs.Sides.{peer_of};
ghost use Rattle.version_lock.specs.declared.view.View.{View};
ghost use Rattle.peer_threads.specs.Outcomes.{Speaks, seen, traffic};
ghost use Rattle.peer_threads.specs.Workers.{LookedOrNot, PutsInBy, says};
ghost use Rattle.peer_loops.specs.Extents.{meant};
ghost use Rattle.peer_loops.specs.Links.{PutsInFor};

use crate::common::Common;
use crate::desk::Desk;
use crate::extent::Extent;
use crate::link_gate::LinkGate;
use crate::part_gate::PartGate;
use digest_core::Fingerprint;
use peer_threads::{Connection, Gate, Outcome, Shared, dial_pinned};
use std::alloc::{AllocError, Global};
use std::io::{Read, Write};
use std::sync::Wait;
use store_core::set_laws;

/// What came of a session with a partner, and whether something was put in, or was there.
#[derive(Drop)]
pub(crate) struct Dialed {
    pub(crate) outcome: Outcome,
    pub(crate) has_put: bool,
}

impl Desk {
    /// Speaks first to the partner on this connection, over the items of the newest version that are meant, until the
    /// session ends. Where memory runs out before it begins, nothing is read and nothing is written.
    fn dial<T: Wait, G: PartGate, I: Read, O: Write>(
        &mut self,
        rt: &T,
        alloc: Global,
        shared: (&Common<'_, G>, &LinkGate<'_, G>),
        extent: Extent<'_>,
        connection: &mut Connection<I, O>,
    ) -> Result<Outcome, AllocError>
        requires fresh { (connection.old.reader.failed ≡ false) × (connection.old.reader.ended ≡ false)
            × (connection.old.writer.failed ≡ false) }
        ensures part { self.new.part ≡ self.old.part }
        ensures view { LookedOrNot self.old.seat.view self.new.seat.view }
        ensures bytes { IfOk result (Speaks two_lanes two_lane_profile ⊤
            (initiating two_lanes (peer_of (arc_value (arc_value self.old.part).accepted)
            (meant extent.entry.floor.now extent.entry.range.now (content self.new.seat.view.base))))
            (length self.new.seat.view.base)
            (rank_by (arc_value (arc_value self.old.part).accepted).steps
            (length (meant extent.entry.floor.now extent.entry.range.now (content self.new.seat.view.base))) + 2)
            (arc_value (arc_value self.old.part).accepted).table.limit
            (traffic (I.remaining connection.old.reader.inner) (I.remaining connection.new.reader.inner)
            (O.contents connection.old.writer.inner) (O.contents connection.new.writer.inner))
            (seen connection.new.reader.failed connection.new.reader.ended)
            (seen connection.new.writer.failed connection.new.writer.ended)) }
        ensures memory { OnErr result (connection.new ≡ connection.old) }
    {
        set_laws::set_of_a_list();
        let pin = self.pinned(rt, alloc, extent)?;
        let (common, gate) = shared;
        let shared = Shared {
            lock: &self.part.lock,
            accepted: &self.part.accepted,
            sessions: common.sessions,
            gate,
        };
        Ok(dial_pinned::<_, _, _, _, _, Fingerprint>(rt, alloc, &shared, pin, connection))
    }

    /// Puts into the log what the session with this serial learned of its peer, if it ended so, as far as the gate
    /// admits it and it is of the part. Whether something was put in, or was there.
    pub(crate) fn put_in_by<T: Wait, G: Gate>(
        &mut self,
        rt: &T,
        alloc: Global,
        common: &Common<'_, G>,
        serial: u64,
        outcome: &Outcome,
    ) -> bool
        ensures part { self.new.part ≡ self.old.part }
        ensures put { PutsInBy (says (G.lets_in common.now.gate.now) (G.floors common.now.gate.now)) serial
            (arc_value self.old.part).own outcome.now self.old.seat.view self.new.seat.view }
        ensures news { result ≡ false → self.new.seat.view.entered ≡ self.old.seat.view.entered }
    {
        match outcome {
            Outcome::Ended { learned, .. } => {
                let left_out = self.settle(rt, alloc, common, serial, learned);
                left_out < learned.theirs().len()
            }
            _ => false,
        }
    }

    /// Runs a session with the partner on this connection over the items of the newest version that are meant, and puts
    /// what it learned of the partner, if it ended, into the log, as far as the gate admits it and it is of the part.
    pub(crate) fn call<T: Wait, G: PartGate, I: Read, O: Write>(
        &mut self,
        rt: &T,
        alloc: Global,
        shared: (&Common<'_, G>, &LinkGate<'_, G>),
        extent: Extent<'_>,
        connection: &mut Connection<I, O>,
    ) -> Result<Dialed, AllocError>
        requires fresh { (connection.old.reader.failed ≡ false) × (connection.old.reader.ended ≡ false)
            × (connection.old.writer.failed ≡ false) }
        ensures part { self.new.part ≡ self.old.part }
        ensures called { IfOk result (λ dialed. (between : View) × LookedOrNot self.old.seat.view between
            × Speaks two_lanes two_lane_profile ⊤
            (initiating two_lanes (peer_of (arc_value (arc_value self.old.part).accepted)
            (meant extent.entry.floor.now extent.entry.range.now (content between.base)))) (length between.base)
            (rank_by (arc_value (arc_value self.old.part).accepted).steps
            (length (meant extent.entry.floor.now extent.entry.range.now (content between.base))) + 2)
            (arc_value (arc_value self.old.part).accepted).table.limit
            (traffic (I.remaining connection.old.reader.inner) (I.remaining connection.new.reader.inner)
            (O.contents connection.old.writer.inner) (O.contents connection.new.writer.inner))
            (seen connection.new.reader.failed connection.new.reader.ended)
            (seen connection.new.writer.failed connection.new.writer.ended) dialed.outcome
            × PutsInFor
            (says (G.lets_in shared.entry.0.now.gate.now) (G.floors shared.entry.0.now.gate.now))
            (arc_value self.old.part).own dialed.outcome between self.new.seat.view) }
        ensures memory { OnErr result (LookedOrNot self.old.seat.view self.new.seat.view
            × (connection.new ≡ connection.old)) }
    {
        let outcome = self.dial(rt, alloc, shared, extent, connection)?;
        let (common, gate) = shared;
        // the gate was told of a session that ended, so its serial was noted; 0 is no session's
        let serial = gate.serial().unwrap_or(0);
        let has_put = self.put_in_by(rt, alloc, common, serial, &outcome);
        Ok(Dialed { outcome, has_put })
    }
}
