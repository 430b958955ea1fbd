//! How a loop lets a peer go.

ghost use Rattle.std.specs.Prelude.{◌≡◌, ◌↔◌, Some, None, IsSome, IfSome, IfNone, option_map};
ghost use Rattle.std.specs.Arc.{arc_value};
ghost use Rattle.slab.specs.Slab.{get};
ghost use Rattle.hub_core.specs.Hubs.{OthersStay};
ghost use Rattle.peer_loops.specs.Notes.{id_of};
ghost use Rattle.session_table.specs.declared.outcome.Outcome as outcomes;
ghost use Rattle.peer_threads.specs.Workers.{says};
ghost use Rattle.peer_loops.specs.Changes.{ChangesAt};
ghost use Rattle.peer_loops.specs.Fronts.{chosen_in, range_of, said_by};
ghost use Rattle.peer_loops.specs.Partings as partings;
ghost use Rattle.peer_loops.specs.Partings.{PutsInOf, Tells, shown_in};
ghost use Rattle.peer_loops.specs.ShardSpans.{place_for};

use crate::chosen::{Chosen, Front, Reader, Writer, part_of, tell_refusal};
use crate::crowd::GivenBack;
use crate::desks::{Desks, Over};
use crate::ending::{Parting, outcome_of};
use crate::looping::Loop;
use crate::note::Guest;
use crate::part_gate::PartGate;
use crate::site::Site;
use crate::visiting::{Leaver, profile_of, visit_of};
use ends_core::Learned;
use hub_core::{Peer, Phase};
use item_core::Range;
use peer_threads::{Outcome, kind_of};
use session_core::{LinkFault, State};
use session_table::SessionId;
use shard_core::Which;
use std::alloc::Global;
use std::sync::Wait;
use tcp_front::Half;

/// The number of the refusal where memory runs out.
const NO_MEMORY: u8 = 90;

/// Counts in the table what was said in the session, ends it there, and gives its place back.
fn close_session<R: Wait, G: PartGate>(
    site: &Site<'_, R, G>,
    id: SessionId,
    said: u32,
    outcome: &Outcome,
) -> GivenBack {
    let mut sessions = site.common.sessions.lock(site.rt);
    for _message in 0..said {
        let _counted = sessions.note_sent(id);
    }
    let _closed = sessions.close(id, kind_of(outcome));
    drop(sessions);
    site.crowd.give_place_back()
}

/// Ends the session in the table, gives its place back, and tells the gate how it ended. Where the session never came
/// into the table, nobody is told.
fn tell_end<R: Wait, G: PartGate>(
    site: &Site<'_, R, G>,
    over: &Over,
    outcome: &Outcome,
) -> Option<GivenBack>
    ensures { IsSome result ↔ IsSome over.now.id }
{
    let id = over.id?;
    let given = close_session(site, id, over.said, outcome);
    if let Some(which) = over.part {
        let part = site.crowd.front.told(which);
        site.common
            .gate
            .ended_in(id.serial(), part, &over.range, outcome);
    }
    Some(given)
}

/// The same, and then puts in what was learned. If something was put in, that is news.
fn conclude<R: Wait, G: PartGate>(
    site: &Site<'_, R, G>,
    desks: &mut Desks,
    over: &Over,
    outcome: &Outcome,
) -> Option<GivenBack>
    ensures given { IsSome result ↔ IsSome over.now.id }
    ensures put { ChangesAt (place_for desks.old.first over.now.part) desks.old.list.items desks.new.list.items
        (λ d e. (e.part ≡ d.part) × PutsInOf over.now.id
        (says (G.lets_in site.now.common.now.gate.now) (G.floors site.now.common.now.gate.now)) (arc_value d.part).own
        outcome.now d.seat.view e.seat.view) }
{
    let given = tell_end(site, over, outcome);
    if desks.put_in(site.rt, site.alloc, site.common, over, outcome) {
        site.common.news.tell(site.rt);
    }
    given
}

/// The part of which a peer speaks, if it has said so, and the range of its items.
fn meant_by(front: Front<'_>, reader: &Reader) -> (Option<Which>, Range)
    ensures which { result.0 ≡ option_map (λ c. c.0) (chosen_in (said_by front.entry reader.now.reader.came)) }
    ensures range { result.1 ≡ range_of (chosen_in (said_by front.entry reader.now.reader.came)) }
{
    match part_of(front, reader) {
        Some(Chosen { which, range }) => (Some(which), range),
        None => (None, Range::whole()),
    }
}

/// What the board is told of how a session over a part ended: one over the directory found none of the set's items.
pub(crate) fn shown(alloc: Global, which: Option<Which>, outcome: Outcome) -> Outcome
    ensures { result ≡ shown_in which outcome }
{
    let Some(Which::Directory) = which else {
        return outcome;
    };
    match outcome {
        Outcome::Ended { sent, version, .. } => Outcome::Ended {
            learned: Learned::nothing(alloc),
            sent,
            version,
        },
        other => other,
    }
}

/// Whether the peer may be told of a fault now: its session is not over, and no text of it is made and not written.
fn may_be_told(phase: &Phase) -> bool
    ensures { result ≡ partings.may_be_told phase.now }
{
    !phase.owes() && matches!(phase.state(), None | Some(State::Open))
}

/// The number of which the peer is told: where memory ran out, if it may be told now, and where it speaks of no set
/// that is here.
fn told_number(phase: &Phase, parting: Parting) -> Option<u8>
    ensures { result ≡ partings.told_number parting phase.now }
{
    match parting {
        Parting::Failed(LinkFault::Memory) if may_be_told(phase) => Some(NO_MEMORY),
        Parting::Refuses(code) => Some(code),
        _ => None,
    }
}

/// A peer whose session is over, before all is told of it.
#[derive(Drop)]
struct Gone {
    outcome: Outcome,
    leaver: Leaver,
    reader: Half,
    writer: Half,
    // How many bytes more are read of it at most.
    left: u64,
}

/// Takes a peer apart that is let go now, whose session was this, and tells it why, if it is to be told.
fn parted(peer: Peer<Reader, Writer>, over: &Over, parting: Parting, now: u64) -> Gone
    ensures { Tells parting peer.phase peer.version result.outcome }
{
    let left = peer.left();
    let version = peer.version();
    let arrived = peer.arrived();
    let (phase, reader, mut writer) = peer.into_parts();
    let reader = reader.into_reader().into_inner();
    if let Some(code) = told_number(&phase, parting) {
        tell_refusal(&phase, &mut writer, code);
    }
    let leaver = Leaver {
        address: reader.address(),
        profile: profile_of(&phase),
        serial: over.id.as_ref().map(|id| id.serial()),
        which: None,
        range: over.range,
        arrived,
        now,
    };
    let outcome = outcome_of(phase, version, parting);
    Gone {
        outcome,
        leaver,
        reader,
        writer: writer.into_writer(),
        left,
    }
}

impl Loop {
    /// Takes the peer of this key out of the hub, with its own session, if it is there.
    pub(crate) fn take_out(&mut self, key: usize) -> Option<Guest>
        ensures own { IfSome result (λ guest. (get self.old.hub.peers key ≡ Some guest.peer)
            × (guest.id ≡ id_of self.old.notes.list.items key)) }
        ensures none { IfNone result (get self.old.hub.peers key ≡ None) }
        ensures gone { get self.new.hub.peers key ≡ None }
        ensures others { OthersStay self.old.hub.peers self.new.hub.peers key }
    {
        let id = self.notes.id(key);
        let peer = self.hub.take(key)?;
        Some(Guest { peer, id })
    }

    /// Lets this peer go, if it is there.
    pub(crate) fn let_go<R: Wait, G: PartGate>(
        &mut self,
        site: &Site<'_, R, G>,
        desks: &mut Desks,
        key: usize,
        parting: Parting,
    )
        ensures gone { get self.new.hub.peers key ≡ None }
        ensures others { OthersStay self.old.hub.peers self.new.hub.peers key }
    {
        if let Some(guest) = self.take_out(key) {
            let _given = self.part_with(site, desks, guest, parting);
        }
    }

    /// Lets a peer go that is not in the hub. What it taught is put into the newest parts.
    pub(crate) fn part_with<R: Wait, G: PartGate>(
        &mut self,
        site: &Site<'_, R, G>,
        desks: &mut Desks,
        guest: Guest,
        parting: Parting,
    ) -> Option<GivenBack>
        ensures given { IsSome result ↔ IsSome guest.id }
        ensures hub { self.new.hub ≡ self.old.hub }
    {
        let Guest { peer, id } = guest;
        desks.follow(site.rt, site.alloc, site.common, site.seats);
        let (part, range) = meant_by(site.crowd.front, peer.reader());
        let over = Over {
            id,
            part,
            range,
            said: peer.sent(),
        };
        self.part(site, desks, peer, over, parting)
    }

    /// Lets a peer go that is not in the hub, and whose session was this. Its connection is read on for a while.
    fn part<R: Wait, G: PartGate>(
        &mut self,
        site: &Site<'_, R, G>,
        desks: &mut Desks,
        peer: Peer<Reader, Writer>,
        over: Over,
        parting: Parting,
    ) -> Option<GivenBack>
        ensures given { IsSome result ↔ IsSome over.id }
        ensures put { (o : outcomes.Outcome) × Tells parting peer.phase peer.version o
            × ChangesAt (place_for desks.old.first over.part) desks.old.list.items desks.new.list.items
            (λ d e. (e.part ≡ d.part) × PutsInOf over.id
            (says (G.lets_in site.now.common.now.gate.now) (G.floors site.now.common.now.gate.now))
            (arc_value d.part).own o d.seat.view e.seat.view) }
        ensures hub { self.new.hub ≡ self.old.hub }
    {
        site.crowd.count_one_less(site.rt, peer.origin());
        let gone = parted(peer, &over, parting, self.now);
        let given = conclude(site, desks, &over, &gone.outcome);
        let front = site.crowd.front;
        let leaver = Leaver {
            which: over.part.and_then(|which| front.told(which)),
            ..gone.leaver
        };
        let gone = Gone {
            outcome: shown(site.alloc, over.part, gone.outcome),
            leaver,
            ..gone
        };
        self.see_off(site, gone);
        given
    }

    /// Tells the board of a peer that is gone, and reads its connection on for a while.
    fn see_off<R: Wait, G>(&mut self, site: &Site<'_, R, G>, gone: Gone)
        ensures { self.new.hub ≡ self.old.hub }
    {
        let Gone {
            outcome,
            leaver,
            reader,
            writer,
            left,
        } = gone;
        let visit = visit_of(leaver, &outcome, &reader, &writer);
        site.crowd.board.tell(site.rt, visit);
        self.leavers
            .add(self.poll.registry(), (reader, writer), left, self.now);
    }
}
