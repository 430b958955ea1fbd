//! One peer's session, from its first message to its end.

ghost use Rattle.std.specs.Prelude.{◌≡◌, ◌<◌, ◌≤◌, ◌⊎◌, IfSome, IfNone, IsSome};
ghost use Rattle.session_table.specs.Faults.{opening_fault};
ghost use Rattle.session_table.specs.Tables.{Opened};
ghost use Rattle.hub_core.specs.Hubs.{held_by};
ghost use Rattle.hub_core.specs.Peers.{bound_in, sent_in};

use crate::chosen::{Reader, Writer, refusal_of};
use crate::desks::Desks;
use crate::ending::Parting;
use crate::looping::{Kind, Loop};
use crate::part_gate::PartGate;
use crate::site::Site;
use hub_core::Peer;
use mio::unix::SourceFd;
use session_core::{LinkFault, Pause, Pumped};
use session_table::{SessionId, SessionTable};
use std::os::fd::AsRawFd;
use std::sync::Wait;

/// What a peer waits for that is listed.
#[derive(Clone, Copy, Debug, PartialEq, Eq)]
pub(crate) enum Until {
    /// Nothing: it is its turn again soon.
    Soon,
    /// A place for its session.
    Place,
}

/// Opens the session of this peer in the table, if its first message was answered.
fn open_in(sessions: &mut SessionTable, peer: &Peer<Reader, Writer>) -> Option<SessionId>
    ensures opened { IfSome result (λ id. (0 < sent_in peer.now.phase)
        × Opened sessions.old sessions.new id (bound_in peer.now.phase)) }
    ensures none { IfNone result ((sessions.new ≡ sessions.old)
        × ((sent_in peer.now.phase ≡ 0) ⊎ IsSome (opening_fault sessions.old))) }
{
    if peer.sent() == 0 {
        return None;
    }
    sessions.open(peer.phase().bound()).ok()
}

impl Loop {
    /// Goes on with this peer, as far as its stream goes without waiting; then lets those go that keep more than all
    /// may. One that speaks of no set that is here is let go.
    pub(crate) fn go_on<R: Wait, G: PartGate>(
        &mut self,
        site: &Site<'_, R, G>,
        desks: &mut Desks,
        key: usize,
    )
        ensures { held_by self.new.hub.peers ≤ self.new.hub.limits.memory }
    {
        let did = self.hub.pump(site.alloc, key, &mut self.room, self.now);
        match self.refusal(site, desks, key) {
            Some(code) => self.let_go(site, desks, key, Parting::Refuses(code)),
            None => self.act(site, desks, key, did),
        }
        self.keep_within(site, desks);
    }

    /// Whether the first message of this peer was answered, and its session is not in the table: it was opened before
    /// that message was whole.
    fn is_unentered(&self, key: usize) -> bool {
        let Some(peer) = self.hub.get(key) else {
            return false;
        };
        peer.sent() > 0 && self.notes.id(key).is_none()
    }

    /// Enters such a session now, if the table has a place for it. Whether none is left out.
    fn enter_late<R: Wait, G>(&mut self, site: &Site<'_, R, G>, key: usize) -> bool {
        if !self.is_unentered(key) {
            return true;
        }
        let has_place = site.crowd.take_place();
        if has_place {
            self.enter(site, key);
        }
        has_place
    }

    /// Goes on with this peer after a step of it, or lets it go where that failed.
    fn act<R: Wait, G: PartGate>(
        &mut self,
        site: &Site<'_, R, G>,
        desks: &mut Desks,
        key: usize,
        did: Option<Result<Pumped, LinkFault>>,
    ) {
        let is_entered = self.enter_late(site, key);
        match did {
            Some(Ok(step)) if is_entered => self.follow(site, desks, key, step.pause),
            Some(Ok(_step)) => self.list(site, desks, key, Until::Place),
            Some(Err(fault)) => self.let_go(site, desks, key, Parting::Failed(fault)),
            None => {}
        }
    }

    /// Does what a step of this peer asks for.
    fn follow<R: Wait, G: PartGate>(
        &mut self,
        site: &Site<'_, R, G>,
        desks: &mut Desks,
        key: usize,
        pause: Pause,
    ) {
        match pause {
            Pause::Opens => self.open(site, desks, key),
            Pause::Over => self.let_go(site, desks, key, Parting::Over),
            Pause::More | Pause::Waits => match self.taker(site, key) {
                Some(index) => self.hand_over(site, desks, key, index),
                None if pause == Pause::More => self.list(site, desks, key, Until::Soon),
                None => {}
            },
        }
    }

    /// The number of the loop that is to go on with this peer, if its messages are long and such a loop runs. Else this
    /// loop goes on with it as with any other.
    fn taker<R: Wait, G>(&self, site: &Site<'_, R, G>, key: usize) -> Option<usize> {
        if self.kind != Kind::Accepts || !self.hub.get(key)?.is_long() {
            return None;
        }
        site.crowd.taker(site.rt)
    }

    /// Lists this peer, with whom it goes on then. Where memory runs out, the peer is let go.
    fn list<R: Wait, G: PartGate>(
        &mut self,
        site: &Site<'_, R, G>,
        desks: &mut Desks,
        key: usize,
        until: Until,
    ) {
        if self.notes.set_listed(key, true) {
            return;
        }
        let listed = match until {
            Until::Soon => self.soon.push(key),
            Until::Place => self.waiting.push(key),
        };
        if listed.is_err() {
            self.let_go(site, desks, key, Parting::Failed(LinkFault::Memory));
        }
    }

    /// The number of the refusal of this peer, if it speaks of no set that is here.
    fn refusal<R, G>(&self, site: &Site<'_, R, G>, desks: &Desks, key: usize) -> Option<u8> {
        refusal_of(site.crowd.front, desks, self.hub.get(key)?)
    }

    /// Opens the session of this peer, if the table has a place for it; else the peer waits.
    fn open<R: Wait, G: PartGate>(&mut self, site: &Site<'_, R, G>, desks: &mut Desks, key: usize) {
        if !site.crowd.take_place() {
            self.list(site, desks, key, Until::Place);
            return;
        }
        let opened = self.open_session(site, desks, key);
        self.enter(site, key);
        match opened {
            Ok(()) => self.list(site, desks, key, Until::Soon),
            Err(parting) => self.let_go(site, desks, key, parting),
        }
    }

    /// Enters the session of this peer into the table, if its first message was answered; else its place is given back.
    fn enter<R: Wait, G>(&mut self, site: &Site<'_, R, G>, key: usize) {
        match self.entered(site, key) {
            Some(id) => self.notes.book(key, id),
            None => {
                let _given = site.crowd.give_place_back();
            }
        }
    }

    /// The session of this peer in the table, where it is now, if its first message was answered.
    fn entered<R: Wait, G>(&self, site: &Site<'_, R, G>, key: usize) -> Option<SessionId> {
        let peer = self.hub.get(key)?;
        open_in(&mut site.common.sessions.lock(site.rt), peer)
    }

    /// Hands this peer to the loop of this number, for those whose messages are long.
    fn hand_over<R: Wait, G: PartGate>(
        &mut self,
        site: &Site<'_, R, G>,
        desks: &mut Desks,
        key: usize,
        index: usize,
    ) {
        let Some(guest) = self.take_out(key) else {
            return;
        };
        let fd = guest.peer.reader().reader().inner().as_raw_fd();
        let _gone = self.poll.registry().deregister(&mut SourceFd(&fd));
        if let Err(guest) = site.crowd.hand_over(site.rt, index, guest) {
            let _given = self.part_with(site, desks, guest, Parting::Failed(LinkFault::Memory));
        }
    }

    /// Lets the peers go of which most is kept, until all keep no more than they may.
    fn keep_within<R: Wait, G: PartGate>(&mut self, site: &Site<'_, R, G>, desks: &mut Desks)
        ensures { held_by self.new.hub.peers ≤ self.new.hub.limits.memory }
    {
        for _peer in 0..self.hub.len() {
            let Some(key) = self.hub.over_budget() else {
                return;
            };
            self.let_go(site, desks, key, Parting::Failed(LinkFault::Memory));
        }
    }
}
