//! Peers who come to a loop: connections that it accepts, and peers that another loop hands over.

ghost use Rattle.std.specs.Prelude.{◌≡◌, true};
ghost use Rattle.hub_core.specs.Peers.{IsFresh};
ghost use Rattle.peer_loops.specs.Notes.{id_of};

use crate::chosen::{Reader, Writer, reader_of};
use crate::crowd::PeerLimits;
use crate::desks::Desks;
use crate::ending::Parting;
use crate::looping::{Kind, Loop, PAUSE};
use crate::note::Guest;
use crate::part_gate::PartGate;
use crate::site::Site;
use compact_core::Packing;
use hub_core::Peer;
use mio::unix::SourceFd;
use mio::{Interest, Token};
use session_core::LinkFault;
use session_table::{SessionId, SourceFault};
use std::alloc::Global;
use std::os::fd::{AsRawFd, RawFd};
use std::sync::Wait;
use tcp_front::{Arrival, Half};

/// How often in a row it is tried again while there is no descriptor for one more: for ten minutes.
const MOST_MISSES: u32 = 60_000;

/// For how many milliseconds a peer has to be silent that goes because there is no descriptor for another: the system
/// may say so though nobody waits.
const SILENT: u64 = 100;

/// How the accepting left off.
#[derive(Clone, Copy, Debug, PartialEq, Eq)]
pub(crate) enum Accepting {
    /// Nobody is there.
    Waits,
    /// Somebody may be there.
    More,
    /// There was no descriptor, or no memory, for one more. It is tried again from this time on, in milliseconds.
    NoRoom {
        /// The time.
        until: u64,
    },
    /// Nobody will come.
    Done,
}

impl Accepting {
    /// As a loop of this kind begins.
    pub(crate) fn of(kind: Kind) -> Accepting {
        match kind {
            Kind::Accepts => Accepting::More,
            Kind::Takes => Accepting::Done,
        }
    }

    /// Somebody may be there. Where there was no room the next try is as far off as before: whoever comes makes none.
    pub(crate) fn again(self) -> Accepting {
        match self {
            Accepting::Waits | Accepting::More => Accepting::More,
            Accepting::NoRoom { .. } | Accepting::Done => self,
        }
    }

    /// Whether a connection is accepted at this time, if one is there.
    fn tries(self, now: u64) -> bool {
        match self {
            Accepting::More => true,
            Accepting::NoRoom { until } => until <= now,
            Accepting::Waits | Accepting::Done => false,
        }
    }

    /// Whether it waits for room.
    pub(crate) fn has_no_room(self) -> bool {
        match self {
            Accepting::NoRoom { .. } => true,
            Accepting::Waits | Accepting::More | Accepting::Done => false,
        }
    }
}

/// A peer that has just come, and of which no more bytes are read than the limits say.
fn peer_of(
    alloc: Global,
    limits: &PeerLimits,
    reader: Reader,
    writer: Writer,
    serial: u64,
    now: u64,
) -> Peer<Reader, Writer>
    ensures { IsFresh reader writer limits.now.most_bytes serial now result }
{
    Peer::new(
        alloc,
        reader,
        writer,
        u64::from(limits.most_bytes),
        serial,
        now,
    )
}

impl Loop {
    /// Takes in whoever has come: those who connect, or those whom other loops hand over.
    pub(crate) fn take_in<R: Wait, G: PartGate>(
        &mut self,
        site: &Site<'_, R, G>,
        desks: &mut Desks,
    ) {
        match self.kind {
            Kind::Accepts => self.accept_once(site, desks),
            Kind::Takes => self.take_guests(site, desks),
        }
    }

    /// Accepts one connection, if somebody may be there: so it is served before this loop takes another, and the other
    /// loops, which were woken too, take those. Where nobody will come, they are told.
    fn accept_once<R: Wait, G: PartGate>(&mut self, site: &Site<'_, R, G>, desks: &mut Desks) {
        if !self.accepting.tries(self.now) {
            return;
        }
        self.accepting = self.accept_next(site, desks);
        if self.accepting == Accepting::Done {
            site.crowd.wake_all();
        }
    }

    /// Accepts one connection, if somebody is there; how the accepting goes on.
    fn accept_next<R: Wait, G: PartGate>(
        &mut self,
        site: &Site<'_, R, G>,
        desks: &mut Desks,
    ) -> Accepting {
        match site.listener.arrival() {
            Ok(arrival) => self.accept(site, desks, arrival),
            Err(fault) => {
                site.crowd.fail(site.rt, fault);
                Accepting::Done
            }
        }
    }

    /// Takes in a connection, if one came; how the accepting goes on.
    fn accept<R: Wait, G: PartGate>(
        &mut self,
        site: &Site<'_, R, G>,
        desks: &mut Desks,
        arrival: Arrival,
    ) -> Accepting {
        match arrival {
            Arrival::Came(reader, writer) => {
                self.misses = 0;
                self.admit_new(site, desks, reader, writer);
                Accepting::More
            }
            Arrival::Gone => Accepting::More,
            Arrival::Nobody => {
                // the system looks for a descriptor before it looks for somebody
                self.misses = 0;
                Accepting::Waits
            }
            Arrival::NoMore => Accepting::Done,
            Arrival::NoRoom => self.miss(site, desks),
        }
    }

    /// Makes room where there is no descriptor for one more. After so many times in a row the source has failed.
    fn miss<R: Wait, G: PartGate>(
        &mut self,
        site: &Site<'_, R, G>,
        desks: &mut Desks,
    ) -> Accepting {
        self.misses = self.misses.saturating_add(1);
        if self.misses > MOST_MISSES {
            site.crowd.fail(site.rt, SourceFault::Accept);
            return Accepting::Done;
        }
        if self.leavers.is_empty() {
            self.make_room(site, desks, SILENT);
        }
        self.leavers.close_all();
        Accepting::NoRoom {
            until: self.now.saturating_add(PAUSE),
        }
    }

    /// Who makes room: of the address that has most peers the one of this loop that has been silent for longest; where
    /// this loop has none of that address, of all that it has.
    fn next_to_go<R: Wait, G>(&self, site: &Site<'_, R, G>) -> Option<usize> {
        let crowded = site.crowd.most_crowded(site.rt);
        match self.most_silent_of(crowded) {
            Some(key) => Some(key),
            None => self.hub.most_silent(),
        }
    }

    /// The peer of this loop, and of this address, that has been silent for longest.
    fn most_silent_of(&self, origin: Option<u128>) -> Option<usize> {
        self.hub.most_silent_of(origin?)
    }

    /// Lets a peer go that makes room, if it has been silent for so many milliseconds.
    fn make_room<R: Wait, G: PartGate>(
        &mut self,
        site: &Site<'_, R, G>,
        desks: &mut Desks,
        silent: u64,
    ) {
        let Some(key) = self.next_to_go(site) else {
            return;
        };
        let heard = self.hub.get(key).map_or(self.now, |peer| peer.heard());
        if self.now.saturating_sub(heard) >= silent {
            self.let_go(site, desks, key, Parting::TimeIsOver);
        }
    }

    /// Counts one peer more, of this address. Where it has as many as it may have, the one of this loop that has been
    /// silent for longest makes room. Whether there is room.
    fn count_in<R: Wait, G: PartGate>(
        &mut self,
        site: &Site<'_, R, G>,
        desks: &mut Desks,
        origin: Option<u128>,
    ) -> bool {
        if site.crowd.count_one_more(site.rt, origin) {
            return true;
        }
        let Some(key) = self.most_silent_of(origin) else {
            return false;
        };
        self.let_go(site, desks, key, Parting::TimeIsOver);
        site.crowd.count_one_more(site.rt, origin)
    }

    /// Takes in a connection that has just come. Where its address has as many peers as it may have, and this loop has
    /// none of them, it is closed. Where all places are taken, a peer of this loop makes room; one more comes in where
    /// this loop has none.
    fn admit_new<R: Wait, G: PartGate>(
        &mut self,
        site: &Site<'_, R, G>,
        desks: &mut Desks,
        reader: Half,
        writer: Half,
    ) {
        let origin = reader.origin();
        if !self.count_in(site, desks, origin) {
            return;
        }
        if site.crowd.is_crowded() {
            self.make_room(site, desks, 0);
        }
        let serial = self.serial;
        self.serial = serial.saturating_add(1);
        let reader = reader_of(site.alloc, site.crowd.front, reader);
        let writer = Packing::new(site.alloc, writer);
        let limits = &site.crowd.limits;
        let peer = peer_of(site.alloc, limits, reader, writer, serial, self.now);
        let peer = peer.from_origin(origin);
        self.admit(site, desks, Guest { peer, id: None });
    }

    /// Takes in all whom other loops hand over.
    fn take_guests<R: Wait, G: PartGate>(&mut self, site: &Site<'_, R, G>, desks: &mut Desks) {
        for guest in site.crowd.guests(site.rt, site.alloc, self.index) {
            self.admit(site, desks, guest);
        }
    }

    /// Notes the session of the peer that is to have this key, and registers its connection. Whether it could.
    fn register(&mut self, key: usize, fd: RawFd, id: Option<SessionId>) -> bool
        ensures { result ≡ true → id_of self.new.notes.list.items key ≡ id }
    {
        if self.notes.add(key, id).is_err() {
            return false;
        }
        let both = Interest::READABLE | Interest::WRITABLE;
        self.poll
            .registry()
            .register(&mut SourceFd(&fd), Token(key), both)
            .is_ok()
    }

    /// Takes in a peer.
    fn admit<R: Wait, G: PartGate>(
        &mut self,
        site: &Site<'_, R, G>,
        desks: &mut Desks,
        guest: Guest,
    ) {
        let no_memory = Parting::Failed(LinkFault::Memory);
        let key = self.hub.next_key();
        let fd = guest.peer.reader().reader().inner().as_raw_fd();
        if !self.register(key, fd, guest.id) {
            let _given = self.part_with(site, desks, guest, no_memory);
            return;
        }
        let Guest { peer, id } = guest;
        match self.hub.admit(peer) {
            // the system reports at once that it can be written to
            Ok(_key) => {}
            Err(peer) => {
                let _given = self.part_with(site, desks, Guest { peer, id }, no_memory);
            }
        }
    }
}
