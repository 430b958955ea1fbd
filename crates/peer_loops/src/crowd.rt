//! What all loops share beside the parts.

ghost use Rattle.std.specs.Prelude.{◌≡◌, ◌≤◌, []};

use crate::board::{Board, Load};
use crate::chosen::Front;
use crate::looping::Kind;
use crate::note::Guest;
use hub_core::Origins;
use mio::{Poll, Waker};
use session_table::SourceFault;
use std::alloc::{AllocError, Global};
use std::net::Net;
use std::sync::atomic::{AtomicUsize, Ordering};
use std::sync::{Mutex, OnceLock, Wait};

/// What peers may cost.
#[derive(Clone, Copy, Debug, PartialEq, Eq)]
pub struct PeerLimits {
    /// How many peers there are at once, at most.
    pub peers: u32,
    /// For how many seconds a peer may be silent.
    pub patience: u32,
    /// For how many seconds a session may go on.
    pub session_seconds: u32,
    /// How many bytes are read of one peer.
    pub most_bytes: u32,
    /// How many bytes of memory are counted for all peers, at most.
    pub memory: u64,
    /// How many sessions there are at once, at most: as many as the table has places.
    pub sessions: usize,
    /// How many peers there are at once of one address, at most.
    pub peers_of_one: u32,
}

/// How peers are served.
#[derive(Clone, Copy)]
pub struct Service<'a> {
    /// How many loops accept, 1 to 16, and how many take those from them whose messages are long.
    pub loops: u8,
    /// What peers may cost.
    pub limits: PeerLimits,
    /// What is told of them, for those who watch.
    pub board: &'a Board,
    /// What peers have to say before their hello.
    pub front: Front<'a>,
}

/// Where peers wait for a loop, and how it is woken.
#[derive(Drop)]
pub(crate) struct Inlet {
    guests: Mutex<Vec<Guest>>,
    // Where the loop runs.
    waker: OnceLock<Waker>,
}

/// Says that the place of a session was given back. `Crowd::give_place_back` alone makes one.
#[derive(Clone, Copy, Debug, PartialEq, Eq)]
pub(crate) struct GivenBack {
    is_given: bool,
}

/// What all loops share beside the parts.
#[derive(Drop)]
pub(crate) struct Crowd<'a> {
    pub(crate) alloc: Global,
    /// What peers may cost.
    pub(crate) limits: PeerLimits,
    /// What is told of them.
    pub(crate) board: &'a Board,
    /// What peers have to say before their hello.
    pub(crate) front: Front<'a>,
    /// Of how many loops each kind has.
    pub(crate) loops: usize,
    inlets: Vec<Inlet>,
    // What loops wait with that do not run yet.
    polls: Mutex<Vec<Poll>>,
    // How many peers there are, and how many of each address.
    peers: AtomicUsize,
    origins: Mutex<Origins>,
    // How many more sessions may be opened.
    places: AtomicUsize,
    // How many loops that accept are not done.
    accepting: AtomicUsize,
    fault: OnceLock<SourceFault>,
}

/// What so many loops wait with, or as many as the system gives.
fn polls<R: Net>(rt: &R, alloc: Global, count: usize) -> Result<Vec<Poll>, AllocError> {
    let mut polls = Vec::with_capacity(alloc, count)?;
    for _ in 0..count {
        let Ok(poll) = Poll::new(rt) else {
            return Ok(polls);
        };
        polls.push(poll)?;
    }
    Ok(polls)
}

/// Takes all who wait.
fn take_all(guests: &mut Vec<Guest>, alloc: Global) -> Vec<Guest>
    ensures all { result.items ≡ guests.old.items }
    ensures none { guests.new.items ≡ [] }
{
    std::mem::replace(guests, Vec::new(alloc))
}

/// So many inlets.
fn inlets(alloc: Global, count: usize) -> Result<Vec<Inlet>, AllocError> {
    let mut inlets = Vec::with_capacity(alloc, count)?;
    for _ in 0..count {
        inlets.push(Inlet {
            guests: Mutex::new(Vec::new(alloc)),
            waker: OnceLock::new(),
        })?;
    }
    Ok(inlets)
}

impl<'a> Crowd<'a> {
    /// So many loops of each kind, of which none runs.
    pub(crate) fn new<R: Net>(
        rt: &R,
        alloc: Global,
        service: Service<'a>,
    ) -> Result<Crowd<'a>, AllocError> {
        let Service {
            loops,
            limits,
            board,
            front,
        } = service;
        let loops = usize::from(loops);
        let both_kinds = loops.saturating_mul(2);
        Ok(Crowd {
            alloc,
            limits,
            board,
            front,
            loops,
            inlets: inlets(alloc, both_kinds)?,
            polls: Mutex::new(polls(rt, alloc, both_kinds)?),
            peers: AtomicUsize::new(0),
            origins: Mutex::new(Origins::new(alloc)),
            places: AtomicUsize::new(limits.sessions),
            accepting: AtomicUsize::new(loops),
            fault: OnceLock::new(),
        })
    }

    /// What the loop of this number does: those that take peers from others come first.
    pub(crate) fn kind_of(&self, index: usize) -> Kind {
        if index < self.loops {
            return Kind::Takes;
        }
        Kind::Accepts
    }

    /// Whether one address may have one peer more, and it is counted; a peer without an address may always come. Where
    /// memory runs out it may not.
    fn enter<T: Wait>(&self, rt: &T, origin: Option<u128>) -> bool {
        let Some(origin) = origin else {
            return true;
        };
        let most = u64::from(self.limits.peers_of_one);
        matches!(self.origins.lock(rt).enter(origin, most), Ok(true))
    }

    /// Counts one peer more, of this address, if it may have one more. Whether it may.
    pub(crate) fn count_one_more<T: Wait>(&self, rt: &T, origin: Option<u128>) -> bool {
        if !self.enter(rt, origin) {
            return false;
        }
        let _ = self
            .peers
            .fetch_update(Ordering::SeqCst, Ordering::SeqCst, |count| {
                count.checked_add(1)
            });
        true
    }

    /// One peer is gone, of this address.
    pub(crate) fn count_one_less<T: Wait>(&self, rt: &T, origin: Option<u128>) {
        if let Some(origin) = origin {
            self.origins.lock(rt).one_less(origin);
        }
        let _ = self
            .peers
            .fetch_update(Ordering::SeqCst, Ordering::SeqCst, |count| {
                count.checked_sub(1)
            });
    }

    /// Whether there are more peers than there may be.
    pub(crate) fn is_crowded(&self) -> bool {
        self.peers.load(Ordering::SeqCst) > self.limits.peers as usize
    }

    /// The address that has most peers, if any has one.
    pub(crate) fn most_crowded<T: Wait>(&self, rt: &T) -> Option<u128> {
        self.origins.lock(rt).most()
    }

    /// What one loop more waits with, if the system gave enough.
    pub(crate) fn take_poll<T: Wait>(&self, rt: &T) -> Option<Poll> {
        self.polls.lock(rt).pop()
    }

    /// Takes a place for one session more, if there is one.
    pub(crate) fn take_place(&self) -> bool {
        self.places
            .fetch_update(Ordering::SeqCst, Ordering::SeqCst, |left| {
                left.checked_sub(1)
            })
            .is_ok()
    }

    /// Gives a place back.
    pub(crate) fn give_place_back(&self) -> GivenBack {
        let _ = self
            .places
            .fetch_update(Ordering::SeqCst, Ordering::SeqCst, |left| {
                left.checked_add(1)
            });
        GivenBack { is_given: true }
    }

    /// A loop that accepts is done. The last wakes those that take peers from others.
    pub(crate) fn leave(&self) {
        let _ = self
            .accepting
            .fetch_update(Ordering::SeqCst, Ordering::SeqCst, |left| {
                left.checked_sub(1)
            });
        if !self.is_accepting() {
            self.wake_all();
        }
    }

    /// Whether some loop that accepts is not done.
    pub(crate) fn is_accepting(&self) -> bool {
        self.accepting.load(Ordering::SeqCst) > 0
    }

    /// Wakes all loops that run.
    pub(crate) fn wake_all(&self) {
        for inlet in &self.inlets {
            if let Some(waker) = inlet.waker.get() {
                let _told = waker.wake();
            }
        }
    }

    /// The loop of this number runs, and is woken so.
    pub(crate) fn open_inlet<T: Wait>(&self, rt: &T, index: usize, waker: Waker) {
        if let Some(inlet) = self.inlets.get(index) {
            let _earlier = inlet.waker.set(rt, waker);
        }
    }

    /// What the loop of this number has, those among it who wait for it.
    fn load<T: Wait>(&self, rt: &T, index: usize) -> Load {
        let mut load = self.board.load(index);
        if let Some(inlet) = self.inlets.get(index) {
            let waiting = inlet.guests.lock(rt).len() as u64;
            load.peers = load.peers.saturating_add(waiting);
        }
        load
    }

    /// The number of the loop that takes over a peer whose messages are long: of those that run the one that counts the
    /// fewest bytes, and of these the one that has the fewest peers.
    pub(crate) fn taker<T: Wait>(&self, rt: &T) -> Option<usize> {
        let mut least: Option<(usize, Load)> = None;
        for index in 0..self.loops {
            if !self.has_inlet(index) {
                continue;
            }
            let load = self.load(rt, index);
            match least {
                Some((_, lightest)) if !load.is_lighter(lightest) => {}
                _ => least = Some((index, load)),
            }
        }
        least.map(|(index, _)| index)
    }

    /// Whether the loop of this number runs.
    fn has_inlet(&self, index: usize) -> bool {
        self.inlets
            .get(index)
            .is_some_and(|inlet| inlet.waker.get().is_some())
    }

    /// Hands a peer to the loop of this number. It comes back where that does not run, or where memory runs out.
    pub(crate) fn hand_over<T: Wait>(
        &self,
        rt: &T,
        index: usize,
        guest: Guest,
    ) -> Result<(), Guest> {
        let Some(inlet) = self.inlets.get(index) else {
            return Err(guest);
        };
        let Some(waker) = inlet.waker.get() else {
            return Err(guest);
        };
        let mut guests = inlet.guests.lock(rt);
        if guests.try_reserve(1).is_err() {
            return Err(guest);
        }
        guests.push_reserved(guest);
        drop(guests);
        let _told = waker.wake();
        Ok(())
    }

    /// Whether somebody waits for the loop of this number.
    pub(crate) fn has_guests<T: Wait>(&self, rt: &T, index: usize) -> bool {
        self.inlets
            .get(index)
            .is_some_and(|inlet| !inlet.guests.lock(rt).is_empty())
    }

    /// Takes all who wait for the loop of this number.
    pub(crate) fn guests<T: Wait>(&self, rt: &T, alloc: Global, index: usize) -> Vec<Guest> {
        match self.inlets.get(index) {
            Some(inlet) => take_all(&mut inlet.guests.lock(rt), alloc),
            None => Vec::new(alloc),
        }
    }

    /// The source failed so.
    pub(crate) fn fail<T: Wait>(&self, rt: &T, fault: SourceFault) {
        let _earlier = self.fault.set(rt, fault);
    }

    /// The source's first fault, if it had one.
    pub(crate) fn into_fault(self) -> Option<SourceFault> {
        self.fault.into_inner()
    }
}
