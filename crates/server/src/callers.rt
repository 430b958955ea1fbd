//! All who ask by HTTP at one place: the system tells when a connection may go on, and none is waited for.

use crate::caller::{Caller, CallerStep, Place};
use loading::millis_of;
use mio::unix::SourceFd;
use mio::{Events, Interest, Poll, Token};
use peer_loops::Origins;
use slab::Slab;
use std::alloc::{AllocError, Global};
use std::io;
use std::net::Net;
use std::os::fd::AsRawFd;
use std::time::{Clock, Duration};
use tcp_front::{Arrival, Half, Listener};

/// How many connections are taken in a row.
const IN_A_ROW: usize = 64;

/// For how many milliseconds it is waited where a wait fails.
const PAUSE: u64 = 100;

/// The token of the listener. A caller's is its key, which is less.
const LISTENER: Token = Token(usize::MAX);

/// The first of the keys so far that was heard longest ago, where one more was heard then.
fn earlier(first: Option<(usize, u64)>, key: usize, heard: u64) -> Option<(usize, u64)> {
    match first {
        Some((_, least)) if least <= heard => first,
        _ => Some((key, heard)),
    }
}

/// All who ask at one place.
#[derive(Drop)]
pub struct Callers {
    poll: Poll,
    place: Place,
    /// How many may ask at once. For a further one another makes room.
    most: usize,
    all: Slab<Caller>,
    /// The time, in milliseconds of the steady clock.
    now: u64,
}

impl Callers {
    /// Nobody so far. The system tells when somebody comes to the listener.
    pub fn new<R: Net>(
        rt: &R,
        alloc: Global,
        listener: &Listener<'_, R>,
        place: Place,
        most: usize,
    ) -> io::Result<Callers> {
        let poll = Poll::new(rt)?;
        listener.never_wait()?;
        let fd = listener.as_raw_fd();
        poll.registry()
            .register(&mut SourceFd(&fd), LISTENER, Interest::READABLE)?;
        Ok(Callers {
            poll,
            place,
            most,
            all: Slab::new(alloc),
            now: 0,
        })
    }

    /// How many may ask at once.
    pub fn most(&self) -> usize {
        self.most
    }

    /// The time, in milliseconds of the steady clock.
    pub fn now(&self) -> u64 {
        self.now
    }

    /// The caller of this key, if it is there.
    pub fn get(&self, key: usize) -> Option<&Caller> {
        self.all.get(key)
    }

    /// Waits until something is ready, or so many milliseconds are over, unless something is ready, and reads the
    /// clock.
    pub fn wait<R: Clock>(&mut self, rt: &R, events: &mut Events, is_more: bool, millis: u64) {
        let is_ready = is_more || self.all.iter().any(|(_key, caller)| caller.is_ready());
        let wait = Duration::from_millis(if is_ready { 0 } else { millis });
        if self.poll.poll(events, Some(wait)).is_err() {
            rt.sleep(Duration::from_millis(PAUSE));
        }
        if let Ok(moment) = rt.monotonic() {
            self.now = millis_of(moment);
        }
    }

    /// Those of these events may go on.
    pub fn wake(&mut self, events: &Events) {
        for event in events {
            let Token(key) = event.token();
            if let Some(caller) = self.all.get_mut(key) {
                caller.wake();
            }
        }
    }

    /// The address from which most ask, if any has one.
    fn most_crowded(&self, alloc: Global) -> Option<u128> {
        let mut origins = Origins::new(alloc);
        for (_key, caller) in self.all.iter() {
            if let Some(origin) = caller.origin() {
                origins.one_more(origin).ok()?;
            }
        }
        origins.most()
    }

    /// Who makes room: of the address from which most ask the one that has been silent for longest.
    fn next_to_go(&self, alloc: Global) -> Option<usize> {
        let crowded = self.most_crowded(alloc);
        let mut first = None;
        for (key, caller) in self.all.iter() {
            if crowded.is_none() || caller.origin() == crowded {
                first = earlier(first, key, caller.heard());
            }
        }
        let (key, _) = first?;
        Some(key)
    }

    /// Closes the connection that makes room, if all places are taken. Whether one is free.
    fn has_room(&mut self, alloc: Global) -> bool {
        if self.all.len() < self.most {
            return true;
        }
        let Some(key) = self.next_to_go(alloc) else {
            return false;
        };
        self.all.try_remove(key).is_some()
    }

    /// Takes in a connection. Where all places are taken, another makes room.
    fn admit(&mut self, alloc: Global, connection: (Half, Half)) {
        if !self.has_room(alloc) {
            return;
        }
        let caller = Caller::new(alloc, self.place, connection, self.now);
        let fd = caller.as_raw_fd();
        let token = Token(self.all.vacant_key());
        let both = Interest::READABLE | Interest::WRITABLE;
        let registry = self.poll.registry();
        if registry.register(&mut SourceFd(&fd), token, both).is_ok() {
            let _key = self.all.insert(caller);
        }
    }

    /// Takes in those who have come. Whether more may be there.
    pub fn accept_all<R>(&mut self, alloc: Global, listener: &Listener<'_, R>) -> bool {
        for _ in 0..IN_A_ROW {
            match listener.arrival() {
                Ok(Arrival::Came(reader, writer)) => self.admit(alloc, (reader, writer)),
                Ok(Arrival::Gone) => {}
                _ => return false,
            }
        }
        true
    }

    /// Goes on with the caller of this key, if it is there and may go on. How that left off.
    pub fn go_on(&mut self, key: usize) -> CallerStep {
        let Some(caller) = self.all.get_mut(key) else {
            return CallerStep::Gone;
        };
        if !caller.is_ready() {
            return CallerStep::Waits;
        }
        let step = caller.go_on(self.now);
        if step == CallerStep::Gone {
            let _closed = self.all.try_remove(key);
        }
        step
    }

    /// The caller of this key hears this answer, or this part of it; without one its connection is closed. How that
    /// left off.
    pub fn answer(
        &mut self,
        key: usize,
        answer: Result<Vec<u8>, AllocError>,
        is_last: bool,
    ) -> CallerStep {
        let Ok(answer) = answer else {
            let _closed = self.all.try_remove(key);
            return CallerStep::Gone;
        };
        if let Some(caller) = self.all.get_mut(key) {
            caller.answer(answer, is_last);
        }
        self.go_on(key)
    }

    /// The caller of this key hears this part of its answer when it goes on; without one its connection is closed.
    pub fn give(&mut self, key: usize, part: Result<Vec<u8>, AllocError>, is_last: bool) {
        let Ok(part) = part else {
            let _closed = self.all.try_remove(key);
            return;
        };
        if let Some(caller) = self.all.get_mut(key) {
            caller.answer(part, is_last);
        }
    }

    /// The caller of this key is kept until then, though nothing comes.
    pub fn keep_until(&mut self, key: usize, until: u64) {
        if let Some(caller) = self.all.get_mut(key) {
            caller.keep_until(until);
        }
    }

    /// Closes those whose time is over.
    pub fn close_late(&mut self) {
        let now = self.now;
        self.all.retain(|_key, caller| !caller.is_late(now));
    }
}
