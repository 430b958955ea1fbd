//! One loop: it waits until streams are ready, and goes on with those.

ghost use Rattle.std.specs.Prelude.{◌≡◌, ◌*◌, ◌-◌, ◌/◌, ◌^◌, max, min};

use crate::arriving::Accepting;
use crate::chosen::{Reader, Writer};
use crate::crowd::PeerLimits;
use crate::desks::Desks;
use crate::ending::Parting;
use crate::leaving::Leavers;
use crate::note::Notes;
use crate::part_gate::PartGate;
use crate::site::Site;
use hub_core::{Hub, HubLimits};
use item_core::Range;
use mio::unix::SourceFd;
use mio::{Events, Interest, Poll, Token, Waker};
use peer_threads::Gate;
use std::io;
use std::os::fd::{AsRawFd, RawFd};
use std::sync::Wait;
use std::time::{Clock, Duration};

/// The token of the listener, and that of the waker.
pub(crate) const LISTENER: Token = Token(usize::MAX);

pub(crate) const WAKER: Token = Token(usize::MAX - 1);

/// How many events are taken at once.
const EVENTS: usize = 1_024;

/// How many milliseconds a loop waits at most, and while something is to be tried again.
const TICK: u64 = 250;

pub(crate) const PAUSE: u64 = 10;

/// How many bytes are read at a time.
const ROOM: usize = 16_384;

/// How many peers are let go in a row whose time is over.
const IN_A_ROW: usize = 256;

/// What a loop does: it accepts, or it takes those from others whose messages are long.
#[derive(Clone, Copy, Debug, PartialEq, Eq)]
pub(crate) enum Kind {
    /// It accepts.
    Accepts,
    /// It takes peers from others.
    Takes,
}

/// One loop.
#[derive(Drop)]
pub(crate) struct Loop {
    pub(crate) poll: Poll,
    pub(crate) kind: Kind,
    /// Its number among all loops.
    pub(crate) index: usize,
    pub(crate) hub: Hub<Reader, Writer>,
    pub(crate) notes: Notes,
    /// Those with whom it goes on without waiting.
    pub(crate) soon: Vec<usize>,
    /// Those who wait for a place in the table of sessions.
    pub(crate) waiting: Vec<usize>,
    pub(crate) leavers: Leavers,
    pub(crate) accepting: Accepting,
    /// How often in a row there was no descriptor for one more.
    pub(crate) misses: u32,
    /// The number of the next peer.
    pub(crate) serial: u64,
    /// The time, in milliseconds from some fixed moment.
    pub(crate) now: u64,
    /// What is read goes here first.
    pub(crate) room: [u8; ROOM],
    /// When it last looked for those whose time is over.
    swept: u64,
    /// The range that was kept when it last looked how much is forgotten.
    kept: Range,
}

/// A number of seconds, in milliseconds.
fn milliseconds(seconds: u32) -> u64
    ensures { result ≡ seconds * 1000 }
{
    u64::from(seconds) * 1_000
}

/// The limits of one loop, of which there are so many of each kind: its part of the memory that all peers may take, and
/// the others as they are.
fn limits_of(limits: &PeerLimits, loops: usize) -> HubLimits
    ensures memory { result.memory ≡ limits.now.memory / max 1 (min (loops * 2) (2 ^ 64 - 1)) }
    ensures patience { result.patience ≡ limits.now.patience * 1000 }
    ensures session { result.session ≡ limits.now.session_seconds * 1000 }
{
    let loops = (loops as u64).saturating_mul(2).max(1);
    HubLimits {
        memory: limits.memory / loops,
        patience: milliseconds(limits.patience),
        session: milliseconds(limits.session_seconds),
    }
}

/// Has a loop woken where somebody is there at this descriptor of the listener. None where the system does not.
fn attend_to(poll: &Poll, fd: RawFd) -> Option<()> {
    poll.registry()
        .register(&mut SourceFd(&fd), LISTENER, Interest::READABLE)
        .ok()
}

impl Loop {
    /// The loop of this number, without peers. The others can wake it, and hand peers to it. None where the system does
    /// not give what it waits with.
    pub(crate) fn new<R: Wait, G>(site: &Site<'_, R, G>, index: usize) -> Option<Loop> {
        let kind = site.crowd.kind_of(index);
        let poll = site.crowd.take_poll(site.rt)?;
        let waker = Waker::new(poll.registry(), WAKER).ok()?;
        if kind == Kind::Accepts {
            attend_to(&poll, site.listener.as_raw_fd())?;
            if let Some(second) = site.listener.second_fd() {
                attend_to(&poll, second)?;
            }
        }
        site.crowd.open_inlet(site.rt, index, waker);
        Some(Loop {
            poll,
            kind,
            index,
            hub: Hub::new(site.alloc, limits_of(&site.crowd.limits, site.crowd.loops)),
            notes: Notes::new(site.alloc),
            soon: Vec::new(site.alloc),
            waiting: Vec::new(site.alloc),
            leavers: Leavers::new(site.alloc),
            accepting: Accepting::of(kind),
            misses: 0,
            serial: 1,
            now: 0,
            room: [0u8; ROOM],
            swept: 0,
            kept: Range::whole(),
        })
    }

    /// How many milliseconds it may wait.
    fn wait(&self) -> u64 {
        if !self.soon.is_empty() || self.accepting == Accepting::More {
            return 0;
        }
        if !self.waiting.is_empty() || !self.leavers.is_empty() || self.accepting.has_no_room() {
            return PAUSE;
        }
        TICK
    }

    /// Whether all is done: nobody is there, and nobody will come.
    fn is_done<R: Wait, G>(&self, site: &Site<'_, R, G>) -> bool {
        let may_come = match self.kind {
            Kind::Accepts => self.accepting != Accepting::Done,
            // Whoever is handed over is there before the last loop that accepts is done.
            Kind::Takes => {
                site.crowd.is_accepting() || site.crowd.has_guests(site.rt, self.index)
            }
        };
        !may_come && self.hub.len() == 0 && self.leavers.is_empty()
    }

    /// Goes on with those who were listed.
    fn go_on_with<R: Wait, G: PartGate>(
        &mut self,
        site: &Site<'_, R, G>,
        desks: &mut Desks,
        listed: Vec<usize>,
    ) {
        for key in listed {
            self.notes.set_listed(key, false);
            self.go_on(site, desks, key);
        }
    }

    /// Lets those go whose time is over.
    fn sweep<R: Wait, G: PartGate>(&mut self, site: &Site<'_, R, G>, desks: &mut Desks) {
        self.leavers.close_late(self.now);
        if self.now.saturating_sub(self.swept) < TICK {
            return;
        }
        self.swept = self.now;
        for _late in 0..IN_A_ROW {
            let Some(key) = self.hub.late(self.now) else {
                return;
            };
            self.let_go(site, desks, key, Parting::TimeIsOver);
        }
    }

    /// Goes on with whoever is ready.
    fn meet<R: Wait, G: PartGate>(
        &mut self,
        site: &Site<'_, R, G>,
        desks: &mut Desks,
        token: Token,
    ) {
        if token == LISTENER || token == WAKER {
            self.accepting = self.accepting.again();
        } else if !self
            .leavers
            .read_on(self.poll.registry(), token, &mut self.room)
        {
            self.go_on(site, desks, token.0);
        }
    }

    /// Takes in nobody more, where the server is to stop, and lets those go who are there for too long after that.
    fn stop<R: Wait, G: PartGate>(&mut self, site: &Site<'_, R, G>, desks: &mut Desks) {
        if !site.crowd.board.is_stopping() {
            return;
        }
        if self.accepting != Accepting::Done {
            self.accepting = Accepting::Done;
            site.crowd.wake_all();
        }
        if !site.crowd.board.lets_go(self.now) {
            return;
        }
        self.leavers.close_all();
        for _late in 0..IN_A_ROW {
            let Some(key) = self.hub.most_silent() else {
                return;
            };
            self.let_go(site, desks, key, Parting::TimeIsOver);
        }
    }

    /// Makes those parts anew of which much is forgotten, if the floor has risen.
    fn make_anew<R: Wait, G: PartGate>(&mut self, site: &Site<'_, R, G>) {
        let kept = site.common.gate.floor().range;
        if kept == self.kept {
            return;
        }
        self.kept = kept;
        site.seats.forget_by(site.rt, site.alloc, site.common.gate);
    }

    /// Goes over to parts that were made anew. The first loop makes them.
    fn forget<R: Wait, G: PartGate>(&mut self, site: &Site<'_, R, G>, desks: &mut Desks) {
        if self.index == 0 {
            self.make_anew(site);
        }
        desks.follow(site.rt, site.alloc, site.common, site.seats);
    }

    /// What it does after a wait.
    fn turn<R: Wait, G: PartGate>(
        &mut self,
        site: &Site<'_, R, G>,
        desks: &mut Desks,
        events: &Events,
    ) {
        self.forget(site, desks);
        let soon = std::mem::replace(&mut self.soon, Vec::new(site.alloc));
        self.go_on_with(site, desks, soon);
        for event in events {
            self.meet(site, desks, event.token());
        }
        let waiting = std::mem::replace(&mut self.waiting, Vec::new(site.alloc));
        self.go_on_with(site, desks, waiting);
        self.stop(site, desks);
        self.take_in(site, desks);
        self.sweep(site, desks);
    }

    /// Shows those who watch what it has now.
    fn show<R, G>(&self, site: &Site<'_, R, G>) {
        let kept = u64::try_from(self.hub.held()).unwrap_or(u64::MAX);
        let peers = self.hub.len() as u64;
        site.crowd.board.show(self.index, peers, kept);
    }

    /// Serves those who come, until nobody is there and nobody will come.
    pub(crate) fn run<R: Wait + Clock, G: PartGate>(
        &mut self,
        site: &Site<'_, R, G>,
        desks: &mut Desks,
    ) -> io::Result<()> {
        let mut events = Events::with_capacity(site.alloc, EVENTS)?;
        for _ in site.rt.forever() {
            if self.is_done(site) {
                return Ok(());
            }
            let wait = Duration::from_millis(self.wait());
            self.poll.poll(&mut events, Some(wait))?;
            let passed = site.rt.monotonic()?;
            self.now = u64::try_from(passed.as_millis()).unwrap_or(u64::MAX);
            self.turn(site, desks, &events);
            self.show(site);
        }
        unreachable!()
    }
}
