//! The door for programs of this machine: a thread that answers HTTP at a Unix socket or at an address of the loopback.

use crate::caller::{Called, CallerStep, Place};
use crate::callers::Callers;
use crate::door_reading::{NewsAsked, Pages, item_answer, items_answer, news_answer, news_asked};
use crate::door_replies::{
    TurnsAsked, plain, refused, status_answer, turns_answer, turns_asked, whole,
};
use crate::doors::listen_at;
use crate::putting::put_answer;
use crate::reporting::DiskReporter;
use crate::watching::NO_LIMITS;
use crate::yard::Yard;
use http_core::{DoorAsked, DoorRequest, DoorStatus};
use io_core::{Watched, WriterFailed, write_output};
use mio::Events;
use peer_loops::Hand;
use printing_core::Refusal;
use settings_core::{Address, address_of};
use std::alloc::{AllocError, Global};
use std::io::Write;
use std::net::{Net, TcpListener, TcpStream};
use std::rt::Files;
use std::sync::Wait;
use std::time::Clock;
use tcp_front::Listener;
use watch_core::control_line;

/// How many may ask at once. For a further one another makes room.
const MOST_CALLERS: usize = 64;

/// How many milliseconds it waits at most; and while somebody waits for news or for partners.
const TICK: u64 = 250;

const SHORT_TICK: u64 = 20;

/// For how many milliseconds sessions may go on that run when the server is to stop.
const LAST_SESSIONS: u64 = 10_000;

/// Where programs of this machine ask.
#[derive(Drop)]
pub struct Door<'a, R> {
    listener: Listener<'a, R>,
    /// The address, as it was given.
    address: &'a str,
}

/// Opens a door at this address, if one is given. Else 60 or 90.
pub fn open_door<'a, R>(
    rt: &'a R,
    address: Option<&'a str>,
) -> Result<Option<Door<'a, R>>, Refusal<'a>>
where
    R: Files + Net<Listener = TcpListener, Stream = TcpStream> + Clock + AllocGlobal,
{
    let Some(address) = address else {
        return Ok(None);
    };
    match listen_at(rt, address, None, NO_LIMITS) {
        Ok(listener) => Ok(Some(Door { listener, address })),
        Err(fault) => Err(Refusal::of_listen(address, fault)),
    }
}

impl<R> Door<'_, R> {
    /// Removes the file of its socket, if it has one.
    pub fn remove_file<F: Files>(&self, rt: &F) {
        self.listener.remove_file(rt);
    }

    /// Says that it is open. If the system chose the port, the real address goes to standard error.
    pub fn announce<O: Write, E: Write>(
        &self,
        alloc: Global,
        out: &mut O,
        err: &mut E,
    ) -> Result<(), Refusal<'static>> {
        let line = control_line(alloc, self.address)?;
        write_output(&mut Watched::new(&mut *out), line.as_bytes())?;
        out.flush().map_err(|_| WriterFailed)?;
        if !self.address.ends_with(":0") {
            return Ok(());
        }
        if let Some(real) = self.listener.local_addr() {
            let _told = writeln!(err, "control {real}");
        }
        Ok(())
    }

    /// Who asks there.
    fn place(&self) -> Place {
        let is_tcp = match address_of(self.address) {
            Address::Tcp(_) => true,
            Address::Unix(_) => false,
        };
        Place::Door { is_tcp }
    }
}

/// What a caller still waits for.
#[derive(Drop)]
enum Pending {
    /// Nothing.
    Nothing,
    /// News.
    News(DoorRequest, NewsAsked),
    /// Turns with the partners.
    Turns(DoorRequest, TurnsAsked),
    /// The next parts of its answer.
    Pages(Pages),
}

/// What is done about a request now.
#[derive(Drop)]
enum Answer {
    /// This is all of its answer.
    Whole(Vec<u8>),
    /// This is the first part of its answer, and this is to follow.
    First(Vec<u8>, Pending),
    /// There is no answer yet: this is waited for until then.
    Later(Pending, u64),
    /// This is its answer, and the connection stays until the server is done.
    Last(Vec<u8>),
}

/// The answer to who asks for all items.
fn answer_items<R: Wait + Clock, E: Write + Drop>(
    yard: &Yard<'_, '_, R, DiskReporter<'_, '_, R, E>>,
    hand: &mut Hand<'_>,
    request: &DoorRequest,
    target: &[u8],
) -> Result<Answer, AllocError> {
    match items_answer(yard, hand, request, target)? {
        (bytes, Some(pages)) => Ok(Answer::First(bytes, Pending::Pages(pages))),
        (bytes, None) => Ok(Answer::Whole(bytes)),
    }
}

/// The answer to who asks for news at this time.
fn answer_news<R: Wait, E: Write + Drop>(
    yard: &Yard<'_, '_, R, DiskReporter<'_, '_, R, E>>,
    request: &DoorRequest,
    target: &[u8],
    now: u64,
) -> Result<Answer, AllocError> {
    let form = yard.common.gate.rules.reporting.form;
    let Some(asked) = news_asked(target, form, now) else {
        let line = b"400: after and wait are numbers\n";
        let answer = whole(yard.alloc, request, plain(DoorStatus::Unread), line)?;
        return Ok(Answer::Whole(answer));
    };
    match news_answer(yard, request, asked, now)? {
        Some(answer) => Ok(Answer::Whole(answer)),
        None => Ok(Answer::Later(Pending::News(*request, asked), asked.until)),
    }
}

/// The answer to who asks the server to stop, which it does from this time on.
fn answer_stop<R, G>(
    yard: &Yard<'_, '_, R, G>,
    request: &DoorRequest,
    now: u64,
) -> Result<Answer, AllocError> {
    let line = b"stopping\n";
    let answer = whole(yard.alloc, request, plain(DoorStatus::Accepted), line)?;
    yard.sight.board.stop(now.saturating_add(LAST_SESSIONS));
    Ok(Answer::Last(answer))
}

/// The answer to who asks for a turn with each partner, from this time on.
fn answer_sync<R: Wait, E: Write + Drop>(
    yard: &Yard<'_, '_, R, DiskReporter<'_, '_, R, E>>,
    request: &DoorRequest,
    now: u64,
) -> Result<Answer, AllocError> {
    let asked = turns_asked(yard, now)?;
    if let Some(answer) = turns_answer(yard, request, &asked, now)? {
        return Ok(Answer::Whole(answer));
    }
    let until = asked.until;
    Ok(Answer::Later(Pending::Turns(*request, asked), until))
}

/// What is done about a request of this target and this body, at this time.
fn answer_to<R: Wait + Clock, E: Write + Drop>(
    yard: &Yard<'_, '_, R, DiskReporter<'_, '_, R, E>>,
    hand: &mut Hand<'_>,
    request: &DoorRequest,
    (target, body): (&[u8], &[u8]),
    now: u64,
) -> Result<Answer, AllocError> {
    hand.follow(yard.rt, yard.alloc, yard.common);
    match request.asked {
        DoorAsked::Put => {
            let answer = put_answer(yard, hand, request, target, body)?;
            hand.follow(yard.rt, yard.alloc, yard.common);
            Ok(Answer::Whole(answer))
        }
        DoorAsked::Items => answer_items(yard, hand, request, target),
        DoorAsked::Item => Ok(Answer::Whole(item_answer(yard, hand, request, target)?)),
        DoorAsked::News => answer_news(yard, request, target, now),
        DoorAsked::Status => Ok(Answer::Whole(status_answer(yard, request, target, now)?)),
        DoorAsked::Sync => answer_sync(yard, request, now),
        DoorAsked::Stop => answer_stop(yard, request, now),
        _ => Ok(Answer::Whole(refused(yard.alloc, request)?)),
    }
}

/// All who ask at a door, and what they still wait for, by their keys.
#[derive(Drop)]
struct Visitors {
    callers: Callers,
    pending: Vec<Pending>,
}

impl Visitors {
    /// The caller of this key waits for this from now on.
    fn set(&mut self, key: usize, pending: Pending) {
        if let Some(place) = self.pending.get_mut(key) {
            *place = pending;
        }
    }

    /// What the caller of this key waits for, which is taken out.
    fn take(&mut self, key: usize) -> Pending {
        match self.pending.get_mut(key) {
            Some(place) => std::mem::replace(place, Pending::Nothing),
            None => Pending::Nothing,
        }
    }

    /// Whether somebody waits for news, or for partners.
    fn are_waiting(&self) -> bool {
        self.pending.iter().any(|pending| matches!(pending, Pending::News(..) | Pending::Turns(..)))
    }

    /// What is done about the request of the caller of this key; none where it is gone.
    fn answer_of<R: Wait + Clock, E: Write + Drop>(
        &self,
        yard: &Yard<'_, '_, R, DiskReporter<'_, '_, R, E>>,
        hand: &mut Hand<'_>,
        key: usize,
        request: &DoorRequest,
    ) -> Result<Answer, AllocError> {
        let Some(caller) = self.callers.get(key) else {
            return Err(AllocError);
        };
        let parts = (caller.target(request), caller.body(request));
        answer_to(yard, hand, request, parts, self.callers.now())
    }

    /// Does what is to be done about a request.
    fn give(&mut self, key: usize, answer: Result<Answer, AllocError>) {
        match answer {
            Ok(Answer::Whole(bytes)) => self.callers.give(key, Ok(bytes), true),
            Ok(Answer::First(bytes, pending)) => {
                self.set(key, pending);
                self.callers.give(key, Ok(bytes), false);
            }
            Ok(Answer::Later(pending, until)) => {
                self.set(key, pending);
                self.callers.keep_until(key, until);
            }
            Ok(Answer::Last(bytes)) => {
                self.callers.keep_until(key, u64::MAX);
                self.callers.give(key, Ok(bytes), false);
            }
            Err(refused) => self.callers.give(key, Err(refused), true),
        }
    }

    /// Gives the caller of this key the next part of its answer.
    fn give_next(&mut self, alloc: Global, key: usize) {
        let Pending::Pages(mut pages) = self.take(key) else {
            return;
        };
        match pages.next(alloc) {
            Ok(page) => {
                if !page.is_last {
                    self.set(key, Pending::Pages(pages));
                }
                self.callers.give(key, Ok(page.bytes), page.is_last);
            }
            Err(refused) => self.callers.give(key, Err(refused), true),
        }
    }

    /// Whether the caller of this key waits for an answer.
    fn is_waiting(&self, key: usize) -> bool {
        self.callers
            .get(key)
            .is_some_and(|caller| caller.is_waiting())
    }

    /// The answer to the caller of this key, if it waits for one that there is now.
    fn late_answer<R: Wait, E: Write + Drop>(
        &self,
        yard: &Yard<'_, '_, R, DiskReporter<'_, '_, R, E>>,
        key: usize,
    ) -> Result<Option<Vec<u8>>, AllocError> {
        let now = self.callers.now();
        match self.pending.get(key) {
            Some(Pending::News(request, asked)) => news_answer(yard, request, *asked, now),
            Some(Pending::Turns(request, asked)) => turns_answer(yard, request, asked, now),
            _ => Ok(None),
        }
    }

    /// Answers the caller of this key if what it waits for is there, or if its time is over.
    fn give_late<R: Wait, E: Write + Drop>(
        &mut self,
        yard: &Yard<'_, '_, R, DiskReporter<'_, '_, R, E>>,
        key: usize,
    ) {
        if !self.is_waiting(key) {
            return;
        }
        let answer = match self.late_answer(yard, key) {
            Ok(None) => return,
            Ok(Some(answer)) => Ok(answer),
            Err(refused) => Err(refused),
        };
        self.set(key, Pending::Nothing);
        self.callers.give(key, answer, true);
    }

    /// Goes on with the caller of this key.
    fn go_on<R: Wait + Clock, E: Write + Drop>(
        &mut self,
        yard: &Yard<'_, '_, R, DiskReporter<'_, '_, R, E>>,
        hand: &mut Hand<'_>,
        key: usize,
    ) {
        match self.callers.go_on(key) {
            CallerStep::Asks(Called::AtDoor(request)) => {
                self.set(key, Pending::Nothing);
                let answer = self.answer_of(yard, hand, key, &request);
                self.give(key, answer);
            }
            CallerStep::HasHeard => self.give_next(yard.alloc, key),
            CallerStep::Gone => self.set(key, Pending::Nothing),
            _ => self.give_late(yard, key),
        }
    }
}

/// As many who wait for nothing as there may be.
fn nobody(alloc: Global) -> Result<Vec<Pending>, AllocError> {
    let mut pending = Vec::with_capacity(alloc, MOST_CALLERS)?;
    for _ in 0..MOST_CALLERS {
        pending.push(Pending::Nothing)?;
    }
    Ok(pending)
}

/// Answers those who ask at a door, until the server is done. Where there is no memory for it, nobody is answered.
pub fn attend<R, E: Write + Drop>(
    yard: &Yard<'_, '_, R, DiskReporter<'_, '_, R, E>>,
    hand: &mut Hand<'_>,
    door: &Door<'_, R>,
)
where
    R: Net<Listener = TcpListener, Stream = TcpStream> + Wait + Clock + AllocGlobal,
{
    let alloc = yard.alloc;
    let listener = &door.listener;
    let Ok(callers) = Callers::new(yard.rt, alloc, listener, door.place(), MOST_CALLERS) else {
        return;
    };
    let Ok(mut events) = Events::with_capacity(alloc, 2 * MOST_CALLERS) else {
        return;
    };
    let Ok(pending) = nobody(alloc) else {
        return;
    };
    let mut visitors = Visitors { callers, pending };
    let mut is_more = false;
    for _ in yard.rt.forever() {
        if yard.sight.board.is_over(yard.rt) {
            return;
        }
        let tick = if visitors.are_waiting() {
            SHORT_TICK
        } else {
            TICK
        };
        visitors.callers.wait(yard.rt, &mut events, is_more, tick);
        visitors.callers.wake(&events);
        is_more = visitors.callers.accept_all(alloc, listener);
        // A hand that stays at parts that were made anew keeps what is forgotten.
        hand.follow(yard.rt, yard.alloc, yard.common);
        for key in 0..MOST_CALLERS {
            visitors.go_on(yard, hand, key);
        }
        visitors.callers.close_late();
    }
}
