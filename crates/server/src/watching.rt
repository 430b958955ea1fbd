//! The window through which a server is watched: a thread that answers HTTP with its metrics and a page.

use crate::asked::Serving;
use crate::caller::{Called, CallerStep, Place};
use crate::callers::Callers;
use crate::doors::listen_at;
use crate::reporting::DiskReporter;
use http_core::{Asked, Request, refusal_text, response};
use io_core::{Watched, WriterFailed, write_output};
use loading::{ShardedSet, now};
use mio::Events;
use peer_loops::{Board, Common, Partners};
use printing_core::Refusal;
use settings_core::VERSION;
use std::alloc::{AllocError, Global};
use std::io::Write;
use std::net::{Net, TcpListener, TcpStream};
use std::rt::Files;
use std::sync::Wait;
use std::time::Clock;
use tcp_front::{Limits, Listener};
use watch_core::{Partnered, Standing, metrics_line};

/// How many may ask at once. For a further one another makes room.
const MOST_CALLERS: usize = 16;

/// How many milliseconds it waits at most.
const TICK: u64 = 250;

/// What does not bound those who ask: the limits of a listener are for those who wait.
pub const NO_LIMITS: Limits = Limits {
    patience: 5,
    most_bytes: u32::MAX,
};

/// What a server begins with.
#[derive(Clone, Copy)]
pub struct Beginning<'a> {
    /// The address at which sessions are served.
    address: &'a str,
    /// What the set is called, and the file in which it is kept; empty where there is none.
    set: &'a str,
    file: &'a str,
    /// How many items the set has, and how many it may have.
    pub(crate) items: u64,
    cap: u64,
    /// When the server began.
    moment: u64,
}

impl<'a> Beginning<'a> {
    /// That of a server of this set, which begins now.
    pub fn now<R: Clock>(rt: &R, serving: &Serving<'a>, set: &ShardedSet) -> Beginning<'a> {
        Beginning {
            address: serving.address,
            set: serving.watching.set.unwrap_or(""),
            file: serving.paths.keep.unwrap_or(""),
            items: set.count(),
            cap: u64::from(set.cap()).saturating_mul(set.shards() as u64),
            moment: now(rt),
        }
    }
}

/// Where those ask who watch a server.
#[derive(Drop)]
pub struct Window<'a, R> {
    listener: Listener<'a, R>,
    /// The address, as it was given.
    address: &'a str,
    beginning: Beginning<'a>,
}

/// Opens a window at this address, if one is given. Else 60 or 90.
pub fn open_window<'a, R>(
    rt: &'a R,
    address: Option<&'a str>,
    beginning: Beginning<'a>,
) -> Result<Option<Window<'a, R>>, Refusal<'a>>
where
    R: Files + Net<Listener = TcpListener, Stream = TcpStream> + Clock + AllocGlobal,
{
    let Some(address) = address else {
        return Ok(None);
    };
    match listen_at(rt, address, None, NO_LIMITS) {
        Ok(listener) => Ok(Some(Window {
            listener,
            address,
            beginning,
        })),
        Err(fault) => Err(Refusal::of_listen(address, fault)),
    }
}

impl<R> Window<'_, R> {
    /// Removes the file of its socket, if it has one.
    pub fn remove_file<F: Files>(&self, rt: &F) {
        self.listener.remove_file(rt);
    }

    /// Says that it is open. If the system chose the port, the real address goes to standard error.
    pub fn announce<O: Write, E: Write>(
        &self,
        alloc: Global,
        out: &mut O,
        err: &mut E,
    ) -> Result<(), Refusal<'static>> {
        let line = metrics_line(alloc, self.address)?;
        write_output(&mut Watched::new(&mut *out), line.as_bytes())?;
        out.flush().map_err(|_| WriterFailed)?;
        if !self.address.ends_with(":0") {
            return Ok(());
        }
        if let Some(real) = self.listener.local_addr() {
            let _told = writeln!(err, "metrics {real}");
        }
        Ok(())
    }
}

/// How the server, which began so, stands with these partners now. It is at the version that has as many items.
pub fn standing<'a, R: Wait, E: Write + Drop>(
    rt: &R,
    common: &Common<'_, DiskReporter<'_, '_, R, E>>,
    board: &Board,
    (beginning, partners): (Beginning<'a>, &'a [Partnered<'a>]),
    now: u64,
) -> Standing<'a> {
    let inserted = common.gate.inserted();
    let taken = beginning.items.saturating_add(inserted);
    let items = taken.saturating_sub(common.gate.forgotten());
    Standing {
        program: VERSION,
        address: beginning.address,
        set: beginning.set,
        file: beginning.file,
        items,
        cap: beginning.cap,
        version: items,
        inserted,
        dropped: common.gate.dropped_so_far(),
        waiting: common.gate.waiting_lines(),
        failures: common.gate.failed(),
        live: common.sessions.lock(rt).live() as u64,
        peers: board.peers(),
        kept: board.kept(),
        ran: now.saturating_sub(beginning.moment),
        moment: now,
        partners,
    }
}

/// What is told of the sessions of a server, and of its partners.
#[derive(Clone, Copy)]
pub struct Sight<'a, 'p> {
    /// The sessions.
    pub board: &'a Board,
    /// The partners.
    pub partners: &'a Partners<'p>,
}

/// The answer to what was asked for of a server that stands so.
fn answer_to<R: Wait + AllocGlobal>(
    rt: &R,
    board: &Board,
    standing: &Standing<'_>,
    request: Request,
) -> Result<Vec<u8>, AllocError> {
    let alloc = rt.alloc();
    match request.asked {
        Asked::Metrics => {
            let text = board.metrics(rt, alloc, standing)?;
            response(alloc, request, &text)
        }
        Asked::Page => {
            let page = board.page(rt, alloc, standing)?;
            response(alloc, request, &page)
        }
        asked => response(alloc, request, refusal_text(asked).as_bytes()),
    }
}

/// The answer to what is asked for now.
fn answer_now<R: Wait + AllocGlobal, E: Write + Drop>(
    rt: &R,
    common: &Common<'_, DiskReporter<'_, '_, R, E>>,
    sight: Sight<'_, '_>,
    beginning: Beginning<'_>,
    (request, now): (Request, u64),
) -> Result<Vec<u8>, AllocError> {
    let partners = sight.partners.standings(rt, rt.alloc(), now)?;
    let standing = standing(rt, common, sight.board, (beginning, &partners), now);
    answer_to(rt, sight.board, &standing, request)
}

/// Goes on with all who ask, and answers what they ask for.
fn answer_all<R: Wait + AllocGlobal, E: Write + Drop>(
    rt: &R,
    callers: &mut Callers,
    common: &Common<'_, DiskReporter<'_, '_, R, E>>,
    sight: Sight<'_, '_>,
    beginning: Beginning<'_>,
) {
    for key in 0..MOST_CALLERS {
        if let CallerStep::Asks(Called::AtWindow(request)) = callers.go_on(key) {
            let answer = answer_now(rt, common, sight, beginning, (request, callers.now()));
            let _step = callers.answer(key, answer, true);
        }
    }
}

/// Answers those who ask at a window, until the server is done. Where there is no memory for it, nobody is answered.
pub fn watch<R, E: Write + Drop>(
    rt: &R,
    window: &Window<'_, R>,
    common: &Common<'_, DiskReporter<'_, '_, R, E>>,
    sight: Sight<'_, '_>,
)
where
    R: Net<Listener = TcpListener, Stream = TcpStream> + Wait + Clock + AllocGlobal,
{
    let alloc = rt.alloc();
    let Window {
        listener,
        beginning,
        ..
    } = window;
    let Ok(mut callers) = Callers::new(rt, alloc, listener, Place::Window, MOST_CALLERS) else {
        return;
    };
    let Ok(mut events) = Events::with_capacity(alloc, 2 * MOST_CALLERS) else {
        return;
    };
    let mut is_more = false;
    for _ in rt.forever() {
        if sight.board.is_over(rt) {
            return;
        }
        callers.wait(rt, &mut events, is_more, TICK);
        callers.wake(&events);
        is_more = callers.accept_all(alloc, listener);
        answer_all(rt, &mut callers, common, sight, *beginning);
        callers.close_late();
    }
}
