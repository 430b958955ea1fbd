//! The log: a line on standard error for each visit of a peer.

use item_core::Range;
use loading::{millis_of, now};
use peer_loops::{Board, Recent};
use peer_threads::Outcome;
use printing_core::Stats;
use std::alloc::{AllocError, Global};
use std::io;
use std::io::Write;
use std::sync::Wait;
use std::time::{Clock, Duration};
use watch_core::{
    Ending, SpokenProfile, Traffic, Visit, left_out_line, loaded_line, loading_line, log_line,
    lost_line,
};

/// After how many milliseconds it is tried again where memory ran out.
const PAUSE: u64 = 100;

/// How many visits without a session have a line in one second.
const MOST_STRANGERS: u32 = 100;

/// The two clocks of a machine at one moment, in milliseconds. A clock that fails says 0.
#[derive(Clone, Copy)]
struct Clocks {
    /// Since 1970.
    time: u64,
    /// Since some fixed moment.
    steady: u64,
}

impl Clocks {
    fn read<R: Clock>(rt: &R) -> Clocks {
        Clocks {
            time: rt.since_1970().map_or(0, |time| millis_of(time)),
            steady: now(rt),
        }
    }

    /// The time since 1970 of a moment of the steady clock that is over.
    fn time_of(self, moment: u64) -> u64 {
        self.time.saturating_sub(self.steady.saturating_sub(moment))
    }
}

/// Prints a text, if there was memory for it. A text that is not taken changes nothing.
fn print<E: Write>(err: &mut E, text: Result<String, AllocError>) {
    if let Ok(text) = text {
        let _told: io::Result<()> = err.write_all(text.as_bytes());
    }
}

/// The visits without a session of one second.
#[derive(Clone, Copy)]
struct Strangers {
    /// The second, of the steady clock.
    second: u64,
    /// How many of them have a line.
    printed: u32,
    /// How many have none.
    left_out: u64,
}

impl Strangers {
    /// Whether one that ended in this second has a line.
    fn has_line(&mut self) -> bool {
        if self.printed < MOST_STRANGERS {
            self.printed += 1;
            return true;
        }
        self.left_out = self.left_out.saturating_add(1);
        false
    }

    /// Goes on to this second, if it is a later one: a line says how many of the one before had none, if any had none.
    fn go_on<E: Write>(&mut self, alloc: Global, clocks: Clocks, second: u64, err: &mut E) {
        if second <= self.second {
            return;
        }
        self.tell(alloc, clocks, err);
        *self = Strangers {
            second,
            printed: 0,
            left_out: 0,
        };
    }

    /// Prints how many had no line, if any had none.
    fn tell<E: Write>(&self, alloc: Global, clocks: Clocks, err: &mut E) {
        if self.left_out > 0 {
            print(err, left_out_line(alloc, clocks.time, self.left_out));
        }
    }
}

/// Prints the line of a visit. One without a session has none if too many of that second have one.
fn print_visit<E: Write>(
    alloc: Global,
    clocks: Clocks,
    visit: &Visit,
    strangers: &mut Strangers,
    err: &mut E,
) {
    strangers.go_on(alloc, clocks, visit.ended / 1_000, err);
    if visit.serial.is_some() || strangers.has_line() {
        let time = clocks.time_of(visit.ended);
        print(err, log_line(alloc, time, visit));
    }
}

/// Prints the lines of the last visits, of which so many were printed before.
fn print_recent<E: Write>(
    alloc: Global,
    clocks: Clocks,
    (recent, seen): (&Recent, u64),
    strangers: &mut Strangers,
    err: &mut E,
) {
    let kept = recent.visits.len() as u64;
    let lost = recent.all.saturating_sub(seen).saturating_sub(kept);
    if lost > 0 {
        print(err, lost_line(alloc, clocks.time, lost));
    }
    for visit in &recent.visits {
        print_visit(alloc, clocks, visit, strangers, err);
    }
    strangers.go_on(alloc, clocks, clocks.steady / 1_000, err);
}

/// Prints a line for each visit, until the server is done and each has its line. Of visits without a session at most
/// 100 of a second have a line; the next one says how many have none. Where standard error takes lines more slowly than
/// visits end, the oldest that wait have none, and a line says how many.
pub fn log_all<R: Wait + Clock, E: Write + Drop>(rt: &R, alloc: Global, board: &Board, err: E) {
    let mut err = err;
    let mut seen = 0;
    let mut strangers = Strangers {
        second: 0,
        printed: 0,
        left_out: 0,
    };
    for _ in rt.forever() {
        let is_over = board.wait_for_more(rt, seen);
        let clocks = Clocks::read(rt);
        match board.visits_after(rt, alloc, seen) {
            Ok(recent) => {
                print_recent(alloc, clocks, (&recent, seen), &mut strangers, &mut err);
                seen = recent.all;
            }
            Err(_) => rt.sleep(Duration::from_millis(PAUSE)),
        }
        if is_over {
            strangers.tell(alloc, clocks, &mut err);
            return;
        }
    }
}

/// Prints that a server begins to load its items.
pub fn log_loading<R: Clock + AllocGlobal, E: Write>(rt: &R, err: &mut E) {
    print(err, loading_line(rt.alloc(), Clocks::read(rt).time));
}

/// Prints that a server has loaded so many items, which took so long.
pub fn log_loaded<R: Clock + AllocGlobal, E: Write>(rt: &R, items: u64, millis: u64, err: &mut E) {
    let time = Clocks::read(rt).time;
    print(err, loaded_line(rt.alloc(), time, items, millis));
}

/// A session that is over, of a server that has this one alone.
#[derive(Clone, Copy)]
pub struct OnlySession<'a> {
    /// How it ended.
    pub outcome: &'a Outcome,
    /// What it cost.
    pub stats: Stats,
    /// The wire profile that was spoken, if a hello was sent.
    pub profile: Option<SpokenProfile>,
    /// Its serial, if it was counted.
    pub serial: Option<u64>,
}

/// How many items a session found, if it came to its end: own ones that the peer lacked, and those that it had alone.
fn found(outcome: &Outcome) -> (u64, u64) {
    match outcome {
        Outcome::Ended { learned, .. } => {
            (learned.ours().len() as u64, learned.theirs().len() as u64)
        }
        _ => (0, 0),
    }
}

/// The visit of its peer, which has no address.
fn visit_of(session: OnlySession<'_>) -> Visit {
    let (ours, theirs) = found(session.outcome);
    Visit {
        address: None,
        is_called: false,
        profile: session.profile,
        serial: session.serial,
        which: None,
        range: Range::whole(),
        ending: Ending::of(session.outcome),
        traffic: Traffic {
            received: session.stats.received.bytes,
            sent: session.stats.sent.bytes,
            messages: u64::from(session.outcome.sent()),
            ours,
            theirs,
        },
        millis: session.stats.millis.unwrap_or(0),
        ended: 0,
    }
}

/// Prints the line of a session that is over now.
pub fn log_session<R: Clock + AllocGlobal, E: Write>(
    rt: &R,
    session: OnlySession<'_>,
    err: &mut E,
) {
    let visit = visit_of(session);
    let time = Clocks::read(rt).time;
    print(err, log_line(rt.alloc(), time, &visit));
}
