//! Sessions with those who connect.

ghost use Rattle.std.specs.Prelude.{◌≡◌};
ghost use Rattle.settings_core.specs.Spans.{IsWorkerCount};

use crate::asked::Serving;
use crate::books::open_books;
use crate::door::{Door, attend};
use crate::doors::{Doors, open_doors};
use crate::following::When;
use crate::ledger::Closed;
use crate::limits::beside;
use crate::logging::log_all;
use crate::loops::Loops;
use crate::reporting::{DiskReporter, Reporter};
use crate::starting::{State, open_announced, parts_of, state_of, with_arrivals};
use crate::watching::{Beginning, Sight, Window, watch};
use crate::yard::Yard;
use io_core::{Watched, write_output};
use loading::Loaded;
use peer_loops::{Common, Links, Seats, Service, call_partners, serve_peers};
use peer_threads::{Gate, WorkersReport};
use printing_core::{Fault, Refusal, refusal_of, served_text, tell_dropped, tell_in_memory};
use session_table::SessionTable;
use std::fs::File;
use std::io::Write;
use std::rt::Files;
use std::sync::Mutex;
use std::thread::join;
use tcp_front::Listener;

/// What a server prints to: its output, and a second way to standard error, for its log.
#[derive(Drop)]
pub struct Outputs<O, E> {
    /// The output.
    pub out: O,
    /// Standard error.
    pub log: E,
}

/// How many milliseconds a server without a listener waits until it looks whether it is to stop.
const TICK: u64 = 250;

/// Whether what a server learns is gone with its end: it may learn, and writes that nowhere.
fn forgets(serving: Serving<'_>) -> bool {
    let is_written = serving.paths.keep.is_some() || serving.paths.learned.is_some();
    !is_written && serving.rules.most_learned != Some(0)
}

/// Who serves and who calls: with which seats, and whom.
#[derive(Clone, Copy)]
struct Team<'a, 'p> {
    seats: &'a Seats,
    links: Links<'a, 'p>,
}

impl<'a, 'p> Team<'a, 'p> {
    /// What is told of sessions, and of the partners.
    fn sight(self) -> Sight<'a, 'p> {
        Sight {
            board: self.links.board,
            partners: self.links.partners,
        }
    }
}

/// Serves by loops until the source has no more. Where there is none, it waits until the server is done, and forgets
/// what a loop would have.
fn serve_all<R: Loops, E: Write + Drop + Send>(
    rt: &R,
    common: &Common<'_, DiskReporter<'_, '_, R, E>>,
    seats: &Seats,
    listener: Option<&Listener<'_, R>>,
    service: Service<'_>,
) -> WorkersReport
    requires workers { IsWorkerCount service.loops }
{
    if let Some(listener) = listener {
        return serve_peers(rt, common, seats, listener, service);
    }
    for _ in rt.forever() {
        if common.news.wait(rt, u64::MAX, TICK) || service.board.is_stopping() {
            break;
        }
        seats.forget_by(rt, rt.alloc(), common.gate);
    }
    WorkersReport {
        started: 1,
        fault: None,
    }
}

/// The same; then all others are told that the server is done.
fn serve_to_end<R: Loops, E: Write + Drop + Send>(
    rt: &R,
    common: &Common<'_, DiskReporter<'_, '_, R, E>>,
    seats: &Seats,
    listener: Option<&Listener<'_, R>>,
    service: Service<'_>,
) -> WorkersReport
    requires workers { IsWorkerCount service.loops }
{
    let report = serve_all(rt, common, seats, listener, service);
    common.gate.end();
    common.news.end(rt);
    service.board.end(rt);
    report
}

/// Serves by loops until the source has no more, and calls the partners beside them, if there are any.
fn work<R: Loops, E: Write + Drop + Send>(
    rt: &R,
    common: &Common<'_, DiskReporter<'_, '_, R, E>>,
    team: Team<'_, '_>,
    listener: Option<&Listener<'_, R>>,
    service: Service<'_>,
) -> WorkersReport
    requires workers { IsWorkerCount service.loops }
{
    let Team { seats, links } = team;
    if links.partners.threads() == 0 {
        return serve_to_end(rt, common, seats, listener, service);
    }
    let (_called, report) = join(
        rt,
        move || call_partners(rt, common, seats, links),
        move || -> WorkersReport
            requires { IsWorkerCount service.loops }
        { serve_to_end(rt, common, seats, listener, service) },
    );
    report
}

/// Prints a line for each session, if that is asked for, and answers those who watch the server, if there is a window,
/// until the server is done.
fn log_and_show<R: Loops, E: Write + Drop + Send, L: Write + Drop + Send>(
    rt: &R,
    common: &Common<'_, DiskReporter<'_, '_, R, E>>,
    window: Option<&Window<'_, R>>,
    sight: Sight<'_, '_>,
    log: Option<L>,
) {
    let (_shown, _logged) = join(
        rt,
        move || {
            if let Some(window) = window {
                watch(rt, window, common, sight);
            }
        },
        move || {
            if let Some(log) = log {
                log_all(rt, rt.alloc(), sight.board, log);
            }
        },
    );
}

/// Serves by loops until the source has no more; beside them a thread answers those who watch, and prints a line for
/// each session, if that is asked for. If no thread can be made, that is done after them, and ends at once.
fn work_shown<R: Loops, E: Write + Drop + Send, L: Write + Drop + Send>(
    rt: &R,
    common: &Common<'_, DiskReporter<'_, '_, R, E>>,
    team: Team<'_, '_>,
    doors: &Doors<'_, R>,
    service: Service<'_>,
    log: Option<L>,
) -> WorkersReport
    requires workers { IsWorkerCount service.loops }
{
    let listener = doors.listener.as_ref();
    if doors.window.is_none() && log.is_none() {
        return work(rt, common, team, listener, service);
    }
    let window = doors.window.as_ref();
    let sight = team.sight();
    let (_shown, report) = join(
        rt,
        move || log_and_show(rt, common, window, sight, log),
        move || -> WorkersReport
            requires { IsWorkerCount service.loops }
        { work(rt, common, team, listener, service) },
    );
    report
}

/// Answers programs of this machine at a door, until the server is done. Where there is no seat for it, nobody is
/// answered.
fn answer_programs<R: Loops, E: Write + Drop + Send>(
    rt: &R,
    common: &Common<'_, DiskReporter<'_, '_, R, E>>,
    seats: &Seats,
    sight: Sight<'_, '_>,
    (door, beginning): (&Door<'_, R>, Beginning<'_>),
) {
    let Some(mut hand) = seats.hand(rt, rt.alloc()) else {
        return;
    };
    let yard = Yard {
        rt: &*rt,
        alloc: rt.alloc(),
        common: &*common,
        sight,
        beginning,
    };
    attend(&yard, &mut hand, door);
}

/// The same as `work_shown`; beside it a thread answers programs of this machine, if there is a door.
fn work_answered<R: Loops, E: Write + Drop + Send, L: Write + Drop + Send>(
    rt: &R,
    common: &Common<'_, DiskReporter<'_, '_, R, E>>,
    team: Team<'_, '_>,
    doors: &Doors<'_, R>,
    service: Service<'_>,
    log: Option<L>,
    door: Option<(&Door<'_, R>, Beginning<'_>)>,
) -> WorkersReport
    requires workers { IsWorkerCount service.loops }
{
    let Some(door) = door else {
        return work_shown(rt, common, team, doors, service, log);
    };
    let sight = team.sight();
    let (_answered, report) = join(
        rt,
        move || answer_programs(rt, common, team.seats, sight, door),
        move || -> WorkersReport
            requires { IsWorkerCount service.loops }
        { work_shown(rt, common, team, doors, service, log) },
    );
    report
}

/// Serves in a thread, while this one does what a thread that `join` makes cannot do: it tends the files, if there are
/// any. If no thread can be made, that ends after two seconds, and then this one serves.
fn work_tended<R: Loops, E: Write + Drop + Send, L: Write + Drop + Send, T: FnOnce() + Drop>(
    rt: &R,
    common: &Common<'_, DiskReporter<'_, '_, R, E>>,
    team: Team<'_, '_>,
    doors: &Doors<'_, R>,
    service: Service<'_>,
    log: Option<L>,
    door: Option<(&Door<'_, R>, Beginning<'_>)>,
    tend: T,
) -> WorkersReport
    requires workers { IsWorkerCount service.loops }
    requires tends { T.pre tend }
{
    if !common.gate.may_wait() {
        return work_answered(rt, common, team, doors, service, log, door);
    }
    let (report, _tended) = join(
        rt,
        move || -> WorkersReport
            requires { IsWorkerCount service.loops }
        {
            common.gate.begin();
            work_answered(rt, common, team, doors, service, log, door)
        },
        tend,
    );
    report
}

/// The refusal of a run whose workers ended so, and whose files were closed so.
fn ending(report: WorkersReport, closed: Closed) -> Result<(), Fault> {
    refusal_of(report)?;
    closed.all_written()
}

/// Serves by all threads over what they share, until the source has no more.
fn serve_over<'b, R: Files<File = File> + Loops, E: Write + Drop + Send, L: Write + Drop + Send>(
    rt: &'b R,
    state: &'b State<'_>,
    seats: &'b Seats,
    gate: &'b DiskReporter<'_, '_, R, E>,
    serving: Serving<'b>,
    beginning: Beginning<'b>,
    doors: &Doors<'_, R>,
    door: Option<&Door<'_, R>>,
    log: Option<L>,
) -> WorkersReport
    requires workers { IsWorkerCount serving.workers }
{
    let common = Common {
        accepted: &state.accepted,
        sessions: &state.sessions,
        gate: &*gate,
        news: &state.news,
    };
    let service = Service {
        loops: serving.workers,
        limits: beside(serving.limits, state.partners.threads()),
        board: &state.board,
        front: serving.front,
    };
    let team = Team {
        seats: &*seats,
        links: Links {
            partners: &state.partners,
            patience: serving.limits.patience,
            most_bytes: serving.limits.most_bytes,
            front: serving.front,
            board: &state.board,
        },
    };
    let answered = match door {
        Some(door) => Some((door, beginning)),
        None => None,
    };
    let tend = || gate.tend();
    work_tended(rt, &common, team, doors, service, log, answered, tend)
}

/// Prints what was counted. Then the file of the door is removed: who stopped the server sees by this that all is
/// written. Else 90 or `io write`.
fn print_served<R: Files + Loops, O: Write + Drop>(
    rt: &R,
    sessions: Mutex<SessionTable>,
    items: usize,
    out: O,
    door: Option<&Door<'_, R>>,
) -> Result<(), Fault> {
    let totals = sessions.into_inner().totals();
    let text = served_text(rt.alloc(), totals, items)?;
    let printed = write_output(&mut Watched::new(out), text.as_bytes());
    if let Some(door) = door {
        door.remove_file(rt);
    }
    printed?;
    Ok(())
}

/// Serves sessions until there are no more connections, and prints what was counted. What is asked for of each session
/// goes to its files; what cannot be written waits, and is tried again at the next line and each second. Standard error
/// is told when that begins and when it goes on, and at the end how many learned items were dropped, if any were.
///
/// Where it is asked for, those who watch are answered, and standard error gets a line for each session. The number of
/// items that is printed is that of all parts.
///
/// Else 90, 80, 60, or `io write`; and after what was counted 62, or 90 where no worker started, or `io write` where
/// lines of a file are lost.
pub fn serve<'a, R: Files<File = File> + Loops, O: Write + Drop, E: Write + Drop + Send>(
    rt: &'a R,
    loaded: Loaded,
    serving: Serving<'a>,
    outputs: Outputs<O, E>,
    err: &mut E,
) -> Result<(), Refusal<'a>>
    requires cap { loaded.set.cap ≡ loaded.accepted.table.cap }
    requires workers { IsWorkerCount serving.workers }
{
    let alloc = rt.alloc();
    let Outputs { out, log: lines } = outputs;
    let mut out = out;
    let Loaded {
        accepted,
        set,
        kept,
    } = loaded;
    let cap = accepted.cap() as usize;
    let beginning = Beginning::now(rt, &serving, &set);
    let state = state_of(rt, accepted, serving)?;
    let first = set.first();
    let parts = parts_of(
        alloc,
        &state.accepted,
        serving.front,
        first,
        set.into_logs(),
    )?;
    let seats = parts.shared();
    let books = open_books(rt, serving.paths, kept, err)?;
    let doors = open_doors(rt, serving, beginning, &mut out, err)?;
    let door = open_announced(rt, serving, &doors, &mut out, err)?;
    if forgets(serving) {
        tell_in_memory(err);
    }
    let reporter = Reporter::new(rt, alloc, serving.rules, cap, books, &mut *err);
    let reporter = with_arrivals(reporter, alloc, serving, beginning.items)?;
    let log = serving.watching.log.then_some(lines);
    let report = serve_over(
        rt,
        &state,
        &seats,
        &reporter,
        serving,
        beginning,
        &doors,
        door.as_ref(),
        log,
    );
    reporter.follow(When::Last);
    let items = seats.count(rt, alloc, &reporter.floor().range)?;
    doors.remove_files(rt);
    let closed = reporter.close();
    tell_dropped(err, closed.dropped);
    let State { sessions, .. } = state;
    print_served(rt, sessions, items, out, door.as_ref())?;
    match ending(report, closed) {
        Ok(()) => Ok(()),
        Err(fault) => Err(Refusal::of_serving(fault)),
    }
}
