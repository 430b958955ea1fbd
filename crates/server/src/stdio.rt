//! One session over standard input and output, of which nothing else is read or printed.

ghost use Rattle.std.specs.Prelude.{◌≡◌, ◌≤◌, ◌+◌, false, None, IsSome, length};
ghost use Rattle.std.specs.Arc.{arc_value};
ghost use Rattle.definitions.specs.Histories.{content};
ghost use Rattle.definitions.specs.Ranks.{rank_by};
ghost use Rattle.version_lock.specs.declared.view.View.{View};
ghost use Rattle.peer_threads.specs.Choices.{ChosenSpeaks};
ghost use Rattle.peer_threads.specs.Outcomes.{traffic, seen, peer_at};
ghost use Rattle.peer_threads.specs.Workers.{LookedOrNot, PutsInLearned, says};
ghost use Rattle.shard_core.specs.Selectors.{says_part, selecting};
ghost use Rattle.session_table.specs.declared.outcome.Outcome.TheVariants as outcomes;
ghost use Rattle.server.specs.Hellos.{hello_in, own_hello, spoken_by};
ghost use Rattle.server.specs.Wholes.{refusal_of_all};

use crate::asked::Serving;
use crate::books::open_books;
use crate::ledger::Closed;
use crate::logging::{OnlySession, log_session};
use crate::reporting::Reporter;
use digest_core::{Counted, Fingerprint, Print, WireSummary};
use io_core::{Watched, write_output};
use loading::{
    FrameReader, FrameWriter, Loaded, Metered, frames_from, frames_to, millis_since, received_by,
    sent_by,
};
use peer_loops::WRONG_SET;
use peer_threads::{Connection, Gate, Harvest, Outcome, Shared, serve_one, settle};
use printing_core::{Fault, Refusal, Stats, Tally, refusal_of_session, served_text, tell_dropped};
use range_tree::Tree;
use session_table::{SessionTable, Totals};
use shard_core::{AfterSelector, Selecting, SetName, says_part};
use std::alloc::Global;
use std::fs::File;
use std::io;
use std::io::{Read, Write};
use std::rt::Files;
use std::sync::{Arc, Mutex, Wait};
use std::time::{Clock, Instant};
use tcp_front::limited;
use version_lock::{Seat, VersionLock};
use watch_core::SpokenProfile;
use wire_core::encode_fault;

/// The serial of the only session.
const SERIAL: u64 = 1;

/// The number of the refusal where a log has no writer number left, as no new one has.
const WRITERS_SPENT: u8 = 42;

/// Answers the peer of this connection, which speaks first, until the session ends. What the peer was first to know is
/// put into the log, as much of it as the gate admits.
fn answer_peer<T: Wait, G: Gate, I: Read, O: Write>(
    rt: &T,
    alloc: Global,
    shared: &Shared<'_, Tree, G>,
    seat: &mut Seat<Tree>,
    connection: &mut Connection<I, O>,
) -> Outcome
    requires lock { seat.old.table_id ≡ shared.now.lock.now }
    requires fits { seat.old.view.cap ≤ (arc_value shared.now.accepted.now).table.cap }
    requires enrolled { IsSome seat.old.view.writer }
    requires fresh { (connection.old.reader.failed ≡ false) × (connection.old.reader.ended ≡ false)
        × (connection.old.writer.failed ≡ false) }
    ensures seat { seat.new.table_id ≡ seat.old.table_id }
    // The clause of a worker that serves a connection, of this outcome.
    ensures served { (between : View) × LookedOrNot seat.old.view between
        × ChosenSpeaks
        (length (content between.base) ≤ (arc_value shared.now.accepted.now).table.cap)
        (peer_at (arc_value shared.now.accepted.now) between) (length between.base)
        (rank_by (arc_value shared.now.accepted.now).steps
        (length (peer_at (arc_value shared.now.accepted.now) between).items) + 1)
        (arc_value shared.now.accepted.now).table.limit
        (traffic (I.remaining connection.old.reader.inner) (I.remaining connection.new.reader.inner)
        (O.contents connection.old.writer.inner) (O.contents connection.new.writer.inner))
        (seen connection.new.reader.failed connection.new.reader.ended)
        (seen connection.new.writer.failed connection.new.writer.ended) result
        × PutsInLearned (says (G.lets_in shared.now.gate.now) (G.floors shared.now.gate.now)) result between
        seat.new.view }
{
    match serve_one(rt, alloc, shared, seat, connection) {
        Outcome::Ended {
            learned,
            sent,
            version,
        } => {
            let harvest = Harvest {
                serial: SERIAL,
                own: None,
                learned: &learned,
            };
            let _left_out = settle(rt, alloc, shared, seat, harvest);
            Outcome::Ended {
                learned,
                sent,
                version,
            }
        }
        outcome => outcome,
    }
}

/// A session that was answered, and what it cost.
#[derive(Drop)]
struct Answered {
    outcome: Outcome,
    stats: Stats,
    /// The wire profile of the hello that was sent, if one was.
    profile: Option<SpokenProfile>,
}

/// Reads the hello of a peer, or as much of it as comes.
fn hello_of<I: Read>(alloc: Global, reader: &mut I) -> Vec<u8> {
    let mut hello = Vec::new(alloc);
    let length = Fingerprint::hello().len() as u64;
    let _read = reader.take(length).read_to_end(&mut hello);
    hello
}

/// The hello of a wire profile.
fn hello_in(profile: SpokenProfile) -> [u8; 4]
    ensures { result ≡ hello_in profile }
{
    match profile {
        SpokenProfile::One => Fingerprint::hello(),
        SpokenProfile::Two => Counted::hello(),
        SpokenProfile::Compact => Print::hello(),
    }
}

/// The wire profile of a hello, if it is one.
fn profile_of(hello: &[u8]) -> Option<SpokenProfile>
    ensures { result ≡ spoken_by hello.now }
{
    if hello == Fingerprint::hello().as_slice() {
        return Some(SpokenProfile::One);
    }
    if hello == Counted::hello().as_slice() {
        return Some(SpokenProfile::Two);
    }
    if hello == Print::hello().as_slice() {
        return Some(SpokenProfile::Compact);
    }
    None
}

/// Our hello to a peer with this one: in its profile, if it has one.
fn own_hello(hello: &[u8]) -> [u8; 4]
    ensures { result ≡ own_hello hello.now }
{
    hello_in(profile_of(hello).unwrap_or(SpokenProfile::One))
}

/// Writes our hello and a fault frame.
fn tell_refusal<O: Write>(writer: &mut O, hello: [u8; 4], code: u8) -> io::Result<()> {
    writer.write_all(&hello)?;
    writer.write_all(&encode_fault(code))?;
    writer.flush()
}

/// A session that was refused before it had begun, of a peer with this hello, of which so much was received.
fn refused<O: Write + Drop>(
    mut writer: FrameWriter<O>,
    hello: &[u8],
    received: Tally,
    code: u8,
) -> Answered
    ensures { (result.outcome ≡ outcomes.Refused code 0) × (result.stats.received ≡ received)
        × (result.stats.millis ≡ None) }
{
    // The refusal stands, whether the peer is told of it or not.
    let _told = tell_refusal(&mut writer, own_hello(hello), code);
    Answered {
        outcome: Outcome::Refused { code, sent: 0 },
        stats: Stats {
            sent: sent_by(&writer),
            received,
            millis: None,
        },
        profile: profile_of(&writer.hello()),
    }
}

/// The number of the refusal of a peer that speaks of another set, of none, or of a part of its items: over standard
/// input and output all of a set is spoken of.
fn refusal_of(set: SetName<'_>, came: &[u8]) -> Option<u8>
    ensures { result ≡ refusal_of_all (says_part came.now) (selecting set.entry.name.now set.entry.bits came.now) }
{
    let is_said = matches!(set.read(came), Selecting::Selected(..));
    if is_said && says_part(came) {
        return Some(WRONG_SET);
    }
    set.refusal(came)
}

/// Answers a peer over this reader and this writer, and counts what goes through them. One that speaks of another set
/// is refused, if the set has a name.
fn answer_one<T: Wait + Clock + AllocGlobal, G: Gate, I: Read + Drop, O: Write + Drop>(
    rt: &T,
    shared: &Shared<'_, Tree, G>,
    seat: &mut Seat<Tree>,
    ends: (I, O),
    set: Option<SetName<'_>>,
    most_bytes: u32,
) -> Answered
    requires lock { seat.old.table_id ≡ shared.now.lock.now }
    requires fits { seat.old.view.cap ≤ (arc_value shared.now.accepted.now).table.cap }
    requires enrolled { IsSome seat.old.view.writer }
    ensures { seat.new.table_id ≡ seat.old.table_id }
{
    let alloc = rt.alloc();
    let (reader, writer) = ends;
    let writer = frames_to(alloc, writer);
    let Some(set) = set else {
        let reader = frames_from(alloc, reader);
        return answer_counted(rt, alloc, shared, seat, (reader, writer), most_bytes);
    };
    let mut reader = AfterSelector::new(Metered::new(reader));
    let hello = hello_of(alloc, &mut reader);
    if let Some(code) = refusal_of(set, reader.came()) {
        return refused(writer, &hello, reader.inner().tally(), code);
    }
    let selector = reader.came().len() as u64;
    let reader = frames_from(alloc, hello.as_slice().chain(reader));
    let mut answered = answer_counted(rt, alloc, shared, seat, (reader, writer), most_bytes);
    let received = &mut answered.stats.received;
    received.bytes = received.bytes.saturating_add(selector);
    answered
}

/// Answers a peer over this reader and this writer, and counts what goes through them; reads no more than so many bytes
/// of frames.
fn answer_counted<T: Wait + Clock, G: Gate, I: Read + Drop, O: Write + Drop>(
    rt: &T,
    alloc: Global,
    shared: &Shared<'_, Tree, G>,
    seat: &mut Seat<Tree>,
    ends: (FrameReader<I>, FrameWriter<O>),
    most_bytes: u32,
) -> Answered
    requires lock { seat.old.table_id ≡ shared.now.lock.now }
    requires fits { seat.old.view.cap ≤ (arc_value shared.now.accepted.now).table.cap }
    requires enrolled { IsSome seat.old.view.writer }
    ensures { seat.new.table_id ≡ seat.old.table_id }
{
    let (reader, writer) = ends;
    let start = Instant::now(rt).ok();
    let mut connection = Connection::new(limited(reader, most_bytes), writer);
    let outcome = answer_peer(rt, alloc, shared, seat, &mut connection);
    let Connection { reader, writer } = connection;
    let writer = writer.into_inner();
    let stats = Stats {
        sent: sent_by(&writer),
        received: received_by(&reader.into_inner().into_inner()),
        millis: millis_since(rt, start),
    };
    let profile = profile_of(&writer.hello());
    Answered {
        outcome,
        stats,
        profile,
    }
}

/// Prints the line of a session for a log; the table of the server counted so much.
fn log_answered<R: Clock + AllocGlobal, E: Write>(
    rt: &R,
    answered: &Answered,
    totals: Totals,
    err: &mut E,
) {
    let session = OnlySession {
        outcome: &answered.outcome,
        stats: answered.stats,
        profile: answered.profile,
        serial: (totals.opened > 0).then_some(SERIAL),
    };
    log_session(rt, session, err);
}

/// The refusal of a session that ended so, and whose files were closed so.
fn ending(outcome: &Outcome, closed: Closed) -> Result<(), Fault> {
    refusal_of_session(outcome)?;
    closed.all_written()
}

/// Writes all of this to standard error. Else `io write`, of which there is nobody to tell more.
fn print_beside<E: Write>(err: &mut E, text: &[u8]) -> Result<(), Fault> {
    write_output(&mut Watched::new(err), text)?;
    Ok(())
}

/// Serves one session over this reader and this writer. What was counted is printed on standard error, and before it,
/// if that is asked for, a line for the session; what is asked for of the session goes to its files.
///
/// Else 90 or 80; and after what was counted the number of the refusal of this side or of the peer, `io read`, or
/// `io write`, also where lines of a file are lost.
pub fn serve_stdio<'a, R, I: Read + Drop, O: Write + Drop, E: Write + Send>(
    rt: &R,
    loaded: Loaded,
    serving: Serving<'a>,
    ends: (I, O),
    err: &mut E,
) -> Result<(), Refusal<'a>>
where
    R: Files<File = File> + Wait + Clock + AllocGlobal,
    requires cap { loaded.set.cap ≡ loaded.accepted.table.cap }
{
    let alloc = rt.alloc();
    let Loaded {
        accepted,
        set,
        kept,
    } = loaded;
    let cap = accepted.cap() as usize;
    let accepted = Arc::new(alloc, accepted)?;
    let (lock, mut seat) = VersionLock::new(alloc, set.into_first())?;
    let sessions = Mutex::new(SessionTable::starting_at(alloc, 1, SERIAL)?);
    let books = open_books(rt, serving.paths, kept, err)?;
    if lock.enroll(rt, &mut seat).is_err() {
        let code = WRITERS_SPENT;
        return Err(Refusal::from(Fault::Session { code }));
    }
    let reporter = Reporter::new(rt, alloc, serving.rules, cap, books, &mut *err);
    let shared = Shared {
        lock: &lock,
        accepted: &accepted,
        sessions: &sessions,
        gate: &reporter,
    };
    let most = serving.limits.most_bytes;
    let answered = answer_one(rt, &shared, &mut seat, ends, serving.front.set(), most);
    let closed = reporter.close();
    let totals = sessions.into_inner().totals();
    if serving.watching.log {
        log_answered(rt, &answered, totals, err);
    }
    tell_dropped(err, closed.dropped);
    let items = lock.close_with(rt, seat).count();
    let text = served_text(alloc, totals, items)?;
    print_beside(err, text.as_bytes())?;
    match ending(&answered.outcome, closed) {
        Ok(()) => Ok(()),
        Err(fault) => Err(Refusal::of_peer(serving.limits.most_bytes, fault)),
    }
}
