//! One session over memory, by either engine: a side with no items that speaks first, and a side with abc that it
//! speaks to. Each read and each write fails in turn, and each beginning of what the peer says is all that comes.

ghost use Rattle.std.specs.Prelude.{◌≡◌, ◌≤◌};
ghost use Rattle.std.specs.Arc.{arc_value};

use crate::support::devices::{Failing, PieceReader, PieceWriter, Rule, Witness, shown_outcome};
use crate::support::frames::{
    ABC_TO_EMPTY, EMPTY_TO_ABC, END, HELLO, SUM_OF_NOTHING, fault, joined,
};
use crate::support::tables::{accepted, item};
use digest_core::Fingerprint;
use item_core::Item;
use peer_threads::{Connection, Outcome, Shared, dial_one, serve_one};
use range_tree::Tree;
use session_table::SessionTable;
use std::alloc::Global;
use std::io::{Read, Write};
use std::process::Abort;
use std::sync::atomic::Ordering;
use std::sync::{Arc, Mutex, Wait};
use std::test::Fail;
use strategy_check::Accepted;
use version_lock::{Seat, VersionLock};
use version_log::Log;

type Lock = VersionLock<Tree>;

type TreeSeat = Seat<Tree>;

/// The lock over a log of these items under the cap 8 with this next writer number, 1 to 4,294,967,296, and its first
/// seat.
pub(crate) fn opened(
    rt: &impl Abort,
    alloc: Global,
    accepted: &Arc<Accepted>,
    items: &[Item],
    next_writer: u64,
) -> (Lock, TreeSeat)
    ensures { (result.1.table_id ≡ result.0) × (result.1.view.cap ≤ (arc_value accepted.now).table.cap) }
{
    assert!(rt; accepted.cap() == 8 && 1 <= next_writer && next_writer <= 1 << 32);
    let log = Log::starting_at(alloc, 8, items, next_writer);
    let lock = VersionLock::new(alloc, log.ok().expect(rt, "a log"));
    lock.ok().expect(rt, "a lock")
}

/// Which side the test's own is.
#[derive(Clone, Copy, Debug, PartialEq, Eq)]
enum Engine {
    Dial,
    Serve,
}

/// What an engine is run over.
#[derive(Clone, Copy)]
struct Case<'a> {
    engine: Engine,
    items: &'a [Item],
    /// All that the peer says.
    input: &'a [u8],
    /// How many reads and writes go well, before one fails.
    reads: u64,
    writes: u64,
}

impl<'a> Case<'a> {
    /// The side that speaks first and has no items.
    fn dials(input: &'a [u8], reads: u64, writes: u64) -> Case<'a> {
        Case {
            engine: Engine::Dial,
            items: &[],
            input,
            reads,
            writes,
        }
    }

    /// The side that is spoken to.
    fn serves(items: &'a [Item], input: &'a [u8]) -> Case<'a> {
        Case {
            engine: Engine::Serve,
            items,
            input,
            reads: u64::MAX,
            writes: u64::MAX,
        }
    }
}

/// One call of the engine.
fn called<T: Wait, R: Read + Drop, W: Write + Drop>(
    rt: &T,
    alloc: Global,
    engine: Engine,
    shared: &Shared<'_, Tree, Witness>,
    seat: &mut TreeSeat,
    input: R,
    output: W,
) -> Outcome
    requires { (seat.old.table_id ≡ shared.now.lock.now)
        × (seat.old.view.cap ≤ (arc_value shared.now.accepted.now).table.cap) }
{
    let mut connection = Connection::new(input, output);
    match engine {
        Engine::Dial => {
            dial_one::<_, _, _, _, _, Fingerprint>(rt, alloc, shared, seat, &mut connection)
        }
        Engine::Serve => serve_one(rt, alloc, shared, seat, &mut connection),
    }
}

/// What the sessions of a test share, beside the log.
#[derive(Clone, Copy)]
struct Ground<'a> {
    accepted: &'a Arc<Accepted>,
    sessions: &'a Mutex<SessionTable>,
    gate: &'a Witness,
    held: &'a Mutex<Vec<u8>>,
}

/// The outcome of one call over a log of its own, shown. A read gives at most 5 bytes, a write takes at most 7.
fn outcome_of<T: Wait + Abort>(
    rt: &T,
    alloc: Global,
    case: &Case<'_>,
    ground: &Ground<'_>,
) -> Result<String, Fail> {
    let input = Failing {
        inner: PieceReader {
            bytes: Vec::from_slice(alloc, case.input)?,
            taken: 0,
            piece: 5,
        },
        calls_left: case.reads,
    };
    let output = Failing {
        inner: PieceWriter {
            held: ground.held,
            piece: 7,
        },
        calls_left: case.writes,
    };
    let (lock, mut seat) = opened(rt, alloc, ground.accepted, case.items, 1);
    let shared = Shared {
        lock: &lock,
        accepted: ground.accepted,
        sessions: ground.sessions,
        gate: ground.gate,
    };
    let outcome = called(rt, alloc, case.engine, &shared, &mut seat, input, output);
    Ok(shown_outcome(alloc, &outcome)?)
}

/// What came of one call.
#[derive(Drop)]
struct Told {
    outcome: String,
    written: Vec<u8>,
    /// How often the gate was told of an end.
    ended: u64,
}

/// What comes of the case at this table of sessions, by a gate of this rule.
fn told_at<T: Wait + Abort>(
    rt: &T,
    alloc: Global,
    case: &Case<'_>,
    rule: Rule,
    sessions: &Mutex<SessionTable>,
) -> Result<Told, Fail> {
    let accepted = accepted(rt, alloc);
    let gate = Witness::new(alloc, rule, usize::MAX);
    let held = Mutex::new(Vec::new(alloc));
    let ground = Ground {
        accepted: &accepted,
        sessions,
        gate: &gate,
        held: &held,
    };
    let outcome = outcome_of(rt, alloc, case, &ground)?;
    Ok(Told {
        outcome,
        written: held.into_inner(),
        ended: gate.told.load(Ordering::SeqCst),
    })
}

/// What comes of the case at a new table of one session. The session is closed then, and the gate was told so, if one
/// was opened.
fn told_once<T: Wait + Abort>(
    rt: &T,
    alloc: Global,
    case: &Case<'_>,
    rule: Rule,
) -> Result<Told, Fail> {
    let sessions = Mutex::new(SessionTable::new(alloc, 1)?);
    let told = told_at(rt, alloc, case, rule, &sessions)?;
    let table = sessions.into_inner();
    assert_eq!(rt; (table.totals().opened, table.live()), (told.ended, 0));
    Ok(told)
}

/// Compares the outcome and all that was written.
fn comes_to(
    rt: &impl Abort,
    alloc: Global,
    told: &Told,
    outcome: &str,
    written: &[&[u8]],
) -> Result<(), Fail> {
    assert_eq!(rt; told.outcome.as_str(), outcome);
    assert_eq!(rt; told.written, joined(alloc, written)?);
    Ok(())
}

const ENDED: &str = "Ended ours - theirs abc version 0 sent 2";

// An engine that always refuses 50 or 54 fails in this test and the next two.
#[test]
fn each_write_fails_in_turn(rt: HostRuntime) -> Result<(), Fail> {
    let alloc = rt.alloc();
    let all = joined(alloc, EMPTY_TO_ABC)?;
    let input = joined(alloc, ABC_TO_EMPTY)?;
    for writes in 0..1_000u64 {
        let told = told_once(
            &rt,
            alloc,
            &Case::dials(&input, u64::MAX, writes),
            Rule::Always,
        )?;
        let count = told.written.len();
        assert!(rt; count <= all.len());
        assert_eq!(rt; told.written.as_slice(), &all[..count]);
        if count == all.len() {
            assert_eq!(rt; told.outcome.as_str(), ENDED);
            return Ok(());
        }
        let outcome = if count < 48 {
            "Io Write sent 0"
        } else {
            "Io Write sent 1"
        };
        assert_eq!(rt; told.outcome.as_str(), outcome);
    }
    panic!(rt; "each write failed");
}

#[test]
fn each_read_fails_in_turn(rt: HostRuntime) -> Result<(), Fail> {
    let alloc = rt.alloc();
    let all = joined(alloc, EMPTY_TO_ABC)?;
    let first = joined(alloc, &[HELLO, SUM_OF_NOTHING, END])?;
    let input = joined(alloc, ABC_TO_EMPTY)?;
    for reads in 0..1_000u64 {
        let told = told_once(
            &rt,
            alloc,
            &Case::dials(&input, reads, u64::MAX),
            Rule::Always,
        )?;
        if told.written.len() == all.len() {
            assert_eq!(rt; told.outcome.as_str(), ENDED);
            return Ok(());
        }
        assert_eq!(rt; told.outcome.as_str(), "Io Read sent 1");
        assert_eq!(rt; told.written.as_slice(), first.as_slice());
    }
    panic!(rt; "each read failed");
}

// The first message ends with the 48th byte, and all with the 69th.
#[test]
fn each_beginning_of_a_session(rt: HostRuntime) -> Result<(), Fail> {
    let alloc = rt.alloc();
    let abc = [item(&rt, b"abc")];
    let all = joined(alloc, EMPTY_TO_ABC)?;
    assert!(rt; all.len() == 69);
    let reply = joined(alloc, ABC_TO_EMPTY)?;
    for count in 0..70usize {
        assert!(rt; count <= all.len());
        let told = told_once(&rt, alloc, &Case::serves(&abc, &all[..count]), Rule::Always)?;
        if count < 48 {
            comes_to(&rt, alloc, &told, "Refused 3 sent 0", &[HELLO, &fault(3)])?;
        } else if count < 69 {
            comes_to(&rt, alloc, &told, "Refused 3 sent 1", &[&reply, &fault(3)])?;
        } else {
            let ended = "Ended ours abc theirs - version 1 sent 1";
            comes_to(&rt, alloc, &told, ended, &[&reply])?;
        }
    }
    Ok(())
}

#[test]
fn no_room_for_a_session(rt: HostRuntime) -> Result<(), Fail> {
    let alloc = rt.alloc();
    let mut table = SessionTable::new(alloc, 1)?;
    let _live = table.open(1).ok().expect(&rt, "a session");
    let sessions = Mutex::new(table);
    let input = joined(alloc, EMPTY_TO_ABC)?;
    let told = told_at(
        &rt,
        alloc,
        &Case::serves(&[], &input),
        Rule::Always,
        &sessions,
    )?;
    comes_to(&rt, alloc, &told, "Refused 50 sent 0", &[HELLO, &fault(50)])?;
    assert_eq!(rt; (sessions.into_inner().totals().opened, told.ended), (1, 0));
    Ok(())
}

#[test]
fn gate_that_lets_nothing_through(rt: HostRuntime) -> Result<(), Fail> {
    let alloc = rt.alloc();
    let abc = [item(&rt, b"abc")];
    let input = joined(alloc, EMPTY_TO_ABC)?;
    let told = told_once(&rt, alloc, &Case::serves(&abc, &input), Rule::Never)?;
    let reply = joined(alloc, ABC_TO_EMPTY)?;
    comes_to(
        &rt,
        alloc,
        &told,
        "Refused 54 sent 1",
        &[&reply, &fault(54)],
    )
}
