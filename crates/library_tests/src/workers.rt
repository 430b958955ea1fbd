//! Workers over memory: what they report, what they add to the log, and two sessions at a time.

ghost use Rattle.std.specs.Prelude.{◌≡◌, ◌≤◌};

use crate::engines::opened;
use crate::support::devices::{PieceReader, PieceWriter, Rule, Witness};
use crate::support::frames::{
    ABC_TO_EMPTY, EMPTY_TO_ABC, END, HELLO, LIST_OF_NOTHING, TEACHES_ABC, TEACHES_THREE, joined,
};
use crate::support::tables::{accepted, item, letters};
use item_core::Item;
use peer_threads::{Shared, Source, SourceFault, WorkersReport, run_workers};
use range_tree::Tree;
use session_table::SessionTable;
use std::alloc::Global;
use std::process::Abort;
use std::sync::atomic::{AtomicU64, Ordering};
use std::sync::{Mutex, OnceLock, Wait};
use std::test::Fail;
use std::thread::Threads;
use version_log::Log;

/// Connections whose peers all say the same, 0 to 2 of them; after them there is none, or a fault.
#[derive(Drop)]
struct Peers<'a> {
    alloc: Global,
    input: &'a [&'a [u8]],
    count: u64,
    fault: Option<SourceFault>,
    gate: &'a Witness,
    taken: AtomicU64,
    /// How many connections were closed, and how many sessions were settled by then.
    closed: AtomicU64,
    settled: AtomicU64,
    /// What was written to the first connection, and to the second.
    first: Mutex<Vec<u8>>,
    second: Mutex<Vec<u8>>,
}

impl<'a> Peers<'a> {
    fn new(
        alloc: Global,
        gate: &'a Witness,
        input: &'a [&'a [u8]],
        count: u64,
        fault: Option<SourceFault>,
    ) -> Peers<'a> {
        Peers {
            alloc,
            input,
            count,
            fault,
            gate,
            taken: AtomicU64::new(0),
            closed: AtomicU64::new(0),
            settled: AtomicU64::new(0),
            first: Mutex::new(Vec::new(alloc)),
            second: Mutex::new(Vec::new(alloc)),
        }
    }
}

impl<'a> Source for &'a Peers<'a> {
    type In = PieceReader;

    type Out = PieceWriter<'a>;

    fn take(&self) -> Result<Option<(PieceReader, PieceWriter<'a>)>, SourceFault> {
        let number = self.taken.fetch_add(1, Ordering::SeqCst);
        if number >= self.count {
            return match self.fault {
                Some(fault) => Err(fault),
                None => Ok(None),
            };
        }
        let Ok(bytes) = joined(self.alloc, self.input) else {
            return Err(SourceFault::Memory);
        };
        let held = if number == 0 {
            &self.first
        } else {
            &self.second
        };
        let input = PieceReader {
            bytes,
            taken: 0,
            piece: 7,
        };
        Ok(Some((input, PieceWriter { held, piece: 7 })))
    }

    fn close(&self, _reader: PieceReader, _writer: PieceWriter<'a>) {
        self.closed.fetch_add(1, Ordering::SeqCst);
        let settled = self.gate.settled.load(Ordering::SeqCst);
        self.settled.fetch_max(settled, Ordering::SeqCst);
    }
}

/// What came of workers over a log of these items: their report, and the log.
fn worked<T: Threads + Wait + Abort + Sync>(
    rt: &T,
    alloc: Global,
    items: &[Item],
    next_writer: u64,
    peers: &Peers<'_>,
    workers: u8,
) -> Result<(WorkersReport, Log<Tree>), Fail> {
    assert!(rt; 1 <= workers && workers <= 16);
    let accepted = accepted(rt, alloc);
    let (lock, mut seat) = opened(rt, alloc, &accepted, items, next_writer);
    let sessions = Mutex::new(SessionTable::new(alloc, 2)?);
    let shared = Shared {
        lock: &lock,
        accepted: &accepted,
        sessions: &sessions,
        gate: peers.gate,
    };
    let report = run_workers(rt, alloc, &shared, &mut seat, &peers, workers);
    Ok((report, lock.close_with(rt, seat)))
}

/// Compares what was told of a session's end.
fn told(rt: &impl Abort, end: &OnceLock<String>, wanted: &str) {
    let text = end.get().expect(rt, "a session that ended");
    assert_eq!(rt; text.as_str(), wanted);
}

/// Compares how many items the log took, how many found no room, how many sessions were settled, and how many items
/// these left out. As many connections are to be closed as there were, and none before its session was settled.
fn keeps(rt: &impl Abort, peers: &Peers<'_>, wanted: [u64; 4]) {
    let gate = peers.gate;
    let told = [
        gate.taken.load(Ordering::SeqCst),
        gate.full.load(Ordering::SeqCst),
        gate.settled.load(Ordering::SeqCst),
        gate.left_out.load(Ordering::SeqCst),
    ];
    assert_eq!(rt; told, wanted);
    assert_eq!(rt; peers.closed.load(Ordering::SeqCst), peers.count);
    assert_eq!(rt; peers.settled.load(Ordering::SeqCst), wanted[2]);
}

/// Compares a report.
fn reports(rt: &impl Abort, report: WorkersReport, started: u8, fault: Option<SourceFault>) {
    assert_eq!(rt; report, WorkersReport { started, fault });
}

/// Compares how many entries the log has, one at least, and the last of them.
fn ends_with(rt: &impl Abort, log: &Log<Tree>, count: usize, writer: u32, bytes: &[u8]) {
    assert!(rt; 0 < count && log.version() == count);
    let last = log.entry(count - 1);
    assert!(rt; last.writer() == writer && *last.item() == item(rt, bytes));
}

// An invented report, and workers that take nothing or drop what was learned, fail in this test.
#[test]
fn one_writer_number_is_left(rt: HostRuntime) -> Result<(), Fail> {
    let alloc = rt.alloc();
    let gate = Witness::new(alloc, Rule::Always, usize::MAX);
    let peers = Peers::new(alloc, &gate, TEACHES_ABC, 1, None);
    let (report, log) = worked(&rt, alloc, &[], 4_294_967_295, &peers, 3)?;
    reports(&rt, report, 1, None);
    told(&rt, &gate.first, "Ended ours - theirs abc version 0 sent 1");
    keeps(&rt, &peers, [1, 0, 1, 0]);
    ends_with(&rt, &log, 1, 4_294_967_295, b"abc");
    let written = joined(alloc, &[HELLO, LIST_OF_NOTHING, END])?;
    assert_eq!(rt; *peers.first.lock(&rt), written);
    Ok(())
}

#[test]
fn source_that_fails_at_once(rt: HostRuntime) -> Result<(), Fail> {
    let alloc = rt.alloc();
    let gate = Witness::new(alloc, Rule::Always, usize::MAX);
    let peers = Peers::new(alloc, &gate, &[], 0, Some(SourceFault::Accept));
    let (report, log) = worked(&rt, alloc, &[], 1, &peers, 3)?;
    reports(&rt, report, 3, Some(SourceFault::Accept));
    assert_eq!(rt; SourceFault::Accept.number(), 62);
    assert!(rt; log.version() == 0 && gate.told.load(Ordering::SeqCst) == 0);
    Ok(())
}

/// Serves a peer that teaches aa, x and y over a log of seven items, which has room for one more: it is to take aa, and
/// so many of the others found no room.
fn takes_one_of_three<T: Threads + Wait + Abort + Sync>(
    rt: &T,
    alloc: Global,
    gate: &Witness,
    full: u64,
) -> Result<(), Fail> {
    let peers = Peers::new(alloc, gate, TEACHES_THREE, 1, None);
    let seven = letters(rt, alloc, b"abcdefg")?;
    let (report, log) = worked(rt, alloc, &seven, 1, &peers, 1)?;
    reports(rt, report, 1, None);
    keeps(rt, &peers, [1, full, 1, 2]);
    ends_with(rt, &log, 8, 1, b"aa");
    Ok(())
}

// Workers that add in another order than learned, do not tell that the log was full, try to put in more than is
// admitted, or count only what found no room, fail in this test.
#[test]
fn one_of_three_goes_in(rt: HostRuntime) -> Result<(), Fail> {
    let alloc = rt.alloc();
    takes_one_of_three(
        &rt,
        alloc,
        &Witness::new(alloc, Rule::Always, usize::MAX),
        2,
    )?;
    takes_one_of_three(&rt, alloc, &Witness::new(alloc, Rule::Always, 1), 0)
}

// The gate holds the first session until the second has ended, so both learn abc, which the log lacks. Workers that
// leave out what is there already fail in this test.
#[test]
fn two_learn_the_same(rt: HostRuntime) -> Result<(), Fail> {
    let alloc = rt.alloc();
    let gate = Witness::new(alloc, Rule::SecondFirst, usize::MAX);
    let peers = Peers::new(alloc, &gate, TEACHES_ABC, 2, None);
    let (report, log) = worked(&rt, alloc, &[], 1, &peers, 2)?;
    reports(&rt, report, 2, None);
    keeps(&rt, &peers, [1, 0, 2, 0]);
    assert!(rt; log.version() == 1 && *log.entry(0).item() == item(&rt, b"abc"));
    Ok(())
}

// The gate holds the first session until the second has ended, so workers that serve one connection after the other get
// Refused 54 for the first.
#[test]
fn two_sessions_at_a_time(rt: HostRuntime) -> Result<(), Fail> {
    let alloc = rt.alloc();
    let gate = Witness::new(alloc, Rule::SecondFirst, usize::MAX);
    let peers = Peers::new(alloc, &gate, EMPTY_TO_ABC, 2, None);
    let abc = [item(&rt, b"abc")];
    let (report, log) = worked(&rt, alloc, &abc, 1, &peers, 2)?;
    reports(&rt, report, 2, None);
    told(&rt, &gate.first, "Ended ours abc theirs - version 1 sent 1");
    told(
        &rt,
        &gate.second,
        "Ended ours abc theirs - version 1 sent 1",
    );
    ends_with(&rt, &log, 1, 0, b"abc");
    let written = joined(alloc, ABC_TO_EMPTY)?;
    assert!(rt; *peers.first.lock(&rt) == written && *peers.second.lock(&rt) == written);
    Ok(())
}
