//! One run through each call that takes memory and that the program does not make. A body that always says that memory
//! ran out would meet its clauses.

use crate::support::frames::{END, HELLO, SUM_OF_NOTHING, fault, joined};
use crate::support::tables::{HALVES, item, letters, strategy};
use digest_core::{Fingerprint, Print, Summary, WireSummary};
use item_core::Range;
use range_tree::Tree;
use shard_core::{ShardSum, directory_of, entry_of, split};
use std::alloc::Global;
use std::process::Abort;
use std::test::Fail;
use store_core::{FlatStore, Insertion, RangeStore, Span};
use strategy_check::{CheckFault, Ranks, check, check_with};
use version_log::Log;
use wire_core::{Event, Feed, Marks, Message, Part};
use world_core::{Setup, SetupFault, Step, World, run};

/// The calls of a store, through the trait alone: b goes in beside c and a.
fn calls_of_a_store<S: RangeStore>(rt: &impl Abort, alloc: Global) -> Result<(), Fail> {
    let abc = letters(rt, alloc, b"abc")?;
    let two = S::from_items(alloc, letters(rt, alloc, b"ca")?)?;
    let Insertion::New(three) = two.with(alloc, item(rt, b"b"))? else {
        panic!(rt; "there already");
    };
    let copy = three.copy(alloc)?;
    assert!(rt; S::empty(alloc).is_empty() && two.len() == 2);
    assert!(rt; copy.items(alloc, &Range::whole())? == abc);
    assert!(rt; copy.items_at(alloc, Span { from: 0, to: 9 })? == abc);
    Ok(())
}

#[test]
fn of_both_stores(rt: HostRuntime) -> Result<(), Fail> {
    calls_of_a_store::<FlatStore>(&rt, rt.alloc())?;
    calls_of_a_store::<Tree>(&rt, rt.alloc())
}

#[test]
fn of_a_log(rt: HostRuntime) -> Result<(), Fail> {
    let alloc = rt.alloc();
    let log: Log<Tree> = Log::new(alloc, 2, &letters(&rt, alloc, b"ba")?)
        .ok()
        .expect(&rt, "a log");
    assert!(rt; log.version() == 2);
    let first = log.version_at(alloc, 1)?;
    assert!(rt; first.len() == 1 && first.has(&item(&rt, b"b")));
    Ok(())
}

/// Cap 8 and seven rounds: lists one item, halves what is more.
const MORE_ROUNDS: &[u8] =
    b"cap = 8\nlimit = 1\nrounds = 7\nrow = [{upto = 1, list = true}, {upto = 8, split = [1, 1]}]";

/// How many messages an initiator with eight items may send under a table with these steps, or why they are refused.
fn bound_with(
    rt: &impl Abort,
    alloc: Global,
    table: &[u8],
    steps: &[u32],
) -> Result<u32, CheckFault> {
    let ranks = Ranks::from_steps(alloc, steps).ok().expect(rt, "ranks");
    match check_with(strategy(rt, alloc, table), ranks) {
        Ok(accepted) => {
            assert!(rt; 8 <= accepted.cap());
            Ok(accepted.bound_as_initiator(8, false))
        }
        Err(refused) => {
            let (_table, _ranks, fault) = refused;
            Err(fault)
        }
    }
}

#[test]
fn of_ranks_that_are_brought(rt: HostRuntime) {
    let alloc = rt.alloc();
    let too_small = bound_with(&rt, alloc, HALVES, &[1, 3, 4, 8]);
    assert_eq!(rt; too_small, Err(CheckFault::BadCertificate { count: 3 }));
    let too_great = bound_with(&rt, alloc, HALVES, &[1, 2, 3, 4, 5, 6, 7, 8]);
    assert_eq!(rt; too_great, Err(CheckFault::TooDeep { count: 5, rank: 4 }));
    let not_the_least = bound_with(&rt, alloc, MORE_ROUNDS, &[1, 2, 3, 4, 5, 6, 7, 8]);
    assert_eq!(rt; not_the_least, Ok(9));
}

// The digests of a, b and c begin with the bits 11, 00 and 00.
#[test]
fn of_shards(rt: HostRuntime) -> Result<(), Fail> {
    let alloc = rt.alloc();
    let items = letters(&rt, alloc, b"cabb")?;
    let shards = split(alloc, 2, &items, 2).ok().expect(&rt, "room");
    assert!(rt; shards.len() == 4);
    assert!(rt;
        shards[0] == letters(&rt, alloc, b"bc")? && shards[3] == letters(&rt, alloc, b"a")?
    );
    let sum = ShardSum {
        count: 1,
        fingerprint: Fingerprint::of_item(&item(&rt, b"a")),
    };
    let entries = directory_of(alloc, &[sum])?;
    assert!(rt; entries.len() == 1 && entries[0] == entry_of(0, sum));
    Ok(())
}

/// The bytes that spell a summary, which is read from them again.
fn text_of<F: WireSummary>(rt: &impl Abort, alloc: Global, sum: F) -> Result<Vec<u8>, Fail> {
    let mut text = Vec::new(alloc);
    sum.push(&mut text)?;
    assert!(rt; text.len() == F::size());
    assert!(rt; F::read(text.as_slice()).equals(sum));
    Ok(text)
}

/// The first bytes of the digest of a count and two lanes, which hashlib of Python gave.
#[test]
fn of_a_print(rt: HostRuntime) -> Result<(), Fail> {
    let alloc = rt.alloc();
    let store = FlatStore::from_items(alloc, letters(&rt, alloc, b"cab")?)?;
    let all = Print::of_set(store.len(), store.sum(&Range::whole()));
    let none = Print::of_set(0, Fingerprint::zero());
    let text = text_of(&rt, alloc, all)?;
    let other = text_of(&rt, alloc, none)?;
    assert!(rt; text.as_slice() == b"\xa5\x28\x4d\xeb\x21\x83\xfb\x60\xac\xde\x29\x1c".as_slice());
    assert!(rt; other.as_slice() == b"\x6d\xb6\x5f\xd5\x9f\xd3\x56\xf6\x72\x91\x40\x57".as_slice());
    assert!(rt; !all.equals(none));
    Ok(())
}

#[test]
fn of_a_stream(rt: HostRuntime) -> Result<(), Fail> {
    let alloc = rt.alloc();
    let mut feed = Feed::<Fingerprint>::new(alloc);
    let mut events = Vec::new(alloc);
    let two_events = joined(alloc, &[END, &fault(21)])?;
    for piece in [HELLO, SUM_OF_NOTHING, two_events.as_slice()] {
        assert!(rt; feed.feed(alloc, piece, &mut events).is_ok());
    }
    let sum = Event::Part(Part::sum(Range::whole(), Fingerprint::zero()));
    assert_eq!(rt;
        events.as_slice(),
        [sum, Event::End, Event::Fault(21)].as_slice()
    );
    Ok(())
}

#[test]
fn of_a_message(rt: HostRuntime) -> Result<(), Fail> {
    let alloc = rt.alloc();
    let marks = Marks::new(alloc, &[true, false])?;
    let answer = Part::answer(Range::whole(), marks, letters(&rt, alloc, b"a")?)
        .ok()
        .expect(&rt, "a part");
    let sum = Part::sum(Range::whole(), Fingerprint::zero());
    let message = Message::new(vec![in alloc; sum, answer]?)
        .ok()
        .expect(&rt, "a message");
    assert_eq!(rt; message.copy(alloc)?, message);
    Ok(())
}

/// A node of at most eight items, which has this one.
fn add(rt: &impl Abort, alloc: Global, setup: &mut Setup, bytes: &[u8]) {
    let accepted = check(alloc, strategy(rt, alloc, HALVES));
    let accepted = accepted.ok().expect(rt, "accepted");
    assert!(rt; setup.add_node(alloc, accepted, &[item(rt, bytes)]).is_ok());
}

#[test]
fn of_a_node_with_too_many_items(rt: HostRuntime) -> Result<(), Fail> {
    let alloc = rt.alloc();
    let accepted = check(alloc, strategy(&rt, alloc, HALVES));
    let accepted = accepted.ok().expect(&rt, "accepted");
    let mut setup = Setup::new(alloc);
    let refused = setup.add_node(alloc, accepted, &letters(&rt, alloc, b"abcdefghi")?);
    let Err((_, fault)) = refused else {
        panic!(rt; "nine items where eight may be");
    };
    assert!(rt; fault == SetupFault::Full);
    Ok(())
}

#[test]
fn of_a_run(rt: HostRuntime) {
    let alloc = rt.alloc();
    let mut setup = Setup::new(alloc);
    add(&rt, alloc, &mut setup, b"a");
    add(&rt, alloc, &mut setup, b"b");
    let steps = [
        Step::Open(0, 1),
        Step::Deliver(0),
        Step::Deliver(0),
        Step::Deliver(0),
    ];
    let world: World = run(alloc, &setup, &steps).ok().expect(&rt, "memory");
    let report = world.report(0).expect(&rt, "a session");
    assert!(rt; report.ended && report.messages == 3 && report.bound == Some(3));
}
