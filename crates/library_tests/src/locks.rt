//! Two threads at one log, each with a seat of its lock.

ghost use Rattle.std.specs.Prelude.{◌≡◌, ℕ, Some, None, IsSome};
ghost use Rattle.version_lock.specs.Beginnings.{StartsWith, entries_by};

use crate::support::tables::item;
use range_tree::Tree;
use std::alloc::Global;
use std::process::Abort;
use std::sync::Wait;
use std::thread::{Threads, join};
use store_core::RangeStore;
use version_lock::{InsertFault, Seat, VersionLock};
use version_log::{Added, Log};

type Lock = VersionLock<Tree>;

type TreeSeat = Seat<Tree>;

// The lock over an empty log with room for 200 items, and its first seat.
fn opened(rt: &impl Abort, alloc: Global) -> (Lock, TreeSeat)
    ensures { (result.1.table_id ≡ result.0) × (result.1.view.writer ≡ None) }
{
    let log = Log::new(alloc, 200, &[]);
    let lock = VersionLock::new(alloc, log.ok().expect(rt, "a log"));
    lock.ok().expect(rt, "a lock")
}

fn enroll<R: Wait + Abort>(rt: &R, lock: &Lock, seat: &mut TreeSeat) -> u32
    requires { (seat.old.table_id ≡ lock.now) × (seat.old.view.writer ≡ None) }
    ensures { (seat.new.table_id ≡ lock.now) × IsSome seat.new.view.writer }
{
    lock.enroll(rt, seat).ok().expect(rt, "a number")
}

// A seat, and how many items the lock told it to be new: each byte below this number, after the worker's own.
#[derive(Drop)]
struct Worker {
    seat: TreeSeat,
    added: u8,
}

// Inserts 100 items by waiting.
fn insert_all<R: Wait + Abort>(
    rt: &R,
    alloc: Global,
    lock: &Lock,
    mut seat: TreeSeat,
    who: u8,
) -> Worker
    requires { (seat.table_id ≡ lock.now) × IsSome seat.view.writer }
    ensures { result.seat.table_id ≡ lock.now }
{
    for number in 0..100u8 {
        let added = lock.insert(rt, alloc, &mut seat, item(rt, &[who, number]));
        assert!(rt; matches!(added, Ok(Added::New(_))));
    }
    Worker { seat, added: 100 }
}

// Tries 1,000 times, one item after the other, until 100 are added.
fn try_all<R: Abort>(rt: &R, alloc: Global, lock: &Lock, mut seat: TreeSeat, who: u8) -> Worker
    requires { (seat.table_id ≡ lock.now) × IsSome seat.view.writer }
    ensures { result.seat.table_id ≡ lock.now }
{
    let mut added = 0u8;
    for _ in 0..1000u32 {
        if added == 100 {
            break;
        }
        match lock.try_insert(alloc, &mut seat, item(rt, &[who, added])) {
            Ok(Added::New(_)) => added += 1,
            Err(InsertFault::Busy) => {}
            _ => panic!(rt; "the item is new, and there is room"),
        }
    }
    Worker { seat, added }
}

// The entries of this writer are the worker's items, in order.
fn stand_in_order(rt: &impl Abort, log: &Log<Tree>, writer: u32, who: u8, added: u8) {
    let mut next = 0u8;
    for index in 0..log.version() {
        let entry = log.entry(index);
        if entry.writer() == writer {
            assert!(rt; next < added && *entry.item() == item(rt, &[who, next]));
            next += 1;
        }
    }
    assert!(rt; next == added);
}

// The first seat meets another and joins it. What it has seen then has all that the other added.
fn join_in<R: Wait>(rt: &R, lock: &Lock, first: &mut TreeSeat, mut other: TreeSeat)
    requires { (first.old.table_id ≡ lock.now) × (other.table_id ≡ lock.now) }
    ensures lock { first.new.table_id ≡ lock.now }
    ensures others { (n : ℕ) → other.view.writer ≡ Some n →
        StartsWith (entries_by n first.new.view.seen) other.view.mine }
{
    lock.meet(rt, first, &mut other);
    lock.join_seat(first, other);
}

// A pin by one try has so many items.
fn pins(rt: &impl Abort, alloc: Global, lock: &Lock, seat: &mut TreeSeat, count: usize)
    requires { seat.old.table_id ≡ lock.now }
    ensures { seat.new.table_id ≡ lock.now }
{
    let pin = lock.try_pin(alloc, seat).ok().expect(rt, "one try");
    assert!(rt; pin.version() == count && pin.into_store().len() == count);
}

// The first seat meets both workers and joins them, and closes the lock.
fn close<R: Wait + Abort>(
    rt: &R,
    alloc: Global,
    lock: Lock,
    mut first: TreeSeat,
    one: Worker,
    two: Worker,
)
    requires { (first.table_id ≡ lock) × (one.seat.table_id ≡ lock) × (two.seat.table_id ≡ lock) }
{
    let count = one.added as usize + two.added as usize;
    join_in(rt, &lock, &mut first, one.seat);
    join_in(rt, &lock, &mut first, two.seat);
    pins(rt, alloc, &lock, &mut first, count);
    let log = lock.close_with(rt, first);
    assert!(rt; log.version() == count);
    stand_in_order(rt, &log, 1, 1, one.added);
    stand_in_order(rt, &log, 2, 2, two.added);
}

fn work<R: Wait + Abort>(
    rt: &R,
    alloc: Global,
    lock: &Lock,
    seat: TreeSeat,
    who: u8,
    waits: bool,
) -> Worker
    requires { (seat.table_id ≡ lock.now) × IsSome seat.view.writer }
    ensures { result.seat.table_id ≡ lock.now }
{
    if waits {
        insert_all(rt, alloc, lock, seat, who)
    } else {
        try_all(rt, alloc, lock, seat, who)
    }
}

// Two threads put in their items, by waiting for the lock or by tries.
fn two_threads<R: Wait + Threads + Abort + Sync>(rt: &R, alloc: Global, waits: bool) {
    let (lock, mut first) = opened(rt, alloc);
    let mut one = lock.split_seat(&mut first);
    let mut two = lock.split_seat(&mut first);
    enroll(rt, &lock, &mut one);
    enroll(rt, &lock, &mut two);
    let shared = &lock;
    let (one, two) = join(
        rt,
        move || -> Worker
            requires { (one.table_id ≡ shared.now) × IsSome one.view.writer }
            ensures { result.seat.table_id ≡ shared.entry.now }
        { work(rt, alloc, shared, one, 1, waits) },
        move || -> Worker
            requires { (two.table_id ≡ shared.now) × IsSome two.view.writer }
            ensures { result.seat.table_id ≡ shared.entry.now }
        { work(rt, alloc, shared, two, 2, waits) },
    );
    close(rt, alloc, lock, first, one, two);
}

#[test]
fn two_threads_insert(rt: HostRuntime) {
    two_threads(&rt, rt.alloc(), true);
}

#[test]
fn two_threads_try(rt: HostRuntime) {
    two_threads(&rt, rt.alloc(), false);
}
