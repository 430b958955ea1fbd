//! One worker: it takes connections from the source, serves each, and adds what their peers were first to know.

ghost use Rattle.std.specs.Prelude.{◌≡◌, ◌≤◌, ◌+◌, true, false, IsSome, IfOk, IfErr, OnOk, OnErr, length, take};
ghost use Rattle.std.specs.Arc.{arc_value};
ghost use Rattle.definitions.specs.Histories.{content};
ghost use Rattle.definitions.specs.Ranks.{rank_by};
ghost use Rattle.version_lock.specs.Calls.{DidNotInsert};
ghost use Rattle.version_lock.specs.declared.view.View.{View};
ghost use Rattle.session_table.specs.declared.outcome.Outcome as outcomes;
ghost use Rattle.peer_threads.specs.Choices.{ChosenSpeaks};
ghost use Rattle.peer_threads.specs.Outcomes.{traffic, seen, peer_at};
ghost use Rattle.peer_threads.specs.Workers.{MayWork, PutIn, PutInAll, IsSettled, LookedOrNot, Taught, PutsInLearned};
ghost use Rattle.peer_threads.specs.Workers.{PutInOrDropped, PutInOrFull, are_own, is_own, learned_in, may_stand, says};
ghost use Rattle.version_log.specs.declared.answer.LogFault.TheVariants.{Memory};

use crate::connection::Connection;
use crate::engines::serve_one;
use crate::gate::Gate;
use crate::noting::Noting;
use crate::shared::Shared;
use ends_core::Learned;
use item_core::Item;
use session_table::{Outcome, Source, SourceFault};
use shard_core::{Floor, OneShard};
use std::alloc::{AllocError, Global};
use std::io::{Read, Write};
use std::sync::{OnceLock, Wait};
use store_core::{PackedItems, RangeStore};
use version_lock::Seat;
use version_log::{Added, LogFault};

/// Where all workers get their connections from.
#[derive(Drop)]
pub(crate) struct Intake<'a, C> {
    source: &'a C,
    // The source's first fault, once it had one.
    fault: OnceLock<SourceFault>,
}

impl<'a, C: Source> Intake<'a, C> {
    /// The source has had no fault so far.
    pub(crate) fn new(source: &'a C) -> Intake<'a, C> {
        Intake {
            source,
            fault: OnceLock::new(),
        }
    }

    /// The next connection; none where there will be no more, or where the source fails.
    fn next<T: Wait>(&self, rt: &T) -> Option<(C::In, C::Out)> {
        match self.source.take() {
            Ok(connection) => connection,
            Err(fault) => {
                let _earlier = self.fault.set(rt, fault);
                None
            }
        }
    }

    /// Closes a connection whose session is over.
    fn close(&self, connection: Connection<C::In, C::Out>) {
        let Connection { reader, writer } = connection;
        self.source.close(reader.into_inner(), writer.into_inner());
    }

    /// The source's first fault, if it had one.
    pub(crate) fn into_fault(self) -> Option<SourceFault> {
        let Intake { source: _, fault } = self;
        fault.into_inner()
    }
}

/// Serves connections until the source has no more. Whether the worker got a writer number; without one it takes no
/// connection.
pub(crate) fn work<T: Wait, S: RangeStore, G: Gate, C: Source>(
    rt: &T,
    alloc: Global,
    shared: &Shared<'_, S, G>,
    intake: &Intake<'_, C>,
    seat: &mut Seat<S>,
) -> bool
    requires lock { seat.old.table_id ≡ shared.now.lock.now }
    requires seat { MayWork (arc_value shared.now.accepted.now).table.cap seat.old.view }
    ensures { seat.new.table_id ≡ seat.old.table_id }
{
    if shared.lock.enroll(rt, seat).is_err() {
        return false;
    }
    serve_all(rt, alloc, shared, intake, seat);
    true
}

// Serves connections until the source has no more.
fn serve_all<T: Wait, S: RangeStore, G: Gate, C: Source>(
    rt: &T,
    alloc: Global,
    shared: &Shared<'_, S, G>,
    intake: &Intake<'_, C>,
    seat: &mut Seat<S>,
)
    requires lock { seat.old.table_id ≡ shared.now.lock.now }
    requires fits { seat.old.view.cap ≤ (arc_value shared.now.accepted.now).table.cap }
    requires enrolled { IsSome seat.old.view.writer }
    ensures { seat.new.table_id ≡ seat.old.table_id }
{
    for _ in rt.forever() {
        let Some((reader, writer)) = intake.next(rt) else {
            return;
        };
        let connection = Connection::new(reader, writer);
        intake.close(serve(rt, alloc, shared, seat, connection));
    }
    unreachable!()
}

// Serves one connection, and gives it back once all that was learned has been put into the log or is left out.
fn serve<T: Wait, S: RangeStore, G: Gate, R: Read + Drop, W: Write + Drop>(
    rt: &T,
    alloc: Global,
    shared: &Shared<'_, S, G>,
    seat: &mut Seat<S>,
    mut connection: Connection<R, W>,
) -> Connection<R, W>
    requires lock { seat.old.table_id ≡ shared.now.lock.now }
    requires fits { seat.old.view.cap ≤ (arc_value shared.now.accepted.now).table.cap }
    requires enrolled { IsSome seat.old.view.writer }
    requires fresh { (connection.reader.failed ≡ false) × (connection.reader.ended ≡ false)
        × (connection.writer.failed ≡ false) }
    ensures seat { seat.new.table_id ≡ seat.old.table_id }
    ensures kept { (seat.new.view.writer ≡ seat.old.view.writer) × (seat.new.view.cap ≡ seat.old.view.cap) }
    ensures served { (between : View) × LookedOrNot seat.old.view between
        × (o : outcomes.Outcome) × ChosenSpeaks
        (length (content between.base) ≤ (arc_value shared.now.accepted.now).table.cap)
        (peer_at (arc_value shared.now.accepted.now) between) (length between.base)
        (rank_by (arc_value shared.now.accepted.now).steps
        (length (peer_at (arc_value shared.now.accepted.now) between).items) + 1)
        (arc_value shared.now.accepted.now).table.limit
        (traffic (R.remaining connection.reader.inner) (R.remaining result.reader.inner)
        (W.contents connection.writer.inner) (W.contents result.writer.inner))
        (seen result.reader.failed result.reader.ended) (seen result.writer.failed result.writer.ended) o
        × PutsInLearned (says (G.lets_in shared.now.gate.now) (G.floors shared.now.gate.now)) o between
        seat.new.view }
{
    if let Some((serial, learned)) = talk_to(rt, alloc, shared, seat, &mut connection) {
        let harvest = Harvest {
            serial,
            own: None,
            learned: &learned,
        };
        let _left_out = settle(rt, alloc, shared, seat, harvest);
    }
    connection
}

// Runs the session of a connection. Its serial and what was learned, where it ended.
fn talk_to<T: Wait, S: RangeStore, G: Gate, R: Read, W: Write>(
    rt: &T,
    alloc: Global,
    shared: &Shared<'_, S, G>,
    seat: &mut Seat<S>,
    connection: &mut Connection<R, W>,
) -> Option<(u64, Learned)>
    requires lock { seat.old.table_id ≡ shared.now.lock.now }
    requires fits { seat.old.view.cap ≤ (arc_value shared.now.accepted.now).table.cap }
    requires fresh { (connection.old.reader.failed ≡ false) × (connection.old.reader.ended ≡ false)
        × (connection.old.writer.failed ≡ false) }
    ensures seat { seat.new.table_id ≡ seat.old.table_id }
    ensures kept { (seat.new.view.writer ≡ seat.old.view.writer) × (seat.new.view.cap ≡ seat.old.view.cap) }
    ensures looked { LookedOrNot seat.old.view seat.new.view }
    ensures taught { Taught (λ o. ChosenSpeaks
        (length (content seat.new.view.base) ≤ (arc_value shared.now.accepted.now).table.cap)
        (peer_at (arc_value shared.now.accepted.now) seat.new.view) (length seat.new.view.base)
        (rank_by (arc_value shared.now.accepted.now).steps
        (length (peer_at (arc_value shared.now.accepted.now) seat.new.view).items) + 1)
        (arc_value shared.now.accepted.now).table.limit
        (traffic (R.remaining connection.old.reader.inner) (R.remaining connection.new.reader.inner)
        (W.contents connection.old.writer.inner) (W.contents connection.new.writer.inner))
        (seen connection.new.reader.failed connection.new.reader.ended)
        (seen connection.new.writer.failed connection.new.writer.ended) o) (learned_in result) }
{
    let noting = Noting::new(shared.gate);
    let own = Shared {
        lock: shared.lock,
        accepted: shared.accepted,
        sessions: shared.sessions,
        gate: &noting,
    };
    match serve_one(rt, alloc, &own, seat, connection) {
        // the gate was told of it, so its serial was noted; 0 is no session's
        Outcome::Ended { learned, .. } => Some((noting.serial().unwrap_or(0), learned)),
        _ => None,
    }
}

/// What a session that ended learned, and where it may be put.
#[derive(Clone, Copy)]
pub struct Harvest<'a> {
    /// The serial of the session.
    pub serial: u64,
    /// The shard that the log has the items of; none if it has those of a whole set.
    pub own: Option<OneShard>,
    /// What the session learned.
    pub learned: &'a Learned,
}

/// What may be put into a log: the items of its shard that are not below the floor.
#[derive(Clone, Copy)]
struct Scope {
    own: Option<OneShard>,
    floor: Floor,
}

/// Puts into the log what the gate admits of the items that a session learned of its peer, in the order learned, and
/// tells the gate how many are left out. An item of another shard, one that is below the floor, or one for which there
/// is no room, is dropped; where memory runs out, so are all that are left. How many are left out.
pub fn settle<T: Wait, S: RangeStore, G: Gate>(
    rt: &T,
    alloc: Global,
    shared: &Shared<'_, S, G>,
    seat: &mut Seat<S>,
    harvest: Harvest<'_>,
) -> usize
    requires lock { seat.old.table_id ≡ shared.now.lock.now }
    requires enrolled { IsSome seat.old.view.writer }
    ensures seat { seat.new.table_id ≡ seat.old.table_id }
    ensures kept { (seat.new.view.writer ≡ seat.old.view.writer) × (seat.new.view.cap ≡ seat.old.view.cap) }
    ensures put { IsSettled (says (G.lets_in shared.now.gate.now) (G.floors shared.now.gate.now)) harvest.entry.serial
        harvest.entry.own harvest.entry.learned.now.theirs seat.old.view seat.new.view result }
    // What it has entered before was of the shard, and so all is.
    ensures own { are_own harvest.entry.own seat.old.view.entered ≡ true →
        are_own harvest.entry.own seat.new.view.entered ≡ true }
{
    let Harvest {
        serial,
        own,
        learned,
    } = harvest;
    let theirs = learned.theirs();
    let count = theirs.len();
    let admitted = count_of_first(theirs, shared.gate.admits(serial, count));
    let scope = Scope {
        own,
        floor: shared.gate.floor(),
    };
    let dropped = add_first(rt, alloc, shared, seat, &scope, theirs, admitted);
    let left_out = count - admitted + dropped;
    shared.gate.settled(serial, left_out);
    left_out
}

// How many the first so many items are: all where there are no more.
fn count_of_first(items: &PackedItems, count: usize) -> usize
    ensures first { take result items.now ≡ take count items.now }
    ensures size { result ≡ length (take count items.now) }
    ensures few { result ≤ length items.now }
{
    count.min(items.len())
}

// Adds the first so many of the items to the log, in order. One that is not in the scope, or for which there is no
// room, is dropped. Where memory runs out it stops, and all that are left of them are dropped. How many were dropped.
fn add_first<T: Wait, S: RangeStore, G: Gate>(
    rt: &T,
    alloc: Global,
    shared: &Shared<'_, S, G>,
    seat: &mut Seat<S>,
    scope: &Scope,
    items: &PackedItems,
    first: usize,
) -> usize
    requires lock { seat.old.table_id ≡ shared.now.lock.now }
    requires enrolled { IsSome seat.old.view.writer }
    requires within { first ≤ length items.now }
    ensures seat { seat.new.table_id ≡ seat.old.table_id }
    ensures kept { (seat.new.view.writer ≡ seat.old.view.writer) × (seat.new.view.cap ≡ seat.old.view.cap) }
    ensures dropped { result ≤ first }
    ensures put { PutInAll (may_stand scope.now.own scope.now.floor) (take first items.now) seat.old.view
        seat.new.view result }
{
    let mut dropped = 0;
    for place in 0..first {
        match add_own(rt, alloc, shared, seat, scope, &items.item(place)) {
            Ok(count) => dropped += count,
            Err(AllocError) => {
                let left = first - place;
                shared.gate.dropped(LogFault::Memory, left);
                return dropped + left;
            }
        }
    }
    dropped
}

// Whether the item is of this shard; of no shard but of a whole set each item is.
fn is_own(own: Option<OneShard>, item: &Item) -> bool
    ensures { result ≡ is_own own item.now }
{
    match own {
        Some(one) => one.owns(item),
        None => true,
    }
}

// Adds the item to the log, if it is of this shard and not below the floor. How many were dropped.
fn add_own<T: Wait, S: RangeStore, G: Gate>(
    rt: &T,
    alloc: Global,
    shared: &Shared<'_, S, G>,
    seat: &mut Seat<S>,
    scope: &Scope,
    item: &Item,
) -> Result<usize, AllocError>
    requires lock { seat.old.table_id ≡ shared.now.lock.now }
    requires enrolled { IsSome seat.old.view.writer }
    ensures seat { seat.new.table_id ≡ seat.old.table_id }
    ensures kept { (seat.new.view.writer ≡ seat.old.view.writer) × (seat.new.view.cap ≡ seat.old.view.cap) }
    ensures few { IfOk result (λ count. count ≤ 1) }
    ensures put { IfOk result
        (PutInOrDropped (may_stand scope.now.own scope.now.floor) item.now seat.old.view seat.new.view) }
    ensures memory { OnErr result (DidNotInsert item.now seat.old.view Memory seat.new.view) }
{
    if !is_own(scope.own, item) {
        return Ok(1);
    }
    if !scope.floor.keeps(item) {
        shared.gate.is_below(item);
        return Ok(1);
    }
    add_or_drop(rt, alloc, shared, seat, item)
}

// Adds the item to the log. Where there is no room for it, it is dropped, and the gate is told. How many were dropped.
fn add_or_drop<T: Wait, S: RangeStore, G: Gate>(
    rt: &T,
    alloc: Global,
    shared: &Shared<'_, S, G>,
    seat: &mut Seat<S>,
    item: &Item,
) -> Result<usize, AllocError>
    requires lock { seat.old.table_id ≡ shared.now.lock.now }
    requires enrolled { IsSome seat.old.view.writer }
    ensures seat { seat.new.table_id ≡ seat.old.table_id }
    ensures kept { (seat.new.view.writer ≡ seat.old.view.writer) × (seat.new.view.cap ≡ seat.old.view.cap) }
    ensures few { IfOk result (λ count. count ≤ 1) }
    ensures put { IfOk result (PutInOrFull item.now seat.old.view seat.new.view) }
    ensures memory { OnErr result (DidNotInsert item.now seat.old.view Memory seat.new.view) }
{
    match add(rt, alloc, shared, seat, item) {
        Ok(()) => Ok(0),
        Err(LogFault::Full) => {
            shared.gate.dropped(LogFault::Full, 1);
            Ok(1)
        }
        Err(LogFault::Memory) => Err(AllocError),
    }
}

// Adds the item to the log, and tells the gate where the log lacked it. Else there was no room for it, or no memory.
fn add<T: Wait, S: RangeStore, G: Gate>(
    rt: &T,
    alloc: Global,
    shared: &Shared<'_, S, G>,
    seat: &mut Seat<S>,
    item: &Item,
) -> Result<(), LogFault>
    requires lock { seat.old.table_id ≡ shared.now.lock.now }
    requires enrolled { IsSome seat.old.view.writer }
    ensures seat { seat.new.table_id ≡ seat.old.table_id }
    ensures kept { (seat.new.view.writer ≡ seat.old.view.writer) × (seat.new.view.cap ≡ seat.old.view.cap) }
    ensures did { OnOk result (PutIn item.now seat.old.view seat.new.view) }
    ensures did_not { IfErr result (λ fault. DidNotInsert item.now seat.old.view fault seat.new.view) }
{
    if let Added::New(_) = shared.lock.insert(rt, alloc, seat, *item)? {
        shared.gate.took(item);
    }
    Ok(())
}
