//! Workers that serve connections in threads of their own.

ghost use Rattle.std.specs.Prelude.{◌≡◌, ◌≤◌, ◌<◌, ◌-◌};
ghost use Rattle.std.specs.Thread.{IsSync};
ghost use Rattle.std.specs.Arc.{arc_value};
ghost use Rattle.version_lock.specs.Beginnings.{StartsWith};
ghost use Rattle.peer_threads.specs.Workers.{Outlives, MayWork};

use crate::gate::Gate;
use crate::shared::Shared;
use crate::worker::{Intake, work};
use session_table::{Source, SourceFault, WorkersReport};
use std::alloc::Global;
use std::sync::Wait;
use std::thread::{Threads, join};
use store_core::RangeStore;
use version_lock::Seat;

/// Serves the source's connections by 1 to 16 workers, each in a thread where one can be made and with a seat of its
/// own, until the source has no more.
///
/// What a worker's peer was first to know, by an ended session, is inserted into the log in the order learned, as many
/// items as the gate admits; an item for which there is no room is dropped, and where memory runs out the rest of what
/// was admitted. The gate is told of each item that the log took, of those dropped, and then of how many are left out;
/// and then the source closes the connection.
pub fn run_workers<
    T: Threads + Wait + Sync,
    S: RangeStore + Send,
    G: Gate + Sync,
    C: Source + Sync,
>(
    rt: &T,
    alloc: Global,
    shared: &Shared<'_, S, G>,
    seat: &mut Seat<S>,
    source: &C,
    workers: u8,
) -> WorkersReport
    requires lock { seat.old.table_id ≡ shared.now.lock.now }
    requires fits { seat.old.view.cap ≤ (arc_value shared.now.accepted.now).table.cap }
    requires count { (1 ≤ workers) × (workers ≤ 16) }
    ensures seat { seat.new.table_id ≡ seat.old.table_id }
    ensures view { Outlives seat.old.view seat.new.view }
    ensures started { result.started ≤ workers }
{
    let intake = Intake::new(source);
    let first = shared.lock.split_seat(seat);
    let team = run_half(rt, alloc, shared, &intake, first, workers);
    let started = team.started;
    join_in(rt, shared, seat, team.seat);
    WorkersReport {
        started,
        fault: intake.into_fault(),
    }
}

// The seat of workers that are done, which has seen all that they saw, and how many of them got a writer number.
#[derive(Drop)]
struct Team<S: RangeStore> {
    seat: Seat<S>,
    started: u8,
}

// After this the first seat has seen all that both had seen, and the other is used up.
fn join_in<T: Wait, S: RangeStore, G>(
    rt: &T,
    shared: &Shared<'_, S, G>,
    seat: &mut Seat<S>,
    mut other: Seat<S>,
)
    requires { (seat.old.table_id ≡ shared.now.lock.now) × (other.table_id ≡ shared.now.lock.now) }
    ensures seat { seat.new.table_id ≡ seat.old.table_id }
    ensures view { Outlives seat.old.view seat.new.view }
    ensures other { StartsWith seat.new.view.seen other.view.seen }
{
    shared.lock.meet(rt, seat, &mut other);
    shared.lock.join_seat(seat, other);
}

// So many workers, each half of them beside the other.
fn run_half<T: Threads + Wait + Sync, S: RangeStore + Send, G: Gate + Sync, C: Source + Sync>(
    rt: &T,
    alloc: Global,
    shared: &Shared<'_, S, G>,
    intake: &Intake<'_, C>,
    mut seat: Seat<S>,
    workers: u8,
) -> Team<S>
    requires lock { seat.table_id ≡ shared.now.lock.now }
    requires seat { MayWork (arc_value shared.now.accepted.now).table.cap seat.view }
    requires count { 1 ≤ workers }
    ensures seat { result.seat.table_id ≡ shared.now.lock.now }
    ensures started { result.started ≤ workers }
{
    if workers == 1 {
        let started = u8::from(work(rt, alloc, shared, intake, &mut seat));
        return Team { seat, started };
    }
    let other = shared.lock.split_seat(&mut seat);
    let half = workers / 2;
    let (mut first, second) = join(
        rt,
        move || -> Team<S>
            requires { IsSync T.row × (seat.table_id ≡ shared.now.lock.now)
                × MayWork (arc_value shared.now.accepted.now).table.cap seat.view × (1 ≤ half) }
            ensures { (result.seat.table_id ≡ shared.entry.now.lock.now) × (result.started ≤ half) }
        { run_half(rt, alloc, shared, intake, seat, half) },
        move || -> Team<S>
            requires { IsSync T.row × (other.table_id ≡ shared.now.lock.now)
                × MayWork (arc_value shared.now.accepted.now).table.cap other.view × (half < workers) }
            ensures { (result.seat.table_id ≡ shared.entry.now.lock.now) × (result.started ≤ workers - half) }
        { run_half(rt, alloc, shared, intake, other, workers - half) },
    );
    join_in(rt, shared, &mut first.seat, second.seat);
    first.started += second.started;
    first
}
