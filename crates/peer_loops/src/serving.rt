//! Loops that serve all who come.

ghost use Rattle.std.specs.Prelude.{◌≤◌, ◌+◌};
ghost use Rattle.std.specs.Thread.{IsSync};

use crate::common::Common;
use crate::crowd::{Crowd, Service};
use crate::looping::{Kind, Loop};
use crate::part_gate::PartGate;
use crate::seats::Seats;
use crate::site::Site;
use session_table::WorkersReport;
use std::net::Net;
use std::sync::Wait;
use std::thread::{Threads, join};
use std::time::Clock;
use tcp_front::Listener;

/// Some of the loops, by their numbers: those that take peers from others come first, and then those that accept.
#[derive(Clone, Copy)]
struct Span {
    first: u8,
    count: u8,
}

/// Serves by the loop of this number, with a seat at each part, until nobody will come. Whether it could.
fn work<R: Clock + Wait, G: PartGate>(site: &Site<'_, R, G>, index: usize) -> bool {
    let Some(mut desks) = site.seats.take(site.rt, site.alloc) else {
        return false;
    };
    let Some(mut own) = Loop::new(site, index) else {
        return false;
    };
    own.run(site, &mut desks).is_ok()
}

/// The same; the others are told once it accepts no more. How many loops that accept have served.
fn work_and_leave<R: Clock + Wait, G: PartGate>(site: &Site<'_, R, G>, index: usize) -> u8 {
    let served = work(site, index);
    if site.crowd.kind_of(index) != Kind::Accepts {
        return 0;
    }
    site.crowd.leave();
    u8::from(served)
}

/// So many loops, each half of them beside the other. Where no thread can be made for the first half, it runs after the
/// second. How many loops that accept have served.
fn run_half<R: Threads + Clock + Wait + Sync, G: PartGate + Sync>(
    rt: &R,
    common: &Common<'_, G>,
    crowd: &Crowd<'_>,
    seats: &Seats,
    listener: &Listener<'_, R>,
    span: Span,
) -> u8
    requires count { (1 ≤ span.count) × (span.first + span.count ≤ 255) }
{
    if span.count == 1 {
        let site = Site {
            rt: &*rt,
            alloc: crowd.alloc,
            common: &*common,
            crowd: &*crowd,
            seats: &*seats,
            listener: &*listener,
        };
        return work_and_leave(&site, usize::from(span.first));
    }
    let half = span.count / 2;
    let front = Span {
        first: span.first,
        count: half,
    };
    let back = Span {
        first: span.first + half,
        count: span.count - half,
    };
    let (first, second) = join(
        rt,
        move || -> u8
            requires { IsSync R.row × (1 ≤ front.count) × (front.first + front.count ≤ 255) }
        { run_half(rt, common, crowd, seats, listener, front) },
        move || -> u8
            requires { IsSync R.row × (1 ≤ back.count) × (back.first + back.count ≤ 255) }
        { run_half(rt, common, crowd, seats, listener, back) },
    );
    first.saturating_add(second)
}

/// Serves all who come to the listener, by so many loops that accept, 1 to 16, and as many that take those from them
/// whose messages are long; each runs in a thread where one can be made, with one of these seats at each part. It ends
/// once the listener has no more connections and all who came are gone. The board is told of each of them that is gone,
/// once all that is put in of its session is there.
///
/// A session is opened over the newest version of its part once its first message is whole, and is in the table of
/// sessions from then on. What its peer was first to know, by a session that ended, is put into the part in the order
/// learned, as many items as the gate admits and as are of the part. Then the connection is read on for a second at
/// most, so that what was written last arrives.
///
/// Where memory ran out before a loop ran, none is started.
pub fn serve_peers<R: Net + Threads + Clock + Wait + AllocGlobal + Sync, G: PartGate + Sync>(
    rt: &R,
    common: &Common<'_, G>,
    seats: &Seats,
    listener: &Listener<'_, R>,
    service: Service<'_>,
) -> WorkersReport
    requires count { (1 ≤ service.loops) × (service.loops ≤ 16) }
{
    let both_kinds = service.loops * 2;
    let crowd = match Crowd::new(rt, rt.alloc(), service) {
        Ok(crowd) if listener.never_wait().is_ok() => crowd,
        _ => {
            return WorkersReport {
                started: 0,
                fault: None,
            };
        }
    };
    let span = Span {
        first: 0,
        count: both_kinds,
    };
    let started = run_half(rt, common, &crowd, seats, listener, span);
    WorkersReport {
        started,
        fault: crowd.into_fault(),
    }
}
