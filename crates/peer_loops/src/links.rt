//! Threads that call the partners of a server.

use crate::calling::{Caller, Links, now};
use crate::common::Common;
use crate::desks::Desks;
use crate::part_gate::PartGate;
use crate::partners::Call;
use crate::seats::Seats;
use std::net::{Net, TcpListener, TcpStream};
use std::sync::Wait;
use std::thread::{Threads, join};
use std::time::Clock;

/// What links run over: connections, threads and a clock.
pub trait LinkRuntime: Net<Listener = TcpListener, Stream = TcpStream>
    + Threads
    + Wait
    + Clock
    + AllocGlobal
    + Sync {}

impl<R> LinkRuntime for R
where
    R: Net<Listener = TcpListener, Stream = TcpStream>
        + Threads
        + Wait
        + Clock
        + AllocGlobal
        + Sync,
{}

impl<R: Net<Stream = TcpStream> + Wait + Clock, G: PartGate> Caller<'_, '_, R, G> {
    /// Runs the turn of a partner, and notes when the next one is.
    fn take_turn(&self, desks: &mut Desks, call: Call<'_>) {
        let (turn, puts) = self.call(desks, call.partner);
        let news = self.common.news.count(self.rt);
        // what this turn has put in the partner has
        let seen = if news == call.news.saturating_add(puts) {
            news
        } else {
            call.news
        };
        let over = (now(self.rt), seen);
        let told = self.links.partners.is_over(self.rt, call.index, turn, over);
        if self.common.news.is_over() {
            return;
        }
        if let Some(told) = told {
            self.common.gate.is_told(call.partner.address, told);
        }
    }

    /// Calls partners as their time comes, until the server is done.
    fn run(&self, desks: &mut Desks) {
        for _ in self.rt.forever() {
            if self.common.news.is_over() || self.links.board.is_stopping() {
                return;
            }
            desks.follow(self.rt, self.alloc, self.common, self.seats);
            let news = self.common.news.count(self.rt);
            let now = now(self.rt);
            match self.links.partners.next(self.rt, now, news) {
                Some(call) => self.take_turn(desks, call),
                None => {
                    let wait = self.links.partners.wait(self.rt, now, news);
                    let _is_over = self.common.news.wait(self.rt, news, wait);
                }
            }
        }
        unreachable!()
    }
}

/// Calls partners with one of these seats, if the thread of this number is wanted.
fn call_by_one<R, G>(
    rt: &R,
    common: &Common<'_, G>,
    seats: &Seats,
    links: Links<'_, '_>,
    number: usize,
)
where
    R: LinkRuntime,
    G: PartGate + Sync,
{
    if number >= links.partners.threads() {
        return;
    }
    let Some(mut desks) = seats.take(rt, rt.alloc()) else {
        return;
    };
    let caller = Caller {
        rt: &*rt,
        alloc: rt.alloc(),
        common: &*common,
        seats: &*seats,
        links,
    };
    caller.run(&mut desks);
}

/// The same by two threads, of which this is the number of the first.
fn call_by_two<R, G>(
    rt: &R,
    common: &Common<'_, G>,
    seats: &Seats,
    links: Links<'_, '_>,
    first: usize,
)
where
    R: LinkRuntime,
    G: PartGate + Sync,
{
    if first.saturating_add(1) >= links.partners.threads() {
        return call_by_one(rt, common, seats, links, first);
    }
    let (_one, _other) = join(
        rt,
        move || call_by_one(rt, common, seats, links, first),
        move || call_by_one(rt, common, seats, links, first.saturating_add(1)),
    );
}

/// The same by four threads.
fn call_by_four<R, G>(
    rt: &R,
    common: &Common<'_, G>,
    seats: &Seats,
    links: Links<'_, '_>,
    first: usize,
)
where
    R: LinkRuntime,
    G: PartGate + Sync,
{
    if first.saturating_add(2) >= links.partners.threads() {
        return call_by_two(rt, common, seats, links, first);
    }
    let (_two, _others) = join(
        rt,
        move || call_by_two(rt, common, seats, links, first),
        move || call_by_two(rt, common, seats, links, first.saturating_add(2)),
    );
}

/// Calls the partners by as many threads as there are partners, at most 8, each with one of these seats at each part,
/// until the news say that the server is done. Each partner is called once the pause after its last session is over,
/// and sooner if there is news. A session is opened over the newest version of its part; what the partner was first to
/// know, by a session that ended, is put in as the loops of `serve_peers` put in what they learn.
///
/// Where a thread cannot be made, its partners are called by the others.
pub fn call_partners<R, G>(rt: &R, common: &Common<'_, G>, seats: &Seats, links: Links<'_, '_>)
where
    R: LinkRuntime,
    G: PartGate + Sync,
{
    if links.partners.threads() <= 4 {
        return call_by_four(rt, common, seats, links, 0);
    }
    let (_four, _others) = join(
        rt,
        move || call_by_four(rt, common, seats, links, 0),
        move || call_by_four(rt, common, seats, links, 4),
    );
}
