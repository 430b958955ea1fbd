//! A turn with a partner: it is connected to, and a session is run over each part that differs.

ghost use Rattle.std.specs.Prelude.{◌≡◌, false, IfOk};
ghost use Rattle.peer_loops.specs.Fronts.{selector_by};

use crate::board::Board;
use crate::chosen::Front;
use crate::common::Common;
use crate::desks::Desks;
use crate::dialing::Dialed;
use crate::extent::Extent;
use crate::link_gate::LinkGate;
use crate::part_gate::PartGate;
use crate::parting::shown;
use crate::partners::{Partner, Partners, Place};
use crate::seats::Seats;
use crate::visiting::found;
use item_core::Range;
use peer_threads::{Connection, Direction, Gate, Outcome};
use shard_core::{SetName, Unequal, Which};
use std::alloc::{AllocError, Global};
use std::io;
use std::io::{Read, Take, Write};
use std::net::{Net, SocketAddr, TcpStream};
use std::sync::Wait;
use std::time::Clock;
use tcp_front::{
    Attended, ConnectFault, Stream, addresses_of, attend, call_unix, connect_any, finish, limited,
};
use watch_core::{Ending, SpokenProfile, Traffic, Turn, Visit};

/// For how many seconds a partner is waited for that does not answer at all.
const MOST_PATIENCE: u32 = 10;

/// How partners are called.
#[derive(Clone, Copy)]
pub struct Links<'a, 'p> {
    /// The partners.
    pub partners: &'a Partners<'p>,
    /// For how many seconds a partner may be silent.
    pub patience: u32,
    /// How many bytes are read of one session.
    pub most_bytes: u32,
    /// Which set the partners are told of, if they are.
    pub front: Front<'a>,
    /// What is told of the sessions, for those who watch.
    pub board: &'a Board,
}

/// Where partners are called.
#[derive(Drop)]
pub(crate) struct Caller<'a, 'p, R, G> {
    pub(crate) rt: &'a R,
    pub(crate) alloc: Global,
    pub(crate) common: &'a Common<'a, G>,
    pub(crate) seats: &'a Seats,
    pub(crate) links: Links<'a, 'p>,
}

/// The time of the steady clock, in milliseconds; 0 if it fails.
pub(crate) fn now<R: Clock>(rt: &R) -> u64 {
    rt.monotonic().map_or(0, |moment| {
        u64::try_from(moment.as_millis()).unwrap_or(u64::MAX)
    })
}

/// Both ways of a connection to a partner: of what is read no more than so many bytes.
pub(crate) type Ways<'s> = Connection<Take<Attended<'s>>, Attended<'s>>;

/// The session that was cut off before it began.
pub(crate) fn cut_off(side: Direction) -> Outcome {
    Outcome::Io { side, sent: 0 }
}

/// Where one call of a partner goes.
#[derive(Clone, Copy)]
pub(crate) enum Spot<'a> {
    Tcp(SocketAddr),
    Unix(&'a str),
}

/// One call of a partner.
#[derive(Clone, Copy)]
pub(crate) struct Callee<'a> {
    /// The address of the partner, as it was given.
    pub(crate) address: &'a str,
    pub(crate) spot: Spot<'a>,
}

/// Connects to a partner.
pub(crate) fn reach<R: Net<Stream = TcpStream>>(
    rt: &R,
    callee: Callee<'_>,
    patience: u32,
) -> Result<Stream, ConnectFault> {
    let patience = patience.min(MOST_PATIENCE);
    match callee.spot {
        Spot::Tcp(address) => connect_any(rt, &[address], patience),
        Spot::Unix(path) => call_unix(rt, path, patience),
    }
}

impl<R, G> Caller<'_, '_, R, G> {
    /// What a partner is told before the hello: of which part it is spoken, and of which range of its items. Nothing
    /// where the set has no name and all of it is meant.
    fn selector(&self, which: Which, range: &Range) -> Result<Vec<u8>, AllocError>
        ensures { IfOk result (λ v. v.items ≡ selector_by self.now.links.front which range.now) }
    {
        let mut selector = Vec::new(self.alloc);
        let set = match self.links.front.set() {
            Some(set) => set,
            None if *range == Range::whole() => return Ok(selector),
            None => SetName::nameless(),
        };
        set.push(&mut selector, which, range)?;
        Ok(selector)
    }

    /// Both ways of this connection, once the partner is told of which part is spoken, and of which range of its items,
    /// if it is told. Else the session is cut off.
    pub(crate) fn ways<'s>(
        &'s self,
        stream: &'s Stream,
        which: Which,
        range: &Range,
    ) -> Result<Ways<'s>, Outcome>
        ensures fresh { IfOk result (λ w. (w.reader.failed ≡ false) × (w.reader.ended ≡ false)
            × (w.writer.failed ≡ false)) }
    {
        let links = &self.links;
        let ending = self.common.news.ending();
        let Ok((reader, mut writer)) = attend(stream, links.patience, ending) else {
            return Err(cut_off(Direction::Read));
        };
        let Ok(selector) = self.selector(which, range) else {
            return Err(Outcome::Memory { sent: 0 });
        };
        let named: io::Result<()> = writer.write_all(&selector);
        if named.is_err() {
            return Err(cut_off(Direction::Write));
        }
        Ok(Connection::new(limited(reader, links.most_bytes), writer))
    }
}

/// A session with a partner that is over, before all is told of it.
#[derive(Clone, Copy)]
pub(crate) struct Over<'s> {
    pub(crate) stream: &'s Stream,
    /// The partner's address of TCP, if it is known.
    pub(crate) address: Option<SocketAddr>,
    pub(crate) serial: Option<u64>,
    pub(crate) which: Which,
    pub(crate) began: u64,
}

impl<R: Wait + Clock, G> Caller<'_, '_, R, G> {
    /// Tells the board of a session that is over, and reads its connection on for a while.
    pub(crate) fn see_off(&self, over: Over<'_>, ways: Ways<'_>, outcome: Outcome) {
        let Connection { reader, writer } = ways;
        let received = reader.into_inner().into_inner().passed();
        let left = u64::from(self.links.most_bytes).saturating_sub(received);
        finish(self.rt, over.stream, left);
        let now = now(self.rt);
        let part = self.links.front.told(over.which);
        let outcome = shown(self.alloc, part, outcome);
        let (ours, theirs) = found(&outcome);
        let visit = Visit {
            address: over.address,
            is_called: true,
            profile: Some(SpokenProfile::One),
            serial: over.serial,
            which: part,
            range: Range::whole(),
            ending: Ending::of(&outcome),
            traffic: Traffic {
                received,
                sent: writer.into_inner().passed(),
                messages: u64::from(outcome.sent()),
                ours,
                theirs,
            },
            millis: now.saturating_sub(over.began),
            ended: now,
        };
        self.links.board.tell(self.rt, visit);
    }
}

impl<R: Wait + Clock, G: PartGate> Caller<'_, '_, R, G> {
    /// Runs the session over this part on this connection, and puts in what it learned. How it ended, and whether
    /// something was put in.
    fn hold(
        &self,
        desks: &mut Desks,
        callee: Callee<'_>,
        which: Which,
        stream: &Stream,
    ) -> (Turn, bool) {
        let began = now(self.rt);
        let address = stream.address();
        let gate = LinkGate::new(
            self.common.gate,
            callee.address,
            self.links.front.told(which),
        );
        let floor = self.common.gate.floor();
        let mut ways = match self.ways(stream, which, &floor.range) {
            Ok(ways) => ways,
            Err(outcome) => return (Turn::of(&outcome), false),
        };
        let place = desks.place_of(Some(which)).unwrap_or(usize::MAX);
        let Some(desk) = desks.list.get_mut(place) else {
            return (Turn::CutOff, false);
        };
        let shared = (self.common, &gate);
        let extent = Extent {
            floor: &floor.range,
            range: &floor.range,
        };
        let called = desk.call(self.rt, self.alloc, shared, extent, &mut ways);
        let Dialed { outcome, has_put } = called.unwrap_or(Dialed {
            outcome: Outcome::Memory { sent: 0 },
            has_put: false,
        });
        if has_put {
            // Others look for it in the newest parts.
            desks.follow(self.rt, self.alloc, self.common, self.seats);
            self.common.news.tell(self.rt);
        }
        let turn = Turn::of(&outcome);
        let over = Over {
            stream,
            address,
            serial: gate.serial(),
            which,
            began,
        };
        self.see_off(over, ways, outcome);
        (turn, has_put)
    }
}

impl<R: Net<Stream = TcpStream> + Wait + Clock, G: PartGate> Caller<'_, '_, R, G> {
    /// Connects to a partner, and runs the session over this part. How it ended, and whether something was put in.
    fn call_part(&self, desks: &mut Desks, callee: Callee<'_>, which: Which) -> (Turn, bool) {
        match reach(self.rt, callee, self.links.patience) {
            Ok(stream) => self.hold(desks, callee, which, &stream),
            Err(_) => (Turn::NotReached, false),
        }
    }

    /// Runs a session over each of these shards that both sides keep, one after the other, until one does not end. How
    /// the last one ended, and how often something was put in.
    fn call_shards(
        &self,
        desks: &mut Desks,
        callee: Callee<'_>,
        unequal: Vec<Unequal>,
    ) -> (Turn, u64) {
        let mut puts: u64 = 0;
        for shard in unequal {
            if shard.ours.is_none() || shard.theirs.is_none() {
                continue;
            }
            let (turn, has_put) = self.call_part(desks, callee, Which::Shard(shard.number));
            puts = puts.saturating_add(u64::from(has_put));
            if turn != Turn::Ended || self.common.news.is_over() {
                return (turn, puts);
            }
        }
        (Turn::Ended, puts)
    }

    /// Runs a session over the set, or over each of its shards that differs, one after the other, until one does not
    /// end. How the last one ended, and how often something was put in.
    fn call_at(&self, desks: &mut Desks, callee: Callee<'_>) -> (Turn, u64) {
        let Front::Cut(set) = self.links.front else {
            let (turn, has_put) = self.call_part(desks, callee, Which::Shard(0));
            return (turn, u64::from(has_put));
        };
        match self.ask_directory(desks, set, callee) {
            Ok(unequal) => self.call_shards(desks, callee, unequal),
            Err(turn) => (turn, 0),
        }
    }

    /// Calls a partner at each of these addresses, one after the other. How it stands, and how often something was put
    /// in that each address has: where there are several, none.
    fn call_each(
        &self,
        desks: &mut Desks,
        partner: Partner<'_>,
        addresses: &[SocketAddr],
    ) -> (Turn, u64) {
        let mut turn = Turn::NotReached;
        let mut puts: u64 = 0;
        for address in addresses {
            let callee = Callee {
                address: partner.address,
                spot: Spot::Tcp(*address),
            };
            let (one, put) = self.call_at(desks, callee);
            turn = turn.beside(one);
            puts = if addresses.len() == 1 { put } else { 0 };
            if self.common.news.is_over() {
                return (turn, puts);
            }
        }
        (turn, puts)
    }

    /// Runs a turn of a partner: a session over the set, or over each of its shards that differs, at each address of
    /// its name, which is looked up anew each time. How it ended, and how often something was put in that the partner
    /// has.
    pub(crate) fn call(&self, desks: &mut Desks, partner: Partner<'_>) -> (Turn, u64) {
        let name = match partner.place {
            Place::Tcp(name) => name,
            Place::Unix(path) => {
                let callee = Callee {
                    address: partner.address,
                    spot: Spot::Unix(path),
                };
                return self.call_at(desks, callee);
            }
        };
        match addresses_of(self.rt, self.alloc, name) {
            Ok(addresses) => self.call_each(desks, partner, &addresses),
            Err(_) => (Turn::NotReached, 0),
        }
    }
}
