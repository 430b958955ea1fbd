//! One peer: both ways of its stream, how far it is, and when it was heard.

ghost use Rattle.std.specs.Prelude.{◌≡◌, ◌≢◌, ◌<◌, ◌≤◌, nat_lt, length, Some, OnOk, OnErr, IfSome, IfNone};
ghost use Rattle.session_core.specs.declared.state.State.TheVariants as states;
ghost use Rattle.std.specs.Arc.{arc_value};
ghost use Rattle.std.specs.Io.Take.{take_inner, take_limit, take_remaining};
ghost use Rattle.ends_core.specs.Sides.{peer_of};
ghost use Rattle.range_tree.specs.Trees.{tree_items};
ghost use Rattle.hub_core.specs.Peers as peers;
ghost use Rattle.hub_core.specs.Peers.{CountsSo, EndsPhase, GoesSo, IsFresh, LeavesOff, Learns, Opens, heard_by};
ghost use Rattle.hub_core.specs.Peers.{long_by, sent_in, state_in, version_after, woken};

use crate::greeting::Greeting;
use crate::keeping::Keeping;
use crate::opening::opened;
use crate::phase::Phase;
use ends_core::Learned;
use range_tree::Tree;
use session_core::{LinkFault, Polled, Pumped, State};
use std::alloc::{AllocError, Global};
use std::io::{Read, Take, Write};
use std::marker::Model;
use std::sync::Arc;
use strategy_check::Accepted;

/// How many bytes a message may have that is no longer than others.
const LONG: u64 = 65_536;

/// One peer.
#[derive(Drop)]
pub struct Peer<I, O> {
    reader: Polled<Take<I>>,
    writer: Polled<O>,
    phase: Phase,
    version: usize,
    serial: u64,
    heard: u64,
    arrived: u64,
    long: u64,
    // What its reader keeps.
    waits: u64,
    origin: Option<u128>,
}

impl<I, O> Model for Peer<I, O> {
    ghost use Rattle.hub_core.specs.Peers.{PeerState};

    ghost Value = { PeerState I O };

    ghost view = { λ p. record {
      reader = p.reader;
      writer = p.writer;
      phase = p.phase;
      version = p.version;
      serial = p.serial;
      heard = p.heard;
      arrived = p.arrived;
      long = p.long;
      waits = p.waits;
      origin = p.origin;
    } };
}

/// When a peer was heard last, where this step was made now.
fn heard_at(heard: u64, step: Pumped, now: u64) -> u64
    ensures { result ≡ heard_by heard step now }
{
    if step.read == 0 && step.written == 0 {
        return heard;
    }
    now
}

/// How many bytes came since our last message, where none was said in this step, or one was.
fn long_after(long: u64, step: Pumped, is_same: bool) -> u64
    ensures { result ≡ long_by long step is_same }
{
    if !is_same {
        return 0;
    }
    long.saturating_add(step.read)
}

impl<I: Read + Keeping, O: Write> Peer<I, O> {
    /// A peer that has just come, of no origin, and of which at most so many bytes are read.
    pub fn new(
        alloc: Global,
        reader: I,
        writer: O,
        most_bytes: u64,
        serial: u64,
        now: u64,
    ) -> Peer<I, O>
        ensures { IsFresh reader writer most_bytes serial now result }
    {
        Peer {
            reader: Polled::new(reader.take(most_bytes)),
            writer: Polled::new(writer),
            phase: Phase::Greeting(Greeting::new(alloc)),
            version: 0,
            serial,
            heard: now,
            arrived: now,
            long: 0,
            waits: 0,
            origin: None,
        }
    }

    /// The same peer, which comes from this origin.
    pub fn from_origin(self, origin: Option<u128>) -> Peer<I, O>
        ensures { result ≡ record self { origin = origin } }
    {
        Peer { origin, ..self }
    }

    /// How far it is.
    pub fn phase(&self) -> &Phase
        ensures { result.now ≡ self.now.phase }
    {
        &self.phase
    }

    /// How many bytes of memory are counted for it: those of a greeting, or what the session keeps; and what its reader
    /// keeps.
    pub fn kept(&self) -> u64
        ensures { result ≡ peers.kept self.now }
    {
        self.phase.kept().saturating_add(self.waits)
    }

    /// How many messages were said to it.
    pub fn sent(&self) -> u32
        ensures { result ≡ sent_in self.now.phase }
    {
        self.phase.sent()
    }

    /// What is read of it.
    pub fn reader(&self) -> &I
        ensures { result.now ≡ take_inner self.now.reader.way }
    {
        self.reader.way().get_ref()
    }

    /// How many bytes more are read of it at most.
    pub fn left(&self) -> u64
        ensures { result ≡ take_limit self.now.reader.way }
    {
        self.reader.way().limit()
    }

    /// What its session has learned, where it has ended.
    pub fn learned(&self) -> Option<&Learned>
        ensures learned { IfSome result (λ k. Learns self.now.phase k.now) }
        ensures none { IfNone result (state_in self.now.phase ≢ Some states.Ended) }
    {
        self.phase.learned()
    }

    /// How its session stands, if it is opened.
    pub fn state(&self) -> Option<State>
        ensures { result ≡ state_in self.now.phase }
    {
        self.phase.state()
    }

    /// The number of the version that its session speaks of; 0 before it is opened.
    pub fn version(&self) -> usize
        ensures { result ≡ self.now.version }
    {
        self.version
    }

    /// Its serial.
    pub fn serial(&self) -> u64
        ensures { result ≡ self.now.serial }
    {
        self.serial
    }

    /// Where it comes from, if that is counted.
    pub fn origin(&self) -> Option<u128>
        ensures { result ≡ self.now.origin }
    {
        self.origin
    }

    /// Whether it comes from this origin.
    pub fn is_from(&self, origin: u128) -> bool
        ensures { result ≡ peers.is_from origin self.now }
    {
        match self.origin {
            Some(own) => own == origin,
            None => false,
        }
    }

    /// When a byte of it was last read or written.
    pub fn heard(&self) -> u64
        ensures { result ≡ self.now.heard }
    {
        self.heard
    }

    /// When it came.
    pub fn arrived(&self) -> u64
        ensures { result ≡ self.now.arrived }
    {
        self.arrived
    }

    /// Whether more than 65,536 bytes came since our last message.
    pub fn is_long(&self) -> bool
        ensures { result ≡ nat_lt 65536 self.now.long }
    {
        self.long > LONG
    }

    /// How far it is, and both ways of its stream.
    pub fn into_parts(self) -> (Phase, I, O)
        ensures phase { result.0 ≡ self.phase }
        ensures reader { result.1 ≡ take_inner self.reader.way }
        ensures writer { result.2 ≡ self.writer.way }
    {
        let Peer {
            phase,
            reader,
            writer,
            ..
        } = self;
        (phase, reader.into_inner().into_inner(), writer.into_inner())
    }

    /// Its stream is ready again.
    pub fn wake(&mut self)
        ensures { self.new ≡ woken self.old }
    {
        self.reader.wake();
        self.writer.wake();
    }

    /// The same, before it is asked what the reader keeps.
    fn pump_phase(&mut self, alloc: Global, room: &mut [u8], now: u64) -> Result<Pumped, LinkFault>
        requires room { 0 < length room.old }
        ensures moved { GoesSo self.old.phase self.new.phase (take_remaining I.remaining self.old.reader.way)
            (take_remaining I.remaining self.new.reader.way) (O.contents self.old.writer.way)
            (O.contents self.new.writer.way) result }
        ensures leaves { LeavesOff self.new.phase self.new.reader.last self.new.writer.last result }
        ensures over { OnOk result (EndsPhase self.old.phase self.new.phase self.new.reader.last) }
        ensures counts { CountsSo self.old self.new now result }
        ensures same { (self.new.version ≡ self.old.version) × (self.new.serial ≡ self.old.serial)
            × (self.new.arrived ≡ self.old.arrived) × (self.new.origin ≡ self.old.origin) }
        ensures room { length room.new ≡ length room.old }
    {
        self.wake();
        let sent = self.phase.sent();
        let step = self
            .phase
            .pump(alloc, &mut self.reader, &mut self.writer, room)?;
        self.heard = heard_at(self.heard, step, now);
        self.long = long_after(self.long, step, self.phase.sent() == sent);
        Ok(step)
    }

    /// Reads and writes what can be read and written: at most 16 reads and writes. Its stream may be ready again.
    pub fn pump(&mut self, alloc: Global, room: &mut [u8], now: u64) -> Result<Pumped, LinkFault>
        requires room { 0 < length room.old }
        ensures moved { GoesSo self.old.phase self.new.phase (take_remaining I.remaining self.old.reader.way)
            (take_remaining I.remaining self.new.reader.way) (O.contents self.old.writer.way)
            (O.contents self.new.writer.way) result }
        ensures leaves { LeavesOff self.new.phase self.new.reader.last self.new.writer.last result }
        ensures over { OnOk result (EndsPhase self.old.phase self.new.phase self.new.reader.last) }
        ensures counts { CountsSo self.old self.new now result }
        ensures waits { self.new.waits ≡ I.keeps (take_inner self.new.reader.way) }
        ensures same { (self.new.version ≡ self.old.version) × (self.new.serial ≡ self.old.serial)
            × (self.new.arrived ≡ self.old.arrived) × (self.new.origin ≡ self.old.origin) }
        ensures room { length room.new ≡ length room.old }
    {
        let step = self.pump_phase(alloc, room, now);
        self.waits = self.reader.way().get_ref().kept();
        step
    }

    /// Opens its session over this version of the set. One that is open stays as it is.
    pub fn open(
        &mut self,
        alloc: Global,
        accepted: &Arc<Accepted>,
        store: Tree,
        version: usize,
    ) -> Result<(), AllocError>
        requires { length (tree_items store) ≤ (arc_value accepted.now).table.cap }
        ensures opens { OnOk result (Opens (peer_of (arc_value accepted.now) (tree_items store)) self.old.phase
            self.new.phase) }
        ensures version { OnOk result (self.new.version ≡ version_after self.old.phase self.old.version version) }
        ensures same { self.new ≡ record self.old { phase = self.new.phase; version = self.new.version } }
        ensures memory { OnErr result (self.new ≡ self.old) }
    {
        let Phase::Greeting(greeting) = &self.phase else {
            return Ok(());
        };
        let phase = opened(alloc, accepted, store, greeting)?;
        self.phase = phase;
        self.version = version;
        Ok(())
    }
}
