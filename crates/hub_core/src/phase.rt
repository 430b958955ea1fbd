//! How far a peer is: it greets, or its session goes on in one of the profiles.

ghost use Rattle.std.specs.Prelude.{◌≡◌, ◌≢◌, ◌<◌, length, Some, IfSome, IfNone, OnOk};
ghost use Rattle.session_core.specs.declared.state.State.TheVariants as states;
ghost use Rattle.hub_core.specs.Peers as peers;
ghost use Rattle.hub_core.specs.Peers.{EndsPhase, GoesSo, LeavesOff, Learns, Writes};
ghost use Rattle.hub_core.specs.Peers.{bound_in, goes_on, kept_in, sent_in, state_in, written_in};

use crate::greeting::Greeting;
use digest_core::{Counted, Fingerprint, Print};
use ends_core::{Learned, Responding};
use range_tree::Tree;
use session_core::{LinkFault, Polled, Pumped, Session, State, pump};
use std::alloc::Global;
use std::io::{Read, Write};

/// How far a peer is.
#[derive(Drop)]
pub enum Phase {
    /// Its session is not opened.
    Greeting(Greeting),
    /// It speaks profile 1.
    Plain(Box<Session<Responding, Tree, Fingerprint>>),
    /// It speaks profile 2.
    Counted(Box<Session<Responding, Tree, Counted>>),
    /// It speaks the compact profile.
    Compact(Box<Session<Responding, Tree, Print>>),
}

impl Phase {
    /// How many bytes of memory are counted for it.
    pub fn kept(&self) -> u64
        ensures { result ≡ kept_in self.now }
    {
        match self {
            Phase::Greeting(greeting) => greeting.came().len() as u64,
            Phase::Plain(session) => session.kept(),
            Phase::Counted(session) => session.kept(),
            Phase::Compact(session) => session.kept(),
        }
    }

    /// How many messages were said to it.
    pub fn sent(&self) -> u32
        ensures { result ≡ sent_in self.now }
    {
        match self {
            Phase::Greeting(_) => 0,
            Phase::Plain(session) => session.sent(),
            Phase::Counted(session) => session.sent(),
            Phase::Compact(session) => session.sent(),
        }
    }

    /// How many of them were written whole.
    pub fn written(&self) -> u32
        ensures written { result ≡ written_in self.now }
        // Just so many end within the bytes that were written.
        ensures whole { Writes self.now result }
    {
        match self {
            Phase::Greeting(_) => 0,
            Phase::Plain(session) => session.written(),
            Phase::Counted(session) => session.written(),
            Phase::Compact(session) => session.written(),
        }
    }

    /// How many messages its session says at most; 0 before it is opened.
    pub fn bound(&self) -> u32
        ensures { result ≡ bound_in self.now }
    {
        match self {
            Phase::Greeting(_) => 0,
            Phase::Plain(session) => session.bound(),
            Phase::Counted(session) => session.bound(),
            Phase::Compact(session) => session.bound(),
        }
    }

    /// Whether text of its session is made and not written.
    pub fn owes(&self) -> bool
        ensures { result ≡ peers.owes self.now }
    {
        match self {
            Phase::Greeting(_) => false,
            Phase::Plain(session) => !session.due().is_empty(),
            Phase::Counted(session) => !session.due().is_empty(),
            Phase::Compact(session) => !session.due().is_empty(),
        }
    }

    /// How its session stands, if it is opened.
    pub fn state(&self) -> Option<State>
        ensures { result ≡ state_in self.now }
    {
        match self {
            Phase::Greeting(_) => None,
            Phase::Plain(session) => Some(session.state()),
            Phase::Counted(session) => Some(session.state()),
            Phase::Compact(session) => Some(session.state()),
        }
    }

    /// Whether its session is opened and goes on.
    pub fn is_open(&self) -> bool
        ensures { result ≡ goes_on self.now }
    {
        matches!(self.state(), Some(State::Open))
    }

    /// What its session has learned, where it has ended.
    pub fn learned(&self) -> Option<&Learned>
        ensures learned { IfSome result (λ k. Learns self.now k.now) }
        ensures none { IfNone result (state_in self.now ≢ Some states.Ended) }
    {
        match self {
            Phase::Greeting(_) => None,
            Phase::Plain(session) => session.learned(),
            Phase::Counted(session) => session.learned(),
            Phase::Compact(session) => session.learned(),
        }
    }

    /// The same, for good.
    pub fn into_learned(self) -> Option<Learned>
        ensures learned { IfSome result (λ k. Learns self k) }
        ensures none { IfNone result (state_in self ≢ Some states.Ended) }
    {
        match self {
            Phase::Greeting(_) => None,
            Phase::Plain(session) => Box::into_inner(session).into_learned(),
            Phase::Counted(session) => Box::into_inner(session).into_learned(),
            Phase::Compact(session) => Box::into_inner(session).into_learned(),
        }
    }

    /// Reads and writes what can be read and written.
    pub(crate) fn pump<I: Read, O: Write>(
        &mut self,
        alloc: Global,
        reader: &mut Polled<I>,
        writer: &mut Polled<O>,
        room: &mut [u8],
    ) -> Result<Pumped, LinkFault>
        requires room { 0 < length room.old }
        ensures moved { GoesSo self.old self.new (I.remaining reader.old.way) (I.remaining reader.new.way)
            (O.contents writer.old.way) (O.contents writer.new.way) result }
        ensures leaves { LeavesOff self.new reader.new.last writer.new.last result }
        ensures over { OnOk result (EndsPhase self.old self.new reader.new.last) }
        ensures room { length room.new ≡ length room.old }
    {
        match self {
            Phase::Greeting(greeting) => greeting.pump(reader, writer, room),
            Phase::Plain(session) => pump(alloc, reader, writer, &mut **session, room),
            Phase::Counted(session) => pump(alloc, reader, writer, &mut **session, room),
            Phase::Compact(session) => pump(alloc, reader, writer, &mut **session, room),
        }
    }
}
