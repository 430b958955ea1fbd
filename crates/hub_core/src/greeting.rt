//! A peer before its session is opened: its bytes are kept, and our hello is written as soon as its own has come.

ghost use Rattle.std.specs.Prelude.{◌≡◌, ◌≢◌, ◌<◌, ◌≤◌, ◌+◌, ◌++◌, [], true, false, length, take, drop, OnOk};
ghost use Rattle.std.specs.Prelude.{OnErr, IfOk};
ghost use Rattle.std.specs.Io.KnownBytes.{Consumes, Appends};
ghost use Rattle.session_core.specs.declared.fault.LinkFault.TheVariants as faults;
ghost use Rattle.hub_core.specs.Greetings as greetings;
ghost use Rattle.hub_core.specs.Greetings.{Greets, own_hello};
ghost use Rattle.hub_core.specs.Steps.{EndsGreeting, GreetsSo, LeavesGreeting, RestsGreeting, is_ready};

use crate::due::{HELLO, is_compact, is_counted, is_due, rest_of};
use digest_core::{Counted, Fingerprint, Print, WireSummary};
use session_core::{Last, LinkFault, Pause, Polled, Pumped, both, pause_of};
use std::alloc::{AllocError, Global};
use std::io::{Read, Write};
use std::marker::Model;

/// How many reads and writes one call makes at most.
const TURNS: usize = 16;

/// A peer before its session is opened.
#[derive(Drop)]
pub struct Greeting {
    // All bytes that were read of it.
    came: Vec<u8>,
    // How many bytes of our hello were written.
    said: usize,
    // Its input has ended.
    over: bool,
}

impl Model for Greeting {
    ghost use Rattle.hub_core.specs.Greetings.{GreetingState, IsGreeting};

    ghost Value = { GreetingState };

    ghost view = { λ g. record { came = g.came.items; said = g.said; over = g.over } };

    ghost invariant = { λ g. IsGreeting (record { came = g.came.items; said = g.said; over = g.over }) };
}

impl Greeting {
    /// No byte has come.
    pub fn new(alloc: Global) -> Greeting
        ensures { result ≡ record { came = []; said = 0; over = false } }
    {
        Greeting {
            came: Vec::new(alloc),
            said: 0,
            over: false,
        }
    }

    /// All bytes that were read of it.
    pub fn came(&self) -> &[u8]
        ensures { result.now ≡ self.now.came }
    {
        &self.came
    }

    /// How many bytes of our hello were written.
    pub fn said(&self) -> usize
        ensures said { result ≡ self.now.said }
        ensures few { result ≤ 4 }
    {
        self.said
    }

    /// Whether its input has ended.
    pub fn is_over(&self) -> bool
        ensures { result ≡ self.now.over }
    {
        self.over
    }

    /// Whether it speaks profile 2.
    pub fn is_counted(&self) -> bool
        ensures { result ≡ greetings.is_counted self.now.came }
    {
        is_counted(&self.came)
    }

    /// Whether it speaks the compact profile.
    pub fn is_compact(&self) -> bool
        ensures { result ≡ greetings.is_compact self.now.came }
    {
        is_compact(&self.came)
    }

    /// The hello that is written to it.
    pub fn hello(&self) -> [u8; 4]
        ensures { result ≡ own_hello self.now.came }
    {
        if is_counted(&self.came) {
            return Counted::hello();
        }
        if is_compact(&self.came) {
            return Print::hello();
        }
        Fingerprint::hello()
    }

    /// Writes once of our hello.
    fn say_once<O: Write>(&mut self, writer: &mut Polled<O>) -> Result<Pumped, LinkFault>
        requires four { 4 ≤ length self.old.came }
        requires some { self.old.said < 4 }
        ensures leaves { (r : _) → LeavesGreeting self.new r writer.new.last result }
        ensures moved { (unread : _) → GreetsSo self.old self.new unread unread (O.contents writer.old.way)
            (O.contents writer.new.way) result }
        ensures over { self.new.over ≡ self.old.over }
    {
        let hello = self.hello();
        let count = writer.write(rest_of(&hello, self.said));
        self.said += count;
        let pause = pause_of(writer.last(), LinkFault::Write)?;
        Ok(Pumped {
            pause,
            read: 0,
            written: count as u64,
        })
    }

    /// Keeps what a read gave.
    fn keep(&mut self, piece: &[u8], over: bool) -> Result<(), AllocError>
        ensures kept { OnOk result ((unread left held : _) → Consumes unread left piece.now →
            Greets self.old self.new unread left held held piece.now [] []) }
        ensures over { OnOk result (self.new.over ≡ over) }
        ensures said { self.new.said ≡ self.old.said }
        ensures memory { OnErr result (self.new ≡ self.old) }
    {
        self.came.extend_from_slice(piece)?;
        self.over = over;
        Ok(())
    }

    /// Reads once, and keeps what came. No byte of our hello is due.
    fn hear_once<I: Read>(
        &mut self,
        reader: &mut Polled<I>,
        room: &mut [u8],
    ) -> Result<Pumped, LinkFault>
        requires room { 0 < length room.old }
        requires written { 4 ≤ length self.old.came → self.old.said ≡ 4 }
        requires waits { is_ready self.old ≡ false }
        ensures moved { (held : _) → GreetsSo self.old self.new (I.remaining reader.old.way)
            (I.remaining reader.new.way) held held result }
        ensures leaves { (w : _) → LeavesGreeting self.new reader.new.last w result }
        ensures over { OnOk result (EndsGreeting self.old self.new reader.new.last) }
        ensures room { length room.new ≡ length room.old }
    {
        let count = reader.read(room);
        self.keep(&room[..count], reader.last() == Last::Ended)?;
        let pause = pause_of(reader.last(), LinkFault::Read)?;
        Ok(Pumped {
            pause,
            read: count as u64,
            written: 0,
        })
    }

    /// Writes once of our hello, where the peer's has come; else it asks for the session, or reads once.
    fn move_once<I: Read, O: Write>(
        &mut self,
        reader: &mut Polled<I>,
        writer: &mut Polled<O>,
        room: &mut [u8],
    ) -> Result<Pumped, LinkFault>
        requires room { 0 < length room.old }
        ensures moved { GreetsSo self.old self.new (I.remaining reader.old.way) (I.remaining reader.new.way)
            (O.contents writer.old.way) (O.contents writer.new.way) result }
        ensures leaves { LeavesGreeting self.new reader.new.last writer.new.last result }
        ensures over { OnOk result (EndsGreeting self.old self.new reader.new.last) }
        ensures rests { OnOk result (RestsGreeting self.old self.new reader.old.last reader.new.last) }
        ensures room { length room.new ≡ length room.old }
    {
        if self.came.len() >= HELLO && self.said < HELLO {
            return self.say_once(writer);
        }
        if self.over || is_due(&self.came) {
            return Ok(Pumped {
                pause: Pause::Opens,
                read: 0,
                written: 0,
            });
        }
        self.hear_once(reader, room)
    }

    /// Reads on and writes our hello, until the session is to be opened: 16 reads and writes at most.
    pub(crate) fn pump<I: Read, O: Write>(
        &mut self,
        reader: &mut Polled<I>,
        writer: &mut Polled<O>,
        room: &mut [u8],
    ) -> Result<Pumped, LinkFault>
        requires room { 0 < length room.old }
        ensures moved { GreetsSo self.old self.new (I.remaining reader.old.way) (I.remaining reader.new.way)
            (O.contents writer.old.way) (O.contents writer.new.way) result }
        ensures leaves { LeavesGreeting self.new reader.new.last writer.new.last result }
        ensures over { OnOk result (EndsGreeting self.old self.new reader.new.last) }
        ensures rests { OnOk result (RestsGreeting self.old self.new reader.old.last reader.new.last) }
        ensures room { length room.new ≡ length room.old }
    {
        let mut step = self.move_once(reader, writer, room)?;
        for _turn in 1..TURNS {
            if step.pause != Pause::More {
                return Ok(step);
            }
            let next = self.move_once(reader, writer, room)?;
            step = both(step, next);
        }
        Ok(step)
    }
}
