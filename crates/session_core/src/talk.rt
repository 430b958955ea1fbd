//! What a session says and hears, event by event.

ghost use Rattle.std.specs.Prelude.{◌≡◌, ◌≢◌, ◌-◌, [], true, length, min, OnOk, OnErr};
ghost use Rattle.definitions.specs.Ends.{own_of};
ghost use Rattle.definitions.specs.Wire as wire;
ghost use Rattle.ends_core.specs.Sizes as sizes;
ghost use Rattle.ends_core.specs.Turns.{end_fault_number};
ghost use Rattle.session_core.specs.Kept.{kept_of};
ghost use Rattle.session_core.specs.Outboxes.{less, unwritten};
ghost use Rattle.session_core.specs.Sessions.{Hears, HearsIf, all_made, is_open, beginning, noted, refused_by};
ghost use Rattle.session_core.specs.Sessions.{with_outbox};
ghost use Rattle.ends_core.specs.declared.turn.EndFault.TheVariants as faults;
ghost use Rattle.session_core.specs.declared.state.State.TheVariants as states;

use crate::outbox::Outbox;
use crate::state::State;
use digest_core::WireSummary;
use ends_core::{EndFault, Learned, Role, SessionEnd, known_size};
use std::alloc::{AllocError, Global};
use std::marker::Model;
use store_core::RangeStore;
use wire_core::{Event, Part, encode_fault};

/// An end, how its session stands, and what it has to say.
#[derive(Drop)]
pub(crate) struct Talk<R: Role, S: RangeStore, F: WireSummary> {
    end: SessionEnd<R, S, F>,
    outbox: Outbox<F>,
    state: State,
    // The text of its refusal is made.
    told: bool,
    // What is counted for the open parts of our message that waits for the peer's.
    waits: u64,
}

impl<R: Role, S: RangeStore, F: WireSummary> Model for Talk<R, S, F> {
    ghost use Rattle.std.specs.Prelude.{◌≡◌};
    ghost use Rattle.definitions.specs.Ends.{own_of};
    ghost use Rattle.ends_core.specs.Sizes.{message_size};
    ghost use Rattle.session_core.specs.Sessions.{TalkState};

    ghost Value = { TalkState F };

    ghost view = { λ t. record {
      held = t.end;
      outbox = t.outbox;
      state = t.state;
      told = t.told;
    } };

    ghost invariant = { λ t. t.waits ≡ message_size (own_of t.end.end.stage) };
}

/// What is counted where an end refuses: as before where memory ran out, and else nothing.
fn unless_refused(size: u64, fault: EndFault) -> u64
    ensures memory { fault ≡ faults.Memory → result ≡ size }
    ensures refused { fault ≢ faults.Memory → result ≡ 0 }
{
    if fault == EndFault::Memory {
        return size;
    }
    0
}

impl<R: Role, S: RangeStore, F: WireSummary> Talk<R, S, F> {
    /// Nothing has been heard, and so much is counted for our message that waits.
    pub(crate) fn new(end: SessionEnd<R, S, F>, outbox: Outbox<F>, waits: u64) -> Talk<R, S, F>
        requires { waits ≡ sizes.message_size (own_of end.end.stage) }
        ensures { result ≡ beginning end outbox }
    {
        Talk {
            end,
            outbox,
            state: State::Open,
            told: false,
            waits,
        }
    }

    /// The end.
    pub(crate) fn end(&self) -> &SessionEnd<R, S, F>
        ensures { result.now ≡ self.now.held }
    {
        &self.end
    }

    /// How the session stands.
    pub(crate) fn state(&self) -> State
        ensures { result ≡ self.now.state }
    {
        self.state
    }

    /// Whether it goes on.
    pub(crate) fn is_open(&self) -> bool
        ensures { result ≡ is_open self.now.state }
    {
        matches!(self.state, State::Open)
    }

    /// Refuses, with this number.
    pub(crate) fn refuse(&mut self, code: u8)
        ensures { self.new ≡ refused_by self.old code }
    {
        self.state = State::Refused(code);
        self.told = false;
    }

    /// Hears an event, if there is one: a part, the end of a message, or a fault frame. Where memory runs out nothing
    /// has changed.
    pub(crate) fn hear(&mut self, alloc: Global, event: Option<Event<F>>) -> Result<(), AllocError>
        requires { self.old.state ≡ states.Open }
        ensures heard { OnOk result (HearsIf F.summary F.profile self.old event self.new) }
        ensures memory { OnErr result (self.new ≡ self.old) }
    {
        match event {
            Some(Event::Part(part)) => self.take_part(alloc, &part),
            Some(Event::End) => self.take_end(alloc),
            Some(Event::Fault(code)) => {
                self.state = State::PeerRefused(code);
                Ok(())
            }
            None => Ok(()),
        }
    }

    /// Takes one part of the peer's message.
    fn take_part(&mut self, alloc: Global, part: &Part<F>) -> Result<(), AllocError>
        requires { self.old.state ≡ states.Open }
        ensures heard { OnOk result (Hears F.summary F.profile self.old (wire.Came part.now) self.new) }
        ensures memory { OnErr result (self.new ≡ self.old) }
    {
        match self.end.take(alloc, part) {
            Ok(()) => Ok(()),
            Err(fault) => {
                self.waits = unless_refused(self.waits, fault);
                self.stop(fault)
            }
        }
    }

    /// Takes the end of the peer's message, and says the reply to it, if it wants one.
    fn take_end(&mut self, alloc: Global) -> Result<(), AllocError>
        requires { self.old.state ≡ states.Open }
        ensures heard { OnOk result (Hears F.summary F.profile self.old wire.Ended self.new) }
        ensures memory { OnErr result (self.new ≡ self.old) }
    {
        match self.outbox.answer(alloc, &mut self.end) {
            Ok(waits) => {
                self.waits = waits;
                self.note_end();
                Ok(())
            }
            Err(fault) => {
                self.waits = unless_refused(self.waits, fault);
                self.stop(fault)
            }
        }
    }

    /// The session has ended, if its end says so.
    fn note_end(&mut self)
        ensures { self.new ≡ noted self.old }
    {
        if self.end.is_over() {
            self.state = State::Ended;
        }
    }

    /// Refuses what the end refuses, unless memory ran out.
    fn stop(&mut self, fault: EndFault) -> Result<(), AllocError>
        ensures refused { OnOk result (self.new ≡ refused_by self.old (end_fault_number fault)) }
        ensures memory { OnErr result ((self.new ≡ self.old) × (fault ≡ faults.Memory)) }
        ensures other { OnOk result (fault ≢ faults.Memory) }
    {
        if fault == EndFault::Memory {
            return Err(AllocError);
        }
        self.refuse(fault.number());
        Ok(())
    }

    /// Makes the text of all that is due. Where memory runs out nothing has changed.
    pub(crate) fn make_due(&mut self, alloc: Global) -> Result<(), AllocError>
        ensures made { OnOk result (self.new ≡ with_outbox self.old (all_made F.profile self.old) true) }
        ensures memory { OnErr result (self.new ≡ self.old) }
    {
        match self.state {
            State::Refused(code) if !self.told => self.outbox.make(alloc, &encode_fault(code))?,
            _ => self.outbox.make(alloc, &[])?,
        }
        self.told = true;
        Ok(())
    }

    /// What is counted for it.
    pub(crate) fn kept(&self) -> u64
        ensures { result ≡ kept_of self.now }
    {
        self.end
            .taken_size()
            .saturating_add(self.waits)
            .saturating_add(self.outbox.kept())
            .saturating_add(known_size(self.end.learned()))
    }

    /// What was learned, for good.
    pub(crate) fn into_learned(self) -> Learned
        ensures { result ≡ self.held.end.learned }
    {
        self.end.into_learned()
    }

    /// The bytes that are due and whose text is made.
    pub(crate) fn ready(&self) -> &[u8]
        ensures { result.now ≡ self.now.outbox.ready }
    {
        self.outbox.ready()
    }

    /// Takes this many of these bytes off the front, or all where there are fewer, and returns how many it took.
    pub(crate) fn take(&mut self, count: usize) -> usize
        ensures count { result ≡ min count (length self.old.outbox.ready) }
        ensures rest { self.new ≡ with_outbox self.old (less result self.old.outbox) self.old.told }
    {
        self.outbox.take(count)
    }

    /// How many messages were taken whole.
    pub(crate) fn written(&self) -> u32
        ensures { result ≡ self.now.held.end.sent - unwritten self.now.outbox }
    {
        u64::from(self.end.sent()).saturating_sub(self.outbox.unwritten()) as u32
    }
}
