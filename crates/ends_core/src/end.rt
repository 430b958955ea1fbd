//! What the two ends of a session share.

ghost use Rattle.std.specs.Prelude.{◌≡◌, ◌≤◌, ◌<◌, true, false, length, None, IfSome, IfNone, IfErr, Err, OnOk};
ghost use Rattle.std.specs.Arc.{arc_value};
ghost use Rattle.definitions.specs.Messages as messages;
ghost use Rattle.definitions.specs.Placing as placing;
ghost use Rattle.definitions.specs.Ends as ends;
ghost use Rattle.definitions.specs.Ends.{is_live, is_over};
ghost use Rattle.definitions.specs.Taking.{taken, ended, by_parts};
ghost use Rattle.ends_core.specs.EndStates.{IsAble, stage_of, taken_of};
ghost use Rattle.ends_core.specs.Drafts.{nothing_drafted};
ghost use Rattle.ends_core.specs.Turns.{answer_in, told_in, refusal_of, fresh, after_part, after_parts, after_end};
ghost use Rattle.ends_core.specs.Turns.{after_message, refused, spend};
ghost use Rattle.ends_core.specs.Closing.{IsClosed, IsTaking};
ghost use Rattle.ends_core.specs.Sizes.{taken_size};
ghost use Rattle.definitions.specs.Refusals.{spent};
ghost use Rattle.definitions.specs.Talks.{nothing};

use crate::draft::Draft;
use crate::learned::Learned;
use crate::stage::Stage;
use crate::taking::take_part;
use crate::turn::{EndFault, Turn};
use digest_core::WireSummary;
use place_core::Place;
use std::alloc::{AllocError, Global};
use std::marker::Model;
use std::mem;
use std::sync::Arc;
use store_core::RangeStore;
use strategy_check::Accepted;
use wire_core::{Message, Part};

/// An end of a session: who speaks, where the session stands, what it took of a message, and what was learned.
#[derive(Drop)]
pub(crate) struct End<S: RangeStore, F: WireSummary> {
    accepted: Arc<Accepted>,
    store: S,
    stage: Stage<F>,
    draft: Draft<F>,
    sent: u32,
    learned: Learned,
}

impl<S: RangeStore, F: WireSummary> Model for End<S, F> {
    ghost use Rattle.std.specs.Arc.{arc_value};
    ghost use Rattle.definitions.specs.Ends as ends;
    ghost use Rattle.ends_core.specs.EndStates.{EndState, stage_of, taken_of};

    ghost Value = { EndState F };

    ghost view = { λ a. record {
      steps = (arc_value a.accepted).steps;
      end = record {
        peer = record { table = (arc_value a.accepted).table; items = S.content a.store };
        stage = stage_of a.stage;
        sent = a.sent;
        learned = a.learned;
      };
      taken = taken_of a.stage a.draft;
    } };
}

impl<S: RangeStore, F: WireSummary> End<S, F> {
    /// An end that has received nothing, and is spoken to first.
    pub(crate) fn responding(alloc: Global, accepted: Arc<Accepted>, store: S) -> End<S, F>
        ensures { result ≡ fresh (arc_value accepted).steps (ends.responder F.summary
            (record { table = (arc_value accepted).table; items = S.content store })) }
    {
        End {
            accepted,
            store,
            stage: Stage::Open(Place::opening(alloc)),
            draft: Draft::nothing(alloc),
            sent: 0,
            learned: Learned::nothing(alloc),
        }
    }

    /// An end that has sent its first message, after which this place stands.
    pub(crate) fn initiating(
        alloc: Global,
        accepted: Arc<Accepted>,
        store: S,
        place: Place<F>,
    ) -> End<S, F>
        requires { place ≡ record {
          first = false;
          cut = place.cut;
          own = place.own;
          now = placing.place_after place.own;
        } }
        ensures { result ≡ fresh (arc_value accepted).steps (record {
          peer = record { table = (arc_value accepted).table; items = S.content store };
          stage = ends.Waits place.own;
          sent = 1;
          learned = nothing;
        }) }
    {
        End {
            accepted,
            store,
            stage: Stage::Open(place),
            draft: Draft::nothing(alloc),
            sent: 1,
            learned: Learned::nothing(alloc),
        }
    }

    /// The accepted strategy.
    pub(crate) fn accepted(&self) -> &Accepted
        ensures { result.now ≡ record { table = self.now.end.peer.table; steps = self.now.steps } }
    {
        &self.accepted
    }

    /// How many items it has: no more than its strategy's cap.
    pub(crate) fn count(&self) -> u32
        requires { length self.now.end.peer.items ≤ self.now.end.peer.table.cap }
        ensures { result ≡ length self.now.end.peer.items }
    {
        let _ = self.accepted.cap(); // proof only: a cap is below 2^17
        self.store.len() as u32
    }

    /// How many messages were sent.
    pub(crate) fn sent(&self) -> u32
        ensures { result ≡ self.now.end.sent }
    {
        self.sent
    }

    /// Whether the session is over.
    pub(crate) fn is_over(&self) -> bool
        ensures { result ≡ is_over self.now.end.stage }
    {
        matches!(self.stage, Stage::Over)
    }

    /// How many bytes of memory are counted for what it took of a message that has not ended.
    pub(crate) fn taken_size(&self) -> u64
        ensures { result ≡ taken_size self.now.taken }
    {
        match &self.stage {
            Stage::Open(_) => self.draft.size(),
            _ => 0,
        }
    }

    /// What was learned.
    pub(crate) fn learned(&self) -> &Learned
        ensures { result.now ≡ self.now.end.learned }
    {
        &self.learned
    }

    /// What was learned, for good.
    pub(crate) fn into_learned(self) -> Learned
        ensures { result ≡ self.end.learned }
    {
        self.learned
    }

    /// Takes a part, and leaves the rest to `refuse`.
    fn take_on(&mut self, alloc: Global, part: &Part<F>) -> Result<(), EndFault>
        requires { IsAble self.old }
        ensures fault { IfSome (told_in result) (λ o. o ≡ placing.refusal
            (placing.next self.old.taken.place part.now)) }
        ensures ok { OnOk result (self.new ≡ record self.old {
          taken = taken F.summary self.old.end self.old.taken part.now;
        }) }
        ensures end { (self.new.steps ≡ self.old.steps) × (self.new.end ≡ self.old.end) }
        ensures memory { result ≡ Err EndFault.Memory → self.new ≡ self.old }
        ensures decided { IfNone (told_in result)
            (placing.refusal (placing.next self.old.taken.place part.now) ≡ None) }
        ensures dead { is_live self.old.end.stage ≡ false → self.new ≡ self.old }
    {
        match &mut self.stage {
            Stage::Open(place) => take_part(
                alloc,
                self.accepted.strategy(),
                &self.store,
                place,
                &mut self.draft,
                part,
            ),
            _ => Err(EndFault::Spent),
        }
    }

    /// A refusal leaves the end spent, with nothing learned, unless memory ran out or its session is over.
    fn refuse(&mut self, alloc: Global, fault: EndFault)
        ensures { self.new ≡ refused self.old fault }
    {
        match (fault, &self.stage) {
            (EndFault::Memory, _) | (_, Stage::Over) | (_, Stage::Spent) => {}
            _ => {
                self.stage = Stage::Spent;
                self.draft = Draft::nothing(alloc);
                self.learned = Learned::nothing(alloc);
            }
        }
    }

    /// Takes the next part of a message, which may be any.
    pub(crate) fn take(&mut self, alloc: Global, part: &Part<F>) -> Result<(), EndFault>
        requires { IsAble self.old }
        ensures fault { IfSome (told_in result) (λ o. o ≡ placing.refusal
            (placing.next self.old.taken.place part.now)) }
        ensures after { IfSome (told_in result) (λ o. self.new ≡ after_part F.summary self.old part.now o) }
        ensures memory { IfNone (told_in result) (self.new ≡ self.old) }
        ensures decided { IfNone (told_in result)
            (placing.refusal (placing.next self.old.taken.place part.now) ≡ None) }
    {
        match self.take_on(alloc, part) {
            Ok(()) => Ok(()),
            Err(fault) => {
                self.refuse(alloc, fault);
                Err(fault)
            }
        }
    }

    /// Where the session stands after the end of the message. All growth but that of what was learned before is made
    /// here.
    fn close(&self, alloc: Global) -> Result<Stage<F>, EndFault>
        ensures { IsClosed self.now result }
    {
        let Stage::Open(place) = &self.stage else {
            return Err(EndFault::Spent);
        };
        place.finish()?;
        self.draft.stage(alloc)
    }

    /// What the end answers where the message ends here.
    pub(crate) fn end(&mut self, alloc: Global) -> Result<Turn<F>, EndFault>
        requires { self.old.end.sent < 4294967295 }
        ensures answer { IfSome (answer_in result) (λ a. a ≡ ended self.old.taken) }
        ensures after { IfSome (answer_in result) (λ a. self.new ≡ after_end self.old a) }
        ensures memory { IfNone (answer_in result) (self.new ≡ self.old) }
        ensures decided { IfNone (answer_in result) (IsTaking (ended self.old.taken)) }
    {
        let stage = match self.close(alloc) {
            Ok(stage) => stage,
            Err(fault) => {
                self.refuse(alloc, fault);
                return Err(fault);
            }
        };
        self.draft.teach(&mut self.learned)?;
        let draft = mem::replace(&mut self.draft, Draft::nothing(alloc));
        let turn = draft.into_turn();
        self.stage = stage;
        self.sent += turn.messages();
        Ok(turn)
    }

    /// Gives up the parts that were taken since the last end of a message.
    pub(crate) fn drop_parts(&mut self, alloc: Global)
        ensures { self.new ≡ fresh self.old.steps self.old.end }
    {
        if let Stage::Open(place) = &mut self.stage {
            place.rewind();
        }
        self.draft = Draft::nothing(alloc);
    }

    /// Whether the end takes messages.
    fn is_live(&self) -> bool
        ensures live { result ≡ is_live self.now.end.stage }
        ensures dead { is_live self.now.end.stage ≡ false → self.now.taken.place ≡ placing.Refused spent }
    {
        matches!(self.stage, Stage::Open(_))
    }

    /// Takes parts one after another, up to the first that is refused.
    fn take_all(&mut self, alloc: Global, parts: &[Part<F>]) -> Result<(), EndFault>
        requires able { IsAble self.old }
        requires live { is_live self.old.end.stage ≡ true }
        ensures all { OnOk result (self.new ≡ after_parts F.summary self.old parts.now) }
        ensures answer { OnOk result (by_parts F.summary self.old.end self.old.taken parts.now ≡ ended self.new.taken) }
        ensures refused { IfErr result (λ f. IfSome (refusal_of f) (λ a.
            (by_parts F.summary self.old.end self.old.taken parts.now ≡ a) × (self.new ≡ spend self.old))) }
        ensures memory { IfErr result (λ f. IfNone (refusal_of {F = F} f)
            ((self.new.steps ≡ self.old.steps) × (self.new.end ≡ self.old.end))) }
    {
        for part in parts {
            self.take(alloc, part)?;
        }
        Ok(())
    }

    /// Takes parts, and then the end of the message.
    fn receive_on(&mut self, alloc: Global, parts: &[Part<F>]) -> Result<Turn<F>, EndFault>
        requires able { IsAble self.old }
        requires room { self.old.end.sent < 4294967295 }
        requires live { is_live self.old.end.stage ≡ true }
        ensures answer { IfSome (answer_in result) (λ a. a
            ≡ by_parts F.summary self.old.end self.old.taken parts.now) }
        ensures after { IfSome (answer_in result) (λ a. self.new
            ≡ after_end (after_parts F.summary self.old parts.now) a) }
        ensures memory { IfNone (answer_in result) ((self.new.steps ≡ self.old.steps) × (self.new.end ≡ self.old.end)) }
    {
        self.take_all(alloc, parts)?;
        self.end(alloc)
    }

    /// What the end answers to a message, which may be any.
    pub(crate) fn receive(
        &mut self,
        alloc: Global,
        message: &Message<F>,
    ) -> Result<Turn<F>, EndFault>
        requires able { IsAble self.old }
        requires room { self.old.end.sent < 4294967295 }
        ensures answer { IfSome (answer_in result) (λ a. a
            ≡ by_parts F.summary self.old.end self.old.taken message.now) }
        ensures after { IfSome (answer_in result) (λ a. self.new ≡ after_message F.summary self.old message.now a) }
        ensures memory { IfNone (answer_in result) (self.new ≡ fresh self.old.steps self.old.end) }
    {
        if !self.is_live() {
            return Err(EndFault::Spent);
        }
        match self.receive_on(alloc, message.parts()) {
            Ok(turn) => Ok(turn),
            Err(EndFault::Memory) => {
                self.drop_parts(alloc);
                Err(EndFault::Memory)
            }
            Err(fault) => Err(fault),
        }
    }
}
