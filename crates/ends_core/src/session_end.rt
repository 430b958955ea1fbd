//! An end of a session.

ghost use Rattle.std.specs.Prelude.{◌≡◌, ◌≤◌, ◌+◌, false, [], ◌∷◌, length, None, IfOk, IfErr, IfSome, IfNone};
ghost use Rattle.std.specs.List.{IsDistinct};
ghost use Rattle.std.specs.Arc.{arc_value};
ghost use Rattle.definitions.specs.Items.{same_item};
ghost use Rattle.definitions.specs.Replies.{opening};
ghost use Rattle.definitions.specs.Ends as ends;
ghost use Rattle.definitions.specs.Ends.{is_over};
ghost use Rattle.definitions.specs.Placing as placing;
ghost use Rattle.definitions.specs.Taking.{ended, by_parts};
ghost use Rattle.ends_core.specs.Closing.{IsTaking};
ghost use Rattle.ends_core.specs.EndStates.{HasNone};
ghost use Rattle.ends_core.specs.Roles.{bound_of};
ghost use Rattle.ends_core.specs.Sizes.{taken_size};
ghost use Rattle.ends_core.specs.Turns.{IsJudged, KeepsLimit, answer_in, told_in, fresh};
ghost use Rattle.ends_core.specs.Turns.{end_after, after_part, after_end, after_message};

use crate::end::End;
use crate::learned::Learned;
use crate::replying::opening_parts;
use crate::role::{Initiating, Responding, Role};
use crate::turn::{EndFault, Turn};
use digest_core::{Fingerprint, WireSummary};
use place_core::Place;
use std::alloc::{AllocError, Global};
use std::marker::{Model, PhantomData};
use std::sync::Arc;
use store_core::RangeStore;
use strategy_check::Accepted;
use strategy_core::Strategy;
use wire_core::{Message, Part};

/// An end of a session: what it is, and what it has taken, said and learned.
#[derive(Drop)]
pub struct SessionEnd<R: Role, S: RangeStore, F: WireSummary = Fingerprint> {
    end: End<S, F>,
    role: PhantomData<R>,
}

impl<R: Role, S: RangeStore, F: WireSummary> Model for SessionEnd<R, S, F> {
    ghost use Rattle.ends_core.specs.EndStates.{EndState};
    ghost use Rattle.ends_core.specs.Roles.{start_of};
    ghost use Rattle.ends_core.specs.Standing.{Stands};

    ghost Value = { EndState F };

    ghost view = { λ a. a.end };

    ghost invariant = { λ a. Stands F.summary F.profile (start_of R.side F.summary) a.end };
}

/// The end of a session that speaks first.
pub type Initiator<S, F = Fingerprint> = SessionEnd<Initiating, S, F>;

/// The end of a session that is spoken to first.
pub type Responder<S, F = Fingerprint> = SessionEnd<Responding, S, F>;

/// The first message of a session: one Sum over everything, or those of the parts that it is cut into.
fn first_message<S: RangeStore, F: WireSummary>(
    alloc: Global,
    strategy: &Strategy,
    store: &S,
) -> Result<Message<F>, AllocError>
    requires { length (S.content store.now) ≤ strategy.now.cap }
    ensures { IfOk result (λ m. m ≡ opening F.summary (record { table = strategy.now; items = S.content store.now })) }
{
    laws::talks::openings_are_exact::<F>();
    let _ = strategy.cap(); // proof only: a cap is below 2^17
    match Message::new(opening_parts(alloc, strategy, store)?) {
        Ok(message) => Ok(message),
        Err(_) => unreachable!(),
    }
}

/// The first message, and the place after it.
fn begin<S: RangeStore, F: WireSummary>(
    alloc: Global,
    strategy: &Strategy,
    store: &S,
) -> Result<(Place<F>, Message<F>), AllocError>
    requires { length (S.content store.now) ≤ strategy.now.cap }
    ensures { IfOk result (λ r. (r.0 ≡ record {
      first = false;
      cut = F.summary.may_cut;
      own = opening F.summary (record { table = strategy.now; items = S.content store.now });
      now = placing.place_after (opening F.summary (record { table = strategy.now; items = S.content store.now }));
    }) × (r.1 ≡ opening F.summary (record { table = strategy.now; items = S.content store.now }))) }
{
    laws::talks::openings_are_exact::<F>();
    let first = first_message(alloc, strategy, store)?;
    let place = Place::after(alloc, first.parts())?;
    Ok((place, first))
}

impl<S: RangeStore, F: WireSummary> SessionEnd<Initiating, S, F> {
    /// The end, and its first message, which is to be sent: one Sum over everything, or those of the parts that the
    /// strategy cuts it into. Where memory runs out the store is given back.
    pub fn start(
        alloc: Global,
        accepted: Arc<Accepted>,
        store: S,
    ) -> Result<(Initiator<S, F>, Message<F>), S>
        requires { length (S.content store) ≤ (arc_value accepted).table.cap }
        ensures end { IfOk result (λ r. r.0 ≡ fresh (arc_value accepted).steps (ends.initiator F.summary
            (record { table = (arc_value accepted).table; items = S.content store }))) }
        ensures message { IfOk result (λ r. r.1 ≡ opening F.summary
            (record { table = (arc_value accepted).table; items = S.content store })) }
        ensures memory { IfErr result (λ s. s ≡ store) }
    {
        let _ = accepted.cap(); // proof only: the strategy was checked
        match begin(alloc, accepted.strategy(), &store) {
            Ok((place, first)) => Ok((
                SessionEnd {
                    end: End::initiating(alloc, accepted, store, place),
                    role: PhantomData,
                },
                first,
            )),
            Err(AllocError) => Err(store),
        }
    }
}

impl<S: RangeStore, F: WireSummary> SessionEnd<Responding, S, F> {
    /// An end that has received nothing.
    pub fn new(alloc: Global, accepted: Arc<Accepted>, store: S) -> Responder<S, F>
        requires { length (S.content store) ≤ (arc_value accepted).table.cap }
        ensures { result ≡ fresh (arc_value accepted).steps (ends.responder F.summary
            (record { table = (arc_value accepted).table; items = S.content store })) }
    {
        let _ = accepted.cap(); // proof only: the strategy was checked
        SessionEnd {
            end: End::responding(alloc, accepted, store),
            role: PhantomData,
        }
    }
}

impl<R: Role, S: RangeStore, F: WireSummary> SessionEnd<R, S, F> {
    /// Takes the next part of a message, which may be any.
    ///
    /// Refused 20 to 25 where it is not placed: the end is spent then, and nothing is learned. Refused 26 where a
    /// message was refused before, or the session is over, and 90 where memory ran out: the end is as before.
    pub fn take(&mut self, alloc: Global, part: &Part<F>) -> Result<(), EndFault>
        ensures fault { IfSome (told_in result) (λ o. o ≡ placing.refusal
            (placing.next self.old.taken.place part.now)) }
        ensures after { IfSome (told_in result) (λ o. self.new ≡ after_part F.summary self.old part.now o) }
        ensures memory { IfNone (told_in result) (self.new ≡ self.old) }
        // Memory runs out only where the part is not refused.
        ensures decided { IfNone (told_in result)
            (placing.refusal (placing.next self.old.taken.place part.now) ≡ None) }
    {
        laws::talks::ends_stand_firm::<F>();
        laws::talks::ends_hear_on::<F>();
        laws::talks::ends_keep_peers::<F>();
        laws::talks::parts_are_taken::<F>();
        let _ = part.range(); // proof only: the part has a spelling
        self.end.take(alloc, part)
    }

    /// What the end answers where the message ends after the parts that were taken: the reply, or that the session is
    /// over.
    ///
    /// Refused 20, 22 or 23 where something is missing, 12 where the reply would have more than 131,072 parts: the end
    /// is spent then, and nothing is learned. Refused 26 where a message was refused before, or the session is over,
    /// and 90 where memory ran out: the end is as before.
    pub fn end(&mut self, alloc: Global) -> Result<Turn<F>, EndFault>
        ensures answer { IfSome (answer_in result) (λ a. a ≡ ended self.old.taken) }
        ensures after { IfSome (answer_in result) (λ a. self.new ≡ after_end self.old a) }
        ensures memory { IfNone (answer_in result) (self.new ≡ self.old) }
        // Memory runs out only where the message is not refused.
        ensures decided { IfNone (answer_in result) (IsTaking (ended self.old.taken)) }
        ensures short { KeepsLimit self.old result }
    {
        laws::talks::ends_stand_firm::<F>();
        laws::talks::ends_hear_on::<F>();
        laws::talks::ends_keep_peers::<F>();
        laws::talks::parts_are_taken::<F>();
        laws::talks::replies_are_short::<F>();
        laws::ranks::ranks_are_read();
        self.end.end(alloc)
    }

    /// Gives up the parts that were taken since the last end of a message.
    pub fn drop_parts(&mut self, alloc: Global)
        ensures { self.new ≡ fresh self.old.steps self.old.end }
    {
        self.end.drop_parts(alloc);
    }

    /// What the end answers to a message, which may be any: the reply, or that the session is over. It is what `take`
    /// over its parts, up to the first that is refused, and then `end` answer; where memory runs out the parts are
    /// given up.
    ///
    /// Refused 20 to 25 where the message is not placed after our message, 12 where the reply would have more than
    /// 131,072 parts: the end is spent then, and nothing is learned. Refused 26 where a message was refused before, or
    /// the session is over, and 90 where memory ran out: the end is as before its first part.
    pub fn receive(&mut self, alloc: Global, message: &Message<F>) -> Result<Turn<F>, EndFault>
        ensures judged { HasNone self.old → IsJudged self.old message.now result }
        ensures answer { HasNone self.old →
            IfSome (answer_in result) (λ a. a ≡ ends.answer F.summary self.old.end message.now) }
        ensures after { HasNone self.old →
            IfSome (answer_in result) (λ _. self.new ≡ end_after F.summary self.old message.now) }
        ensures memory { HasNone self.old → IfNone (answer_in result) (self.new ≡ self.old) }
        ensures short { KeepsLimit self.old result }
        // Where parts were taken before, they belong to the message.
        ensures parts { IfSome (answer_in result) (λ a. a
            ≡ by_parts F.summary self.old.end self.old.taken message.now) }
        ensures ended { IfSome (answer_in result) (λ a. self.new ≡ after_message F.summary self.old message.now a) }
        ensures dropped { IfNone (answer_in result) (self.new ≡ fresh self.old.steps self.old.end) }
    {
        laws::talks::ends_stand_firm::<F>();
        laws::talks::ends_hear_on::<F>();
        laws::talks::ends_keep_peers::<F>();
        laws::talks::opening_is_exact::<F>();
        laws::talks::placing_is_exact::<F>();
        laws::talks::messages_have_ranges::<F>();
        laws::talks::parts_are_taken::<F>();
        laws::talks::replies_are_short::<F>();
        laws::ranks::ranks_are_read();
        let _ = message.parts(); // proof only: its parts have spellings
        self.end.receive(alloc, message)
    }

    /// The greatest number of messages that it sends, whatever its peer sends: 2 above the greatest rank that it opened
    /// where it speaks first, else 1 above the rank of the number of its items.
    pub fn bound(&self) -> u32
        ensures { result ≡ bound_of R.side F.summary.may_cut self.now.end.peer.table self.now.steps
            (length self.now.end.peer.items) }
    {
        R::bound(self.end.accepted(), self.end.count(), F::may_cut())
    }

    /// How many messages were sent, which is never more than `bound()`.
    pub fn sent(&self) -> u32
        ensures sent { result ≡ self.now.end.sent }
        ensures few { result ≤ bound_of R.side F.summary.may_cut self.now.end.peer.table self.now.steps
            (length self.now.end.peer.items) }
    {
        laws::talks::ends_stand_firm::<F>();
        laws::ranks::ranks_are_read();
        self.end.sent()
    }

    /// Whether the session is over: a message without open part was sent or received.
    pub fn is_over(&self) -> bool
        ensures { result ≡ is_over self.now.end.stage }
    {
        self.end.is_over()
    }

    /// How many bytes of memory are counted for what it took of a message that has not ended: the reply to those parts,
    /// and what they teach.
    pub fn taken_size(&self) -> u64
        ensures { result ≡ taken_size self.now.taken }
    {
        self.end.taken_size()
    }

    /// What was learned, each item once.
    pub fn learned(&self) -> &Learned
        ensures learned { result.now ≡ self.now.end.learned }
        ensures ours { IsDistinct same_item self.now.end.learned.ours }
        ensures theirs { IsDistinct same_item self.now.end.learned.theirs }
    {
        laws::talks::ends_stand_firm::<F>();
        self.end.learned()
    }

    /// What was learned, for good.
    pub fn into_learned(self) -> Learned
        ensures { result ≡ self.end.learned }
    {
        self.end.into_learned()
    }
}
