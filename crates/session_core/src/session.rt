//! A session of this side: the bytes that its peer sends are pushed, and the bytes that it says are taken.

ghost use Rattle.std.specs.Prelude.{◌≡◌, ◌≢◌, ◌≤◌, ◌<◌, ◌+◌, ◌-◌, true, false, [], ℕ, List, length, take, min};
ghost use Rattle.std.specs.Prelude.{Ok, Some, IfOk, IfErr, OnOk, OnErr, IfSome, IfNone};
ghost use Rattle.std.specs.List.{IsDistinct};
ghost use Rattle.std.specs.Arc.{arc_value};
ghost use Rattle.definitions.specs.Items.{same_item, IsBytes};
ghost use Rattle.definitions.specs.Replies.{Peer};
ghost use Rattle.definitions.specs.Engines.{Speaker, initiating, responding};
ghost use Rattle.definitions.specs.Ends.{is_live, own_of};
ghost use Rattle.wire_core.specs.Refused.{fault_number};
ghost use Rattle.wire_core.specs.Feeds.{fed_into, fault_at};
ghost use Rattle.ends_core.specs.Roles.{bound_of};
ghost use Rattle.session_core.specs.Kept.{kept_by};
ghost use Rattle.session_core.specs.Laws.{Laws};
ghost use Rattle.session_core.specs.Outboxes.{less, unwritten};
ghost use Rattle.session_core.specs.Written.{IsWritten};
ghost use Rattle.session_core.specs.Sessions.{all_made, begun_after, opened, with_talk, finished, with_outbox};
ghost use Rattle.session_core.specs.Sessions.{feed_of, IsFed, is_open, Knows, Begins, Pushes, Takes, speaker_of};
ghost use Rattle.ends_core.specs.Sides.{known_at, peer_of, said_to};
ghost use Rattle.ends_core.specs.Sizes.{message_size};
ghost use Rattle.session_core.specs.declared.state.State.TheVariants as states;

use crate::outbox::{Outbox, hello_text};
use crate::state::State;
use crate::talk::Talk;
use digest_core::{Fingerprint, WireSummary};
use ends_core::{
    Initiating, Initiator, Learned, Responder, Responding, Role, SessionEnd, open_size,
};
use std::alloc::{AllocError, Global};
use std::marker::Model;
use std::sync::Arc;
use store_core::RangeStore;
use strategy_check::Accepted;
use wire_core::{DecodeError, Event, Feed, NextEvent, WireFault};

/// A session of this side, over a store and an accepted strategy. The profile is that of the summary.
#[derive(Drop)]
pub struct Session<R: Role, S: RangeStore, F: WireSummary = Fingerprint> {
    talk: Talk<R, S, F>,
    feed: Feed<F>,
    // The peer's bytes have ended.
    over: bool,
    // How many bytes came after the last whole frame.
    begun: u64,
}

impl<R: Role, S: RangeStore, F: WireSummary> Model for Session<R, S, F> {
    ghost use Rattle.session_core.specs.Sessions.{SessionState};

    ghost Value = { SessionState F };

    ghost view = { λ c. record { talk = c.talk; feed = c.feed; over = c.over; begun = c.begun } };
}

/// The laws of bytes that are pushed in pieces, in one place.
fn stream_laws<F: WireSummary>()
    ensures { Laws F.summary F.profile }
{
    laws::codec::feeds_join::<F>();
    laws::talks::hearings_go_on::<F>();
    laws::talks::bytes_agree::<F>();
}

/// How many bytes came after the last whole frame, where so many did before a piece of this length.
fn bytes_begun<F: WireSummary>(begun: u64, count: usize, event: &Option<Event<F>>) -> u64
    ensures { result ≡ begun_after event.now begun count }
{
    match event {
        Some(_) => 0,
        None => begun.saturating_add(count as u64),
    }
}

/// What is taken where memory ran out: what was taken before, unless that is nothing.
fn unless_none(taken: usize) -> Result<usize, AllocError>
    ensures some { IfOk result (λ count. (count ≡ taken) × (0 < taken)) }
    ensures none { OnErr result (taken ≡ 0) }
{
    if taken == 0 {
        return Err(AllocError);
    }
    Ok(taken)
}

impl<S: RangeStore, F: WireSummary> Session<Initiating, S, F> {
    /// The side that speaks first. Its hello and its first message are due. Where memory runs out the store is given
    /// back.
    pub fn initiate(
        alloc: Global,
        accepted: Arc<Accepted>,
        store: S,
    ) -> Result<Session<Initiating, S, F>, S>
        requires { length (S.content store) ≤ (arc_value accepted).table.cap }
        ensures begins { IfOk result (λ c. Begins F.summary F.profile (arc_value accepted)
            (initiating F.summary (peer_of (arc_value accepted) (S.content store))) c) }
        ensures memory { IfErr result (λ s. s ≡ store) }
    {
        let Ok(made) = hello_text::<F>(alloc) else {
            return Err(store);
        };
        let Ok(mut unsaid) = Vec::with_capacity(alloc, 1) else {
            return Err(store);
        };
        let (end, first) = Initiator::start(alloc, accepted, store)?;
        let waits = open_size(first.parts());
        unsaid.push_reserved(first);
        Ok(Session::of(alloc, end, Outbox::of(alloc, made, unsaid), waits))
    }
}

impl<S: RangeStore, F: WireSummary> Session<Responding, S, F> {
    /// The side that is spoken to first. Its hello is due. Where memory runs out the store is given back.
    pub fn respond(
        alloc: Global,
        accepted: Arc<Accepted>,
        store: S,
    ) -> Result<Session<Responding, S, F>, S>
        requires { length (S.content store) ≤ (arc_value accepted).table.cap }
        ensures begins { IfOk result (λ c. Begins F.summary F.profile (arc_value accepted)
            (responding F.summary (peer_of (arc_value accepted) (S.content store))) c) }
        ensures memory { IfErr result (λ s. s ≡ store) }
    {
        let Ok(made) = hello_text::<F>(alloc) else {
            return Err(store);
        };
        let end = Responder::new(alloc, accepted, store);
        let outbox = Outbox::of(alloc, made, Vec::new(alloc));
        Ok(Session::of(alloc, end, outbox, 0))
    }
}

impl<R: Role, S: RangeStore, F: WireSummary> Session<R, S, F> {
    /// Nothing was pushed, and so much is counted for our message that waits.
    fn of(
        alloc: Global,
        end: SessionEnd<R, S, F>,
        outbox: Outbox<F>,
        waits: u64,
    ) -> Session<R, S, F>
        requires { waits ≡ message_size (own_of end.end.stage) }
        ensures { result ≡ opened end outbox }
    {
        Session {
            talk: Talk::new(end, outbox, waits),
            feed: Feed::new(alloc),
            over: false,
            begun: 0,
        }
    }

    /// Takes bytes of the peer, cut in any way, and hears the events that they complete. Returns how many it took: all,
    /// unless memory ran out; then what is left is pushed again later.
    ///
    /// Where memory runs out before it has taken any, it fails, and the session is as before. What comes after the end
    /// of the session, after a refusal, or after the peer's bytes have ended is taken and counts no more.
    pub fn push(&mut self, alloc: Global, piece: &[u8]) -> Result<usize, AllocError>
        ensures took { IfOk result (λ n. n ≤ length piece.now) }
        ensures pushes { IfOk result (λ n. self.old.over ≡ false →
            Pushes F.summary F.profile self.old (take n piece.now) self.new) }
        ensures over { self.old.over ≡ true → (result ≡ Ok (length piece.now)) × (self.new ≡ self.old) }
        ensures after { is_open self.old.talk.state ≡ false → (result ≡ Ok (length piece.now)) × (self.new ≡ self.old) }
        ensures listens { self.new.over ≡ self.old.over }
        // It takes some of a piece, and all of it where the session goes no further.
        ensures some { IfOk result (λ n. 0 < length piece.now → 0 < n) }
        ensures all { IfOk result (λ n. is_open self.new.talk.state ≡ false → n ≡ length piece.now) }
        ensures memory { OnErr result (self.new ≡ self.old) }
    {
        stream_laws::<F>();
        laws::codec::are_bytes(piece);
        if self.over {
            return Ok(piece.len());
        }
        let taken = self.hear_all(alloc, piece)?;
        if self.talk.is_open() {
            return Ok(taken);
        }
        Ok(piece.len())
    }

    /// Hears one event of a piece after another, until the session is no longer open.
    fn hear_all(&mut self, alloc: Global, piece: &[u8]) -> Result<usize, AllocError>
        requires { IsBytes piece.now }
        ensures took { IfOk result (λ n. n ≤ length piece.now) }
        ensures some { IfOk result (λ n. is_open self.new.talk.state ≡ true → 0 < length piece.now → 0 < n) }
        ensures after { is_open self.old.talk.state ≡ false → (result ≡ Ok 0) × (self.new ≡ self.old) }
        ensures pushes { IfOk result (λ n. Pushes F.summary F.profile self.old (take n piece.now) self.new) }
        ensures over { self.new.over ≡ self.old.over }
        ensures memory { OnErr result (self.new ≡ self.old) }
    {
        let mut taken = 0;
        while taken < piece.len() && self.talk.is_open() {
            match self.hear_next(alloc, &piece[taken..]) {
                Ok(count) => taken += count,
                Err(AllocError) => return unless_none(taken),
            }
        }
        Ok(taken)
    }

    /// Takes the next event off the front of a piece, and hears it. Returns how many bytes it took.
    fn hear_next(&mut self, alloc: Global, piece: &[u8]) -> Result<usize, AllocError>
        requires open { self.old.talk.state ≡ states.Open }
        requires some { 0 < length piece.now }
        requires bytes { IsBytes piece.now }
        ensures took { IfOk result (λ n. (0 < n) × (n ≤ length piece.now)) }
        ensures pushes { IfOk result (λ n. Pushes F.summary F.profile self.old (take n piece.now) self.new) }
        ensures over { self.new.over ≡ self.old.over }
        ensures memory { OnErr result (self.new ≡ self.old) }
    {
        if self.keep(piece)? {
            return Ok(piece.len());
        }
        match self.feed.after(alloc, piece) {
            Ok(NextEvent { taken, event, feed }) => {
                self.go_on(alloc, feed, &piece[..taken], event)?;
                Ok(taken)
            }
            Err(DecodeError::Fault(fault)) => {
                self.refuse_for(Feed::stopped(alloc, fault), piece, fault);
                Ok(piece.len())
            }
            Err(DecodeError::Memory) => Err(AllocError),
        }
    }

    /// Keeps a piece that completes no event, and returns whether it did.
    fn keep(&mut self, piece: &[u8]) -> Result<bool, AllocError>
        requires open { self.old.talk.state ≡ states.Open }
        requires bytes { IsBytes piece.now }
        ensures pushes { IfOk result (λ kept. kept ≡ true →
            Pushes F.summary F.profile self.old piece.now self.new) }
        ensures same { IfOk result (λ kept. kept ≡ false → self.new ≡ self.old) }
        ensures over { self.new.over ≡ self.old.over }
        ensures memory { OnErr result (self.new ≡ self.old) }
    {
        stream_laws::<F>();
        if !self.feed.keep(piece)? {
            return Ok(false);
        }
        self.begun = self.begun.saturating_add(piece.len() as u64);
        Ok(true)
    }

    /// Goes on with the feed that took the piece, and hears the event that it completed, if there is one.
    fn go_on(
        &mut self,
        alloc: Global,
        feed: Feed<F>,
        piece: &[u8],
        event: Option<Event<F>>,
    ) -> Result<(), AllocError>
        requires open { self.old.talk.state ≡ states.Open }
        requires bytes { IsBytes piece.now }
        requires fed { IsFed F.profile self.old.feed piece.now event feed }
        ensures pushes { OnOk result (Pushes F.summary F.profile self.old piece.now self.new) }
        ensures over { self.new.over ≡ self.old.over }
        ensures memory { OnErr result (self.new ≡ self.old) }
    {
        stream_laws::<F>();
        let begun = bytes_begun(self.begun, piece.len(), &event);
        self.talk.hear(alloc, event)?;
        self.feed = feed;
        self.begun = begun;
        Ok(())
    }

    /// Refuses for a fault that the feed found in a piece.
    fn refuse_for(&mut self, feed: Feed<F>, piece: &[u8], fault: WireFault)
        requires open { self.old.talk.state ≡ states.Open }
        requires bytes { IsBytes piece.now }
        requires fed { feed_of F.profile self.old.feed piece.now ≡ fed_into [] feed }
        requires fault { Some (fault_number fault) ≡ fault_at feed.standing }
        ensures pushes { Pushes F.summary F.profile self.old piece.now self.new }
        ensures over { self.new.over ≡ self.old.over }
    {
        stream_laws::<F>();
        let _ = piece; // proof only
        self.talk.refuse(fault.number());
        self.feed = feed;
        self.begun = 0;
    }

    /// The peer's bytes end here: where the session has not ended, it is refused 3.
    pub fn finish(&mut self)
        ensures finished { self.new ≡ finished self.old }
        ensures knows { (s : Speaker F) (pushed taken : List ℕ) → is_live s.start.stage ≡ true →
            Knows F.summary F.profile s self.old pushed taken → Knows F.summary F.profile s self.new pushed taken }
    {
        stream_laws::<F>();
        self.cut_off();
    }

    /// Refuses 3 where the session goes on, and hears no more.
    fn cut_off(&mut self)
        ensures { self.new ≡ finished self.old }
    {
        if self.talk.is_open() {
            self.talk.refuse(WireFault::Truncated.number());
        }
        self.over = true;
    }

    /// Makes the text of all that is due. Where memory runs out the session is as before.
    pub fn make_due(&mut self, alloc: Global) -> Result<(), AllocError>
        ensures made { OnOk result (self.new ≡ with_talk self.old (with_outbox self.old.talk
            (all_made F.profile self.old.talk) true)) }
        ensures knows { OnOk result (Takes F.summary F.profile self.old [] self.new) }
        ensures listens { self.new.over ≡ self.old.over }
        ensures memory { OnErr result (self.new ≡ self.old) }
    {
        self.talk.make_due(alloc)
    }

    /// The bytes that are due, as far as their text is made.
    pub fn due(&self) -> &[u8]
        ensures { result.now ≡ self.now.talk.outbox.ready }
    {
        self.talk.ready()
    }

    /// Takes this many of these bytes off the front, or all where there are fewer, and returns how many it took.
    pub fn take(&mut self, count: usize) -> usize
        ensures count { result ≡ min count (length self.old.talk.outbox.ready) }
        ensures rest { self.new ≡ with_talk self.old (with_outbox self.old.talk (less result self.old.talk.outbox)
            self.old.talk.told) }
        ensures takes { Takes F.summary F.profile self.old (take result self.old.talk.outbox.ready) self.new }
        ensures listens { self.new.over ≡ self.old.over }
    {
        self.talk.take(count)
    }

    /// How many bytes of memory are counted for it: what came of a frame that is not whole, the reply to a message that
    /// has not ended and what it teaches, what is said and not taken, what waits for the peer's answer, and what was
    /// learned. It reads no message but those whose text is not made.
    pub fn kept(&self) -> u64
        ensures { result ≡ kept_by self.now }
    {
        self.begun.saturating_add(self.talk.kept())
    }

    /// How the session stands.
    pub fn state(&self) -> State
        ensures { result ≡ self.now.talk.state }
    {
        self.talk.state()
    }

    /// The greatest number of messages that it says, whatever its peer sends.
    pub fn bound(&self) -> u32
        ensures { result ≡ bound_of R.side F.summary.may_cut self.now.talk.held.end.peer.table self.now.talk.held.steps
            (length self.now.talk.held.end.peer.items) }
    {
        self.talk.end().bound()
    }

    /// How many messages it has said, which is never more than `bound()`.
    pub fn sent(&self) -> u32
        ensures sent { result ≡ self.now.talk.held.end.sent }
        ensures few { result ≤ bound_of R.side F.summary.may_cut self.now.talk.held.end.peer.table
            self.now.talk.held.steps (length self.now.talk.held.end.peer.items) }
    {
        self.talk.end().sent()
    }

    /// How many messages were taken whole, of those that it has said.
    pub fn written(&self) -> u32
        ensures written { result ≡ self.now.talk.held.end.sent - unwritten self.now.talk.outbox }
        // Just so many end within the bytes that were taken.
        ensures whole { (s : Speaker F) (pushed taken : List ℕ) → Knows F.summary F.profile s self.now pushed taken →
            IsWritten F.profile (said_to F.summary F.profile s pushed) taken result }
    {
        self.talk.written()
    }

    /// What was learned, each item once, where the session has ended.
    pub fn learned(&self) -> Option<&Learned>
        ensures ended { IfSome result (λ _. self.now.talk.state ≡ states.Ended) }
        ensures none { IfNone result (self.now.talk.state ≢ states.Ended) }
        ensures learned { IfSome result (λ l. l.now ≡ self.now.talk.held.end.learned) }
        ensures known { IfSome result (λ l. (P : Peer) (pushed taken : List ℕ) →
            Knows F.summary F.profile (speaker_of F.summary R.side P) self.now pushed taken →
            l.now ≡ known_at F.summary F.profile (speaker_of F.summary R.side P) pushed) }
        ensures ours { IsDistinct same_item self.now.talk.held.end.learned.ours }
        ensures theirs { IsDistinct same_item self.now.talk.held.end.learned.theirs }
    {
        laws::talks::initiator_learns::<F>();
        laws::talks::responder_learns::<F>();
        let learned = self.talk.end().learned();
        match self.talk.state() {
            State::Ended => Some(learned),
            _ => None,
        }
    }

    /// What was learned, each item once, where the session has ended: the same as `learned`, for good.
    pub fn into_learned(self) -> Option<Learned>
        ensures ended { IfSome result (λ _. self.talk.state ≡ states.Ended) }
        ensures none { IfNone result (self.talk.state ≢ states.Ended) }
        ensures learned { IfSome result (λ l. l ≡ self.talk.held.end.learned) }
    {
        match self.talk.state() {
            State::Ended => Some(self.talk.into_learned()),
            _ => None,
        }
    }
}
