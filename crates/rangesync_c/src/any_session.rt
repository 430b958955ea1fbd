//! A session in either role and in either wire profile.

ghost use Rattle.std.specs.Prelude.{◌≡◌, ◌≢◌, ◌≤◌, ◌<◌, false, length, take, min};
ghost use Rattle.std.specs.Prelude.{Ok, IfOk, OnOk, OnErr, IfSome, IfNone};
ghost use Rattle.rangesync_c.specs.SessionStates.{Opens, Changes, PushesTo, Finishes, MakesDue, TakesOff};
ghost use Rattle.rangesync_c.specs.SessionStates.{ready_of, state_in, bound_of, sent_by, learned_in};
ghost use Rattle.definitions.specs.Engines.{initiating, responding};
ghost use Rattle.session_core.specs.Sessions.{Begins, is_open};
ghost use Rattle.ends_core.specs.Sides.{peer_of};
ghost use Rattle.session_core.specs.declared.state.State.TheVariants as states;

use crate::set::Version;
use digest_core::{Counted, Fingerprint, WireSummary};
use ends_core::{Initiating, Learned, Responding, Side};
use range_tree::Tree;
use session_core::{Session, State};
use std::alloc::{AllocError, Global};

/// The wire profiles in which a session is opened.
#[derive(Clone, Copy, Debug, PartialEq, Eq)]
pub enum SessionProfile {
    /// Profile 1.
    One,
    /// Profile 2.
    Two,
}

/// A session in either role and in either profile.
#[derive(Drop)]
pub enum AnySession {
    /// Speaks first, in profile 1.
    First(Session<Initiating, Tree, Fingerprint>),
    /// Is spoken to first, in profile 1.
    Second(Session<Responding, Tree, Fingerprint>),
    /// Speaks first, in profile 2.
    FirstCounted(Session<Initiating, Tree, Counted>),
    /// Is spoken to first, in profile 2.
    SecondCounted(Session<Responding, Tree, Counted>),
}

/// A session that speaks first.
fn first<F: WireSummary>(
    alloc: Global,
    version: Version,
) -> Result<Session<Initiating, Tree, F>, AllocError>
    ensures { IfOk result (λ c. Begins F.summary F.profile version.accepted
        (initiating F.summary (peer_of version.accepted version.items)) c) }
{
    let (accepted, store) = version.parts();
    match Session::initiate(alloc, accepted, store) {
        Ok(session) => Ok(session),
        Err(_store) => Err(AllocError),
    }
}

/// A session that is spoken to first.
fn second<F: WireSummary>(
    alloc: Global,
    version: Version,
) -> Result<Session<Responding, Tree, F>, AllocError>
    ensures { IfOk result (λ c. Begins F.summary F.profile version.accepted
        (responding F.summary (peer_of version.accepted version.items)) c) }
{
    let (accepted, store) = version.parts();
    match Session::respond(alloc, accepted, store) {
        Ok(session) => Ok(session),
        Err(_store) => Err(AllocError),
    }
}

impl AnySession {
    /// Opens a session over a version. It is open, and it hears its peer.
    pub fn open(
        alloc: Global,
        version: Version,
        side: Side,
        profile: SessionProfile,
    ) -> Result<AnySession, AllocError>
        ensures { IfOk result (λ s. Opens version side profile s) }
    {
        Ok(match side {
            Side::Initiator => match profile {
                SessionProfile::One => AnySession::First(first(alloc, version)?),
                SessionProfile::Two => AnySession::FirstCounted(first(alloc, version)?),
            },
            Side::Responder => match profile {
                SessionProfile::One => AnySession::Second(second(alloc, version)?),
                SessionProfile::Two => AnySession::SecondCounted(second(alloc, version)?),
            },
        })
    }

    /// Takes bytes of the peer, cut in any way, and returns how many it took: all, unless memory ran out.
    ///
    /// Where memory runs out before it has taken any, it fails, and the session is as before. What comes after the end
    /// of the session, or after a refusal, is taken and counts no more.
    pub fn push(&mut self, alloc: Global, piece: &[u8]) -> Result<usize, AllocError>
        ensures took { IfOk result (λ n. n ≤ length piece.now) }
        ensures pushes { IfOk result (λ n. Changes self.old self.new (PushesTo (take n piece.now))) }
        ensures some { IfOk result (λ n. 0 < length piece.now → 0 < n) }
        ensures all { IfOk result (λ n. is_open (state_in self.new) ≡ false → n ≡ length piece.now) }
        ensures after { is_open (state_in self.old) ≡ false → (result ≡ Ok (length piece.now)) × (self.new ≡ self.old) }
        ensures memory { OnErr result (self.new ≡ self.old) }
    {
        match self {
            AnySession::First(session) => session.push(alloc, piece),
            AnySession::Second(session) => session.push(alloc, piece),
            AnySession::FirstCounted(session) => session.push(alloc, piece),
            AnySession::SecondCounted(session) => session.push(alloc, piece),
        }
    }

    /// The peer's bytes end here: where the session has not ended, it is refused 3.
    pub fn finish(&mut self)
        ensures { Changes self.old self.new Finishes }
    {
        match self {
            AnySession::First(session) => session.finish(),
            AnySession::Second(session) => session.finish(),
            AnySession::FirstCounted(session) => session.finish(),
            AnySession::SecondCounted(session) => session.finish(),
        }
    }

    /// Makes the text of all that is due. Where memory runs out the session is as before.
    pub fn make_due(&mut self, alloc: Global) -> Result<(), AllocError>
        ensures made { OnOk result (Changes self.old self.new MakesDue) }
        ensures memory { OnErr result (self.new ≡ self.old) }
    {
        match self {
            AnySession::First(session) => session.make_due(alloc),
            AnySession::Second(session) => session.make_due(alloc),
            AnySession::FirstCounted(session) => session.make_due(alloc),
            AnySession::SecondCounted(session) => session.make_due(alloc),
        }
    }

    /// The bytes that are due, as far as their text is made.
    pub fn due(&self) -> &[u8]
        ensures { result.now ≡ ready_of self.now }
    {
        match self {
            AnySession::First(session) => session.due(),
            AnySession::Second(session) => session.due(),
            AnySession::FirstCounted(session) => session.due(),
            AnySession::SecondCounted(session) => session.due(),
        }
    }

    /// Takes this many of these bytes off the front, or all where there are fewer, and returns how many it took.
    pub fn take(&mut self, count: usize) -> usize
        ensures count { result ≡ min count (length (ready_of self.old)) }
        ensures takes { Changes self.old self.new (TakesOff result) }
    {
        match self {
            AnySession::First(session) => session.take(count),
            AnySession::Second(session) => session.take(count),
            AnySession::FirstCounted(session) => session.take(count),
            AnySession::SecondCounted(session) => session.take(count),
        }
    }

    /// How the session stands.
    pub fn state(&self) -> State
        ensures { result ≡ state_in self.now }
    {
        match self {
            AnySession::First(session) => session.state(),
            AnySession::Second(session) => session.state(),
            AnySession::FirstCounted(session) => session.state(),
            AnySession::SecondCounted(session) => session.state(),
        }
    }

    /// The greatest number of messages that it says, whatever its peer sends.
    pub fn bound(&self) -> u32
        ensures { result ≡ bound_of self.now }
    {
        match self {
            AnySession::First(session) => session.bound(),
            AnySession::Second(session) => session.bound(),
            AnySession::FirstCounted(session) => session.bound(),
            AnySession::SecondCounted(session) => session.bound(),
        }
    }

    /// How many messages it has said, which is never more than `bound()`.
    pub fn sent(&self) -> u32
        ensures sent { result ≡ sent_by self.now }
        ensures few { result ≤ bound_of self.now }
    {
        match self {
            AnySession::First(session) => session.sent(),
            AnySession::Second(session) => session.sent(),
            AnySession::FirstCounted(session) => session.sent(),
            AnySession::SecondCounted(session) => session.sent(),
        }
    }

    /// What was learned, each item once, where the session has ended.
    pub fn learned(&self) -> Option<&Learned>
        ensures ended { IfSome result (λ _. state_in self.now ≡ states.Ended) }
        ensures none { IfNone result (state_in self.now ≢ states.Ended) }
        ensures learned { IfSome result (λ l. l.now ≡ learned_in self.now) }
    {
        match self {
            AnySession::First(session) => session.learned(),
            AnySession::Second(session) => session.learned(),
            AnySession::FirstCounted(session) => session.learned(),
            AnySession::SecondCounted(session) => session.learned(),
        }
    }
}
