//! The visit of a peer that is gone.

ghost use Rattle.std.specs.Prelude.{◌≡◌, length};
ghost use Rattle.peer_loops.specs.Visits.{IsTold, ours_in, profile_in, theirs_in};

use ends_core::Learned;
use hub_core::Phase;
use item_core::Range;
use peer_threads::Outcome;
use shard_core::Which;
use std::net::SocketAddr;
use tcp_front::Half;
use watch_core::{Ending, SpokenProfile, Traffic, Visit};

/// What a loop knows of a peer that it lets go, beside how its session ended.
#[derive(Clone, Copy)]
pub(crate) struct Leaver {
    /// Its address, if it is known.
    pub(crate) address: Option<SocketAddr>,
    /// The wire profile that it spoke, if its session was opened.
    pub(crate) profile: Option<SpokenProfile>,
    /// The serial of its session, if that is in the table.
    pub(crate) serial: Option<u64>,
    /// The shard, or the directory, of which it spoke, and the range of items.
    pub(crate) which: Option<Which>,
    pub(crate) range: Range,
    /// When it came, and when it goes.
    pub(crate) arrived: u64,
    pub(crate) now: u64,
}

/// The wire profile of a session that was opened.
pub(crate) fn profile_of(phase: &Phase) -> Option<SpokenProfile>
    ensures { result ≡ profile_in phase.now }
{
    match phase {
        Phase::Greeting(_) => None,
        Phase::Plain(_) => Some(SpokenProfile::One),
        Phase::Counted(_) => Some(SpokenProfile::Two),
        Phase::Compact(_) => Some(SpokenProfile::Compact),
    }
}

/// How many items were learned: own ones that the peer lacked, and those of the peer that were lacked here.
fn counts_of(learned: &Learned) -> (u64, u64)
    ensures { (result.0 ≡ length learned.now.ours) × (result.1 ≡ length learned.now.theirs) }
{
    (learned.ours().len() as u64, learned.theirs().len() as u64)
}

/// What a session found, if it came to its end.
pub(crate) fn found(outcome: &Outcome) -> (u64, u64)
    ensures { (result.0 ≡ ours_in outcome.now) × (result.1 ≡ theirs_in outcome.now) }
{
    match outcome {
        Outcome::Ended { learned, .. } => counts_of(learned),
        _ => (0, 0),
    }
}

/// The visit of a peer whose session ended so, and through whose connection so much went.
pub(crate) fn visit_of(leaver: Leaver, outcome: &Outcome, reader: &Half, writer: &Half) -> Visit
    ensures { IsTold leaver outcome.now result }
{
    let (ours, theirs) = found(outcome);
    Visit {
        address: leaver.address,
        is_called: false,
        profile: leaver.profile,
        serial: leaver.serial,
        which: leaver.which,
        range: leaver.range,
        ending: Ending::of(outcome),
        traffic: Traffic {
            received: reader.bytes(),
            sent: writer.bytes(),
            messages: u64::from(outcome.sent()),
            ours,
            theirs,
        },
        millis: leaver.now.saturating_sub(leaver.arrived),
        ended: leaver.now,
    }
}
