//! How the session of a peer ended, by how far it was and why the peer is let go.

ghost use Rattle.std.specs.Prelude.{◌≡◌, Some, if◌then◌else◌};
ghost use Rattle.hub_core.specs.Peers.{state_in};
ghost use Rattle.session_table.specs.declared.outcome.Direction.TheVariants as directions;
ghost use Rattle.session_core.specs.declared.state.State.TheVariants as states;
ghost use Rattle.session_core.specs.declared.fault.LinkFault.TheVariants as faults;
ghost use Rattle.peer_loops.specs.Partings.{Tells, TellsEnded, broken_by};
ghost use Rattle.peer_loops.specs.declared.ending.Parting.TheVariants as partings;

use hub_core::Phase;
use peer_threads::{Direction, Outcome};
use session_core::{LinkFault, State};
use std::alloc::AllocError;

/// Why a peer is let go.
#[derive(Clone, Copy, Debug, PartialEq, Eq)]
pub(crate) enum Parting {
    /// Its session is over.
    Over,
    /// Its stream failed, or there was no memory for it.
    Failed(LinkFault),
    /// Its time is over, or it makes room for another.
    TimeIsOver,
    /// It speaks of no set that is here: the number of the refusal.
    Refuses(u8),
}

impl From<AllocError> for Parting {
    ghost from_gives = { λ _ e. e ≡ partings.Failed faults.Memory };

    fn from(_refused: AllocError) -> Parting {
        Parting::Failed(LinkFault::Memory)
    }
}

/// What failed of a session that was cut off: the writing, where it waited for that.
fn waiting_side(owes: bool) -> Direction
    ensures { result ≡ (if owes then directions.Write else directions.Read) }
{
    if owes {
        return Direction::Write;
    }
    Direction::Read
}

/// The outcome of a session that did not come to its end.
fn broken(parting: Parting, owes: bool, sent: u32) -> Outcome
    ensures { result ≡ broken_by parting owes sent }
{
    match parting {
        Parting::Failed(LinkFault::Read) => Outcome::Io {
            side: Direction::Read,
            sent,
        },
        Parting::Failed(LinkFault::Write) => Outcome::Io {
            side: Direction::Write,
            sent,
        },
        Parting::Failed(LinkFault::Memory) => Outcome::Memory { sent },
        Parting::Refuses(code) => Outcome::Refused { code, sent },
        Parting::Over | Parting::TimeIsOver => Outcome::Io {
            side: waiting_side(owes),
            sent,
        },
    }
}

/// The outcome of a session that came to its end, and was said whole.
fn ended(phase: Phase, version: usize) -> Outcome
    requires { state_in phase ≡ Some states.Ended }
    ensures { TellsEnded partings.Over phase version result }
{
    let sent = phase.written();
    match phase.into_learned() {
        Some(learned) => Outcome::Ended {
            learned,
            sent,
            version,
        },
        None => broken(Parting::Over, false, sent),
    }
}

/// How the session ended of a peer that is let go.
pub(crate) fn outcome_of(phase: Phase, version: usize, parting: Parting) -> Outcome
    ensures { Tells parting phase version result }
{
    let sent = phase.written();
    match phase.state() {
        Some(State::Refused(code)) => Outcome::Refused { code, sent },
        Some(State::PeerRefused(code)) => Outcome::PeerRefused { code, sent },
        Some(State::Ended) if parting == Parting::Over => ended(phase, version),
        _ => broken(parting, phase.owes(), sent),
    }
}
