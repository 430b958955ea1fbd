//! How a turn with a partner ended.

ghost use Rattle.std.specs.Prelude.{◌≡◌, ◌⊎◌, Some, true};
ghost use Rattle.watch_core.specs.Partners.{is_away, refusing, turn_of};
ghost use Rattle.watch_core.specs.Pieces.{turn_text};
ghost use Rattle.watch_core.specs.declared.turn.Turn.TheVariants as turns;

use session_table::{Outcome, session_refusal_name};
use std::alloc::AllocError;
use std::fmt;

/// The number of the refusal of bytes that end in the middle of a message.
const TRUNCATED: u8 = 3;

/// How a turn with a partner ended: a session over the set, or one over each of its shards that differs.
#[derive(Clone, Copy, Debug, PartialEq, Eq)]
pub enum Turn {
    /// It came to its end.
    Ended,
    /// The partner was not reached.
    NotReached,
    /// The session was cut off, or memory ran out.
    CutOff,
    /// This side refused, with this number.
    Refuses(u8),
    /// The partner refused, with this number.
    IsRefused(u8),
}

impl Turn {
    /// That of a session that ended so. One of a partner whose bytes end in the middle of a message was cut off.
    pub fn of(outcome: &Outcome) -> Turn
        ensures { result ≡ turn_of outcome.now }
    {
        match outcome {
            Outcome::Ended { .. } => Turn::Ended,
            Outcome::Refused { code, .. } => Turn::refusing(*code),
            Outcome::PeerRefused { code, .. } => Turn::IsRefused(*code),
            Outcome::Io { .. } | Outcome::Memory { .. } => Turn::CutOff,
        }
    }

    /// That of a session that this side refused with this number.
    fn refusing(code: u8) -> Turn
        ensures { result ≡ refusing code }
    {
        if code == TRUNCATED {
            return Turn::CutOff;
        }
        Turn::Refuses(code)
    }

    /// Whether the partner is away: it was not reached, or was cut off.
    pub fn is_away(self) -> bool
        ensures { result ≡ is_away self }
    {
        match self {
            Turn::NotReached | Turn::CutOff => true,
            _ => false,
        }
    }

    /// How a partner stands of which one address stands so, and another one so: as one that refuses, if one does; away
    /// only if both are.
    pub fn beside(self, other: Turn) -> Turn
        ensures one { (result ≡ self) ⊎ (result ≡ other) }
        ensures away { is_away result ≡ true → (is_away self ≡ true) × (is_away other ≡ true) }
        ensures ended { result ≡ turns.Ended → (self ≡ turns.Ended) ⊎ (is_away self ≡ true) }
    {
        match self {
            Turn::Refuses(_) | Turn::IsRefused(_) => self,
            Turn::Ended if other.is_away() => self,
            Turn::Ended | Turn::NotReached | Turn::CutOff => other,
        }
    }
}

impl From<AllocError> for Turn {
    fn from(_refused: AllocError) -> Turn {
        Turn::CutOff
    }
}

impl fmt::Display for Turn {
    ghost output = { λ turn. Some (turn_text turn) };

    fn fmt<W: fmt::Write>(&self, f: &mut fmt::Formatter<W>) -> fmt::Result {
        match *self {
            Turn::Ended => write!(f, "ended"),
            Turn::NotReached => write!(f, "not reached"),
            Turn::CutOff => write!(f, "cut off"),
            Turn::Refuses(code) => write!(f, "refused {code} {}", session_refusal_name(code)),
            Turn::IsRefused(code) => {
                write!(f, "peer refused {code} {}", session_refusal_name(code))
            }
        }
    }
}
