//! How the table of sessions counts an outcome.

ghost use Rattle.std.specs.Prelude.{◌≡◌};
ghost use Rattle.peer_threads.specs.Outcomes.{kind_of};

use session_table::{CloseKind, Outcome};

/// How the table of sessions counts an outcome. A session that the peer refused is refused.
pub fn kind_of(outcome: &Outcome) -> CloseKind
    ensures { result ≡ kind_of outcome.now }
{
    match outcome {
        Outcome::Ended { .. } => CloseKind::Ended,
        Outcome::Refused { .. } | Outcome::PeerRefused { .. } => CloseKind::Refused,
        Outcome::Io { .. } => CloseKind::Io,
        Outcome::Memory { .. } => CloseKind::Memory,
    }
}
