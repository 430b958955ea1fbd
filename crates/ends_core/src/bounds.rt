//! What each side keeps to, whatever its peer sends.

ghost use Rattle.std.specs.Prelude.{◌≤◌, ◌+◌, ℕ, List, length};
ghost use Rattle.definitions.specs.Items.{Item, IsBytes};
ghost use Rattle.definitions.specs.Sets.{IsSet};
ghost use Rattle.definitions.specs.Ranks.{greatest, rank_by};
ghost use Rattle.definitions.specs.Strategies.{opening_counts};
ghost use Rattle.definitions.specs.Engines.{initiating, responding};
ghost use Rattle.ends_core.specs.Sides.{BoundLaws, KeepsBounds, peer_of};

use digest_core::WireSummary;
use strategy_check::Accepted;

/// The laws by which both sides keep to their bounds.
fn bound_laws<F: WireSummary>()
    ensures { BoundLaws F.summary F.profile }
{
    laws::codec::heard_are_messages::<F>();
    laws::talks::messages_have_ranges::<F>();
    laws::talks::initiator_stops::<F>();
    laws::talks::responder_stops::<F>();
    laws::talks::ends_keep_limits::<F>();
    laws::talks::initiator_learns::<F>();
    laws::talks::responder_learns::<F>();
    laws::talks::own_is_few::<F>();
    laws::talks::own_is_short::<F>();
    laws::ranks::ranks_are_read();
}

/// A side that goes by an accepted strategy sends few messages and short lists, and learns just what the messages that
/// it takes say, whatever the bytes are that it gets.
pub fn sides_keep_bounds<F: WireSummary>(accepted: &Accepted)
    ensures initiator { (items : List Item) (bytes : List ℕ) → IsSet items → IsBytes bytes →
        length items ≤ accepted.now.table.cap →
        KeepsBounds F.summary F.profile (initiating F.summary (peer_of accepted.now items)) bytes
        (greatest (rank_by accepted.now.steps)
        (opening_counts F.summary.may_cut accepted.now.table (length items)) + 2) accepted.now.table.limit }
    ensures responder { (items : List Item) (bytes : List ℕ) → IsSet items → IsBytes bytes →
        length items ≤ accepted.now.table.cap →
        KeepsBounds F.summary F.profile (responding F.summary (peer_of accepted.now items)) bytes
        (rank_by accepted.now.steps (length items) + 1) accepted.now.table.limit }
{
    bound_laws::<F>();
    let _ = accepted.cap(); // proof only: the strategy was checked
}
