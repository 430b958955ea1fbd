//! What each side keeps to, whatever its peer sends.

ghost use Rattle.std.specs.Prelude.{◌≡◌, ◌≤◌, ◌+◌, ℕ, List, length};
ghost use Rattle.std.specs.Arc.{arc_value};
ghost use Rattle.definitions.specs.Items.{IsBytes, Item};
ghost use Rattle.definitions.specs.Sets.{IsSet};
ghost use Rattle.definitions.specs.Histories.{History, content};
ghost use Rattle.definitions.specs.Ranks.{rank_by};
ghost use Rattle.definitions.specs.Engines.{initiating, responding};
ghost use Rattle.definitions.specs.Worlds.{opened_of};
ghost use Rattle.ends_core.specs.Sides.{KeepsBounds, peer_of};

use digest_core::WireSummary;
use std::sync::Arc;
use strategy_check::Accepted;

/// A side that goes by an accepted strategy sends few messages and short lists, and learns just what the messages that
/// it takes say, whatever the bytes are that it reads.
pub(crate) fn sides_keep_bounds<F: WireSummary>(accepted: &Arc<Accepted>)
    ensures initiator { (A : List Item) (bytes : List ℕ) → IsBytes bytes → IsSet A →
        length A ≤ (arc_value accepted.now).table.cap →
        KeepsBounds F.summary F.profile (initiating F.summary (peer_of (arc_value accepted.now) A)) bytes
        (opened_of F.summary (arc_value accepted.now).steps (peer_of (arc_value accepted.now) A) + 2)
        (arc_value accepted.now).table.limit }
    ensures responder { (h : History) (bytes : List ℕ) → IsBytes bytes →
        length (content h) ≤ (arc_value accepted.now).table.cap →
        KeepsBounds F.summary F.profile (responding F.summary (peer_of (arc_value accepted.now) (content h))) bytes
        (rank_by (arc_value accepted.now).steps (length (content h)) + 1) (arc_value accepted.now).table.limit }
{
    ends_core::sides_keep_bounds::<F>(accepted);
    store_core::set_laws::set_of_a_list();
}
