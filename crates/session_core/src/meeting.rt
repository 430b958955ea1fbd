//! Two sessions, one of each role, between which all bytes went.

ghost use Rattle.laws.specs.Meeting.{AreSpelled};
ghost use Rattle.session_core.specs.Pairs.{SessionsMeet};

use digest_core::WireSummary;
use strategy_check::Accepted;

/// The profile of a summary spells each fingerprint of it.
fn are_spelled<F: WireSummary>()
    ensures { AreSpelled F.summary F.profile }
{}

/// An initiator by one accepted strategy and a responder by another: where each was pushed all that was taken of the
/// other, and neither has anything due, both have ended, and their messages are those of the talk of their two sets.
pub fn two_sessions_meet<F: WireSummary>(first: &Accepted, second: &Accepted)
    ensures { SessionsMeet F.summary F.profile first.now second.now }
{
    laws::talks::two_sessions_meet::<F>();
    laws::ranks::ranks_are_read();
    are_spelled::<F>();
    let _ = first.cap(); // proof only: the strategy was checked
    let _second = second.cap(); // proof only: the strategy was checked
}
