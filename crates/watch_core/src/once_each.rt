//! What the definitions of counting come to.

ghost use Rattle.std.specs.Prelude.{◌≡◌, ◌≢◌};
ghost use Rattle.watch_core.specs.Counting.{HasNumbers, IsEnding, count_of, plus, with_ending};
ghost use Rattle.watch_core.specs.declared.endings.Ending.{Ending};
ghost use Rattle.watch_core.specs.declared.endings.EndingCounts.{EndingCounts};

/// A visit is counted once: the count of its ending rises by one, until that stops at 2^64 - 1, and no other count of
/// an ending changes.
#[tactic(auto, using(crate::proofs::Once::own, crate::proofs::Once::others))]
pub fn visits_count_once()
    ensures own { (e : Ending) (c : EndingCounts) → HasNumbers c → IsEnding e →
        count_of e (with_ending e c) ≡ plus (count_of e c) 1 }
    ensures others { (e f : Ending) (c : EndingCounts) → e ≢ f → count_of f (with_ending e c) ≡ count_of f c }
{}
