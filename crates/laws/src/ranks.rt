//! Laws of tables, shares and ranks.

ghost use Rattle.std.specs.Prelude.{ℕ, List, [], ◌∷◌, Ok, Err, Some, Option, None, ◌≡◌, ◌↔◌, ◌≤◌, ◌<◌, ◌+◌, ◌-◌};
ghost use Rattle.std.specs.Prelude.{length, slice_index, nat_le, IsTrue};
ghost use Rattle.std.specs.List.{list_all, list_any};
ghost use Rattle.std.specs.List.Sorted.{IsStrictlyIncreasing};
ghost use Rattle.definitions.specs.Strategies.{Table, act, shares, is_split, IsTable, uptos};
ghost use Rattle.definitions.specs.Ranks.{IsRankTable, IsLeastRankTable, Accepted, keeps_limit, least_ranks};
ghost use Rattle.definitions.specs.Ranks.{first_long, first_stuck, first_unfit, check_fault, check_with_fault};
ghost use Rattle.definitions.specs.Ranks.{deep_fault, rank_by, ranks_by, IsStaircase, staircase, steps_fault};
ghost use Rattle.definitions.specs.Ranks.{IsServing, found};
ghost use Rattle.laws.specs.Ranks.{HasRow, IsCut, IsGradual, IsGreatest};
ghost use Rattle.definitions.specs.Climbs.{find_steps, deep_by_steps, check_by_steps};

/// A row serves each count up to the cap.
/// docs/LAWS.md: *Lists are short*.
#[tactic(auto, using(crate::proofs::Tables::each_served))]
pub fn each_served()
    ensures { (T : Table) → IsTable T → (n : ℕ) → n ≤ T.cap → HasRow T.rows n }
{}

/// No row reaches past the cap.
/// docs/LAWS.md: *Lists are short*.
#[tactic(auto, using(crate::proofs::Tables::rows_within))]
pub fn rows_within()
    ensures { (T : Table) → IsTable T → (k : ℕ) → k < length (uptos T) → slice_index (uptos T) k ≤ T.cap }
{}

/// The shares of what is cut are positive and add up to it.
/// docs/LAWS.md: *Shares are parts*.
#[tactic(auto, using(crate::proofs::Tables::cut))]
pub fn shares_are_parts()
    ensures { (T : Table) → IsTable T → (n : ℕ) → IsTrue (is_split (act T n)) → IsCut n (shares T n) }
{}

/// If no count is stuck, and only then, the least ranks are the least rank table.
/// docs/LAWS.md: *The least rank table*.
pub fn least_where_not_stuck()
    ensures { (T : Table) → (first_stuck T ≡ None) ↔ IsLeastRankTable T (least_ranks T) }
{}

/// If there is a rank table, no count is stuck.
/// docs/LAWS.md: *The least rank table*.
#[tactic(auto, using(crate::proofs::Checks::ranked))]
pub fn ranked_is_not_stuck()
    ensures { (T : Table) (f : List ℕ) → IsRankTable T f → first_stuck T ≡ None }
{}

/// No list is too long exactly if each list row keeps the limit.
/// docs/LAWS.md: *What the checker says*.
#[tactic(auto, using(crate::proofs::Checks::lists_fit, crate::proofs::Checks::none_long))]
pub fn lists_keep_limit()
    ensures { (T : Table) → (first_long T ≡ None) ↔ IsTrue (list_all (keeps_limit T.limit) T.rows) }
{}

/// The check accepts what is to be accepted.
/// docs/LAWS.md: *What the checker says*.
#[tactic(auto, using(crate::proofs::Checks::accepted, crate::proofs::Checks::no_fault))]
pub fn check_accepts()
    ensures { (T : Table) → (check_fault T ≡ None) ↔ Accepted T }
{}

/// The staircase of ranks keeps them if they begin at 0 and leave out no number, and only then.
/// docs/LAWS.md: *Ranks as a staircase*.
#[tactic(auto, using(crate::proofs::Staircases::rank_by_staircase, crate::proofs::Staircases::gradual_only))]
pub fn staircase_keeps()
    ensures { (f : List ℕ) → IsGradual f ↔ ((n : ℕ) → n < length f → rank_by (staircase f) n ≡ slice_index f n) }
{}

/// A staircase that is made is one, and ends at the last count.
/// docs/LAWS.md: *Ranks as a staircase*.
#[tactic(auto, using(crate::proofs::Staircases::staircase_IsStaircase, crate::proofs::Staircases::staircase_last))]
pub fn staircase_is_one()
    ensures rises { (f : List ℕ) → 0 < length f → IsStaircase (staircase f) }
    ensures ends { (f : List ℕ) → 0 < length f →
        slice_index (staircase f) (length (staircase f) - 1) ≡ length f - 1 }
{}

/// Entry j is the greatest count of rank at most j.
/// docs/LAWS.md: *Ranks as a staircase*.
#[tactic(auto, using(crate::proofs::Staircases::entries_are_greatest))]
pub fn entries_are_greatest()
    ensures { (f : List ℕ) → IsGradual f → (j : ℕ) → j < length (staircase f) →
        IsGreatest f j (slice_index (staircase f) j) }
{}

/// The least ranks begin at 0 and leave out no number.
/// docs/LAWS.md: *Ranks as a staircase*.
pub fn least_ranks_are_gradual()
    ensures { (T : Table) → first_stuck T ≡ None → IsGradual (least_ranks T) }
{}

/// A staircase serves exactly if it reaches the cap and keeps a rank table.
/// docs/LAWS.md: *A staircase that is brought*.
pub fn none_unfit()
    ensures { (T : Table) (steps : List ℕ) → (first_unfit T steps ≡ None) ↔ IsServing T steps }
{}

/// What is accepted with a staircase is to be accepted.
/// docs/LAWS.md: *A staircase that is brought*.
pub fn check_with_accepts()
    ensures exact { (T : Table) (steps : List ℕ) → (check_with_fault T steps ≡ None)
        ↔ (IsTrue (list_all (keeps_limit T.limit) T.rows) × IsServing T steps × (rank_by steps T.cap ≤ T.rounds)) }
    ensures accepted { (T : Table) (steps : List ℕ) → check_with_fault T steps ≡ None → Accepted T }
{}

/// A loop that keeps the steps alone finds the staircase too, or the least count that is stuck.
/// docs/LAWS.md: *By the steps alone*.
#[tactic(auto, using(crate::proofs::StepsAlone::loop_finds))]
pub fn loop_finds()
    ensures { (T : Table) → find_steps T ≡ found T }
{}

/// The last row reaches the cap.
/// docs/LAWS.md: *Lists are short*.
#[tactic(auto, using(crate::proofs::Tables::covers))]
pub fn rows_cover()
    ensures { (T : Table) → IsTable T → IsTrue (list_any (λ row. nat_le T.cap row.upto) T.rows) }
{}

/// Ranks and their staircase come back from one another.
/// docs/LAWS.md: *Ranks as a staircase*.
#[tactic(auto, using(crate::proofs::StepsAlone::ranks_by_staircase, crate::proofs::StepsAlone::staircase_ranks_by))]
pub fn staircase_and_back()
    ensures ranks { (f : List ℕ) (cap : ℕ) → IsGradual f → length f ≡ cap + 1 → ranks_by (staircase f) cap ≡ f }
    ensures steps { (steps : List ℕ) (cap : ℕ) → IsStaircase steps → slice_index steps (length steps - 1) ≡ cap →
        staircase (ranks_by steps cap) ≡ steps }
{}

/// The rank table that a staircase keeps has the ranks that are read from it.
/// docs/LAWS.md: *Ranks as a staircase*.
pub fn ranks_are_read()
    ensures { (steps : List ℕ) (cap n : ℕ) → n ≤ cap → slice_index (ranks_by steps cap) n ≡ rank_by steps n }
{}

/// A list of numbers without a fault is a staircase.
/// docs/LAWS.md: *Ranks as a staircase*.
#[tactic(auto, using(crate::proofs::StepsAlone::no_steps_fault, crate::proofs::StepsAlone::staircase_no_fault))]
pub fn steps_are_tested()
    ensures { (steps : List ℕ) → (steps_fault steps ≡ None) ↔ IsStaircase steps }
{}

/// The first count that is too deep is the one after an entry of the staircase.
/// docs/LAWS.md: *By the steps alone*.
#[tactic(auto, using(crate::proofs::StepsAlone::too_deep_by_steps, crate::proofs::StepsAlone::least_too_deep))]
pub fn deep_by_the_steps()
    ensures brought { (T : Table) (steps : List ℕ) → IsStrictlyIncreasing steps →
        deep_fault T (ranks_by steps T.cap) ≡ deep_by_steps T.cap T.rounds steps }
    ensures least { (T : Table) → first_stuck T ≡ None →
        deep_fault T (least_ranks T) ≡ deep_by_steps T.cap T.rounds (staircase (least_ranks T)) }
{}

/// The check needs the loop's steps alone.
/// docs/LAWS.md: *By the steps alone*.
#[tactic(auto, using(crate::proofs::StepsAlone::check_by_the_steps))]
pub fn check_by_the_steps()
    ensures { (T : Table) → check_fault T ≡ check_by_steps T }
{}

/// The staircase of any rank table serves.
/// docs/LAWS.md: *A staircase that is brought*.
pub fn ranks_are_packed()
    ensures { (T : Table) (f : List ℕ) → IsRankTable T f → IsServing T (staircase f) }
{}

/// Ranks that leave out no number are no greater than their counts.
/// docs/LAWS.md: *Ranks as a staircase*.
#[tactic(auto, using(crate::proofs::Staircases::ranks_are_small))]
pub fn ranks_are_small()
    ensures { (f : List ℕ) → IsGradual f → (n : ℕ) → n < length f → slice_index f n ≤ n }
{}
