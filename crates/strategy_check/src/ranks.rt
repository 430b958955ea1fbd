ghost use Rattle.std.specs.Prelude.{◌≡◌, ◌-◌, ◌≤◌, ◌<◌, ℕ, List, length, slice_index, Err, IfOk};
ghost use Rattle.definitions.specs.Ranks.{IsRankTable, IsLeastRankTable, IsStaircase, IsServing, rank_by, ranks_by};
ghost use Rattle.definitions.specs.Ranks.{steps_fault, first_unfit, is_unfit, found};
ghost use Rattle.strategy_check.specs.Ranking.{Finds, FindsSo, Brings, Fits};

use crate::climb::{climb, parts};
use crate::rank_fault::{RankError, RankFault};
use crate::staircase::{fault, rank};
use std::alloc::Global;
use std::marker::Model;
use strategy_core::Strategy;

/// Ranks of counts, kept as a staircase: the rank of n is the number of the entries below n.
#[derive(Debug, Drop)]
pub struct Ranks {
    steps: Vec<u32>,
}

impl Model for Ranks {
    ghost use Rattle.std.specs.Prelude.{List, ℕ};
    ghost use Rattle.definitions.specs.Ranks.{IsStaircase};

    ghost Value = { List ℕ };

    ghost view = { λ a. a.steps.items };

    ghost invariant = { λ a. IsStaircase a.steps.items };
}

/// Why there are no ranks where memory ran out: 36 if a count is cut into fewer than two shares.
fn without_memory(strategy: &Strategy) -> RankError
    ensures { Finds (Err result) (found strategy.now) }
{
    for count in 0..strategy.cap() + 1 {
        if parts(strategy, count).is_none() {
            return RankError::Fault(RankFault::NoDescent { count });
        }
    }
    RankError::Memory
}

impl Ranks {
    /// The ranks that `find` returns, or why there are none; memory may run out before 36.
    fn climb_all(alloc: Global, strategy: &Strategy) -> Result<Ranks, RankError>
        ensures exact { FindsSo result (found strategy.now) }
        ensures least { IfOk result (λ steps. IsLeastRankTable strategy.now (ranks_by steps strategy.now.cap)) }
        ensures serving { IfOk result (λ steps. IsServing strategy.now steps) }
    {
        laws::ranks::loop_finds();
        laws::ranks::least_where_not_stuck();
        laws::ranks::least_ranks_are_gradual();
        laws::ranks::staircase_and_back();
        let mut steps = Vec::new(alloc);
        if parts(strategy, 0).is_none() {
            return Err(RankError::Fault(RankFault::NoDescent { count: 0 }));
        }
        for count in 0..strategy.cap() {
            climb(&mut steps, strategy, count)?;
        }
        steps.push(strategy.cap())?;
        Ok(Ranks { steps })
    }

    /// The least ranks of the counts up to the strategy's cap.
    ///
    /// Else 36 with the least count that is cut into fewer than two shares, and 90 only where there is no such count.
    pub fn find(alloc: Global, strategy: &Strategy) -> Result<Ranks, RankError>
        ensures exact { Finds result (found strategy.now) }
        ensures least { IfOk result (λ steps. IsLeastRankTable strategy.now (ranks_by steps strategy.now.cap)) }
        ensures serving { IfOk result (λ steps. IsServing strategy.now steps) }
    {
        match Ranks::climb_all(alloc, strategy) {
            Err(RankError::Memory) => Err(without_memory(strategy)),
            found => found,
        }
    }

    /// The ranks of this staircase.
    ///
    /// Else 39 with the first entry that is not greater than the one before it, or with 0 where there is no entry.
    /// Memory may run out after that.
    pub fn from_steps(alloc: Global, steps: &[u32]) -> Result<Ranks, RankError>
        ensures { Brings result steps.now (steps_fault steps.now) }
    {
        laws::ranks::steps_are_tested();
        if let Some(count) = fault(steps) {
            return Err(RankError::Fault(RankFault::BadCertificate { count }));
        }
        Ok(Ranks {
            steps: Vec::from_slice(alloc, steps)?,
        })
    }

    /// The staircase: the entries rise, and there is at least one.
    pub fn steps(&self) -> &[u32]
        ensures steps { result.now ≡ self.now }
        ensures staircase { IsStaircase self.now }
    {
        &self.steps
    }

    /// The greatest count that has a rank.
    pub fn last(&self) -> u32
        ensures { result ≡ slice_index self.now (length self.now - 1) }
    {
        self.steps[self.steps.len() - 1]
    }

    /// The rank of n.
    pub fn of(&self, n: u32) -> u32
        requires { n ≤ slice_index self.now (length self.now - 1) }
        ensures rank { result ≡ rank_by self.now n }
        ensures small { result ≤ n }
    {
        rank(&self.steps, n)
    }

    /// Whether n has no rank here, or is cut into fewer than two shares, or into one whose rank is not less than its
    /// own.
    fn misfits(&self, strategy: &Strategy, n: u32) -> bool
        requires { n ≤ strategy.now.cap }
        ensures { result ≡ is_unfit strategy.now self.now n }
    {
        let Some(cutting) = parts(strategy, n) else {
            return true;
        };
        n > self.last()
            || cutting.count > 0 && rank(&self.steps, n) <= rank(&self.steps, cutting.greatest)
    }

    /// Whether these are ranks for the strategy; else the least count up to its cap that has no rank here, or that is
    /// cut into fewer than two shares, or into one whose rank is not less than its own.
    pub fn fits(&self, strategy: &Strategy) -> Result<(), u32>
        ensures exact { Fits result (first_unfit strategy.now self.now) }
        ensures serving { IfOk result (λ _. IsServing strategy.now self.now) }
    {
        laws::ranks::none_unfit();
        for count in 0..strategy.cap() + 1 {
            if self.misfits(strategy, count) {
                return Err(count);
            }
        }
        Ok(())
    }
}
