//! The steps of the least ranks, count by count.

ghost use Rattle.std.specs.Prelude.{◌≡◌, ◌<◌, ◌≤◌, ◌+◌, is_none, IfSome};
ghost use Rattle.definitions.specs.Strategies.{shares};
ghost use Rattle.definitions.specs.Ranks.{is_stuck};
ghost use Rattle.definitions.specs.Climbs.{climb_to, At};
ghost use Rattle.strategy_check.specs.Ranking.{Climbs, IsCutting};

use crate::rank_fault::{RankError, RankFault};
use crate::staircase::rank;
use strategy_core::{Act, Cutting, Strategy};

/// The shares of n items, unless the row of n cuts them into fewer than two.
pub fn parts(strategy: &Strategy, n: u32) -> Option<Cutting>
    requires { n ≤ strategy.now.cap }
    ensures stuck { is_none result ≡ is_stuck strategy.now n }
    ensures parts { IfSome result (λ cutting. IsCutting cutting (shares strategy.now n)) }
{
    let cutting = strategy.cutting(n);
    if strategy.act(n) == Act::Split && cutting.count < 2 {
        return None;
    }
    Some(cutting)
}

/// From the steps below a count to those below the next one.
pub fn climb(steps: &mut Vec<u32>, strategy: &Strategy, count: u32) -> Result<(), RankError>
    requires cap { count < strategy.now.cap }
    requires small { count < 65536 }
    requires climbed { climb_to strategy.now count ≡ At steps.old.items }
    ensures { Climbs result steps.new.items (climb_to strategy.now (count + 1)) }
{
    let next = count + 1;
    let Some(cutting) = parts(strategy, next) else {
        return Err(RankError::Fault(RankFault::NoDescent { count: next }));
    };
    if cutting.count == 0 || (rank(steps, cutting.greatest) as usize) < steps.len() {
        return Ok(());
    }
    steps.push(count)?;
    Ok(())
}
