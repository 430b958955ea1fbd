//! The reasons why a strategy is refused, one by one.

ghost use Rattle.std.specs.Prelude.{◌≡◌, option_map};
ghost use Rattle.definitions.specs.Strategies.{IsTable};
ghost use Rattle.definitions.specs.Ranks.{first_long, IsStaircase};
ghost use Rattle.definitions.specs.Climbs.{deep_by_steps};
ghost use Rattle.strategy_check.specs.Refused.{fault_of};

use crate::fault::CheckFault;
use crate::ranks::Ranks;
use strategy_core::{Act, Strategy};

/// The `upto` of the first row that lists and reaches past the limit.
pub fn long_list(strategy: &Strategy) -> Option<u32>
    ensures { result ≡ first_long strategy.now }
{
    for index in 0..strategy.rows() {
        let (upto, act) = strategy.row(index);
        if act == Act::List && upto > strategy.limit() {
            return Some(upto);
        }
    }
    None
}

/// The least count whose rank exceeds the rounds, with its rank.
pub fn too_deep(strategy: &Strategy, ranks: &Ranks) -> Option<CheckFault>
    ensures deep { option_map fault_of result ≡ deep_by_steps strategy.now.cap strategy.now.rounds ranks.now }
    ensures table { IsTable strategy.now }
    ensures staircase { IsStaircase ranks.now }
{
    let rounds = strategy.rounds();
    let cap = strategy.cap();
    match ranks.steps().get(rounds as usize) {
        Some(step) if *step < cap => Some(CheckFault::TooDeep {
            count: *step + 1,
            rank: rounds + 1,
        }),
        _ => None,
    }
}
