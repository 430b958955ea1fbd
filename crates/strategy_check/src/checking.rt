ghost use Rattle.std.specs.Prelude.{◌≡◌, ◌≢◌, IfOk, IfErr};
ghost use Rattle.definitions.specs.Ranks as meaning;
ghost use Rattle.definitions.specs.Ranks.{IsLeastRankTable, ranks_by, check_with_fault};
ghost use Rattle.strategy_check.specs.Checked.{IsChecked};
ghost use Rattle.strategy_check.specs.Refused.{FindsAccepted, Checks, ChecksWith, Passes};
ghost use Rattle.strategy_check.specs.declared.fault.CheckError.TheVariants as errors;

use crate::accepted::Accepted;
use crate::fault::{CheckError, CheckFault};
use crate::ranks::Ranks;
use crate::reasons::{long_list, too_deep};
use std::alloc::Global;
use strategy_core::Strategy;

/// The least ranks of a strategy, where it is to be accepted.
fn least_ranks(alloc: Global, strategy: &Strategy) -> Result<Ranks, CheckError>
    ensures exact { FindsAccepted result strategy.now }
    ensures least { IfOk result (λ steps. IsLeastRankTable strategy.now (ranks_by steps strategy.now.cap)) }
    ensures checked { IfOk result (λ steps. IsChecked (record { table = strategy.now; steps = steps })) }
{
    laws::ranks::check_by_the_steps();
    laws::ranks::loop_finds();
    laws::ranks::check_accepts();
    laws::ranks::check_with_accepts();
    laws::ranks::deep_by_the_steps();
    laws::ranks::none_unfit();
    if let Some(upto) = long_list(strategy) {
        return Err(CheckError::Fault(CheckFault::ListTooLong { upto }));
    }
    let ranks = Ranks::find(alloc, strategy)?;
    if let Some(fault) = too_deep(strategy, &ranks) {
        return Err(CheckError::Fault(fault));
    }
    Ok(ranks)
}

/// The strategy with its least ranks, where it is to be accepted.
///
/// Else the strategy comes back with the first reason: a list row reaches past the limit (37), a count is cut into
/// fewer than two shares (36), or a rank exceeds the rounds (38). Memory may run out before the last two.
pub fn check(alloc: Global, strategy: Strategy) -> Result<Accepted, (Strategy, CheckError)>
    ensures exact { Checks result strategy }
    ensures accepted { IfOk result (λ a. meaning.Accepted strategy) }
    ensures least { IfOk result (λ a. IsLeastRankTable strategy (ranks_by a.steps strategy.cap)) }
    ensures refused { IfErr result (λ e. e.1 ≢ errors.Memory → meaning.Accepted strategy → ⊥) }
{
    laws::ranks::check_accepts();
    match least_ranks(alloc, &strategy) {
        Ok(ranks) => Ok(Accepted { strategy, ranks }),
        Err(error) => Err((strategy, error)),
    }
}

/// Whether the strategy is to be accepted with these ranks.
fn serves(strategy: &Strategy, ranks: &Ranks) -> Result<(), CheckFault>
    ensures exact { Passes result (check_with_fault strategy.now ranks.now) }
    ensures checked { IfOk result (λ _. IsChecked (record { table = strategy.now; steps = ranks.now })) }
{
    laws::ranks::deep_by_the_steps();
    laws::ranks::check_with_accepts();
    if let Some(upto) = long_list(strategy) {
        return Err(CheckFault::ListTooLong { upto });
    }
    if let Err(count) = ranks.fits(strategy) {
        return Err(CheckFault::BadCertificate { count });
    }
    match too_deep(strategy, ranks) {
        Some(fault) => Err(fault),
        None => Ok(()),
    }
}

/// The strategy with the ranks that were brought, where it is to be accepted with them.
///
/// Else both come back with the first reason: a list row reaches past the limit (37), the ranks do not serve a count
/// (39), or one of them exceeds the rounds (38).
pub fn check_with(
    strategy: Strategy,
    ranks: Ranks,
) -> Result<Accepted, (Strategy, Ranks, CheckFault)>
    ensures exact { ChecksWith result strategy ranks }
    ensures accepted { IfOk result (λ a. meaning.Accepted strategy) }
{
    match serves(&strategy, &ranks) {
        Ok(()) => Ok(Accepted { strategy, ranks }),
        Err(fault) => Err((strategy, ranks, fault)),
    }
}
