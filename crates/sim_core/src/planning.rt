//! The quickest of the strategies that are shipped, for two sets and a line.

ghost use Rattle.std.specs.Prelude.{◌≡◌, ◌≤◌, ◌⊎◌, IfOk, IfSome};
ghost use Rattle.std.specs.Arc.{arc_value};
ghost use Rattle.range_tree.specs.Trees.{tree_items};
ghost use Rattle.sim_core.specs.Lines.{line_micros};
ghost use Rattle.sim_core.specs.Plans.{AreOf, IsAcceptedText, IsNamed, IsNoSlower, IsPlanned, IsTimed};
ghost use Rattle.sim_core.specs.Samples.{IsSample};

use crate::costing::{Cost, cost_of_copies, trees_of};
use crate::line::{Line, session_micros};
use crate::sample::Sample;
use crate::tables::SHIPPED;
use range_tree::Tree;
use std::alloc::{AllocError, Global};
use std::sync::Arc;
use store_core::RangeStore;
use strategy_check::{Accepted, CheckError, check};
use strategy_core::{Strategy, StrategyError};

/// What a strategy is planned for.
#[derive(Clone, Copy)]
pub struct Task {
    /// The two sets.
    pub sample: Sample,
    /// The line between them.
    pub line: Line,
}

/// A strategy, and what a session under it costs.
#[derive(Drop)]
pub struct Planned {
    /// What it is called: the name of its file, without `.toml`, or `searched`.
    pub name: String,
    /// Its text.
    pub text: String,
    /// The bytes both ways.
    pub bytes: usize,
    /// The messages of both sides.
    pub messages: u64,
    /// The microseconds on the line.
    pub micros: u64,
}

/// The strategy of this text, where it is accepted.
pub(crate) fn accepted_of(alloc: Global, text: &str) -> Result<Option<Arc<Accepted>>, AllocError>
    ensures { IfOk result (λ found. IfSome found (λ a. IsAcceptedText text.now (arc_value a))) }
{
    let strategy = match Strategy::read(alloc, text.as_bytes()) {
        Ok(strategy) => strategy,
        Err(StrategyError::Memory) => return Err(AllocError),
        Err(_) => return Ok(None),
    };
    match check(alloc, strategy) {
        Ok(accepted) => Ok(Some(Arc::new(alloc, accepted)?)),
        Err((_strategy, CheckError::Memory)) => Err(AllocError),
        Err((_strategy, CheckError::Fault(_))) => Ok(None),
    }
}

/// A strategy of this name and text, whose session has this cost.
fn plan_with(
    alloc: Global,
    task: Task,
    name: &str,
    text: &str,
    cost: Cost,
) -> Result<Planned, AllocError>
    requires { 1 ≤ task.line.rate }
    ensures named { IfOk result (IsNamed name.now text.now) }
    ensures bytes { IfOk result (λ p. p.bytes ≡ cost.bytes) }
    ensures messages { IfOk result (λ p. p.messages ≡ cost.messages) }
    ensures micros { IfOk result (λ p. p.micros ≡ line_micros task.line cost.turns.items) }
{
    Ok(Planned {
        name: String::from_str(alloc, name)?,
        text: String::from_str(alloc, text)?,
        bytes: cost.bytes,
        messages: cost.messages,
        micros: session_micros(task.line, &cost.turns),
    })
}

/// What a session under the strategy of this text costs between two sets; `None` where it is not accepted, or its cap
/// is below the items of one set.
pub(crate) fn planned_of(
    alloc: Global,
    task: Task,
    name: &str,
    text: &str,
    theirs: &Tree,
    ours: &Tree,
) -> Result<Option<Planned>, AllocError>
    requires rate { 1 ≤ task.line.rate }
    requires sets { AreOf task.sample (tree_items theirs.now) (tree_items ours.now) }
    ensures planned { IfOk result (λ found. IfSome found (IsTimed task.line task.sample)) }
    ensures named { IfOk result (λ found. IfSome found (IsNamed name.now text.now)) }
{
    let Some(accepted) = accepted_of(alloc, text)? else {
        return Ok(None);
    };
    let cap = accepted.cap() as usize;
    if theirs.len() > cap || ours.len() > cap {
        return Ok(None);
    }
    let cost = cost_of_copies(alloc, &accepted, theirs, ours)?;
    let planned = plan_with(alloc, task, name, text, cost)?;
    Ok(Some(planned))
}

/// The quicker of the two: the first if both are as quick.
fn quicker(best: Option<Planned>, other: Option<Planned>) -> Option<Planned>
    ensures one { (result ≡ best) ⊎ (result ≡ other) }
    ensures first { IsNoSlower result best }
    ensures second { IsNoSlower result other }
{
    match (best, other) {
        (Some(best), Some(other)) => Some(if other.micros < best.micros {
            other
        } else {
            best
        }),
        (Some(best), None) => Some(best),
        (None, other) => other,
    }
}

/// The quickest of the strategies that are shipped, for two sets and a line; `None` where the caps of all are below the
/// items of a set.
pub fn quickest(alloc: Global, task: Task) -> Result<Option<Planned>, AllocError>
    requires sample { IsSample task.sample }
    requires rate { 1 ≤ task.line.rate }
    ensures planned { IfOk result (λ found. IfSome found (IsPlanned task.sample)) }
    ensures timed { IfOk result (λ found. IfSome found (IsTimed task.line task.sample)) }
{
    let (theirs, ours) = trees_of(alloc, task.sample)?;
    let mut best = None;
    for shipped in SHIPPED {
        let planned = planned_of(alloc, task, shipped.name, shipped.text, &theirs, &ours)?;
        best = quicker(best, planned);
    }
    Ok(best)
}

/// The strategy of this text, under this name, and what a session under it costs; `None` where it is not accepted, or
/// its cap is below the items of a set.
pub fn planned_for(
    alloc: Global,
    task: Task,
    name: &str,
    text: &str,
) -> Result<Option<Planned>, AllocError>
    requires sample { IsSample task.sample }
    requires rate { 1 ≤ task.line.rate }
    ensures planned { IfOk result (λ found. IfSome found (IsPlanned task.sample)) }
    ensures timed { IfOk result (λ found. IfSome found (IsTimed task.line task.sample)) }
{
    let (theirs, ours) = trees_of(alloc, task.sample)?;
    planned_of(alloc, task, name, text, &theirs, &ours)
}
