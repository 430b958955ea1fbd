//! A search for a table that is quicker than those that are shipped, for two sets and a line.

ghost use Rattle.std.specs.Prelude.{◌≡◌, ◌≤◌, true, None, IfOk, IfSome};
ghost use Rattle.range_tree.specs.Trees.{tree_items};
ghost use Rattle.sim_core.specs.Plans.{AreOf, IsPlanned, IsRankOf, IsTimed, is_late};
ghost use Rattle.sim_core.specs.Samples.{IsSample};

use crate::candidate::Candidate;
use crate::costing::trees_of;
use crate::parsing::candidate_of;
use crate::planning::{Planned, Task, accepted_of, planned_of};
use rand_core::SeedableRng;
use rand_xoshiro::SplitMix64;
use range_tree::Tree;
use std::alloc::{AllocError, Global};
use std::io;
use std::time::{Clock, Duration, Instant};

/// What a table that was found is called.
const NAME: &str = "searched";

/// The most rounds of a strategy.
const MAX_ROUNDS: u32 = 255;

/// The most tables that are tried.
const MAX_TRIES: u32 = 1_000_000_000;

/// What the changes are drawn by: each search makes the same ones, as far as it comes.
const SEED: u64 = 1;

/// The quickest table so far, and its numbers.
#[derive(Drop)]
struct Found {
    planned: Planned,
    candidate: Candidate,
}

/// Whether so many seconds have passed, or the clock did not tell.
fn is_late(elapsed: &io::Result<Duration>, seconds: u32) -> bool
    ensures { result ≡ is_late elapsed.now seconds }
{
    match elapsed {
        Ok(elapsed) => elapsed.as_secs() >= u64::from(seconds),
        Err(_) => true,
    }
}

/// Whether so many seconds are over since the start, or the clock does not tell.
fn is_over<C: Clock>(clock: &C, start: Option<Instant>, seconds: u32) -> bool
    ensures { start ≡ None → result ≡ true }
{
    match start {
        Some(start) => is_late(&start.elapsed(clock), seconds),
        None => true,
    }
}

/// The least rounds with which the strategy of this text is accepted: the rank of its cap.
fn least_rounds(alloc: Global, text: &str) -> Result<Option<u32>, AllocError>
    ensures { IfOk result (λ rounds. IfSome rounds (λ n. IsRankOf text.now n)) }
{
    match accepted_of(alloc, text)? {
        Some(accepted) => {
            let bound = accepted.bound_as_responder(accepted.cap());
            Ok(Some(bound - 1))
        }
        None => Ok(None),
    }
}

/// The same table with the least rounds.
fn tightened(
    alloc: Global,
    task: Task,
    found: Found,
    theirs: &Tree,
    ours: &Tree,
) -> Result<Found, AllocError>
    requires rate { 1 ≤ task.line.rate }
    requires sets { AreOf task.sample (tree_items theirs.now) (tree_items ours.now) }
    requires planned { IsPlanned task.sample found.planned }
    ensures planned { IfOk result (λ f. IsPlanned task.sample f.planned) }
    ensures timed { IsTimed task.line task.sample found.planned →
        IfOk result (λ f. IsTimed task.line task.sample f.planned) }
    ensures never_slower { IfOk result (λ f. f.planned.micros ≤ found.planned.micros) }
{
    let Some(rounds) = least_rounds(alloc, found.planned.text.as_str())? else {
        return Ok(found);
    };
    let text = found.candidate.text(alloc, rounds)?;
    let Some(planned) = planned_of(alloc, task, NAME, text.as_str(), theirs, ours)? else {
        return Ok(found);
    };
    if planned.micros > found.planned.micros {
        return Ok(found);
    }
    let Found {
        planned: _,
        candidate,
    } = found;
    Ok(Found { planned, candidate })
}

/// The quicker of this table and a changed one.
fn stepped(
    alloc: Global,
    task: Task,
    found: Found,
    theirs: &Tree,
    ours: &Tree,
    random: &mut SplitMix64,
) -> Result<Found, AllocError>
    requires rate { 1 ≤ task.line.rate }
    requires sets { AreOf task.sample (tree_items theirs.now) (tree_items ours.now) }
    requires planned { IsPlanned task.sample found.planned }
    ensures planned { IfOk result (λ f. IsPlanned task.sample f.planned) }
    ensures timed { IsTimed task.line task.sample found.planned →
        IfOk result (λ f. IsTimed task.line task.sample f.planned) }
    ensures never_slower { IfOk result (λ f. f.planned.micros ≤ found.planned.micros) }
{
    let candidate = found.candidate.changed(alloc, random)?;
    let text = candidate.text(alloc, MAX_ROUNDS)?;
    let Some(planned) = planned_of(alloc, task, NAME, text.as_str(), theirs, ours)? else {
        return Ok(found);
    };
    if planned.micros >= found.planned.micros {
        return Ok(found);
    }
    tightened(alloc, task, Found { planned, candidate }, theirs, ours)
}

/// A table under which a session takes at most as long as under the one that the search starts with, found within so
/// many seconds: what is quicker of a table and one that is changed a little at random, again and again.
///
/// It is the start itself if nothing quicker was found, or if the start does more than to list and then to cut.
pub fn searched<C: Clock>(
    alloc: Global,
    task: Task,
    start: Planned,
    clock: &C,
    seconds: u32,
) -> Result<Planned, AllocError>
    requires sample { IsSample task.sample }
    requires rate { 1 ≤ task.line.rate }
    requires start { IsPlanned task.sample start }
    ensures planned { IfOk result (IsPlanned task.sample) }
    ensures timed { IsTimed task.line task.sample start → IfOk result (IsTimed task.line task.sample) }
    ensures never_slower { IfOk result (λ p. p.micros ≤ start.micros) }
{
    let since = Instant::now(clock).ok();
    let Some(candidate) = candidate_of(alloc, start.text.as_str())? else {
        return Ok(start);
    };
    let (theirs, ours) = trees_of(alloc, task.sample)?;
    let mut random = SplitMix64::seed_from_u64(SEED);
    let mut found = Found {
        planned: start,
        candidate,
    };
    for _ in 0..MAX_TRIES {
        if is_over(clock, since, seconds) {
            break;
        }
        found = stepped(alloc, task, found, &theirs, &ours, &mut random)?;
    }
    Ok(found.planned)
}
