//! A session between the program's own two ends, turn by turn.

ghost use Rattle.std.specs.Prelude.{◌≡◌, ◌+◌, ◌≤◌, ◌++◌, false, [], length, sum, IfOk, OnOk};
ghost use Rattle.std.specs.Arc.{arc_value};
ghost use Rattle.definitions.specs.Engines.{initiating, responding};
ghost use Rattle.definitions.specs.Fingerprints.{two_lanes};
ghost use Rattle.definitions.specs.Ranks.{rank_by};
ghost use Rattle.definitions.specs.Sets.{IsSet};
ghost use Rattle.definitions.specs.Wire.{two_lane_profile};
ghost use Rattle.definitions.specs.Worlds.{opened_of};
ghost use Rattle.ends_core.specs.Sides.{peer_of};
ghost use Rattle.range_tree.specs.Trees.{tree_items};
ghost use Rattle.session_core.specs.Pairs.{SessionsMeet};
ghost use Rattle.session_core.specs.Sessions.{due, Begins, Pushes, Takes};
ghost use Rattle.sim_core.specs.Costs.{Costs, CostsFrom, CostsSample, HaveSpoken, turn_of};
ghost use Rattle.sim_core.specs.Samples.{AreMade, IsSample};

use crate::sample::{Sample, sets_of};
use digest_core::{Fingerprint, WireSummary};
use ends_core::{Initiating, Responding, Role};
use item_core::Item;
use range_tree::Tree;
use session_core::Session;
use std::alloc::{AllocError, Global};
use std::sync::Arc;
use store_core::RangeStore;
use strategy_check::Accepted;

/// What a session costs.
#[derive(Drop)]
pub struct Cost {
    /// The bytes that the sides say in turn, the initiator first, and none that are empty. Those of each hello are in a
    /// side's first turn.
    pub turns: Vec<usize>,
    /// All of these bytes.
    pub bytes: usize,
    /// The messages of both sides.
    pub messages: u64,
}

/// Hands over all that one side has to say, and returns how many bytes that is: with none the other side stays as it
/// is. Fails where memory runs out before the other side has heard all of it.
fn hand_over<P: Role, Q: Role, F: WireSummary>(
    alloc: Global,
    from: &mut Session<P, Tree, F>,
    to: &mut Session<Q, Tree, F>,
) -> Result<usize, AllocError>
    requires { to.old.over ≡ false }
    ensures said { IfOk result (λ n. n ≡ length (due F.profile from.old.talk)) }
    ensures takes { IfOk result (λ _. Takes F.summary F.profile from.old (due F.profile from.old.talk) from.new) }
    ensures pushes { IfOk result (λ _. Pushes F.summary F.profile to.old (due F.profile from.old.talk) to.new) }
    ensures done { IfOk result (λ _. due F.profile from.new.talk ≡ []) }
    ensures same { IfOk result (λ n. n ≡ 0 → to.new ≡ to.old) }
    ensures from_listens { from.new.over ≡ from.old.over }
    ensures to_listens { to.new.over ≡ to.old.over }
{
    from.make_due(alloc)?;
    let count = from.due().len();
    if count == 0 {
        return Ok(0);
    }
    if to.push(alloc, from.due())? < count {
        return Err(AllocError);
    }
    from.take(count);
    Ok(count)
}

/// One turn more, unless it is empty.
fn push_turn(turns: &mut Vec<usize>, count: usize) -> Result<(), AllocError>
    ensures { OnOk result (turns.new.items ≡ turns.old.items ++ turn_of count) }
{
    if count > 0 {
        turns.push(count)?;
    }
    Ok(())
}

/// Lets the two sides speak in turn until neither has anything to say, and returns the bytes of each turn. So many
/// turns that none would be left fit in no memory.
fn talk<F: WireSummary>(
    alloc: Global,
    first: &mut Session<Initiating, Tree, F>,
    second: &mut Session<Responding, Tree, F>,
) -> Result<Vec<usize>, AllocError>
    requires first { first.old.over ≡ false }
    requires second { second.old.over ≡ false }
    ensures talks { IfOk result (λ turns. HaveSpoken F.summary F.profile first.old second.old first.new second.new
        turns.items) }
    ensures done { OnOk result ((due F.profile first.new.talk ≡ []) × (due F.profile second.new.talk ≡ [])) }
{
    let mut turns = Vec::new(alloc);
    for _ in 0..u64::MAX {
        let asked = hand_over(alloc, first, second)?;
        let answered = hand_over(alloc, second, first)?;
        push_turn(&mut turns, asked)?;
        push_turn(&mut turns, answered)?;
        if answered == 0 {
            return Ok(turns);
        }
    }
    Err(AllocError)
}

/// All bytes of the turns. Fails where they are too many for a number, which no memory holds.
fn total(turns: &[usize]) -> Result<usize, AllocError>
    ensures { IfOk result (λ n. n ≡ sum turns.now) }
{
    let mut total: usize = 0;
    for turn in turns {
        total = total.checked_add(*turn).ok_or(AllocError)?;
    }
    Ok(total)
}

/// The side that speaks first.
fn first_side<F: WireSummary>(
    alloc: Global,
    accepted: &Arc<Accepted>,
    ours: Tree,
) -> Result<Session<Initiating, Tree, F>, AllocError>
    requires { length (tree_items ours) ≤ (arc_value accepted.now).table.cap }
    ensures begins { IfOk result (λ c. Begins F.summary F.profile (arc_value accepted.now)
        (initiating F.summary (peer_of (arc_value accepted.now) (tree_items ours))) c) }
    ensures listens { IfOk result (λ c. c.over ≡ false) }
{
    match Session::initiate(alloc, Arc::try_clone(accepted)?, ours) {
        Ok(session) => Ok(session),
        Err(_store) => Err(AllocError),
    }
}

/// The side that is spoken to first.
fn second_side<F: WireSummary>(
    alloc: Global,
    accepted: &Arc<Accepted>,
    theirs: Tree,
) -> Result<Session<Responding, Tree, F>, AllocError>
    requires { length (tree_items theirs) ≤ (arc_value accepted.now).table.cap }
    ensures begins { IfOk result (λ c. Begins F.summary F.profile (arc_value accepted.now)
        (responding F.summary (peer_of (arc_value accepted.now) (tree_items theirs))) c) }
    ensures listens { IfOk result (λ c. c.over ≡ false) }
{
    match Session::respond(alloc, Arc::try_clone(accepted)?, theirs) {
        Ok(session) => Ok(session),
        Err(_store) => Err(AllocError),
    }
}

/// Two sides of this strategy that have heard each other, and have nothing due, have ended as the laws say.
fn sides_meet<F: WireSummary>(accepted: &Arc<Accepted>)
    ensures { SessionsMeet F.summary F.profile (arc_value accepted.now) (arc_value accepted.now) }
{
    session_core::two_sessions_meet::<F>(accepted, accepted);
}

/// The messages that both sides have said, which are no more than they may.
fn messages_of<F: WireSummary>(
    first: &Session<Initiating, Tree, F>,
    second: &Session<Responding, Tree, F>,
) -> u64
    ensures said { result ≡ first.now.talk.held.end.sent + second.now.talk.held.end.sent }
    ensures few { result ≤ (opened_of F.summary first.now.talk.held.steps first.now.talk.held.end.peer + 2)
        + (rank_by second.now.talk.held.steps (length second.now.talk.held.end.peer.items) + 1) }
{
    u64::from(first.sent()) + u64::from(second.sent())
}

/// What it costs to let the two sides speak until neither has anything to say.
fn spoken_cost<F: WireSummary>(
    alloc: Global,
    first: &mut Session<Initiating, Tree, F>,
    second: &mut Session<Responding, Tree, F>,
) -> Result<Cost, AllocError>
    requires first { first.old.over ≡ false }
    requires second { second.old.over ≡ false }
    ensures talks { IfOk result (λ cost. HaveSpoken F.summary F.profile first.old second.old first.new second.new
        cost.turns.items) }
    ensures done { OnOk result ((due F.profile first.new.talk ≡ []) × (due F.profile second.new.talk ≡ [])) }
    ensures said { IfOk result (λ cost. cost.messages
        ≡ first.new.talk.held.end.sent + second.new.talk.held.end.sent) }
    ensures few { IfOk result (λ cost. cost.messages
        ≤ (opened_of F.summary first.new.talk.held.steps first.new.talk.held.end.peer + 2)
        + (rank_by second.new.talk.held.steps (length second.new.talk.held.end.peer.items) + 1)) }
    ensures bytes { IfOk result (λ cost. cost.bytes ≡ sum cost.turns.items) }
{
    let turns = talk(alloc, first, second)?;
    let bytes = total(&turns)?;
    let messages = messages_of(first, second);
    Ok(Cost {
        turns,
        bytes,
        messages,
    })
}

/// What a session costs that this side begins with a responder of these items.
fn cost_with<F: WireSummary>(
    alloc: Global,
    accepted: &Arc<Accepted>,
    theirs: Tree,
    first: &mut Session<Initiating, Tree, F>,
) -> Result<Cost, AllocError>
    requires theirs { length (tree_items theirs) ≤ (arc_value accepted.now).table.cap }
    requires first { first.old.over ≡ false }
    ensures costs { IfOk result (λ cost. CostsFrom F.summary F.profile (arc_value accepted.now) (tree_items theirs)
        first.old cost.turns.items cost.messages) }
    ensures bytes { IfOk result (λ cost. cost.bytes ≡ sum cost.turns.items) }
{
    sides_meet::<F>(accepted);
    let mut second = second_side::<F>(alloc, accepted, theirs)?;
    spoken_cost(alloc, first, &mut second)
}

/// What a session of any profile costs.
fn cost_by<F: WireSummary>(
    alloc: Global,
    accepted: &Arc<Accepted>,
    theirs: Tree,
    ours: Tree,
) -> Result<Cost, AllocError>
    requires theirs { length (tree_items theirs) ≤ (arc_value accepted.now).table.cap }
    requires ours { length (tree_items ours) ≤ (arc_value accepted.now).table.cap }
    ensures costs { IfOk result (λ cost. Costs F.summary F.profile (arc_value accepted.now) (tree_items theirs)
        (tree_items ours) cost.turns.items cost.messages) }
    ensures bytes { IfOk result (λ cost. cost.bytes ≡ sum cost.turns.items) }
{
    let mut first = first_side::<F>(alloc, accepted, ours)?;
    cost_with(alloc, accepted, theirs, &mut first)
}

/// What a session costs between two sides of this strategy, from its beginning to its end: the responder's items, and
/// the initiator's.
pub fn cost_between(
    alloc: Global,
    accepted: &Arc<Accepted>,
    theirs: Tree,
    ours: Tree,
) -> Result<Cost, AllocError>
    requires theirs { length (tree_items theirs) ≤ (arc_value accepted.now).table.cap }
    requires ours { length (tree_items ours) ≤ (arc_value accepted.now).table.cap }
    ensures costs { IfOk result (λ cost. Costs two_lanes two_lane_profile (arc_value accepted.now) (tree_items theirs)
        (tree_items ours) cost.turns.items cost.messages) }
    ensures bytes { IfOk result (λ cost. cost.bytes ≡ sum cost.turns.items) }
{
    cost_by::<Fingerprint>(alloc, accepted, theirs, ours)
}

/// The same between copies of these sets.
pub(crate) fn cost_of_copies(
    alloc: Global,
    accepted: &Arc<Accepted>,
    theirs: &Tree,
    ours: &Tree,
) -> Result<Cost, AllocError>
    requires theirs { length (tree_items theirs.now) ≤ (arc_value accepted.now).table.cap }
    requires ours { length (tree_items ours.now) ≤ (arc_value accepted.now).table.cap }
    ensures costs { IfOk result (λ cost. Costs two_lanes two_lane_profile (arc_value accepted.now)
        (tree_items theirs.now) (tree_items ours.now) cost.turns.items cost.messages) }
    ensures bytes { IfOk result (λ cost. cost.bytes ≡ sum cost.turns.items) }
{
    let theirs = theirs.copy(alloc)?;
    let ours = ours.copy(alloc)?;
    cost_between(alloc, accepted, theirs, ours)
}

/// The tree of the items of a set.
fn tree_of(alloc: Global, items: &[Item]) -> Result<Tree, AllocError>
    requires { IsSet items.now }
    ensures { IfOk result (λ t. tree_items t ≡ items.now) }
{
    Tree::from_rising(alloc, items)
}

/// The two sets of a sample, as trees: the responder's, and then the initiator's.
pub fn trees_of(alloc: Global, sample: Sample) -> Result<(Tree, Tree), AllocError>
    requires { IsSample sample }
    ensures made { IfOk result (λ trees. AreMade sample (tree_items trees.0) (tree_items trees.1)) }
    ensures rise { IfOk result (λ trees. IsSet (tree_items trees.0) × IsSet (tree_items trees.1)) }
    ensures few { IfOk result (λ trees. (length (tree_items trees.0) ≤ sample.items)
        × (length (tree_items trees.1) ≤ sample.items)) }
{
    let (theirs, ours) = sets_of(alloc, sample)?;
    let theirs = tree_of(alloc, &theirs)?;
    let ours = tree_of(alloc, &ours)?;
    Ok((theirs, ours))
}

/// What a session under this strategy costs between the two sets of a sample.
pub fn cost_of(alloc: Global, accepted: &Arc<Accepted>, sample: Sample) -> Result<Cost, AllocError>
    requires sample { IsSample sample }
    requires fits { sample.items ≤ (arc_value accepted.now).table.cap }
    ensures costs { IfOk result (λ cost. CostsSample two_lanes two_lane_profile (arc_value accepted.now) sample
        cost.turns.items cost.messages) }
    ensures bytes { IfOk result (λ cost. cost.bytes ≡ sum cost.turns.items) }
{
    let (theirs, ours) = trees_of(alloc, sample)?;
    cost_between(alloc, accepted, theirs, ours)
}
