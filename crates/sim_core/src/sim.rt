//! The run of a scenario.

ghost use Rattle.std.specs.Prelude.{◌≡◌, [], ◌∷◌, ◌++◌, IfOk, IfErr, OnOk, map, string_bytes};
ghost use Rattle.std.specs.List.{AllByRecursion};
ghost use Rattle.definitions.specs.Fingerprints.{two_lanes};
ghost use Rattle.definitions.specs.Worlds.{Deliver, step};
ghost use Rattle.sim_core.specs.NodeTexts.{FitsItsCap};
ghost use Rattle.sim_core.specs.Runs.{node_of, is_sent, delivered, after_step, after_steps, HasEnded, EndsFinished};
ghost use Rattle.sim_core.specs.Runs.{FinishesEnd, start_of, sim_text};

use crate::reports::reports_text;
use crate::scenario::{Scenario, ScenarioNode, ScenarioStep};
use crate::scenario_fault::{ScenarioError, ScenarioFault};
use std::alloc::{AllocError, Global};
use world_core::{Did, Setup, SetupFault, Step, World};

/// The most messages of a session: 3 + 2 * 255, as no rank is above 255.
const MAX_MESSAGES: usize = 513;

/// Adds the node of this number.
fn add_node(
    alloc: Global,
    setup: &mut Setup,
    number: usize,
    node: ScenarioNode,
) -> Result<(), ScenarioError>
    ensures node { OnOk result (setup.new ≡ setup.old ++ node_of node ∷ []) }
    ensures fits { IfErr result (λ e. FitsItsCap node → e ≡ ScenarioError.Memory) }
{
    let ScenarioNode { accepted, items } = node;
    let Err(refused) = setup.add_node(alloc, accepted, &items) else {
        return Ok(());
    };
    let (accepted, fault) = refused;
    match fault {
        SetupFault::Full => Err(ScenarioError::Fault(ScenarioFault::TooManyItems {
            node: number,
            cap: accepted.cap(),
        })),
        SetupFault::Memory => Err(ScenarioError::Memory),
    }
}

/// The nodes that the run begins with.
fn setup_of(alloc: Global, nodes: Vec<ScenarioNode>) -> Result<Setup, ScenarioError>
    ensures nodes { IfOk result (λ setup. setup ≡ map node_of nodes.items) }
    ensures fits { IfErr result (λ e. AllByRecursion FitsItsCap nodes.items → e ≡ ScenarioError.Memory) }
{
    let mut setup = Setup::new(alloc);
    let mut number = 0usize;
    for node in nodes {
        add_node(alloc, &mut setup, number, node)?;
        number = number.saturating_add(1);
    }
    Ok(setup)
}

/// Hands the last message of a session over. Whether it was answered.
fn deliver(alloc: Global, world: &mut World, session: usize) -> Result<bool, AllocError>
    ensures world { OnOk result (world.new ≡ (step two_lanes world.old (Deliver session)).0) }
    ensures sent { IfOk result (λ sent. sent ≡ is_sent (step two_lanes world.old (Deliver session)).1) }
{
    match world.step(alloc, Step::Deliver(session))? {
        Did::Sent => Ok(true),
        _ => Ok(false),
    }
}

/// Hands the last message of a session over again and again, until none follows, at most so many times.
fn deliver_often(
    alloc: Global,
    world: &mut World,
    session: usize,
    times: usize,
) -> Result<(), AllocError>
    ensures { OnOk result (world.new ≡ delivered times world.old session) }
{
    let mut left = times;
    while left > 0 {
        left -= 1;
        if !deliver(alloc, world, session)? {
            return Ok(());
        }
    }
    Ok(())
}

/// Hands the last message of a session over again and again, until the session has ended.
fn finish(alloc: Global, world: &mut World, session: usize) -> Result<(), AllocError>
    ensures world { OnOk result (world.new ≡ delivered MAX_MESSAGES world.old session) }
    ensures ended { OnOk result (HasEnded session world.new) }
{
    let _ = world.sessions(); // proof only: so many deliveries end the session
    deliver_often(alloc, world, session, MAX_MESSAGES)
}

/// Does a step of a scenario. After a `finish` the session has ended.
fn do_step(alloc: Global, world: &mut World, step: &ScenarioStep) -> Result<(), AllocError>
    ensures world { OnOk result (world.new ≡ after_step world.old step.now) }
    ensures ended { OnOk result (EndsFinished step.now world.new) }
{
    let step = match step {
        ScenarioStep::Do(step) => *step,
        ScenarioStep::Finish(session) => return finish(alloc, world, *session),
    };
    world.step(alloc, step)?;
    Ok(())
}

/// Does the steps of a scenario in turn.
fn do_steps(alloc: Global, world: &mut World, steps: &[ScenarioStep]) -> Result<(), AllocError>
    ensures world { OnOk result (world.new ≡ after_steps world.old steps.now) }
    ensures ended { OnOk result (FinishesEnd world.old steps.now) }
{
    for step in steps {
        do_step(alloc, world, step)?;
    }
    Ok(())
}

/// The lines of the sessions of a scenario that was run. After each `finish` of it the session has ended.
pub fn sim_text(alloc: Global, scenario: Scenario) -> Result<String, ScenarioError>
    ensures text { IfOk result (λ text. string_bytes text ≡ sim_text scenario) }
    ensures ended { OnOk result (FinishesEnd (start_of scenario) scenario.steps) }
    // Where no node has more items than its cap, which `scenario_of` sees to, it fails for memory alone.
    ensures fits { IfErr result (λ e. AllByRecursion FitsItsCap scenario.nodes → e ≡ ScenarioError.Memory) }
{
    let Scenario { nodes, steps } = scenario;
    let setup = setup_of(alloc, nodes)?;
    let mut world: World = World::new(alloc, &setup)?;
    do_steps(alloc, &mut world, &steps)?;
    Ok(reports_text(alloc, &world)?)
}
