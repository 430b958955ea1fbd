//! Scenarios: nodes with their items, and steps.

use item_core::Item;
use std::marker::Model;
use strategy_check::Accepted;
use world_core::Step;

/// A step of a scenario. Sessions go by their number, from 0.
#[derive(Clone, Copy, Debug, PartialEq, Eq)]
pub enum ScenarioStep {
    /// A step of a run.
    Do(Step),
    /// The session's last message is handed over again and again, until none follows.
    Finish(usize),
}

/// A node of a scenario.
#[derive(Drop)]
pub struct ScenarioNode {
    /// The strategy, which was accepted.
    pub accepted: Accepted,
    /// The items, in rising order: at most the strategy's cap.
    pub items: Vec<Item>,
}

impl Model for ScenarioNode {
    ghost use Rattle.sim_core.specs.NodeTexts.{NodeText};

    ghost Value = { NodeText };

    ghost view = { λ a. record { accepted = a.accepted; items = a.items.items } };
}

/// What a scenario says.
#[derive(Drop)]
pub struct Scenario {
    /// The nodes: 2 to 16.
    pub nodes: Vec<ScenarioNode>,
    /// The steps, at most 100,000.
    pub steps: Vec<ScenarioStep>,
}

impl Model for Scenario {
    ghost use Rattle.sim_core.specs.NodeTexts.{ScenarioText};

    ghost Value = { ScenarioText };

    ghost view = { λ a. record { nodes = a.nodes.items; steps = a.steps.items } };
}
