//! What a TOML text says of a scenario, test by test.

ghost use Rattle.std.specs.Prelude.{◌≡◌};
ghost use Rattle.std.specs.List.{list_all};
ghost use Rattle.toml.specs.View.{table_view, view, array_view};
ghost use Rattle.sim_core.specs.Scenarios.{Gives, GivesField, Reads, each_from, array_at, is_table, is_text, are_nodes};
ghost use Rattle.sim_core.specs.Scenarios.{are_steps, nodes_at, steps_at, accepted_in, item_in, items_in};
ghost use Rattle.sim_core.specs.Scenarios.{node_at, node_in, step_in, scenario_in};
ghost use Rattle.sim_core.specs.ScenarioOpens.{Opens};

use crate::scenario::{Scenario, ScenarioNode, ScenarioStep};
use crate::scenario_fault::{ScenarioError, ScenarioFault};
use crate::step_text::step_of;
use item_core::Item;
use item_files::{SettingsFault, item_of};
use std::alloc::Global;
use store_core::spans::distinct;
use strategy_check::Accepted;
use strategy_core::member;
use toml::value::{Array, Table, Value};

/// The most nodes of a scenario.
const MAX_NODES: usize = 16;

/// The most steps of a scenario.
const MAX_STEPS: usize = 100_000;

/// The table that a text is.
fn document(alloc: Global, text: &[u8]) -> Result<Table, ScenarioError>
    ensures { Opens result text.now }
{
    match item_files::document(alloc, text) {
        Ok(table) => Ok(table),
        Err(SettingsFault::NotToml) => Err(ScenarioError::Fault(ScenarioFault::NotToml)),
        Err(_) => Err(ScenarioError::Memory),
    }
}

/// The array under a key.
fn array_at<'a>(table: &'a Table, key: &str) -> Result<&'a Array, ScenarioFault>
    ensures { GivesField (λ array. array_view array.now) result (array_at key.now (table_view table.now)) }
{
    match member(table, key) {
        Some(value) => value.as_array().ok_or(ScenarioFault::BadScenario),
        None => Err(ScenarioFault::BadScenario),
    }
}

/// Whether a value is a table.
fn is_table(value: &Value) -> bool
    ensures { result ≡ is_table (view value.now) }
{
    value.as_table().is_some()
}

/// Whether a value is a text.
fn is_text(value: &Value) -> bool
    ensures { result ≡ is_text (view value.now) }
{
    value.as_str().is_some()
}

/// Whether all values are tables.
fn are_tables(array: &Array) -> bool
    ensures { result ≡ list_all (λ v. is_table (view v)) array.now.items }
{
    array.iter().all(|value| is_table(value))
}

/// Whether all values are texts.
fn are_texts(array: &Array) -> bool
    ensures { result ≡ list_all (λ v. is_text (view v)) array.now.items }
{
    array.iter().all(|value| is_text(value))
}

/// Whether these are 2 to 16 tables.
fn are_nodes(array: &Array) -> bool
    ensures { result ≡ are_nodes (array_view array.now) }
{
    2 <= array.len() && array.len() <= MAX_NODES && are_tables(array)
}

/// Whether these are at most 100,000 texts.
fn are_steps(array: &Array) -> bool
    ensures { result ≡ are_steps (array_view array.now) }
{
    array.len() <= MAX_STEPS && are_texts(array)
}

/// The nodes: 2 to 16 tables.
fn nodes_at(table: &Table) -> Result<&Array, ScenarioFault>
    ensures { GivesField (λ array. array_view array.now) result (nodes_at (table_view table.now)) }
{
    let array = array_at(table, "node")?;
    if !are_nodes(array) {
        return Err(ScenarioFault::BadScenario);
    }
    Ok(array)
}

/// The steps: at most 100,000 texts.
fn steps_at(table: &Table) -> Result<&Array, ScenarioFault>
    ensures { GivesField (λ array. array_view array.now) result (steps_at (table_view table.now)) }
{
    let array = array_at(table, "steps")?;
    if !are_steps(array) {
        return Err(ScenarioFault::BadScenario);
    }
    Ok(array)
}

/// The strategy of the node of this number, with the ranks that its check finds.
fn accepted_in(alloc: Global, node: usize, entry: &Table) -> Result<Accepted, ScenarioError>
    ensures { Gives (λ a. a) result (accepted_in node (table_view entry.now)) }
{
    match item_files::accepted_in(alloc, entry) {
        Ok(accepted) => Ok(accepted),
        Err(SettingsFault::Strategy(flaw)) => {
            Err(ScenarioError::Fault(ScenarioFault::Strategy { node, flaw }))
        }
        Err(SettingsFault::Check(fault)) => {
            Err(ScenarioError::Fault(ScenarioFault::Check { node, fault }))
        }
        Err(_) => Err(ScenarioError::Memory),
    }
}

/// The item that a value spells in hex.
fn item_in(value: &Value) -> Result<Item, ScenarioFault>
    ensures { result ≡ item_in (view value.now) }
{
    let Some(digits) = value.as_str() else {
        return Err(ScenarioFault::BadScenario);
    };
    item_of(digits.as_bytes()).ok_or(ScenarioFault::BadScenario)
}

/// The items of an array, in its order.
fn listed(alloc: Global, array: &Array) -> Result<Vec<Item>, ScenarioError>
    ensures { Gives (λ items. items.items) result (each_from (λ _ d. item_in d) 0 (array_view array.now)) }
{
    let mut items = Vec::new(alloc);
    for value in array {
        items.push(item_in(value)?)?;
    }
    Ok(items)
}

/// The items of the node of this number, in rising order: not more than the cap.
fn items_in(alloc: Global, node: usize, entry: &Table, cap: u32) -> Result<Vec<Item>, ScenarioError>
    ensures { Gives (λ items. items.items) result (items_in node cap (table_view entry.now)) }
{
    let items = distinct(listed(alloc, array_at(entry, "items")?)?);
    if items.len() > cap as usize {
        return Err(ScenarioError::Fault(ScenarioFault::TooManyItems { node, cap }));
    }
    Ok(items)
}

/// The node of this number that a table is: its strategy, its check, and then its items.
fn node_at(alloc: Global, node: usize, entry: &Table) -> Result<ScenarioNode, ScenarioError>
    ensures { Gives (λ node. node) result (node_at node (table_view entry.now)) }
{
    let accepted = accepted_in(alloc, node, entry)?;
    let items = items_in(alloc, node, entry, accepted.cap())?;
    Ok(ScenarioNode { accepted, items })
}

/// The node of this number that a value is.
fn node_in(alloc: Global, node: usize, value: &Value) -> Result<ScenarioNode, ScenarioError>
    ensures { Gives (λ node. node) result (node_in node (view value.now)) }
{
    match value.as_table() {
        Some(entry) => node_at(alloc, node, entry),
        None => Err(ScenarioError::Fault(ScenarioFault::BadScenario)),
    }
}

/// The nodes of an array.
fn nodes_in(alloc: Global, array: &Array) -> Result<Vec<ScenarioNode>, ScenarioError>
    ensures { Gives (λ nodes. nodes.items) result (each_from node_in 0 (array_view array.now)) }
{
    let mut nodes = Vec::new(alloc);
    for value in array {
        let node = node_in(alloc, nodes.len(), value)?;
        nodes.push(node)?;
    }
    Ok(nodes)
}

/// The step of this number.
fn step_in(number: usize, value: &Value) -> Result<ScenarioStep, ScenarioFault>
    ensures { result ≡ step_in number (view value.now) }
{
    let Some(text) = value.as_str() else {
        return Err(ScenarioFault::BadScenario);
    };
    // By name, and so in `steps_in`: docs/PROVING.md, on an enum in an enum of another crate.
    match step_of(text) {
        Some(ScenarioStep::Do(step)) => Ok(ScenarioStep::Do(step)),
        Some(finish) => Ok(finish),
        None => Err(ScenarioFault::BadStep { step: number }),
    }
}

/// The steps of an array.
fn steps_in(alloc: Global, array: &Array) -> Result<Vec<ScenarioStep>, ScenarioError>
    ensures { Gives (λ steps. steps.items) result (each_from step_in 0 (array_view array.now)) }
{
    let mut steps = Vec::new(alloc);
    for value in array {
        match step_in(steps.len(), value)? {
            ScenarioStep::Do(step) => steps.push(ScenarioStep::Do(step))?,
            ScenarioStep::Finish(session) => steps.push(ScenarioStep::Finish(session))?,
        }
    }
    Ok(steps)
}

/// The scenario of a table, or the first fault.
fn scenario_in(alloc: Global, table: &Table) -> Result<Scenario, ScenarioError>
    ensures { Gives (λ scenario. scenario) result (scenario_in (table_view table.now)) }
{
    let entries = nodes_at(table)?;
    let texts = steps_at(table)?;
    let nodes = nodes_in(alloc, entries)?;
    let steps = steps_in(alloc, texts)?;
    Ok(Scenario { nodes, steps })
}

/// The scenario of a TOML text.
///
/// Else 30 where the bytes are no TOML; then 83 where `node` is no array of 2 to 16 tables or `steps` no array of at
/// most 100,000 texts; then node by node the fault of its strategy, 31 to 35 or 29, of its check, 37, 36 or 38, or of
/// its items, 83 or 82; then 84 at the first text that spells no step. Memory may run out before any of these.
pub fn scenario_of(alloc: Global, text: &[u8]) -> Result<Scenario, ScenarioError>
    ensures { Reads result text.now }
{
    let table = document(alloc, text)?;
    scenario_in(alloc, &table)
}
