//! Scenarios: their texts, their runs, and what is shown of the sessions.
#![tactic(auto)]

mod candidate;
mod changing;
mod costing;
mod line;
mod parsing;
mod planning;
mod reports;
mod sample;
mod scenario;
mod scenario_fault;
mod scenario_text;
mod searching;
mod sim;
mod step_text;
mod tables;

pub use costing::{Cost, cost_between, cost_of, trees_of};
pub use line::{Line, session_micros};
pub use planning::{Planned, Task, planned_for, quickest};
pub use sample::{Sample, sets_of};
pub use scenario::{Scenario, ScenarioNode, ScenarioStep};
pub use scenario_fault::{ScenarioError, ScenarioFault};
pub use scenario_text::scenario_of;
pub use searching::searched;
pub use sim::sim_text;
pub use step_text::step_of;
pub use tables::{SHIPPED_NAMES, shipped_text};
