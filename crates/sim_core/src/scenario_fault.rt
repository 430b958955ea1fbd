//! Why a text is no scenario, or is not run.

ghost use Rattle.std.specs.Prelude.{◌≡◌};
ghost use Rattle.sim_core.specs.declared.scenario_fault.ScenarioError.TheVariants as errors;

use std::alloc::{AllocError, AllocFailed};
use strategy_check::CheckFault;
use strategy_core::StrategyFlaw;

/// Why a text is no scenario: the first test that fails. Nodes and steps are counted from 0, as steps name nodes.
#[derive(Clone, Copy, Debug, PartialEq, Eq)]
pub enum ScenarioFault {
    /// The bytes are no TOML text.
    NotToml,
    /// A node has no strategy.
    Strategy {
        /// The number of the node.
        node: usize,
        /// The first test that fails, and where.
        flaw: StrategyFlaw,
    },
    /// A node's strategy is not accepted.
    Check {
        /// The number of the node.
        node: usize,
        /// Why it is not.
        fault: CheckFault,
    },
    /// A node has more different items than its cap.
    TooManyItems {
        /// The number of the node.
        node: usize,
        /// Its cap.
        cap: u32,
    },
    /// `node` is no array of 2 to 16 tables, `steps` no array of at most 100,000 texts, or `items` no array of texts
    /// that are each 1 to 64 bytes in hex.
    BadScenario,
    /// A text spells no step.
    BadStep {
        /// The number of the first such step.
        step: usize,
    },
}

/// Why a scenario could not be read, or not be run.
#[derive(Clone, Copy, Debug, PartialEq, Eq)]
pub enum ScenarioError {
    /// The text is no scenario.
    Fault(ScenarioFault),
    /// Memory ran out.
    Memory,
}

impl From<ScenarioFault> for ScenarioError {
    ghost from_gives = { λ f e. e ≡ errors.Fault f };

    fn from(fault: ScenarioFault) -> ScenarioError {
        ScenarioError::Fault(fault)
    }
}

impl From<AllocError> for ScenarioError {
    ghost from_gives = { λ _ e. e ≡ errors.Memory };

    fn from(_refused: AllocError) -> ScenarioError {
        ScenarioError::Memory
    }
}

impl<T: Drop> From<AllocFailed<T>> for ScenarioError {
    ghost from_gives = { λ _ e. e ≡ errors.Memory };

    fn from(_refused: AllocFailed<T>) -> ScenarioError {
        ScenarioError::Memory
    }
}
