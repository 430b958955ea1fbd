//! The nodes that a run begins with.

ghost use Rattle.std.specs.Prelude.{◌≡◌, ◌<◌, ◌≤◌, [], ◌∷◌, ◌++◌, length, IfOk, IfErr, OnOk, OnErr};
ghost use Rattle.definitions.specs.Sets.{set_of};
ghost use Rattle.definitions.specs.Histories.{opening_history};
ghost use Rattle.definitions.specs.Theorems.{IsNode};
ghost use Rattle.std.specs.List.{AllByRecursion};
ghost use Rattle.version_log.specs.Logs.{opened};
ghost use Rattle.world_core.specs.Nodes.{node_by};
ghost use Rattle.world_core.specs.SetupFaults.{setup_fault_number, of_log};

use crate::node::Node;
use item_core::Item;
use range_tree::Tree;
use std::alloc::Global;
use std::marker::Model;
use std::sync::Arc;
use strategy_check::Accepted;
use version_log::{Log, LogFault};

/// Why there is no new node.
#[derive(Clone, Copy, Debug, PartialEq, Eq)]
pub enum SetupFault {
    /// There are more items than the table's cap.
    Full,
    /// Memory ran out.
    Memory,
}

impl SetupFault {
    /// The number of the refusal: 40 or 90.
    pub fn number(self) -> u8
        ensures { result ≡ setup_fault_number self }
    {
        match self {
            SetupFault::Full => 40,
            SetupFault::Memory => 90,
        }
    }
}

impl From<LogFault> for SetupFault {
    ghost from_gives = { λ f e. e ≡ of_log f };

    fn from(fault: LogFault) -> SetupFault {
        match fault {
            LogFault::Full => SetupFault::Full,
            LogFault::Memory => SetupFault::Memory,
        }
    }
}

/// The log of these items, by a table's cap.
fn log_of(alloc: Global, accepted: &Accepted, items: &[Item]) -> Result<Log<Tree>, SetupFault>
    ensures log { IfOk result (λ p. p ≡ opened accepted.now.table.cap items.now 1) }
    ensures node { IfOk result (λ p. IsNode (node_by accepted.now p.history)) }
    ensures fits { IfOk result (λ _. length (set_of items.now) ≤ accepted.now.table.cap) }
    ensures full { IfErr result (λ e. e ≡ SetupFault.Full → accepted.now.table.cap < length (set_of items.now)) }
{
    let log: Log<Tree> = Log::new(alloc, accepted.cap(), items)?;
    let _ = log.count(); // proof only: the log has so many items as its store
    let _ = log.cap(); // proof only: the log is within its cap
    Ok(log)
}

/// The nodes that a run begins with: tables that were accepted, and items.
#[derive(Drop)]
pub struct Setup {
    nodes: Vec<Node>,
}

impl Model for Setup {
    ghost use Rattle.std.specs.Prelude.{List};
    ghost use Rattle.std.specs.List.{AllByRecursion};
    ghost use Rattle.definitions.specs.Worlds.{Node};
    ghost use Rattle.definitions.specs.Theorems.{IsNode};

    ghost Value = { List Node };

    ghost view = { λ a. a.nodes.items };

    ghost invariant = { λ a. AllByRecursion IsNode a.nodes.items };
}

impl Setup {
    /// No node.
    pub fn new(alloc: Global) -> Setup
        ensures { result ≡ [] }
    {
        Setup {
            nodes: Vec::new(alloc),
        }
    }

    /// Adds a node with these items, each once, where it stands first.
    ///
    /// Refused 40 where there are more items than the table's cap, or 90: the table is given back, and nothing is
    /// changed.
    pub fn add_node(
        &mut self,
        alloc: Global,
        accepted: Accepted,
        items: &[Item],
    ) -> Result<(), (Accepted, SetupFault)>
        ensures node { OnOk result (self.new ≡ self.old ++ node_by accepted (opening_history items.now) ∷ []) }
        ensures fits { OnOk result (length (set_of items.now) ≤ accepted.table.cap) }
        ensures back { IfErr result (λ e. e.0 ≡ accepted) }
        ensures full { IfErr result (λ e. e.1 ≡ SetupFault.Full → accepted.table.cap < length (set_of items.now)) }
        ensures refused { OnErr result (self.new ≡ self.old) }
    {
        if self.nodes.reserve(1).is_err() {
            return Err((accepted, SetupFault::Memory));
        }
        let log = match log_of(alloc, &accepted, items) {
            Ok(log) => log,
            Err(fault) => return Err((accepted, fault)),
        };
        match Arc::new(alloc, accepted) {
            Ok(accepted) => {
                self.nodes.push_reserved(Node::new(accepted, log));
                Ok(())
            }
            Err(refused) => Err((refused.value, SetupFault::Memory)),
        }
    }

    /// The nodes.
    pub(crate) fn nodes(&self) -> &[Node]
        ensures nodes { result.now ≡ self.now }
        ensures are { AllByRecursion IsNode self.now }
    {
        &self.nodes
    }
}
