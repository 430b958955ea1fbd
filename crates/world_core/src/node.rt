//! A node of a run.

ghost use Rattle.std.specs.Prelude.{◌≡◌, length, IfOk, OnOk, OnErr};
ghost use Rattle.std.specs.Arc.{arc_value};
ghost use Rattle.definitions.specs.Histories.{insertion, history_after};
ghost use Rattle.definitions.specs.Replies.{opening};
ghost use Rattle.definitions.specs.Worlds.{told};
ghost use Rattle.definitions.specs.Ends as ends;
ghost use Rattle.ends_core.specs.Turns.{fresh};
ghost use Rattle.strategy_check.specs.Checked.{Checked};
ghost use Rattle.world_core.specs.Nodes.{node_by, newest};
ghost use Rattle.world_core.specs.Steps.{did_of};

use crate::step::Did;
use digest_core::WireSummary;
use ends_core::{Initiator, Responder};
use item_core::Item;
use range_tree::Tree;
use std::alloc::{AllocError, Global};
use std::marker::Model;
use std::sync::Arc;
use store_core::RangeStore;
use strategy_check::Accepted;
use version_log::{Added, Log, LogFault};
use wire_core::Message;

/// A node of a setup or of a run: a table that was accepted, and a log that it has room for.
#[derive(Drop)]
pub(crate) struct Node {
    accepted: Arc<Accepted>,
    log: Log<Tree>,
}

impl Model for Node {
    ghost use Rattle.std.specs.Prelude.{◌≡◌};
    ghost use Rattle.std.specs.Arc.{arc_value};
    ghost use Rattle.definitions.specs.Worlds as worlds;
    ghost use Rattle.world_core.specs.Nodes.{node_by};

    ghost Value = { worlds.Node };

    ghost view = { λ a. node_by (arc_value a.accepted) a.log.history };

    ghost invariant = { λ a. a.log.cap ≡ (arc_value a.accepted).table.cap };
}

impl Node {
    /// The node of this table and this log.
    pub(crate) fn new(accepted: Arc<Accepted>, log: Log<Tree>) -> Node
        requires { log.cap ≡ (arc_value accepted).table.cap }
        ensures { result ≡ node_by (arc_value accepted) log.history }
    {
        Node { accepted, log }
    }

    /// The same node, with a copy of the log.
    pub(crate) fn copy(&self, alloc: Global) -> Result<Node, AllocError>
        ensures { IfOk result (λ n. n ≡ self.now) }
    {
        let log = self.log.copy(alloc)?;
        Ok(Node::new(Arc::try_clone(&self.accepted)?, log))
    }

    /// The newest version.
    pub(crate) fn version(&self) -> usize
        ensures { result ≡ length self.now.history }
    {
        self.log.version()
    }

    /// Puts an item in.
    pub(crate) fn insert(&mut self, alloc: Global, item: Item) -> Result<Did, AllocError>
        ensures node { OnOk result
            (self.new ≡ record self.old {
              history = history_after self.old.history 0 item
                  (insertion self.old.table.cap self.old.history item);
            }) }
        ensures did { IfOk result (λ did. did_of did ≡ told (insertion self.old.table.cap self.old.history item)) }
        ensures refused { OnErr result (self.new ≡ self.old) }
    {
        let _ = self.log.cap(); // proof only: the log is within its cap
        match self.log.add(alloc, 0, item) {
            Ok(Added::New(version)) => Ok(Did::Added(version)),
            Ok(Added::Already) => Ok(Did::Already),
            Err(LogFault::Full) => Ok(Did::Full),
            Err(LogFault::Memory) => Err(AllocError),
        }
    }

    /// An initiator with the newest version, and its first message.
    pub(crate) fn initiator<F: WireSummary>(
        &self,
        alloc: Global,
    ) -> Result<(Initiator<Tree, F>, Message<F>), AllocError>
        ensures end { IfOk result
            (λ r. r.0 ≡ fresh self.now.steps (ends.initiator F.summary (newest self.now))) }
        ensures message { IfOk result (λ r. r.1 ≡ opening F.summary (newest self.now)) }
    {
        let _ = self.log.cap(); // proof only: the log is within its cap
        let _ = self.log.count(); // proof only: the log has so many items as its store
        let store = self.log.store().copy(alloc)?;
        match Initiator::start(alloc, Arc::try_clone(&self.accepted)?, store) {
            Ok(started) => Ok(started),
            Err(_) => Err(AllocError),
        }
    }

    /// A responder with the newest version.
    pub(crate) fn responder<F: WireSummary>(
        &self,
        alloc: Global,
    ) -> Result<Responder<Tree, F>, AllocError>
        ensures { IfOk result (λ r. r ≡ fresh self.now.steps (ends.responder F.summary (newest self.now))) }
    {
        let _ = self.log.cap(); // proof only: the log is within its cap
        let _ = self.log.count(); // proof only: the log has so many items as its store
        let store = self.log.store().copy(alloc)?;
        Ok(Responder::new(alloc, Arc::try_clone(&self.accepted)?, store))
    }
}
