//! A gate that notes which session it was told of.

use crate::gate::Gate;
use item_core::Item;
use session_table::Outcome;
use shard_core::Floor;
use std::sync::OnceLock;
use version_log::LogFault;

/// The gate of one connection: it passes on to the gate that is shared whatever it is asked and told, and notes the
/// serial of the session that ended.
#[derive(Drop)]
pub(crate) struct Noting<'a, G> {
    gate: &'a G,
    // Where a session was opened and is over.
    serial: OnceLock<u64>,
}

impl<'a, G> Noting<'a, G> {
    /// No session has ended so far.
    pub(crate) fn new(gate: &'a G) -> Noting<'a, G> {
        Noting {
            gate,
            serial: OnceLock::new(),
        }
    }

    /// The serial of the first session that ended, if one did.
    pub(crate) fn serial(&self) -> Option<u64> {
        self.serial.get().copied()
    }
}

impl<G: Gate> Gate for Noting<'_, G> {
    ghost answers = { λ n. G.answers n.gate.now };

    ghost lets_in = { λ n. G.lets_in n.gate.now };

    ghost floors = { λ n. G.floors n.gate.now };

    fn pass(&self, serial: u64, sent: u32) -> bool {
        self.gate.pass(serial, sent)
    }

    fn ended(&self, serial: u64, outcome: &Outcome) {
        let _earlier = self.serial.try_set(serial);
        self.gate.ended(serial, outcome);
    }

    fn admits(&self, serial: u64, count: usize) -> usize {
        self.gate.admits(serial, count)
    }

    fn floor(&self) -> Floor {
        self.gate.floor()
    }

    fn is_below(&self, item: &Item) {
        self.gate.is_below(item);
    }

    fn took(&self, item: &Item) {
        self.gate.took(item);
    }

    fn dropped(&self, fault: LogFault, count: usize) {
        self.gate.dropped(fault, count);
    }

    fn settled(&self, serial: u64, left_out: usize) {
        self.gate.settled(serial, left_out);
    }
}
