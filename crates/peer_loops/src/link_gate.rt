//! The gate of one session with a partner.

use crate::part_gate::PartGate;
use item_core::Item;
use peer_threads::{Gate, Outcome};
use shard_core::{Floor, Which};
use std::sync::OnceLock;
use version_log::LogFault;

/// The gate of one session with a partner: it passes on to the gate that is shared whatever it is asked and told, with
/// whom the session was and of which part, and notes its serial.
#[derive(Drop)]
pub(crate) struct LinkGate<'a, G> {
    gate: &'a G,
    address: &'a str,
    part: Option<Which>,
    // Where a session was opened and is over.
    serial: OnceLock<u64>,
}

impl<'a, G> LinkGate<'a, G> {
    /// The session is with the partner of this address, over this part of a set of shards, or over a whole set. It has
    /// not ended so far.
    pub(crate) fn new(gate: &'a G, address: &'a str, part: Option<Which>) -> LinkGate<'a, G> {
        LinkGate {
            gate,
            address,
            part,
            serial: OnceLock::new(),
        }
    }

    /// The serial of the session, if it was counted and is over.
    pub(crate) fn serial(&self) -> Option<u64> {
        self.serial.get().copied()
    }
}

impl<G: PartGate> Gate for LinkGate<'_, G> {
    ghost answers = { λ n. G.answers n.gate.now };

    ghost lets_in = { λ n. G.lets_in n.gate.now };

    ghost floors = { λ n. G.floors n.gate.now };

    fn pass(&self, serial: u64, sent: u32) -> bool {
        self.gate.pass(serial, sent)
    }

    fn ended(&self, serial: u64, outcome: &Outcome) {
        let _earlier = self.serial.try_set(serial);
        self.gate
            .ended_with(self.address, serial, self.part, outcome);
    }

    fn admits(&self, serial: u64, count: usize) -> usize {
        self.gate.admits(serial, count)
    }

    fn floor(&self) -> Floor {
        self.gate.floor()
    }

    fn is_below(&self, item: &Item) {
        self.gate.is_below(item);
    }

    fn took(&self, item: &Item) {
        self.gate.took(item);
    }

    fn dropped(&self, fault: LogFault, count: usize) {
        self.gate.dropped(fault, count);
    }

    fn settled(&self, serial: u64, left_out: usize) {
        self.gate.settled(serial, left_out);
    }
}
