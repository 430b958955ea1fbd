//! Who is told of sessions over parts of a set.

use item_core::Range;
use peer_threads::{Gate, OpenGate, Outcome};
use shard_core::Which;

/// A gate that is told of which part a session was. If the outcome of a session over a set or a shard is `Ended`, a
/// loop calls `ended_in`, `admits`, then `took` and `dropped`, and last `settled`. Of the directory nothing is put in:
/// after a session over it the loop calls `ended_in` alone.
pub trait PartGate: Gate {
    /// The session with this serial has ended so, over the items of this range in this part of a set of shards, or in a
    /// whole set. It is no longer in the table of sessions.
    fn ended_in(&self, serial: u64, part: Option<Which>, range: &Range, outcome: &Outcome);

    /// The same of a session with the partner of this address.
    fn ended_with(&self, address: &str, serial: u64, part: Option<Which>, outcome: &Outcome);

    /// So many items are forgotten: no part has them any more.
    fn forgot(&self, _count: usize) {}

    /// The partner of this address stands so from now on.
    fn is_told(&self, _address: &str, _told: Told) {}
}

/// What is told of a partner.
#[derive(Clone, Copy, Debug, PartialEq, Eq)]
pub enum Told {
    /// It is not reached, or its session was cut off. It is called again.
    Away,
    /// A session with it has ended, after it was told otherwise.
    Back,
    /// This side refuses what it says, with this number.
    Refuses(u8),
    /// It refuses the session, with this number.
    IsRefused(u8),
}

impl PartGate for OpenGate {
    fn ended_in(&self, _serial: u64, _part: Option<Which>, _range: &Range, _outcome: &Outcome) {}

    fn ended_with(&self, _address: &str, _serial: u64, _part: Option<Which>, _outcome: &Outcome) {}
}
