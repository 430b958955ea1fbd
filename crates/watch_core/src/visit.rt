//! A peer that came and is gone.

ghost use Rattle.std.specs.Prelude.{◌≡◌};
ghost use Rattle.watch_core.specs.Counting.{no_traffic, traffic_sum};

use crate::endings::Ending;
use crate::profile::SpokenProfile;
use item_core::Range;
use shard_core::Which;
use std::net::SocketAddr;

/// What visits cost, and what they found. Each number stops at 2^64 - 1.
#[derive(Clone, Copy, Debug, PartialEq, Eq)]
pub struct Traffic {
    /// How many bytes were received.
    pub received: u64,
    /// How many bytes were sent.
    pub sent: u64,
    /// How many messages were sent whole.
    pub messages: u64,
    /// How many own items the peers lacked.
    pub ours: u64,
    /// How many items of the peers were lacked here.
    pub theirs: u64,
}

impl Traffic {
    /// Nothing.
    pub fn none() -> Traffic
        ensures { result ≡ no_traffic }
    {
        Traffic {
            received: 0,
            sent: 0,
            messages: 0,
            ours: 0,
            theirs: 0,
        }
    }

    /// Both together.
    pub fn plus(self, other: Traffic) -> Traffic
        ensures { result ≡ traffic_sum self other }
    {
        Traffic {
            received: self.received.saturating_add(other.received),
            sent: self.sent.saturating_add(other.sent),
            messages: self.messages.saturating_add(other.messages),
            ours: self.ours.saturating_add(other.ours),
            theirs: self.theirs.saturating_add(other.theirs),
        }
    }
}

/// The visit of a peer, from its connection to its end.
#[derive(Clone, Copy, Debug, PartialEq, Eq)]
pub struct Visit {
    /// The address of the peer, if it is known.
    pub address: Option<SocketAddr>,
    /// Whether this side has called it: it is a partner.
    pub is_called: bool,
    /// The wire profile that it spoke, if its session was opened.
    pub profile: Option<SpokenProfile>,
    /// The serial of its session, if that was counted.
    pub serial: Option<u64>,
    /// The shard, or the directory, that its session spoke of; `None`: it spoke of a whole set, or was not opened.
    pub which: Option<Which>,
    /// The range of items that its session spoke of: that of all items if it named none, or was not opened.
    pub range: Range,
    /// How it ended.
    pub ending: Ending,
    /// What it cost, and what it found.
    pub traffic: Traffic,
    /// How many milliseconds it took.
    pub millis: u64,
    /// When it ended, in milliseconds of a clock of which no more is said.
    pub ended: u64,
}
