//! What many sessions cost together.

use loading::millis_since;
use printing_core::{Stats, Tally};
use std::time::{Clock, Instant};

/// What was counted of sessions, since when.
#[derive(Clone, Copy)]
pub struct Costs {
    start: Option<Instant>,
    sent: Tally,
    received: Tally,
    sessions: u32,
    messages: u64,
}

/// Nothing.
const NONE: Tally = Tally {
    messages: 0,
    parts: 0,
    bytes: 0,
};

/// Both together.
fn both(one: Tally, other: Tally) -> Tally {
    Tally {
        messages: one.messages.saturating_add(other.messages),
        parts: one.parts.saturating_add(other.parts),
        bytes: one.bytes.saturating_add(other.bytes),
    }
}

impl Costs {
    /// Of no session, from now on.
    pub fn begin<R: Clock>(rt: &R) -> Costs {
        Costs {
            start: Instant::now(rt).ok(),
            sent: NONE,
            received: NONE,
            sessions: 0,
            messages: 0,
        }
    }

    /// Counts a session, of which so many own messages were written whole.
    pub fn add(&mut self, stats: Stats, sent: u32) {
        self.sent = both(self.sent, stats.sent);
        self.received = both(self.received, stats.received);
        self.sessions = self.sessions.saturating_add(1);
        self.messages = self.messages.saturating_add(u64::from(sent));
    }

    /// How many own messages were written whole.
    pub fn messages(&self) -> u64 {
        self.messages
    }

    /// What all sessions cost up to now, if there was one.
    pub fn stats<R: Clock>(&self, rt: &R) -> Option<Stats> {
        if self.sessions == 0 {
            return None;
        }
        Some(Stats {
            sent: self.sent,
            received: self.received,
            millis: millis_since(rt, self.start),
        })
    }
}
