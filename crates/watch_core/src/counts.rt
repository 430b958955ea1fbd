//! All that is counted of visits.

ghost use Rattle.std.specs.Prelude.{◌≡◌};
ghost use Rattle.watch_core.specs.Counting.{Counted, CountedBy, no_counts, visits_of, with_ranged};

use crate::durations::Durations;
use crate::endings::EndingCounts;
use crate::named::has_bound;
use crate::visit::{Traffic, Visit};
use item_core::Range;

/// All that is counted of visits.
#[derive(Drop)]
pub struct Counts {
    /// How the sessions ended.
    pub sessions: EndingCounts,
    /// How the visits ended that were over before a session was counted.
    pub strangers: EndingCounts,
    /// How many sessions were over a range that has a bound. It stops at 2^64 - 1.
    pub ranged: u64,
    /// How long the sessions took.
    pub durations: Durations,
    /// What all visits cost, and what they found.
    pub traffic: Traffic,
}

impl Counts {
    /// No visit so far.
    pub fn none() -> Counts
        ensures { result ≡ no_counts }
    {
        Counts {
            sessions: EndingCounts::none(),
            strangers: EndingCounts::none(),
            ranged: 0,
            durations: Durations::none(),
            traffic: Traffic::none(),
        }
    }

    /// Counts a session over this range, if that has a bound.
    fn count_range(&mut self, range: &Range)
        ensures { self.new ≡ with_ranged range.now self.old }
    {
        if has_bound(range) {
            self.ranged = self.ranged.saturating_add(1);
        }
    }

    /// Counts how a visit ended: as a session, if it had one.
    fn count_ending(&mut self, visit: &Visit)
        ensures counted { CountedBy visit.now.serial visit.now self.old self.new }
        ensures traffic { self.new.traffic ≡ self.old.traffic }
    {
        let Some(_serial) = visit.serial else {
            self.strangers.count(visit.ending);
            return;
        };
        self.sessions.count(visit.ending);
        self.durations.add(visit.millis);
        self.count_range(&visit.range);
    }

    /// Counts a visit: once under its ending, and among the sessions alone if it had one.
    pub fn count(&mut self, visit: &Visit)
        ensures { Counted visit.now self.old self.new }
    {
        self.count_ending(visit);
        self.traffic = self.traffic.plus(visit.traffic);
    }

    /// How many visits there were. It stops at 2^64 - 1.
    pub fn visits(&self) -> u64
        ensures { result ≡ visits_of self.now }
    {
        self.sessions.all.saturating_add(self.strangers.all)
    }
}
