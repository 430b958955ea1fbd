//! What is known of the visits so far.

ghost use Rattle.std.specs.Prelude.{◌≡◌, ◌-◌, ◌++◌, ◌∷◌, [], IfOk, reverse};
ghost use Rattle.circular_buffer.specs.Buffer.{keep_last};
ghost use Rattle.watch_core.specs.Counting.{Counted, no_counts, visits_of};
ghost use Rattle.watch_core.specs.Watching.{sessions_after};

use crate::counts::Counts;
use crate::visit::Visit;
use circular_buffer::HeapCircularBuffer;
use std::alloc::{AllocError, Global};

/// How many visits are kept.
pub const MOST_VISITS: usize = 1_024;

/// How many sessions are kept.
pub const MOST_SESSIONS: usize = 100;

/// What is known of the visits so far: the counts of all, the last ones, and the last ones that had a session.
#[derive(Drop)]
pub struct Watch {
    /// What is counted of all.
    pub counts: Counts,
    /// The last visits, oldest first.
    pub visits: HeapCircularBuffer<Visit>,
    /// The last visits that had a session, oldest first.
    pub sessions: HeapCircularBuffer<Visit>,
}

/// Keeps a visit that had a session, in place of the oldest one where as many are kept as may be.
fn keep_session(sessions: &mut HeapCircularBuffer<Visit>, visit: Visit)
    ensures items { sessions.new.items ≡ sessions_after visit.serial sessions.old.capacity sessions.old.items visit }
    ensures capacity { sessions.new.capacity ≡ sessions.old.capacity }
{
    let Some(_serial) = visit.serial else {
        return;
    };
    let _oldest = sessions.push_back(visit);
}

impl Watch {
    /// No visit so far. Only this call takes memory.
    pub fn new(alloc: Global) -> Result<Watch, AllocError>
        ensures counts { IfOk result (λ w. w.counts ≡ no_counts) }
        ensures visits { IfOk result (λ w. (w.visits.items ≡ []) × (w.visits.capacity ≡ 1_024)) }
        ensures sessions { IfOk result (λ w. (w.sessions.items ≡ []) × (w.sessions.capacity ≡ 100)) }
    {
        Ok(Watch {
            counts: Counts::none(),
            visits: HeapCircularBuffer::with_capacity(alloc, MOST_VISITS)?,
            sessions: HeapCircularBuffer::with_capacity(alloc, MOST_SESSIONS)?,
        })
    }

    /// Counts a visit, and keeps it in place of the oldest one where as many are kept as may be.
    pub fn note(&mut self, visit: Visit)
        ensures counts { Counted visit self.old.counts self.new.counts }
        ensures visits { self.new.visits.items
            ≡ keep_last self.old.visits.capacity (self.old.visits.items ++ visit ∷ []) }
        ensures sessions { self.new.sessions.items
            ≡ sessions_after visit.serial self.old.sessions.capacity self.old.sessions.items visit }
        ensures capacities { (self.new.visits.capacity ≡ self.old.visits.capacity)
            × (self.new.sessions.capacity ≡ self.old.sessions.capacity) }
    {
        self.counts.count(&visit);
        let _oldest = self.visits.push_back(visit);
        keep_session(&mut self.sessions, visit);
    }

    /// The visits after the first so many of all, oldest first, as far as they are kept.
    pub fn after(&self, alloc: Global, seen: u64) -> Result<Vec<Visit>, AllocError>
        ensures { IfOk result (λ v. v.items ≡ keep_last (visits_of self.now.counts - seen) self.now.visits.items) }
    {
        let new = self.counts.visits().saturating_sub(seen);
        let old = self.visits.len().saturating_sub(new as usize);
        let kept = self.visits.to_vec(alloc)?;
        Vec::from_slice(alloc, &kept[old..])
    }

    /// The last visits that had a session, newest first.
    pub fn newest_sessions(&self, alloc: Global) -> Result<Vec<Visit>, AllocError>
        ensures { IfOk result (λ v. v.items ≡ reverse self.now.sessions.items) }
    {
        let mut sessions = self.sessions.to_vec(alloc)?;
        sessions.reverse();
        Ok(sessions)
    }
}
