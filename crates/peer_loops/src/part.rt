//! The parts of a set that loops serve, each behind a lock.

ghost use Rattle.std.specs.Prelude.{◌≡◌, ◌≢◌, ◌≤◌, ◌<◌, ◌+◌, ◌%◌, ◌^◌, ◌↔◌, length, [], ◌∷◌, ◌++◌, None, Some};
ghost use Rattle.std.specs.Prelude.{IfOk, IfSome, IsSomeAnd, OnOk, OnErr, IsTrue};
ghost use Rattle.std.specs.Arc.{arc_value};
ghost use Rattle.definitions.specs.Histories.{content};
ghost use Rattle.definitions.specs.Sets.{items_in};
ghost use Rattle.version_lock.specs.Calls.{IsPinOf, Looked};
ghost use Rattle.version_lock.specs.Views.{first_view};
ghost use Rattle.version_lock.specs.declared.view.View.{View};
ghost use Rattle.peer_loops.specs.Chains.{Forgets, IsDueIn};

use crate::desk::Desk;
use item_core::Range;
use range_tree::Tree;
use shard_core::{OneShard, lacks_a_quarter};
use std::alloc::{AllocError, Global};
use std::sync::{Arc, Wait};
use store_core::RangeStore;
use strategy_check::Accepted;
use version_lock::{Pin, Seat, VersionLock};
use version_log::Log;

/// A part of a set: a log that all loops share, and what may be put into it.
#[derive(Drop)]
pub(crate) struct Part {
    pub(crate) accepted: Arc<Accepted>,
    // The shard that the log has the items of; none if it has those of a whole set.
    pub(crate) own: Option<OneShard>,
    pub(crate) lock: VersionLock<Tree>,
    // How often the part was made anew before.
    pub(crate) turn: u64,
}

/// A part, and the seat that all others at its lock are split off.
#[derive(Drop)]
pub(crate) struct Root {
    pub(crate) part: Arc<Part>,
    pub(crate) seat: Seat<Tree>,
    ghost lock: { seat.table_id ≡ (arc_value part).lock },
    ghost fits: { seat.view.cap ≤ (arc_value (arc_value part).accepted).table.cap },
    ghost fresh: { seat.view.writer ≡ None },
    ghost none: { seat.view.entered ≡ [] },
}

impl Root {
    /// The part with this log, under a strategy for as many items. It was made anew so often before.
    pub(crate) fn new(
        alloc: Global,
        accepted: &Arc<Accepted>,
        own: Option<OneShard>,
        log: Log<Tree>,
        turn: u64,
    ) -> Result<Root, AllocError>
        requires { log.cap ≤ (arc_value accepted.now).table.cap }
        ensures own { IfOk result (λ r. (arc_value r.part).own ≡ own) }
        ensures accepted { IfOk result (λ r. arc_value (arc_value r.part).accepted ≡ arc_value accepted.now) }
        ensures log { IfOk result (λ r. r.seat.view ≡ first_view log) }
        ensures turn { IfOk result (λ r. (arc_value r.part).turn ≡ turn) }
    {
        let accepted = Arc::try_clone(accepted)?;
        let (lock, seat) = VersionLock::new(alloc, log)?;
        let part = Part {
            accepted,
            own,
            lock,
            turn,
        };
        let part = Arc::new(alloc, part)?;
        Ok(Root { part, seat })
    }

    /// The newest version.
    fn pin<T: Wait>(&mut self, rt: &T, alloc: Global) -> Result<Pin<Tree>, AllocError>
        ensures part { self.new.part ≡ self.old.part }
        ensures view { Looked self.old.seat.view self.new.seat.view }
        ensures pin { IfOk result (λ p. IsPinOf p self.new.seat.view) }
    {
        self.part.lock.pin(rt, alloc, &mut self.seat)
    }

    /// How many items of the range the newest version has.
    pub(crate) fn count<T: Wait>(
        &mut self,
        rt: &T,
        alloc: Global,
        kept: &Range,
    ) -> Result<usize, AllocError>
        ensures part { self.new.part ≡ self.old.part }
        ensures count { IfOk result (λ n. n ≡ length (items_in (content self.new.seat.view.base) kept.now)) }
    {
        Ok(self.pin(rt, alloc)?.store().count(kept))
    }

    /// Whether it is to be made anew with its items of the range alone: a quarter of them is not in it.
    pub(crate) fn is_due<T: Wait>(&mut self, rt: &T, alloc: Global, kept: &Range) -> bool
        ensures part { self.new.part ≡ self.old.part }
        ensures due { IsTrue result → IsDueIn kept.now self.new.seat.view.base }
    {
        match self.pin(rt, alloc) {
            Ok(pin) => lacks_a_quarter(pin.store().len(), pin.store().count(kept)),
            Err(_) => false,
        }
    }

    /// Makes it anew with its items of the range alone, if a quarter of them is not in it. How many are forgotten.
    pub(crate) fn forget<T: Wait>(
        &mut self,
        rt: &T,
        alloc: Global,
        kept: &Range,
    ) -> Result<usize, AllocError>
        ensures own { (arc_value self.new.part).own ≡ (arc_value self.old.part).own }
        ensures stays { IfOk result (λ count. count ≡ 0 → self.new.part ≡ self.old.part) }
        ensures forgets { IfOk result (λ count. (between : View) × Looked self.old.seat.view between
            × Forgets kept.now (arc_value (arc_value self.old.part).accepted).table.cap between
            self.new.seat.view count) }
        ensures memory { OnErr result (self.new.part ≡ self.old.part) }
        ensures turn { IfOk result (λ count. 0 < count →
            (arc_value self.new.part).turn ≡ ((arc_value self.old.part).turn + 1) % 2 ^ 64) }
    {
        let pin = self.pin(rt, alloc)?;
        let (all, count) = (pin.store().len(), pin.store().count(kept));
        if !lacks_a_quarter(all, count) {
            return Ok(0);
        }
        let store = pin.store().part(alloc, kept)?;
        let log = Log::of_store(alloc, self.part.accepted.cap(), store);
        let turn = self.part.turn.wrapping_add(1);
        *self = Root::new(alloc, &self.part.accepted, self.part.own, log, turn)?;
        Ok(all - count)
    }

    /// A seat at it, if it is not of this turn. None where memory runs out, or no writer number is left.
    pub(crate) fn seat_after<T: Wait>(&mut self, rt: &T, turn: u64) -> Option<Option<Desk>>
        ensures kept { self.new.part ≡ self.old.part }
        ensures same { (arc_value self.old.part).turn ≡ turn → result ≡ Some None }
        ensures newer { (arc_value self.old.part).turn ≢ turn →
            IfSome result (λ seat. IsSomeAnd seat (λ d. (arc_value d.part ≡ arc_value self.old.part)
            × (d.seat.view.entered ≡ []))) }
    {
        if self.part.turn == turn {
            return Some(None);
        }
        Some(Some(Desk::at(rt, self)?))
    }
}

/// The parts of a set: all of it as one, or shards whose numbers follow one another.
#[derive(Drop)]
pub struct Parts {
    // The number of the first.
    pub(crate) first: u16,
    pub(crate) roots: Vec<Root>,
}

impl Parts {
    /// No parts so far. The first one has this number.
    pub fn new(alloc: Global, first: u16) -> Parts
        ensures { (result.first ≡ first) × (result.roots.items ≡ []) }
    {
        Parts {
            first,
            roots: Vec::new(alloc),
        }
    }

    /// Adds the part with this log, under a strategy for as many items: a shard, or a whole set.
    pub fn add(
        &mut self,
        alloc: Global,
        accepted: &Arc<Accepted>,
        own: Option<OneShard>,
        log: Log<Tree>,
    ) -> Result<(), AllocError>
        requires { log.cap ≤ (arc_value accepted.now).table.cap }
        ensures first { self.new.first ≡ self.old.first }
        ensures added { OnOk result ((r : _) × (self.new.roots.items ≡ self.old.roots.items ++ r ∷ [])
            × ((arc_value r.part).own ≡ own) × (r.seat.view ≡ first_view log)) }
    {
        self.roots.push(Root::new(alloc, accepted, own, log, 0)?)?;
        Ok(())
    }

    /// Whether one of them is to be made anew with its items of the range alone.
    pub(crate) fn are_due<T: Wait>(&mut self, rt: &T, alloc: Global, kept: &Range) -> bool {
        for root in self.roots.iter_mut() {
            if root.is_due(rt, alloc, kept) {
                return true;
            }
        }
        false
    }

    /// Makes each anew with its items of the range alone of which a quarter is not in it. Where memory runs out it
    /// stays as it is. How many items are forgotten.
    pub(crate) fn forget<T: Wait>(&mut self, rt: &T, alloc: Global, kept: &Range) -> usize {
        let mut forgotten: usize = 0;
        for root in self.roots.iter_mut() {
            let count = root.forget(rt, alloc, kept).unwrap_or(0);
            forgotten = forgotten.saturating_add(count);
        }
        forgotten
    }

    /// How many items of the range all have.
    pub(crate) fn count<T: Wait>(
        &mut self,
        rt: &T,
        alloc: Global,
        kept: &Range,
    ) -> Result<usize, AllocError> {
        let mut count: usize = 0;
        for root in self.roots.iter_mut() {
            count = count.saturating_add(root.count(rt, alloc, kept)?);
        }
        Ok(count)
    }
}
