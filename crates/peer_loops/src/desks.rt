//! The seats of a loop, one for each part.

ghost use Rattle.std.specs.Prelude.{◌≡◌, ℕ, false, length, map, Some, OnOk};
ghost use Rattle.std.specs.Arc.{arc_value};
ghost use Rattle.slab.specs.Slab.{get};
ghost use Rattle.definitions.specs.Histories.{content};
ghost use Rattle.hub_core.specs.Hubs.{OthersStay};
ghost use Rattle.hub_core.specs.Peers.{Opens};
ghost use Rattle.ends_core.specs.Sides.{peer_of};
ghost use Rattle.peer_threads.specs.Workers.{LookedOrNot, says};
ghost use Rattle.peer_loops.specs.Changes.{ChangesAt, ChangesOne};
ghost use Rattle.peer_loops.specs.Extents.{meant};
ghost use Rattle.peer_loops.specs.Partings.{PutsInOf};
ghost use Rattle.peer_loops.specs.ShardSpans.{keeps, place_for};

use crate::chosen::{Reader, WRONG_SET, Writer};
use crate::common::Common;
use crate::desk::Desk;
use crate::ending::Parting;
use crate::extent::Extent;
use crate::part::Parts;
use crate::seats::Seats;
use hub_core::Hub;
use item_core::Range;
use peer_threads::{Gate, Outcome};
use range_tree::Tree;
use session_table::SessionId;
use shard_core::Which;
use std::alloc::{AllocError, Global};
use std::sync::Wait;
use store_core::RangeStore;
use version_log::LogFault;

/// A session: its place in the table, if it is there, the part that it was over, if that was said, and the range of the
/// items of it; and how many messages were said in it.
#[derive(Clone, Copy)]
pub(crate) struct Over {
    pub(crate) id: Option<SessionId>,
    pub(crate) part: Option<Which>,
    pub(crate) range: Range,
    pub(crate) said: u32,
}

/// The seats of a loop, one for each part, in the order of the parts.
#[derive(Drop)]
pub(crate) struct Desks {
    // The number of the first part.
    pub(crate) first: u16,
    pub(crate) list: Vec<Desk>,
    // How often parts had been made anew when these seats were taken, or went over last.
    changes: u64,
}

impl Desks {
    /// A seat at each of these parts, which were made anew so often. None where memory runs out, or no writer number is
    /// left.
    pub(crate) fn at<T: Wait>(
        rt: &T,
        alloc: Global,
        parts: &mut Parts,
        changes: u64,
    ) -> Option<Desks> {
        let first = parts.first;
        let mut list = Vec::with_capacity(alloc, parts.roots.len()).ok()?;
        for root in parts.roots.iter_mut() {
            list.push(Desk::at(rt, root)?).ok()?;
        }
        Some(Desks {
            first,
            list,
            changes,
        })
    }

    /// Goes over to the parts that were made anew, with what came into the old ones since. Items that find no room are
    /// dropped. Where memory runs out, that is tried again at the next call.
    pub(crate) fn follow<T: Wait, G: Gate>(
        &mut self,
        rt: &T,
        alloc: Global,
        common: &Common<'_, G>,
        seats: &Seats,
    ) {
        let changes = seats.changes();
        if changes == self.changes {
            return;
        }
        if let Some(newer) = seats.newer(rt, alloc, &self.list) {
            let kept = common.gate.floor().range;
            if let Ok(left_out) = self.go_over(rt, alloc, newer, &kept) {
                self.changes = changes;
                if left_out > 0 {
                    common.gate.dropped(LogFault::Full, left_out);
                }
            }
        }
    }

    /// Goes over to these seats, where there is one at a part made anew. How many items are left out.
    fn go_over<T: Wait>(
        &mut self,
        rt: &T,
        alloc: Global,
        newer: Vec<Option<Desk>>,
        kept: &Range,
    ) -> Result<usize, AllocError> {
        let mut left_out: usize = 0;
        for (desk, newer) in self.list.iter_mut().zip(newer) {
            if let Some(newer) = newer {
                left_out = left_out.saturating_add(desk.go_over(rt, alloc, newer, kept)?);
            }
        }
        Ok(left_out)
    }

    /// Whether this part is kept: one of these, or the directory.
    pub(crate) fn keeps(&self, which: Which) -> bool
        ensures { result ≡ keeps self.now.first (length self.now.list.items) which }
    {
        match which {
            Which::Shard(number) => {
                number >= self.first && usize::from(number - self.first) < self.list.len()
            }
            Which::Directory => true,
        }
    }

    /// The place of this part, if its number is not below the first. The directory has none.
    pub(crate) fn place_of(&self, part: Option<Which>) -> Option<usize>
        ensures { result ≡ place_for self.now.first part }
    {
        match part {
            Some(Which::Shard(number)) if number >= self.first => {
                Some(usize::from(number - self.first))
            }
            _ => None,
        }
    }

    /// Pins the newest version of this part, and opens the session of this peer over its items that are meant. A part
    /// that is not kept is refused.
    pub(crate) fn open<T: Wait>(
        &mut self,
        rt: &T,
        alloc: Global,
        hub: &mut Hub<Reader, Writer>,
        over: (Which, Extent<'_>),
        key: usize,
    ) -> Result<(), Parting>
        ensures opens { OnOk result ((place : ℕ) × (place_for self.old.first (Some over.entry.0) ≡ Some place)
            × ChangesOne place self.old.list.items self.new.list.items (λ d e. (e.part ≡ d.part)
            × LookedOrNot d.seat.view e.seat.view
            × ((p q : _) → get hub.old.peers key ≡ Some p → get hub.new.peers key ≡ Some q → Opens (peer_of
            (arc_value (arc_value d.part).accepted) (meant over.entry.1.floor.now over.entry.1.range.now
            (content e.seat.view.base))) p.phase q.phase))) }
        ensures others { OthersStay hub.old.peers hub.new.peers key }
    {
        let Some(place) = self.place_of(Some(over.0)) else {
            return Err(Parting::Refuses(WRONG_SET));
        };
        let Some(desk) = self.list.get_mut(place) else {
            return Err(Parting::Refuses(WRONG_SET));
        };
        Ok(desk.open(rt, alloc, hub, over.1, key)?)
    }

    /// Puts what a session learned that ended so into the log of its part, as far as the gate admits it and it is of
    /// the part. Of the directory nothing is put in. Whether something was.
    pub(crate) fn put_in<T: Wait, G: Gate>(
        &mut self,
        rt: &T,
        alloc: Global,
        common: &Common<'_, G>,
        over: &Over,
        outcome: &Outcome,
    ) -> bool
        ensures put { ChangesAt (place_for self.old.first over.now.part) self.old.list.items self.new.list.items
            (λ d e. (e.part ≡ d.part) × PutsInOf over.now.id
            (says (G.lets_in common.now.gate.now) (G.floors common.now.gate.now)) (arc_value d.part).own outcome.now
            d.seat.view e.seat.view) }
        ensures news { result ≡ false →
            map (λ d. d.seat.view.entered) self.new.list.items ≡ map (λ d. d.seat.view.entered) self.old.list.items }
    {
        let Some(place) = self.place_of(over.part) else {
            return false;
        };
        match self.list.get_mut(place) {
            Some(desk) => desk.put_in(rt, alloc, common, over.id, outcome),
            None => false,
        }
    }

    /// The directory of the items of the parts that are meant, each as it is when it is asked.
    pub(crate) fn directory_now<T: Wait>(
        &mut self,
        rt: &T,
        alloc: Global,
        extent: Extent<'_>,
    ) -> Result<Tree, AllocError> {
        let mut entries = Vec::with_capacity(alloc, self.list.len())?;
        let mut number = self.first;
        for desk in self.list.iter_mut() {
            entries.push(desk.entry(rt, alloc, number, extent)?)?;
            number = number.saturating_add(1);
        }
        Tree::from_items(alloc, entries)
    }
}
