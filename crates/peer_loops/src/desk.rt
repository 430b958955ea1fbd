//! A loop's seat at the log of one part.

ghost use Rattle.std.specs.Prelude.{◌≡◌, ◌≤◌, length, [], true, false, IsSome, IfOk, IfSome, OnErr, OnOk, Some};
ghost use Rattle.std.specs.Arc.{arc_value};
ghost use Rattle.slab.specs.Slab.{get};
ghost use Rattle.definitions.specs.Histories.{content};
ghost use Rattle.definitions.specs.Sets.{items_in};
ghost use Rattle.shard_core.specs.Shards.{entry_for};
ghost use Rattle.range_tree.specs.Trees.{tree_items};
ghost use Rattle.hub_core.specs.Hubs.{OthersStay};
ghost use Rattle.hub_core.specs.Peers.{Opens, version_after};
ghost use Rattle.ends_core.specs.Sides.{peer_of};
ghost use Rattle.peer_threads.specs.Workers.{IsSettled, LookedOrNot, are_own, says};
ghost use Rattle.version_lock.specs.Calls.{IsPinOf, Looked};
ghost use Rattle.version_lock.specs.declared.view.View.{View};
ghost use Rattle.peer_loops.specs.Chains.{Took, left_out_by};
ghost use Rattle.peer_loops.specs.Extents.{meant};
ghost use Rattle.peer_loops.specs.Hands.{Adds};
ghost use Rattle.peer_loops.specs.Partings.{PutsInOf};

use crate::chosen::{Reader, Writer};
use crate::common::Common;
use crate::extent::Extent;
use crate::hand::HandFault;
use crate::part::{Part, Root};
use ends_core::Learned;
use hub_core::Hub;
use item_core::{Item, Range};
use peer_threads::{Gate, Harvest, Outcome, Shared, settle};
use range_tree::Tree;
use session_table::SessionId;
use shard_core::{ShardSum, entry_of};
use std::alloc::{AllocError, Global};
use std::sync::{Arc, Wait};
use store_core::RangeStore;
use version_lock::{Pin, Seat};
use version_log::{Added, LogFault};

/// A loop's seat at the log of a part: sessions are opened over the versions that it pins, and it puts in what they
/// learned. All that it has entered is of the part.
#[derive(Drop)]
pub(crate) struct Desk {
    pub(crate) part: Arc<Part>,
    pub(crate) seat: Seat<Tree>,
    ghost lock: { seat.table_id ≡ (arc_value part).lock },
    ghost fits: { seat.view.cap ≤ (arc_value (arc_value part).accepted).table.cap },
    ghost enrolled: { IsSome seat.view.writer },
    ghost own: { are_own (arc_value part).own seat.view.entered ≡ true },
}

/// Puts an item into the log of this part by this seat, if it is of the part and the log lacks it.
fn enter<T: Wait>(
    rt: &T,
    alloc: Global,
    part: &Part,
    seat: &mut Seat<Tree>,
    item: &Item,
) -> Result<Added, HandFault>
    requires lock { seat.old.table_id ≡ part.now.lock }
    requires enrolled { IsSome seat.old.view.writer }
    ensures seat { seat.new.table_id ≡ seat.old.table_id }
    ensures kept { (seat.new.view.writer ≡ seat.old.view.writer) × (seat.new.view.cap ≡ seat.old.view.cap) }
    ensures adds { Adds part.now.own item.now seat.old.view seat.new.view result }
{
    if let Some(one) = part.own {
        if !one.owns(item) {
            return Err(HandFault::Elsewhere);
        }
    }
    match part.lock.insert(rt, alloc, seat, *item) {
        Ok(added) => Ok(added),
        Err(fault) => Err(HandFault::Log(fault)),
    }
}

/// How many items are left out where one was put in so. Else memory ran out.
fn left_out_by(did: Result<Added, HandFault>) -> Result<usize, AllocError>
    ensures { IfOk result (λ count. left_out_by did ≡ Some count) }
{
    match did {
        Ok(_) => Ok(0),
        Err(HandFault::Log(LogFault::Memory)) => Err(AllocError),
        Err(HandFault::Log(LogFault::Full) | HandFault::Elsewhere) => Ok(1),
    }
}

impl Desk {
    /// A seat at this part that has a writer number, where there is one left.
    pub(crate) fn at<T: Wait>(rt: &T, root: &mut Root) -> Option<Desk>
        ensures kept { root.new.part ≡ root.old.part }
        ensures part { IfSome result (λ d. arc_value d.part ≡ arc_value root.old.part) }
        ensures nothing { IfSome result (λ d. d.seat.view.entered ≡ []) }
    {
        let part = Arc::try_clone(&root.part).ok()?;
        let mut seat = part.lock.split_seat(&mut root.seat);
        part.lock.enroll(rt, &mut seat).ok()?;
        Some(Desk { part, seat })
    }

    /// Puts these items in, as far as the log lacks them and has room. How many are left out.
    fn add_each<T: Wait>(
        &mut self,
        rt: &T,
        alloc: Global,
        items: &[Item],
    ) -> Result<usize, AllocError>
        ensures part { self.new.part ≡ self.old.part }
        ensures took { IfOk result (λ left. Took (arc_value self.old.part).own items.now self.old.seat.view
            self.new.seat.view left) }
    {
        let mut left_out: usize = 0;
        for item in items {
            left_out += left_out_by(self.add(rt, alloc, item))?;
        }
        Ok(left_out)
    }

    /// Goes over to this seat at the part made anew, with the items of the range that the part of this one has, as far
    /// as there is room. How many are left out. Where memory runs out, it stays at its part.
    pub(crate) fn go_over<T: Wait>(
        &mut self,
        rt: &T,
        alloc: Global,
        newer: Desk,
        kept: &Range,
    ) -> Result<usize, AllocError>
        ensures took { IfOk result (λ left. (self.new.part ≡ newer.part) × ((between : View)
            × Looked self.old.seat.view between × Took (arc_value newer.part).own
            (items_in (content between.base) kept.now) newer.seat.view self.new.seat.view left)) }
        ensures memory { OnErr result (self.new.part ≡ self.old.part) }
    {
        let mut newer = newer;
        let pin = self.part.lock.pin(rt, alloc, &mut self.seat)?;
        let items = pin.store().items(alloc, kept)?;
        let left_out = newer.add_each(rt, alloc, &items)?;
        *self = newer;
        Ok(left_out)
    }

    /// Pins the newest version. Its items that are meant, and its number.
    pub(crate) fn pinned<T: Wait>(
        &mut self,
        rt: &T,
        alloc: Global,
        extent: Extent<'_>,
    ) -> Result<Pin<Tree>, AllocError>
        ensures part { self.new.part ≡ self.old.part }
        ensures view { LookedOrNot self.old.seat.view self.new.seat.view }
        ensures items { IfOk result (λ p. p.items
            ≡ meant extent.entry.floor.now extent.entry.range.now (content self.new.seat.view.base)) }
        ensures few { IfOk result (λ p. length p.items ≤ (arc_value (arc_value self.old.part).accepted).table.cap) }
        ensures version { IfOk result (λ p. p.version ≡ length self.new.seat.view.base) }
    {
        let pin = self.part.lock.pin(rt, alloc, &mut self.seat)?;
        let store = extent.of(alloc, pin.store())?;
        Ok(pin.with_store(store))
    }

    /// Pins the newest version, and opens the session of this peer over its items that are meant, if the peer is there.
    pub(crate) fn open<T: Wait>(
        &mut self,
        rt: &T,
        alloc: Global,
        hub: &mut Hub<Reader, Writer>,
        extent: Extent<'_>,
        key: usize,
    ) -> Result<(), AllocError>
        ensures part { self.new.part ≡ self.old.part }
        ensures view { LookedOrNot self.old.seat.view self.new.seat.view }
        ensures opens { OnOk result ((p q : _) → get hub.old.peers key ≡ Some p → get hub.new.peers key ≡ Some q →
            Opens (peer_of (arc_value (arc_value self.old.part).accepted)
            (meant extent.entry.floor.now extent.entry.range.now (content self.new.seat.view.base))) p.phase q.phase) }
        ensures version { OnOk result ((p q : _) → get hub.old.peers key ≡ Some p → get hub.new.peers key ≡ Some q →
            q.version ≡ version_after p.phase p.version (length self.new.seat.view.base)) }
        ensures others { OthersStay hub.old.peers hub.new.peers key }
    {
        let pin = self.pinned(rt, alloc, extent)?;
        let version = pin.version();
        hub.open(alloc, key, &self.part.accepted, pin.into_store(), version)
            .unwrap_or(Ok(()))
    }

    /// The newest version.
    pub(crate) fn pin<T: Wait>(&mut self, rt: &T, alloc: Global) -> Result<Pin<Tree>, AllocError>
        ensures part { self.new.part ≡ self.old.part }
        ensures view { Looked self.old.seat.view self.new.seat.view }
        ensures pin { IfOk result (λ p. IsPinOf p self.new.seat.view) }
    {
        self.part.lock.pin(rt, alloc, &mut self.seat)
    }

    /// Puts an item into the log, if it is of the part and the log lacks it.
    #[tactic(auto, using(crate::proofs::Handing::added_own))]
    pub(crate) fn add<T: Wait>(
        &mut self,
        rt: &T,
        alloc: Global,
        item: &Item,
    ) -> Result<Added, HandFault>
        ensures part { self.new.part ≡ self.old.part }
        ensures adds { Adds (arc_value self.old.part).own item.now self.old.seat.view self.new.seat.view result }
    {
        enter(rt, alloc, &self.part, &mut self.seat, item)
    }

    /// The entry of the items of the newest version that are meant, in a directory.
    pub(crate) fn entry<T: Wait>(
        &mut self,
        rt: &T,
        alloc: Global,
        number: u16,
        extent: Extent<'_>,
    ) -> Result<Item, AllocError>
        ensures part { self.new.part ≡ self.old.part }
        ensures view { LookedOrNot self.old.seat.view self.new.seat.view }
        ensures entry { IfOk result (λ x. x ≡ entry_for number
            (meant extent.entry.floor.now extent.entry.range.now (content self.new.seat.view.base))) }
    {
        let _cap = self.part.accepted.cap(); // proof only: there are at most 65,536 items
        let pin = self.pinned(rt, alloc, extent)?;
        Ok(entry_of(number, ShardSum::of(pin.store())))
    }

    /// Puts into the log what a session learned that ended so, if it is in the table, as far as the gate admits it and
    /// it is of the part. Whether something was put in, or was there.
    pub(crate) fn put_in<T: Wait, G: Gate>(
        &mut self,
        rt: &T,
        alloc: Global,
        common: &Common<'_, G>,
        id: Option<SessionId>,
        outcome: &Outcome,
    ) -> bool
        ensures part { self.new.part ≡ self.old.part }
        ensures put { PutsInOf id (says (G.lets_in common.now.gate.now) (G.floors common.now.gate.now))
            (arc_value self.old.part).own outcome.now self.old.seat.view self.new.seat.view }
        ensures news { result ≡ false → self.new.seat.view.entered ≡ self.old.seat.view.entered }
    {
        let Some(id) = id else {
            return false;
        };
        match outcome {
            Outcome::Ended { learned, .. } => {
                let left_out = self.settle(rt, alloc, common, id.serial(), learned);
                left_out < learned.theirs().len()
            }
            _ => false,
        }
    }

    /// Puts into the log what the session with this serial learned of its peer, in the same way. How many items are
    /// left out.
    pub(crate) fn settle<T: Wait, G: Gate>(
        &mut self,
        rt: &T,
        alloc: Global,
        common: &Common<'_, G>,
        serial: u64,
        learned: &Learned,
    ) -> usize
        ensures part { self.new.part ≡ self.old.part }
        ensures put { IsSettled (says (G.lets_in common.now.gate.now) (G.floors common.now.gate.now)) serial
            (arc_value self.old.part).own learned.now.theirs self.old.seat.view self.new.seat.view result }
    {
        let shared = Shared {
            lock: &self.part.lock,
            accepted: &self.part.accepted,
            sessions: common.sessions,
            gate: common.gate,
        };
        let harvest = Harvest {
            serial,
            own: self.part.own,
            learned,
        };
        settle(rt, alloc, &shared, &mut self.seat, harvest)
    }
}
