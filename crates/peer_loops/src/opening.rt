//! How the session of a peer is opened: over the part of which it speaks, or over the directory.

ghost use Rattle.std.specs.Prelude.{◌≡◌, ℕ, OnOk, Some, IfOk, IfSome, option_map};
ghost use Rattle.std.specs.Arc.{arc_value};
ghost use Rattle.std.specs.Io.Take.{take_inner};
ghost use Rattle.slab.specs.Slab.{get};
ghost use Rattle.definitions.specs.Items as items;
ghost use Rattle.definitions.specs.Histories.{content};
ghost use Rattle.ends_core.specs.Sides.{peer_of};
ghost use Rattle.shard_core.specs.declared.floor.Floor.{Floor};
ghost use Rattle.shard_core.specs.declared.selector.Which.TheVariants.{Shard};
ghost use Rattle.peer_threads.specs.Workers.{LookedOrNot};
ghost use Rattle.peer_loops.specs.Changes.{ChangesOne};
ghost use Rattle.peer_loops.specs.Extents.{meant};
ghost use Rattle.peer_loops.specs.Fronts.{chosen_in, said_by};
ghost use Rattle.peer_loops.specs.ShardSpans.{place_for};
ghost use Rattle.range_tree.specs.Trees.{tree_items};
ghost use Rattle.hub_core.specs.Hubs.{OthersStay};
ghost use Rattle.hub_core.specs.Peers.{Opens, version_after};

use crate::chosen::{Chosen, Reader, TRUNCATED, WRONG_SET, Writer, part_of};
use crate::desks::Desks;
use crate::ending::Parting;
use crate::extent::Extent;
use crate::looping::Loop;
use crate::part_gate::PartGate;
use crate::site::Site;
use hub_core::Hub;
use item_core::Range;
use range_tree::Tree;
use shard_core::Which;
use std::alloc::{AllocError, Global};
use std::sync::{Arc, Wait};
use store_core::RangeStore;
use strategy_check::Accepted;

/// Opens the session of this peer over the directory, if it is there. There are no more parts than the strategy allows
/// items; it is tested here once more.
fn open_over(
    alloc: Global,
    hub: &mut Hub<Reader, Writer>,
    key: usize,
    accepted: &Arc<Accepted>,
    store: Tree,
) -> Result<(), Parting>
    ensures opens { OnOk result ((p q : _) → get hub.old.peers key ≡ Some p → get hub.new.peers key ≡ Some q →
        Opens (peer_of (arc_value accepted.now) (tree_items store)) p.phase q.phase) }
    ensures version { OnOk result ((p q : _) → get hub.old.peers key ≡ Some p → get hub.new.peers key ≡ Some q →
        q.version ≡ version_after p.phase p.version 0) }
    ensures others { OthersStay hub.old.peers hub.new.peers key }
{
    if store.len() > accepted.cap() as usize {
        return Err(Parting::Refuses(WRONG_SET));
    }
    match hub.open(alloc, key, accepted, store, 0) {
        Some(Err(refused)) => Err(Parting::from(refused)),
        Some(Ok(())) | None => Ok(()),
    }
}

/// The directory that is kept; it is made first where there is none.
fn directory_in<R: Wait, G>(
    site: &Site<'_, R, G>,
    desks: &mut Desks,
    kept: &mut Option<Tree>,
) -> Result<Tree, AllocError>
    ensures { IfOk result (λ tree. IfSome kept.new (λ own. tree_items tree ≡ tree_items own)) }
{
    if let Some(tree) = kept {
        return tree.copy(site.alloc);
    }
    let whole = Range::whole();
    let extent = Extent {
        floor: &whole,
        range: &whole,
    };
    let tree = desks.directory_now(site.rt, site.alloc, extent)?;
    *kept = Some(tree.copy(site.alloc)?);
    Ok(tree)
}

impl Loop {
    /// The part of which this peer speaks, if it is there and has said so.
    fn meant<R, G>(&self, site: &Site<'_, R, G>, key: usize) -> Option<Chosen>
        ensures { (p : _) → get self.entry.now.hub.peers key ≡ Some p → option_map (λ c. (c.which, c.range)) result
            ≡ chosen_in (said_by site.now.crowd.now.front (take_inner p.reader.way).reader.came) }
    {
        part_of(site.crowd.front, self.hub.get(key)?.reader())
    }

    /// Opens the session of this peer over the directory of the items that are meant.
    fn open_directory<R: Wait, G>(
        &mut self,
        site: &Site<'_, R, G>,
        desks: &mut Desks,
        extent: Extent<'_>,
        key: usize,
    ) -> Result<(), Parting> {
        let store = if extent.is_whole() {
            directory_in(site, desks, &mut site.common.news.directory.lock(site.rt))?
        } else {
            desks.directory_now(site.rt, site.alloc, extent)?
        };
        open_over(site.alloc, &mut self.hub, key, site.common.accepted, store)
    }

    /// Opens the session of this peer over the newest version of the part of which it speaks, over the items of it that
    /// the floor keeps. Else it is to be let go.
    pub(crate) fn open_session<R: Wait, G: PartGate>(
        &mut self,
        site: &Site<'_, R, G>,
        desks: &mut Desks,
        key: usize,
    ) -> Result<(), Parting>
        ensures shard { OnOk result ((p q : _) → get self.old.hub.peers key ≡ Some p →
            get self.new.hub.peers key ≡ Some q → (number : ℕ) → (range : items.Range) →
            chosen_in (said_by site.now.crowd.now.front (take_inner p.reader.way).reader.came)
            ≡ Some (Shard number, range) →
            (place : ℕ) × (place_for desks.old.first (Some (Shard number)) ≡ Some place)
            × ((floor : Floor) × G.floors site.now.common.now.gate.now floor
            × ChangesOne place desks.old.list.items desks.new.list.items (λ d e. (e.part ≡ d.part)
            × LookedOrNot d.seat.view e.seat.view × Opens (peer_of (arc_value (arc_value d.part).accepted)
            (meant floor.range range (content e.seat.view.base))) p.phase q.phase))) }
    {
        let Some(chosen) = self.meant(site, key) else {
            return Err(Parting::Refuses(TRUNCATED));
        };
        let floor = site.common.gate.floor();
        let extent = Extent {
            floor: &floor.range,
            range: &chosen.range,
        };
        let which = chosen.which;
        match which {
            Which::Directory => self.open_directory(site, desks, extent, key),
            Which::Shard(_) => {
                desks.open(site.rt, site.alloc, &mut self.hub, (which, extent), key)
            }
        }
    }
}
