//! A set of items under a strategy, and its versions.

ghost use Rattle.std.specs.Prelude.{◌≡◌, ◌<◌, ◌≤◌, [], Some, length, IfOk, slice_get};
ghost use Rattle.std.specs.Arc.{arc_value};
ghost use Rattle.definitions.specs.Items.{Item as Bytes};
ghost use Rattle.definitions.specs.Sets.{has, items_in};
ghost use Rattle.definitions.specs.Histories.{content};
ghost use Rattle.range_tree.specs.Trees.{tree_items};
ghost use Rattle.rangesync_c.specs.SetStates.{set_by, newest, part_in, Inserts, IsSetFrom};

use crate::fault::EmbeddedFault;
use item_core::{Item, Range};
use item_files::{ItemForm, item_set};
use range_tree::Tree;
use std::alloc::{AllocError, Global};
use std::marker::Model;
use std::sync::Arc;
use store_core::RangeStore;
use strategy_check::Accepted;
use version_log::{Added, Log};

/// A set of at most as many items as its strategy's cap, and its history.
#[derive(Drop)]
pub struct Set {
    accepted: Arc<Accepted>,
    log: Log<Tree>,
}

impl Model for Set {
    ghost use Rattle.std.specs.Prelude.{◌≡◌};
    ghost use Rattle.std.specs.Arc.{arc_value};
    ghost use Rattle.rangesync_c.specs.SetStates.{SetState, set_by};

    ghost Value = { SetState };

    ghost view = { λ s. set_by (arc_value s.accepted) s.log.history };

    ghost invariant = { λ s. s.log.cap ≡ (arc_value s.accepted).table.cap };
}

/// A version of a set: what it held when the version was taken.
#[derive(Drop)]
pub struct Version {
    accepted: Arc<Accepted>,
    store: Tree,
}

impl Model for Version {
    ghost use Rattle.std.specs.Prelude.{◌≤◌, length};
    ghost use Rattle.std.specs.Arc.{arc_value};
    ghost use Rattle.range_tree.specs.Trees.{tree_items};
    ghost use Rattle.rangesync_c.specs.SetStates.{VersionState};

    ghost Value = { VersionState };

    ghost view = { λ v. record { accepted = arc_value v.accepted; items = tree_items v.store } };

    ghost invariant = { λ v. length (tree_items v.store) ≤ (arc_value v.accepted).table.cap };
}

impl Set {
    /// A set of the items of an item file's text. Fails with 81 where a line is no item, then with 82 where it has more
    /// different items than the strategy's cap, and with 90.
    pub fn from_text(
        alloc: Global,
        accepted: Arc<Accepted>,
        form: ItemForm,
        text: &[u8],
    ) -> Result<Set, EmbeddedFault>
        ensures { IsSetFrom form text.now (arc_value accepted) result }
    {
        let cap = accepted.cap();
        let items = item_set(alloc, form, text, cap as usize)?;
        let log = Log::of_set(alloc, cap, &items)?;
        Ok(Set { accepted, log })
    }

    /// Puts an item in, and returns whether it is new. Fails with 40 where it is new and the set is full, and with 90;
    /// then nothing has changed.
    pub fn insert(&mut self, alloc: Global, item: Item) -> Result<bool, EmbeddedFault>
        ensures { Inserts self.old item self.new result }
    {
        let _ = self.log.cap(); // proof only: the log is within its cap
        match self.log.add(alloc, 0, item)? {
            Added::New(_) => Ok(true),
            Added::Already => Ok(false),
        }
    }

    /// How many items it has, which is the number of its newest version too.
    pub fn count(&self) -> usize
        ensures { result ≡ length self.now.history }
    {
        self.log.version()
    }

    /// Its newest version.
    pub fn version(&self, alloc: Global) -> Result<Version, AllocError>
        ensures { IfOk result (λ v. v ≡ newest self.now) }
    {
        let _ = self.log.cap(); // proof only: the log is within its cap
        let _ = self.log.count(); // proof only: the log has so many items as its store
        let store = self.log.store().copy(alloc)?;
        let accepted = Arc::try_clone(&self.accepted)?;
        Ok(Version { accepted, store })
    }
}

impl Version {
    /// The version of these items.
    pub(crate) fn of(accepted: Arc<Accepted>, store: Tree) -> Version
        requires { length (tree_items store) ≤ (arc_value accepted).table.cap }
        ensures { result ≡ record { accepted = arc_value accepted; items = tree_items store } }
    {
        Version { accepted, store }
    }

    /// The same version again.
    pub fn copy(&self, alloc: Global) -> Result<Version, AllocError>
        ensures { IfOk result (λ v. v ≡ self.now) }
    {
        let store = self.store.copy(alloc)?;
        let accepted = Arc::try_clone(&self.accepted)?;
        Ok(Version { accepted, store })
    }

    /// The version of its items in a range. No item is hashed.
    pub fn part(&self, alloc: Global, range: &Range) -> Result<Version, AllocError>
        ensures { IfOk result (λ v. v ≡ part_in self.now range.now) }
    {
        let store = self.store.part(alloc, range)?;
        let accepted = Arc::try_clone(&self.accepted)?;
        Ok(Version { accepted, store })
    }

    /// How many items it has.
    pub fn count(&self) -> usize
        ensures { result ≡ length self.now.items }
    {
        self.store.len()
    }

    /// Whether it has the item.
    pub fn has(&self, item: &Item) -> bool
        ensures { result ≡ has self.now.items item.now }
    {
        self.store.has(item)
    }

    /// How many items it has in a range.
    pub fn count_in(&self, range: &Range) -> usize
        ensures { result ≡ length (items_in self.now.items range.now) }
    {
        self.store.count(range)
    }

    /// The item at this place among those in a range, from 0.
    pub fn item_in(&self, range: &Range, place: usize) -> Item
        requires { place < length (items_in self.now.items range.now) }
        ensures { slice_get (items_in self.now.items range.now) place ≡ Some result }
    {
        self.store.nth(range, place)
    }

    /// What a session is opened over.
    pub(crate) fn parts(self) -> (Arc<Accepted>, Tree)
        ensures accepted { arc_value result.0 ≡ self.accepted }
        ensures items { tree_items result.1 ≡ self.items }
        ensures fits { length (tree_items result.1) ≤ (arc_value result.0).table.cap }
    {
        (self.accepted, self.store)
    }
}
