//! A set of any size, cut into shards under one strategy.

ghost use Rattle.std.specs.Prelude.{◌≡◌, ◌≤◌, ◌<◌, ◌^◌, ◌⊎◌, not, true, false, [], length, IfOk, IfErr, IfSome};
ghost use Rattle.std.specs.Prelude.{IfNone, Ok, Err, List};
ghost use Rattle.std.specs.Arc.{arc_value};
ghost use Rattle.definitions.specs.Items.{Item as Bytes};
ghost use Rattle.shard_core.specs.Shards.{max_bits};
ghost use Rattle.shard_core.specs.Selectors.{IsWhich, which_number, selector_text, selecting, ReadsOnly};
ghost use Rattle.definitions.specs.Sets.{set_of};
ghost use Rattle.item_files.specs.ItemFiles.{file_items};
ghost use Rattle.rangesync_c.specs.Trees.{held_in};
ghost use Rattle.rangesync_c.specs.ShardStates.{no_items, with_one, version_in, shard_in, directory_in};
ghost use Rattle.rangesync_c.specs.ShardStates.{is_there, IsRoomFor, IsFullFor, NoWhich, IsDealtFrom};
ghost use Rattle.rangesync_c.specs.declared.fault.EmbeddedFault.TheVariants as faults;

use crate::fault::EmbeddedFault;
use crate::set::Version;
use crate::stores::{dealt_stores, empty_stores, grown, put, store_at, sums_within, total};
use item_core::{Item, Range};
use item_files::{ItemForm, SettingsFault, item_set};
use range_tree::Tree;
use shard_core::{
    Selecting, Which, directory_of, push_selector, read_selector, shard_count, shard_of,
};
use std::alloc::{AllocError, Global};
use std::marker::Model;
use std::sync::Arc;
use store_core::RangeStore;
use strategy_check::Accepted;

/// The number that stands for the directory.
const DIRECTORY: u32 = 0xFFFF;

/// The number of a shard, or that of the directory.
pub(crate) fn number_of(which: Which) -> u32
    ensures { result ≡ which_number which }
{
    match which {
        Which::Shard(number) => u32::from(number),
        Which::Directory => DIRECTORY,
    }
}

/// The items of an item file's text, each once. Fails with 81 where a line is no item, and with 90.
fn items_in_text(alloc: Global, form: ItemForm, text: &[u8]) -> Result<Vec<Item>, EmbeddedFault>
    ensures items { IfOk result (λ v. (items : List Bytes) × (file_items form text.now ≡ Ok items)
        × (v.items ≡ set_of items)) }
    ensures either { IfErr result (λ f. (f ≡ faults.BadItemLine) ⊎ (f ≡ faults.Memory)) }
    ensures bad { IfErr result (λ f. f ≡ faults.BadItemLine → (bad : _) × (file_items form text.now ≡ Err bad)) }
{
    match item_set(alloc, form, text, usize::MAX) {
        Ok(items) => Ok(items),
        Err(SettingsFault::BadItemLine(_)) => Err(EmbeddedFault::BadItemLine),
        // Of a text that is there, in which no set is too large, no other fault is told.
        Err(_) => Err(EmbeddedFault::Memory),
    }
}

/// A set of any size: 2 to the power of `bits` stores, its shards.
#[derive(Drop)]
pub struct Shards {
    accepted: Arc<Accepted>,
    name: Vec<u8>,
    bits: u8,
    stores: Vec<Tree>,
}

impl Model for Shards {
    ghost use Rattle.std.specs.Arc.{arc_value};
    ghost use Rattle.rangesync_c.specs.Trees.{held_in};
    ghost use Rattle.rangesync_c.specs.ShardStates.{ShardsState, IsSharded, all_of};

    ghost Value = { ShardsState };

    ghost view = { λ s. record {
      accepted = arc_value s.accepted;
      name = s.name.items;
      bits = s.bits;
      items = all_of (held_in s.stores.items);
    } };

    ghost invariant = { λ s. IsSharded (arc_value s.accepted) s.name.items s.bits (held_in s.stores.items) };
}

impl Shards {
    /// A set of no items, of this name, that is cut by so many bits.
    pub fn empty(
        alloc: Global,
        accepted: Arc<Accepted>,
        name: &[u8],
        bits: u8,
    ) -> Result<Shards, AllocError>
        requires short { length name.now ≤ 64 }
        requires low { bits ≤ max_bits }
        requires wide { 2 ^ bits ≤ (arc_value accepted).table.cap }
        ensures { IfOk result (λ s. s ≡ no_items (arc_value accepted) name.now bits) }
    {
        let mut copied = Vec::new(alloc);
        copied.extend_from_slice(name)?;
        let stores = empty_stores(alloc, shard_count(bits))?;
        Ok(Shards {
            accepted,
            name: copied,
            bits,
            stores,
        })
    }

    /// The same set with the items of an item file's text in place of its own. Fails with 81 where a line is no item,
    /// then with 82 where a shard has more different items than the cap, and with 90.
    pub fn filled(self, alloc: Global, form: ItemForm, text: &[u8]) -> Result<Shards, EmbeddedFault>
        ensures { IsDealtFrom form text.now self result }
    {
        let Shards {
            accepted,
            name,
            bits,
            stores: _,
        } = self;
        let items = items_in_text(alloc, form, text)?;
        let stores = dealt_stores(alloc, bits, &items, accepted.cap() as usize)?;
        Ok(Shards {
            accepted,
            name,
            bits,
            stores,
        })
    }

    /// Puts an item into its shard, and returns whether it is new. Fails with 40 where it is new and its shard is full,
    /// and with 90; then nothing has changed.
    pub fn insert(&mut self, alloc: Global, item: Item) -> Result<bool, EmbeddedFault>
        ensures new { IfOk result (λ is_new. is_new ≡ not (is_there self.old item)) }
        ensures inserted { IfOk result (λ _. self.new ≡ with_one self.old item) }
        ensures lacked { IfErr result (λ _. is_there self.old item ≡ false) }
        ensures full { IfErr result (λ f. f ≡ faults.Full → IsFullFor self.old item) }
        ensures memory { IfErr result (λ f. f ≡ faults.Memory → IsRoomFor self.old item) }
        ensures either { IfErr result (λ f. (f ≡ faults.Full) ⊎ (f ≡ faults.Memory)) }
        ensures failed { IfErr result (λ _. self.new ≡ self.old) }
    {
        let number = usize::from(shard_of(&item, self.bits));
        let cap = self.accepted.cap() as usize;
        match grown(alloc, store_at(&self.stores, number), cap, item) {
            Ok(Some(store)) => {
                put(&mut self.stores, number, store);
                Ok(true)
            }
            Ok(None) => Ok(false),
            Err(fault) => Err(fault),
        }
    }

    /// How many items it has.
    pub fn count(&self) -> usize
        ensures { result ≡ length self.now.items }
    {
        let _ = self.accepted.cap(); // proof only: the cap is at most 65,536
        total(&self.stores)
    }

    /// The shard of this number, or the directory.
    pub fn which(&self, number: u32) -> Option<Which>
        ensures which { IfSome result (λ w. IsWhich self.now.bits w × (which_number w ≡ number)) }
        ensures none { IfNone result (NoWhich self.now.bits number) }
    {
        if (number as usize) < shard_count(self.bits) {
            return Some(Which::Shard(number as u16));
        }
        if number == DIRECTORY && self.bits > 0 {
            return Some(Which::Directory);
        }
        None
    }

    /// The version of the items of a range in the shard of this number.
    fn shard(&self, alloc: Global, number: u16, range: &Range) -> Result<Version, AllocError>
        requires { number < 2 ^ self.now.bits }
        ensures { IfOk result (λ v. v ≡ shard_in self.now number range.now) }
    {
        let store = store_at(&self.stores, usize::from(number)).part(alloc, range)?;
        let accepted = Arc::try_clone(&self.accepted)?;
        Ok(Version::of(accepted, store))
    }

    /// The version of the directory of the items of a range.
    fn directory(&self, alloc: Global, range: &Range) -> Result<Version, AllocError>
        ensures { IfOk result (λ v. v ≡ directory_in self.now range.now) }
    {
        let _ = self.accepted.cap(); // proof only: the cap is at most 65,536
        let sums = sums_within(alloc, &self.stores, range)?;
        let entries = directory_of(alloc, &sums)?;
        let store = Tree::from_rising(alloc, &entries)?;
        let accepted = Arc::try_clone(&self.accepted)?;
        Ok(Version::of(accepted, store))
    }

    /// The version of one of the two.
    pub fn version(&self, alloc: Global, which: Which, range: &Range) -> Result<Version, AllocError>
        requires { IsWhich self.now.bits which }
        ensures { IfOk result (λ v. v ≡ version_in self.now which range.now) }
    {
        match which {
            Which::Shard(number) => self.shard(alloc, number, range),
            Which::Directory => self.directory(alloc, range),
        }
    }

    /// The selector of one of the two, of the items of a range.
    pub fn selector(
        &self,
        alloc: Global,
        which: Which,
        range: &Range,
    ) -> Result<Vec<u8>, AllocError>
        ensures { IfOk result (λ v. v.items ≡ selector_text self.now.name self.now.bits which range.now) }
    {
        let mut text = Vec::new(alloc);
        push_selector(&mut text, &self.name, self.bits, which, range)?;
        Ok(text)
    }

    /// What a peer's first bytes say.
    pub fn selecting(&self, bytes: &[u8]) -> Selecting
        ensures tests { result ≡ selecting self.now.name self.now.bits bytes.now }
        ensures only { ReadsOnly self.now.name self.now.bits bytes.now result }
    {
        read_selector(bytes, &self.name, self.bits)
    }
}
