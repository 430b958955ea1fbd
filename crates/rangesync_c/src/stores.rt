//! The stores of the shards of a set.

ghost use Rattle.std.specs.Prelude.{◌≡◌, ◌<◌, ◌≤◌, ◌⊎◌, [], length, map, get_or, set, replicate, true, false};
ghost use Rattle.std.specs.Prelude.{IfOk, IfErr, IfSome, IfNone, ℕ};
ghost use Rattle.std.specs.List.{AllByRecursion};
ghost use Rattle.definitions.specs.Sets.{IsSet, has, add_item, set_of, items_in};
ghost use Rattle.range_tree.specs.Trees.{tree_items};
ghost use Rattle.shard_core.specs.Shards.{max_bits, max_count, shards};
ghost use Rattle.shard_core.specs.Splits.{held, HasRoom, IsAbove};
ghost use Rattle.shard_core.specs.Directories.{sum_of};
ghost use Rattle.rangesync_c.specs.Trees.{held_in, sizes};
ghost use Rattle.rangesync_c.specs.declared.fault.EmbeddedFault.TheVariants as faults;

use crate::fault::EmbeddedFault;
use item_core::{Item, Range};
use range_tree::Tree;
use shard_core::{ShardSum, split};
use std::alloc::{AllocError, Global};
use store_core::{Insertion, RangeStore};

/// So many stores of no items.
pub(crate) fn empty_stores(alloc: Global, count: usize) -> Result<Vec<Tree>, AllocError>
    ensures none { IfOk result (λ v. held_in v.items ≡ replicate count []) }
    ensures all { IfOk result (λ v. length v.items ≡ count) }
{
    let mut stores = Vec::with_capacity(alloc, count)?;
    for made in 0..count {
        stores.push(Tree::empty(alloc))?;
    }
    Ok(stores)
}

/// A store of each list.
fn stores_of(alloc: Global, lists: &[Vec<Item>]) -> Result<Vec<Tree>, AllocError>
    requires { AllByRecursion IsSet (held lists.now) }
    ensures { IfOk result (λ v. held_in v.items ≡ held lists.now) }
{
    let mut stores = Vec::with_capacity(alloc, lists.len())?;
    for list in lists {
        stores.push(Tree::from_rising(alloc, list)?)?;
    }
    Ok(stores)
}

/// The stores of all 2 to the power of `bits` shards of these items. Fails with 82 where a shard has more different
/// items than the cap, and with 90.
pub(crate) fn dealt_stores(
    alloc: Global,
    bits: u8,
    items: &[Item],
    cap: usize,
) -> Result<Vec<Tree>, EmbeddedFault>
    requires { bits ≤ max_bits }
    ensures stores { IfOk result (λ v. held_in v.items ≡ shards bits (set_of items.now)) }
    ensures room { IfOk result (λ v. HasRoom cap (held_in v.items)) }
    ensures either { IfErr result (λ f. (f ≡ faults.TooManyItems) ⊎ (f ≡ faults.Memory)) }
    ensures many { IfErr result (λ f. f ≡ faults.TooManyItems →
        (n : ℕ) × IsAbove cap (shards bits (set_of items.now)) n) }
{
    let lists = split(alloc, bits, items, cap)?;
    Ok(stores_of(alloc, &lists)?)
}

/// The store of a number.
pub(crate) fn store_at(stores: &[Tree], number: usize) -> &Tree
    requires { number < length stores.now }
    ensures { tree_items result.now ≡ get_or (held_in stores.now) number [] }
{
    &stores[number]
}

/// A store with an item more, or none if the item is there. Fails with 40 where it is new and there are as many items
/// as the cap, and with 90.
pub(crate) fn grown(
    alloc: Global,
    store: &Tree,
    cap: usize,
    item: Item,
) -> Result<Option<Tree>, EmbeddedFault>
    ensures grown { IfOk result (λ found. IfSome found (λ t. tree_items t ≡ add_item (tree_items store.now) item)) }
    ensures new { IfOk result (λ found. IfSome found (λ _. has (tree_items store.now) item ≡ false)) }
    ensures room { IfOk result (λ found. IfSome found (λ _. length (tree_items store.now) < cap)) }
    ensures there { IfOk result (λ found. IfNone found (has (tree_items store.now) item ≡ true)) }
    ensures lacked { IfErr result (λ _. has (tree_items store.now) item ≡ false) }
    ensures full { IfErr result (λ f. f ≡ faults.Full → cap ≤ length (tree_items store.now)) }
    ensures memory { IfErr result (λ f. f ≡ faults.Memory → length (tree_items store.now) < cap) }
    ensures either { IfErr result (λ f. (f ≡ faults.Full) ⊎ (f ≡ faults.Memory)) }
{
    if store.has(&item) {
        return Ok(None);
    }
    if store.len() >= cap {
        return Err(EmbeddedFault::Full);
    }
    match store.with(alloc, item) {
        Ok(Insertion::New(more)) => Ok(Some(more)),
        Ok(Insertion::Already) => Ok(None),
        Err(_) => Err(EmbeddedFault::Memory),
    }
}

/// Puts a store in the place of another.
pub(crate) fn put(stores: &mut Vec<Tree>, number: usize, store: Tree)
    requires { number < length stores.old.items }
    ensures { stores.new.items ≡ set stores.old.items number store }
{
    stores[number] = store;
}

/// How many items all stores have.
pub(crate) fn total(stores: &[Tree]) -> usize
    requires room { HasRoom max_count (held_in stores.now) }
    requires few { length stores.now ≤ 4096 }
    ensures { result ≡ sizes (held_in stores.now) }
{
    let mut count = 0;
    for store in stores {
        count += store.len();
    }
    count
}

/// What is counted and summed of the items of a range in each store.
pub(crate) fn sums_within(
    alloc: Global,
    stores: &[Tree],
    range: &Range,
) -> Result<Vec<ShardSum>, AllocError>
    requires { HasRoom max_count (held_in stores.now) }
    ensures { IfOk result (λ v. v.items ≡ map (λ X. sum_of (items_in X range.now)) (held_in stores.now)) }
{
    let mut sums = Vec::with_capacity(alloc, stores.len())?;
    for store in stores {
        sums.push(ShardSum::within(store, range))?;
    }
    Ok(sums)
}
