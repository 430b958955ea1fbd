//! The items of a list, dealt to their shards.

ghost use Rattle.std.specs.Prelude.{◌≡◌, ◌≢◌, ◌<◌, ◌≤◌, ◌^◌, ℕ, List, [], ◌∷◌, ◌++◌, length, map, replicate, IfOk};
ghost use Rattle.std.specs.Prelude.{IfErr};
ghost use Rattle.std.specs.Prelude.{OnOk, set, get_or};
ghost use Rattle.std.specs.List.{AllByRecursion};
ghost use Rattle.definitions.specs.Items.{Item as Bytes};
ghost use Rattle.definitions.specs.Sets.{IsSet, set_of};
ghost use Rattle.shard_core.specs.Shards.{max_bits, numbers, shard, shards};
ghost use Rattle.shard_core.specs.Splits.{held, HasRoom, IsFull};
ghost use Rattle.shard_core.specs.Spans.{Holds};

use crate::fault::SplitFault;
use crate::shard::{shard_count, shard_of};
use item_core::Item;
use std::alloc::{AllocError, Global};

/// Adds an item to one of the lists.
pub(crate) fn deal_one(lists: &mut [Vec<Item>], number: usize, item: Item) -> Result<(), AllocError>
    requires { number < length lists.old }
    ensures dealt { OnOk result (held lists.new
        ≡ set (held lists.old) number (get_or (held lists.old) number [] ++ item ∷ [])) }
    ensures all { length lists.new ≡ length lists.old }
{
    lists[number].push(item)?;
    Ok(())
}

/// So many empty lists.
fn empty_lists(alloc: Global, count: usize) -> Result<Vec<Vec<Item>>, AllocError>
    ensures none { IfOk result (λ v. held v.items ≡ replicate count []) }
    ensures all { IfOk result (λ v. length v.items ≡ count) }
{
    let mut lists = Vec::with_capacity(alloc, count)?;
    for made in 0..count {
        lists.push(Vec::new(alloc))?;
    }
    Ok(lists)
}

/// The lists of all 2 to the power of `bits` shards, before any item was dealt.
pub fn none_dealt(alloc: Global, bits: u8) -> Result<Vec<Vec<Item>>, AllocError>
    requires { bits ≤ max_bits }
    ensures none { IfOk result (λ v. held v.items ≡ shards bits []) }
    ensures holds { IfOk result (λ v. (first last : ℕ) → Holds bits first last v.items []) }
    ensures all { IfOk result (λ v. length v.items ≡ 2 ^ bits) }
{
    empty_lists(alloc, shard_count(bits))
}

/// Appends each of these items to the list of its shard. The lists have the items that were dealt before.
fn deal(lists: &mut Vec<Vec<Item>>, bits: u8, items: &[Item]) -> Result<(), AllocError>
    requires low { bits ≤ max_bits }
    requires all { length lists.old.items ≡ 2 ^ bits }
    ensures dealt { (dealt : List Bytes) → held lists.old.items ≡ shards bits dealt →
        OnOk result (held lists.new.items ≡ shards bits (dealt ++ items.now)) }
    ensures all { length lists.new.items ≡ 2 ^ bits }
{
    for item in items {
        deal_one(lists, shard_of(item, bits) as usize, *item)?;
    }
    Ok(())
}

/// Puts the items of a shard in rising order, each once, and sees that there is room for them.
fn make_set(items: &mut Vec<Item>, number: usize, cap: usize) -> Result<(), SplitFault>
    requires { number < 4096 }
    ensures set { items.new.items ≡ set_of items.old.items }
    ensures room { OnOk result (length items.new.items ≤ cap) }
    ensures many { IfErr result (λ e. (e ≡ SplitFault.TooManyItems number) × (cap < length items.new.items)) }
{
    items.sort_unstable();
    items.dedup();
    if items.len() > cap {
        return Err(SplitFault::TooManyItems {
            shard: number as u16,
        });
    }
    Ok(())
}

/// Makes each list a set, if each has room.
fn make_sets(lists: &mut [Vec<Item>], cap: usize) -> Result<(), SplitFault>
    requires { length lists.old ≤ 4096 }
    ensures sets { OnOk result (held lists.new ≡ map set_of (held lists.old)) }
    ensures room { OnOk result (HasRoom cap (held lists.new)) }
    ensures all { length lists.new ≡ length lists.old }
    ensures many { IfErr result (λ e. IsFull cap (map set_of (held lists.old)) e) }
{
    for number in 0..lists.len() {
        make_set(&mut lists[number], number, cap)?;
    }
    Ok(())
}

/// The set of each list's items, each item once, if no set has more items than the cap. Otherwise the first that has.
/// In the clauses the lists have what was dealt to b bits' shards.
pub(crate) fn into_sets(lists: Vec<Vec<Item>>, cap: usize) -> Result<Vec<Vec<Item>>, SplitFault>
    requires { length lists.items ≤ 4096 }
    ensures sets { IfOk result (λ v. held v.items ≡ map set_of (held lists.items)) }
    ensures all { IfOk result (λ v. length v.items ≡ length lists.items) }
    ensures full { IfErr result (λ e. IsFull cap (map set_of (held lists.items)) e) }
    ensures shards { (b : ℕ) (dealt : List Bytes) → held lists.items ≡ shards b dealt →
        IfOk result (λ v. held v.items ≡ shards b (set_of dealt)) }
    ensures room { IfOk result (λ v. HasRoom cap (held v.items)) }
    ensures many { (b : ℕ) (dealt : List Bytes) → held lists.items ≡ shards b dealt →
        IfErr result (λ e. IsFull cap (shards b (set_of dealt)) e) }
{
    let mut sets = lists;
    make_sets(&mut sets, cap)?;
    Ok(sets)
}

/// The sets of all 2 to the power of `bits` shards of these items, each item once, if no shard has more different items
/// than the cap. Otherwise the first that has.
pub fn split(
    alloc: Global,
    bits: u8,
    items: &[Item],
    cap: usize,
) -> Result<Vec<Vec<Item>>, SplitFault>
    requires { bits ≤ max_bits }
    ensures shards { IfOk result (λ v. held v.items ≡ shards bits (set_of items.now)) }
    ensures sets { IfOk result (λ v. AllByRecursion IsSet (held v.items)) }
    ensures room { IfOk result (λ v. HasRoom cap (held v.items)) }
    ensures many { IfErr result (λ e. IsFull cap (shards bits (set_of items.now)) e) }
{
    let mut lists = none_dealt(alloc, bits)?;
    deal(&mut lists, bits, items)?;
    into_sets(lists, cap)
}
