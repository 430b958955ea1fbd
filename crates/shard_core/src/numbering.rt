//! The shards of many items at once, and lists that become sets, by up to four threads.

ghost use Rattle.std.specs.Prelude.{◌≡◌, ◌<◌, ◌≤◌, ℕ, List, length, map, slice_index_or, IfOk};
ghost use Rattle.definitions.specs.Items.{Item as Bytes};
ghost use Rattle.definitions.specs.Sets.{set_of};
ghost use Rattle.shard_core.specs.Shards.{max_bits, shard_number};
ghost use Rattle.shard_core.specs.Splits.{held};
ghost use Rattle.shard_core.specs.Spans.{Holds};

use crate::shard::shard_of;
use item_core::Item;
use std::alloc::{AllocError, Global};
use std::thread::{Threads, for_each_mut};

/// Fewer items than this are hashed and sorted by one thread.
const FEW: usize = 1_024;

/// How many threads there are for so many items.
fn threads_for(items: usize) -> usize
    ensures { 0 < result }
{
    if items < FEW { 1 } else { 4 }
}

/// Puts the number of each item's shard into the same place.
fn number_each<R: Threads + Sync>(rt: &R, numbers: &mut [u16], bits: u8, items: &[Item])
    requires low { bits ≤ max_bits }
    requires all { length numbers.old ≡ length items.now }
    ensures { numbers.new ≡ map (shard_number bits) items.now }
{
    let threads = threads_for(items.len());
    for_each_mut(
        rt,
        numbers,
        threads,
        &|place, number| {
            *number = shard_of(&items[place], bits);
        },
    );
}

/// The number of each item's shard among 2 to the power of `bits`. Each item is hashed once.
pub fn shards_of<R: Threads + Sync>(
    rt: &R,
    alloc: Global,
    bits: u8,
    items: &[Item],
) -> Result<Vec<u16>, AllocError>
    requires { bits ≤ max_bits }
    ensures { IfOk result (λ v. v.items ≡ map (shard_number bits) items.now) }
{
    let mut numbers = vec![in alloc; 0u16; items.len()]?;
    number_each(rt, &mut numbers, bits, items);
    Ok(numbers)
}

/// Puts the items of a list in rising order, each once.
fn make_rise(items: &mut Vec<Item>)
    ensures { items.new.items ≡ set_of items.old.items }
{
    items.sort_unstable();
    items.dedup();
}

/// How many items all lists have.
fn count_in(lists: &[Vec<Item>]) -> usize {
    let mut count: usize = 0;
    for list in lists {
        count = count.saturating_add(list.len());
    }
    count
}

/// Makes each list a set.
fn each_rises<R: Threads + Sync>(rt: &R, lists: &mut [Vec<Item>])
    ensures sets { (k : ℕ) (d : _) → k < length lists.old →
        (slice_index_or lists.new k d).items ≡ set_of (slice_index_or lists.old k d).items }
    ensures all { length lists.new ≡ length lists.old }
{
    let threads = threads_for(count_in(lists));
    for_each_mut(rt, lists, threads, &|_, items| make_rise(items));
}

/// The set of each list's items. In the clauses the lists have the items of xs that are in these shards.
pub fn rising_lists<R: Threads + Sync>(rt: &R, lists: Vec<Vec<Item>>) -> Vec<Vec<Item>>
    ensures sets { held result.items ≡ map set_of (held lists.items) }
    ensures all { length result.items ≡ length lists.items }
    ensures holds { (b first last : ℕ) (xs : List Bytes) → Holds b first last lists.items xs →
        Holds b first last result.items xs }
{
    let mut sets = lists;
    each_rises(rt, &mut sets);
    sets
}
