//! Some shards of a set, from one number to another.

ghost use Rattle.std.specs.Prelude.{◌≡◌, ◌+◌, ◌<◌, ◌≤◌, ◌^◌, ℕ, List, [], ◌∷◌, ◌++◌, length, take, drop, map, IfOk, IfErr};
ghost use Rattle.std.specs.Prelude.{OnOk};
ghost use Rattle.definitions.specs.Items.{Item as Bytes};
ghost use Rattle.definitions.specs.Sets.{set_of};
ghost use Rattle.shard_core.specs.Shards.{max_bits, shard_number, shards};
ghost use Rattle.shard_core.specs.Splits.{held, HasRoom, IsFull};
ghost use Rattle.shard_core.specs.Spans.{kept, span_shards, Holds, AreKept};

use crate::dealing::{deal_one, into_sets};
use crate::fault::SplitFault;
use item_core::Item;
use std::alloc::AllocError;

/// The lists of these shards, of the lists of all shards. The others are let go.
fn keep_span(lists: Vec<Vec<Item>>, first: u16, last: u16) -> Result<Vec<Vec<Item>>, AllocError>
    requires { (first ≤ last) × (last < length lists.items) }
    ensures span { IfOk result (λ v. held v.items ≡ drop first (take (last + 1) (held lists.items))) }
    // What was in other shards does not matter.
    ensures shards { (b : ℕ) (A : List Bytes) → last < 2 ^ b → held lists.items ≡ shards b (kept b first last A) →
        IfOk result (λ v. held v.items ≡ span_shards b first last A) }
    ensures room { (cap : ℕ) → HasRoom cap (held lists.items) → IfOk result (λ v. HasRoom cap (held v.items)) }
{
    let mut lists = lists;
    lists.truncate(last as usize + 1);
    lists.split_off(first as usize)
}

/// Some shards of a set that is cut into 2 to the power of `bits`: those from `first` to `last`.
#[derive(Clone, Copy, Debug, PartialEq, Eq)]
pub struct ShardSpan {
    /// The number of bits.
    pub bits: u8,
    /// The number of the first of these shards.
    pub first: u16,
    /// The number of the last one.
    pub last: u16,
}

/// Appends an item to the list of its shard, which has this number, if that is one of these shards.
#[tactic(auto, using(crate::proofs::Numbers::number_below))]
fn deal_kept(
    lists: &mut [Vec<Item>],
    span: ShardSpan,
    number: u16,
    item: Item,
) -> Result<(), AllocError>
    requires low { span.bits ≤ max_bits }
    requires all { length lists.old ≡ 2 ^ span.bits }
    requires number { number ≡ shard_number span.bits item }
    ensures dealt { (dealt : List Bytes) → held lists.old ≡ shards span.bits dealt →
        OnOk result (held lists.new ≡ shards span.bits (dealt ++ kept span.bits span.first span.last (item ∷ []))) }
    ensures all { length lists.new ≡ length lists.old }
{
    if number < span.first {
        return Ok(());
    }
    if number > span.last {
        return Ok(());
    }
    deal_one(lists, number as usize, item)
}

/// Appends each of these items to the list of its shard, whose number is in the same place.
fn deal_each(
    lists: &mut [Vec<Item>],
    span: ShardSpan,
    items: &[Item],
    numbers: &[u16],
) -> Result<(), AllocError>
    requires low { span.bits ≤ max_bits }
    requires all { length lists.old ≡ 2 ^ span.bits }
    requires numbers { numbers.now ≡ map (shard_number span.bits) items.now }
    ensures dealt { (dealt : List Bytes) → held lists.old ≡ shards span.bits dealt →
        OnOk result (held lists.new ≡ shards span.bits (dealt ++ kept span.bits span.first span.last items.now)) }
    ensures all { length lists.new ≡ length lists.old }
{
    for place in 0..items.len() {
        deal_kept(lists, span, numbers[place], items[place])?;
    }
    Ok(())
}

/// Appends each of these items to the list of its shard, of the lists of all shards, if that is one of these; the
/// others are let go. The numbers of their shards are in the same places. In the clauses the lists have the items of xs
/// that are in these shards.
///
/// Fails only if memory runs out.
pub fn deal_span(
    lists: &mut Vec<Vec<Item>>,
    span: ShardSpan,
    items: &[Item],
    numbers: &[u16],
) -> Result<(), AllocError>
    requires low { span.bits ≤ max_bits }
    requires all { length lists.old.items ≡ 2 ^ span.bits }
    requires numbers { numbers.now ≡ map (shard_number span.bits) items.now }
    ensures dealt { (xs : List Bytes) → Holds span.bits span.first span.last lists.old.items xs →
        OnOk result (Holds span.bits span.first span.last lists.new.items (xs ++ items.now)) }
    ensures all { length lists.new.items ≡ 2 ^ span.bits }
{
    deal_each(lists, span, items, numbers)
}

/// The sets of the shards from `first` to `last`, of the lists of all shards, if none of them has more items than the
/// cap. Otherwise the first that has. In the clauses these lists have the items of xs that are in these shards.
pub fn into_span(
    lists: Vec<Vec<Item>>,
    first: u16,
    last: u16,
    cap: usize,
) -> Result<Vec<Vec<Item>>, SplitFault>
    requires few { length lists.items ≤ 4096 }
    requires span { (first ≤ last) × (last < length lists.items) }
    ensures shards { (b : ℕ) (xs : List Bytes) → length lists.items ≡ 2 ^ b → Holds b first last lists.items xs →
        IfOk result (λ v. held v.items ≡ span_shards b first last (set_of xs)) }
    ensures room { IfOk result (λ v. HasRoom cap (held v.items)) }
    ensures kept { (b : ℕ) (xs : List Bytes) → length lists.items ≡ 2 ^ b → Holds b first last lists.items xs →
        IfOk result (λ v. AreKept b first last cap (held v.items)) }
    ensures many { (b : ℕ) (xs : List Bytes) → Holds b first last lists.items xs →
        IfErr result (λ e. IsFull cap (shards b (kept b first last (set_of xs))) e) }
{
    let sets = into_sets(lists, cap)?;
    Ok(keep_span(sets, first, last)?)
}
