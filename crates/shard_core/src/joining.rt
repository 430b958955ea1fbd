//! The shards of two sets as those of one, and those of a part of a set.

ghost use Rattle.std.specs.Prelude.{◌≡◌, ◌+◌, ◌<◌, ◌≤◌, ◌^◌, ℕ, List, ◌++◌, length, map, IfOk, IfErr, OnOk};
ghost use Rattle.definitions.specs.Items.{Item as Bytes};
ghost use Rattle.definitions.specs.Sets.{set_of};
ghost use Rattle.shard_core.specs.Shards.{max_bits};
ghost use Rattle.shard_core.specs.Splits.{held, HasRoom, IsFull};
ghost use Rattle.shard_core.specs.Floors.{kept_by};
ghost use Rattle.shard_core.specs.Spans.{span_shards, joined_to, AreKept, IsFullFrom};

use crate::dealing::into_sets;
use crate::fault::SplitFault;
use crate::floor::Floor;
use item_core::Item;
use std::alloc::AllocError;

/// Appends items.
fn append_items(items: &mut Vec<Item>, more: &[Item]) -> Result<(), AllocError>
    ensures { OnOk result (items.new.items ≡ items.old.items ++ more.now) }
{
    items.extend_from_slice(more)?;
    Ok(())
}

/// Appends to each list the items of the other one in its place.
fn append_each(lists: &mut [Vec<Item>], more: &[Vec<Item>]) -> Result<(), AllocError>
    requires { length lists.old ≡ length more.now }
    ensures joined { OnOk result (held lists.new ≡ joined_to (length lists.old) (held lists.old) (held more.now)) }
    ensures all { length lists.new ≡ length lists.old }
{
    for place in 0..lists.len() {
        append_items(&mut lists[place], &more[place])?;
    }
    Ok(())
}

/// The lists, each with the items of the other one in its place.
fn joined(lists: Vec<Vec<Item>>, more: &[Vec<Item>]) -> Result<Vec<Vec<Item>>, AllocError>
    requires { length lists.items ≡ length more.now }
    ensures joined { IfOk result (λ v. held v.items
        ≡ joined_to (length lists.items) (held lists.items) (held more.now)) }
    ensures all { IfOk result (λ v. length v.items ≡ length lists.items) }
{
    let mut all = lists;
    append_each(&mut all, more)?;
    Ok(all)
}

/// The fault of a list whose place in all lists was told, of lists that begin with the shard of this number.
fn counted_from(fault: SplitFault, first: u16) -> SplitFault
    ensures { (cap : ℕ) (Xs : List (List Bytes)) → first + length Xs ≤ 4096 → IsFull cap Xs fault →
        IsFullFrom first cap Xs result }
{
    match fault {
        SplitFault::TooManyItems { shard } => SplitFault::TooManyItems {
            shard: shard.saturating_add(first),
        },
        SplitFault::Memory => SplitFault::Memory,
    }
}

/// The shards of the set of the items of both, whose lists are of the same shards, from `first` on: each item once,
/// if no shard has more different items than the cap. Otherwise the first that has.
pub fn join_shards(
    lists: Vec<Vec<Item>>,
    more: &[Vec<Item>],
    first: u16,
    cap: usize,
) -> Result<Vec<Vec<Item>>, SplitFault>
    requires spans { (b last : ℕ) × (b ≤ max_bits) × (first ≤ last) × (last < 2 ^ b)
        × AreKept b first last cap (held lists.items) × AreKept b first last cap (held more.now) }
    ensures joined { (b last : ℕ) (A B : List Bytes) → held lists.items ≡ span_shards b first last A →
        held more.now ≡ span_shards b first last B →
        IfOk result (λ v. held v.items ≡ span_shards b first last (set_of (A ++ B))) }
    ensures room { IfOk result (λ v. HasRoom cap (held v.items)) }
    ensures kept { (b last : ℕ) → AreKept b first last cap (held lists.items) →
        AreKept b first last cap (held more.now) →
        IfOk result (λ v. AreKept b first last cap (held v.items)) }
    ensures many { (b last : ℕ) (A B : List Bytes) → held lists.items ≡ span_shards b first last A →
        held more.now ≡ span_shards b first last B →
        IfErr result (λ e. IsFullFrom first cap (span_shards b first last (set_of (A ++ B))) e) }
{
    match into_sets(joined(lists, more)?, cap) {
        Ok(sets) => Ok(sets),
        Err(fault) => Err(counted_from(fault, first)),
    }
}

/// Keeps the items that the floor keeps.
fn keep_within(items: &mut Vec<Item>, floor: &Floor)
    ensures { items.new.items ≡ kept_by floor.now items.old.items }
{
    items.retain(|item| floor.keeps(item));
}

/// Keeps of each list the items that the floor keeps.
fn keep_each_within(lists: &mut [Vec<Item>], floor: &Floor)
    ensures within { held lists.new ≡ map (kept_by floor.now) (held lists.old) }
    ensures all { length lists.new ≡ length lists.old }
{
    for place in 0..lists.len() {
        keep_within(&mut lists[place], floor);
    }
}

/// The lists, of each the items that the floor keeps.
fn each_within(lists: Vec<Vec<Item>>, floor: &Floor) -> Vec<Vec<Item>>
    ensures { held result.items ≡ map (kept_by floor.now) (held lists.items) }
{
    let mut all = lists;
    keep_each_within(&mut all, floor);
    all
}

/// The shards of the items of a set that the floor keeps.
pub fn shards_within(lists: Vec<Vec<Item>>, floor: &Floor) -> Vec<Vec<Item>>
    ensures shards { (b first last : ℕ) (A : List Bytes) → held lists.items ≡ span_shards b first last A →
        held result.items ≡ span_shards b first last (kept_by floor.now A) }
    ensures kept { (b first last cap : ℕ) → AreKept b first last cap (held lists.items) →
        AreKept b first last cap (held result.items) }
{
    each_within(lists, floor)
}
