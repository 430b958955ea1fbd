//! The directory of a set, and which shards two directories differ in.

ghost use Rattle.std.specs.Prelude.{◌≡◌, ◌+◌, ◌≤◌, ◌^◌, ℕ, List, [], ◌∷◌, ◌++◌, length, map, filter, IfOk, IfErr};
ghost use Rattle.std.specs.Prelude.{OnOk, Some, None, if◌then◌else◌};
ghost use Rattle.std.specs.Option.{option_or};
ghost use Rattle.definitions.specs.Items.{Item as Bytes};
ghost use Rattle.definitions.specs.Sets.{IsSet};
ghost use Rattle.definitions.specs.Theorems.{KnowsDifference};
ghost use Rattle.shard_core.specs.Shards.{max_bits, numbers, directory, entries_differ};
ghost use Rattle.shard_core.specs.Directories.{count_for, first_fault, fault_after, entries_from, sums_of, differing};
ghost use Rattle.shard_core.specs.Directories.{is_told, IsBad, unequal_numbers};
ghost use Rattle.shard_core.specs.Spans.{span_sums, span_directory};

use crate::entry::{BadEntry, entry_of, read_entry};
use crate::fault::DirectoryFault;
use crate::shard::shard_count;
use crate::shard_sum::ShardSum;
use crate::unequal::Unequal;
use item_core::Item;
use std::alloc::{AllocError, Global};

/// The entries of some shards, given what is counted and summed of each in order, from the shard `first` on.
pub fn directory_from(alloc: Global, first: u16, sums: &[ShardSum]) -> Result<Vec<Item>, AllocError>
    requires { first + length sums.now ≤ 4096 }
    ensures entries { IfOk result (λ v. v.items ≡ entries_from first sums.now) }
    ensures span { IfOk result (λ v. (b last : ℕ) (A : List Bytes) → sums.now ≡ span_sums b first last A →
        v.items ≡ span_directory b first last A) }
    ensures set { IfOk result (λ v. IsSet v.items) }
{
    let mut entries = Vec::with_capacity(alloc, sums.len())?;
    for number in 0..sums.len() {
        entries.push(entry_of(first + number as u16, sums[number]))?;
    }
    Ok(entries)
}

/// The directory of a set, given what is counted and summed of each of its shards in order, from 0 on.
pub fn directory_of(alloc: Global, sums: &[ShardSum]) -> Result<Vec<Item>, AllocError>
    requires { length sums.now ≤ 4096 }
    ensures entries { IfOk result (λ v. v.items ≡ entries_from 0 sums.now) }
    ensures directory { IfOk result (λ v. (b : ℕ) (A : List Bytes) → sums.now ≡ sums_of b A → v.items ≡ directory b A) }
    ensures set { IfOk result (λ v. IsSet v.items) }
{
    directory_from(alloc, 0, sums)
}

/// Notes the count of one entry more.
fn note(counts: &mut [Option<u32>], bits: u8, item: &Item) -> Result<(), BadEntry>
    requires low { bits ≤ max_bits }
    requires all { length counts.old ≡ 2 ^ bits }
    ensures noted { (seen : List Bytes) → counts.old ≡ map (count_for seen) (numbers bits) →
        OnOk result (counts.new ≡ map (count_for (seen ++ item.now ∷ [])) (numbers bits)) }
    ensures good { (seen : List Bytes) → counts.old ≡ map (count_for seen) (numbers bits) →
        OnOk result (fault_after bits seen item.now ≡ None) }
    ensures bad { (seen : List Bytes) → counts.old ≡ map (count_for seen) (numbers bits) →
        IfErr result (λ e. fault_after bits seen item.now ≡ Some e) }
{
    let (number, sum) = read_entry(item, bits)?;
    let place = number as usize;
    if counts[place].is_some() {
        return Err(BadEntry::Twice);
    }
    counts[place] = Some(sum.count);
    Ok(())
}

/// How many items the entries say of each shard, from 0 on.
fn counts_of(alloc: Global, bits: u8, items: &[Item]) -> Result<Vec<Option<u32>>, DirectoryFault>
    requires { bits ≤ max_bits }
    ensures counts { IfOk result (λ v. v.items ≡ map (count_for items.now) (numbers bits)) }
    ensures good { OnOk result (first_fault bits items.now ≡ None) }
    ensures bad { IfErr result (λ e. IsBad (first_fault bits items.now) e) }
{
    let mut counts = vec![in alloc; None; shard_count(bits)]?;
    for item in items {
        note(&mut counts, bits, item)?;
    }
    Ok(counts)
}

/// Appends a shard of which one of the two lists tells.
fn push_told(held: &mut Vec<Unequal>, told: Unequal) -> Result<(), AllocError>
    ensures { OnOk result (held.new.items ≡ held.old.items ++ (if is_told told then told ∷ [] else [])) }
{
    if told.ours.is_some() || told.theirs.is_some() {
        held.push(told)?;
    }
    Ok(())
}

/// The shards that have a count in one of the two lists, which are of one length.
fn told(
    alloc: Global,
    ours: &[Option<u32>],
    theirs: &[Option<u32>],
) -> Result<Vec<Unequal>, AllocError>
    requires { (length ours.now ≤ 4096) × (length theirs.now ≡ length ours.now) }
    ensures { (xs ys : List Bytes) (b : ℕ) → ours.now ≡ map (count_for xs) (numbers b) →
        theirs.now ≡ map (count_for ys) (numbers b) → IfOk result (λ v. v.items ≡ differing b xs ys) }
{
    let mut held = Vec::new(alloc);
    for number in 0..ours.len() {
        push_told(
            &mut held,
            Unequal {
                number: number as u16,
                ours: ours[number],
                theirs: theirs[number],
            },
        )?;
    }
    Ok(held)
}

/// The shards whose entries differ, each once, rising. `ours` and `theirs` are what a session over two directories
/// learned, in any order: the entries that the peer lacks, and those that we lack.
pub fn differing(
    alloc: Global,
    bits: u8,
    ours: &[Item],
    theirs: &[Item],
) -> Result<Vec<Unequal>, DirectoryFault>
    requires { bits ≤ max_bits }
    ensures told { IfOk result (λ v. v.items ≡ differing bits ours.now theirs.now) }
    // What was learned of two directories makes exactly the shards whose entries differ.
    ensures exact { IfOk result (λ v. (A B : List Bytes) →
        KnowsDifference (record { ours = ours.now; theirs = theirs.now })
        (directory bits A) (directory bits B) →
        unequal_numbers v.items ≡ filter (entries_differ bits A B) (numbers bits)) }
    ensures good { OnOk result ((first_fault bits ours.now ≡ None) × (first_fault bits theirs.now ≡ None)) }
    ensures bad { IfErr result (λ e. IsBad (option_or (first_fault bits ours.now) (first_fault bits theirs.now)) e) }
{
    let ours = counts_of(alloc, bits, ours)?;
    let theirs = counts_of(alloc, bits, theirs)?;
    Ok(told(alloc, &ours, &theirs)?)
}
