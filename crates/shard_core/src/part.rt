//! What sessions over shards learned, merged.

ghost use Rattle.std.specs.Prelude.{◌≡◌, ◌≤◌, ℕ, List, IfOk, flat_map};
ghost use Rattle.definitions.specs.Items.{Item as Bytes};
ghost use Rattle.definitions.specs.Sets.{IsSet, set_of, difference};
ghost use Rattle.definitions.specs.Theorems.{KnowsNothingWrong};
ghost use Rattle.shard_core.specs.Shards.{max_bits};
ghost use Rattle.shard_core.specs.Parts.{ours_of, theirs_of, asked_of, merged_knowledge};
ghost use Rattle.shard_core.specs.Parts.{KnowsShards, KnowsNoWrong, NoClash, Covers};

use item_core::Item;
use std::alloc::{AllocError, Global};
use store_core::spans;

/// What a session over one shard learned.
#[derive(Debug, Drop)]
pub struct ShardPart {
    /// The shard's number.
    pub number: u16,
    /// Own items that the peer lacks.
    pub ours: Vec<Item>,
    /// The peer's items that we lack.
    pub theirs: Vec<Item>,
}

/// What the sessions over all shards learned.
#[derive(Debug, Drop)]
pub struct Merged {
    /// Own items that the peer lacks, in rising order.
    pub ours: Vec<Item>,
    /// The peer's items that we lack, in rising order.
    pub theirs: Vec<Item>,
}

/// The items of ours of all parts.
fn all_ours(alloc: Global, parts: &[ShardPart]) -> Result<Vec<Item>, AllocError>
    ensures { IfOk result (λ v. v.items ≡ flat_map ours_of parts.now) }
{
    let mut all = Vec::new(alloc);
    for part in parts {
        all.extend_from_slice(&part.ours)?;
    }
    Ok(all)
}

/// The items of theirs of all parts.
fn all_theirs(alloc: Global, parts: &[ShardPart]) -> Result<Vec<Item>, AllocError>
    ensures { IfOk result (λ v. v.items ≡ flat_map theirs_of parts.now) }
{
    let mut all = Vec::new(alloc);
    for part in parts {
        all.extend_from_slice(&part.theirs)?;
    }
    Ok(all)
}

/// The parts, each list in rising order with each item once.
fn gathered(alloc: Global, parts: &[ShardPart]) -> Result<Merged, AllocError>
    ensures ours { IfOk result (λ m. m.ours.items ≡ set_of (flat_map ours_of parts.now)) }
    ensures theirs { IfOk result (λ m. m.theirs.items ≡ set_of (flat_map theirs_of parts.now)) }
{
    let ours = spans::distinct(all_ours(alloc, parts)?);
    let theirs = spans::distinct(all_theirs(alloc, parts)?);
    Ok(Merged { ours, theirs })
}

/// The differences of two sets, from what the sessions over their shards learned. In the clauses b is the number of
/// bits, A our set and B the peer's.
pub fn merge(alloc: Global, parts: &[ShardPart]) -> Result<Merged, AllocError>
    ensures ours { IfOk result (λ m. m.ours.items ≡ set_of (flat_map ours_of parts.now)) }
    ensures theirs { IfOk result (λ m. m.theirs.items ≡ set_of (flat_map theirs_of parts.now)) }
    ensures rises { IfOk result (λ m. IsSet m.ours.items × IsSet m.theirs.items) }
    // Whether or not fingerprints clash, and whichever shards were asked, nothing wrong is learned.
    ensures nothing_wrong { IfOk result (λ m. (b : ℕ) (A B : List Bytes) → KnowsNoWrong b A B parts.now →
        KnowsNothingWrong (merged_knowledge m) A B) }
    // Of the shards that were asked, all is learned.
    ensures asked { IfOk result (λ m. (b : ℕ) (A B : List Bytes) → IsSet A → IsSet B → KnowsShards b A B parts.now →
        (m.ours.items ≡ asked_of b parts.now (difference A B))
        × (m.theirs.items ≡ asked_of b parts.now (difference B A))) }
    // Where each shard with different entries was asked, and no unequal shards have equal entries, all is.
    ensures adds_up { IfOk result (λ m. (b : ℕ) (A B : List Bytes) → b ≤ max_bits → IsSet A → IsSet B →
        KnowsShards b A B parts.now → NoClash b A B → Covers b A B parts.now →
        (m.ours.items ≡ difference A B) × (m.theirs.items ≡ difference B A)) }
{
    gathered(alloc, parts)
}
