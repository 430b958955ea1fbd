//! Laws of shards. A caller that needs one calls the function, which does nothing.

ghost use Rattle.std.specs.Prelude.{◌≡◌, ◌<◌, ◌≤◌, ◌^◌, ◌&&◌, ◌==◌, ℕ, List, flat_map};
ghost use Rattle.definitions.specs.Items.{Item};
ghost use Rattle.definitions.specs.Sets.{IsSet, has, set_of};
ghost use Rattle.shard_core.specs.Shards.{max_bits, shard_number, shard, shards, directory};

/// Each item is in one shard, that of its number; so a set is the disjoint union of its shards, which are sets.
pub fn shards_make_the_set()
    ensures within { (b : ℕ) (x : Item) → b ≤ max_bits → shard_number b x < 2 ^ b }
    ensures has { (b s : ℕ) (A : List Item) (x : Item) →
        has (shard b A s) x ≡ ((shard_number b x == s) && has A x) }
    ensures sets { (b s : ℕ) (A : List Item) → IsSet A → IsSet (shard b A s) }
    ensures union { (b : ℕ) (A : List Item) → b ≤ max_bits → IsSet A → set_of (flat_map (λ X. X) (shards b A)) ≡ A }
{}
