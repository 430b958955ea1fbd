ghost use Rattle.std.specs.Prelude.{◌≡◌, ◌≤◌, length};
ghost use Rattle.definitions.specs.Sets.{items_in};
ghost use Rattle.shard_core.specs.Shards.{max_count};
ghost use Rattle.shard_core.specs.Directories.{sum_of};

use digest_core::Fingerprint;
use item_core::Range;
use store_core::RangeStore;

/// The most items that a shard may have.
pub const MAX_COUNT: u32 = 65_536;

/// How many items a shard has, and their fingerprint.
#[derive(Clone, Copy, Debug, PartialEq, Eq)]
pub struct ShardSum {
    /// The number of items.
    pub count: u32,
    /// The two-lane fingerprint of the items.
    pub fingerprint: Fingerprint,
}

impl ShardSum {
    /// What is counted and summed of a store of at most 65,536 items.
    pub fn of<S: RangeStore>(store: &S) -> ShardSum
        requires { length (S.content store.now) ≤ max_count }
        ensures { result ≡ sum_of (S.content store.now) }
    {
        ShardSum::within(store, &Range::whole())
    }

    /// What is counted and summed of the items of a range, of a store of at most 65,536 items.
    pub fn within<S: RangeStore>(store: &S, range: &Range) -> ShardSum
        requires { length (S.content store.now) ≤ max_count }
        ensures { result ≡ sum_of (items_in (S.content store.now) range.now) }
    {
        let (count, fingerprint) = store.count_and_sum(range);
        ShardSum {
            count: count as u32,
            fingerprint,
        }
    }
}
