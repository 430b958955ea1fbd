//! Some shards of a set, from one number on, each with its log.

ghost use Rattle.std.specs.Prelude.{◌≡◌, ◌+◌, ◌-◌, ◌<◌, ◌≤◌, ◌^◌, ℕ, List, [], ◌∷◌, length, map, sum, IfOk};
ghost use Rattle.std.specs.List.{range_with_len};
ghost use Rattle.std.specs.Thread.{IsSync};
ghost use Rattle.definitions.specs.Items.{Item as Bytes};
ghost use Rattle.definitions.specs.Sets.{IsSet};
ghost use Rattle.definitions.specs.Histories.{content};
ghost use Rattle.version_log.specs.Logs.{IsCap};
ghost use Rattle.shard_core.specs.Shards.{max_bits};
ghost use Rattle.shard_core.specs.Directories.{sum_of, entries_from};
ghost use Rattle.shard_core.specs.Splits.{held};
ghost use Rattle.shard_core.specs.Spans.{span_shards, span_directory, AreKept};
ghost use Rattle.loading.specs.Sharded.{HaveCap, opened_all, contents};

use crate::logs::{Opening, logs_by};
use item_core::Item;
use range_tree::Tree;
use shard_core::{ShardSum, directory_from, shard_count};
use std::alloc::{AllocError, Global};
use std::marker::Model;
use std::thread::Threads;
use version_log::Log;

/// Some shards of a set, whose numbers follow one another, each with its log.
#[derive(Drop)]
pub struct ShardedSet {
    bits: u8,
    first: u16,
    cap: u32,
    logs: Vec<Log<Tree>>,
}

impl Model for ShardedSet {
    ghost use Rattle.std.specs.Prelude.{◌+◌, ◌<◌, ◌≤◌, ◌^◌, length};
    ghost use Rattle.shard_core.specs.Shards.{max_bits};
    ghost use Rattle.loading.specs.Sharded.{Sharded, HaveCap};

    ghost Value = { Sharded };

    ghost view = { λ a. record { bits = a.bits; first = a.first; cap = a.cap; logs = a.logs.items } };

    ghost invariant = { λ a. (a.bits ≤ max_bits) × (0 < length a.logs.items)
        × (a.first + length a.logs.items ≤ 2 ^ a.bits) × HaveCap a.cap a.logs.items };
}

/// What is counted and summed of the items of a log.
fn sum_in(log: &Log<Tree>) -> ShardSum
    ensures { result ≡ sum_of (content log.now.history) }
{
    let _cap = log.cap(); // proof only: there are at most 65,536 items
    let _count = log.count(); // proof only: as many items as entries
    ShardSum::of(log.store())
}

/// What is counted and summed of each log.
fn sums_of(alloc: Global, logs: &[Log<Tree>]) -> Result<Vec<ShardSum>, AllocError>
    ensures sums { IfOk result (λ v. v.items ≡ map sum_of (contents logs.now)) }
    ensures count { IfOk result (λ v. length v.items ≡ length logs.now) }
{
    let mut sums = Vec::with_capacity(alloc, logs.len())?;
    for log in logs {
        sums.push(sum_in(log))?;
    }
    Ok(sums)
}

impl ShardedSet {
    /// The shards from `first` on of a set that is cut into 2 to the power of `bits`, of at most `cap` items each. They
    /// are hashed by up to four threads, and each list is let go as soon as its log is there.
    pub fn of<R: Threads + Sync>(
        rt: &R,
        alloc: Global,
        bits: u8,
        first: u16,
        cap: u32,
        shards: Vec<Vec<Item>>,
    ) -> Result<ShardedSet, AllocError>
        requires low { bits ≤ max_bits }
        requires cap { IsCap cap }
        requires shards { (last : ℕ) × (first ≤ last) × (last < 2 ^ bits)
            × AreKept bits first last cap (held shards.items) }
        ensures set { IfOk result (λ s. s
            ≡ record { bits = bits; first = first; cap = cap; logs = opened_all cap (held shards.items) }) }
        ensures contents { IfOk result (λ s. contents s.logs ≡ held shards.items) }
    {
        shard_core::shard_laws::shards_make_the_set();
        let logs = logs_by(rt, alloc, Opening { cap }, shards, 2)?;
        Ok(ShardedSet {
            bits,
            first,
            cap,
            logs,
        })
    }

    /// A set that is not cut, with this log.
    pub fn whole(alloc: Global, log: Log<Tree>) -> Result<ShardedSet, AllocError>
        ensures { IfOk result (λ s. s ≡ record { bits = 0; first = 0; cap = log.cap; logs = log ∷ [] }) }
    {
        let cap = log.cap();
        let mut logs = Vec::with_capacity(alloc, 1)?;
        logs.push(log)?;
        Ok(ShardedSet {
            bits: 0,
            first: 0,
            cap,
            logs,
        })
    }

    /// The set is cut into 2 to this power shards.
    pub fn bits(&self) -> u8
        ensures bits { result ≡ self.now.bits }
        ensures low { result ≤ max_bits }
        ensures within { self.now.first + length self.now.logs ≤ 2 ^ self.now.bits }
    {
        self.bits
    }

    /// The number of the first shard.
    pub fn first(&self) -> u16
        ensures { result ≡ self.now.first }
    {
        self.first
    }

    /// The number of the last shard.
    pub fn last(&self) -> u16
        ensures last { result + 1 ≡ self.now.first + length self.now.logs }
        ensures rises { self.now.first ≤ result }
        ensures within { result < 4096 }
    {
        let _count = shard_count(self.bits); // proof only: at most 4,096
        self.first + (self.logs.len() - 1) as u16
    }

    /// How many shards there are.
    pub fn shards(&self) -> usize
        ensures { result ≡ length self.now.logs }
    {
        self.logs.len()
    }

    /// The greatest number of items that a shard may have.
    pub fn cap(&self) -> u32
        ensures { result ≡ self.now.cap }
    {
        self.cap
    }

    /// How many items all shards have.
    pub fn count(&self) -> u64 {
        let mut count: u64 = 0;
        for log in &self.logs {
            count = count.saturating_add(log.count() as u64);
        }
        count
    }

    /// The entries of the shards, which are a set.
    pub fn directory(&self, alloc: Global) -> Result<Vec<Item>, AllocError>
        ensures entries { IfOk result (λ v. v.items
            ≡ entries_from self.now.first (map sum_of (contents self.now.logs))) }
        // Those of the shards of a set are its directory, as far as it speaks of them.
        ensures span { IfOk result (λ v. (last : ℕ) (A : List Bytes) →
            contents self.now.logs ≡ span_shards self.now.bits self.now.first last A →
            v.items ≡ span_directory self.now.bits self.now.first last A) }
        ensures set { IfOk result (λ v. IsSet v.items) }
        ensures few { IfOk result (λ v. length v.items ≤ 2 ^ self.now.bits) }
    {
        let _count = shard_count(self.bits); // proof only: at most 4,096
        let sums = sums_of(alloc, &self.logs)?;
        directory_from(alloc, self.first, &sums)
    }

    /// The logs, in the order of their numbers.
    pub fn into_logs(self) -> Vec<Log<Tree>>
        ensures logs { result.items ≡ self.logs }
        ensures cap { HaveCap self.cap result.items }
    {
        let ShardedSet {
            bits: _,
            first: _,
            cap: _,
            logs,
        } = self;
        logs
    }

    /// The log of the first shard: of a set that is not cut the log of all.
    pub fn into_first(self) -> Log<Tree>
        ensures { result.cap ≡ self.cap }
    {
        let mut logs = self.into_logs();
        logs.swap_remove(0)
    }
}
