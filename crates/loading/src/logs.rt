//! The logs of many shards, by up to four threads.

ghost use Rattle.std.specs.Prelude.{◌≡◌, ◌≤◌, ℕ, ◌++◌, length, IfOk};
ghost use Rattle.definitions.specs.Sets.{IsSet};
ghost use Rattle.std.specs.Thread.{IsSync};
ghost use Rattle.version_log.specs.Logs.{IsCap, opened};
ghost use Rattle.shard_core.specs.Splits.{held};
ghost use Rattle.loading.specs.Sharded.{AreSets, opened_all};

use item_core::Item;
use range_tree::Tree;
use std::alloc::{AllocError, Global};
use std::thread::{Threads, join};
use version_log::Log;

/// How the logs of shards are opened.
#[derive(Clone, Copy)]
pub struct Opening {
    /// The most items that a shard may have.
    pub cap: u32,
    ghost room: { IsCap cap },
}

/// The log of a shard, whose list is let go.
fn log_of(alloc: Global, opening: Opening, items: Vec<Item>) -> Result<Log<Tree>, AllocError>
    requires set { IsSet items.items }
    requires fits { length items.items ≤ opening.cap }
    ensures { IfOk result (λ l. l ≡ opened opening.cap items.items 1) }
{
    Log::of_set(alloc, opening.cap, &items)
}

/// The logs of these shards. Each list is let go as soon as its log is there.
fn logs_of(
    alloc: Global,
    opening: Opening,
    lists: Vec<Vec<Item>>,
) -> Result<Vec<Log<Tree>>, AllocError>
    requires sets { AreSets opening.cap (held lists.items) }
    ensures { IfOk result (λ v. v.items ≡ opened_all opening.cap (held lists.items)) }
{
    let mut logs = Vec::with_capacity(alloc, lists.len())?;
    for items in lists {
        logs.push(log_of(alloc, opening, items)?)?;
    }
    Ok(logs)
}

/// Two parts of the lists, about even.
fn cut_in_two(lists: Vec<Vec<Item>>) -> Result<(Vec<Vec<Item>>, Vec<Vec<Item>>), AllocError>
    ensures sets { IfOk result (λ h. (cap : ℕ) → AreSets cap (held lists.items) →
        AreSets cap (held h.0.items) × AreSets cap (held h.1.items)) }
    ensures opened { IfOk result (λ h. (cap : ℕ) → opened_all cap (held h.0.items)
        ++ opened_all cap (held h.1.items) ≡ opened_all cap (held lists.items)) }
{
    let mut front = lists;
    let back = front.split_off(front.len() / 2)?;
    Ok((front, back))
}

/// The logs of both lists, one list after the other.
fn both(front: Vec<Log<Tree>>, back: Vec<Log<Tree>>) -> Result<Vec<Log<Tree>>, AllocError>
    ensures { IfOk result (λ v. v.items ≡ front.items ++ back.items) }
{
    let mut logs = front;
    let mut back = back;
    logs.append(&mut back)?;
    Ok(logs)
}

/// The logs of these shards. They are cut in two `halvings` times, and each part has its own thread.
pub fn logs_by<R: Threads + Sync>(
    rt: &R,
    alloc: Global,
    opening: Opening,
    lists: Vec<Vec<Item>>,
    halvings: u32,
) -> Result<Vec<Log<Tree>>, AllocError>
    requires sets { AreSets opening.cap (held lists.items) }
    requires few { halvings ≤ 2 }
    ensures { IfOk result (λ v. v.items ≡ opened_all opening.cap (held lists.items)) }
{
    if halvings == 0 || lists.len() < 2 {
        return logs_of(alloc, opening, lists);
    }
    let (front, back) = cut_in_two(lists)?;
    let less = halvings - 1;
    let (low, high) = join(
        rt,
        move || -> Result<Vec<Log<Tree>>, AllocError>
            requires { IsSync R.row × AreSets opening.cap (held front.items) × (less ≤ 2) }
            ensures { IfOk result (λ v. v.items ≡ opened_all opening.cap (held front.items)) }
        { logs_by(rt, alloc, opening, front, less) },
        move || -> Result<Vec<Log<Tree>>, AllocError>
            requires { IsSync R.row × AreSets opening.cap (held back.items) × (less ≤ 2) }
            ensures { IfOk result (λ v. v.items ≡ opened_all opening.cap (held back.items)) }
        { logs_by(rt, alloc, opening, back, less) },
    );
    both(low?, high?)
}
