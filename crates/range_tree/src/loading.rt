//! A tree of many items at once.

ghost use Rattle.std.specs.Prelude.{◌≡◌, ◌<◌, ◌≤◌, ◌++◌, length, map, IfOk};
ghost use Rattle.std.specs.Arc.{arc_value};
ghost use Rattle.std.specs.List.{AllByRecursion};
ghost use Rattle.std.specs.Thread.{IsSync};
ghost use Rattle.definitions.specs.Items.{IsItem};
ghost use Rattle.range_tree.specs.Nodes.{items_of, IsFull};
ghost use Rattle.range_tree.specs.Leaves.{leaf_items, leaf_width};
ghost use Rattle.range_tree.specs.Branches.{branch_items, branch_width};
ghost use Rattle.range_tree.specs.Loads.{AreLeavesOf};

use crate::branch::Branch;
use crate::leaf::Leaf;
use crate::nodes;
use crate::packed::Packed;
use item_core::Item;
use std::alloc::{AllocError, Global};
use std::sync::Arc;
use std::thread::{Threads, join};

/// Fewer items than this are hashed by one thread.
const FEW: usize = 1_024;

/// How many of those that are left go together: 32, or all where they are fewer than 64. So each group has 32 to 63,
/// but where there are fewer in all.
fn group_size(left: usize) -> usize
    ensures few { left < 64 → result ≡ left }
    ensures many { 64 ≤ left → result ≡ 32 }
{
    if left < 64 { left } else { 32 }
}

/// The leaf of these items, each hashed.
fn leaf_of(alloc: Global, items: &[Item]) -> Result<Arc<Leaf>, AllocError>
    requires some { 0 < length items.now }
    requires small { length items.now ≤ 64 }
    ensures items { IfOk result (λ leaf. leaf_items (arc_value leaf) ≡ items.now) }
    ensures are_items { IfOk result (λ _. AllByRecursion IsItem items.now) }
{
    Ok(Arc::new(alloc, Leaf::of(Packed::digested(alloc, items)?))?)
}

/// The leaves of these items, each hashed, one leaf after another.
fn leaves_of(alloc: Global, items: &[Item]) -> Result<Vec<Arc<Leaf>>, AllocError>
    ensures items { IfOk result (λ held. items_of leaf_items held.items ≡ items.now) }
    ensures are_items { IfOk result (λ _. AllByRecursion IsItem items.now) }
    ensures full { IfOk result (λ held. IsFull leaf_width (map arc_value held.items)) }
{
    let mut held = Vec::new(alloc);
    let mut rest = items;
    'groups: while !rest.is_empty() {
        let (front, back) = rest.split_at(group_size(rest.len()));
        held.push(leaf_of(alloc, front)?)?;
        rest = back;
    }
    Ok(held)
}

/// The leaves of both lists, one list after the other.
fn both(front: Vec<Arc<Leaf>>, back: Vec<Arc<Leaf>>) -> Result<Vec<Arc<Leaf>>, AllocError>
    ensures { IfOk result (λ held. held.items ≡ front.items ++ back.items) }
{
    let mut held = front;
    let mut back = back;
    held.append(&mut back)?;
    Ok(held)
}

/// The leaves of these items, each hashed. The items are cut in two `halvings` times, and each half has its own thread.
fn leaves_by<R: Threads + Sync>(
    rt: &R,
    alloc: Global,
    items: &[Item],
    halvings: u32,
) -> Result<Vec<Arc<Leaf>>, AllocError>
    requires { halvings ≤ 2 }
    ensures { IfOk result (λ held. AreLeavesOf items.now held.items) }
{
    if halvings == 0 || items.len() < FEW {
        return leaves_of(alloc, items);
    }
    let (front, back) = items.split_at(items.len() / 2);
    let less = halvings - 1;
    let (first, second) = join(
        rt,
        || -> Result<Vec<Arc<Leaf>>, AllocError>
            requires { IsSync R.row × (less ≤ 2) }
            ensures { IfOk result (λ held. AreLeavesOf front.entry.now held.items) }
        { leaves_by(rt, alloc, front, less) },
        || -> Result<Vec<Arc<Leaf>>, AllocError>
            requires { IsSync R.row × (less ≤ 2) }
            ensures { IfOk result (λ held. AreLeavesOf back.entry.now held.items) }
        { leaves_by(rt, alloc, back, less) },
    );
    both(first?, second?)
}

/// The branch of these leaves, which it shares.
fn branch_of(alloc: Global, leaves: &[Arc<Leaf>]) -> Result<Arc<Branch>, AllocError>
    requires some { 0 < length leaves.now }
    requires small { length leaves.now ≤ 64 }
    requires full { IsFull leaf_width (map arc_value leaves.now) }
    ensures items { IfOk result (λ branch. branch_items (arc_value branch) ≡ items_of leaf_items leaves.now) }
    ensures width { IfOk result (λ branch. branch_width (arc_value branch) ≡ length leaves.now) }
{
    let mut held = Vec::with_capacity(alloc, leaves.len())?;
    nodes::share(&mut held, leaves)?;
    Ok(Arc::new(alloc, Branch::of(alloc, held)?)?)
}

/// The branches of these leaves, which they share.
pub fn branches_over(alloc: Global, leaves: &[Arc<Leaf>]) -> Result<Vec<Arc<Branch>>, AllocError>
    requires { IsFull leaf_width (map arc_value leaves.now) }
    ensures items { IfOk result (λ held. items_of branch_items held.items ≡ items_of leaf_items leaves.now) }
    ensures full { IfOk result (λ held. IsFull branch_width (map arc_value held.items)) }
{
    let mut held = Vec::new(alloc);
    let mut rest = leaves;
    'groups: while !rest.is_empty() {
        let (front, back) = rest.split_at(group_size(rest.len()));
        held.push(branch_of(alloc, front)?)?;
        rest = back;
    }
    Ok(held)
}

/// The branches of these items, each hashed.
pub fn branches_of(alloc: Global, items: &[Item]) -> Result<Vec<Arc<Branch>>, AllocError>
    ensures items { IfOk result (λ held. items_of branch_items held.items ≡ items.now) }
    ensures are_items { IfOk result (λ _. AllByRecursion IsItem items.now) }
    ensures full { IfOk result (λ held. IsFull branch_width (map arc_value held.items)) }
{
    branches_over(alloc, &leaves_of(alloc, items)?)
}

/// The branches of these items, each hashed, by up to four threads.
pub fn branches_on<R: Threads + Sync>(
    rt: &R,
    alloc: Global,
    items: &[Item],
) -> Result<Vec<Arc<Branch>>, AllocError>
    ensures items { IfOk result (λ held. items_of branch_items held.items ≡ items.now) }
    ensures are_items { IfOk result (λ _. AllByRecursion IsItem items.now) }
    ensures full { IfOk result (λ held. IsFull branch_width (map arc_value held.items)) }
{
    branches_over(alloc, &leaves_by(rt, alloc, items, 2)?)
}
