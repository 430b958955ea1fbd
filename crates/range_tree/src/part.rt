//! The tree of a part of a set.

ghost use Rattle.std.specs.Prelude.{◌≡◌, ◌<◌, ◌≤◌, ◌-◌, ◌++◌, length, map, IfOk, OnOk};
ghost use Rattle.std.specs.Arc.{arc_value};
ghost use Rattle.std.specs.List.{flat_map};
ghost use Rattle.definitions.specs.Sets.{items_in};
ghost use Rattle.range_tree.specs.Nodes.{items_of, span, IsFull};
ghost use Rattle.range_tree.specs.Grown.{grown_nodes};
ghost use Rattle.range_tree.specs.Leaves.{leaf_items, leaf_width};
ghost use Rattle.range_tree.specs.Branches.{branch_items};
ghost use Rattle.range_tree.specs.Trees.{tree_items};

use crate::branch::Branch;
use crate::leaf::Leaf;
use crate::loading::branches_over;
use crate::node::{Grown, Node};
use crate::row::Row;
use crate::tree::Tree;
use crate::tree_store::tree_of;
use item_core::Range;
use std::alloc::{AllocError, Global};
use std::sync::Arc;
use store_core::{RangeStore, Span};

/// Where a span stands in what follows the first items, so many of them.
fn behind(at: Span, count: usize) -> Span
    ensures from { result.from ≡ at.from - count }
    ensures to { result.to ≡ at.to - count }
{
    Span {
        from: at.from.saturating_sub(count),
        to: at.to.saturating_sub(count),
    }
}

/// Puts what a leaf became after others.
fn push_grown(
    alloc: Global,
    held: &mut Vec<Arc<Leaf>>,
    grown: Grown<Leaf>,
) -> Result<(), AllocError>
    ensures { OnOk result (map arc_value held.new.items ≡ map arc_value held.old.items ++ grown_nodes grown) }
{
    match grown {
        Grown::One(leaf) => held.push(Arc::new(alloc, leaf)?)?,
        Grown::Two(front, back) => {
            held.push(Arc::new(alloc, front)?)?;
            held.push(Arc::new(alloc, back)?)?;
        }
    }
    Ok(())
}

/// Puts a leaf after others. If it or the last of these has fewer than 32 items, both become one leaf, or two of at
/// least 32.
fn push_leaf(alloc: Global, held: &mut Vec<Arc<Leaf>>, leaf: Arc<Leaf>) -> Result<(), AllocError>
    requires { IsFull leaf_width (map arc_value held.old.items) }
    ensures items { OnOk result (items_of leaf_items held.new.items
        ≡ items_of leaf_items held.old.items ++ leaf_items (arc_value leaf)) }
    ensures full { OnOk result (IsFull leaf_width (map arc_value held.new.items)) }
{
    let Some(last) = held.pop() else {
        held.push(leaf)?;
        return Ok(());
    };
    if last.len().min(leaf.len()) < 32 {
        let grown = last.followed_by(alloc, &leaf)?;
        return push_grown(alloc, held, grown);
    }
    held.push(last)?;
    held.push(leaf)?;
    Ok(())
}

/// The leaf of the items from one place on and before another. It is shared if these are all.
fn part_of(alloc: Global, leaf: &Arc<Leaf>, from: usize, to: usize) -> Result<Arc<Leaf>, AllocError>
    requires from { from < to }
    requires to { to ≤ leaf_width (arc_value leaf.now) }
    ensures { IfOk result (λ part. leaf_items (arc_value part) ≡ span from to (leaf_items (arc_value leaf.now))) }
{
    if to - from == leaf.len() {
        return Ok(Arc::try_clone(leaf)?);
    }
    Ok(Arc::new(alloc, leaf.part(alloc, from, to)?)?)
}

/// Puts the items of a span of a leaf after leaves that are held.
fn push_part(
    alloc: Global,
    held: &mut Vec<Arc<Leaf>>,
    leaf: &Arc<Leaf>,
    at: Span,
) -> Result<(), AllocError>
    requires { IsFull leaf_width (map arc_value held.old.items) }
    ensures items { OnOk result (items_of leaf_items held.new.items
        ≡ items_of leaf_items held.old.items ++ span at.from at.to (leaf_items (arc_value leaf.now))) }
    ensures full { OnOk result (IsFull leaf_width (map arc_value held.new.items)) }
{
    let Span { from, to } = at.fitted(leaf.len());
    if from == to {
        return Ok(());
    }
    let part = part_of(alloc, leaf, from, to)?;
    push_leaf(alloc, held, part)
}

/// Puts the items of a span of some leaves after leaves that are held. Those that it holds whole are shared, unless one
/// is joined with a short one before or after it.
fn push_leaves(
    alloc: Global,
    held: &mut Vec<Arc<Leaf>>,
    row: &Row<Leaf>,
    at: Span,
) -> Result<(), AllocError>
    requires { IsFull leaf_width (map arc_value held.old.items) }
    ensures items { OnOk result (items_of leaf_items held.new.items
        ≡ items_of leaf_items held.old.items ++ span at.from at.to (flat_map leaf_items row.now)) }
    ensures full { OnOk result (IsFull leaf_width (map arc_value held.new.items)) }
{
    let (leaves, mut left) = row.nodes_at(at);
    for leaf in leaves {
        if left.to == 0 {
            return Ok(());
        }
        push_part(alloc, held, leaf, left)?;
        left = behind(left, leaf.len());
    }
    Ok(())
}

/// Puts the items of a span of some branches after leaves that are held, and shares leaves as `push_leaves` does.
fn push_branches(
    alloc: Global,
    held: &mut Vec<Arc<Leaf>>,
    row: &Row<Branch>,
    at: Span,
) -> Result<(), AllocError>
    requires { IsFull leaf_width (map arc_value held.old.items) }
    ensures items { OnOk result (items_of leaf_items held.new.items
        ≡ items_of leaf_items held.old.items ++ span at.from at.to (flat_map branch_items row.now)) }
    ensures full { OnOk result (IsFull leaf_width (map arc_value held.new.items)) }
{
    let (branches, mut left) = row.nodes_at(at);
    for branch in branches {
        if left.to == 0 {
            return Ok(());
        }
        push_leaves(alloc, held, &branch.leaves, left)?;
        left = behind(left, branch.len());
    }
    Ok(())
}

impl Tree {
    /// The tree of the items of the range, which shares leaves with this one.
    fn within(&self, alloc: Global, range: &Range) -> Result<Tree, AllocError>
        ensures items { IfOk result (λ t. tree_items t ≡ items_in (tree_items self.now) range.now) }
    {
        let (from, to, _) = self.places(range);
        if to.saturating_sub(from) == self.branches.len() {
            return self.copy(alloc);
        }
        let mut leaves = Vec::new(alloc);
        push_branches(alloc, &mut leaves, &self.branches, Span { from, to })?;
        tree_of(alloc, branches_over(alloc, &leaves)?)
    }

    /// The tree of the items of the range. It shares all leaves with this one but those at the two ends of the range.
    /// No item is hashed.
    pub fn part(&self, alloc: Global, range: &Range) -> Result<Tree, AllocError>
        ensures items { IfOk result (λ t. tree_items t ≡ items_in (tree_items self.now) range.now) }
        ensures few { IfOk result (λ t. length (tree_items t) ≤ length (tree_items self.now)) }
    {
        self.within(alloc, range)
    }
}
