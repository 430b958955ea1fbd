ghost use Rattle.std.specs.Prelude.{◌≡◌, ◌≤◌, ◌<◌, length, map, IfOk};
ghost use Rattle.std.specs.Arc.{arc_value};
ghost use Rattle.std.specs.List.{flat_map};
ghost use Rattle.range_tree.specs.Nodes.{IsFull};
ghost use Rattle.range_tree.specs.Grown.{grown_nodes, GrewWide};
ghost use Rattle.range_tree.specs.Leaves.{leaf_items, leaf_width};
ghost use Rattle.range_tree.specs.Branches.{branch_items, branch_width, branch_has_some};

use crate::branch::Branch;
use crate::leaf::Leaf;
use crate::node::{Grown, Node};
use crate::row::Row;
use digest_core::Fingerprint;
use item_core::Item;
use std::alloc::{AllocError, Global};
use std::sync::Arc;
use store_core::HashedItem;

impl Branch {
    /// The branch of these leaves.
    pub fn of(alloc: Global, leaves: Vec<Arc<Leaf>>) -> Result<Branch, AllocError>
        requires some { 0 < length leaves.items }
        requires small { length leaves.items ≤ 64 }
        requires full { IsFull leaf_width (map arc_value leaves.items) }
        ensures { IfOk result (λ branch. branch.leaves ≡ map arc_value leaves.items) }
    {
        Ok(Branch::over(Row::of(alloc, leaves)?))
    }

    /// The branch of the leaves of this row.
    fn over(leaves: Row<Leaf>) -> Branch
        requires some { 0 < length leaves }
        requires small { length leaves ≤ 64 }
        requires full { IsFull leaf_width leaves }
        ensures { result.leaves ≡ leaves }
    {
        Branch { leaves }
    }

    /// The two branches of 65 leaves.
    fn halves(alloc: Global, leaves: Row<Leaf>) -> Result<Grown<Branch>, AllocError>
        requires more { 64 < length leaves }
        requires few { length leaves ≤ 65 }
        requires full { IsFull leaf_width leaves }
        ensures items { IfOk result (λ g. flat_map branch_items (grown_nodes g) ≡ flat_map leaf_items leaves) }
        ensures widths { IfOk result (GrewWide branch_width 64) }
    {
        let mut nodes = leaves.into_nodes();
        let back = nodes.split_off(32)?;
        let front = Branch::of(alloc, nodes)?;
        Ok(Grown::Two(front, Branch::of(alloc, back)?))
    }
}

impl Node for Branch {
    ghost content = { branch_items };

    ghost width = { branch_width };

    ghost most_steps = { 14 };

    ghost has_some = { branch_has_some };

    fn len(&self) -> usize {
        self.leaves.len()
    }

    fn total(&self) -> Fingerprint {
        self.leaves.total()
    }

    fn first(&self) -> &Item {
        self.leaves.first()
    }

    fn item_at(&self, place: usize) -> Item {
        self.leaves.item_at(place)
    }

    fn sum_before(&self, place: usize) -> Fingerprint {
        self.leaves.sum_before(place)
    }

    fn push_between(&self, held: &mut Vec<Item>, from: usize, to: usize) -> Result<(), AllocError> {
        self.leaves.push_between(held, from, to)
    }

    fn rank(&self, item: &Item) -> (usize, usize) {
        self.leaves.rank(item)
    }

    fn with_at(
        &self,
        alloc: Global,
        place: usize,
        hashed: HashedItem,
    ) -> Result<Grown<Branch>, AllocError> {
        let leaves = self.leaves.with_at(alloc, place, hashed)?;
        if leaves.count_nodes() <= 64 {
            return Ok(Grown::One(Branch::over(leaves)));
        }
        Branch::halves(alloc, leaves)
    }
}
