ghost use Rattle.std.specs.Prelude.{◌≡◌, ◌≤◌, ◌∷◌, ◌++◌, [], length, take, drop, map, IfOk};
ghost use Rattle.std.specs.Arc.{arc_value};
ghost use Rattle.std.specs.List.{flat_map, AllByRecursion};
ghost use Rattle.definitions.specs.Items.{IsItem};
ghost use Rattle.definitions.specs.Sets.{IsSet, add_item};
ghost use Rattle.range_tree.specs.Nodes.{items_of, IsFull};
ghost use Rattle.range_tree.specs.Branches.{branch_items, branch_width};
ghost use Rattle.range_tree.specs.Trees.{tree_items};

use crate::branch::Branch;
use crate::leaf::Leaf;
use crate::loading::{branches_of, branches_on};
use crate::packed::Packed;
use crate::row::Row;
use crate::tree::Tree;
use digest_core::Fingerprint;
use item_core::{Item, Range};
use std::alloc::{AllocError, Global};
use std::sync::Arc;
use std::thread::Threads;
use store_core::{HashedItem, Insertion, RangeStore, Span};

/// The one branch of one leaf of one hashed item.
fn branches_of_one(alloc: Global, hashed: HashedItem) -> Result<Vec<Arc<Branch>>, AllocError>
    ensures items { IfOk result (λ held. items_of branch_items held.items ≡ hashed ∷ []) }
    ensures one { IfOk result (λ held. length held.items ≡ 1) }
{
    let packed = Packed::empty(alloc).with(alloc, 0, &hashed)?;
    let mut leaves = Vec::new(alloc);
    leaves.push(Arc::new(alloc, Leaf::of(packed))?)?;
    let mut branches = Vec::new(alloc);
    branches.push(Arc::new(alloc, Branch::of(alloc, leaves)?)?)?;
    Ok(branches)
}

/// The branches with a hashed item at a place.
fn branches_with(
    alloc: Global,
    branches: &Row<Branch>,
    place: usize,
    hashed: HashedItem,
) -> Result<Row<Branch>, AllocError>
    requires { place ≤ length (flat_map branch_items branches.now) }
    ensures full { IfOk result (λ row. IsFull branch_width branches.now → IsFull branch_width row) }
    ensures items { IfOk result (λ row. flat_map branch_items row ≡
        take place (flat_map branch_items branches.now) ++ hashed
        ∷ drop place (flat_map branch_items branches.now)) }
{
    if branches.is_empty() {
        return Row::of(alloc, branches_of_one(alloc, hashed)?);
    }
    branches.with_at(alloc, place, hashed)
}

/// The tree of the branches of this row.
fn tree_over(branches: Row<Branch>) -> Tree
    requires rises { IsSet (flat_map branch_items branches) }
    requires are_items { AllByRecursion IsItem (flat_map branch_items branches) }
    requires full { IsFull branch_width branches }
    ensures { tree_items result ≡ flat_map branch_items branches }
{
    Tree { branches }
}

/// The tree of these branches.
pub fn tree_of(alloc: Global, branches: Vec<Arc<Branch>>) -> Result<Tree, AllocError>
    requires rises { IsSet (items_of branch_items branches.items) }
    requires are_items { AllByRecursion IsItem (items_of branch_items branches.items) }
    requires full { IsFull branch_width (map arc_value branches.items) }
    ensures { IfOk result (λ t. tree_items t ≡ items_of branch_items branches.items) }
{
    Ok(tree_over(Row::of(alloc, branches)?))
}

impl Tree {
    /// The tree of the items of a set, as `from_rising` makes it, but hashed by up to four threads.
    ///
    /// Fails only if memory runs out.
    pub fn from_rising_on<R: Threads + Sync>(
        rt: &R,
        alloc: Global,
        items: &[Item],
    ) -> Result<Tree, AllocError>
        requires { IsSet items.now }
        ensures items { IfOk result (λ t. tree_items t ≡ items.now) }
        ensures are_items { IfOk result (λ _. AllByRecursion IsItem items.now) }
    {
        let branches = branches_on(rt, alloc, items)?;
        tree_of(alloc, branches)
    }
}

impl RangeStore for Tree {
    ghost content = { tree_items };

    ghost rises = { λ t. t.rises };

    ghost are_items = { λ t. t.are_items };

    fn empty(alloc: Global) -> Tree {
        Tree {
            branches: Row::empty(alloc),
        }
    }

    fn from_rising(alloc: Global, items: &[Item]) -> Result<Tree, AllocError> {
        let branches = branches_of(alloc, items)?;
        tree_of(alloc, branches)
    }

    fn len(&self) -> usize {
        self.branches.len()
    }

    fn span_of(&self, range: &Range) -> Span {
        let (from, to, _) = self.places(range);
        Span { from, to }
    }

    fn sum_before(&self, place: usize) -> Fingerprint {
        self.branches.sum_before(place)
    }

    fn items_at(&self, alloc: Global, at: Span) -> Result<Vec<Item>, AllocError> {
        let mut held = Vec::with_capacity(alloc, self.between(at.from, at.to))?;
        self.branches.push_between(&mut held, at.from, at.to)?;
        Ok(held)
    }

    fn item_at(&self, place: usize) -> Item {
        self.branches.item_at(place)
    }

    fn has(&self, item: &Item) -> bool {
        self.gap_for(item).is_none()
    }

    fn with(&self, alloc: Global, item: Item) -> Result<Insertion<Tree>, AllocError> {
        let Some(place) = self.gap_for(&item) else {
            return Ok(Insertion::Already);
        };
        let branches = branches_with(alloc, &self.branches, place, HashedItem::new(item))?;
        Ok(Insertion::New(tree_over(branches)))
    }

    fn copy(&self, alloc: Global) -> Result<Tree, AllocError> {
        Ok(Tree {
            branches: self.branches.copy(alloc)?,
        })
    }
}
