//! Which items of a part a session is over.

ghost use Rattle.std.specs.Prelude.{◌≡◌, ◌≤◌, ◌↔◌, length, IfOk, IsTrue};
ghost use Rattle.definitions.specs.Items.{whole};
ghost use Rattle.range_tree.specs.Trees.{tree_items};
ghost use Rattle.peer_loops.specs.Extents.{meant};

use item_core::Range;
use range_tree::Tree;
use std::alloc::{AllocError, Global};

/// The items of a range that a floor keeps.
#[derive(Clone, Copy)]
pub(crate) struct Extent<'a> {
    /// The range that is kept.
    pub(crate) floor: &'a Range,
    /// The range of which it is spoken.
    pub(crate) range: &'a Range,
}

impl Extent<'_> {
    /// Whether these are all items.
    pub(crate) fn is_whole(self) -> bool
        ensures { IsTrue result ↔ (self.entry.floor.now ≡ whole) × (self.entry.range.now ≡ whole) }
    {
        let whole = Range::whole();
        *self.floor == whole && *self.range == whole
    }

    /// The tree of these items of a tree, with which it shares leaves.
    pub(crate) fn of(self, alloc: Global, tree: &Tree) -> Result<Tree, AllocError>
        ensures items { IfOk result (λ t. tree_items t
            ≡ meant self.entry.floor.now self.entry.range.now (tree_items tree.now)) }
        ensures few { IfOk result (λ t. length (tree_items t) ≤ length (tree_items tree.now)) }
    {
        let kept = tree.part(alloc, self.floor)?;
        kept.part(alloc, self.range)
    }
}
