ghost use Rattle.std.specs.Prelude.{◌≡◌};
ghost use Rattle.std.specs.List.{flat_map, AllByRecursion, AllByRecursion-prop};
ghost use Rattle.std.proofs.Props.{props};
ghost use Rattle.std.proofs.lemmas.Map.Keys.{IsStrictlySortedBy-prop};
ghost use Rattle.definitions.specs.Items.{IsItem, item_cmp};
ghost use Rattle.definitions.specs.Sets.{IsSet};
ghost use Rattle.range_tree.specs.Nodes.{IsFull, IsFull-prop};
ghost use Rattle.range_tree.specs.Branches.{branch_items, branch_width};

use crate::branch::Branch;
use crate::row::Row;

/// A set of items as a persistent tree: branches of leaves of items, in rising order. A tree and
/// the one that `with` makes of it share all branches and leaves but those on the way to the new
/// item. A leaf has at least 32 items and a branch at least 32 leaves, but where it is the only
/// one of its kind.
#[derive(Drop)]
pub struct Tree {
    pub(crate) branches: Row<Branch>,
    ghost rises: { IsSet (flat_map branch_items branches) } by { IsStrictlySortedBy-prop item_cmp _ },
    ghost are_items: { AllByRecursion IsItem (flat_map branch_items branches) } by { AllByRecursion-prop IsItem
        (λ x. Prim.hlevel props) _ },
    ghost full: { IsFull branch_width branches } by { IsFull-prop branch_width _ },
}
