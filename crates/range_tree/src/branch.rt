ghost use Rattle.std.specs.Prelude.{◌≤◌, ◌<◌, length};
ghost use Rattle.range_tree.specs.Nodes.{IsFull, IsFull-prop};
ghost use Rattle.range_tree.specs.Leaves.{leaf_width};

use crate::leaf::Leaf;
use crate::row::Row;

/// 1 to 64 leaves in order.
#[derive(Drop)]
pub struct Branch {
    pub(crate) leaves: Row<Leaf>,
    ghost some: { 0 < length leaves },
    ghost small: { length leaves ≤ 64 },
    ghost full: { IsFull leaf_width leaves } by { IsFull-prop leaf_width _ },
}
