ghost use Rattle.std.specs.Prelude.{◌≡◌, ◌≤◌, ◌<◌, length};
ghost use Rattle.range_tree.specs.Nodes.{first_item};

use crate::packed::Packed;
use item_core::Item;

/// 1 to 64 items in order.
#[derive(Drop)]
pub struct Leaf {
    pub(crate) first: Item,
    pub(crate) packed: Packed,
    ghost leads: { first ≡ first_item packed },
    ghost some: { 0 < length packed },
    ghost small: { length packed ≤ 64 },
}
