//! Slices of shared nodes: their items by places, and the nodes shared once more.

ghost use Rattle.std.specs.Prelude.{◌≡◌, ◌++◌, map, OnOk};
ghost use Rattle.std.specs.Arc.{arc_value};
ghost use Rattle.range_tree.specs.Nodes.{items_of, span};

use crate::node::Node;
use item_core::Item;
use std::alloc::AllocError;
use std::sync::Arc;

/// Puts the items from one place on and before another after what is held.
pub fn push_between<P: Node>(
    nodes: &[Arc<P>],
    held: &mut Vec<Item>,
    from: usize,
    to: usize,
) -> Result<(), AllocError>
    ensures { OnOk result (held.new.items
        ≡ held.old.items ++ span from to (items_of P.content nodes.now)) }
{
    let mut start = from;
    let mut end = to;
    for node in nodes {
        if end == 0 {
            return Ok(());
        }
        node.push_between(held, start, end)?;
        let len = node.len();
        start = start.saturating_sub(len);
        end = end.saturating_sub(len);
    }
    Ok(())
}

/// Puts nodes after others. They are shared.
pub fn share<P: Drop>(held: &mut Vec<Arc<P>>, nodes: &[Arc<P>]) -> Result<(), AllocError>
    ensures { OnOk result (map arc_value held.new.items
        ≡ map arc_value held.old.items ++ map arc_value nodes.now) }
{
    for node in nodes {
        held.push(Arc::try_clone(node)?)?;
    }
    Ok(())
}
