//! Rows of shared nodes, and the number and the fingerprint of the items of the first ones.

ghost use Rattle.std.specs.Prelude.{◌≡◌, ◌<◌, ◌≤◌, [], nat_eq, length, take, map, IfOk};
ghost use Rattle.std.specs.Arc.{arc_value};
ghost use Rattle.std.specs.List.{flat_map};
ghost use Rattle.definitions.specs.Fingerprints.{two_lanes};
ghost use Rattle.range_tree.specs.Nodes.{first_item};

use crate::heads::head_of;
use crate::node::Node;
use crate::nodes;
use digest_core::{Fingerprint, Summary, lane_laws};
use item_core::Item;
use std::alloc::{AllocError, Global};
use std::marker::Model;
use std::sync::Arc;

/// Shared nodes in order. Beside each stand the number of items that it and all before it hold, and the fingerprint of
/// these items, so no look-up goes over the nodes. A contract sees the nodes.
#[derive(Drop)]
pub struct Row<P: Node> {
    pub(crate) nodes: Vec<Arc<P>>,
    pub(crate) ends: Vec<usize>,
    pub(crate) sums: Vec<Fingerprint>,
    // By the numbers of their first items most nodes are told from an item that is looked for.
    pub(crate) heads: Vec<u64>,
}

impl<P: Node> Model for Row<P> {
    ghost use Rattle.std.specs.Prelude.{List, map};
    ghost use Rattle.std.specs.Arc.{arc_value};
    ghost use Rattle.range_tree.specs.Nodes.{first_item};
    ghost use Rattle.range_tree.specs.Rows.{IsRow, AreHeads};

    ghost Value = { List P };

    ghost view = { λ a. map arc_value a.nodes.items };

    ghost invariant = { λ a. IsRow P.content (map arc_value a.nodes.items) a.ends.items a.sums.items
        × AreHeads (map (λ p. first_item (P.content p)) (map arc_value a.nodes.items)) a.heads.items };
}

impl<P: Node> Row<P> {
    /// No nodes.
    pub(crate) fn empty(alloc: Global) -> Row<P>
        ensures { result ≡ [] }
    {
        Row {
            nodes: Vec::new(alloc),
            ends: Vec::new(alloc),
            sums: Vec::new(alloc),
            heads: Vec::new(alloc),
        }
    }

    /// The row of these nodes.
    pub(crate) fn of(alloc: Global, nodes: Vec<Arc<P>>) -> Result<Row<P>, AllocError>
        ensures { IfOk result (λ row. row ≡ map arc_value nodes.items) }
    {
        lane_laws::lists_add_up();
        let mut ends = Vec::with_capacity(alloc, nodes.len())?;
        let mut sums = Vec::with_capacity(alloc, nodes.len())?;
        let mut heads = Vec::with_capacity(alloc, nodes.len())?;
        let mut end = 0usize;
        let mut sum = Fingerprint::zero();
        for node in &nodes {
            // No memory holds 2^64 items.
            end = end.checked_add(node.len()).ok_or(AllocError)?;
            sum = sum.join(node.total());
            ends.push(end)?;
            sums.push(sum)?;
            heads.push(head_of(node.first()))?;
        }
        Ok(Row {
            nodes,
            ends,
            sums,
            heads,
        })
    }

    /// The same nodes, shared.
    pub(crate) fn copy(&self, alloc: Global) -> Result<Row<P>, AllocError>
        ensures { IfOk result (λ row. row ≡ self.now) }
    {
        let mut nodes = Vec::with_capacity(alloc, self.nodes.len())?;
        nodes::share(&mut nodes, &self.nodes)?;
        Ok(Row {
            nodes,
            ends: Vec::from_slice(alloc, &self.ends)?,
            sums: Vec::from_slice(alloc, &self.sums)?,
            heads: Vec::from_slice(alloc, &self.heads)?,
        })
    }

    /// The nodes.
    pub(crate) fn into_nodes(self) -> Vec<Arc<P>>
        ensures { map arc_value result.items ≡ self }
    {
        self.nodes
    }

    /// How many nodes there are.
    pub(crate) fn count_nodes(&self) -> usize
        ensures { result ≡ length self.now }
    {
        self.nodes.len()
    }

    /// How many items the first nodes hold, so many of them.
    pub(crate) fn len_of_first(&self, count: usize) -> usize
        requires { count ≤ length self.now }
        ensures { result ≡ length (flat_map P.content (take count self.now)) }
    {
        if count == 0 {
            return 0;
        }
        self.ends[count - 1]
    }

    /// The fingerprint of the items of the first nodes, so many of them.
    pub(crate) fn total_of_first(&self, count: usize) -> Fingerprint
        requires { count ≤ length self.now }
        ensures { result ≡ two_lanes.of (flat_map P.content (take count self.now)) }
    {
        if count == 0 {
            return Fingerprint::zero();
        }
        self.sums[count - 1]
    }

    /// Whether there are no nodes.
    pub(crate) fn is_empty(&self) -> bool
        ensures { result ≡ nat_eq (length self.now) 0 }
    {
        self.nodes.is_empty()
    }

    /// How many items the nodes hold.
    pub(crate) fn len(&self) -> usize
        ensures { result ≡ length (flat_map P.content self.now) }
    {
        self.len_of_first(self.nodes.len())
    }

    /// The fingerprint of the items of the nodes.
    pub(crate) fn total(&self) -> Fingerprint
        ensures { result ≡ two_lanes.of (flat_map P.content self.now) }
    {
        self.total_of_first(self.nodes.len())
    }

    /// The first item.
    pub(crate) fn first(&self) -> &Item
        requires { 0 < length self.now }
        ensures { result.now ≡ first_item (flat_map P.content self.now) }
    {
        self.nodes[0].first()
    }
}
