//! A row in which one node grew. Its lists are made from the old ones: no node is read but what that one became. Of the
//! others only the counts of their owners are raised.

ghost use Rattle.std.specs.Prelude.{◌≡◌, ◌<◌, ◌≤◌, ◌+◌, ◌-◌, ◌∷◌, ◌++◌, [], List, length, take, drop, map, IfOk, OnOk};
ghost use Rattle.std.specs.Arc.{arc_value};
ghost use Rattle.definitions.specs.Items as items;
ghost use Rattle.definitions.specs.Fingerprints.{join_lanes, two_lanes};
ghost use Rattle.range_tree.specs.Grown.{grown_nodes};

use crate::heads::head_of;
use crate::node::{Grown, Node};
use crate::nodes;
use crate::row::Row;
use digest_core::{Fingerprint, Summary};
use std::alloc::{AllocError, Global};
use std::sync::Arc;

/// Puts running counts after others: they began at one count, and begin at another now.
fn push_ends(
    held: &mut Vec<usize>,
    ends: &[usize],
    begun: usize,
    start: usize,
) -> Result<(), AllocError>
    ensures { OnOk result (held.new.items ≡ held.old.items ++ map (λ end. start + (end - begun)) ends.now) }
{
    for end in ends {
        let own = end.saturating_sub(begun);
        // No memory holds 2^64 items.
        held.push(start.checked_add(own).ok_or(AllocError)?)?;
    }
    Ok(())
}

/// Puts running fingerprints after others: they began with one, and begin with another now.
fn push_sums(
    held: &mut Vec<Fingerprint>,
    sums: &[Fingerprint],
    begun: Fingerprint,
    start: Fingerprint,
) -> Result<(), AllocError>
    ensures { OnOk result ((A : List items.Item) (Bs : List (List items.Item)) → begun ≡ two_lanes.of A →
        sums.now ≡ map (λ B. two_lanes.of (A ++ B)) Bs →
        held.new.items ≡ held.old.items ++ map (λ B. join_lanes start (two_lanes.of B)) Bs) }
{
    for sum in sums {
        held.push(start.join(sum.without(begun)))?;
    }
    Ok(())
}

impl<P: Node> Row<P> {
    /// The first nodes, so many of them, shared, with room for one more than all.
    fn front(&self, alloc: Global, count: usize) -> Result<Row<P>, AllocError>
        requires { count ≤ length self.now }
        ensures { IfOk result (λ row. row ≡ take count self.now) }
    {
        let room = self.nodes.len().saturating_add(1);
        let mut nodes = Vec::with_capacity(alloc, room)?;
        let mut ends = Vec::with_capacity(alloc, room)?;
        let mut sums = Vec::with_capacity(alloc, room)?;
        let mut heads = Vec::with_capacity(alloc, room)?;
        nodes::share(&mut nodes, &self.nodes[..count])?;
        ends.extend_from_slice(&self.ends[..count])?;
        sums.extend_from_slice(&self.sums[..count])?;
        heads.extend_from_slice(&self.heads[..count])?;
        Ok(Row {
            nodes,
            ends,
            sums,
            heads,
        })
    }

    /// The row with one node more at its end.
    fn with_node(self, node: Arc<P>) -> Result<Row<P>, AllocError>
        ensures { IfOk result (λ row. row ≡ self ++ arc_value node ∷ []) }
    {
        // No memory holds 2^64 items.
        let end = self.len().checked_add(node.len()).ok_or(AllocError)?;
        let sum = self.total().join(node.total());
        let head = head_of(node.first());
        let Row {
            mut nodes,
            mut ends,
            mut sums,
            mut heads,
        } = self;
        ends.push(end)?;
        sums.push(sum)?;
        heads.push(head)?;
        nodes.push(node)?;
        Ok(Row {
            nodes,
            ends,
            sums,
            heads,
        })
    }

    /// The row with what a node became at its end.
    fn with_grown(self, alloc: Global, grown: Grown<P>) -> Result<Row<P>, AllocError>
        ensures { IfOk result (λ row. row ≡ self ++ grown_nodes grown) }
    {
        match grown {
            Grown::One(node) => self.with_node(Arc::new(alloc, node)?),
            Grown::Two(front, back) => {
                let longer = self.with_node(Arc::new(alloc, front)?)?;
                longer.with_node(Arc::new(alloc, back)?)
            }
        }
    }

    /// The row with the nodes of another from one on, shared, at its end. None of their items is read.
    fn with_rest(self, other: &Row<P>, from: usize) -> Result<Row<P>, AllocError>
        requires { from ≤ length other.now }
        ensures { IfOk result (λ row. row ≡ self ++ drop from other.now) }
    {
        let begun = other.len_of_first(from);
        let begun_sum = other.total_of_first(from);
        let start = self.len();
        let start_sum = self.total();
        let Row {
            mut nodes,
            mut ends,
            mut sums,
            mut heads,
        } = self;
        nodes::share(&mut nodes, &other.nodes[from..])?;
        push_ends(&mut ends, &other.ends[from..], begun, start)?;
        push_sums(&mut sums, &other.sums[from..], begun_sum, start_sum)?;
        heads.extend_from_slice(&other.heads[from..])?;
        Ok(Row {
            nodes,
            ends,
            sums,
            heads,
        })
    }

    /// The row with what a node became in its place. The other nodes are shared, and not read.
    pub(crate) fn renewed(
        &self,
        alloc: Global,
        index: usize,
        grown: Grown<P>,
    ) -> Result<Row<P>, AllocError>
        requires { index < length self.now }
        ensures { IfOk result (λ row. row ≡ take index self.now ++ grown_nodes grown ++ drop (index + 1) self.now) }
    {
        let _ = self.nodes.len(); // proof only: no place is past the greatest number
        let front = self.front(alloc, index)?;
        let longer = front.with_grown(alloc, grown)?;
        longer.with_rest(self, index + 1)
    }
}
