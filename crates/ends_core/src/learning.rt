//! What is learned from a part of a message that answers an own message.

ghost use Rattle.std.specs.Prelude.{◌≡◌, List, [], ◌∷◌, ◌++◌, if◌then◌else◌, IfOk, OnOk};
ghost use Rattle.std.specs.List.{items_where_true};
ghost use Rattle.definitions.specs.Items as items;
ghost use Rattle.ends_core.specs.Learning.{told, IsAnswered};

use crate::learned::Learned;
use digest_core::WireSummary;
use item_core::Item;
use std::alloc::{AllocError, Global};
use store_core::PackedItems;
use wire_core::{Marks, Part};

/// Appends the item where it is marked.
fn push_where(found: &mut PackedItems, marked: bool, item: &Item) -> Result<(), AllocError>
    ensures { OnOk result (found.new ≡ found.old ++ (if marked then item.now ∷ [] else [])) }
{
    if marked {
        found.push(item)?;
    }
    Ok(())
}

/// The listed items that are marked: the sender of the marks lacks them.
fn marked_of(alloc: Global, marks: &Marks, listed: &[Item]) -> Result<PackedItems, AllocError>
    ensures { IfOk result (λ found. found ≡ items_where_true marks.now listed.now) }
{
    let mut found = PackedItems::new(alloc);
    for (index, item) in listed.iter().enumerate() {
        push_where(&mut found, marks.get(index).unwrap_or(false), item)?;
    }
    Ok(found)
}

/// What a part tells. An Answer tells of this list, which it answers; a List tells what its answer does, which is the
/// reply to it.
pub(crate) fn learn_part<F: WireSummary>(
    alloc: Global,
    listed: &[Item],
    part: &Part<F>,
    reply: &[Part<F>],
) -> Result<Learned, AllocError>
    ensures { (A : List items.Item) → IsAnswered A part.now reply.now →
        IfOk result (λ k. k ≡ told A listed.now part.now) }
{
    if let (Some(marks), Some(theirs)) = (part.marks(), part.items()) {
        let ours = marked_of(alloc, marks, listed)?;
        return Ok(Learned::of(ours, PackedItems::from_slice(alloc, theirs)?));
    }
    let (Some(listed), Some(answer)) = (part.items(), reply.first()) else {
        return Ok(Learned::nothing(alloc));
    };
    let (Some(marks), Some(ours)) = (answer.marks(), answer.items()) else {
        return Ok(Learned::nothing(alloc));
    };
    let theirs = marked_of(alloc, marks, listed)?;
    Ok(Learned::of(PackedItems::from_slice(alloc, ours)?, theirs))
}
