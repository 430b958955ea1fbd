//! What `sync` prints of the shards of a set.

ghost use Rattle.std.specs.Prelude.{◌≡◌, ◌++◌, IfOk, OnOk, flat_map, string_bytes};
ghost use Rattle.printing_core.specs.Lines.{spaced};
ghost use Rattle.printing_core.specs.ShardTexts.{merged_head, merged_text, first_text, undone_text};

use crate::fault::Fault;
use crate::sessions::{Both, Listing, push_listed};
use item_core::Item;
use std::alloc::{AllocError, Global};
use std::io::Write;

/// What is counted of all shards that `sync` speaks of.
#[derive(Clone, Copy, Debug, PartialEq, Eq)]
pub struct MergedCounts {
    /// How many shards there are.
    pub shards: u32,
    /// How many of them differ.
    pub differ: u32,
    /// How many messages were sent.
    pub sent: u64,
}

/// The counts, as two lines.
fn merged_head(alloc: Global, counts: MergedCounts) -> Result<String, AllocError>
    ensures { IfOk result (λ text. string_bytes text ≡ merged_head counts) }
{
    let MergedCounts {
        shards,
        differ,
        sent,
    } = counts;
    format!(in alloc; "shards {shards} differ {differ}\nsent {sent}\n")
}

/// The lines of all shards: the counts, and both differences as they are asked for, in the order given.
pub fn merged_text(
    alloc: Global,
    listing: Listing,
    counts: MergedCounts,
    ours: &[Item],
    theirs: &[Item],
) -> Result<String, AllocError>
    ensures { IfOk result (λ text. string_bytes text ≡ merged_text listing counts ours.now theirs.now) }
{
    let mut text = merged_head(alloc, counts)?;
    push_listed(alloc, &mut text, listing, Both { ours, theirs })?;
    Ok(text)
}

/// Appends the numbers, with a space before each.
fn push_numbers(text: &mut String, numbers: &[u16]) -> Result<(), AllocError>
    ensures { OnOk result (string_bytes text.new ≡ string_bytes text.old ++ flat_map spaced numbers.now) }
{
    for number in numbers {
        write!(text, " {number}")?;
    }
    Ok(())
}

/// Ends the line, and appends one that says why this shard was not done.
fn push_fault(text: &mut String, shard: u16, fault: Fault) -> Result<(), AllocError>
    ensures { OnOk result (string_bytes text.new ≡ string_bytes text.old ++ first_text shard fault) }
{
    write!(text, "\nshard {shard} {fault}\n")
}

/// The numbers of the shards that were not done, in a line, and in another one why the first of them was not; nothing,
/// where all were done.
pub fn undone_text(alloc: Global, numbers: &[u16], first: Fault) -> Result<String, AllocError>
    ensures { IfOk result (λ text. string_bytes text ≡ undone_text numbers.now first) }
{
    let Some(shard) = numbers.first() else {
        return Ok(String::new(alloc));
    };
    let mut text = String::from_str(alloc, "not done")?;
    push_numbers(&mut text, numbers)?;
    push_fault(&mut text, *shard, first)?;
    Ok(text)
}

/// Prints which shards were not done, and why the first of them was not; where memory runs out, only why. Lines that
/// are not taken change nothing.
pub fn tell_undone<E: Write>(alloc: Global, err: &mut E, numbers: &[u16], first: Fault) {
    match undone_text(alloc, numbers, first) {
        Ok(text) => {
            let _told = write!(err, "{text}");
        }
        Err(_) => {
            let _told = writeln!(err, "{first}");
        }
    }
}
