//! What is counted of memory for items, parts and messages.

ghost use Rattle.std.specs.Prelude.{◌≡◌, [], ◌∷◌, length, if◌then◌else◌};
ghost use Rattle.definitions.specs.Messages as messages;
ghost use Rattle.definitions.specs.Messages.{open_parts};
ghost use Rattle.ends_core.specs.Sizes as sizes;

use crate::learned::Learned;
use digest_core::WireSummary;
use wire_core::{Message, Part, PartKind};

/// What an item takes, whatever its length.
const ITEM_SIZE: u64 = 65;

/// What is counted for a part beside its items and marks: more than it takes.
const PART_SIZE: u64 = 256;

/// What so many items take.
fn items_size(count: usize) -> u64
    ensures { result ≡ sizes.items_size count }
{
    (count as u64).saturating_mul(ITEM_SIZE)
}

/// What is counted for a part.
fn part_size<F: WireSummary>(part: &Part<F>) -> u64
    ensures { result ≡ sizes.part_size part.now }
{
    let items = part.items().map_or(0, |items| items.len());
    let marks = part.marks().map_or(0, |marks| marks.len());
    PART_SIZE
        .saturating_add(items_size(items))
        .saturating_add(marks as u64)
}

/// The size, and that of these parts.
pub(crate) fn with_parts<F: WireSummary>(size: u64, parts: &[Part<F>]) -> u64
    ensures { result ≡ sizes.with_parts size parts.now }
{
    let mut all = size;
    for part in parts {
        all = all.saturating_add(part_size(part));
    }
    all
}

/// The size, and that of the part, where it wants a reply.
fn with_open<F: WireSummary>(size: u64, part: &Part<F>) -> u64
    ensures { result ≡ sizes.with_parts size (if messages.is_open part.now then part.now ∷ [] else []) }
{
    if part.kind() == PartKind::Answer {
        return size;
    }
    size.saturating_add(part_size(part))
}

/// What is counted for the open ones of these parts.
pub fn open_size<F: WireSummary>(parts: &[Part<F>]) -> u64
    ensures { result ≡ sizes.message_size (open_parts parts.now) }
{
    let mut size: u64 = 0;
    for part in parts {
        size = with_open(size, part);
    }
    size
}

/// What is counted for messages.
pub fn messages_size<F: WireSummary>(messages: &[Message<F>]) -> u64
    ensures { result ≡ sizes.messages_size messages.now }
{
    let mut size: u64 = 0;
    for message in messages {
        size = size.saturating_add(with_parts(0, message.parts()));
    }
    size
}

/// What is counted for what was learned.
pub fn known_size(learned: &Learned) -> u64
    ensures { result ≡ sizes.known_size learned.now }
{
    items_size(learned.ours().len()).saturating_add(items_size(learned.theirs().len()))
}
