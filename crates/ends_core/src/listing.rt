ghost use Rattle.std.specs.Prelude.{◌≡◌, ◌≤◌, length, Err, IfOk, OnOk, IsTrue, IsFalse};
ghost use Rattle.std.specs.Option.{option_to_list};
ghost use Rattle.definitions.specs.Fingerprints.{two_lanes};
ghost use Rattle.definitions.specs.Replies as replies;
ghost use Rattle.store_core.specs.Flat.{flat_items};
ghost use Rattle.ends_core.specs.ListPeer.{list_peer, is_sum, are_sums};
ghost use Rattle.ends_core.specs.FaultsOf.{list_fault_number};
ghost use Rattle.ends_core.specs.declared.listing.ListReplyFault.TheVariants as faults;

use digest_core::Fingerprint;
use std::alloc::{AllocError, AllocFailed, Global};
use store_core::{FlatStore, RangeStore};
use wire_core::{Message, Part};

/// Why a message has no reply under the list-only table.
#[derive(Clone, Copy, Debug, PartialEq, Eq)]
pub enum ListReplyFault {
    /// A part is no Sum.
    Misplaced,
    /// Memory ran out.
    Memory,
}

impl ListReplyFault {
    /// The number of the refusal: 20 or 90.
    pub fn number(self) -> u8
        ensures { result ≡ list_fault_number self }
    {
        match self {
            ListReplyFault::Misplaced => 20,
            ListReplyFault::Memory => 90,
        }
    }
}

impl From<AllocError> for ListReplyFault {
    ghost from_gives = { λ _ e. e ≡ faults.Memory };

    fn from(_refused: AllocError) -> ListReplyFault {
        ListReplyFault::Memory
    }
}

impl<T: Drop> From<AllocFailed<T>> for ListReplyFault {
    ghost from_gives = { λ _ e. e ≡ faults.Memory };

    fn from(_refused: AllocFailed<T>) -> ListReplyFault {
        ListReplyFault::Memory
    }
}

/// The reply to one part: none, where the fingerprints are equal, and else the list of the range.
fn reply_to(alloc: Global, store: &FlatStore, part: &Part) -> Result<Option<Part>, ListReplyFault>
    requires { length (flat_items store.now) ≤ 65536 }
    ensures reply { IfOk result (λ r. option_to_list r ≡ replies.reply_to two_lanes
        (list_peer (flat_items store.now)) part.now) }
    ensures sum { OnOk result (IsTrue (is_sum part.now)) }
    ensures misplaced { result ≡ Err ListReplyFault.Misplaced → IsFalse (is_sum part.now) }
{
    laws::codec::sets_fit::<Fingerprint>();
    let Some(sum) = part.fingerprint() else {
        return Err(ListReplyFault::Misplaced);
    };
    let range = part.range();
    if store.sum(range) == *sum {
        return Ok(None);
    }
    Ok(Some(Part::listing(*range, store.items(alloc, range)?)))
}

/// The reply to a message under the table that lists every range, by the items of the store.
///
/// Refused 20 where a part is no Sum.
pub fn list_reply(
    alloc: Global,
    store: &FlatStore,
    message: &Message,
) -> Result<Message, ListReplyFault>
    requires { length (flat_items store.now) ≤ 65536 }
    ensures reply { IfOk result (λ m. m ≡ replies.reply two_lanes (list_peer (flat_items store.now)) message.now) }
    ensures sums { OnOk result (IsTrue (are_sums message.now)) }
    ensures misplaced { result ≡ Err ListReplyFault.Misplaced → IsFalse (are_sums message.now) }
{
    let mut parts: Vec<Part> = Vec::new(alloc);
    for part in message.parts() {
        if let Some(listing) = reply_to(alloc, store, part)? {
            parts.push(listing)?;
        }
    }
    match Message::new(parts) {
        Ok(reply) => Ok(reply),
        Err(_) => unreachable!(),
    }
}
