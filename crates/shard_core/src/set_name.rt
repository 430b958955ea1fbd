//! What a set is called, as an initiator says it before its hello.

ghost use Rattle.std.specs.Prelude.{◌≡◌, ◌<◌, ◌≤◌, ◌++◌, ◌⊎◌, length, IfSome, IfNone, OnOk, []};
ghost use Rattle.shard_core.specs.Shards.{max_bits};
ghost use Rattle.shard_core.specs.Selectors.{selector_text, selecting, refusal_of, ReadsBack, ReadsOnly, WantsMore};

use crate::selector::{MAX_NAME, Selecting, Which, push_selector, read_selector};
use crate::shard::MAX_BITS;
use item_core::Range;
use std::alloc::AllocError;

/// The name of a set, of at most 64 bytes, and by how many bits it is cut into shards, at most 12.
#[derive(Clone, Copy, Debug, PartialEq, Eq)]
pub struct SetName<'a> {
    /// The name.
    pub name: &'a [u8],
    /// The number of bits.
    pub bits: u8,
    ghost short: { length name.now ≤ 64 },
    ghost few: { bits ≤ max_bits },
}

impl<'a> SetName<'a> {
    /// A set of this name that is cut by so many bits; none if the name has more than 64 bytes, or there are more than
    /// 12 bits.
    pub fn new(name: &'a [u8], bits: u8) -> Option<SetName<'a>>
        ensures set { IfSome result (λ s. (s.name.now ≡ name.now) × (s.bits ≡ bits)) }
        ensures none { IfNone result ((64 < length name.now) ⊎ (max_bits < bits)) }
    {
        if name.len() > MAX_NAME || bits > MAX_BITS {
            return None;
        }
        Some(SetName { name, bits })
    }

    /// The set that has no name and is not cut.
    pub fn nameless() -> SetName<'static>
        ensures { (result.name.now ≡ []) × (result.bits ≡ 0) }
    {
        SetName { name: &[], bits: 0 }
    }

    /// What the bytes that have come so far say to a responder that has this set, as `read_selector` says it.
    pub fn read(&self, bytes: &[u8]) -> Selecting
        ensures tests { result ≡ selecting self.now.name.now self.now.bits bytes.now }
        ensures back { ReadsBack self.now.name.now self.now.bits bytes.now result }
        ensures only { ReadsOnly self.now.name.now self.now.bits bytes.now result }
        ensures more { WantsMore self.now.name.now self.now.bits bytes.now result }
    {
        read_selector(bytes, self.name, self.bits)
    }

    /// The number of the refusal of a peer of whose input this much came before its hello: 1 if that is no selector,
    /// and 55 if it is that of another set. Input that ended inside a selector of this set is for the session to
    /// refuse.
    pub fn refusal(&self, came: &[u8]) -> Option<u8>
        ensures { result ≡ refusal_of (selecting self.now.name.now self.now.bits came.now) }
    {
        match self.read(came) {
            Selecting::NoSelector => Some(1),
            Selecting::WrongSet => Some(55),
            Selecting::More | Selecting::Selected(..) => None,
        }
    }

    /// Appends the selector of the items of a range, of a shard of this set or its directory.
    pub fn push(&self, out: &mut Vec<u8>, which: Which, range: &Range) -> Result<(), AllocError>
        ensures { OnOk result (out.new.items ≡ out.old.items
            ++ selector_text self.now.name.now self.now.bits which range.now) }
    {
        push_selector(out, self.name, self.bits, which, range)
    }
}
