ghost use Rattle.std.specs.Prelude.{◌≡◌, ◌↔◌, ◌≤◌, IfOk, IsOk, length};
ghost use Rattle.std.specs.List.{AllByRecursion};
ghost use Rattle.std.specs.Cmp.{partial_equiv_from_equiv};
ghost use Rattle.std.specs.Cmp.Lexicographic.{pointwise, lists_equiv};
ghost use Rattle.definitions.specs.Wire.{max_parts, IsPart, IsMessage};
ghost use Rattle.wire_core.specs.Same.{same_part, same_part_equiv};

use crate::part::Part;
use digest_core::{Fingerprint, WireSummary};
use std::alloc::{AllocError, Global};
use std::marker::Model;

/// The greatest number of parts of a message.
pub const MAX_PARTS: usize = 131_072;

/// A message would have more than 131,072 parts.
#[derive(Clone, Copy, Debug, PartialEq, Eq)]
pub struct TooManyParts;

impl TooManyParts {
    /// The number of the refusal: 12.
    pub fn number(self) -> u8
        ensures { result ≡ 12 }
    {
        12
    }
}

/// A message: 0 to 131,072 parts in order.
#[derive(Debug, Drop)]
pub struct Message<F: WireSummary = Fingerprint> {
    parts: Vec<Part<F>>,
}

impl<F: WireSummary> Model for Message<F> {
    ghost use Rattle.definitions.specs.Messages as messages;
    ghost use Rattle.definitions.specs.Wire.{IsMessage};

    ghost Value = { messages.Message F };

    ghost view = { λ a. a.parts.items };

    ghost invariant = { λ a. IsMessage F.profile a.parts.items };
}

impl<F: WireSummary> Message<F> {
    /// The message of these parts, unless they are too many.
    pub fn new(parts: Vec<Part<F>>) -> Result<Message<F>, TooManyParts>
        ensures message { IfOk result (λ m. m ≡ parts.items) }
        ensures ok { IsOk result ↔ (length parts.items ≤ max_parts) }
    {
        if parts.len() > MAX_PARTS {
            return Err(TooManyParts);
        }
        have_spellings(&parts);
        Ok(Message { parts })
    }

    /// The message of parts that are known to be one.
    pub(crate) fn of_parts(parts: Vec<Part<F>>) -> Message<F>
        requires { IsMessage F.profile parts.items }
        ensures { result ≡ parts.items }
    {
        Message { parts }
    }

    /// The same message again.
    pub fn copy(&self, alloc: Global) -> Result<Message<F>, AllocError>
        ensures { IfOk result (λ m. m ≡ self.now) }
    {
        let mut parts = Vec::with_capacity(alloc, self.parts.len())?;
        for part in self.parts() {
            parts.push(part.copy(alloc)?)?;
        }
        Ok(Message { parts })
    }

    /// The parts in order.
    pub fn parts(&self) -> &[Part<F>]
        ensures parts { result.now ≡ self.now }
        ensures message { IsMessage F.profile self.now }
    {
        &self.parts
    }
}

/// Each of the parts has a spelling, as reading it tells.
fn have_spellings<F: WireSummary>(parts: &[Part<F>])
    ensures { AllByRecursion (IsPart F.profile) parts.now }
{
    for part in parts {
        let _ = part.range(); // proof only: the part has a spelling
    }
}

impl<F: WireSummary> PartialEq for Message<F> {
    ghost eq = { pointwise (same_part F.summary) };

    ghost laws = { partial_equiv_from_equiv (lists_equiv (same_part_equiv F.summary F.exact)) };

    fn eq(&self, other: &Self) -> bool {
        self.parts() == other.parts()
    }
}

impl<F: WireSummary> Eq for Message<F> {
    ghost laws = { lists_equiv (same_part_equiv F.summary F.exact) };
}
