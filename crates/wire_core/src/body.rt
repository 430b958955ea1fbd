ghost use Rattle.std.specs.Prelude.{◌≡◌, ◌↔◌, IsTrue, ◌+◌, ◌≤◌, ◌<◌, ◌*◌, ◌^◌, None, length, sum_by, option_map, IfOk};
ghost use Rattle.std.specs.Bool.{OnFalse};
ghost use Rattle.std.specs.List.{AllByRecursion};
ghost use Rattle.definitions.specs.Items.{IsItem};
ghost use Rattle.definitions.specs.Wire.{short_text, upper_text, max_body};
ghost use Rattle.definitions.specs.Wire as wire;
ghost use Rattle.definitions.specs.Faults as faults;
ghost use Rattle.item_core.specs.Bounds.{upper_value};
ghost use Rattle.wire_core.specs.Bodies.{part_of, items_in, kind_byte};
ghost use Rattle.wire_core.specs.SameBodies.{same_body};
ghost use Rattle.wire_core.specs.PartFaults.{part_fault_number};

use crate::fault::PartFault;
use crate::field::rises_from;
use crate::marks::Marks;
use digest_core::WireSummary;
use item_core::{Item, Range, Upper};
use std::alloc::{AllocError, Global};

/// The greatest length of a frame's body in bytes.
pub const MAX_BODY: usize = 8_388_608;

/// What a part has beside its range.
#[derive(Debug, Drop)]
pub enum Body<F> {
    Sum(F),
    List(Vec<Item>),
    Answer(Marks, Vec<Item>),
}

impl<F: WireSummary> Body<F> {
    /// The kind's byte.
    pub fn kind(&self) -> u8
        ensures { result ≡ kind_byte self.now }
    {
        match self {
            Body::Sum(_) => 1,
            Body::List(_) => 2,
            Body::Answer(_, _) => 3,
        }
    }

    /// The items of a list or an answer; none of a sum.
    pub fn items(&self) -> &[Item]
        ensures { result.now ≡ items_in self.now }
    {
        match self {
            Body::Sum(_) => &[],
            Body::List(items) => items,
            Body::Answer(_, items) => items,
        }
    }

    /// The same body again.
    pub fn copy(&self, alloc: Global) -> Result<Body<F>, AllocError>
        ensures { IfOk result (λ b. (X : _) → part_of X b ≡ part_of X self.now) }
    {
        match self {
            Body::Sum(sum) => Ok(Body::Sum(*sum)),
            Body::List(items) => Ok(Body::List(Vec::from_slice(alloc, items)?)),
            Body::Answer(marks, items) => {
                let marks = marks.copy(alloc)?;
                Ok(Body::Answer(marks, Vec::from_slice(alloc, items)?))
            }
        }
    }

    /// Whether the two say the same.
    pub fn is_same(&self, other: &Body<F>) -> bool
        ensures { result ≡ same_body F.summary self.now other.now }
    {
        match (self, other) {
            (Body::Sum(sum), Body::Sum(others)) => sum.equals(*others),
            (Body::List(items), Body::List(others)) => items.as_slice() == others.as_slice(),
            (Body::Answer(marks, items), Body::Answer(other_marks, others)) => {
                *marks == *other_marks && items.as_slice() == others.as_slice()
            }
            _ => false,
        }
    }

    /// The length in bytes of what follows the range.
    #[tactic(auto, using(crate::proofs::Lengths::lengths))]
    fn fields_length(&self) -> usize
        requires { length (items_in self.now) ≤ max_body }
        ensures length { (X : _) →
            length (wire.body F.profile (part_of X self.now)) ≡ 1 + length (wire.range_text X) + result }
        ensures small { result < 2 ^ 32 }
        ensures each { AllByRecursion IsItem (items_in self.now) }
    {
        match self {
            Body::Sum(sum) => {
                sum.known();
                F::size()
            }
            Body::List(items) => 4 + texts_length(items),
            Body::Answer(marks, items) => 4 + marks.bytes().len() + 4 + texts_length(items),
        }
    }

    /// The length in bytes of a body with this range.
    pub fn length(&self, range: &Range) -> usize
        requires { length (items_in self.now) ≤ max_body }
        ensures length { result ≡ length (wire.body F.profile (part_of range.now self.now)) }
        ensures each { AllByRecursion IsItem (items_in self.now) }
    {
        1 + range_length(range) + self.fields_length()
    }

    /// Whether a body with this range is above its limit.
    #[tactic(auto, using(crate::proofs::Lengths::lengths))]
    pub fn is_too_long(&self, range: &Range) -> bool
        ensures long { IsTrue result ↔
            (max_body < length (wire.body F.profile (part_of range.now self.now))) }
        ensures each { OnFalse result (AllByRecursion IsItem (items_in self.now)) }
    {
        self.items().len() > MAX_BODY || self.length(range) > MAX_BODY
    }
}

/// The length of a range's text in bytes.
fn range_length(range: &Range) -> usize
    ensures length { result ≡ length (wire.range_text range.now) }
    ensures small { result ≤ 130 }
{
    let lower = range.lower();
    let upper = range.upper();
    1 + lower.bytes().len() + 1 + upper.bytes().map_or(0, |bytes| bytes.len())
}

/// The first item that is not greater than the one before it, or is outside the range.
pub fn items_fault(range: &Range, items: &[Item]) -> Option<PartFault>
    ensures { option_map part_fault_number result ≡ faults.items_fault range.now None items.now }
{
    let mut before: Option<&[u8]> = None;
    for item in items {
        if !rises_from(before, item.bytes()) {
            return Some(PartFault::ItemOrder);
        }
        if !range.contains(item) {
            return Some(PartFault::ItemOutside);
        }
        before = Some(item.bytes());
    }
    None
}

/// The length of the items' texts in bytes.
fn texts_length(items: &[Item]) -> usize
    requires { length items.now ≤ 2 ^ 23 }
    ensures length { result ≡ sum_by (λ x. length (short_text x)) items.now }
    ensures small { result ≤ 65 * length items.now }
    ensures each { AllByRecursion IsItem items.now }
{
    let mut total = 0;
    for item in items {
        total += 1 + item.bytes().len();
    }
    total
}
