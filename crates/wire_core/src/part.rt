ghost use Rattle.std.specs.Prelude.{◌≡◌, ◌↔◌, ◌++◌, OnOk, Some, None, IfOk, IfErr, IsOk};
ghost use Rattle.std.specs.Option.{option_copied};
ghost use Rattle.std.specs.Cmp.{partial_equiv_from_equiv};
ghost use Rattle.definitions.specs.Messages.{Sum, Listing, Answer, range_of};
ghost use Rattle.definitions.specs.Wire.{IsPart, part_text};
ghost use Rattle.definitions.specs.Faults as faults;
ghost use Rattle.wire_core.specs.Bodies.{part_of, Lists};
ghost use Rattle.wire_core.specs.Parts.{kind_of, sum_in, items_in, marks_in};
ghost use Rattle.wire_core.specs.Same.{same_part, same_part_equiv};
ghost use Rattle.wire_core.specs.PartFaults.{part_fault_number};

use crate::body::{Body, items_fault};
use crate::fault::PartFault;
use crate::marks::Marks;
use crate::spelling::push_frame;
use digest_core::{Fingerprint, WireSummary};
use item_core::{Item, Range};
use std::alloc::{AllocError, Global};
use std::marker::Model;

/// The kinds of part.
#[derive(Clone, Copy, Debug, PartialEq, Eq)]
pub enum PartKind {
    /// The fingerprint of the sender's items in the range.
    Sum,
    /// The sender's items in the range.
    List,
    /// For each item of a list that is answered, whether the sender lacks it, and the sender's items that the list had
    /// not.
    Answer,
}

/// A part of a message: a range, and what the sender says of its items there. Each part has a spelling.
#[derive(Debug, Drop)]
pub struct Part<F: WireSummary = Fingerprint> {
    range: Range,
    body: Body<F>,
}

impl<F: WireSummary> Model for Part<F> {
    ghost use Rattle.definitions.specs.Messages as messages;
    ghost use Rattle.definitions.specs.Wire.{IsPart};

    ghost Value = { messages.Part F };

    ghost use Rattle.wire_core.specs.Bodies.{part_of};

    ghost view = { λ a. part_of a.range a.body };

    ghost invariant = { λ a. IsPart F.profile (part_of a.range a.body) };
}

impl<F: WireSummary> Part<F> {
    /// The fingerprint of the sender's items in the range.
    pub fn sum(range: Range, sum: F) -> Part<F>
        ensures { result ≡ Sum range sum }
    {
        sum.known();
        Part {
            range,
            body: Body::Sum(sum),
        }
    }

    /// The sender's items in the range.
    ///
    /// The first item that is not greater than the one before it (8) or is outside the range (9) is refused, and
    /// then a body above its limit (2).
    pub fn list(range: Range, items: Vec<Item>) -> Result<Part<F>, PartFault>
        ensures part { IfOk result (λ p. p ≡ Listing range items.items) }
        ensures ok { IsOk result ↔ IsPart F.profile (Listing range items.items) }
        ensures fault { IfErr result (λ e. faults.part_fault F.profile (Listing range items.items)
            ≡ Some (part_fault_number e)) }
    {
        Part::checked(range, Body::List(items))
    }

    /// The sender's items in the range, which are known to rise and to lie in it. Nothing is tested.
    pub fn listing(range: Range, items: Vec<Item>) -> Part<F>
        requires { IsPart F.profile (Listing range items.items) }
        ensures { result ≡ Listing range items.items }
    {
        Part {
            range,
            body: Body::List(items),
        }
    }

    /// The marks for the items of a list that is answered, and the sender's items in the range that the list had not.
    ///
    /// Refused as a list is.
    pub fn answer(range: Range, marks: Marks, items: Vec<Item>) -> Result<Part<F>, PartFault>
        ensures part { IfOk result (λ p. p ≡ Answer range marks items.items) }
        ensures ok { IsOk result ↔ IsPart F.profile (Answer range marks items.items) }
        ensures fault { IfErr result (λ e. faults.part_fault F.profile (Answer range marks items.items)
            ≡ Some (part_fault_number e)) }
    {
        Part::checked(range, Body::Answer(marks, items))
    }

    /// The same part again.
    pub fn copy(&self, alloc: Global) -> Result<Part<F>, AllocError>
        ensures { IfOk result (λ p. p ≡ self.now) }
    {
        Ok(Part {
            range: self.range,
            body: self.body.copy(alloc)?,
        })
    }

    /// The kind.
    pub fn kind(&self) -> PartKind
        ensures { result ≡ kind_of self.now }
    {
        match &self.body {
            Body::Sum(_) => PartKind::Sum,
            Body::List(_) => PartKind::List,
            Body::Answer(_, _) => PartKind::Answer,
        }
    }

    /// The range.
    pub fn range(&self) -> &Range
        ensures range { result.now ≡ range_of self.now }
        ensures part { IsPart F.profile self.now }
    {
        &self.range
    }

    /// The fingerprint of a Sum.
    pub fn fingerprint(&self) -> Option<&F>
        ensures { option_copied result ≡ sum_in self.now }
    {
        match &self.body {
            Body::Sum(sum) => Some(sum),
            _ => None,
        }
    }

    /// The items of a List or an Answer.
    pub fn items(&self) -> Option<&[Item]>
        ensures { option_copied result ≡ items_in self.now }
    {
        match &self.body {
            Body::Sum(_) => None,
            Body::List(items) => Some(items),
            Body::Answer(_, items) => Some(items),
        }
    }

    /// The marks of an Answer.
    pub fn marks(&self) -> Option<&Marks>
        ensures { option_copied result ≡ marks_in self.now }
    {
        match &self.body {
            Body::Answer(marks, _) => Some(marks),
            _ => None,
        }
    }

    /// Appends the frame of the part.
    pub fn push(&self, out: &mut Vec<u8>) -> Result<(), AllocError>
        ensures { OnOk result (out.new.items ≡ out.old.items ++ part_text F.profile self.now) }
    {
        push_frame(out, &self.range, &self.body)
    }

    /// The part of fields that were read.
    pub(crate) fn of_fields(fields: (Range, Body<F>)) -> Part<F>
        requires { IsPart F.profile (part_of fields.0 fields.1) }
        ensures { result ≡ part_of fields.0 fields.1 }
    {
        Part {
            range: fields.0,
            body: fields.1,
        }
    }

    /// The part, unless it has no spelling.
    fn checked(range: Range, body: Body<F>) -> Result<Part<F>, PartFault>
        requires { Lists body }
        ensures part { IfOk result (λ p. p ≡ part_of range body) }
        ensures ok { IsOk result ↔ IsPart F.profile (part_of range body) }
        ensures fault { IfErr result (λ e. faults.part_fault F.profile (part_of range body)
            ≡ Some (part_fault_number e)) }
    {
        laws::codec::part_fault_is_exact::<F>();
        laws::codec::items_fault_is_exact();
        if let Some(fault) = items_fault(&range, body.items()) {
            return Err(fault);
        }
        if body.is_too_long(&range) {
            return Err(PartFault::FrameLength);
        }
        Ok(Part { range, body })
    }
}

impl<F: WireSummary> PartialEq for Part<F> {
    ghost eq = { same_part F.summary };

    ghost laws = { partial_equiv_from_equiv (same_part_equiv F.summary F.exact) };

    fn eq(&self, other: &Self) -> bool {
        self.range == other.range && self.body.is_same(&other.body)
    }
}

impl<F: WireSummary> Eq for Part<F> {
    ghost laws = { same_part_equiv F.summary F.exact };
}
