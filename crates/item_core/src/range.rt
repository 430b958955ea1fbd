ghost use Rattle.std.specs.Prelude.{◌≡◌, ◌↔◌, IfOk, IsOk, IsTrue, IsFalse, IfErr, OnErr, [], None};
ghost use Rattle.definitions.specs.Items as items;
ghost use Rattle.definitions.specs.Items.{IsRange, Partitions};
ghost use Rattle.item_core.specs.Bounds.{upper_value, upper_from};

use crate::item::Item;
use crate::lower::Lower;
use crate::upper::Upper;
use std::marker::Model;

/// The lower bound is not below the upper one.
#[derive(Clone, Copy, Debug, PartialEq, Eq)]
pub struct EmptyRange;

impl EmptyRange {
    /// The number of the refusal: 73.
    pub fn number(self) -> u8
        ensures { result ≡ 73 }
    {
        73
    }
}

/// The items from the lower bound on and before the upper one.
#[derive(Clone, Copy, Debug, PartialEq, Eq, Hash)]
pub struct Range {
    lower: Lower,
    upper: Upper,
}

impl Model for Range {
    ghost use Rattle.std.specs.Prelude.{refl};
    ghost use Rattle.definitions.specs.Items.{Range as Bounds, IsRange};
    ghost use Rattle.item_core.specs.Bounds.{upper_value, upper_from, upper_again};

    ghost Value = { Bounds };

    ghost view = { λ a. record { lower = a.lower; upper = upper_value a.upper } };

    ghost invariant = { λ a. IsRange (record { lower = a.lower; upper = upper_value a.upper }) };

    ghost inverse = { λ X. record { lower = X.lower; upper = upper_from X.upper } };

    ghost inverse_ok = { λ a h i. record { lower = a.lower; upper = upper_again a.upper i } };
}

impl Range {
    /// The range between the bounds, unless the lower one is not below the upper one.
    pub fn new(lower: Lower, upper: Upper) -> Result<Range, EmptyRange>
        ensures range { IfOk result (λ X. X ≡ record { lower = lower; upper = upper_value upper }) }
        ensures ok { IsOk result ↔ IsTrue (items.is_below lower (upper_value upper)) }
    {
        if upper.ends_after(lower.bytes()) {
            Ok(Range { lower, upper })
        } else {
            Err(EmptyRange)
        }
    }

    /// The range of all items.
    pub fn whole() -> Range
        ensures { result ≡ items.whole }
    {
        Range {
            lower: Lower::start(),
            upper: Upper::End,
        }
    }

    /// The lower bound.
    pub fn lower(&self) -> &Lower
        ensures lower { result.now ≡ self.now.lower }
        ensures range { IsRange self.now }
    {
        &self.lower
    }

    /// The upper bound.
    pub fn upper(&self) -> &Upper
        ensures upper { upper_value result.now ≡ self.now.upper }
        ensures range { IsRange self.now }
    {
        &self.upper
    }

    /// Whether the range holds the item.
    pub fn contains(&self, item: &Item) -> bool
        ensures { result ≡ items.contains self.now item.now }
    {
        self.contains_bytes(item.bytes())
    }

    /// Whether the range holds the item of these bytes.
    pub fn contains_bytes(&self, bytes: &[u8]) -> bool
        ensures { result ≡ items.contains self.now bytes.now }
    {
        let Range { lower, upper } = self;
        !lower.starts_after(bytes) && upper.ends_after(bytes)
    }

    /// Whether the parts make up the range: the first begins where the range does, each later one where the one
    /// before it ends, and the last ends where the range does.
    pub fn splits_into(&self, parts: &[Range]) -> bool
        ensures { IsTrue result ↔ Partitions self.now parts.now }
    {
        let Range { lower, upper } = self;
        let mut seam = Some(lower.bytes());
        for part in parts {
            if seam != Some(part.lower.bytes()) {
                return false;
            }
            seam = part.upper.bytes();
        }
        !parts.is_empty() && seam == upper.bytes()
    }
}
