ghost use Rattle.std.specs.Prelude.{◌≡◌, ◌<◌, ◌≤◌, ◌↔◌, length, IfOk, IsOk, Err, Some, option_map, IfSome, IsSome};
ghost use Rattle.std.specs.Prelude.{IfNone};
ghost use Rattle.std.specs.Option.{option_copied};
ghost use Rattle.definitions.specs.Items.{IsUpper, is_below};
ghost use Rattle.item_core.specs.Bounds.{upper_value};
ghost use Rattle.item_core.specs.declared.upper.Upper.TheVariants.{Before};

use crate::item::{Item, LengthFault};

/// The upper bound of a range: an item, which the range does not hold, or the end, after every item.
#[derive(Clone, Copy, Debug, PartialEq, Eq, Hash)]
pub enum Upper {
    /// Before this item.
    Before(Item),
    /// After every item.
    End,
}

impl Upper {
    /// Before the item of these bytes, unless there are none or more than 64.
    pub fn new(bytes: &[u8]) -> Result<Upper, LengthFault>
        ensures bound { IfOk result (λ y. y ≡ Upper.Before bytes.now) }
        ensures ok { IsOk result ↔ ((1 ≤ length bytes.now) × (length bytes.now ≤ 64)) }
        ensures empty { (result ≡ Err LengthFault.Empty) ↔ (length bytes.now ≡ 0) }
        ensures long { (result ≡ Err LengthFault.TooLong) ↔ (64 < length bytes.now) }
    {
        Ok(Upper::Before(Item::new(bytes)?))
    }

    /// The bytes of the item that the range ends before, 1 to 64 of them; none at the end.
    pub fn bytes(&self) -> Option<&[u8]>
        ensures bytes { option_copied result ≡ upper_value self.now }
        ensures upper { IsUpper (upper_value self.now) }
    {
        match self {
            Upper::Before(item) => Some(item.bytes()),
            Upper::End => None,
        }
    }

    /// Whether the item is before the bound.
    pub fn is_above(&self, item: &Item) -> bool
        ensures above { result ≡ is_below item.now (upper_value self.now) }
        ensures upper { IsUpper (upper_value self.now) }
    {
        self.ends_after(item.bytes())
    }

    /// Whether these bytes are before the bound.
    pub(crate) fn ends_after(&self, bytes: &[u8]) -> bool
        ensures above { result ≡ is_below bytes.now (upper_value self.now) }
        ensures upper { IsUpper (upper_value self.now) }
    {
        match self {
            Upper::Before(item) => bytes.cmp(item.bytes()).is_lt(),
            Upper::End => true,
        }
    }
}

impl From<Item> for Upper {
    ghost from_gives = { λ x y. y ≡ Before x };

    fn from(item: Item) -> Upper {
        Upper::Before(item)
    }
}
