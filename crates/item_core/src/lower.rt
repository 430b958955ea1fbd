ghost use Rattle.std.specs.Prelude.{◌≡◌, ◌<◌, ◌≤◌, ◌↔◌, length, IfOk, IsOk, Err, []};
ghost use Rattle.definitions.specs.Items.{IsLower, comes_before};

use crate::item::{Item, LengthFault};
use crate::short::Short;
use std::marker::Model;

/// The lower bound of a range: 0 to 64 bytes. The empty one is the start, before every item.
#[derive(Clone, Copy, Debug, PartialEq, Eq, PartialOrd, Ord, Hash)]
pub struct Lower {
    bytes: Short,
}

impl Model for Lower {
    ghost use Rattle.std.specs.Prelude.{List, ℕ};
    ghost use Rattle.definitions.specs.Items.{IsLower};

    ghost Value = { List ℕ };

    ghost view = { λ a. a.bytes };

    ghost invariant = { λ a. IsLower a.bytes };

    ghost inverse = { λ xs. record { bytes = xs } };
}

impl Lower {
    /// The start, before every item.
    pub fn start() -> Lower
        ensures { result ≡ [] }
    {
        Lower {
            bytes: Short::empty(),
        }
    }

    /// The bound of these bytes, unless there are more than 64.
    pub fn new(bytes: &[u8]) -> Result<Lower, LengthFault>
        ensures bound { IfOk result (λ x. x ≡ bytes.now) }
        ensures ok { IsOk result ↔ (length bytes.now ≤ 64) }
        ensures long { (result ≡ Err LengthFault.TooLong) ↔ (64 < length bytes.now) }
    {
        match Short::new(bytes) {
            None => Err(LengthFault::TooLong),
            Some(bytes) => Ok(Lower { bytes }),
        }
    }

    /// The bound of these bytes, which are known to be no more than 64. Nothing is tested.
    pub fn of(bytes: &[u8]) -> Lower
        requires { length bytes.now ≤ 64 }
        ensures { result ≡ bytes.now }
    {
        Lower {
            bytes: Short::of(bytes),
        }
    }

    /// The bytes, 0 to 64 of them.
    pub fn bytes(&self) -> &[u8]
        ensures bytes { result.now ≡ self.now }
        ensures lower { IsLower self.now }
    {
        self.bytes.bytes()
    }

    /// Whether the item is before the bound, so that a range from there on does not hold it.
    pub fn is_above(&self, item: &Item) -> bool
        ensures above { result ≡ comes_before item.now self.now }
        ensures lower { IsLower self.now }
    {
        self.starts_after(item.bytes())
    }

    /// Whether these bytes are before the bound.
    pub(crate) fn starts_after(&self, bytes: &[u8]) -> bool
        ensures above { result ≡ comes_before bytes.now self.now }
        ensures lower { IsLower self.now }
    {
        bytes.cmp(self.bytes()).is_lt()
    }
}

impl From<Item> for Lower {
    ghost from_gives = { λ x y. y ≡ x };

    fn from(item: Item) -> Lower {
        Lower { bytes: item.bytes }
    }
}
