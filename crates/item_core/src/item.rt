ghost use Rattle.std.specs.Prelude.{◌≡◌, ◌<◌, ◌≤◌, ◌↔◌, length, IfOk, IsOk, Err};
ghost use Rattle.definitions.specs.Items.{IsItem};

use crate::short::Short;
use std::marker::Model;

/// Why bytes are no item, or no bound.
#[derive(Clone, Copy, Debug, PartialEq, Eq)]
pub enum LengthFault {
    /// There are none, and at least one is wanted.
    Empty,
    /// There are more than 64.
    TooLong,
}

impl LengthFault {
    /// The number of the refusal: 71 or 72.
    pub fn number(self) -> u8
        ensures empty { self ≡ LengthFault.Empty → result ≡ 71 }
        ensures long { self ≡ LengthFault.TooLong → result ≡ 72 }
    {
        match self {
            LengthFault::Empty => 71,
            LengthFault::TooLong => 72,
        }
    }
}

/// A byte string of 1 to 64 bytes. Items are ordered bytewise, a proper prefix first.
#[derive(Clone, Copy, Debug, PartialEq, Eq, PartialOrd, Ord, Hash)]
pub struct Item {
    pub(crate) bytes: Short,
}

impl Model for Item {
    ghost use Rattle.definitions.specs.Items.{Item as Bytes, IsItem};

    ghost Value = { Bytes };

    ghost view = { λ a. a.bytes };

    ghost invariant = { λ a. IsItem a.bytes };

    ghost inverse = { λ xs. record { bytes = xs } };
}

impl Item {
    /// The item of these bytes, unless there are none or more than 64.
    pub fn new(bytes: &[u8]) -> Result<Item, LengthFault>
        ensures item { IfOk result (λ x. x ≡ bytes.now) }
        ensures ok { IsOk result ↔ ((1 ≤ length bytes.now) × (length bytes.now ≤ 64)) }
        ensures empty { (result ≡ Err LengthFault.Empty) ↔ (length bytes.now ≡ 0) }
        ensures long { (result ≡ Err LengthFault.TooLong) ↔ (64 < length bytes.now) }
    {
        if bytes.is_empty() {
            return Err(LengthFault::Empty);
        }
        match Short::new(bytes) {
            None => Err(LengthFault::TooLong),
            Some(bytes) => Ok(Item { bytes }),
        }
    }

    /// The item of these bytes, which are known to be 1 to 64. Nothing is tested.
    pub fn of(bytes: &[u8]) -> Item
        requires { (1 ≤ length bytes.now) × (length bytes.now ≤ 64) }
        ensures { result ≡ bytes.now }
    {
        Item {
            bytes: Short::of(bytes),
        }
    }

    /// The bytes, 1 to 64 of them.
    pub fn bytes(&self) -> &[u8]
        ensures bytes { result.now ≡ self.now }
        ensures item { IsItem self.now }
    {
        self.bytes.bytes()
    }
}
