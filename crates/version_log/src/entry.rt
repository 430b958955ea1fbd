ghost use Rattle.std.specs.Prelude.{◌≡◌};

use item_core::Item;
use std::marker::Model;

/// An item of a history, and the number of the writer that brought it.
#[derive(Clone, Copy, Debug, PartialEq, Eq)]
pub struct Entry {
    writer: u32,
    item: Item,
}

impl Model for Entry {
    ghost use Rattle.std.specs.Prelude.{ℕ};
    ghost use Rattle.definitions.specs.Items as items;

    ghost Value = { ℕ × items.Item };

    ghost view = { λ a. (a.writer, a.item) };

    ghost inverse = { λ e. record { writer = e.0; item = e.1 } };
}

impl Entry {
    /// The entry of this item by this writer.
    pub(crate) fn new(writer: u32, item: Item) -> Entry
        ensures { result ≡ (writer, item) }
    {
        Entry { writer, item }
    }

    /// The number of the writer; 0 where the log was opened with the item.
    pub fn writer(&self) -> u32
        ensures { result ≡ self.now.0 }
    {
        self.writer
    }

    /// The item.
    pub fn item(&self) -> &Item
        ensures { result.now ≡ self.now.1 }
    {
        &self.item
    }
}
