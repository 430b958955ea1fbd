//! Sets of items from which the items of a range are counted, summed and read, and lists of items that are kept packed.
#![tactic(auto)]

mod flat;
mod flat_store;
mod hashed_item;
mod packed_items;
mod range_store;
mod room;
pub mod set_laws;
mod span;
pub mod spans;
pub mod sums;

pub use flat_store::FlatStore;
pub use hashed_item::HashedItem;
pub use packed_items::PackedItems;
pub use range_store::{Insertion, RangeStore};
pub use room::make_room;
pub use span::Span;
