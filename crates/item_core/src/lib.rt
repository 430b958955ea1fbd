//! Items and ranges of items.
#![tactic(auto)]

mod item;
mod listed;
mod lower;
mod prefix;
mod range;
mod short;
mod upper;

pub use item::{Item, LengthFault};
pub use listed::is_listed;
pub use lower::Lower;
pub use range::{EmptyRange, Range};
pub use upper::Upper;
