//! Log versions: a history of items and their writers, beside a store of its items.
#![tactic(auto)]

mod answer;
mod arrival;
mod entry;
mod front;
mod log;

pub use answer::{Added, LogFault, WritersSpent};
pub use entry::Entry;
pub use log::Log;
