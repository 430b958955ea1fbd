//! A lock round one log. Each thread calls it with a seat, whose view says what it has seen.
#![tactic(auto)]

mod fault;
mod lock;
pub mod lock_laws;
mod pin;
mod seat;
mod steps;
mod taking;
mod view;

pub use fault::{InsertFault, PinFault};
pub use lock::VersionLock;
pub use pin::Pin;
pub use seat::Seat;
pub use steps::OneHistory;
pub use view::View;
