//! Placing: whether a message may follow the message that it answers, told part by part.
#![tactic(auto)]

mod cursor;
mod fault;
mod fit;
mod place;
mod placing;

pub use cursor::Cursor;
pub use fault::PlaceFault;
pub use place::Place;
pub use placing::{place_message, place_opening};
