//! Many peers at once, each over a stream that never waits: none can change another, and what all keep has a limit.
#![tactic(auto)]

mod best;
mod due;
mod greeting;
mod hub;
mod keeping;
mod limits;
mod opening;
mod origins;
mod peer;
mod phase;

pub use due::HELLO;
pub use greeting::Greeting;
pub use hub::Hub;
pub use keeping::Keeping;
pub use limits::HubLimits;
pub use origins::Origins;
pub use peer::Peer;
pub use phase::Phase;
