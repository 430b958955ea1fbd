//! Sessions with many peers at once: loops that never wait for one of them.
#![tactic(auto)]

mod arriving;
mod asking;
mod board;
mod calling;
mod chosen;
mod common;
mod crowd;
mod desk;
mod desks;
mod dialing;
mod ending;
mod extent;
mod hand;
mod leaving;
mod link_gate;
mod links;
mod looping;
mod news;
mod note;
mod opening;
mod part;
mod part_gate;
mod parting;
mod partners;
mod pauses;
mod seats;
mod serving;
mod site;
mod talking;
mod visiting;

pub use board::{Board, Recent};
pub use calling::Links;
pub use chosen::{Front, WRONG_SET};
pub use common::Common;
pub use crowd::{PeerLimits, Service};
pub use hand::{Entered, Hand, HandFault};
pub use hub_core::Origins;
pub use links::{LinkRuntime, call_partners};
pub use news::News;
pub use part::Parts;
pub use part_gate::{PartGate, Told};
pub use partners::{Partner, Partners, Place};
pub use seats::Seats;
pub use serving::serve_peers;
