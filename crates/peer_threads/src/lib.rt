//! Sessions over any reader and writer, and workers that serve them in threads.
#![tactic(auto)]

mod booking;
mod bounds;
mod connection;
mod dial;
mod ending;
mod engines;
mod gate;
mod hello;
mod inbox;
mod kind;
mod noting;
mod piece;
mod pinned_ends;
mod sender;
mod shared;
mod stop;
mod talk;
mod tokens;
mod worker;
mod workers;

pub use connection::Connection;
pub use dial::{dial_one, dial_pinned};
pub use engines::serve_one;
pub use gate::{Gate, OpenGate};
pub use kind::kind_of;
pub use session_table::{Direction, Outcome, Source, SourceFault, WorkersReport};
pub use shared::Shared;
pub use worker::{Harvest, settle};
pub use workers::run_workers;
