//! Runs of nodes and sessions.
#![tactic(auto)]

mod node;
mod report;
mod session;
mod setup;
mod step;
mod world;

pub use report::{Lists, Report};
pub use setup::{Setup, SetupFault};
pub use step::{Did, Step};
pub use world::{World, run};
