//! Strategy tables: read from TOML, and asked what is done with a range of so many items.
#![tactic(auto)]

mod act;
mod bounds;
mod fault;
mod field;
mod opening;
mod peeling;
mod reading;
mod row;
mod strategy;
mod weights;

pub use act::{Act, Cutting};
pub use bounds::Bounds;
pub use fault::{StrategyError, StrategyFault, StrategyFlaw};
pub use field::Field;
pub use opening::Opening;
pub use reading::{document, member};
pub use strategy::Strategy;
