//! The check of a strategy: what is accepted keeps its lists within the limit, and its cutting ends within its rounds.
//!
//! Ranks are why the cutting ends; they are kept as a staircase.
#![tactic(auto)]

mod accepted;
mod checking;
mod climb;
mod fault;
mod rank_fault;
mod ranks;
mod reasons;
mod staircase;

pub use accepted::Accepted;
pub use checking::{check, check_with};
pub use fault::{CheckError, CheckFault};
pub use rank_fault::{RankError, RankFault};
pub use ranks::Ranks;
