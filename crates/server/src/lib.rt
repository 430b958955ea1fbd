//! `serve`: sessions with those who connect, what is written of them, and how they are watched.
#![tactic(auto)]

mod asked;
mod book;
mod books;
mod caller;
mod callers;
mod door;
mod door_reading;
mod door_replies;
mod doors;
mod following;
mod ledger;
mod limits;
mod linking;
mod logging;
mod looking;
mod loops;
mod putting;
mod reporting;
mod rewriting;
mod serve;
mod starting;
mod stdio;
mod stocking;
#[cfg(test)]
mod tests;
mod watching;
mod yard;

pub use asked::serve_as_asked;
pub use loops::Loops;
pub use serve::Outputs;
