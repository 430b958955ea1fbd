//! Laws of the wire format, of tables and their ranks, and of replies, talks and runs, for every fingerprint. Each is
//! the contract of a function with an empty body, and names its heading of docs/LAWS.md, which tells it in words and
//! says why it holds.
#![tactic(auto)]

pub mod codec;
pub mod compact;
pub mod ranks;
pub mod talks;
