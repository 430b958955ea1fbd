//! Fingerprints of sets of items.
#![tactic(auto)]

mod counted;
mod fingerprint;
pub mod lane_laws;
mod print;
mod summary;

pub use counted::Counted;
pub use fingerprint::Fingerprint;
pub use print::Print;
pub use summary::{Summary, WireSummary};
