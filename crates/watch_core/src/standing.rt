//! How a server stands.

use crate::partnered::Partnered;

/// How a server stands at the moment at which it is asked.
#[derive(Clone, Copy, Debug, PartialEq, Eq)]
pub struct Standing<'a> {
    /// The version of the program.
    pub program: &'a str,
    /// The address at which sessions are served.
    pub address: &'a str,
    /// What the set is called; empty if it has no name.
    pub set: &'a str,
    /// The file in which the set is kept; empty if it is in none.
    pub file: &'a str,
    /// How many items the set has.
    pub items: u64,
    /// How many items the set may have.
    pub cap: u64,
    /// The number of the newest version.
    pub version: u64,
    /// How many items of peers were put into the set.
    pub inserted: u64,
    /// How many items of peers were not put in since the set was full or memory ran out.
    pub dropped: u64,
    /// How many lines wait to be written, over all files.
    pub waiting: u64,
    /// How many writes to files failed.
    pub failures: u64,
    /// How many sessions are live.
    pub live: u64,
    /// How many peers are connected.
    pub peers: u64,
    /// How many bytes of memory are counted for all of them.
    pub kept: u64,
    /// How many milliseconds the server has run.
    pub ran: u64,
    /// The time, in milliseconds of the clock by which visits end.
    pub moment: u64,
    /// How its partners stand.
    pub partners: &'a [Partnered<'a>],
}
