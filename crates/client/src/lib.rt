//! `sync`: sessions with those who listen, over one set or over its shards, and what is printed of them. And the
//! commands that ask a server on this machine at its door.
#![tactic(auto)]

mod asked;
mod calling;
mod costs;
mod directories;
mod door;
mod http;
mod keeping;
mod printing;
mod reaching;
mod resumed;
mod sessions;
mod shard_session;
mod stdio;
mod sync;
mod sync_shards;
mod talking;
mod trying;

pub use asked::sync_as_asked;
pub use door::{news, put, status, stop};
