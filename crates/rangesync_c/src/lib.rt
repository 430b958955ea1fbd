//! The functions that C calls. Each returns 0, or the number of a refusal, or 98 where what is asked has no room or is
//! not there, or 99 for a handle of another kind; where it is not 0, no handle was made.
#![tactic(auto)]

mod any_session;
mod asked;
mod between;
mod codes;
mod differing;
mod fault;
mod front;
mod held;
mod items;
mod learned;
mod loose;
mod sessions;
mod set;
mod sets;
mod sharded;
mod shards;
mod stores;
mod strategies;
mod strategy;
mod versions;

use held::Held;

/// Gives a handle of any kind back.
#[unsafe(no_mangle)]
pub extern "C" fn rs_free(handle: Held) {
    let _thing = handle.into_thing();
}
