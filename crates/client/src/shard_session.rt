//! The session over a shard, which runs in a thread of its own.

ghost use Rattle.std.specs.Prelude.{◌≡◌, ◌≤◌, IfOk};
ghost use Rattle.std.specs.Arc.{arc_value};

use crate::calling::{Call, is_unknown};
use crate::directories::Asker;
use ends_core::Learned;
use peer_threads::Outcome;
use printing_core::{Fault, Stats, learned_in};
use range_tree::Tree;
use shard_core::{ShardPart, Which};
use std::alloc::{AllocError, Global};
use std::sync::{Arc, Wait};
use std::thread;
use std::thread::Threads;
use std::time::Clock;
use strategy_check::Accepted;
use version_log::Log;

/// A shard that is asked for, and our log of it.
#[derive(Drop)]
pub struct Work<'a> {
    /// The shard's number.
    pub number: u16,
    /// The address of the server that is asked.
    pub address: &'a str,
    /// The strategy.
    pub accepted: Arc<Accepted>,
    /// The log, which is let go with the session.
    pub log: Log<Tree>,
    ghost fits: { log.cap ≤ (arc_value accepted).table.cap },
}

impl<'a> Work<'a> {
    /// The same work again.
    pub fn copy(&self, alloc: Global) -> Result<Work<'a>, AllocError> {
        Ok(Work {
            number: self.number,
            address: self.address,
            accepted: Arc::try_clone(&self.accepted)?,
            log: self.log.copy(alloc)?,
        })
    }
}

/// A shard that is asked for over this connection.
#[derive(Drop)]
pub struct Ready<'a> {
    /// The shard, and our log of it.
    pub work: Work<'a>,
    /// The connection.
    pub call: Call<'a>,
}

/// How the session over a shard ended.
#[derive(Drop)]
pub struct Heard {
    /// The shard's number.
    pub number: u16,
    /// What was learned, or why it was not.
    pub found: Result<ShardPart, Fault>,
    /// What it cost, and how many messages were sent, if it was begun.
    pub cost: Option<(Stats, u32)>,
    /// Whether the server does not know the profile.
    pub unknown: bool,
}

/// What was learned of a shard.
fn learned_of(alloc: Global, number: u16, learned: &Learned) -> Result<ShardPart, AllocError>
    ensures { IfOk result (λ p. (p.number ≡ number) × (p.ours.items ≡ learned.now.ours)
        × (p.theirs.items ≡ learned.now.theirs)) }
{
    Ok(ShardPart {
        number,
        ours: learned.ours().to_vec(alloc)?,
        theirs: learned.theirs().to_vec(alloc)?,
    })
}

/// What a session over a shard learned, if it ended.
fn part_of(alloc: Global, number: u16, outcome: &Outcome) -> Result<ShardPart, Fault> {
    let learned = learned_in(outcome)?;
    Ok(learned_of(alloc, number, learned)?)
}

/// Runs the session over a shard.
fn run_one<R: Wait + Clock>(rt: &R, alloc: Global, asker: Asker<'_>, ready: Ready<'_>) -> Heard {
    let Ready { work, call } = ready;
    let Work {
        number,
        accepted,
        log,
        ..
    } = work;
    let talk = asker.talk(Which::Shard(number));
    match call.run_once(rt, alloc, &accepted, log, talk) {
        Ok((outcome, stats)) => Heard {
            number,
            found: part_of(alloc, number, &outcome),
            cost: Some((stats, outcome.sent())),
            unknown: is_unknown(&outcome),
        },
        Err(fault) => Heard {
            number,
            found: Err(fault),
            cost: None,
            unknown: false,
        },
    }
}

/// Runs these sessions at once, each in a thread of its own where one can be made.
pub fn run_batch<R: Threads + Wait + Clock + Sync>(
    rt: &R,
    alloc: Global,
    asker: Asker<'_>,
    batch: Vec<Ready<'_>>,
) -> Result<Vec<Heard>, AllocError> {
    thread::map_vec(rt, batch, &|ready| run_one(rt, alloc, asker, ready))
}
