//! Sessions over shards, several at once.

ghost use Rattle.std.specs.Prelude.{◌≡◌, ◌↔◌, IsTrue};
ghost use Rattle.settings_core.specs.declared.profiles.AskedProfile.TheVariants as asked;

use crate::calling::Call;
use crate::costs::Costs;
use crate::directories::Asker;
use crate::shard_session::{Heard, Ready, Work, run_batch};
use crate::trying::Tries;
use item_files::WireProfile;
use printing_core::{Fault, Refusal, Stats, end_progress, tell_progress, tell_stats};
use settings_core::AskedProfile;
use shard_core::ShardPart;
use std::alloc::{AllocError, Global};
use std::io::Write;
use std::mem;
use std::net::{Net, TcpStream};
use std::rt::Files;
use std::sync::Wait;
use std::thread::Threads;
use std::time::Clock;

/// What came of the session over a shard, and its work, if it was kept.
#[derive(Drop)]
struct Came<'a> {
    number: u16,
    found: Result<ShardPart, Fault>,
    cost: Option<(Stats, u32)>,
    unknown: bool,
    again: Option<Work<'a>>,
}

/// Shards that are asked for at once: those to which there is a connection, the same works again in the same order, if
/// they are kept, and those to which there is none, with the fault of the first of these.
#[derive(Drop)]
struct Batch<'a> {
    ready: Vec<Ready<'a>>,
    kept: Vec<Work<'a>>,
    left: Vec<Work<'a>>,
    fault: Option<Refusal<'a>>,
}

impl<'a> Batch<'a> {
    /// Connects to the server of a shard, unless one was not reached before. The work is kept where it may be tried
    /// again, also in another profile.
    fn add<R: Files + Net<Stream = TcpStream> + AllocGlobal>(
        &mut self,
        rt: &R,
        crew: Crew<'_>,
        work: Work<'a>,
    ) -> Result<(), AllocError> {
        if self.fault.is_some() {
            self.left.push(work)?;
            return Ok(());
        }
        match Call::to(rt, work.address, crew.asker.limits.patience) {
            Ok(call) => {
                if crew.keeps || crew.is_best() {
                    self.kept.push(work.copy(rt.alloc())?)?;
                }
                self.ready.push(Ready { work, call })?;
            }
            Err(refusal) => {
                self.fault = Some(refusal);
                self.left.push(work)?;
            }
        }
        Ok(())
    }
}

/// Connects to the servers of these shards, one after the other, until one is not reached.
fn connect_all<'a, R: Files + Net<Stream = TcpStream> + AllocGlobal>(
    rt: &R,
    crew: Crew<'_>,
    works: Vec<Work<'a>>,
) -> Result<Batch<'a>, AllocError> {
    let alloc = rt.alloc();
    let mut batch = Batch {
        ready: Vec::new(alloc),
        kept: Vec::new(alloc),
        left: Vec::new(alloc),
        fault: None,
    };
    for work in works {
        batch.add(rt, crew, work)?;
    }
    Ok(batch)
}

/// What came of all sessions over shards.
#[derive(Drop)]
pub struct Gathered<'a> {
    /// What those learned that ended.
    pub parts: Vec<ShardPart>,
    /// The shards that were not done.
    pub undone: Vec<u16>,
    /// The first of these, and why it was not.
    pub first: Option<(u16, Refusal<'a>)>,
    /// Those that are tried again.
    again: Vec<Work<'a>>,
    /// Those that are asked for in profile 1, as their servers do not know the compact one.
    plain: Vec<Work<'a>>,
    /// What all sessions cost.
    pub costs: Costs,
    /// How many items were found.
    pub items: usize,
}

impl<'a> Gathered<'a> {
    /// Nothing came so far.
    pub fn new(alloc: Global, costs: Costs) -> Gathered<'a> {
        Gathered {
            parts: Vec::new(alloc),
            undone: Vec::new(alloc),
            first: None,
            again: Vec::new(alloc),
            plain: Vec::new(alloc),
            costs,
            items: 0,
        }
    }

    /// Tells what all sessions cost up to now, if there was one.
    pub fn tell_costs<R: Clock, E: Write>(&self, rt: &R, err: &mut E) {
        if let Some(stats) = self.costs.stats(rt) {
            tell_stats(err, stats);
        }
    }

    /// Takes what a session learned.
    fn take_part(&mut self, part: ShardPart) -> Result<(), AllocError> {
        let items = part.ours.len().saturating_add(part.theirs.len());
        self.items = self.items.saturating_add(items);
        self.parts.push(part)?;
        Ok(())
    }

    /// Takes what came of a session. Where it did not come to its end and may do so, its work is tried again, if that is
    /// asked for; and where the server does not know the best profile, it is asked for in profile 1.
    fn take(&mut self, crew: Crew<'_>, came: Came<'a>) -> Result<(), AllocError> {
        let Came {
            number,
            found,
            cost,
            unknown,
            again,
        } = came;
        let again = match again {
            Some(work) if unknown && crew.is_best() => return Ok(self.plain.push(work)?),
            again => again,
        };
        let mut received = 0;
        if let Some((stats, sent)) = cost {
            received = stats.received.bytes;
            self.costs.add(stats, sent);
        }
        let fault = match found {
            Ok(part) => return self.take_part(part),
            Err(fault) => fault,
        };
        match again {
            Some(work) if crew.keeps && fault.may_pass() => {
                self.again.push(work)?;
                Ok(())
            }
            _ => self.leave(
                number,
                Refusal::of_session_after(crew.asker.limits, received, fault),
            ),
        }
    }

    /// Takes that a shard was not done.
    fn leave(&mut self, number: u16, refusal: Refusal<'a>) -> Result<(), AllocError> {
        let is_first = match &self.first {
            Some((first, _)) => number < *first,
            None => true,
        };
        if is_first {
            self.first = Some((number, refusal));
        }
        self.undone.push(number)?;
        Ok(())
    }

    /// Takes what came of sessions, whose works are these in the same order, if they were kept.
    fn take_all(
        &mut self,
        crew: Crew<'_>,
        all: Vec<Heard>,
        kept: Vec<Work<'a>>,
    ) -> Result<(), AllocError> {
        let mut kept = kept;
        kept.reverse();
        for heard in all {
            let Heard {
                number,
                found,
                cost,
                unknown,
            } = heard;
            self.take(
                crew,
                Came {
                    number,
                    found,
                    cost,
                    unknown,
                    again: kept.pop(),
                },
            )?;
        }
        Ok(())
    }

    /// Takes that these shards were not asked for, for this fault of the first, or that they are tried again. Whether
    /// there is no such fault.
    fn leave_unreached(
        &mut self,
        crew: Crew<'_>,
        left: Vec<Work<'a>>,
        fault: Option<Refusal<'a>>,
    ) -> Result<bool, AllocError> {
        let Some(refusal) = fault else {
            return Ok(true);
        };
        if crew.keeps && refusal.fault.may_pass() {
            let mut left = left;
            self.again.append(&mut left)?;
            return Ok(false);
        }
        let mut refusal = Some(refusal);
        for work in left {
            match refusal.take() {
                Some(refusal) => self.leave(work.number, refusal)?,
                None => self.undone.push(work.number)?,
            }
        }
        Ok(false)
    }

    /// Takes that these shards were not asked for, or that they are tried again with those that are.
    fn leave_all(&mut self, works: Vec<Work<'a>>) -> Result<(), AllocError> {
        let again = !self.again.is_empty();
        for work in works {
            if again {
                self.again.push(work)?;
            } else {
                self.undone.push(work.number)?;
            }
        }
        Ok(())
    }

    /// The works that are asked for in profile 1, which are taken out.
    fn take_plain(&mut self, alloc: Global) -> Vec<Work<'a>> {
        mem::replace(&mut self.plain, Vec::new(alloc))
    }

    /// The works that are tried again, which are taken out.
    fn take_again(&mut self, alloc: Global) -> Vec<Work<'a>> {
        mem::replace(&mut self.again, Vec::new(alloc))
    }
}

/// How sessions over shards are run.
#[derive(Clone, Copy)]
pub struct Crew<'a> {
    /// How the servers are asked.
    pub asker: Asker<'a>,
    /// How many sessions run at once, at least one.
    pub at_once: usize,
    /// How many shards are asked for, if that is shown as it goes on.
    pub shown: Option<usize>,
    /// Whether the works are kept, to be tried again.
    pub keeps: bool,
}

impl<'a> Crew<'a> {
    /// Whether the best profile is asked for.
    fn is_best(self) -> bool
        ensures { IsTrue result ↔ (self.entry.asker.profile ≡ asked.Best) }
    {
        self.asker.profile == AskedProfile::Best
    }

    /// The same crew, in this profile and no other.
    fn only_in(self, profile: WireProfile) -> Crew<'a>
        ensures { result.asker.profile ≡ asked.Exactly profile }
    {
        Crew {
            asker: self.asker.only_in(profile),
            ..self
        }
    }

    /// Shows how far all is.
    fn show<E: Write>(&self, gathered: &Gathered<'_>, err: &mut E) {
        if let Some(of) = self.shown {
            let done = gathered.parts.len().saturating_add(gathered.undone.len());
            tell_progress(err, done, of, gathered.items);
        }
    }
}

/// Runs the sessions over these shards at once. Whether all their servers were reached.
fn ask_some<'a, R>(
    rt: &R,
    crew: Crew<'a>,
    works: Vec<Work<'a>>,
    gathered: &mut Gathered<'a>,
) -> Result<bool, AllocError>
where
    R: Files + Net<Stream = TcpStream> + Threads + Wait + Clock + AllocGlobal + Sync,
{
    let Batch {
        ready,
        kept,
        left,
        fault,
    } = connect_all(rt, crew, works)?;
    let came = run_batch(rt, rt.alloc(), crew.asker, ready)?;
    gathered.take_all(crew, came, kept)?;
    gathered.leave_unreached(crew, left, fault)
}

/// The same, and once more in profile 1 over those whose servers do not know the compact one, if the best profile is
/// asked for.
fn run_some<'a, R>(
    rt: &R,
    crew: Crew<'a>,
    works: Vec<Work<'a>>,
    gathered: &mut Gathered<'a>,
) -> Result<bool, AllocError>
where
    R: Files + Net<Stream = TcpStream> + Threads + Wait + Clock + AllocGlobal + Sync,
{
    let reached = ask_some(rt, crew, works, gathered)?;
    let plain = gathered.take_plain(rt.alloc());
    if plain.is_empty() {
        return Ok(reached);
    }
    let reached_again = ask_some(rt, crew.only_in(WireProfile::One), plain, gathered)?;
    Ok(reached && reached_again)
}

/// Runs a session over each of these shards, so many at once, and takes what comes of them. Where a server is not
/// reached, the shards after that one are not asked for.
fn run_all<'a, R, E: Write>(
    rt: &R,
    crew: Crew<'a>,
    works: Vec<Work<'a>>,
    gathered: &mut Gathered<'a>,
    err: &mut E,
) -> Result<(), AllocError>
where
    R: Files + Net<Stream = TcpStream> + Threads + Wait + Clock + AllocGlobal + Sync,
{
    let mut works = works;
    while !works.is_empty() {
        let later = works.split_off(crew.at_once.max(1).min(works.len()))?;
        let goes_on = run_some(rt, crew, works, gathered)?;
        crew.show(gathered, err);
        works = later;
        if !goes_on {
            return gathered.leave_all(works);
        }
    }
    Ok(())
}

/// The same, and again over those of them that did not come to their end and may do so, as often as is still asked for.
/// Each log is let go with its last session.
pub fn run_sessions<'a, R, E: Write>(
    rt: &R,
    crew: Crew<'a>,
    works: Vec<Work<'a>>,
    gathered: &mut Gathered<'a>,
    (tries, err): (&mut Tries, &mut E),
) -> Result<(), AllocError>
where
    R: Files + Net<Stream = TcpStream> + Threads + Wait + Clock + AllocGlobal + Sync,
{
    let mut works = works;
    let keeping = Crew {
        keeps: true,
        ..crew
    };
    for _try in 0..tries.left() {
        run_all(rt, keeping, works, gathered, err)?;
        works = gathered.take_again(rt.alloc());
        if works.is_empty() {
            return Ok(());
        }
        if crew.shown.is_some() {
            end_progress(err);
        }
        tries.pause(rt, err);
    }
    run_all(rt, crew, works, gathered, err)
}
