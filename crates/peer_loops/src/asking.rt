//! Which shards of a partner differ: both directories are compared by a session.

ghost use Rattle.std.specs.Prelude.{◌≡◌, ◌≤◌, false, IfOk, IfSome};
ghost use Rattle.std.specs.Arc.{arc_value};
ghost use Rattle.shard_core.specs.Shards.{max_bits};
ghost use Rattle.shard_core.specs.Directories.{differing};

use crate::calling::{Callee, Caller, Over, Ways, now, reach};
use crate::chosen::WRONG_SET;
use crate::desks::Desks;
use crate::extent::Extent;
use crate::link_gate::LinkGate;
use crate::part_gate::PartGate;
use digest_core::Fingerprint;
use ends_core::Learned;
use item_core::Range;
use peer_threads::{Gate, Outcome, Shared, dial_one};
use range_tree::Tree;
use shard_core::{DirectoryFault, SetName, Unequal, Which, differing};
use std::alloc::Global;
use std::net::{Net, TcpStream};
use std::sync::{Arc, Wait};
use std::time::Clock;
use store_core::RangeStore;
use strategy_check::Accepted;
use tcp_front::Stream;
use version_lock::VersionLock;
use version_log::Log;
use watch_core::Turn;

/// The number of the refusal of a directory with an item that is no entry.
const BAD_ENTRY: u8 = 57;

/// The log of a directory, under a strategy for as many entries. None where that allows fewer.
fn log_of(alloc: Global, accepted: &Arc<Accepted>, directory: Tree) -> Option<Log<Tree>>
    ensures { IfSome result (λ log. log.cap ≤ (arc_value accepted.now).table.cap) }
{
    let cap = accepted.cap();
    if directory.len() > cap as usize {
        return None;
    }
    Some(Log::of_store(alloc, cap, directory))
}

/// The shards whose entries differ, by what a session over both directories learned. Else 57, or cut off without
/// memory.
fn unequal_of(alloc: Global, set: SetName<'_>, learned: &Learned) -> Result<Vec<Unequal>, Turn>
    ensures { IfOk result (λ v. v.items ≡ differing set.entry.bits learned.now.ours learned.now.theirs) }
{
    let ours = learned.ours().to_vec(alloc)?;
    let theirs = learned.theirs().to_vec(alloc)?;
    match differing(alloc, set.bits, &ours, &theirs) {
        Ok(unequal) => Ok(unequal),
        Err(DirectoryFault::Bad(_)) => Err(Turn::Refuses(BAD_ENTRY)),
        Err(DirectoryFault::Memory) => Err(Turn::CutOff),
    }
}

impl<R: Wait + Clock, G: PartGate> Caller<'_, '_, R, G> {
    /// Runs the session over this directory.
    fn dial_directory(&self, log: Log<Tree>, gate: &LinkGate<'_, G>, ways: &mut Ways<'_>) -> Outcome
        requires fits { log.cap ≤ (arc_value self.now.common.now.accepted.now).table.cap }
        requires fresh { (ways.old.reader.failed ≡ false) × (ways.old.reader.ended ≡ false)
            × (ways.old.writer.failed ≡ false) }
    {
        let Ok((lock, mut seat)) = VersionLock::new(self.alloc, log) else {
            return Outcome::Memory { sent: 0 };
        };
        let shared = Shared {
            lock: &lock,
            accepted: self.common.accepted,
            sessions: self.common.sessions,
            gate,
        };
        dial_one::<_, _, _, _, _, Fingerprint>(self.rt, self.alloc, &shared, &mut seat, ways)
    }

    /// Compares the directories of the items of this range on this connection. Which shards differ.
    fn compare(
        &self,
        log: Log<Tree>,
        set: SetName<'_>,
        callee: Callee<'_>,
        place: (&Stream, &Range),
    ) -> Result<Vec<Unequal>, Turn>
        requires fits { log.cap ≤ (arc_value self.now.common.now.accepted.now).table.cap }
    {
        let (stream, range) = place;
        let began = now(self.rt);
        let address = stream.address();
        let which = Which::Directory;
        let gate = LinkGate::new(self.common.gate, callee.address, Some(which));
        let mut ways = match self.ways(stream, which, range) {
            Ok(ways) => ways,
            Err(outcome) => return Err(Turn::of(&outcome)),
        };
        let outcome = self.dial_directory(log, &gate, &mut ways);
        let unequal = match &outcome {
            Outcome::Ended { learned, .. } => unequal_of(self.alloc, set, learned),
            _ => Err(Turn::of(&outcome)),
        };
        let over = Over {
            stream,
            address,
            serial: gate.serial(),
            which,
            began,
        };
        self.see_off(over, ways, outcome);
        unequal
    }
}

impl<R: Net<Stream = TcpStream> + Wait + Clock, G: PartGate> Caller<'_, '_, R, G> {
    /// Asks a partner for its directory. Which of its shards differ from ours.
    pub(crate) fn ask_directory(
        &self,
        desks: &mut Desks,
        set: SetName<'_>,
        callee: Callee<'_>,
    ) -> Result<Vec<Unequal>, Turn> {
        let Ok(stream) = reach(self.rt, callee, self.links.patience) else {
            return Err(Turn::NotReached);
        };
        let floor = self.common.gate.floor();
        let extent = Extent {
            floor: &floor.range,
            range: &floor.range,
        };
        let directory = desks.directory_now(self.rt, self.alloc, extent)?;
        let Some(log) = log_of(self.alloc, self.common.accepted, directory) else {
            return Err(Turn::Refuses(WRONG_SET));
        };
        self.compare(log, set, callee, (&stream, &floor.range))
    }
}
