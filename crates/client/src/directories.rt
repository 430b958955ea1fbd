//! The directories of servers, and which server is asked for which shard.

ghost use Rattle.std.specs.Prelude.{◌≡◌, ◌≤◌, ◌<◌, length, IfOk};
ghost use Rattle.std.specs.Arc.{arc_value};
ghost use Rattle.std.proofs.lemmas.Map.Keys.{IsStrictlySortedBy-prop};
ghost use Rattle.definitions.specs.Items.{item_cmp};
ghost use Rattle.definitions.specs.Sets.{IsSet};
ghost use Rattle.shard_core.specs.Shards.{max_bits};
ghost use Rattle.shard_core.specs.Directories.{differing};
ghost use Rattle.shard_core.specs.Choices.{AreBelow};
ghost use Rattle.settings_core.specs.declared.profiles.AskedProfile.TheVariants as asked;
ghost use Rattle.version_log.specs.Logs.{IsCap};

use crate::calling::Call;
use crate::costs::Costs;
use crate::talking::{Spoken, Talk};
use crate::trying::Tries;
use ends_core::Learned;
use item_core::{Item, Range};
use item_files::WireProfile;
use peer_threads::Outcome;
use printing_core::{Fault, Refusal, learned_in};
use settings_core::AskedProfile;
use shard_core::{
    Asked, ChoiceFault, DirectoryFault, SetName, Unequal, Which, asked_of, differing,
};
use std::alloc::Global;
use std::io::Write;
use std::net::{Net, TcpStream};
use std::rt::Files;
use std::sync::{Arc, Wait};
use std::time::Clock;
use strategy_check::Accepted;
use tcp_front::Limits;
use version_log::Log;

/// How servers are asked for parts of a set.
#[derive(Clone, Copy)]
pub struct Asker<'a> {
    /// The wire profile that is spoken.
    pub profile: AskedProfile,
    /// What a connection may cost.
    pub limits: Limits,
    /// What the set is called, and how it is cut.
    pub set: SetName<'a>,
    /// The range of the items that are spoken of.
    pub part: &'a Range,
}

impl<'a> Asker<'a> {
    /// The same in this profile and no other.
    pub fn only_in(self, profile: WireProfile) -> Asker<'a>
        ensures { result.profile ≡ asked.Exactly profile }
    {
        Asker {
            profile: AskedProfile::Exactly(profile),
            ..self
        }
    }

    /// How a session over this part is run.
    pub fn talk(&self, which: Which) -> Talk<'a>
        ensures { (result.profile ≡ self.now.profile) × (result.limits ≡ self.now.limits) }
    {
        Talk {
            profile: self.profile,
            limits: self.limits,
            set: Some(Spoken {
                set: self.set,
                which,
                range: self.part,
            }),
        }
    }
}

/// The own side of a session over a directory.
#[derive(Clone, Copy)]
pub struct Own<'a> {
    /// The strategy.
    pub accepted: &'a Arc<Accepted>,
    /// The greatest number of entries.
    pub cap: u32,
    /// The entries of our shards.
    pub entries: &'a [Item],
    /// The number of our first shard.
    pub first: u16,
    /// The number of our last shard.
    pub last: u16,
    ghost room: { IsCap cap },
    ghost fits: { cap ≤ (arc_value accepted.now).table.cap },
    ghost set: { IsSet entries.now } by { IsStrictlySortedBy-prop item_cmp _ },
    ghost few: { length entries.now ≤ cap },
    ghost rises: { first ≤ last },
    ghost within: { last < 4096 },
}

/// The shards whose entries a server has otherwise than we, or not at all, by what a session over both directories
/// learned. Else 57 or 90.
fn unequal_of(
    alloc: Global,
    bits: u8,
    ours: &[Item],
    theirs: &[Item],
) -> Result<Vec<Unequal>, Refusal<'static>>
    requires { bits ≤ max_bits }
    ensures { IfOk result (λ v. v.items ≡ differing bits ours.now theirs.now) }
{
    match differing(alloc, bits, ours, theirs) {
        Ok(unequal) => Ok(unequal),
        Err(DirectoryFault::Bad(_)) => Err(Refusal::of_bad_entry()),
        Err(DirectoryFault::Memory) => Err(Refusal::from(Fault::Memory)),
    }
}

/// Both lists of what was learned.
fn lists_of(alloc: Global, learned: &Learned) -> Result<(Vec<Item>, Vec<Item>), Fault>
    ensures { IfOk result (λ lists. (lists.0.items ≡ learned.now.ours) × (lists.1.items ≡ learned.now.theirs)) }
{
    let ours = learned.ours().to_vec(alloc)?;
    let theirs = learned.theirs().to_vec(alloc)?;
    Ok((ours, theirs))
}

/// What a session over both directories, of which so many bytes were read, says of the server's shards. Else the number
/// of the refusal of this side or of the peer, `io read` or `io write`, 57 or 90.
fn told_of<'a>(
    alloc: Global,
    asker: Asker<'a>,
    received: u64,
    outcome: &Outcome,
) -> Result<Vec<Unequal>, Refusal<'a>> {
    match learned_in(outcome) {
        Ok(learned) => {
            let (ours, theirs) = lists_of(alloc, learned)?;
            unequal_of(alloc, asker.set.bits, &ours, &theirs)
        }
        Err(fault) => Err(Refusal::of_session_after(asker.limits, received, fault)),
    }
}

/// Asks a server for its directory. Which of its shards are not equal to ours; else 61, and as `told_of`.
fn ask_directory<'a, R>(
    rt: &R,
    own: Own<'_>,
    asker: Asker<'a>,
    address: &'a str,
    costs: &mut Costs,
) -> Result<Vec<Unequal>, Refusal<'a>>
where
    R: Files + Net<Stream = TcpStream> + Wait + Clock + AllocGlobal,
{
    let alloc = rt.alloc();
    let call = Call::to(rt, address, asker.limits.patience)?;
    let log = Log::of_set(alloc, own.cap, own.entries)?;
    let talk = asker.talk(Which::Directory);
    let (outcome, stats) = call.run(rt, own.accepted, log, talk)?;
    costs.add(stats, outcome.sent());
    told_of(alloc, asker, stats.received.bytes, &outcome)
}

/// The same, and again as often as is still asked for, so long as the session does not come to its end and may do so.
fn ask_directory_again<'a, R, E: Write>(
    rt: &R,
    own: Own<'_>,
    asker: Asker<'a>,
    address: &'a str,
    costs: &mut Costs,
    (tries, err): (&mut Tries, &mut E),
) -> Result<Vec<Unequal>, Refusal<'a>>
where
    R: Files + Net<Stream = TcpStream> + Wait + Clock + AllocGlobal,
{
    for _try in 0..tries.left() {
        let told = ask_directory(rt, own, asker, address, costs);
        let fault = match &told {
            Ok(_) => None,
            Err(refusal) => Some(refusal.fault),
        };
        if !tries.wait(rt, fault, err) {
            return told;
        }
    }
    ask_directory(rt, own, asker, address, costs)
}

/// The refusal of servers among which no shard is asked for.
fn unchosen<'a>(fault: ChoiceFault) -> Refusal<'a> {
    match fault {
        ChoiceFault::NoServer { shard } => Refusal::of_no_shard(shard),
        ChoiceFault::TwoServers { shard } => Refusal::of_two_servers(shard),
        ChoiceFault::Memory => Refusal::from(Fault::Memory),
    }
}

/// Which server is asked for which shard. Where there are two shards or more, each server is asked for its directory,
/// and each of our shards that differs is asked for of the one server that has it. Else as a session refuses, 57, 56 or
/// 90.
pub fn choose<'a, R, E: Write>(
    rt: &R,
    own: Own<'_>,
    asker: Asker<'a>,
    addresses: &[&'a str],
    costs: &mut Costs,
    again: (&mut Tries, &mut E),
) -> Result<Vec<Asked>, Refusal<'a>>
where
    R: Files + Net<Stream = TcpStream> + Wait + Clock + AllocGlobal,
    requires { 0 < length addresses.now }
    ensures { IfOk result (λ v. AreBelow (length addresses.now) v.items) }
{
    let alloc = rt.alloc();
    if asker.set.bits == 0 {
        return ask_whole(alloc, addresses);
    }
    let (tries, err) = again;
    let mut directories = Vec::new(alloc);
    for address in addresses {
        let again = (&mut *tries, &mut *err);
        directories.push(ask_directory_again(rt, own, asker, address, costs, again)?)?;
    }
    match asked_of(alloc, &directories, own.first, own.last) {
        Ok(asked) => Ok(asked),
        Err(fault) => Err(unchosen(fault)),
    }
}

/// The one shard that is the whole set, of the only server. Else 56 or 90.
fn ask_whole<'a>(alloc: Global, addresses: &[&str]) -> Result<Vec<Asked>, Refusal<'a>>
    requires { 0 < length addresses.now }
    ensures { IfOk result (λ v. AreBelow (length addresses.now) v.items) }
{
    if addresses.len() > 1 {
        return Err(Refusal::of_two_servers(0));
    }
    let mut asked = Vec::new(alloc);
    asked.push(Asked {
        server: 0,
        shard: 0,
    })?;
    Ok(asked)
}
