//! A session with who listens for each shard that differs.

ghost use Rattle.std.specs.Prelude.{◌≡◌, ◌≤◌, ◌<◌, ◌^◌, ◌-◌, min, ℕ, List, ◌++◌, length, map, count_by, IfOk, OnOk};
ghost use Rattle.std.specs.Prelude.{flat_map, string_bytes};
ghost use Rattle.std.specs.Arc.{arc_value};
ghost use Rattle.definitions.specs.Items.{Item as Bytes};
ghost use Rattle.definitions.specs.Sets.{IsSet, set_of, difference};
ghost use Rattle.shard_core.specs.Shards.{max_bits};
ghost use Rattle.shard_core.specs.Choices.{AreBelow};
ghost use Rattle.shard_core.specs.Parts.{ours_of, theirs_of, asked_of, KnowsShards, NoClash, Covers};
ghost use Rattle.printing_core.specs.ShardTexts.{merged_text};
ghost use Rattle.loading.specs.Sharded.{HaveCap};
ghost use Rattle.client.specs.Asking.{server_of, address_of, task, task_at, tasks_of, is_unequal};

use crate::asked::Asking;
use crate::costs::Costs;
use crate::directories::{Asker, Own, choose};
use crate::keeping::{keep_parts, open_keep_file};
use crate::printing::{create_file, print_to};
use crate::sessions::{Crew, Gathered, run_sessions};
use crate::shard_session::Work;
use crate::trying::Tries;
use loading::Loaded;
use printing_core::{
    Fault, Listing, MergedCounts, Refusal, end_progress, merged_text, tell_undone,
};
use range_tree::Tree;
use shard_core::{Asked, SetName, ShardPart, merge};
use std::alloc::{AllocError, Global};
use std::fs::File;
use std::io::Write;
use std::net::{Net, TcpStream};
use std::rt::Files;
use std::sync::{Arc, Wait};
use std::thread::Threads;
use std::time::Clock;
use strategy_check::Accepted;
use version_log::Log;

/// With whom sessions over shards are run.
#[derive(Clone, Copy)]
pub struct AskingShards<'a> {
    /// As for a session over one set; of the address there may be several, with a comma between them.
    pub asking: Asking<'a>,
    /// What the set is called, and how it is cut.
    pub set: SetName<'a>,
    /// How many sessions run at once.
    pub at_once: usize,
    /// Whether standard error is shown how far all is.
    pub shows: bool,
}

/// The text of what these sessions found together.
fn found_text(
    alloc: Global,
    listing: Listing,
    counts: MergedCounts,
    parts: &[ShardPart],
) -> Result<String, AllocError>
    ensures text { IfOk result (λ text. string_bytes text
        ≡ merged_text listing counts (set_of (flat_map ours_of parts.now)) (set_of (flat_map theirs_of parts.now))) }
    // Of the shards that were asked for, all differences are printed, and nothing else.
    ensures asked { IfOk result (λ text. (b : ℕ) (A B : List Bytes) → IsSet A → IsSet B → KnowsShards b A B parts.now →
        string_bytes text ≡ merged_text listing counts (asked_of b parts.now (difference A B))
        (asked_of b parts.now (difference B A))) }
    // Where each shard with different entries was asked for, and no unequal shards have equal entries, these are all.
    ensures adds_up { IfOk result (λ text. (b : ℕ) (A B : List Bytes) → b ≤ max_bits → IsSet A → IsSet B →
        KnowsShards b A B parts.now → NoClash b A B → Covers b A B parts.now →
        string_bytes text ≡ merged_text listing counts (difference A B) (difference B A)) }
{
    let merged = merge(alloc, parts)?;
    merged_text(alloc, listing, counts, &merged.ours, &merged.theirs)
}

/// The addresses in a word, which has a comma between them.
fn addresses_of<'a>(alloc: Global, word: &'a str) -> Result<Vec<&'a str>, AllocError>
    ensures { IfOk result (λ v. 0 < length v.items) }
{
    let mut addresses = Vec::new(alloc);
    let mut rest = word;
    while let Some((address, others)) = rest.split_once(',') {
        addresses.push(address)?;
        rest = others;
    }
    addresses.push(rest)?;
    Ok(addresses)
}

/// The place of the server that is asked for the shard of this number, if it is asked for.
fn server_of(asked: &[Asked], number: u16) -> Option<usize>
    ensures { result ≡ server_of asked.now number }
{
    for one in asked {
        if one.shard == number {
            return Some(one.server);
        }
    }
    None
}

/// The address of the server that is asked for the shard of this number, if it is asked for.
fn address_of<'a>(asked: &[Asked], addresses: &[&'a str], number: u16) -> Option<&'a str>
    ensures { result ≡ address_of asked.now addresses.now number }
{
    addresses.get(server_of(asked, number)?).copied()
}

/// Appends the work on the shard of this number, if it is asked for; its log is let go if it is not.
fn push_work<'a>(
    works: &mut Vec<Work<'a>>,
    accepted: &Arc<Accepted>,
    number: u16,
    address: Option<&'a str>,
    log: Log<Tree>,
) -> Result<(), AllocError>
    requires { log.cap ≤ (arc_value accepted.now).table.cap }
    ensures { OnOk result (map (λ w. task w.number w.address w.log) works.new.items
        ≡ map (λ w. task w.number w.address w.log) works.old.items ++ task_at address.entry number log) }
{
    let Some(address) = address else {
        return Ok(());
    };
    works.push(Work {
        number,
        address,
        accepted: Arc::try_clone(accepted)?,
        log,
    })?;
    Ok(())
}

/// The work on each of these shards that is asked for, of which the first has this number.
fn works_of<'a>(
    alloc: Global,
    accepted: &Arc<Accepted>,
    first: u16,
    logs: Vec<Log<Tree>>,
    asked: &[Asked],
    addresses: &[&'a str],
) -> Result<Vec<Work<'a>>, AllocError>
    requires logs { HaveCap (arc_value accepted.now).table.cap logs.items }
    requires servers { AreBelow (length addresses.now) asked.now }
    ensures { IfOk result (λ v. map (λ w. task w.number w.address w.log) v.items
        ≡ tasks_of asked.now addresses.now first logs.items) }
{
    let mut works = Vec::new(alloc);
    let mut number = first;
    for log in logs {
        let address = address_of(asked, addresses, number);
        push_work(&mut works, accepted, number, address, log)?;
        number = number.saturating_add(1);
    }
    Ok(works)
}

/// Asks for all shards that differ. How many these are; of the whole set, whether it is asked for.
fn ask_all<'a, R, E: Write>(
    rt: &R,
    loaded: Loaded,
    asking: AskingShards<'a>,
    addresses: &[&'a str],
    gathered: &mut Gathered<'a>,
    err: &mut E,
) -> Result<usize, Refusal<'a>>
where
    R: Files + Net<Stream = TcpStream> + Threads + Wait + Clock + AllocGlobal + Sync,
    requires places { 2 ^ loaded.set.bits ≤ loaded.accepted.table.cap }
    requires cap { loaded.set.cap ≡ loaded.accepted.table.cap }
    requires servers { 0 < length addresses.now }
{
    let alloc = rt.alloc();
    let Loaded { accepted, set, .. } = loaded;
    let asker = Asker {
        profile: asking.asking.profile,
        limits: asking.asking.limits,
        set: asking.set,
        part: asking.asking.part,
    };
    let cap = accepted.cap();
    let entries = set.directory(alloc)?;
    let first = set.first();
    let accepted = Arc::new(alloc, accepted)?;
    let own = Own {
        accepted: &accepted,
        cap,
        entries: &entries,
        first,
        last: set.last(),
    };
    let mut tries = Tries::new(asking.asking.retry, asking.asking.explains);
    let again = (&mut tries, &mut *err);
    let asked = choose(rt, own, asker, addresses, &mut gathered.costs, again)?;
    let works = works_of(alloc, &accepted, first, set.into_logs(), &asked, addresses)?;
    let crew = Crew {
        asker,
        at_once: asking.at_once,
        shown: asking.shows.then_some(asked.len()),
        keeps: false,
    };
    run_sessions(rt, crew, works, gathered, (&mut tries, err))?;
    Ok(asked.len())
}

/// How many shards have an item that one side lacks, by what their sessions learned.
fn count_unequal(parts: &[ShardPart]) -> usize
    ensures { result ≡ count_by is_unequal parts.now }
{
    parts
        .iter()
        .filter(|part| !part.ours.is_empty() || !part.theirs.is_empty())
        .count()
}

/// How many shards differ, of so many that were asked for: of a whole set it is known only then.
fn count_differing(bits: u8, asked: usize, parts: &[ShardPart]) -> u32
    ensures whole { bits ≡ 0 → result ≡ min (count_by is_unequal parts.now) (2 ^ 32 - 1) }
    ensures cut { 0 < bits → result ≡ min asked (2 ^ 32 - 1) }
{
    let differ = if bits == 0 {
        count_unequal(parts)
    } else {
        asked
    };
    u32::try_from(differ).unwrap_or(u32::MAX)
}

/// Says which shards were not done, if there are any. The refusal for that.
fn ending<'a, E: Write>(
    alloc: Global,
    undone: &[u16],
    first: Option<Refusal<'a>>,
    err: &mut E,
) -> Result<(), Refusal<'a>> {
    let Some(Refusal { fault, why }) = first else {
        return Ok(());
    };
    tell_undone(alloc, err, undone, fault);
    Err(Refusal {
        fault: Fault::Incomplete,
        why,
    })
}

/// The refusal of the first shard that was not done, if there is one.
fn refusal_in<'a>(first: Option<(u16, Refusal<'a>)>) -> Option<Refusal<'a>> {
    let (_number, refusal) = first?;
    Some(refusal)
}

/// Runs a session as the initiator for the directory of each server, and one for each shard that differs, and prints
/// what all found together, to the file if one is asked for. Then what the peers were first to know is appended to the
/// file that keeps it, if that is asked for. If it is asked for, standard error is told what they cost, however they
/// ended. Whether an item was found that one side lacks.
///
/// Else 80 if a file cannot be opened or made; before a shard is asked for 61, 56, 57, 90, the number of the refusal of
/// this side or of a peer, or `io read` or `io write`. Where sessions over shards do not end, what the others found is
/// printed, standard error is told which were not done, and it is `incomplete`.
pub fn sync_shards<'a, R, O: Write + Drop, E: Write>(
    rt: &R,
    loaded: Loaded,
    asking: AskingShards<'a>,
    out: O,
    err: &mut E,
) -> Result<bool, Refusal<'a>>
where
    R: Files<File = File> + Net<Stream = TcpStream> + Threads + Wait + Clock + AllocGlobal + Sync,
    requires places { 2 ^ loaded.set.bits ≤ loaded.accepted.table.cap }
    requires cap { loaded.set.cap ≡ loaded.accepted.table.cap }
{
    let alloc = rt.alloc();
    let keep_file = open_keep_file(rt, asking.asking, loaded.kept.items, err)?;
    let file = create_file(rt, asking.asking.out)?;
    let addresses = addresses_of(alloc, asking.asking.address)?;
    let bits = loaded.set.bits();
    let shards = loaded.set.shards() as u32;
    let mut gathered = Gathered::new(alloc, Costs::begin(rt));
    let asked = ask_all(rt, loaded, asking, &addresses, &mut gathered, err);
    if asking.shows {
        end_progress(err);
    }
    if asking.asking.stats {
        gathered.tell_costs(rt, err);
    }
    let asked = asked?;
    let Gathered {
        parts,
        mut undone,
        first,
        costs,
        ..
    } = gathered;
    let first = refusal_in(first);
    undone.sort_unstable();
    if bits == 0
        && let Some(refusal) = first
    {
        return Err(refusal);
    }
    let counts = MergedCounts {
        shards,
        differ: count_differing(bits, asked, &parts),
        sent: costs.messages(),
    };
    let text = found_text(alloc, asking.asking.listing, counts, &parts)?;
    let printed = print_to(file, out, text.as_bytes());
    keep_parts(alloc, keep_file, &parts)?;
    printed?;
    ending(alloc, &undone, first, err)?;
    Ok(count_unequal(&parts) > 0)
}
