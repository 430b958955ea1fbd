//! Items that programs of this machine put in.

ghost use Rattle.std.specs.Prelude.{◌≡◌, ◌+◌, ◌≤◌, List, length, IfOk, OnErr};
ghost use Rattle.std.specs.List.{list_all};
ghost use Rattle.shard_core.specs.Floors.{keeps};
ghost use Rattle.definitions.specs.Items.{Item as Bytes};
ghost use Rattle.peer_loops.specs.Hands.{PutsEach, PutsSome, entries};
ghost use Rattle.server.specs.Keeping.{Covers};

use crate::door_replies::{plain, whole};
use crate::ledger::Kept;
use crate::reporting::DiskReporter;
use crate::yard::Yard;
use http_core::{DoorReply, DoorRequest, DoorStatus, query_value};
use item_core::Item;
use item_files::{ItemForm, SettingsFault, item_set};
use peer_loops::{Hand, HandFault};
use peer_threads::Gate;
use printing_core::{Fault, Refusal};
use shard_core::Floor;
use std::alloc::{AllocError, Global};
use std::io::Write;
use std::sync::Wait;
use std::time::Clock;
use store_core::RangeStore;
use version_log::LogFault;

/// What the lines of a body are called where one is refused.
const BODY: &str = "body";

/// Why items are not put in, or not kept.
#[derive(Clone, Copy, Debug, PartialEq, Eq)]
enum PutFault {
    /// One is below the floor.
    Below,
    /// One is of a shard that is not kept here.
    Elsewhere,
    /// The set has no room for all.
    Full,
    /// Memory ran out.
    Memory,
    /// The file that keeps the set does not take the lines.
    Disk,
}

impl From<HandFault> for PutFault {
    fn from(fault: HandFault) -> PutFault {
        match fault {
            HandFault::Elsewhere => PutFault::Elsewhere,
            HandFault::Log(LogFault::Full) => PutFault::Full,
            HandFault::Log(LogFault::Memory) => PutFault::Memory,
        }
    }
}

impl From<AllocError> for PutFault {
    fn from(_refused: AllocError) -> PutFault {
        PutFault::Memory
    }
}

/// What came of items that were put in: how many the set lacked, how many it had, and that all are kept.
#[derive(Drop)]
struct Done {
    added: usize,
    present: usize,
    kept: Kept,
}

/// The form of lines: the one that the query names, else that of the set.
pub fn form_of(target: &[u8], own: ItemForm) -> ItemForm {
    match query_value(target, b"form") {
        Some(b"hex") => ItemForm::Hex,
        Some(b"text") => ItemForm::Text,
        Some(b"hash") => ItemForm::Hash,
        _ => own,
    }
}

/// Counts an item for its part if that lacks it. It may be of a part that is not kept here.
fn count_one<T: Wait>(
    rt: &T,
    alloc: Global,
    hand: &mut Hand<'_>,
    lacking: &mut Vec<usize>,
    item: &Item,
) -> Result<(), PutFault>
    ensures nothing { entries hand.new ≡ entries hand.old }
{
    let Some(place) = hand.place_of(item) else {
        return Err(PutFault::Elsewhere);
    };
    let Some(pinned) = hand.pin(rt, alloc, place) else {
        return Err(PutFault::Elsewhere);
    };
    if pinned?.store().has(item) {
        return Ok(());
    }
    if let Some(count) = lacking.get_mut(place) {
        *count = count.saturating_add(1);
    }
    Ok(())
}

/// How many of these items each part lacks.
fn lacking_of<T: Wait>(
    rt: &T,
    alloc: Global,
    hand: &mut Hand<'_>,
    items: &[Item],
) -> Result<Vec<usize>, PutFault>
    ensures nothing { entries hand.new ≡ entries hand.old }
{
    let mut lacking = vec![in alloc; 0usize; hand.parts()]?;
    for item in items {
        count_one(rt, alloc, hand, &mut lacking, item)?;
    }
    Ok(lacking)
}

/// Refuses items for which a part has no room, where none may have more than `cap`.
fn has_room<T: Wait>(
    rt: &T,
    alloc: Global,
    hand: &mut Hand<'_>,
    items: &[Item],
    cap: usize,
) -> Result<(), PutFault>
    ensures nothing { entries hand.new ≡ entries hand.old }
{
    let lacking = lacking_of(rt, alloc, hand, items)?;
    for (place, count) in lacking.iter().enumerate() {
        if *count == 0 {
            continue;
        }
        let Some(pinned) = hand.pin(rt, alloc, place) else {
            return Err(PutFault::Elsewhere);
        };
        if pinned?.store().len().saturating_add(*count) > cap {
            return Err(PutFault::Full);
        }
    }
    Ok(())
}

/// Refuses where lines wait that the file does not take, though it is tried again.
fn takes_lines<R: Wait + Clock, E: Write + Drop>(
    yard: &Yard<'_, '_, R, DiskReporter<'_, '_, R, E>>,
) -> Result<(), PutFault> {
    let gate = yard.common.gate;
    if gate.keeping().is_written() {
        return Ok(());
    }
    gate.try_again();
    if gate.keeping().is_written() {
        return Ok(());
    }
    Err(PutFault::Disk)
}

/// Whether all of these items are kept.
fn are_kept(floor: &Floor, items: &[Item]) -> bool
    ensures { result ≡ list_all (keeps floor.now) items.now }
{
    items.iter().all(|item| floor.keeps(item))
}

/// Refuses items of which one is below the floor, or of a part that is not kept, for which a part has no room, or whose
/// lines the file does not take. Nothing is put in.
fn may_put<R: Wait + Clock, E: Write + Drop>(
    yard: &Yard<'_, '_, R, DiskReporter<'_, '_, R, E>>,
    hand: &mut Hand<'_>,
    items: &[Item],
) -> Result<(), PutFault>
    ensures nothing { entries hand.new ≡ entries hand.old }
{
    if !are_kept(&yard.common.gate.floor(), items) {
        return Err(PutFault::Below);
    }
    let cap = yard.common.accepted.cap() as usize;
    has_room(yard.rt, yard.alloc, hand, items, cap)?;
    takes_lines(yard)
}

/// How many of these items were new, and how many were there.
fn counts_of(items: &Vec<Item>, news: &Vec<Item>) -> (usize, usize)
    requires { length news.now.items ≤ length items.now.items }
    ensures added { result.0 ≡ length news.now.items }
    ensures all { result.0 + result.1 ≡ length items.now.items }
{
    (news.len(), items.len() - news.len())
}

/// Puts these items in, one after the other, and sees that the lines of all are kept. How many the set lacked, and how
/// many it had.
fn put_all<R: Wait + Clock, E: Write + Drop>(
    yard: &Yard<'_, '_, R, DiskReporter<'_, '_, R, E>>,
    hand: &mut Hand<'_>,
    items: &Vec<Item>,
) -> Result<Done, PutFault>
    ensures all { IfOk result (λ done. (news : List Bytes) × PutsEach hand.old items.now.items news hand.new
        × (done.added ≡ length news) × (done.added + done.present ≡ length items.now.items)
        × Covers done.kept news items.now.items) }
    ensures some { OnErr result (PutsSome hand.old items.now.items hand.new) }
{
    let entered = hand.put_each(yard.rt, yard.alloc, items)?;
    if !entered.items.is_empty() {
        yard.common.news.tell(yard.rt);
    }
    if let Some(fault) = entered.fault {
        // Of items that were not put in no line may be told.
        let _kept = yard.common.gate.keep(&entered.items, &entered.items);
        return Err(PutFault::from(fault));
    }
    let Some(kept) = yard.common.gate.keep(&entered.items, items) else {
        return Err(PutFault::Disk);
    };
    let (added, present) = counts_of(items, &entered.items);
    Ok(Done {
        added,
        present,
        kept,
    })
}

/// The line of a refusal, and a second one where there is something to say.
fn refusal_lines(alloc: Global, refusal: &Refusal<'_>) -> Result<String, AllocError> {
    let fault = refusal.fault;
    match &refusal.why {
        Some(why) => format!(in alloc; "{fault}\n{why}\n"),
        None => format!(in alloc; "{fault}\n"),
    }
}

/// The answer to who puts in lines that are refused so.
fn answer_bad(
    alloc: Global,
    request: &DoorRequest,
    fault: SettingsFault,
) -> Result<Vec<u8>, AllocError> {
    if let SettingsFault::Memory = &fault {
        return Err(AllocError);
    }
    let refusal = Refusal::of_file(alloc, BODY, fault);
    let text = refusal_lines(alloc, &refusal)?;
    whole(alloc, request, plain(DoorStatus::Unread), text.as_bytes())
}

/// The answer to who puts in items that are not all kept.
fn answer_unkept(
    alloc: Global,
    request: &DoorRequest,
    fault: PutFault,
) -> Result<Vec<u8>, AllocError> {
    let (status, fault) = match fault {
        PutFault::Below => {
            let line = b"410: an item is below the floor, or has no time\n";
            return whole(alloc, request, plain(DoorStatus::Gone), line);
        }
        PutFault::Elsewhere => (DoorStatus::Unread, Fault::Session { code: 56 }),
        PutFault::Full => (DoorStatus::NoRoom, Fault::TooManyItems),
        PutFault::Memory => (DoorStatus::NoRoom, Fault::Memory),
        PutFault::Disk => (DoorStatus::NoRoom, Fault::LinesLost),
    };
    let text = format!(in alloc; "{fault}\n")?;
    whole(alloc, request, plain(status), text.as_bytes())
}

/// The answer to who put in items that are all kept.
fn answer_done<R: Wait + Clock, E: Write + Drop>(
    yard: &Yard<'_, '_, R, DiskReporter<'_, '_, R, E>>,
    request: &DoorRequest,
    done: Done,
) -> Result<Vec<u8>, AllocError> {
    let Done { added, present, .. } = done;
    let gate = yard.common.gate;
    let taken = gate.taken();
    let text = format!(in yard.alloc; "added {added} present {present} at {taken}\n")?;
    let reply = DoorReply {
        at: Some(taken),
        in_memory: !gate.keeping().is_in_file(),
        ..plain(DoorStatus::Done)
    };
    whole(yard.alloc, request, reply, text.as_bytes())
}

/// Puts in the items of a body of lines, all or none. The answer: how many the set lacked, how many it had, and how
/// many it has now; or why none was put in.
pub fn put_answer<R: Wait + Clock, E: Write + Drop>(
    yard: &Yard<'_, '_, R, DiskReporter<'_, '_, R, E>>,
    hand: &mut Hand<'_>,
    request: &DoorRequest,
    target: &[u8],
    body: &[u8],
) -> Result<Vec<u8>, AllocError> {
    let alloc = yard.alloc;
    let gate = yard.common.gate;
    let form = form_of(target, gate.rules.reporting.form);
    let items = match item_set(alloc, form, body, usize::MAX) {
        Ok(items) => items,
        Err(fault) => return answer_bad(alloc, request, fault),
    };
    let put = may_put(yard, hand, &items).and_then(|()| put_all(yard, hand, &items));
    match put {
        Ok(done) => answer_done(yard, request, done),
        Err(fault) => answer_unkept(alloc, request, fault),
    }
}
