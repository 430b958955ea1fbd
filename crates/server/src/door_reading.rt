//! Items that programs of this machine read: all, those of a range, one, or those that the set took.

use crate::door_replies::{plain, whole};
use crate::putting::form_of;
use crate::reporting::DiskReporter;
use crate::yard::Yard;
use http_core::{
    CHUNKS_END, DoorReply, DoorRequest, DoorStatus, Listing, QueryNumber, chunk_head, door_head,
    path_of, query_number, query_text, query_value, range_between, unescaped,
};
use item_core::{Item, Range};
use item_files::{ItemForm, SettingsFault, item_set};
use loading::lines_text;
use peer_loops::Hand;
use peer_threads::Gate;
use range_tree::Tree;
use shard_core::Floor;
use std::alloc::{AllocError, Global};
use std::io::Write;
use std::sync::Wait;
use std::time::Clock;
use store_core::RangeStore;

/// How many items an answer to who asks for news has, at most.
const MOST_TOLD: usize = 8_192;

/// For how many seconds news are waited for, at most.
const MOST_SECONDS: u64 = 60;

/// One version of a set, or a range of it, that is being written, part by part.
#[derive(Drop)]
pub struct Pages {
    form: ItemForm,
    items: Listing<Tree>,
}

/// A part of an answer, and whether it is the last one.
#[derive(Drop)]
pub struct Page {
    pub bytes: Vec<u8>,
    pub is_last: bool,
}

/// The chunk of these bytes; nothing where there are none, since an empty chunk is the last one.
fn chunk_of(alloc: Global, bytes: &[u8]) -> Result<Vec<u8>, AllocError> {
    let mut chunk = Vec::new(alloc);
    if bytes.is_empty() {
        return Ok(chunk);
    }
    chunk.extend_from_slice(chunk_head(alloc, bytes.len())?.as_bytes())?;
    chunk.extend_from_slice(bytes)?;
    chunk.extend_from_slice(b"\r\n")?;
    Ok(chunk)
}

impl Pages {
    /// The next part of the answer.
    pub fn next(&mut self, alloc: Global) -> Result<Page, AllocError> {
        let Some(items) = self.items.next(alloc)? else {
            return Ok(Page {
                bytes: Vec::from_slice(alloc, CHUNKS_END)?,
                is_last: true,
            });
        };
        let text = lines_text(alloc, self.form, &items)?;
        Ok(Page {
            bytes: chunk_of(alloc, text.as_bytes())?,
            is_last: false,
        })
    }
}

/// The newest version of each part, without what is below the floor.
fn stores_of<T: Wait>(
    rt: &T,
    alloc: Global,
    hand: &mut Hand<'_>,
    floor: &Floor,
) -> Result<Vec<Tree>, AllocError> {
    let mut stores = Vec::new(alloc);
    for place in 0..hand.parts() {
        if let Some(pin) = hand.pin(rt, alloc, place) {
            stores.push(pin?.store().part(alloc, &floor.range)?)?;
        }
    }
    Ok(stores)
}

/// The item that this text spells, if it spells one.
fn item_of(alloc: Global, form: ItemForm, text: &[u8]) -> Result<Option<Item>, AllocError> {
    match item_set(alloc, form, text, 1) {
        Ok(items) => Ok(items.first().copied()),
        Err(SettingsFault::Memory) => Err(AllocError),
        Err(_) => Ok(None),
    }
}

/// A bound that a query gives.
#[derive(Clone, Copy)]
enum Bound {
    /// None of this name.
    Absent,
    /// This item.
    Given(Item),
    /// What it gives is no item.
    Malformed,
}

/// The bound of this name in the query of a target.
fn bound_in(
    alloc: Global,
    form: ItemForm,
    target: &[u8],
    name: &[u8],
) -> Result<Bound, AllocError> {
    let Some(value) = query_value(target, name) else {
        return Ok(Bound::Absent);
    };
    match item_of(alloc, form, &query_text(alloc, value)?)? {
        Some(item) => Ok(Bound::Given(item)),
        None => Ok(Bound::Malformed),
    }
}

/// The range that a query asks for: from one item on and before another, where it gives them. None where one of them is
/// no item, or the first is not before the second.
fn range_in(alloc: Global, form: ItemForm, target: &[u8]) -> Result<Option<Range>, AllocError> {
    let from = match bound_in(alloc, form, target, b"from")? {
        Bound::Absent => None,
        Bound::Given(item) => Some(item),
        Bound::Malformed => return Ok(None),
    };
    let to = match bound_in(alloc, form, target, b"to")? {
        Bound::Absent => None,
        Bound::Given(item) => Some(item),
        Bound::Malformed => return Ok(None),
    };
    Ok(range_between(from, to))
}

/// The first bytes of the answer to who asks for all items, or for those of a range, and the parts that follow them; of
/// HEAD no part does.
pub fn items_answer<R: Wait + Clock, E: Write + Drop>(
    yard: &Yard<'_, '_, R, DiskReporter<'_, '_, R, E>>,
    hand: &mut Hand<'_>,
    request: &DoorRequest,
    target: &[u8],
) -> Result<(Vec<u8>, Option<Pages>), AllocError> {
    let alloc = yard.alloc;
    let form = form_of(target, yard.common.gate.rules.reporting.form);
    let Some(range) = range_in(alloc, form, target)? else {
        let line = b"400: from and to are items, and from is before to\n";
        let answer = whole(alloc, request, plain(DoorStatus::Unread), line)?;
        return Ok((answer, None));
    };
    let head = door_head(alloc, plain(DoorStatus::Done), None)?;
    let bytes = Vec::from_slice(alloc, head.as_bytes())?;
    if request.is_head {
        return Ok((bytes, None));
    }
    let floor = yard.common.gate.floor();
    let stores = stores_of(yard.rt, alloc, hand, &floor)?;
    let items = Listing::new(stores, range);
    Ok((bytes, Some(Pages { form, items })))
}

/// The item that a path names, if it names one.
fn item_in(alloc: Global, form: ItemForm, path: &[u8]) -> Result<Option<Item>, AllocError> {
    let name = path.strip_prefix(b"/items/").unwrap_or(path);
    item_of(alloc, form, &unescaped(alloc, name)?)
}

/// Whether the set has this item.
fn has<T: Wait>(
    rt: &T,
    alloc: Global,
    hand: &mut Hand<'_>,
    item: &Item,
) -> Result<bool, AllocError> {
    let Some(place) = hand.place_of(item) else {
        return Ok(false);
    };
    match hand.pin(rt, alloc, place) {
        Some(pin) => Ok(pin?.store().has(item)),
        None => Ok(false),
    }
}

/// The answer to who asks whether an item is there.
pub fn item_answer<R: Wait + Clock, E: Write + Drop>(
    yard: &Yard<'_, '_, R, DiskReporter<'_, '_, R, E>>,
    hand: &mut Hand<'_>,
    request: &DoorRequest,
    target: &[u8],
) -> Result<Vec<u8>, AllocError> {
    let alloc = yard.alloc;
    let form = form_of(target, yard.common.gate.rules.reporting.form);
    let Some(item) = item_in(alloc, form, path_of(target))? else {
        let line = b"400: the path names no item\n";
        return whole(alloc, request, plain(DoorStatus::Unread), line);
    };
    if yard.common.gate.floor().keeps(&item) && has(yard.rt, alloc, hand, &item)? {
        return whole(alloc, request, plain(DoorStatus::Done), b"present\n");
    }
    whole(alloc, request, plain(DoorStatus::Missing), b"absent\n")
}

/// What is asked for of the news: what comes after the first so many items, or all that is kept, and until when it is
/// waited for one, in milliseconds of the steady clock.
#[derive(Clone, Copy, Debug, PartialEq, Eq)]
pub struct NewsAsked {
    pub after: Option<u64>,
    pub until: u64,
    pub form: ItemForm,
}

/// What a query asks for of the news at this time, if its numbers are numbers.
pub fn news_asked(target: &[u8], own: ItemForm, now: u64) -> Option<NewsAsked> {
    let after = match query_number(target, b"after") {
        QueryNumber::Absent => None,
        QueryNumber::Given(after) => Some(after),
        QueryNumber::Malformed => return None,
    };
    let seconds = match query_number(target, b"wait") {
        QueryNumber::Absent => 0,
        QueryNumber::Given(seconds) => seconds.min(MOST_SECONDS),
        QueryNumber::Malformed => return None,
    };
    Some(NewsAsked {
        after,
        until: now.saturating_add(seconds.saturating_mul(1_000)),
        form: form_of(target, own),
    })
}

/// The answer to who asks for news that are not here.
fn gone_answer(alloc: Global, request: &DoorRequest, taken: u64) -> Result<Vec<u8>, AllocError> {
    let line = format!(in alloc;
        "410: the set took {taken} items, of which the last 65536 are here\n"
    )?;
    let reply = DoorReply {
        at: Some(taken),
        ..plain(DoorStatus::Gone)
    };
    whole(alloc, request, reply, line.as_bytes())
}

/// The answer to who asks for these news at this time, unless there are none yet and it is still waited for them.
pub fn news_answer<R: Wait, E: Write + Drop>(
    yard: &Yard<'_, '_, R, DiskReporter<'_, '_, R, E>>,
    request: &DoorRequest,
    asked: NewsAsked,
    now: u64,
) -> Result<Option<Vec<u8>>, AllocError> {
    let alloc = yard.alloc;
    let gate = yard.common.gate;
    let after = match asked.after {
        Some(after) => after,
        None => gate.first_taken(),
    };
    let Some(items) = gate.taken_after(after, MOST_TOLD)? else {
        return Ok(Some(gone_answer(alloc, request, gate.taken())?));
    };
    if items.is_empty() && now < asked.until && !yard.sight.board.is_stopping() {
        return Ok(None);
    }
    let text = lines_text(alloc, asked.form, &items)?;
    let reply = DoorReply {
        at: Some(after.saturating_add(items.len() as u64)),
        ..plain(DoorStatus::Done)
    };
    Ok(Some(whole(alloc, request, reply, text.as_bytes())?))
}
