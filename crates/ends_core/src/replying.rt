//! The reply to a part of a message under a strategy.

ghost use Rattle.std.specs.Prelude.{◌≡◌, ◌++◌, ◌+◌, ◌-◌, ◌<◌, ◌≤◌, ◌^◌, ◌&&◌, List, map, take, length, get_or, not};
ghost use Rattle.std.specs.Prelude.{IfOk, OnOk, IsTrue};
ghost use Rattle.std.specs.List.{AllByRecursion};
ghost use Rattle.std.specs.List.Sorted.{IsNonDecreasing};
ghost use Rattle.definitions.specs.Items as items;
ghost use Rattle.definitions.specs.Items.{whole};
ghost use Rattle.definitions.specs.Fingerprints.{two_lanes};
ghost use Rattle.definitions.specs.Messages.{Sum, Listing};
ghost use Rattle.definitions.specs.Replies as replies;
ghost use Rattle.definitions.specs.Sets.{IsSet, has, items_in, difference};
ghost use Rattle.definitions.specs.Strategies.{IsTable, act, shares, is_cut, is_split};
ghost use Rattle.definitions.specs.Wire.{IsPart};
ghost use Rattle.store_core.specs.Stores.{span};
ghost use Rattle.laws.specs.Cutting.{pieces_at};

use crate::cutting::{bounds_at, cut_range};
use digest_core::{Fingerprint, WireSummary};
use item_core::{Item, Range, is_listed};
use std::alloc::{AllocError, Global};
use store_core::{RangeStore, Span};
use strategy_core::{Act, Strategy};
use wire_core::{Marks, Part, PartKind};

/// A mark for each listed item that the store lacks.
fn marks_of<S: RangeStore>(alloc: Global, store: &S, listed: &[Item]) -> Result<Marks, AllocError>
    requires { length listed.now < 2 ^ 32 }
    ensures { IfOk result (λ marks. marks ≡ map (λ x. not (has (S.content store.now) x)) listed.now) }
{
    let mut marks = Vec::new(alloc);
    for item in listed {
        marks.push(!store.has(item))?;
    }
    Marks::new(alloc, &marks)
}

/// Appends the items that are not listed.
fn push_unlisted(
    unlisted: &mut Vec<Item>,
    items: &[Item],
    listed: &[Item],
) -> Result<(), AllocError>
    requires { IsSet listed.now }
    ensures { OnOk result (unlisted.new.items ≡ unlisted.old.items ++ difference items.now listed.now) }
{
    for item in items {
        if !is_listed(listed, item) {
            unlisted.push(*item)?;
        }
    }
    Ok(())
}

/// The answer to the list of a range.
fn answer_to<S: RangeStore, F: WireSummary>(
    alloc: Global,
    store: &S,
    range: &Range,
    listed: &[Item],
) -> Result<Part<F>, AllocError>
    requires few { length (S.content store.now) ≤ 65536 }
    requires part { IsPart F.profile (Listing range.now listed.now) }
    ensures { IfOk result (λ part. part ≡ replies.answer_to (S.content store.now) range.now listed.now) }
{
    laws::codec::answers_fit::<F>();
    let marks = marks_of(alloc, store, listed)?;
    let mut unlisted = Vec::new(alloc);
    push_unlisted(&mut unlisted, &store.items(alloc, range)?, listed)?;
    match Part::answer(*range, marks, unlisted) {
        Ok(answer) => Ok(answer),
        Err(_) => unreachable!(),
    }
}

/// The list of a range whose items stand in this span.
fn list_of<S: RangeStore, F: WireSummary>(
    alloc: Global,
    store: &S,
    range: Range,
    at: Span,
) -> Result<Part<F>, AllocError>
    requires few { length (S.content store.now) ≤ 65536 }
    requires at { span at.from at.to (S.content store.now) ≡ items_in (S.content store.now) range }
    ensures { IfOk result (λ part. part ≡ Listing range (items_in (S.content store.now) range)) }
{
    laws::codec::sets_fit::<F>();
    Ok(Part::listing(range, store.items_at(alloc, at)?))
}

/// Where the parts of n items end but for the last one: the places, from 0, where a range of them is cut.
fn places_of(alloc: Global, strategy: &Strategy, n: u32) -> Result<Vec<usize>, AllocError>
    requires { n ≤ strategy.now.cap }
    ensures { IfOk result (λ places. places.items ≡ replies.inner_cuts 0 (shares strategy.now n)) }
{
    let mut places = Vec::new(alloc);
    for before in 1..strategy.share_count(n) {
        places.push(strategy.cut(n, before) as usize)?;
    }
    Ok(places)
}

/// The fingerprint of the items of a span.
fn sum_at<S: RangeStore, F: WireSummary>(store: &S, at: Span) -> F
    requires { at.to ≤ length (S.content store.now) }
    ensures { result ≡ F.summary.of (span at.from at.to (S.content store.now)) }
{
    F::of_set(at.len(), store.sum_at(at))
}

/// The fingerprint of the items of a span, by those of the items before its start and before its end.
fn sum_between<F: WireSummary>(at: Span, before: Fingerprint, next: Fingerprint) -> F
    ensures { (A : List items.Item) → at.from ≤ at.to → at.to ≤ length A → before ≡ two_lanes.of (take at.from A) →
        next ≡ two_lanes.of (take at.to A) → result ≡ F.summary.of (span at.from at.to A) }
{
    F::of_set(at.len(), next.without(before))
}

/// Where a piece of a span ends that is cut at these places, counted from the span's first.
fn end_of(at: Span, places: &[usize], piece: usize) -> usize
    requires { AllByRecursion (λ place. place < at.to - at.from) places.now }
    ensures inner { piece < length places.now → result ≡ at.from + get_or places.now piece 0 }
    ensures last { length places.now ≤ piece → result ≡ at.to }
{
    match places.get(piece) {
        Some(place) => at.from + *place,
        None => at.to,
    }
}

/// Appends the Sum of each range. The first has the items of the span before the first of these places, each next one
/// those from the place where the one before it ends; the places are counted from the span's first. What stands before
/// a place is summed once, for the piece that ends there and the one that begins there.
fn push_sums<S: RangeStore, F: WireSummary>(
    store: &S,
    at: Span,
    places: &[usize],
    ranges: &[Range],
    parts: &mut Vec<Part<F>>,
) -> Result<(), AllocError>
    requires order { at.from ≤ at.to }
    requires end { at.to ≤ length (S.content store.now) }
    requires within { AllByRecursion (λ place. place < at.to - at.from) places.now }
    requires rise { IsNonDecreasing places.now }
    requires pieces { map (items_in (S.content store.now)) ranges.now
        ≡ pieces_at 0 places.now (span at.from at.to (S.content store.now)) }
    ensures { OnOk result (parts.new.items ≡ parts.old.items ++ map (replies.sum_of F.summary (S.content store.now))
        ranges.now) }
{
    let mut from = at.from;
    let mut before = store.sum_before(from);
    for (piece, range) in ranges.iter().enumerate() {
        let to = end_of(at, places, piece);
        let next = store.sum_before(to);
        parts.push(Part::sum(*range, sum_between(Span { from, to }, before, next)))?;
        from = to;
        before = next;
    }
    Ok(())
}

/// How many items a span has: no more than the strategy serves.
fn count_at(strategy: &Strategy, at: Span) -> u32
    requires { at.to - at.from ≤ strategy.now.cap }
    ensures count { result ≡ at.to - at.from }
    ensures table { IsTable strategy.now }
{
    let _ = strategy.cap(); // proof only: a cap is below 2^17
    at.len() as u32
}

/// Appends the Sums of the parts that the strategy cuts the range into, whose items stand in this span.
fn push_cut<S: RangeStore, F: WireSummary>(
    alloc: Global,
    strategy: &Strategy,
    store: &S,
    range: &Range,
    at: Span,
    parts: &mut Vec<Part<F>>,
) -> Result<(), AllocError>
    requires few { length (S.content store.now) ≤ strategy.now.cap }
    requires at { span at.from at.to (S.content store.now) ≡ items_in (S.content store.now) range.now }
    requires order { at.from ≤ at.to }
    requires end { at.to ≤ length (S.content store.now) }
    requires split { IsTrue (is_split (act strategy.now (length (items_in (S.content store.now) range.now)))) }
    ensures { OnOk result (parts.new.items ≡ parts.old.items ++ map (replies.sum_of F.summary (S.content store.now))
        (replies.cutup strategy.now.bounds (S.content store.now) range.now
        (shares strategy.now (length (items_in (S.content store.now) range.now))))) }
{
    laws::ranks::shares_are_parts();
    laws::talks::cuts_have_ranges();
    laws::talks::cuts_are_pieces();
    let _ = range.lower(); // proof only: the range rises
    let places = places_of(alloc, strategy, count_at(strategy, at))?;
    let bounds = bounds_at(alloc, strategy.bounds(), store, at, &places)?;
    let ranges = cut_range(alloc, range, &bounds)?;
    push_sums(store, at, &places, &ranges, parts)
}

/// Appends what is said of a range that differs, whose items stand in this span: its list, or the Sums of its parts.
fn push_differing<S: RangeStore, F: WireSummary>(
    alloc: Global,
    strategy: &Strategy,
    store: &S,
    range: &Range,
    at: Span,
    parts: &mut Vec<Part<F>>,
) -> Result<(), AllocError>
    requires few { length (S.content store.now) ≤ strategy.now.cap }
    requires at { span at.from at.to (S.content store.now) ≡ items_in (S.content store.now) range.now }
    requires order { at.from ≤ at.to }
    requires end { at.to ≤ length (S.content store.now) }
    ensures { OnOk result (parts.new.items ≡ parts.old.items ++ replies.differing F.summary
        (record { table = strategy.now; items = S.content store.now }) range.now) }
{
    if strategy.act(count_at(strategy, at)) == Act::Split {
        return push_cut(alloc, strategy, store, range, at, parts);
    }
    parts.push(list_of(alloc, store, *range, at)?)?;
    Ok(())
}

/// Where the items of the range stand. A store may say of a range without items that its end is in front of its start;
/// here it is not, so that the sum before the one may be taken from the sum before the other.
fn span_in<S: RangeStore>(store: &S, range: &Range) -> Span
    ensures items { span result.from result.to (S.content store.now) ≡ items_in (S.content store.now) range.now }
    ensures order { result.from ≤ result.to }
    ensures end { result.to ≤ length (S.content store.now) }
{
    store.span_of(range).fitted(store.len())
}

/// Whether the first message of a session with n items is cut: the profile lets it, the strategy says so, and the row
/// of n cuts.
fn cuts_first<F: WireSummary>(strategy: &Strategy, n: u32) -> bool
    requires { n ≤ strategy.now.cap }
    ensures { result ≡ (F.summary.may_cut && is_cut strategy.now.opening && is_split (act strategy.now n)) }
{
    F::may_cut() && strategy.opening().is_cut() && strategy.act(n) == Act::Split
}

/// Appends what a session is begun with, where the items of everything stand in this span: one Sum of it, or those of
/// the parts that the strategy cuts it into, where the profile and the strategy do.
fn push_opening<S: RangeStore, F: WireSummary>(
    alloc: Global,
    strategy: &Strategy,
    store: &S,
    range: &Range,
    at: Span,
    parts: &mut Vec<Part<F>>,
) -> Result<(), AllocError>
    requires few { length (S.content store.now) ≤ strategy.now.cap }
    requires range { range.now ≡ whole }
    requires at { span at.from at.to (S.content store.now) ≡ items_in (S.content store.now) range.now }
    requires order { at.from ≤ at.to }
    requires end { at.to ≤ length (S.content store.now) }
    ensures { OnOk result (parts.new.items ≡ parts.old.items ++ replies.opening F.summary
        (record { table = strategy.now; items = S.content store.now })) }
{
    if cuts_first::<F>(strategy, count_at(strategy, at)) {
        return push_cut(alloc, strategy, store, range, at, parts);
    }
    parts.push(Part::sum(*range, sum_at(store, at)))?;
    Ok(())
}

/// What a session is begun with.
pub(crate) fn opening_parts<S: RangeStore, F: WireSummary>(
    alloc: Global,
    strategy: &Strategy,
    store: &S,
) -> Result<Vec<Part<F>>, AllocError>
    requires { length (S.content store.now) ≤ strategy.now.cap }
    ensures { IfOk result (λ parts. parts.items ≡ replies.opening F.summary
        (record { table = strategy.now; items = S.content store.now })) }
{
    let whole = Range::whole();
    let at = span_in(store, &whole);
    let mut parts = Vec::new(alloc);
    push_opening(alloc, strategy, store, &whole, at, &mut parts)?;
    Ok(parts)
}

/// Appends the reply to a Sum: nothing where the own fingerprint is the same.
fn push_compared<S: RangeStore, F: WireSummary>(
    alloc: Global,
    strategy: &Strategy,
    store: &S,
    range: &Range,
    sum: &F,
    parts: &mut Vec<Part<F>>,
) -> Result<(), AllocError>
    requires { length (S.content store.now) ≤ strategy.now.cap }
    ensures { OnOk result (parts.new.items ≡ parts.old.items ++ replies.reply_to F.summary
        (record { table = strategy.now; items = S.content store.now }) (Sum range.now sum.now)) }
{
    let at = span_in(store, range);
    let own: F = sum_at(store, at);
    if own.equals(*sum) {
        return Ok(());
    }
    push_differing(alloc, strategy, store, range, at, parts)
}

/// The reply to a part.
pub(crate) fn reply_part<S: RangeStore, F: WireSummary>(
    alloc: Global,
    strategy: &Strategy,
    store: &S,
    part: &Part<F>,
) -> Result<Vec<Part<F>>, AllocError>
    requires { length (S.content store.now) ≤ strategy.now.cap }
    ensures { IfOk result (λ parts. parts.items ≡ replies.reply_to F.summary
        (record { table = strategy.now; items = S.content store.now }) part.now) }
{
    let mut parts = Vec::new(alloc);
    if let Some(sum) = part.fingerprint() {
        push_compared(alloc, strategy, store, part.range(), sum, &mut parts)?;
        return Ok(parts);
    }
    let (PartKind::List, Some(listed)) = (part.kind(), part.items()) else {
        return Ok(parts);
    };
    let _ = strategy.cap(); // proof only: a cap is below 2^17
    parts.push(answer_to(alloc, store, part.range(), listed)?)?;
    Ok(parts)
}
