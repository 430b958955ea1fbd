//! The page for a person: templates, and the values that stand in them. Each `$` of a template is replaced by the next
//! value, so that a page shows the value as it is, whatever it has.

ghost use Rattle.std.specs.Prelude.{◌≡◌, ◌++◌, ◌-◌, ◌/◌, IfOk, OnOk, flat_map, string_bytes};
ghost use Rattle.watch_core.specs.PageTexts as texts;
ghost use Rattle.watch_core.specs.PageTexts.{bar_row, code_bar, code_bars, named, partner_row, percent, visit_row};
ghost use Rattle.watch_core.specs.PageTexts.{range_word, shown_session};

use crate::counts::Counts;
use crate::endings::EndingCounts;
use crate::filling::{push, push_filled};
use crate::named::has_bound;
use crate::partnered::Partnered;
use crate::pieces::{Cell, Session};
use crate::standing::Standing;
use crate::visit::Visit;
use session_table::refusal_name;
use std::alloc::{AllocError, Global};

/// The page up to what it says of the server.
const FRONT: &str = "<!DOCTYPE html>\n<html lang=\"en\">\n<head>\n<meta charset=\"utf-8\">\n\
    <meta http-equiv=\"refresh\" content=\"2\">\n<meta name=\"viewport\" content=\"width=device-width\">\n\
    <title>rangesync</title>\n<style>\n\
    :root { color-scheme: light dark; font: 15px/1.4 system-ui, sans-serif }\n\
    body { margin: 1.5rem auto; max-width: 70rem; overflow-wrap: anywhere; padding: 0 1rem }\n\
    h1 { margin: 0 } h2 { font-size: 1.1rem; margin: 1.5rem 0 .4rem }\n\
    dl { display: flex; flex-wrap: wrap; gap: .5rem 2rem; margin: 1rem 0 }\n\
    dt { color: GrayText } dd { font-size: 1.4rem; margin: 0 }\n\
    table { border-collapse: collapse } th { font-weight: normal; text-align: left }\n\
    td, th { border-bottom: 1px solid #8884; padding: .15rem .8rem .15rem 0; white-space: nowrap }\n\
    .n { font-variant-numeric: tabular-nums; text-align: right } .b { width: 24rem }\n\
    .b i { background: #2a7ab8; display: block; height: .8rem }\n\
    @media (max-width: 60rem) { .b { width: 30vw } td, th { overflow-wrap: anywhere; white-space: normal } }\n\
    @media (max-width: 40rem) { .v, .v tr { display: block } .v tr { border-bottom: 1px solid #8884 } }\n\
    @media (max-width: 40rem) { .v td, .v th { border: 0; display: inline-block } }\n\
    </style>\n</head>\n<body>\n";

/// What the server is: its version, and where it listens.
const TITLE: &str = "<h1>rangesync $</h1>\n<p>listening at $</p>\n";

/// What the set is called.
const SET: &str = "<p>set $</p>\n";

/// The file in which it is kept.
const FILE: &str = "<p>kept in $</p>\n";

/// All numbers of the server.
const TILES: &str =
    "<dl>\n<div><dt>items</dt><dd>$</dd></div>\n<div><dt>room for</dt><dd>$</dd></div>\n\
    <div><dt>version</dt><dd>$</dd></div>\n<div><dt>learned</dt><dd>$</dd></div>\n\
    <div><dt>dropped</dt><dd>$</dd></div>\n<div><dt>lines waiting</dt><dd>$</dd></div>\n\
    <div><dt>failed writes</dt><dd>$</dd></div>\n<div><dt>live sessions</dt><dd>$</dd></div>\n\
    <div><dt>peers</dt><dd>$</dd></div>\n<div><dt>memory for peers</dt><dd>$</dd></div>\n\
    <div><dt>seconds up</dt><dd>$</dd></div>\n</dl>\n";

/// The names of the columns of partners.
const PARTNERS: &str =
    "<h2>Partners</h2>\n<table class=\"v\">\n<tr><th>partner<th>state<th>turns ended<th>turns failed\
    <th>failed in a row<th>seconds ago<th>last failure</tr>\n";

/// A partner.
const PARTNER: &str =
    "<tr><td>$</td><td>$</td><td class=\"n\">$</td><td class=\"n\">$</td><td class=\"n\">$</td>\
    <td class=\"n\">$</td><td>$</td></tr>\n";

/// What stands above the ways in which visits ended.
const TABLE: &str = "<h2>$</h2>\n<table>\n";

/// Those that ended so: how, their number, and a bar that shows how many of all they are.
const BAR: &str =
    "<tr><th>$</th><td class=\"n\">$</td><td class=\"b\"><i style=\"width:$%\"></i></td></tr>\n";

/// The end of that.
const TABLE_END: &str = "</table>\n";

/// The names of the columns of visits.
const LAST: &str =
    "<h2>Last sessions</h2>\n<table class=\"v\">\n<tr><th>session<th>peer<th>profile<th>outcome\
    <th>ours<th>theirs<th>received<th>sent<th>seconds<th>seconds ago</tr>\n";

/// A visit.
const ROW: &str =
    "<tr><td>$</td><td>$</td><td>$</td><td>$</td><td class=\"n\">$</td><td class=\"n\">$</td>\
    <td class=\"n\">$</td><td class=\"n\">$</td><td>$</td><td class=\"n\">$</td></tr>\n";

/// The end of the page.
const END: &str = "</table>\n</body>\n</html>\n";

/// Appends a template with this value, if it is not empty.
fn push_named(
    alloc: Global,
    page: &mut Vec<u8>,
    template: &'static str,
    value: &str,
) -> Result<(), AllocError>
    ensures { OnOk result (page.new.items ≡ page.old.items ++ named template.now value.now) }
{
    if value.is_empty() {
        return Ok(());
    }
    push_filled(alloc, page, template, &[Cell::Text(value)])
}

/// Appends what the server is.
#[tactic(auto, unfolding(crate::specs::PageTexts::title))]
fn push_title(alloc: Global, page: &mut Vec<u8>, standing: &Standing<'_>) -> Result<(), AllocError>
    ensures { OnOk result (page.new.items ≡ page.old.items ++ texts.title standing.now) }
{
    let cells = [Cell::Text(standing.program), Cell::Text(standing.address)];
    push_filled(alloc, page, TITLE, &cells)?;
    push_named(alloc, page, SET, standing.set)?;
    push_named(alloc, page, FILE, standing.file)
}

/// Appends all numbers of the server.
#[tactic(auto, unfolding(crate::specs::PageTexts::tiles))]
fn push_tiles(alloc: Global, page: &mut Vec<u8>, standing: &Standing<'_>) -> Result<(), AllocError>
    ensures { OnOk result (page.new.items ≡ page.old.items ++ texts.tiles standing.now) }
{
    let cells = [
        Cell::Number(standing.items),
        Cell::Number(standing.cap),
        Cell::Number(standing.version),
        Cell::Number(standing.inserted),
        Cell::Number(standing.dropped),
        Cell::Number(standing.waiting),
        Cell::Number(standing.failures),
        Cell::Number(standing.live),
        Cell::Number(standing.peers),
        Cell::Number(standing.kept),
        Cell::Number(standing.ran / 1_000),
    ];
    push_filled(alloc, page, TILES, &cells)
}

/// How many of a hundred these are.
fn percent(count: u64, all: u64) -> u64
    ensures { result ≡ percent count all }
{
    count.saturating_mul(100) / all.max(1)
}

/// Appends the row of those that ended so: their number, and a bar that shows how many of all they are.
#[tactic(auto, unfolding(crate::specs::PageTexts::bar_row))]
fn push_bar(
    alloc: Global,
    page: &mut Vec<u8>,
    reason: &str,
    counts: (u64, u64),
) -> Result<(), AllocError>
    ensures { OnOk result (page.new.items ≡ page.old.items ++ bar_row reason.now counts.0 counts.1) }
{
    let (count, all) = counts;
    let cells = [
        Cell::Text(reason),
        Cell::Number(count),
        Cell::Number(percent(count, all)),
    ];
    push_filled(alloc, page, BAR, &cells)
}

/// Appends the row of a number of a refusal, if there were any.
fn push_code_bar(
    alloc: Global,
    page: &mut Vec<u8>,
    word: &str,
    code: usize,
    counts: (u64, u64),
) -> Result<(), AllocError>
    ensures { OnOk result (page.new.items ≡ page.old.items ++ code_bar word.now code counts.0 counts.1) }
{
    if counts.0 == 0 {
        return Ok(());
    }
    let reason = format!(in alloc; "{word}{code} {}", refusal_name(code))?;
    push_bar(alloc, page, &reason, counts)
}

/// Appends the rows of all numbers of refusals of which there were any.
fn push_code_bars(
    alloc: Global,
    page: &mut Vec<u8>,
    word: &str,
    counts: &[u64],
    all: u64,
) -> Result<(), AllocError>
    ensures { OnOk result (page.new.items ≡ page.old.items ++ code_bars word.now all 0 counts.now) }
{
    for (code, count) in counts.iter().enumerate() {
        push_code_bar(alloc, page, word, code, (*count, all))?;
    }
    Ok(())
}

/// Appends the rows of refusals.
fn push_refused(alloc: Global, page: &mut Vec<u8>, counts: &EndingCounts) -> Result<(), AllocError>
    ensures { OnOk result (page.new.items ≡ page.old.items ++ texts.refused_bars counts.now) }
{
    let all = counts.all;
    push_code_bars(alloc, page, "", &counts.refused, all)?;
    push_code_bars(alloc, page, "peer refused ", &counts.peer_refused, all)
}

/// Appends the rows of failures.
fn push_failed(alloc: Global, page: &mut Vec<u8>, counts: &EndingCounts) -> Result<(), AllocError>
    ensures { OnOk result (page.new.items ≡ page.old.items ++ texts.failed_bars counts.now) }
{
    push_bar(alloc, page, "io read", (counts.io_read, counts.all))?;
    push_bar(alloc, page, "io write", (counts.io_write, counts.all))?;
    push_bar(alloc, page, "memory", (counts.memory, counts.all))
}

/// Appends a row for each way in which visits ended.
fn push_bars(alloc: Global, page: &mut Vec<u8>, counts: &EndingCounts) -> Result<(), AllocError>
    ensures { OnOk result (page.new.items ≡ page.old.items ++ texts.ending_bars counts.now) }
{
    push_bar(alloc, page, "ended", (counts.ended, counts.all))?;
    push_refused(alloc, page, counts)?;
    push_failed(alloc, page, counts)
}

/// Appends a table of how visits ended, under this title.
#[tactic(auto, unfolding(crate::specs::PageTexts::endings_table))]
fn push_endings(
    alloc: Global,
    page: &mut Vec<u8>,
    title: &str,
    counts: &EndingCounts,
) -> Result<(), AllocError>
    ensures { OnOk result (page.new.items ≡ page.old.items ++ texts.endings_table title.now counts.now) }
{
    push_filled(alloc, page, TABLE, &[Cell::Text(title)])?;
    push_bars(alloc, page, counts)?;
    push(page, TABLE_END)
}

/// How many seconds ago this was.
fn seconds_since(moment: u64, now: u64) -> u64
    ensures { result ≡ (now - moment) / 1000 }
{
    now.saturating_sub(moment) / 1_000
}

/// Appends that a session was over a range, if it was.
fn push_range_word(text: &mut String, is_ranged: bool) -> Result<(), AllocError>
    ensures { OnOk result (string_bytes text.new ≡ string_bytes text.old ++ range_word is_ranged) }
{
    match is_ranged {
        true => text.push_str(" range"),
        false => Ok(()),
    }
}

/// The session of a visit, without the bounds of its range: nobody shows who they are to see the page.
fn shown_session(alloc: Global, visit: &Visit) -> Result<String, AllocError>
    ensures { IfOk result (λ text. string_bytes text ≡ shown_session visit.now) }
{
    let session = Session {
        serial: visit.serial,
        which: visit.which,
    };
    let mut text = format!(in alloc; "{session}")?;
    push_range_word(&mut text, has_bound(&visit.range))?;
    Ok(text)
}

/// Appends the row of a visit.
#[tactic(auto, unfolding(crate::specs::PageTexts::visit_row))]
fn push_visit(alloc: Global, page: &mut Vec<u8>, now: u64, visit: &Visit) -> Result<(), AllocError>
    ensures { OnOk result (page.new.items ≡ page.old.items ++ visit_row now visit.now) }
{
    let session = shown_session(alloc, visit)?;
    let cells = [
        Cell::Text(&session),
        Cell::Address(visit.address),
        Cell::Profile(visit.profile),
        Cell::Ending(visit.ending),
        Cell::Number(visit.traffic.ours),
        Cell::Number(visit.traffic.theirs),
        Cell::Number(visit.traffic.received),
        Cell::Number(visit.traffic.sent),
        Cell::Seconds(visit.millis),
        Cell::Number(seconds_since(visit.ended, now)),
    ];
    push_filled(alloc, page, ROW, &cells)
}

/// Appends the rows of these visits.
fn push_visits(
    alloc: Global,
    page: &mut Vec<u8>,
    now: u64,
    visits: &[Visit],
) -> Result<(), AllocError>
    ensures { OnOk result (page.new.items ≡ page.old.items ++ flat_map (visit_row now) visits.now) }
{
    for visit in visits {
        push_visit(alloc, page, now, visit)?;
    }
    Ok(())
}

/// Appends the names of the columns of visits.
#[tactic(auto, unfolding(crate::specs::PageTexts::last_head))]
fn push_last_head(page: &mut Vec<u8>) -> Result<(), AllocError>
    ensures { OnOk result (page.new.items ≡ page.old.items ++ texts.last_head) }
{
    push(page, LAST)
}

/// Appends the table of these visits, and the end of the page.
#[tactic(auto, unfolding(crate::specs::PageTexts::last_table))]
fn push_last(
    alloc: Global,
    page: &mut Vec<u8>,
    now: u64,
    visits: &[Visit],
) -> Result<(), AllocError>
    ensures { OnOk result (page.new.items ≡ page.old.items ++ texts.last_table now visits.now) }
{
    push_last_head(page)?;
    push_visits(alloc, page, now, visits)?;
    push(page, END)
}

/// Appends the row of a partner.
#[tactic(auto, unfolding(crate::specs::PageTexts::partner_row))]
fn push_partner(
    alloc: Global,
    page: &mut Vec<u8>,
    partner: &Partnered<'_>,
) -> Result<(), AllocError>
    ensures { OnOk result (page.new.items ≡ page.old.items ++ partner_row partner.now) }
{
    let cells = [
        Cell::Text(partner.address),
        Cell::Text(partner.state()),
        Cell::Number(partner.ended),
        Cell::Number(partner.failed),
        Cell::Number(partner.behind),
        Cell::Known(partner.seconds_ago()),
        Cell::Fault(partner.fault),
    ];
    push_filled(alloc, page, PARTNER, &cells)
}

/// Appends the rows of these partners.
fn push_partner_rows(
    alloc: Global,
    page: &mut Vec<u8>,
    partners: &[Partnered<'_>],
) -> Result<(), AllocError>
    ensures { OnOk result (page.new.items ≡ page.old.items ++ flat_map partner_row partners.now) }
{
    for partner in partners {
        push_partner(alloc, page, partner)?;
    }
    Ok(())
}

/// Appends the names of the columns of partners.
#[tactic(auto, unfolding(crate::specs::PageTexts::partners_head))]
fn push_partners_head(page: &mut Vec<u8>) -> Result<(), AllocError>
    ensures { OnOk result (page.new.items ≡ page.old.items ++ texts.partners_head) }
{
    push(page, PARTNERS)
}

/// Appends the table of these partners.
#[tactic(auto, unfolding(crate::specs::PageTexts::partners_table))]
fn push_partners_table(
    alloc: Global,
    page: &mut Vec<u8>,
    partners: &[Partnered<'_>],
) -> Result<(), AllocError>
    ensures { OnOk result (page.new.items ≡ page.old.items ++ texts.partners_table partners.now) }
{
    push_partners_head(page)?;
    push_partner_rows(alloc, page, partners)?;
    push(page, TABLE_END)
}

/// Appends the table of these partners, if there are any.
fn push_partners(
    alloc: Global,
    page: &mut Vec<u8>,
    partners: &[Partnered<'_>],
) -> Result<(), AllocError>
    ensures { OnOk result (page.new.items ≡ page.old.items ++ texts.partners_text partners.now) }
{
    if partners.is_empty() {
        return Ok(());
    }
    push_partners_table(alloc, page, partners)
}

/// Appends what the server is, and how it and its partners stand.
fn push_server(alloc: Global, page: &mut Vec<u8>, standing: &Standing<'_>) -> Result<(), AllocError>
    ensures { OnOk result (page.new.items ≡ page.old.items ++ texts.server_text standing.now) }
{
    push_title(alloc, page, standing)?;
    push_tiles(alloc, page, standing)?;
    push_partners(alloc, page, standing.partners)
}

/// Appends how visits ended.
fn push_counts(alloc: Global, page: &mut Vec<u8>, counts: &Counts) -> Result<(), AllocError>
    ensures { OnOk result (page.new.items ≡ page.old.items ++ texts.counts_text counts.now) }
{
    push_endings(alloc, page, "Sessions", &counts.sessions)?;
    let title = "Connections without a session";
    push_endings(alloc, page, title, &counts.strangers)
}

/// What is the same for each page, in front of the rest.
#[tactic(auto, unfolding(crate::specs::PageTexts::front))]
fn begun(alloc: Global) -> Result<Vec<u8>, AllocError>
    ensures { IfOk result (λ page. page.items ≡ texts.front) }
{
    Vec::from_slice(alloc, FRONT.as_bytes())
}

/// The page for a person: what the server is, how it and its partners stand, how visits ended, and these visits, in
/// this order. Each value in it is escaped.
pub fn page_text(
    alloc: Global,
    standing: &Standing<'_>,
    counts: &Counts,
    visits: &[Visit],
) -> Result<Vec<u8>, AllocError>
    ensures { IfOk result (λ page. page.items ≡ texts.page_text standing.now counts.now visits.now) }
{
    let mut page = begun(alloc)?;
    push_server(alloc, &mut page, standing)?;
    push_counts(alloc, &mut page, counts)?;
    push_last(alloc, &mut page, standing.moment, visits)?;
    Ok(page)
}
