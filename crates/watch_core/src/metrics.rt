//! The text of the metrics, in the form that Prometheus reads.

ghost use Rattle.std.specs.Prelude.{◌≡◌, ◌++◌, IfOk, OnOk, codes, flat_map, string_bytes};
ghost use Rattle.watch_core.specs.MetricTexts as texts;
ghost use Rattle.watch_core.specs.MetricTexts.{bucket_line, code_line, code_lines, head_text, outcome_line, value_text};

use crate::counts::Counts;
use crate::durations::{Bucket, Durations};
use crate::endings::EndingCounts;
use crate::partner_metrics::push_partners;
use crate::pieces::Seconds;
use crate::standing::Standing;
use crate::visit::Traffic;
use std::alloc::{AllocError, Global};

/// The name of the metric of durations.
const SECONDS: &str = "rangesync_session_seconds";

/// Appends what stands above the values of a metric.
#[tactic(auto, unfolding(crate::specs::MetricTexts::head_text))]
pub(crate) fn push_head(
    text: &mut String,
    name: &str,
    kind: &str,
    help: &str,
) -> Result<(), AllocError>
    ensures { OnOk result (string_bytes text.new ≡ string_bytes text.old ++ head_text name.now kind.now help.now) }
{
    write!(text, "# HELP {name} {help}\n# TYPE {name} {kind}\n")
}

/// Appends a metric that has one value, which may fall.
#[tactic(auto, unfolding(crate::specs::MetricTexts::value_text))]
fn push_gauge(text: &mut String, name: &str, help: &str, value: u64) -> Result<(), AllocError>
    ensures { OnOk result (string_bytes text.new ≡ string_bytes text.old
        ++ value_text (codes "gauge") name.now help.now value) }
{
    push_head(text, name, "gauge", help)?;
    write!(text, "{name} {value}\n")
}

/// Appends a metric that has one value, which only rises.
#[tactic(auto, unfolding(crate::specs::MetricTexts::value_text))]
fn push_counter(text: &mut String, name: &str, help: &str, value: u64) -> Result<(), AllocError>
    ensures { OnOk result (string_bytes text.new ≡ string_bytes text.old
        ++ value_text (codes "counter") name.now help.now value) }
{
    push_head(text, name, "counter", help)?;
    write!(text, "{name} {value}\n")
}

/// Appends the line with the version of the program.
#[tactic(auto, unfolding(crate::specs::MetricTexts::build_line))]
fn push_build_line(text: &mut String, program: &str) -> Result<(), AllocError>
    ensures { OnOk result (string_bytes text.new ≡ string_bytes text.old ++ texts.build_line program.now) }
{
    write!(text, "rangesync_build_info{{version=\"{program}\"}} 1\n")
}

/// Appends the line with a value in seconds.
#[tactic(auto, unfolding(crate::specs::MetricTexts::seconds_line))]
fn push_seconds_line(text: &mut String, name: &str, millis: u64) -> Result<(), AllocError>
    ensures { OnOk result (string_bytes text.new ≡ string_bytes text.old ++ texts.seconds_line name.now millis) }
{
    write!(text, "{name} {}\n", Seconds(millis))
}

/// Appends the version of the program.
#[tactic(auto, unfolding(crate::specs::MetricTexts::build_text))]
fn push_build(text: &mut String, program: &str) -> Result<(), AllocError>
    ensures { OnOk result (string_bytes text.new ≡ string_bytes text.old ++ texts.build_text program.now) }
{
    push_head(
        text,
        "rangesync_build_info",
        "gauge",
        "The version of the program.",
    )?;
    push_build_line(text, program)
}

/// Appends what is known of the set.
#[tactic(auto, unfolding(crate::specs::MetricTexts::set_text))]
fn push_set(text: &mut String, standing: &Standing<'_>) -> Result<(), AllocError>
    ensures { OnOk result (string_bytes text.new ≡ string_bytes text.old ++ texts.set_text standing.now) }
{
    push_gauge(text, "rangesync_items", "Items of the set.", standing.items)?;
    push_gauge(
        text,
        "rangesync_items_cap",
        "Items that the set may have.",
        standing.cap,
    )?;
    push_gauge(
        text,
        "rangesync_version",
        "Number of the newest version of the set.",
        standing.version,
    )
}

/// Appends what became of the items of peers.
#[tactic(auto, unfolding(crate::specs::MetricTexts::learned_text))]
fn push_learned(text: &mut String, standing: &Standing<'_>) -> Result<(), AllocError>
    ensures { OnOk result (string_bytes text.new ≡ string_bytes text.old ++ texts.learned_text standing.now) }
{
    push_counter(
        text,
        "rangesync_inserts_total",
        "Items of peers that were put into the set.",
        standing.inserted,
    )?;
    push_counter(
        text,
        "rangesync_dropped_total",
        "Items of peers for which the set had no room, or memory ran out.",
        standing.dropped,
    )
}

/// Appends what became of the lines for files.
#[tactic(auto, unfolding(crate::specs::MetricTexts::files_text))]
fn push_files(text: &mut String, standing: &Standing<'_>) -> Result<(), AllocError>
    ensures { OnOk result (string_bytes text.new ≡ string_bytes text.old ++ texts.files_text standing.now) }
{
    push_gauge(
        text,
        "rangesync_waiting_lines",
        "Lines that wait to be written, over all files.",
        standing.waiting,
    )?;
    push_counter(
        text,
        "rangesync_write_failures_total",
        "Writes to files that failed.",
        standing.failures,
    )
}

/// Appends who is there.
#[tactic(auto, unfolding(crate::specs::MetricTexts::peers_text))]
fn push_peers(text: &mut String, standing: &Standing<'_>) -> Result<(), AllocError>
    ensures { OnOk result (string_bytes text.new ≡ string_bytes text.old ++ texts.peers_text standing.now) }
{
    push_gauge(
        text,
        "rangesync_sessions_live",
        "Sessions that are live.",
        standing.live,
    )?;
    push_gauge(
        text,
        "rangesync_peers",
        "Peers that are connected.",
        standing.peers,
    )?;
    push_gauge(
        text,
        "rangesync_peers_memory_bytes",
        "Memory that is counted for all peers, against the option memory.",
        standing.kept,
    )
}

/// Appends for how long the server has run.
#[tactic(auto, unfolding(crate::specs::MetricTexts::uptime_text))]
fn push_uptime(text: &mut String, standing: &Standing<'_>) -> Result<(), AllocError>
    ensures { OnOk result (string_bytes text.new ≡ string_bytes text.old ++ texts.uptime_text standing.now) }
{
    let name = "rangesync_uptime_seconds";
    push_head(text, name, "gauge", "Seconds since the server began.")?;
    push_seconds_line(text, name, standing.ran)
}

/// Appends what all visits cost.
#[tactic(auto, unfolding(crate::specs::MetricTexts::cost_text))]
fn push_cost(text: &mut String, traffic: &Traffic) -> Result<(), AllocError>
    ensures { OnOk result (string_bytes text.new ≡ string_bytes text.old ++ texts.cost_text traffic.now) }
{
    push_counter(
        text,
        "rangesync_received_bytes_total",
        "Bytes received of peers that are gone.",
        traffic.received,
    )?;
    push_counter(
        text,
        "rangesync_sent_bytes_total",
        "Bytes sent to peers that are gone.",
        traffic.sent,
    )?;
    push_counter(
        text,
        "rangesync_sent_messages_total",
        "Messages sent whole to peers that are gone.",
        traffic.messages,
    )
}

/// Appends what all visits found.
#[tactic(auto, unfolding(crate::specs::MetricTexts::found_text))]
fn push_found(text: &mut String, traffic: &Traffic) -> Result<(), AllocError>
    ensures { OnOk result (string_bytes text.new ≡ string_bytes text.old ++ texts.found_text traffic.now) }
{
    push_counter(
        text,
        "rangesync_ours_total",
        "Items of the set that peers lacked, by all sessions that ended.",
        traffic.ours,
    )?;
    push_counter(
        text,
        "rangesync_theirs_total",
        "Items of peers that the set lacked, by all sessions that ended.",
        traffic.theirs,
    )
}

/// Appends how many ended so.
#[tactic(auto, unfolding(crate::specs::MetricTexts::outcome_line))]
fn push_outcome(text: &mut String, name: &str, outcome: &str, count: u64) -> Result<(), AllocError>
    ensures { OnOk result (string_bytes text.new ≡ string_bytes text.old
        ++ outcome_line name.now outcome.now count) }
{
    write!(text, "{name}{{outcome=\"{outcome}\"}} {count}\n")
}

/// What stands in front of the number of a refusal.
#[derive(Clone, Copy)]
struct Label<'a> {
    name: &'a str,
    outcome: &'a str,
}

/// Appends how many were refused with this number, if any were.
#[tactic(auto, unfolding(crate::specs::MetricTexts::code_line))]
fn push_code(text: &mut String, label: Label<'_>, code: usize, count: u64) -> Result<(), AllocError>
    ensures { OnOk result (string_bytes text.new ≡ string_bytes text.old
        ++ code_line label.entry.name.now label.entry.outcome.now code count) }
{
    if count == 0 {
        return Ok(());
    }
    let Label { name, outcome } = label;
    write!(
        text,
        "{name}{{outcome=\"{outcome}\",refusal=\"{code}\"}} {count}\n"
    )
}

/// Appends how many were refused, by the number.
fn push_codes(text: &mut String, label: Label<'_>, counts: &[u64]) -> Result<(), AllocError>
    ensures { OnOk result (string_bytes text.new ≡ string_bytes text.old
        ++ code_lines label.entry.name.now label.entry.outcome.now 0 counts.now) }
{
    for (code, count) in counts.iter().enumerate() {
        push_code(text, label, code, *count)?;
    }
    Ok(())
}

/// Appends how many failed.
#[tactic(auto, unfolding(crate::specs::MetricTexts::failed_lines))]
fn push_failed(text: &mut String, name: &str, counts: &EndingCounts) -> Result<(), AllocError>
    ensures { OnOk result (string_bytes text.new ≡ string_bytes text.old ++ texts.failed_lines name.now counts.now) }
{
    push_outcome(text, name, "ended", counts.ended)?;
    push_outcome(text, name, "io_read", counts.io_read)?;
    push_outcome(text, name, "io_write", counts.io_write)?;
    push_outcome(text, name, "memory", counts.memory)
}

/// Appends how many ended in which way, under this name.
#[tactic(auto, unfolding(crate::specs::MetricTexts::endings_text))]
fn push_endings(
    text: &mut String,
    name: &str,
    help: &str,
    counts: &EndingCounts,
) -> Result<(), AllocError>
    ensures { OnOk result (string_bytes text.new ≡ string_bytes text.old
        ++ texts.endings_text name.now help.now counts.now) }
{
    push_head(text, name, "counter", help)?;
    push_failed(text, name, counts)?;
    let label = Label {
        name,
        outcome: "refused",
    };
    push_codes(text, label, &counts.refused)?;
    let label = Label {
        name,
        outcome: "peer_refused",
    };
    push_codes(text, label, &counts.peer_refused)
}

/// Appends how many sessions took no longer than the bound of a bucket.
#[tactic(auto, unfolding(crate::specs::MetricTexts::bucket_line))]
fn push_bucket(text: &mut String, bucket: &Bucket) -> Result<(), AllocError>
    ensures { OnOk result (string_bytes text.new ≡ string_bytes text.old ++ bucket_line bucket.now) }
{
    let bound = Seconds(bucket.bound);
    let count = bucket.count;
    write!(text, "{SECONDS}_bucket{{le=\"{bound}\"}} {count}\n")
}

/// Appends how many sessions took no longer than each bound.
fn push_buckets(text: &mut String, buckets: &[Bucket]) -> Result<(), AllocError>
    ensures { OnOk result (string_bytes text.new ≡ string_bytes text.old ++ flat_map bucket_line buckets.now) }
{
    for bucket in buckets {
        push_bucket(text, bucket)?;
    }
    Ok(())
}

/// Appends that so many sessions took so long in all.
#[tactic(auto, unfolding(crate::specs::MetricTexts::all_lines))]
fn push_all(text: &mut String, millis: u64, sessions: u64) -> Result<(), AllocError>
    ensures { OnOk result (string_bytes text.new ≡ string_bytes text.old ++ texts.all_lines millis sessions) }
{
    let sum = Seconds(millis);
    write!(
        text,
        "{SECONDS}_bucket{{le=\"+Inf\"}} {sessions}\n{SECONDS}_sum {sum}\n{SECONDS}_count {sessions}\n"
    )
}

/// Appends how long the sessions took, of which there were so many.
#[tactic(auto, unfolding(crate::specs::MetricTexts::durations_text))]
fn push_durations(text: &mut String, durations: &Durations, sessions: u64) -> Result<(), AllocError>
    ensures { OnOk result (string_bytes text.new ≡ string_bytes text.old
        ++ texts.durations_text durations.now sessions) }
{
    push_head(
        text,
        SECONDS,
        "histogram",
        "Seconds of a session, from the connection to its end.",
    )?;
    push_buckets(text, &durations.buckets)?;
    push_all(text, durations.millis, sessions)
}

/// Appends what runs, and for how long.
fn push_program(text: &mut String, standing: &Standing<'_>) -> Result<(), AllocError>
    ensures { OnOk result (string_bytes text.new ≡ string_bytes text.old ++ texts.program_text standing.now) }
{
    push_build(text, standing.program)?;
    push_uptime(text, standing)
}

/// Appends what became of the items of peers, and of the lines for files.
fn push_taken(text: &mut String, standing: &Standing<'_>) -> Result<(), AllocError>
    ensures { OnOk result (string_bytes text.new ≡ string_bytes text.old ++ texts.taken_text standing.now) }
{
    push_learned(text, standing)?;
    push_files(text, standing)
}

/// Appends how the server stands.
fn push_standing(text: &mut String, standing: &Standing<'_>) -> Result<(), AllocError>
    ensures { OnOk result (string_bytes text.new ≡ string_bytes text.old ++ texts.standing_text standing.now) }
{
    push_program(text, standing)?;
    push_set(text, standing)?;
    push_taken(text, standing)?;
    push_peers(text, standing)
}

/// Appends how sessions and strangers ended, and how many sessions were over a range.
#[tactic(auto, unfolding(crate::specs::MetricTexts::all_endings_text))]
fn push_all_endings(text: &mut String, counts: &Counts) -> Result<(), AllocError>
    ensures { OnOk result (string_bytes text.new ≡ string_bytes text.old ++ texts.all_endings_text counts.now) }
{
    push_endings(
        text,
        "rangesync_sessions_total",
        "Sessions that are over, by how they ended and by the number of a refusal.",
        &counts.sessions,
    )?;
    push_endings(
        text,
        "rangesync_strangers_total",
        "Connections that were over before a session, by how they ended.",
        &counts.strangers,
    )?;
    push_counter(
        text,
        "rangesync_ranged_sessions_total",
        "Sessions that are over, of those that spoke of a range of the items.",
        counts.ranged,
    )
}

/// Appends what was counted.
fn push_counts(text: &mut String, counts: &Counts) -> Result<(), AllocError>
    ensures { OnOk result (string_bytes text.new ≡ string_bytes text.old ++ texts.counts_text counts.now) }
{
    push_all_endings(text, counts)?;
    push_cost(text, &counts.traffic)?;
    push_found(text, &counts.traffic)?;
    push_durations(text, &counts.durations, counts.sessions.all)
}

/// The metrics of the server itself.
fn own_metrics(
    alloc: Global,
    standing: &Standing<'_>,
    counts: &Counts,
) -> Result<String, AllocError>
    ensures { IfOk result (λ text. string_bytes text ≡ texts.own_text standing.now counts.now) }
{
    let mut text = String::new(alloc);
    push_standing(&mut text, standing)?;
    push_counts(&mut text, counts)?;
    Ok(text)
}

/// All metrics: how the server stands, what was counted of visits, and how the partners stand.
pub fn metrics_text(
    alloc: Global,
    standing: &Standing<'_>,
    counts: &Counts,
) -> Result<Vec<u8>, AllocError>
    ensures { IfOk result (λ text. text.items ≡ texts.metrics_text standing.now counts.now) }
{
    let mut text = own_metrics(alloc, standing, counts)?.into_bytes();
    push_partners(alloc, &mut text, standing.partners)?;
    Ok(text)
}
