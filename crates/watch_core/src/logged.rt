//! The lines of a log.

ghost use Rattle.std.specs.Prelude.{◌≡◌, IfOk, string_bytes};
ghost use Rattle.watch_core.specs.LogTexts.{left_out_line, loaded_line, loading_line, log_line, lost_line};
ghost use Rattle.watch_core.specs.LogTexts.{control_line, metrics_line, who_word};

use crate::named::session_text;
use crate::pieces::{Address, Profile, Reason, Seconds};
use crate::visit::Visit;
use std::alloc::{AllocError, Global};

/// The name of the key of an address: `to` of one that was called, `peer` of one that came.
fn who_word(is_called: bool) -> &'static str
    ensures { result.now ≡ who_word is_called }
{
    if is_called { "to" } else { "peer" }
}

/// The line of a visit that ended then, in thousandths of a second since 1970.
pub fn log_line(alloc: Global, time: u64, visit: &Visit) -> Result<String, AllocError>
    ensures { IfOk result (λ text. string_bytes text ≡ log_line time visit.now) }
{
    let session = session_text(alloc, visit)?;
    let mut text = format!(in alloc;
        "time={} {}={} session={session} ",
        Seconds(time),
        who_word(visit.is_called),
        Address(visit.address)
    )?;
    let reason = Reason {
        ending: visit.ending,
        between: " refusal=",
    };
    write!(text, "profile={} outcome={reason} ", Profile(visit.profile))?;
    let traffic = visit.traffic;
    write!(text, "ours={} theirs={} ", traffic.ours, traffic.theirs)?;
    write!(text, "received={} sent={} ", traffic.received, traffic.sent)?;
    write!(
        text,
        "messages={} milliseconds={}\n",
        traffic.messages, visit.millis
    )?;
    Ok(text)
}

/// The line that says that so many visits have no line since standard error took none for too long.
pub fn lost_line(alloc: Global, time: u64, count: u64) -> Result<String, AllocError>
    ensures { IfOk result (λ text. string_bytes text ≡ lost_line time count) }
{
    format!(in alloc; "time={} lost={count}\n", Seconds(time))
}

/// The line that says that so many visits without a session have no line since too many of that second have one.
pub fn left_out_line(alloc: Global, time: u64, count: u64) -> Result<String, AllocError>
    ensures { IfOk result (λ text. string_bytes text ≡ left_out_line time count) }
{
    format!(in alloc; "time={} left_out={count}\n", Seconds(time))
}

/// The line that says that a server begins to load its items.
pub fn loading_line(alloc: Global, time: u64) -> Result<String, AllocError>
    ensures { IfOk result (λ text. string_bytes text ≡ loading_line time) }
{
    format!(in alloc; "time={} loading\n", Seconds(time))
}

/// The line that says that a server has loaded so many items, which took so long, in thousandths of a second.
pub fn loaded_line(alloc: Global, time: u64, items: u64, millis: u64) -> Result<String, AllocError>
    ensures { IfOk result (λ text. string_bytes text ≡ loaded_line time items millis) }
{
    let time = Seconds(time);
    let taken = Seconds(millis);
    format!(in alloc; "time={time} loaded {items} items in {taken} s\n")
}

/// The line that says that metrics are answered at this address.
pub fn metrics_line(alloc: Global, address: &str) -> Result<String, AllocError>
    ensures { IfOk result (λ text. string_bytes text ≡ metrics_line address.now) }
{
    format!(in alloc; "metrics {address}\n")
}

/// The line that says that programs of this machine are answered at this address.
pub fn control_line(alloc: Global, address: &str) -> Result<String, AllocError>
    ensures { IfOk result (λ text. string_bytes text ≡ control_line address.now) }
{
    format!(in alloc; "control {address}\n")
}
