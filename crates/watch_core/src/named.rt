//! Of which part of a set a session was.

ghost use Rattle.std.specs.Prelude.{◌≡◌, ◌++◌, IfOk, OnOk, string_bytes};
ghost use Rattle.watch_core.specs.Pieces.{bounds_text, has_bound, session_text};

use crate::pieces::Session;
use crate::visit::Visit;
use item_core::Range;
use std::alloc::{AllocError, Global};

/// Whether a range has a bound, so that it is not that of all items.
pub(crate) fn has_bound(range: &Range) -> bool
    ensures { result ≡ has_bound range.now }
{
    !range.lower().bytes().is_empty() || range.upper().bytes().is_some()
}

/// Appends the bounds of a range in hex: those that it has.
fn push_bounds(alloc: Global, text: &mut String, range: &Range) -> Result<(), AllocError>
    ensures { OnOk result (string_bytes text.new ≡ string_bytes text.old ++ bounds_text range.now) }
{
    let lower = range.lower().bytes();
    if !lower.is_empty() {
        text.push_str(" from=")?;
        text.push_str(&hex::encode(alloc, lower)?)?;
    }
    if let Some(upper) = range.upper().bytes() {
        text.push_str(" to=")?;
        text.push_str(&hex::encode(alloc, upper)?)?;
    }
    Ok(())
}

/// The session of a visit: its serial, or `-`, and the shard and the bounds that it spoke of.
pub(crate) fn session_text(alloc: Global, visit: &Visit) -> Result<String, AllocError>
    ensures { IfOk result (λ text. string_bytes text ≡ session_text visit.now) }
{
    let session = Session {
        serial: visit.serial,
        which: visit.which,
    };
    let mut text = format!(in alloc; "{session}")?;
    push_bounds(alloc, &mut text, &visit.range)?;
    Ok(text)
}
