//! What `check` and `plan` print.

ghost use Rattle.std.specs.Prelude.{◌≡◌, ◌++◌, IfOk, OnOk, string_bytes};
ghost use Rattle.printing_core.specs.Lines.{accepted_text};
ghost use Rattle.printing_core.specs.CostLines.{cost_line, plan_lines, sample_line, shards_line};

use crate::sync_stats::Seconds;
use std::alloc::{AllocError, Global};

/// The line `accepted`, and then `steps` and the steps, with a space before each.
pub fn accepted_text(alloc: Global, steps: &[u32]) -> Result<String, AllocError>
    ensures { IfOk result (λ text. string_bytes text ≡ accepted_text steps.now) }
{
    let mut text = String::from_str(alloc, "accepted\nsteps")?;
    for step in steps {
        write!(text, " {step}")?;
    }
    text.push_str("\n")?;
    Ok(text)
}

/// Appends the line of two sets that are made: how many items they have, and how many bytes an item has.
pub fn push_sample(text: &mut String, items: u32, item_length: u32) -> Result<(), AllocError>
    ensures { OnOk result (string_bytes text.new ≡ string_bytes text.old ++ sample_line items item_length) }
{
    write!(text, "items {items} length {item_length}\n")
}

/// Appends the line of a session between two sets with so many differences: its bytes both ways, and the messages of
/// both sides.
pub fn push_cost(
    text: &mut String,
    differences: u32,
    bytes: usize,
    messages: u64,
) -> Result<(), AllocError>
    ensures { OnOk result (string_bytes text.new ≡ string_bytes text.old ++ cost_line differences bytes messages) }
{
    write!(
        text,
        "cost {differences} bytes {bytes} messages {messages}\n"
    )
}

/// Appends the lines above a strategy that is planned: its name, and what a session under it costs on a line, in
/// thousandths of a second.
pub fn push_plan(
    text: &mut String,
    name: &str,
    bytes: usize,
    messages: u64,
    millis: u64,
) -> Result<(), AllocError>
    ensures { OnOk result (string_bytes text.new ≡ string_bytes text.old
        ++ plan_lines name.now bytes messages millis) }
{
    let seconds = Seconds(Some(millis));
    write!(
        text,
        "# {name}\n# {bytes} bytes in {messages} messages, {seconds} seconds\n"
    )
}

/// Appends the line above these, where the set is to be cut into shards, by so many bits: how many items and
/// differences one of them has, for which the strategy is planned.
pub fn push_shards(
    text: &mut String,
    bits: u8,
    items: u32,
    differences: u32,
) -> Result<(), AllocError>
    ensures { OnOk result (string_bytes text.new ≡ string_bytes text.old ++ shards_line bits items differences) }
{
    write!(
        text,
        "# --shards {bits} on both sides; of a shard with {items} items and {differences} differences:\n"
    )
}
