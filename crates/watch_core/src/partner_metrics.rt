//! The metrics of the partners of a server.

ghost use Rattle.std.specs.Prelude.{◌≡◌, ◌++◌, OnOk, flat_map};
ghost use Rattle.watch_core.specs.MetricTexts as texts;
ghost use Rattle.watch_core.specs.MetricTexts.{figure_line, figure_name, label_byte, label_text};

use crate::filling::push;
use crate::metrics::push_head;
use crate::partnered::Partnered;
use crate::pieces::Cell;
use std::alloc::{AllocError, Global};

/// What is told of each partner by a metric.
#[derive(Clone, Copy)]
enum Figure {
    Up,
    Ended,
    Failed,
    Silent,
}

impl Figure {
    /// The name of the metric.
    fn name(self) -> &'static str
        ensures { result.now ≡ figure_name self }
    {
        match self {
            Figure::Up => "rangesync_partner_up",
            Figure::Ended => "rangesync_partner_turns_ended_total",
            Figure::Failed => "rangesync_partner_turns_failed_total",
            Figure::Silent => "rangesync_partner_silent_seconds",
        }
    }

    /// Whether its value may fall.
    fn kind(self) -> &'static str
        ensures { result.now ≡ texts.figure_kind self }
    {
        match self {
            Figure::Ended | Figure::Failed => "counter",
            _ => "gauge",
        }
    }

    /// What it says.
    fn help(self) -> &'static str
        ensures { result.now ≡ texts.figure_help self }
    {
        match self {
            Figure::Up => "Whether the last turn with a partner ended.",
            Figure::Ended => "Turns with a partner that ended.",
            Figure::Failed => {
                "Turns with a partner that was not reached, or refused, or was cut off."
            }
            Figure::Silent => "Seconds since the last turn with a partner that ended.",
        }
    }

    /// Its value for a partner, if there is one.
    fn of(self, partner: &Partnered<'_>) -> Option<Cell<'static>>
        ensures { result ≡ texts.figure_of self partner.now }
    {
        match self {
            Figure::Up => Some(Cell::Number(u64::from(partner.is_up()))),
            Figure::Ended => Some(Cell::Number(partner.ended)),
            Figure::Failed => Some(Cell::Number(partner.failed)),
            Figure::Silent => match partner.silent {
                Some(silent) => Some(Cell::Seconds(silent)),
                None => None,
            },
        }
    }
}

/// Appends a byte of the value of a label: what would end it, and a line feed, after a backslash.
fn push_label_byte(text: &mut Vec<u8>, byte: u8) -> Result<(), AllocError>
    ensures { OnOk result (text.new.items ≡ text.old.items ++ label_byte byte) }
{
    match byte {
        b'"' | b'\\' => text.extend_from_slice(&[b'\\', byte]),
        b'\n' => text.extend_from_slice(b"\\n"),
        _ => text.extend_from_slice(&[byte]),
    }
}

/// Appends the value of a label.
fn push_label(text: &mut Vec<u8>, label: &str) -> Result<(), AllocError>
    ensures { OnOk result (text.new.items ≡ text.old.items ++ label_text label.now) }
{
    let bytes = label.as_bytes();
    for byte in bytes {
        push_label_byte(text, *byte)?;
    }
    Ok(())
}

/// Appends a value after its label, and ends the line.
fn push_value(alloc: Global, text: &mut Vec<u8>, cell: Cell<'static>) -> Result<(), AllocError>
    ensures { OnOk result (text.new.items ≡ text.old.items ++ texts.figure_value cell.entry) }
{
    let value = format!(in alloc; "\"}} {cell}\n")?;
    text.extend_from_slice(value.as_bytes())
}

/// Appends what stands in front of a value of the partner of this address.
fn push_label_of(text: &mut Vec<u8>, name: &'static str, address: &str) -> Result<(), AllocError>
    ensures { OnOk result (text.new.items ≡ text.old.items ++ texts.label_of name.now address.now) }
{
    push(text, name)?;
    push(text, "{partner=\"")?;
    push_label(text, address)
}

/// Appends the line of a partner, if it has a value.
fn push_line(
    alloc: Global,
    text: &mut Vec<u8>,
    figure: Figure,
    partner: &Partnered<'_>,
) -> Result<(), AllocError>
    ensures { OnOk result (text.new.items ≡ text.old.items ++ figure_line figure partner.now) }
{
    let Some(cell) = figure.of(partner) else {
        return Ok(());
    };
    push_label_of(text, figure.name(), partner.address)?;
    push_value(alloc, text, cell)
}

/// Appends the lines of these partners.
fn push_lines(
    alloc: Global,
    text: &mut Vec<u8>,
    figure: Figure,
    partners: &[Partnered<'_>],
) -> Result<(), AllocError>
    ensures { OnOk result (text.new.items ≡ text.old.items ++ flat_map (figure_line figure) partners.now) }
{
    for partner in partners {
        push_line(alloc, text, figure, partner)?;
    }
    Ok(())
}

/// Appends what stands above the lines of a metric.
fn push_figure_head(alloc: Global, text: &mut Vec<u8>, figure: Figure) -> Result<(), AllocError>
    ensures { OnOk result (text.new.items ≡ text.old.items ++ texts.figure_head figure) }
{
    let mut head = String::new(alloc);
    push_head(&mut head, figure.name(), figure.kind(), figure.help())?;
    text.extend_from_slice(head.as_bytes())
}

/// Appends a metric of these partners.
fn push_figure(
    alloc: Global,
    text: &mut Vec<u8>,
    figure: Figure,
    partners: &[Partnered<'_>],
) -> Result<(), AllocError>
    ensures { OnOk result (text.new.items ≡ text.old.items ++ texts.figure_text figure partners.now) }
{
    push_figure_head(alloc, text, figure)?;
    push_lines(alloc, text, figure, partners)
}

/// Appends the metrics of these partners; nothing where there are none.
#[tactic(auto, unfolding(crate::specs::MetricTexts::partners_text))]
pub(crate) fn push_partners(
    alloc: Global,
    text: &mut Vec<u8>,
    partners: &[Partnered<'_>],
) -> Result<(), AllocError>
    ensures { OnOk result (text.new.items ≡ text.old.items ++ texts.partners_text partners.now) }
{
    if partners.is_empty() {
        return Ok(());
    }
    push_figure(alloc, text, Figure::Up, partners)?;
    push_figure(alloc, text, Figure::Ended, partners)?;
    push_figure(alloc, text, Figure::Failed, partners)?;
    push_figure(alloc, text, Figure::Silent, partners)
}
