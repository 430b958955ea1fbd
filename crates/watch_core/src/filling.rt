//! Templates that are filled with values.

ghost use Rattle.std.specs.Prelude.{◌≡◌, ◌++◌, OnOk, IfOk, map};
ghost use Rattle.watch_core.specs.PageTexts.{escaped, filled, parted};
ghost use Rattle.watch_core.specs.Pieces.{cell_text};

use crate::escaping::push_escaped;
use crate::pieces::Cell;
use std::alloc::{AllocError, Global};

/// What stands in front of the first mark of a template, and what follows it.
fn parted(template: &'static str) -> (&'static str, &'static str)
    ensures { (result.0.now, result.1.now) ≡ parted template.now }
{
    template.split_once('$').unwrap_or((template, ""))
}

/// Appends a value, escaped.
fn push_cell(alloc: Global, page: &mut Vec<u8>, cell: &Cell<'_>) -> Result<(), AllocError>
    ensures { OnOk result (page.new.items ≡ page.old.items ++ escaped (cell_text cell.now)) }
{
    let text = format!(in alloc; "{cell}")?;
    push_escaped(page, &text)
}

/// Appends a text that is part of the page.
pub(crate) fn push(page: &mut Vec<u8>, text: &'static str) -> Result<(), AllocError>
    ensures { OnOk result (page.new.items ≡ page.old.items ++ text.now) }
{
    page.extend_from_slice(text.as_bytes())
}

/// Appends a template, in which each mark is replaced by the next of these values, escaped.
#[tactic(auto, unfolding(crate::specs::PageTexts::filled))]
pub(crate) fn push_filled(
    alloc: Global,
    page: &mut Vec<u8>,
    template: &'static str,
    cells: &[Cell<'_>],
) -> Result<(), AllocError>
    ensures { OnOk result (page.new.items
        ≡ page.old.items ++ filled template.now (map cell_text cells.now)) }
{
    let mut rest = template;
    for cell in cells {
        let (front, others) = parted(rest);
        push(page, front)?;
        push_cell(alloc, page, cell)?;
        rest = others;
    }
    push(page, rest)
}
