//! Items as they are printed.

ghost use Rattle.std.specs.Prelude.{◌≡◌, ◌++◌, chars, option_map, IfOk, OnOk, string_bytes};
ghost use Rattle.std.specs.Char.{is_control};
ghost use Rattle.std.specs.List.{list_any};
ghost use Rattle.hex.specs.Hex.{encode_lower};
ghost use Rattle.item_files.specs.ItemFiles.{is_marked};
ghost use Rattle.printing_core.specs.ItemTexts.{plain_text, marked_text, item_text, ReadsWhatIsPrinted};

use item_core::Item;
use item_files::{ItemForm, has_byte_order_mark};
use std::alloc::{AllocError, Global};

/// A file of items that were printed as text, a line each, has these items.
#[tactic(auto, using(crate::proofs::ReadAgain::text_read_again))]
pub fn text_is_read_again()
    ensures { ReadsWhatIsPrinted ItemForm.Text }
{}

/// Whether the text has a control character.
fn has_control(text: &str) -> bool
    ensures { result ≡ list_any is_control (chars text.now) }
{
    text.chars().any(|character| character.is_control())
}

/// Whether `0x` is in front.
fn is_marked(bytes: &[u8]) -> bool
    ensures { result ≡ is_marked bytes.now }
{
    bytes.starts_with(b"0x")
}

/// The bytes as a text that stands for itself, if they are one: UTF-8 without control characters, and neither `0x` nor
/// a byte order mark in front.
fn plain_text(bytes: &[u8]) -> Option<&str>
    ensures { option_map (λ text. text.now) result ≡ plain_text bytes.now }
{
    let Ok(text) = str::from_utf8(bytes) else {
        return None;
    };
    if has_control(text) || is_marked(bytes) || has_byte_order_mark(bytes) {
        return None;
    }
    Some(text)
}

/// Appends the bytes in hex.
pub(crate) fn push_hex(alloc: Global, text: &mut String, bytes: &[u8]) -> Result<(), AllocError>
    ensures { OnOk result (string_bytes text.new ≡ string_bytes text.old ++ encode_lower bytes.now) }
{
    text.push_str(&hex::encode(alloc, bytes)?)
}

/// Appends the bytes in hex after `0x`.
fn push_marked(alloc: Global, text: &mut String, bytes: &[u8]) -> Result<(), AllocError>
    ensures { OnOk result (string_bytes text.new ≡ string_bytes text.old ++ marked_text bytes.now) }
{
    text.push_str("0x")?;
    push_hex(alloc, text, bytes)
}

/// Appends the item: in hex; or as it stands where it is a text that stands for itself, else in hex after `0x`, as the
/// digest of a line is.
pub fn push_item(
    alloc: Global,
    text: &mut String,
    form: ItemForm,
    item: &Item,
) -> Result<(), AllocError>
    ensures { OnOk result (string_bytes text.new ≡ string_bytes text.old ++ item_text form item.now) }
{
    let bytes = item.bytes();
    match form {
        ItemForm::Hex => push_hex(alloc, text, bytes),
        ItemForm::Hash => push_marked(alloc, text, bytes),
        ItemForm::Text => match plain_text(bytes) {
            Some(plain) => text.push_str(plain),
            None => push_marked(alloc, text, bytes),
        },
    }
}
