//! Text that stands in a page as it is, whatever it has.

ghost use Rattle.std.specs.Prelude.{◌≡◌, ◌++◌, OnOk, flat_map};
ghost use Rattle.watch_core.specs.PageTexts.{escape, escaped};

use std::alloc::AllocError;

/// Appends a byte of text, or what stands for it in a page.
fn push_byte(page: &mut Vec<u8>, byte: u8) -> Result<(), AllocError>
    ensures { OnOk result (page.new.items ≡ page.old.items ++ escape byte) }
{
    match byte {
        b'&' => page.extend_from_slice(b"&amp;"),
        b'<' => page.extend_from_slice(b"&lt;"),
        b'>' => page.extend_from_slice(b"&gt;"),
        b'"' => page.extend_from_slice(b"&quot;"),
        b'\'' => page.extend_from_slice(b"&#39;"),
        _ => page.extend_from_slice(&[byte]),
    }
}

/// Appends a text so that a page shows it as it is: none of its bytes begins a tag, ends an attribute or names another
/// character.
pub(crate) fn push_escaped(page: &mut Vec<u8>, text: &str) -> Result<(), AllocError>
    ensures { OnOk result (page.new.items ≡ page.old.items ++ escaped text.now) }
{
    let bytes = text.as_bytes();
    for byte in bytes {
        push_byte(page, *byte)?;
    }
    Ok(())
}
