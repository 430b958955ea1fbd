//! What is told of a strategy that is taken all the same.

use crate::shown::shown_line;
use crate::wants::RowOrigin;
use crate::why::Origin;
use item_files::{StrayKey, meant_key};
use std::alloc::{AllocError, Global};
use std::io::Write;

/// A key as it is shown, and the key that was meant, if one is near.
fn told_of(
    alloc: Global,
    stray: StrayKey<'_>,
) -> Result<(String, Option<&'static str>), AllocError> {
    let shown = shown_line(alloc, stray.key.as_bytes())?;
    Ok((shown, meant_key(alloc, stray)?))
}

/// Tells that a key of the strategy in the file says nothing, and which one may be meant. Where memory runs out nothing
/// is told; a line that is not taken changes nothing.
pub fn tell_stray_key<E: Write>(alloc: Global, err: &mut E, file: &str, stray: StrayKey<'_>) {
    let Ok((shown, meant)) = told_of(alloc, stray) else {
        return;
    };
    let origin = RowOrigin(Origin { file, node: None }, stray.row);
    let _told = match meant {
        Some(meant) => writeln!(err, "{origin}: {shown} is no key: did you mean {meant}?"),
        None => writeln!(err, "{origin}: {shown} is no key, and is ignored"),
    };
}
