//! What is kept of bytes that were read.

ghost use Rattle.std.specs.Prelude.{◌≡◌, ◌≤◌, length, IfOk, IfSome, IfNone};

use std::alloc::{AllocError, Global};

/// What is kept of the bytes where these are left: none stands for all of them, as a long unfinished unit is not
/// copied.
pub fn kept_of(alloc: Global, bytes: &[u8], rest: &[u8]) -> Result<Option<Vec<u8>>, AllocError>
    ensures part { IfOk result (λ kept. IfSome kept (λ v. v.items ≡ rest.now)) }
    ensures all { IfOk result (λ kept. IfNone kept (length bytes.now ≤ length rest.now)) }
{
    if rest.len() >= bytes.len() {
        return Ok(None);
    }
    Ok(Some(Vec::from_slice(alloc, rest)?))
}
