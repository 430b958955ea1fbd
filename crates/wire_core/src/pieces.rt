//! A stream that comes in pieces: the bytes that are kept of an unfinished hello or frame, and a piece after them.

ghost use Rattle.std.specs.Prelude.{◌≡◌, ◌+◌, ◌-◌, ◌^◌, ◌<◌, ◌≤◌, true, false, None, ◌++◌, length, take, drop};
ghost use Rattle.std.specs.Prelude.{IfOk, OnOk, OnErr, slice_index};
ghost use Rattle.std.specs.Int.{w32, from_be_bytes};
ghost use Rattle.definitions.specs.Wire.{max_body};
ghost use Rattle.definitions.specs.Streams.{feed, stays};
ghost use Rattle.wire_core.specs.Standings.{standing_of, is_over};
ghost use Rattle.wire_core.specs.Feeds.{fault_at};
ghost use Rattle.wire_core.specs.Nexts.{IsReach};

use crate::standing::Standing;
use digest_core::WireSummary;
use std::alloc::AllocError;

/// How many bytes an unfinished hello or frame wants beside those that have come, as far as these tell.
fn wanted(kept: &[u8]) -> usize
    ensures short { length kept.now < 4 → length kept.now + result ≡ 4 }
    ensures frame { 4 ≤ length kept.now → result ≡ 4 + from_be_bytes w32 (take 4 kept.now) - length kept.now }
{
    if kept.len() < 4 {
        return 4 - kept.len();
    }
    let length = u32::from_be_bytes([kept[0], kept[1], kept[2], kept[3]]) as usize;
    (4 + length).saturating_sub(kept.len())
}

/// Tells that bytes that are kept and were read are less than the longest frame; nothing is done.
pub fn are_few<F: WireSummary>(kept: &[u8], standing: Standing)
    requires { feed F.profile (standing_of standing) kept.now ≡ stays (standing_of standing) kept.now }
    ensures { length kept.now < 4 + max_body }
{
    laws::codec::feeds_rest::<F>();
    laws::codec::are_bytes(kept);
    let _ = standing;
}

/// Appends a piece. A byte alone is pushed, as a copy costs more than the byte.
fn append(kept: &mut Vec<u8>, piece: &[u8]) -> Result<(), AllocError>
    ensures kept { OnOk result (kept.new.items ≡ kept.old.items ++ piece.now) }
    ensures memory { OnErr result (kept.new.items ≡ kept.old.items) }
{
    match piece {
        [byte] => kept.push(*byte)?,
        _ => kept.extend_from_slice(piece)?,
    }
    Ok(())
}

/// Keeps a piece that does not end the unfinished hello or frame, and tells whether it did.
pub fn keep<F: WireSummary>(
    kept: &mut Vec<u8>,
    piece: &[u8],
    standing: Standing,
) -> Result<bool, AllocError>
    requires read { feed F.profile (standing_of standing) kept.old.items
        ≡ stays (standing_of standing) kept.old.items }
    requires counts { is_over (standing_of standing) ≡ false }
    // The piece is kept, and no event or fault comes of it.
    ensures kept { IfOk result (λ is_kept. is_kept ≡ true → (kept.new.items ≡ kept.old.items ++ piece.now)
        × (feed F.profile (standing_of standing) kept.new.items
        ≡ stays (standing_of standing) kept.new.items) × (fault_at (standing_of standing) ≡ None)) }
    ensures same { IfOk result (λ is_kept. is_kept ≡ false → kept.new.items ≡ kept.old.items) }
    // It does not keep a piece only where that reaches the end of what is unfinished, as far as its bytes tell.
    ensures short { IfOk result (λ is_kept. is_kept ≡ false → length kept.old.items < 4 →
        4 ≤ length kept.old.items + length piece.now) }
    ensures frame { IfOk result (λ is_kept. is_kept ≡ false → 4 ≤ length kept.old.items →
        4 + from_be_bytes w32 (take 4 kept.old.items) ≤ length kept.old.items + length piece.now) }
    ensures memory { OnErr result (kept.new.items ≡ kept.old.items) }
{
    if piece.len() >= wanted(kept) {
        return Ok(false);
    }
    append(kept, piece)?;
    Ok(true)
}

/// The byte at a place of the kept bytes and the piece after them.
fn byte_at(kept: &[u8], piece: &[u8], index: usize) -> u8
    requires { index < length kept.now + length piece.now }
    ensures { result ≡ slice_index (kept.now ++ piece.now) index }
{
    if index < kept.len() {
        kept[index]
    } else {
        piece[index - kept.len()]
    }
}

/// The length that stands at a place of the kept bytes and the piece after them.
fn length_at(kept: &[u8], piece: &[u8], start: usize) -> usize
    requires { start + 4 ≤ length kept.now + length piece.now }
    ensures number { result ≡ from_be_bytes w32 (take 4 (drop start (kept.now ++ piece.now))) }
    ensures small { result < 2 ^ 32 }
{
    u32::from_be_bytes([
        byte_at(kept, piece, start),
        byte_at(kept, piece, start + 1),
        byte_at(kept, piece, start + 2),
        byte_at(kept, piece, start + 3),
    ]) as usize
}

/// How many bytes of a piece belong to what stands next: the hello where it is due, and one frame.
pub fn next_length(kept: &[u8], piece: &[u8], standing: Standing) -> usize
    ensures within { result ≤ length piece.now }
    ensures over { is_over (standing_of standing) ≡ true → result ≡ length piece.now }
    ensures reach { is_over (standing_of standing) ≡ false →
        IsReach (standing_of standing) kept.now piece.now result }
{
    let start = standing.hello_length();
    let wanted = (start + 4).saturating_sub(kept.len());
    if standing.is_over() || piece.len() < wanted {
        return piece.len();
    }
    let end = start + 4 + length_at(kept, piece, start);
    end.saturating_sub(kept.len()).min(piece.len())
}
