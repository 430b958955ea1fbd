//! The bytes that sides of a session say, shared by the tests.

use std::alloc::{AllocError, Global};

/// What a side writes first of all.
pub(crate) const HELLO: &[u8] = &[0x52, 0x52, 0x53, 0x31];

/// What ends a message.
pub(crate) const END: &[u8] = &[0, 0, 0, 1, 4];

/// A Sum over everything of the fingerprint of no items.
pub(crate) const SUM_OF_NOTHING: &[u8] = &[
    0, 0, 0, 0x23, 1, 0, 0xFF, 0, 0, 0, 0, 0, 0, 0, 0, 0, 0, 0, 0, 0, 0, 0, 0, 0, 0, 0, 0, 0, 0, 0,
    0, 0, 0, 0, 0, 0, 0, 0, 0,
];

/// A Sum over everything of 32 bytes 01, which is the fingerprint of none of these sets.
const SUM_OF_ONES: &[u8] = &[
    0, 0, 0, 0x23, 1, 0, 0xFF, 1, 1, 1, 1, 1, 1, 1, 1, 1, 1, 1, 1, 1, 1, 1, 1, 1, 1, 1, 1, 1, 1, 1,
    1, 1, 1, 1, 1, 1, 1, 1, 1,
];

/// A List over everything of no items.
pub(crate) const LIST_OF_NOTHING: &[u8] = &[0, 0, 0, 7, 2, 0, 0xFF, 0, 0, 0, 0];

/// A List over everything of abc.
const LIST_OF_ABC: &[u8] = &[0, 0, 0, 0x0B, 2, 0, 0xFF, 0, 0, 0, 1, 3, 0x61, 0x62, 0x63];

/// An Answer over everything that has one mark, which is set, and no items.
const ABC_IS_LACKED: &[u8] = &[0, 0, 0, 0x0C, 3, 0, 0xFF, 0, 0, 0, 1, 1, 0, 0, 0, 0];

/// An Answer over everything that has no marks, and the item abc.
const ABC_IS_NEW: &[u8] = &[
    0, 0, 0, 0x0F, 3, 0, 0xFF, 0, 0, 0, 0, 0, 0, 0, 1, 3, 0x61, 0x62, 0x63,
];

/// A List of aa before d.
const AA_BEFORE_D: &[u8] = &[0, 0, 0, 0x0B, 2, 0, 1, 0x64, 0, 0, 0, 1, 2, 0x61, 0x61];

/// A List of x and y from d on.
const X_AND_Y_FROM_D: &[u8] = &[
    0, 0, 0, 0x0C, 2, 1, 0x64, 0xFF, 0, 0, 0, 2, 1, 0x78, 1, 0x79,
];

/// All that a side with no items says to a side with abc, where it speaks first: 69 bytes, of which the first message
/// ends with the 48th.
pub(crate) const EMPTY_TO_ABC: &[&[u8]] = &[HELLO, SUM_OF_NOTHING, END, ABC_IS_LACKED, END];

/// All that a side with abc says to a side with no items that speaks first: 24 bytes.
pub(crate) const ABC_TO_EMPTY: &[&[u8]] = &[HELLO, LIST_OF_ABC, END];

/// What a side says that speaks first and has abc, to a side with no items: its Sum is that of no set that it meets.
pub(crate) const TEACHES_ABC: &[&[u8]] = &[HELLO, SUM_OF_ONES, END, ABC_IS_NEW, END];

/// What a side says that speaks first and has aa, x and y, in this order, to a side with a to g.
pub(crate) const TEACHES_THREE: &[&[u8]] = &[
    HELLO,
    SUM_OF_ONES,
    END,
    AA_BEFORE_D,
    X_AND_Y_FROM_D,
    END,
];

/// A fault frame with this number.
pub(crate) const fn fault(code: u8) -> [u8; 6] {
    [0, 0, 0, 2, 5, code]
}

/// These bytes one after the other.
pub(crate) fn joined(alloc: Global, pieces: &[&[u8]]) -> Result<Vec<u8>, AllocError> {
    let mut bytes = Vec::new(alloc);
    for piece in pieces {
        bytes.extend_from_slice(piece)?;
    }
    Ok(bytes)
}
