//! Items of bytes, and bytes written to the caller's room.

ghost use Rattle.std.specs.Prelude.{◌≡◌, ◌≢◌, ◌≤◌, ◌<◌, length, take, IfOk, IfErr};
ghost use Rattle.rangesync_c.specs.Meaning.{IsItemFault, IsItemLength};

use crate::codes::{EMPTY_ITEM, FINE, NOT_THERE, TOO_LONG};
use item_core::{Item, LengthFault};

/// The item of these bytes. 71 for none, 72 for more than 64.
pub(crate) fn item_of(bytes: &[u8]) -> Result<Item, u32>
    ensures item { IfOk result (λ x. (x ≡ bytes.now) × IsItemLength bytes.now) }
    ensures fault { IfErr result (λ code. (code ≢ 0) × IsItemFault bytes.now code) }
{
    match Item::new(bytes) {
        Ok(item) => Ok(item),
        Err(LengthFault::Empty) => Err(EMPTY_ITEM),
        Err(LengthFault::TooLong) => Err(TOO_LONG),
    }
}

/// Writes bytes to the front of the room, and says how many they are. 98 where there is not that much room.
pub(crate) fn write_bytes(bytes: &[u8], room: &mut [u8], used: &mut usize) -> u32
    ensures written { result ≡ 0 → take used.new room.new ≡ bytes.now }
    ensures failed { result ≢ 0 → room.new ≡ room.old }
    ensures length { used.new ≡ length bytes.now }
    ensures few { result ≡ 0 → used.new ≤ length room.old }
    ensures fits { length bytes.now ≤ length room.old → result ≡ 0 }
    ensures no_room { result ≢ 0 → (result ≡ 98) × (length room.old < length bytes.now) }
{
    *used = bytes.len();
    if bytes.len() > room.len() {
        return NOT_THERE;
    }
    room[..bytes.len()].copy_from_slice(bytes);
    FINE
}

/// Writes an item to the front of the room, and says its length. 98 where there is not that much room.
pub(crate) fn write_item(item: &Item, room: &mut [u8], used: &mut usize) -> u32
    ensures written { result ≡ 0 → (used.new ≡ length item.now) × (take used.new room.new ≡ item.now) }
    ensures failed { result ≢ 0 → room.new ≡ room.old }
    ensures length { used.new ≡ length item.now }
    ensures few { result ≡ 0 → used.new ≤ length room.old }
    ensures fits { length item.now ≤ length room.old → result ≡ 0 }
    ensures no_room { result ≢ 0 → (result ≡ 98) × (length room.old < length item.now) }
{
    write_bytes(item.bytes(), room, used)
}
