//! An entry of a directory: an item of 38 bytes with a shard's number, its count and its fingerprint.

ghost use Rattle.std.specs.Prelude.{◌≡◌, ◌<◌, ◌≤◌, ◌^◌, length, IfOk, IfErr, OnOk, Some, None};
ghost use Rattle.std.specs.Int.{w32, from_be_bytes};
ghost use Rattle.shard_core.specs.Shards.{max_bits, entry};
ghost use Rattle.shard_core.specs.Directories.{entry_fault, number_fault, number_in, sum_in};

use crate::shard::{number, shard_count};
use crate::shard_sum::{MAX_COUNT, ShardSum};
use digest_core::{Fingerprint, WireSummary};
use item_core::Item;

/// The number of bytes of an entry.
const LENGTH: usize = 38;

/// Why items are no entries of a directory.
#[derive(Clone, Copy, Debug, PartialEq, Eq)]
pub enum BadEntry {
    /// An item does not have 38 bytes.
    WrongLength,
    /// The number of an entry is that of no shard.
    NoSuchShard,
    /// An entry says more than 65,536 items.
    TooManyItems,
    /// Two entries have one number.
    Twice,
}

/// The number that 4 bytes spell, the highest first.
fn count(bytes: &[u8]) -> u32
    requires { length bytes.now ≡ 4 }
    ensures { result ≡ from_be_bytes w32 bytes.now }
{
    u32::from_be_bytes([bytes[0], bytes[1], bytes[2], bytes[3]])
}

/// The entry of the shard of this number.
pub fn entry_of(number: u16, sum: ShardSum) -> Item
    ensures { result ≡ entry number sum.count sum.fingerprint }
{
    let [n0, n1] = number.to_be_bytes();
    let [c0, c1, c2, c3] = sum.count.to_be_bytes();
    let mut bytes = [0u8; LENGTH];
    bytes[..6].copy_from_slice(&[n0, n1, c0, c1, c2, c3]);
    bytes[6..].copy_from_slice(&sum.fingerprint.to_bytes());
    Item::of(&bytes)
}

/// Whether a directory of 2 to the power of `bits` shards may have an entry of this number and count.
fn tested(number: u16, count: u32, bits: u8) -> Result<(), BadEntry>
    requires { bits ≤ max_bits }
    ensures good { OnOk result (number_fault bits number count ≡ None) }
    ensures bad { IfErr result (λ e. number_fault bits number count ≡ Some e) }
{
    if usize::from(number) >= shard_count(bits) {
        return Err(BadEntry::NoSuchShard);
    }
    if count > MAX_COUNT {
        return Err(BadEntry::TooManyItems);
    }
    Ok(())
}

/// What an entry says: the number of its shard, below 2 to the power of `bits`, its count and its fingerprint.
pub fn read_entry(item: &Item, bits: u8) -> Result<(u16, ShardSum), BadEntry>
    requires { bits ≤ max_bits }
    ensures number { IfOk result (λ r. r.0 ≡ number_in item.now) }
    ensures sum { IfOk result (λ r. r.1 ≡ sum_in item.now) }
    ensures good { OnOk result (entry_fault bits item.now ≡ None) }
    ensures within { IfOk result (λ r. r.0 < 2 ^ bits) }
    ensures bad { IfErr result (λ e. entry_fault bits item.now ≡ Some e) }
{
    let bytes = item.bytes();
    if bytes.len() != LENGTH {
        return Err(BadEntry::WrongLength);
    }
    let number = number(&bytes[..2]);
    let count = count(&bytes[2..6]);
    tested(number, count, bits)?;
    let fingerprint = Fingerprint::read(&bytes[6..]);
    Ok((number, ShardSum { count, fingerprint }))
}
