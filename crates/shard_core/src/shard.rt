ghost use Rattle.std.specs.Prelude.{◌≡◌, ◌-◌, ◌/◌, ◌<◌, ◌≤◌, ◌^◌, length};
ghost use Rattle.std.specs.Int.{w16, from_be_bytes};
ghost use Rattle.shard_core.specs.Shards.{lies_in, max_bits, shard_number};

use item_core::Item;
use sha2::{Digest, Sha256};

/// A set is cut into at most 2 to this power shards.
pub const MAX_BITS: u8 = 12;

/// The number that 2 bytes spell, the highest first.
pub(crate) fn number(bytes: &[u8]) -> u16
    requires { length bytes.now ≡ 2 }
    ensures { result ≡ from_be_bytes w16 bytes.now }
{
    u16::from_be_bytes([bytes[0], bytes[1]])
}

/// How many shards there are, 2 to the power of `bits`.
pub fn shard_count(bits: u8) -> usize
    requires { bits ≤ max_bits }
    ensures count { result ≡ 2 ^ bits }
    ensures few { result ≤ 4096 }
{
    1 << bits
}

/// The first bits of 16.
fn first_bits(front: u16, bits: u8) -> u16
    requires { bits ≤ max_bits }
    ensures value { result ≡ front / 2 ^ (16 - bits) }
    ensures below { result < 2 ^ bits }
{
    (u32::from(front) >> (16 - bits)) as u16
}

/// The number of the item's shard among 2 to the power of `bits`: the first bits of its SHA-256 digest.
#[tactic(auto, unfolding(crate::specs::Shards::shard_number))]
pub fn shard_of(item: &Item, bits: u8) -> u16
    requires { bits ≤ max_bits }
    ensures number { result ≡ shard_number bits item.now }
    ensures within { result < 2 ^ bits }
{
    let digest = Sha256::digest(item.bytes());
    first_bits(number(&digest[..2]), bits)
}

/// One shard of a set that is cut into 2 to the power of `bits`.
#[derive(Clone, Copy, Debug, PartialEq, Eq)]
pub struct OneShard {
    /// The number of bits.
    pub bits: u8,
    /// The number of the shard.
    pub number: u16,
    ghost low: { bits ≤ max_bits },
}

impl OneShard {
    /// Whether the item lies in this shard.
    pub fn owns(&self, item: &Item) -> bool
        ensures { result ≡ lies_in self.now.bits self.now.number item.now }
    {
        shard_of(item, self.bits) == self.number
    }
}
