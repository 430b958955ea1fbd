ghost use Rattle.std.specs.Prelude.{◌≡◌, ◌++◌, List, length};
ghost use Rattle.std.specs.Int.{w64, w128, from_be_bytes, to_be_bytes};
ghost use Rattle.definitions.specs.Items as items;
ghost use Rattle.definitions.specs.Fingerprints.{join_lanes, two_lanes};
ghost use Rattle.definitions.specs.Wire.{IsFingerprint, lanes_text, lanes_read, two_lane_profile};

use crate::lane_laws::bytes_are_exact;
use crate::summary::{Summary, WireSummary};
use item_core::Item;
use sha2::{Digest, Sha256};
use std::alloc::AllocError;
use std::marker::Model;

/// Two sums modulo 2^128 over the items of a set: of the numbers in bytes 0 to 15 of each item's
/// SHA-256 digest, and of those in bytes 16 to 31. No carry passes from one to the other.
#[derive(Clone, Copy, Debug, PartialEq, Eq)]
pub struct Fingerprint {
    first: u128,
    second: u128,
}

impl Model for Fingerprint {
    ghost use Rattle.definitions.specs.Fingerprints.{Lanes, IsLanes};

    ghost Value = { Lanes };

    ghost view = { λ a. record { first = a.first; second = a.second } };

    ghost invariant = { λ a. IsLanes (record { first = a.first; second = a.second }) };

    ghost inverse = { λ f. record { first = f.first; second = f.second } };
}

/// 2 to the power of 64. A lane is read and written by halves, each of which one instruction turns round. The bytes of
/// a `u128` the compiler would take one by one.
const HALF: u128 = 18_446_744_073_709_551_616;

/// The number that 8 bytes spell, the highest first.
fn half(bytes: &[u8]) -> u64
    requires { length bytes.now ≡ 8 }
    ensures { result ≡ from_be_bytes w64 bytes.now }
{
    let mut own = [0u8; 8];
    own.copy_from_slice(bytes);
    u64::from_be_bytes(own)
}

/// The number that 16 bytes spell, the highest first.
fn lane(bytes: &[u8]) -> u128
    requires { length bytes.now ≡ 16 }
    ensures { result ≡ from_be_bytes w128 bytes.now }
{
    u128::from(half(&bytes[..8])) * HALF + u128::from(half(&bytes[8..]))
}

/// The 8 bytes of a number, the highest first: those of the number turned round, the lowest first. Said this way the
/// compiler does not take the higher half of a lane apart.
fn half_bytes(half: u64) -> [u8; 8]
    ensures { result ≡ to_be_bytes w64 half }
{
    half.swap_bytes().to_le_bytes()
}

/// The 16 bytes of a number, the highest first.
fn lane_bytes(lane: u128) -> [u8; 16]
    ensures { result ≡ to_be_bytes w128 lane }
{
    let mut bytes = [0u8; 16];
    bytes[..8].copy_from_slice(&half_bytes((lane / HALF) as u64));
    bytes[8..].copy_from_slice(&half_bytes((lane % HALF) as u64));
    bytes
}

impl Fingerprint {
    /// The 32 bytes, the first lane before the second, each with its highest byte first.
    pub fn to_bytes(self) -> [u8; 32]
        ensures bytes { result ≡ lanes_text self }
        ensures spelled { IsFingerprint two_lane_profile self }
    {
        let mut bytes = [0u8; 32];
        bytes[..16].copy_from_slice(&lane_bytes(self.first));
        bytes[16..].copy_from_slice(&lane_bytes(self.second));
        bytes
    }

    /// The fingerprint of these 32 bytes.
    pub fn from_bytes(bytes: [u8; 32]) -> Fingerprint
        ensures value { result ≡ lanes_read bytes }
        ensures back { lanes_text result ≡ bytes }
    {
        bytes_are_exact();
        laws::codec::reads_are_bytes();
        Fingerprint {
            first: lane(&bytes[..16]),
            second: lane(&bytes[16..]),
        }
    }

    /// The fingerprint of what is left of some items without a part of them.
    pub fn without(self, part: Fingerprint) -> Fingerprint
        ensures joined { join_lanes part result ≡ self }
        ensures rest { (A B : List items.Item) → part ≡ two_lanes.of A → self ≡ two_lanes.of (A ++ B) →
            result ≡ two_lanes.of B }
    {
        Fingerprint {
            first: self.first.wrapping_sub(part.first),
            second: self.second.wrapping_sub(part.second),
        }
    }
}

impl WireSummary for Fingerprint {
    ghost use Rattle.definitions.specs.Fingerprints.{IsLanes, two_lanes};
    ghost use Rattle.digest_core.specs.Laws as laws;
    ghost use Rattle.definitions.specs.Wire.{two_lane_profile};

    ghost summary = { two_lanes };

    ghost profile = { two_lane_profile };

    ghost is_value = { IsLanes };

    ghost of_is_value = { laws.of_is_value };

    ghost exact = { laws.exact };

    ghost real = { laws.real };

    ghost spelled = { laws.spelled };

    ghost fixed = { laws.fixed };

    fn of_set(_count: usize, lanes: Fingerprint) -> Fingerprint {
        lanes
    }

    fn equals(self, other: Fingerprint) -> bool {
        self == other
    }

    fn may_cut() -> bool {
        false
    }

    fn hello() -> [u8; 4] {
        [0x52, 0x52, 0x53, 0x31]
    }

    fn size() -> usize {
        32
    }

    fn push(self, out: &mut Vec<u8>) -> Result<(), AllocError> {
        out.extend_from_slice(&self.to_bytes())?;
        Ok(())
    }

    fn read(bytes: &[u8]) -> Fingerprint {
        let mut own = [0u8; 32];
        own.copy_from_slice(bytes);
        Fingerprint::from_bytes(own)
    }

    fn known(self) {}
}

impl Summary for Fingerprint {
    ghost use Rattle.definitions.specs.Fingerprints.{join_lanes};
    ghost use Rattle.digest_core.specs.Laws as laws;

    ghost joined = { join_lanes };

    ghost joined_is_value = { laws.joined_is_value };

    ghost associates = { laws.associates };

    ghost commutes = { laws.commutes };

    ghost unit = { laws.unit };

    ghost adds_up = { laws.adds_up };

    fn zero() -> Fingerprint {
        Fingerprint {
            first: 0,
            second: 0,
        }
    }

    fn of_item(item: &Item) -> Fingerprint {
        Fingerprint::from_bytes(Sha256::digest(item.bytes()))
    }

    fn join(self, other: Fingerprint) -> Fingerprint {
        Fingerprint {
            first: self.first.wrapping_add(other.first),
            second: self.second.wrapping_add(other.second),
        }
    }
}
