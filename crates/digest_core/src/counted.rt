ghost use Rattle.std.specs.Prelude.{◌≡◌, length};
ghost use Rattle.std.specs.Int.{w32, from_be_bytes};
ghost use Rattle.definitions.specs.Fingerprints.{counted_text};

use crate::fingerprint::Fingerprint;
use crate::summary::{Summary, WireSummary};
use item_core::Item;
use std::alloc::AllocError;
use std::marker::Model;

/// The number of items modulo 2^32, and the two-lane sum over them.
#[derive(Clone, Copy, Debug, PartialEq, Eq)]
pub struct Counted {
    count: u32,
    lanes: Fingerprint,
}

impl Model for Counted {
    ghost use Rattle.definitions.specs.Fingerprints as fingerprints;
    ghost use Rattle.digest_core.specs.Counts.{IsCounted};

    ghost Value = { fingerprints.Counted };

    ghost view = { λ a. record { count = a.count; lanes = a.lanes } };

    ghost invariant = { λ a. IsCounted (record { count = a.count; lanes = a.lanes }) };

    ghost inverse = { λ f. record { count = f.count; lanes = f.lanes } };
}

/// The number that 4 bytes spell, the highest first.
fn number(bytes: &[u8]) -> u32
    requires { length bytes.now ≡ 4 }
    ensures { result ≡ from_be_bytes w32 bytes.now }
{
    u32::from_be_bytes([bytes[0], bytes[1], bytes[2], bytes[3]])
}

impl Counted {
    /// The 36 bytes that spell it: the count before the lanes.
    pub(crate) fn to_bytes(self) -> [u8; 36]
        ensures { result ≡ counted_text self }
    {
        let mut bytes = [0u8; 36];
        bytes[..4].copy_from_slice(&self.count.to_be_bytes());
        bytes[4..].copy_from_slice(&self.lanes.to_bytes());
        bytes
    }
}

impl WireSummary for Counted {
    ghost use Rattle.definitions.specs.Fingerprints.{counted_lanes};
    ghost use Rattle.definitions.specs.Wire.{counted_profile};
    ghost use Rattle.digest_core.specs.Counts as counts;

    ghost summary = { counted_lanes };

    ghost profile = { counted_profile };

    ghost is_value = { counts.IsCounted };

    ghost of_is_value = { counts.of_is_value };

    ghost exact = { counts.exact };

    ghost real = { counts.real };

    ghost spelled = { counts.spelled };

    ghost fixed = { counts.fixed };

    fn of_set(count: usize, lanes: Fingerprint) -> Counted {
        Counted {
            count: (count % 4_294_967_296) as u32,
            lanes,
        }
    }

    fn equals(self, other: Counted) -> bool {
        self == other
    }

    fn may_cut() -> bool {
        false
    }

    fn hello() -> [u8; 4] {
        [0x52, 0x52, 0x53, 0x32]
    }

    fn size() -> usize {
        36
    }

    fn push(self, out: &mut Vec<u8>) -> Result<(), AllocError> {
        out.extend_from_slice(&self.to_bytes())?;
        Ok(())
    }

    fn read(bytes: &[u8]) -> Counted {
        Counted {
            count: number(&bytes[..4]),
            lanes: Fingerprint::read(&bytes[4..]),
        }
    }

    fn known(self) {}
}

impl Summary for Counted {
    ghost use Rattle.digest_core.specs.Counts as counts;

    ghost joined = { counts.join_counted };

    ghost joined_is_value = { counts.joined_is_value };

    ghost associates = { counts.associates };

    ghost commutes = { counts.commutes };

    ghost unit = { counts.unit };

    ghost adds_up = { counts.adds_up };

    fn zero() -> Counted {
        Counted {
            count: 0,
            lanes: Fingerprint::zero(),
        }
    }

    fn of_item(item: &Item) -> Counted {
        Counted {
            count: 1,
            lanes: Fingerprint::of_item(item),
        }
    }

    fn join(self, other: Counted) -> Counted {
        Counted {
            count: self.count.wrapping_add(other.count),
            lanes: self.lanes.join(other.lanes),
        }
    }
}
