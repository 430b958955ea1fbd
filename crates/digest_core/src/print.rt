use crate::counted::Counted;
use crate::fingerprint::Fingerprint;
use crate::summary::WireSummary;
use sha2::{Digest, Sha256};
use std::alloc::AllocError;
use std::marker::Model;

/// The fingerprint of the compact profile: the first 12 bytes of the digest of a count and a two-lane sum. Two of them
/// do not join.
#[derive(Clone, Copy, Debug, PartialEq, Eq)]
pub struct Print {
    bytes: [u8; 12],
}

impl Model for Print {
    ghost use Rattle.definitions.specs.Fingerprints as fingerprints;
    ghost use Rattle.digest_core.specs.Prints.{IsPrint};

    ghost Value = { fingerprints.Print };

    ghost view = { λ a. a.bytes };

    ghost invariant = { λ a. IsPrint a.bytes };

    ghost inverse = { λ bytes. record { bytes = bytes } };
}

impl WireSummary for Print {
    ghost use Rattle.definitions.specs.Fingerprints.{compact_prints};
    ghost use Rattle.definitions.specs.Wire.{compact_profile};
    ghost use Rattle.digest_core.specs.Prints as prints;

    ghost summary = { compact_prints };

    ghost profile = { compact_profile };

    ghost is_value = { prints.IsPrint };

    ghost of_is_value = { prints.of_is_value };

    ghost exact = { prints.exact };

    ghost real = { prints.real };

    ghost spelled = { prints.spelled };

    ghost fixed = { prints.fixed };

    fn of_set(count: usize, lanes: Fingerprint) -> Print {
        let digest = Sha256::digest(Counted::of_set(count, lanes).to_bytes());
        let mut bytes = [0u8; 12];
        bytes.copy_from_slice(&digest[..12]);
        Print { bytes }
    }

    fn equals(self, other: Print) -> bool {
        self == other
    }

    fn may_cut() -> bool {
        true
    }

    fn hello() -> [u8; 4] {
        [0x52, 0x52, 0x53, 0x34]
    }

    fn size() -> usize {
        12
    }

    fn push(self, out: &mut Vec<u8>) -> Result<(), AllocError> {
        out.extend_from_slice(&self.bytes)?;
        Ok(())
    }

    fn read(bytes: &[u8]) -> Print {
        let mut own = [0u8; 12];
        own.copy_from_slice(bytes);
        Print { bytes: own }
    }

    fn known(self) {}
}
