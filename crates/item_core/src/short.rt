ghost use Rattle.std.specs.Prelude.{◌≡◌, ℕ, ◌-◌, ◌≤◌, ◌++◌, length, replicate, SomeIff, nat_eq, refl, [], Some, IsSome};
ghost use Rattle.std.specs.Prelude.{IfSome, ◌↔◌};
ghost use Rattle.std.proofs.Common.{rules};
ghost use Rattle.std.specs.Ordering.{nat_cmp};
ghost use Rattle.std.specs.Cmp.{partial_equiv_from_equiv};
ghost use Rattle.std.specs.Cmp.Lexicographic.{slice_cmp, pointwise, texts_po, texts_ties};
ghost use Rattle.std.proofs.lemmas.Cmp.{nat_list_cmp_total, nat_list_eq_equiv};
ghost use Rattle.std.specs.Hash as fed;
ghost use Rattle.std.specs.Cmp.Rules.{comparing, hashing};
ghost use Rattle.definitions.specs.Items.{IsBytes};

use std::cmp::Ordering;
use std::fmt;
use std::hash::{Hash, Hasher};
use std::marker::Model;

/// The greatest length of an item and of a bound, in bytes.
pub const MAX_LENGTH: usize = 64;

/// A byte string of 0 to 64 bytes, kept inline: the bytes, and zeros after them.
#[derive(Clone, Copy)]
pub struct Short {
    bytes: [u8; 64],
    length: u8,
}

impl Model for Short {
    ghost use Rattle.std.specs.Prelude.{◌≡◌, ℕ, ◌-◌, ◌≤◌, List, ◌++◌, length as len, take, replicate};
    ghost use Rattle.definitions.proofs.Padded.{padded_again};
    ghost use Rattle.definitions.specs.Items.{IsBytes};

    ghost Value = { List ℕ };

    ghost view = { λ a. take a.length a.bytes };

    ghost invariant = { λ a. (a.length ≤ 64) × (len a.bytes ≡ 64)
        × (a.bytes ≡ take a.length a.bytes ++ replicate (64 - a.length) 0) × IsBytes (take a.length a.bytes) };

    ghost inverse = { λ xs. record { bytes = xs ++ replicate (64 - len xs) 0; length = len xs } };

    ghost inverse_ok = { λ a h i. let again = padded_again 64 a.length a.bytes h.0 h.1 h.2 in
        record { bytes = again.0 i; length = again.1 i } };
}

/// The bytes, and zeros up to 64.
fn padded(bytes: &[u8]) -> [u8; 64]
    requires { length bytes.now ≤ 64 }
    ensures padded { result ≡ bytes.now ++ replicate (64 - length bytes.now) 0 }
    ensures length { length result ≡ 64 }
{
    let mut held = [0u8; 64];
    held[..bytes.len()].copy_from_slice(bytes);
    held
}

impl Short {
    /// No bytes.
    pub fn empty() -> Short
        ensures { result ≡ [] }
    {
        Short {
            bytes: [0; 64],
            length: 0,
        }
    }

    /// The byte string, unless it is longer than 64 bytes.
    pub fn new(bytes: &[u8]) -> Option<Short>
        ensures short { IsSome result ↔ (length bytes.now ≤ 64) }
        ensures value { IfSome result (λ x. x ≡ bytes.now) }
    {
        if bytes.len() > MAX_LENGTH {
            return None;
        }
        Some(Short::of(bytes))
    }

    /// The byte string, which is known to be no longer than 64 bytes.
    pub fn of(bytes: &[u8]) -> Short
        requires { length bytes.now ≤ 64 }
        ensures { result ≡ bytes.now }
    {
        Short {
            bytes: padded(bytes),
            length: bytes.len() as u8,
        }
    }

    /// The bytes.
    pub fn bytes(&self) -> &[u8]
        ensures bytes { result.now ≡ self.now }
        ensures short { length self.now ≤ 64 }
        ensures are_bytes { IsBytes self.now }
    {
        &self.bytes[..self.length as usize]
    }
}

impl PartialEq for Short {
    ghost eq = { pointwise nat_eq };

    ghost laws = { partial_equiv_from_equiv nat_list_eq_equiv };

    fn eq(&self, other: &Self) -> bool {
        self.bytes() == other.bytes()
    }
}

impl Eq for Short {
    ghost laws = { nat_list_eq_equiv };
}

impl PartialOrd for Short {
    ghost partial_cmp = { λ x y. Some (slice_cmp nat_cmp x y) };

    ghost laws = { texts_po };

    fn partial_cmp(&self, other: &Self) -> Option<Ordering> {
        Some(self.cmp(other))
    }
}

impl Ord for Short {
    ghost cmp = { slice_cmp nat_cmp };

    ghost total = { nat_list_cmp_total };

    ghost matches_partial_cmp = { λ x y. refl };

    ghost matches_eq = { λ x y. texts_ties x y };

    fn cmp(&self, other: &Self) -> Ordering {
        self.bytes().cmp(other.bytes())
    }
}

impl Hash for Short {
    ghost hash_input = { fed.slice fed.u8 };

    ghost respects_eq = { Prim.search (hashing, rules) };

    fn hash<H: Hasher>(&self, state: &mut H) {
        self.bytes().hash(state);
    }
}

impl fmt::Debug for Short {
    fn fmt<W: fmt::Write>(&self, f: &mut fmt::Formatter<W>) -> fmt::Result {
        self.bytes().fmt(f)
    }
}
