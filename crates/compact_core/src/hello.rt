//! The four bytes with which a stream begins, as far as they have come.

ghost use Rattle.std.specs.Prelude.{◌≡◌, ◌==◌, ◌≤◌, ◌-◌, ◌++◌, ◌&&◌, [], not, length, take, drop, bytes_eq};

use digest_core::WireSummary;
use std::marker::Model;

/// How many bytes a hello has.
const LENGTH: usize = 4;

/// The bytes of a hello that have come. Contracts see these bytes.
#[derive(Debug, Drop)]
pub struct Hello {
    bytes: [u8; LENGTH],
    known: usize,
}

impl Model for Hello {
    ghost use Rattle.std.specs.Prelude.{ℕ, ◌≤◌, List, take};

    ghost Value = { List ℕ };

    ghost view = { λ h. take h.known h.bytes };

    ghost invariant = { λ h. h.known ≤ 4 };
}

impl Hello {
    /// None has come.
    pub fn new() -> Hello
        ensures { result ≡ [] }
    {
        Hello {
            bytes: [0u8; LENGTH],
            known: 0,
        }
    }

    /// How many bytes are to come.
    pub fn due(&self) -> usize
        ensures { result ≡ 4 - length self.now }
    {
        LENGTH - self.known
    }

    /// How many have come.
    pub fn known(&self) -> usize
        ensures { result ≡ length self.now }
    {
        self.known
    }

    /// Forgets all but the first ones.
    pub fn forget_to(&mut self, known: usize)
        requires { known ≤ length self.old }
        ensures { self.new ≡ take known self.old }
    {
        self.known = known;
    }

    /// Takes bytes that were to come.
    pub fn hear(&mut self, bytes: &[u8])
        requires { length bytes.now ≤ 4 - length self.old }
        ensures { self.new ≡ self.old ++ bytes.now }
    {
        let end = self.known + bytes.len();
        self.bytes[self.known..end].copy_from_slice(bytes);
        self.known = end;
    }

    /// Whether it is the hello in which such summaries are sent.
    pub fn is_of<F: WireSummary>(&self) -> bool
        ensures { result ≡ bytes_eq self.now F.profile.hello }
    {
        &self.bytes[..self.known] == F::hello().as_slice()
    }

    /// Whether all of it has come, and it is another one.
    pub fn is_other<F: WireSummary>(&self) -> bool
        ensures { result ≡ ((4 - length self.now == 0) && not (bytes_eq self.now F.profile.hello)) }
    {
        self.due() == 0 && !self.is_of::<F>()
    }
}

/// The bytes of a piece that belong to the hello, of which so many are due, and those after them.
pub fn parted(due: usize, piece: &[u8]) -> (&[u8], &[u8])
    ensures front { result.0.now ≡ take due piece.now }
    ensures rest { result.1.now ≡ drop due piece.now }
{
    piece.split_at(due.min(piece.len()))
}
