//! Readers that keep bytes of their own.

ghost use Rattle.std.specs.Prelude.{◌≡◌, ◌+◌, ◌-◌, ◌^◌, ℕ, length, min};

use compact_core::Unpacking;
use digest_core::WireSummary;

/// A reader that may keep bytes that it has read, or made of these, and not handed on.
pub trait Keeping {
    /// How many bytes it keeps.
    ghost keeps: { Self → ℕ };

    /// The same number.
    fn kept(&self) -> u64
        ensures { result ≡ keeps self.now };
}

impl<R, F: WireSummary> Keeping for Unpacking<R, F> {
    ghost keeps = { λ u.
        min (length u.opening.unpacker.kept + length u.piece + length u.ready) (2 ^ 64 - 1) };

    fn kept(&self) -> u64 {
        self.held()
    }
}
