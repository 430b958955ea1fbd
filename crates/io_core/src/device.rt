//! What a file of lines stands on.

ghost use Rattle.std.specs.Prelude.{◌≡◌, ℕ, List, None, Option, OnOk, is_err};
ghost use Rattle.std.specs.Io.{WritesAtMost};
ghost use Rattle.io_core.specs.Devices.{AppendsSome, Cuts, is_short, with_refusal};

use std::io;

/// Bytes that are added to at their end and cut there. It may refuse any call, and take fewer bytes than it is given.
pub trait Device {
    /// The bytes that it holds, where they are known.
    ghost held: { Self → Option (List ℕ) } = { λ _. None };

    /// Those of them that outlive a loss of power, where they are known.
    ghost saved: { Self → Option (List ℕ) } = { λ _. None };

    /// How many calls it refused or did not take whole, where that is known.
    ghost refusals: { Self → Option ℕ } = { λ _. None };

    /// Adds bytes at the end: at `Ok(n)` the first n, at an error a beginning of any length.
    fn append(&mut self, bytes: &[u8]) -> io::Result<usize>
        ensures bound { WritesAtMost result bytes.now }
        ensures bytes { AppendsSome (held self.old) (held self.new) result bytes.now }
        ensures counted { refusals self.new ≡ with_refusal (refusals self.old) (is_short result bytes.now) };

    /// Leaves the first `length` bytes, or all if there are fewer. At an error these are left, nothing is added, and of
    /// the others a beginning may be left.
    fn cut(&mut self, length: u64) -> io::Result<()>
        ensures bytes { Cuts (held self.old) (held self.new) result length }
        ensures counted { refusals self.new ≡ with_refusal (refusals self.old) (is_err result) };

    /// Sees that what it holds outlives a loss of power, and changes nothing of it.
    fn sync(&mut self) -> io::Result<()>
        ensures saved { OnOk result (saved self.new ≡ held self.new) }
        ensures bytes { held self.new ≡ held self.old }
        ensures counted { refusals self.new ≡ with_refusal (refusals self.old) (is_err result) };
}
