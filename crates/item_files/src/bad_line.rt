//! Bad lines of item files.

ghost use Rattle.std.specs.Prelude.{◌≡◌, ◌++◌, ◌-◌, ◌≤◌, length, take, replicate};
ghost use Rattle.item_files.specs.ItemFiles.{text_in};

use std::fmt;
use std::marker::Model;

/// How many bytes of a bad line are kept: 41 characters have at most so many.
const MAX_FRONT: usize = 164;

/// The bytes that a line begins with, at most 164.
#[derive(Clone, Copy)]
pub struct Front {
    bytes: [u8; 164],
    length: u8,
}

impl Model for Front {
    ghost use Rattle.std.specs.Prelude.{◌≡◌, ℕ, ◌-◌, ◌≤◌, List, ◌++◌, length as len, take, replicate};
    ghost use Rattle.definitions.proofs.Padded.{padded_again};

    ghost Value = { List ℕ };

    ghost view = { λ a. take a.length a.bytes };

    ghost invariant = { λ a. (a.length ≤ 164) × (len a.bytes ≡ 164)
        × (a.bytes ≡ take a.length a.bytes ++ replicate (164 - a.length) 0) };

    ghost inverse = { λ xs. record { bytes = xs ++ replicate (164 - len xs) 0; length = len xs } };

    ghost inverse_ok = { λ a h i. let again = padded_again 164 a.length a.bytes h.0 h.1 h.2 in
        record { bytes = again.0 i; length = again.1 i } };
}

/// The bytes, and zeros up to 164.
fn padded(bytes: &[u8]) -> [u8; 164]
    requires { length bytes.now ≤ 164 }
    ensures padded { result ≡ bytes.now ++ replicate (164 - length bytes.now) 0 }
    ensures length { length result ≡ 164 }
{
    let mut held = [0u8; 164];
    held[..bytes.len()].copy_from_slice(bytes);
    held
}

impl Front {
    /// These bytes, of which there are at most 164.
    fn of(bytes: &[u8]) -> Front
        requires { length bytes.now ≤ 164 }
        ensures { result ≡ bytes.now }
    {
        Front {
            bytes: padded(bytes),
            length: bytes.len() as u8,
        }
    }

    /// What a line begins with.
    pub fn of_line(line: &[u8]) -> Front
        ensures { result ≡ take 164 line.now }
    {
        if line.len() > MAX_FRONT {
            Front::of(&line[..MAX_FRONT])
        } else {
            Front::of(line)
        }
    }

    /// The bytes.
    pub fn bytes(&self) -> &[u8]
        ensures { result.now ≡ self.now }
    {
        &self.bytes[..self.length as usize]
    }
}

impl fmt::Debug for Front {
    fn fmt<W: fmt::Write>(&self, f: &mut fmt::Formatter<W>) -> fmt::Result {
        self.bytes().fmt(f)
    }
}

/// What is wrong with a line of an item file.
#[derive(Clone, Copy, Debug, PartialEq, Eq)]
pub enum LineFlaw {
    /// It has characters that are no hex digits, in hex.
    NotHex,
    /// It has an odd number of hex digits, in hex.
    OddDigits,
    /// What follows its `0x` spells no item.
    NoItem,
    /// It spells more bytes than an item has, which are 64.
    TooLong,
    /// It is the first one, and the file begins with a byte order mark.
    ByteOrderMark,
}

/// A bad line of an item file.
#[derive(Clone, Copy, Debug)]
pub struct BadLine {
    /// Its number, from 1.
    pub number: usize,
    /// What it begins with, without a carriage return at its end.
    pub front: Front,
    /// What is wrong with it.
    pub flaw: LineFlaw,
}
