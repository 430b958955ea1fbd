//! How much of a connection is read.

ghost use Rattle.std.specs.Prelude.{◌≡◌, option_map, take};
ghost use Rattle.std.specs.Io.Take.{take_remaining};

use std::io::{Read, Take};

/// What a connection may cost.
#[derive(Clone, Copy, Debug, PartialEq, Eq)]
pub struct Limits {
    /// How many seconds the connect, a read or a write may take.
    pub patience: u32,
    /// How many bytes are read.
    pub most_bytes: u32,
}

/// The reader, whose input ends after this many bytes.
pub fn limited<R: Read>(reader: R, most_bytes: u32) -> Take<R>
    ensures { take_remaining R.remaining result ≡ option_map (take most_bytes) (R.remaining reader) }
{
    reader.take(u64::from(most_bytes))
}
