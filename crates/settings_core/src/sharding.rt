//! Which shards a call speaks of.

ghost use Rattle.std.specs.Prelude.{◌≤◌, ◌<◌, ◌^◌};

/// Which shards a call speaks of: those from `first` to `last`, of 2 to the power of `bits`.
#[derive(Clone, Copy, Debug, PartialEq, Eq)]
pub struct Sharding {
    /// The number of bits.
    pub bits: u8,
    /// The number of the first shard.
    pub first: u16,
    /// The number of the last shard.
    pub last: u16,
    ghost few: { bits ≤ 12 },
    ghost rising: { first ≤ last },
    ghost within: { last < 2 ^ bits },
}
