/// A shard whose entries in two directories differ.
#[derive(Clone, Copy, Debug, PartialEq, Eq)]
pub struct Unequal {
    /// The shard's number.
    pub number: u16,
    /// How many items our entry says, if we have one.
    pub ours: Option<u32>,
    /// How many items the peer's entry says, if it has one.
    pub theirs: Option<u32>,
}
