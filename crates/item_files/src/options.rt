use crate::form::ItemForm;

/// How a set is loaded.
#[derive(Clone, Copy, Debug, PartialEq, Eq)]
pub struct LoadOptions {
    /// How the items stand in the text.
    pub form: ItemForm,
    /// The set is cut into 2 to this power shards.
    pub bits: u8,
    /// The number of the first shard that is loaded.
    pub first: u16,
    /// The number of the last one.
    pub last: u16,
    /// The most items that a shard may have.
    pub cap: usize,
}
