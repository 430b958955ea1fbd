//! Sets of any size: shards by the digests of items, the directory of a set, and parts that add up.
#![tactic(auto)]

mod after_selector;
mod choice;
mod dealing;
mod directory;
mod entry;
mod fault;
mod floor;
mod joining;
mod numbering;
mod part;
mod selector;
mod set_name;
mod shard;
pub mod shard_laws;
mod shard_sum;
mod span;
mod unequal;

pub use after_selector::AfterSelector;
pub use choice::{Asked, ChoiceFault, asked_of};
pub use dealing::{none_dealt, split};
pub use directory::{differing, directory_from, directory_of};
pub use entry::{BadEntry, entry_of, read_entry};
pub use fault::{DirectoryFault, SplitFault};
pub use floor::{Floor, TimeForm, lacks_a_quarter};
pub use joining::{join_shards, shards_within};
pub use numbering::{rising_lists, shards_of};
pub use part::{Merged, ShardPart, merge};
pub use selector::{MAX_NAME, Selecting, Which, push_selector, read_selector, says_part};
pub use set_name::SetName;
pub use shard::{MAX_BITS, OneShard, shard_count, shard_of};
pub use shard_sum::{MAX_COUNT, ShardSum};
pub use span::{ShardSpan, deal_span, into_span};
pub use unequal::Unequal;
