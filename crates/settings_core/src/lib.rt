//! The words of a call. The names of item files and strategy files are passed on.
#![tactic(auto)]

mod addresses;
mod arguments;
mod commands;
mod door_words;
mod floor_words;
mod given_words;
mod known_words;
mod node_words;
mod part_words;
mod profiles;
mod retries;
mod session_words;
mod shard_sizes;
mod shard_words;
mod sharding;
mod spans;
mod stdio_words;
mod words;

pub use addresses::{
    Address, CONTROL_PORT, DEFAULT_ADDRESS, DEFAULT_PORT, METRICS_PORT, WEBSOCKET_PORT, address_of,
    whole_address,
};
pub use commands::{
    AnswerWords, Call, CheckWords, Command, NewsWords, PlanWords, PutWords, ServeWords,
    StatusWords, StopWords, SyncWords,
};
pub use floor_words::{FloorFlaw, FloorRule, FloorWords, Newest, floor_rule_of};
pub use item_files::{
    ItemForm, SettingsFault, WireProfile, has_byte_order_mark, item_of, item_set, read_input_items,
    read_items, read_strategy,
};
pub use known_words::VERSION;
pub use node_words::{NO_ADDRESS, NodeFlaw, NodeWords, node_flaw};
pub use part_words::{PartFlaw, PartWords, part_of};
pub use profiles::AskedProfile;
pub use retries::pause_before;
pub use shard_sizes::shard_bits_for;
pub use shard_words::{ShardFlaw, ShardWords, sharding_of};
pub use sharding::Sharding;
pub use stdio_words::{StdioFlaw, StdioWords, stdio_flaw};
pub use words::{WordsFault, read_words};
