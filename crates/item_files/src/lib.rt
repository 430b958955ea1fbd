//! Item files and strategy files: what they hold, and why and where one is refused.
#![tactic(auto)]

mod bad_line;
mod dealing;
mod fault;
mod file;
mod form;
mod item_file;
mod load_fault;
mod options;
mod piece;
mod profile;
mod reading;
mod strategy_file;
mod stray_keys;

pub use bad_line::{BadLine, Front, LineFlaw};
pub use fault::SettingsFault;
pub use form::ItemForm;
pub use io_core::ReadFault;
pub use item_file::{
    has_byte_order_mark, item_of, item_set, read_input_items, read_items, spelled,
};
pub use load_fault::LoadFault;
pub use options::LoadOptions;
pub use profile::WireProfile;
pub use reading::{read_shards, read_shards_by};
pub use strategy_file::{accepted_in, accepted_of, document, read_document, read_strategy};
pub use stray_keys::{StrayKey, meant_key, stray_key};
