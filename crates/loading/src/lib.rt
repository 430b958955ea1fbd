//! What both sides of sessions begin with: the set that a command speaks of, as it is loaded, and the files that are
//! opened with it. And the count of what goes over a connection.
#![tactic(auto)]

mod beside;
mod clock;
mod disk;
mod forgetting;
mod framing;
mod loading;
mod loading_shards;
mod logs;
mod metering;
mod replacing;
mod rewriting;
mod sharded_set;
mod showing;
mod target;

pub use beside::DiskFolder;
pub use clock::{millis_of, millis_since, now};
pub use disk::{Disk, ItemFile, Kept, Opened, open_lines, unopened};
pub use forgetting::{floor_at, higher, seconds_now};
pub use framing::{FrameReader, FrameWriter, frames_from, frames_to, received_by, sent_by};
pub use loading::{Loaded, Sources, TableSource, items_of, load, strategy_of};
pub use loading_shards::load_shards;
pub use metering::Metered;
pub use replacing::{Folder, ReplaceFault, replace};
pub use rewriting::{Rewriting, lines_text, rewrite};
pub use sharded_set::ShardedSet;
pub use target::Target;
