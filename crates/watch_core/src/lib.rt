//! How a server is watched: what is counted of the visits of peers, what is shown of them, and what is answered to
//! those who ask for it by HTTP.
#![tactic(auto)]

mod counts;
mod durations;
mod endings;
mod escaping;
mod filling;
mod logged;
mod metrics;
mod named;
mod never_markup;
mod once_each;
mod page;
mod partner_metrics;
mod partnered;
mod pieces;
mod profile;
mod standing;
mod status;
mod turn;
mod visit;
mod watch;

pub use counts::Counts;
pub use durations::{Bucket, Durations};
pub use endings::{Ending, EndingCounts};
pub use logged::{
    control_line, left_out_line, loaded_line, loading_line, log_line, lost_line, metrics_line,
};
pub use metrics::metrics_text;
pub use never_markup::texts_are_never_markup;
pub use once_each::visits_count_once;
pub use page::page_text;
pub use partnered::{Partnered, behind_of};
pub use profile::SpokenProfile;
pub use standing::Standing;
pub use status::{Status, partner_lines, status_json, status_lines};
pub use turn::Turn;
pub use visit::{Traffic, Visit};
pub use watch::{MOST_SESSIONS, MOST_VISITS, Watch};
