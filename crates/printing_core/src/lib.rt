//! What the program says: why a run is refused, and the text of what it prints.
//!
//! `answer`, `check`, `serve`, `serve_files`, `sync_shards` and `sync_stats` are of these commands (`check` of `plan`
//! too), `sessions` of `serve` and `sync`, the others of all.
#![tactic(auto)]

mod answer;
mod check;
mod fault;
mod item_text;
mod progress;
mod reasons;
mod refusal;
mod serve;
mod serve_files;
mod sessions;
mod shown;
mod sync_shards;
mod sync_stats;
mod wants;
mod warning;
mod why;
mod words;

pub use answer::{decode_text, encode_lines};
pub use check::{accepted_text, push_cost, push_plan, push_sample, push_shards};
pub use fault::{Fault, tell};
pub use item_text::{push_item, text_is_read_again};
pub use progress::{
    end_progress, tell_again, tell_file_read, tell_hashing, tell_input_read, tell_progress,
};
pub use refusal::{Refusal, STANDARD_INPUT};
pub use serve::{
    Cause, tell_address, tell_dropped, tell_full, tell_in_memory, tell_left_out, tell_left_waiting,
    tell_no_time, tell_not_followed, tell_partner_away, tell_partner_back, tell_partner_refused,
    tell_replaced, tell_torn, tell_unwritten, tell_unwritten_cause, tell_written_again,
};
pub use serve_files::{Reporting, SessionName, learned_line, left_out_line, report_text};
pub use sessions::{
    Listing, difference_status, finds_any, learned_in, listening_line, outcome_text, refusal_of,
    refusal_of_session, served_text,
};
pub use shown::shown_line;
pub use sync_shards::{MergedCounts, merged_text, tell_undone, undone_text};
pub use sync_stats::{Stats, Tally, tell_stats};
pub use warning::tell_stray_key;
pub use why::{Origin, OtherSide, Why, tell_why};
pub use words::{
    tell_floor_flaw, tell_name_flaw, tell_no_control, tell_no_text, tell_node_flaw, tell_part_flaw,
    tell_shard_flaw, tell_stdio_flaw, tell_words,
};
