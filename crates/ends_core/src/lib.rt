//! The two ends of a session.
#![tactic(auto)]

mod answering;
mod bounds;
mod cutting;
mod draft;
mod end;
mod learned;
mod learning;
mod listing;
mod reply;
mod replying;
mod role;
mod session_end;
mod side;
mod size;
mod stage;
mod taking;
mod turn;

pub use answering::{AnswerFault, answer};
pub use bounds::sides_keep_bounds;
pub use learned::Learned;
pub use listing::{ListReplyFault, list_reply};
pub use role::{Initiating, Responding, Role};
pub use session_end::{Initiator, Responder, SessionEnd};
pub use side::Side;
pub use size::{known_size, messages_size, open_size};
pub use turn::{EndFault, Turn};
