//! A session of this side, bytes in and bytes out: no reader, no writer and no thread.
#![tactic(auto)]

mod fault;
mod meeting;
mod outbox;
mod polled;
mod pumped;
mod pumping;
mod session;
mod state;
mod talk;

pub use fault::LinkFault;
pub use meeting::two_sessions_meet;
pub use polled::{Last, Polled};
pub use pumped::{Pause, Pumped, both, pause_of};
pub use pumping::pump;
pub use session::Session;
pub use state::State;
