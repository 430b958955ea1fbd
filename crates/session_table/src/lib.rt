//! The table of live sessions: serials, bounds on messages sent, and totals.
#![tactic(auto)]

mod fault;
mod names;
mod outcome;
mod report;
mod session;
mod source;
mod table;
mod totals;

pub use fault::TableFault;
pub use names::{refusal_name, session_refusal_name};
pub use outcome::{Direction, Outcome};
pub use report::WorkersReport;
pub use session::SessionId;
pub use source::{Source, SourceFault};
pub use table::SessionTable;
pub use totals::{CloseKind, Totals};
