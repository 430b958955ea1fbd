//! What workers did.

use crate::source::SourceFault;

/// What workers did.
#[derive(Clone, Copy, Debug, PartialEq, Eq)]
pub struct WorkersReport {
    /// How many workers got a writer number. One that got none took no connection.
    pub started: u8,
    /// The source's first fault, if it had one.
    pub fault: Option<SourceFault>,
}
