//! Readers and writers: what failed or ended, an input to its end, and an output whole.
#![tactic(auto)]

mod device;
mod file;
mod input;
mod line_laws;
mod output;
mod read_fault;
mod torn;
mod watched;

pub use device::Device;
pub use file::{LineFile, Unwritten};
pub use input::{InputFault, MAX_INPUT, read_input};
pub use line_laws::{beginnings_are_whole, openings_are_whole};
pub use output::{WriterFailed, write_output};
pub use read_fault::ReadFault;
pub use torn::torn_length;
pub use watched::Watched;
