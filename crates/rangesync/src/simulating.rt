//! The command `sim`.

use io_core::{Watched, read_input, write_output};
use printing_core::{Refusal, STANDARD_INPUT};
use sim_core::{ScenarioError, scenario_of, sim_text};
use std::alloc::Global;
use std::io::{Read, Write};

/// What is shown of the sessions of the scenario that a text is.
fn simulated(alloc: Global, text: &[u8]) -> Result<String, ScenarioError> {
    sim_text(alloc, scenario_of(alloc, text)?)
}

/// Runs the scenario of the input, and prints what is shown of its sessions.
pub fn sim<I: Read + Drop, O: Write + Drop>(
    alloc: Global,
    reader: I,
    out: O,
) -> Result<(), Refusal<'static>> {
    let input = match read_input(alloc, &mut Watched::new(reader)) {
        Ok(input) => input,
        Err(fault) => return Err(Refusal::of_input(STANDARD_INPUT, fault)),
    };
    match simulated(alloc, &input) {
        Ok(text) => write_output(&mut Watched::new(out), text.as_bytes())?,
        Err(error) => return Err(Refusal::of_scenario(STANDARD_INPUT, error)),
    }
    Ok(())
}
