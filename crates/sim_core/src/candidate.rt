//! A table that is tried: its numbers, and the text of a strategy that they make.

use std::alloc::{AllocError, Global};

/// How many weights stand on a line of a text.
const WEIGHTS_A_LINE: usize = 16;

/// A row that cuts.
#[derive(Clone, Drop)]
pub(crate) struct Cut {
    /// Up to how many items it serves.
    pub upto: u32,
    /// The proportions of the parts.
    pub weights: Vec<u32>,
}

/// A table that lists ranges of few items, and cuts others. It need not be one that is accepted.
#[derive(Clone, Drop)]
pub(crate) struct Candidate {
    /// Whether the bounds between its parts are short.
    pub is_short: bool,
    /// The most items that it serves.
    pub cap: u32,
    /// Up to how many items are listed.
    pub limit: u32,
    /// The rows above that, by rising `upto`.
    pub cuts: Vec<Cut>,
}

/// Appends weights, some on each line.
fn push_weights(text: &mut String, weights: &[u32]) -> Result<(), AllocError> {
    for (place, weight) in weights.iter().enumerate() {
        let before = if place == 0 {
            ""
        } else if place % WEIGHTS_A_LINE == 0 {
            ",\n    "
        } else {
            ", "
        };
        write!(text, "{before}{weight}")?;
    }
    Ok(())
}

/// Appends a row that cuts.
fn push_cut(text: &mut String, cut: &Cut) -> Result<(), AllocError> {
    let upto = cut.upto;
    write!(text, "\n[[row]]\nupto = {upto}\nsplit = [")?;
    push_weights(text, &cut.weights)?;
    text.push_str("]\n")
}

impl Candidate {
    /// Its text, with this as the greatest rank that is accepted.
    pub fn text(&self, alloc: Global, rounds: u32) -> Result<String, AllocError> {
        let (cap, limit) = (self.cap, self.limit);
        let bounds = if self.is_short { "short" } else { "items" };
        let mut text = String::new(alloc);
        write!(
            text,
            "bounds = \"{bounds}\"\ncap = {cap}\nlimit = {limit}\nrounds = {rounds}\n"
        )?;
        write!(text, "\n[[row]]\nupto = {limit}\nlist = true\n")?;
        for cut in &self.cuts {
            push_cut(&mut text, cut)?;
        }
        Ok(text)
    }
}
