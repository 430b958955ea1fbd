//! Small changes of a table at random.

ghost use Rattle.std.specs.Prelude.{◌≤◌, ◌<◌};

use crate::candidate::{Candidate, Cut};
use rand_core::Rng;
use rand_xoshiro::SplitMix64;
use std::alloc::{AllocError, Global};

/// The greatest number of a table.
const MAX_NUMBER: u64 = 65_536;

/// The most weights of a row.
const MAX_WEIGHTS: usize = 64;

/// Of so many numbers one at random.
fn below(random: &mut SplitMix64, count: u32) -> u32
    requires { 1 ≤ count }
    ensures { result < count }
{
    (random.next_u64() % u64::from(count)) as u32
}

/// Of so many places one at random.
fn place_below(random: &mut SplitMix64, count: usize) -> usize
    requires { 1 ≤ count }
    ensures { result < count }
{
    (random.next_u64() % count as u64) as usize
}

/// Another number near this one, 1 to 65,536.
fn near(random: &mut SplitMix64, number: u32) -> u32
    ensures { 1 ≤ result }
{
    let number = u64::from(number);
    let scaled = number * u64::from(768 + below(random, 600)) / 1_024;
    let moved = (scaled + u64::from(below(random, 3))).saturating_sub(1);
    let other = if moved == number { moved + 1 } else { moved };
    other.clamp(1, MAX_NUMBER) as u32
}

/// A number between two, as far above the one as below the other by their ratio.
fn between(low: u32, high: u32) -> u32 {
    (u64::from(low) * u64::from(high)).isqrt() as u32
}

/// So many weights: the first ones are left out, or the first is taken more than once.
fn resized(alloc: Global, weights: &[u32], count: usize) -> Result<Vec<u32>, AllocError> {
    let mut resized = Vec::new(alloc);
    for place in 0..count {
        let from = place.saturating_add(weights.len()).saturating_sub(count);
        resized.push(weights.get(from).copied().unwrap_or(1))?;
    }
    Ok(resized)
}

/// So many equal weights.
fn even(alloc: Global, count: usize) -> Result<Vec<u32>, AllocError> {
    resized(alloc, &[1], count)
}

/// Another number of weights near this one.
fn near_count(random: &mut SplitMix64, count: usize) -> usize {
    let count = near(random, count.min(MAX_WEIGHTS) as u32) as usize;
    count.clamp(2, MAX_WEIGHTS)
}

impl Candidate {
    /// Changes up to how many items a row serves, but the last one's.
    fn change_upto(&mut self, random: &mut SplitMix64) {
        if self.cuts.len() < 2 {
            return;
        }
        let place = place_below(random, self.cuts.len() - 1);
        let upto = near(random, self.cuts[place].upto);
        self.cuts[place].upto = upto;
    }

    /// Changes into how many parts a row cuts.
    fn change_parts(&mut self, alloc: Global, random: &mut SplitMix64) -> Result<(), AllocError> {
        if self.cuts.is_empty() {
            return Ok(());
        }
        let place = place_below(random, self.cuts.len());
        let count = near_count(random, self.cuts[place].weights.len());
        let weights = resized(alloc, &self.cuts[place].weights, count)?;
        self.cuts[place].weights = weights;
        Ok(())
    }

    /// Leaves out a row, but the last one.
    fn drop_cut(&mut self, random: &mut SplitMix64) {
        if self.cuts.len() < 2 {
            return;
        }
        let place = place_below(random, self.cuts.len() - 1);
        let _cut = self.cuts.remove(place);
    }

    /// Cuts what was all listed.
    fn cut_list(&mut self, alloc: Global, random: &mut SplitMix64) -> Result<(), AllocError> {
        self.limit = between(1, self.cap);
        self.cuts.push(Cut {
            upto: self.cap,
            weights: even(alloc, near_count(random, MAX_WEIGHTS / 2))?,
        })?;
        Ok(())
    }

    /// Puts in a row before another one.
    fn add_cut(&mut self, alloc: Global, random: &mut SplitMix64) -> Result<(), AllocError> {
        if self.cuts.is_empty() {
            return self.cut_list(alloc, random);
        }
        let place = place_below(random, self.cuts.len());
        let low = if place == 0 {
            self.limit
        } else {
            self.cuts[place - 1].upto
        };
        let upto = between(low, self.cuts[place].upto);
        let count = near_count(random, self.cuts[place].weights.len());
        let weights = even(alloc, count)?;
        self.cuts.insert(place, Cut { upto, weights })?;
        Ok(())
    }

    /// Changes one number, or has a row more or less.
    fn change(&mut self, alloc: Global, random: &mut SplitMix64) -> Result<(), AllocError> {
        match below(random, 11) {
            0..=2 => self.limit = near(random, self.limit),
            3 | 4 => self.change_upto(random),
            5..=7 => self.change_parts(alloc, random)?,
            8 => self.drop_cut(random),
            9 => self.add_cut(alloc, random)?,
            _ => self.is_short = !self.is_short,
        }
        Ok(())
    }

    /// A copy with one to three changes.
    pub fn changed(&self, alloc: Global, random: &mut SplitMix64) -> Result<Candidate, AllocError> {
        let mut candidate = self.clone()?;
        for _ in 0..=below(random, 3) {
            candidate.change(alloc, random)?;
        }
        Ok(candidate)
    }
}
