//! What no clause says of the libraries, and no worked case and no table of words shows.
//!
//! | File | Tests |
//! |---|---|
//! | `calls` | one run through each call that takes memory and that the program does not make |
//! | `trees` | trees that grow by one item at a time, that threads load, and parts of one |
//! | `floods` | the longest reply, and one that would be longer |
//! | `streams` | what a stream answers is passed on, and noted |
//! | `line_files` | which calls of a device are made, and which failure is told |
//! | `engines` | `serve_one` and `dial_one` over memory, by readers and writers that fail, each call in turn |
//! | `workers` | `run_workers`: what is inserted, what is dropped, the source's fault, two sessions at a time |
//! | `locks` | two threads at one log |
//! | `support/` | what the tests share: readers, writers and a gate, frames, strategies |
#![tactic(auto)]

#[cfg(test)]
mod calls;
#[cfg(test)]
mod engines;
#[cfg(test)]
mod floods;
#[cfg(test)]
mod line_files;
#[cfg(test)]
mod locks;
#[cfg(test)]
mod streams;
#[cfg(test)]
mod support;
#[cfg(test)]
mod trees;
#[cfg(test)]
mod workers;
