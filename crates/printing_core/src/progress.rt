//! How far a call is, and how far a set is loaded, on one line of a terminal; and that a call tries again.

use std::io::Write;

/// Prints over the line how many shards are done, of how many that differ, and how many items were found. What is not
/// taken changes nothing.
pub fn tell_progress<E: Write>(err: &mut E, done: usize, of: usize, items: usize) {
    let _told = write!(err, "\rshards {done} of {of} items {items}");
}

/// Clears the line. What is not taken changes nothing.
pub fn end_progress<E: Write>(err: &mut E) {
    let _told = write!(err, "\r\x1b[K");
}

/// Prints that a session is tried again in so many seconds. A line that is not taken changes nothing.
pub fn tell_again<E: Write>(err: &mut E, seconds: u32) {
    let _told = write!(err, "trying again in {seconds} s\n");
}

/// Prints over the line how many percent of a file were read, and how many seconds the rest takes at the same speed.
/// What is not taken changes nothing.
pub fn tell_file_read<E: Write>(err: &mut E, percent: u64, seconds: u64) {
    let _told = write!(err, "\r\x1b[Kread {percent} % {seconds} s left");
}

/// Prints over the line how many MiB of an input were read. What is not taken changes nothing.
pub fn tell_input_read<E: Write>(err: &mut E, mib: u64) {
    let _told = write!(err, "\r\x1b[Kread {mib} MiB");
}

/// Prints over the line that so many items are hashed. What is not taken changes nothing.
pub fn tell_hashing<E: Write>(err: &mut E, items: usize) {
    let _told = write!(err, "\r\x1b[Khashing {items} items");
}
