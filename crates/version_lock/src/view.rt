use std::collections::LinkedList;
use version_log::Entry;

/// What a seat knows. No value of it is made: it exists in proofs alone, where a number has no bound.
pub struct View {
    /// The seat was joined to another, and all else counts no more.
    pub spent: bool,
    /// The writer number, or none where the seat is not enrolled.
    pub writer: Option<u64>,
    /// The history that the seat saw last.
    pub seen: LinkedList<Entry>,
    /// What each seat that was joined to it had seen.
    pub joined: LinkedList<LinkedList<Entry>>,
    /// The entries that it added as this writer.
    pub mine: LinkedList<Entry>,
    /// Whether it has the log now.
    pub holding: bool,
    /// The history that it found when it last took the log.
    pub base: LinkedList<Entry>,
    /// The next writer number that it found there.
    pub next_writer: u64,
    /// The greatest number of items.
    pub cap: u64,
    /// The history that the lock was made with.
    pub opened: LinkedList<Entry>,
    /// The next writer number that the lock was made with.
    pub first_number: u64,
    /// The entries that it added, whatever its writer was, and then those of each seat that was joined to it.
    pub entered: LinkedList<Entry>,
    /// How many writer numbers were given to it and to the seats that were joined to it.
    pub numbers: u64,
    /// How many parts of the whole share it has. A note has none.
    pub parts: u64,
    /// How often the whole share was halved to make one such part.
    pub halvings: u64,
    /// How often it took the log.
    pub took: u64,
    /// How often it found the word HELD.
    pub busy: u64,
}
