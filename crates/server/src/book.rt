//! A file of lines that a server writes to, and what standard error is told of it.

ghost use Rattle.std.specs.Prelude.{◌≡◌, ◌<◌, ◌++◌, ℕ, List, [], true, IfOk, IfErr, IsErr, OnOk, OnErr, string_bytes};
ghost use Rattle.io_core.specs.Devices.{Holds};
ghost use Rattle.io_core.specs.Keeping.{IsKept};
ghost use Rattle.printing_core.specs.ItemTexts.{item_line};
ghost use Rattle.loading.specs.Rewriting.{lines_of};
ghost use Rattle.server.specs.Keeping.{IsPut, IsStored};

use crate::following::Followed;
use io_core::{Device, LineFile, Unwritten, torn_length};
use item_core::Item;
use item_files::ItemForm;
use loading::Rewriting;
use printing_core::{
    Cause, learned_line, tell_left_out, tell_left_waiting, tell_unwritten, tell_unwritten_cause,
    tell_written_again,
};
use std::alloc::{AllocError, Global};
use std::io::Write;

/// How many bytes may wait to be written. What is told beyond them is left out.
const MOST_WAITING: usize = 16_777_216;

/// After so many failures in a row a new text only waits, until `write` is called.
const MOST_FAILURES: u8 = 2;

/// How many bytes are told before they are written, where more are to be told at once.
pub(crate) const BATCH: usize = 65_536;

/// What is written to a file of lines.
#[derive(Clone, Copy, Debug, PartialEq, Eq)]
pub enum Kind {
    /// What each session found.
    Report,
    /// What the log took from peers.
    Learned,
    /// The same, after all that the set had.
    Keep,
}

impl Kind {
    /// The option that the file is given by, without its dashes.
    fn option(self) -> &'static str {
        match self {
            Kind::Report => "report",
            Kind::Learned => "learned",
            Kind::Keep => "keep",
        }
    }
}

/// What a file of lines is called on standard error.
#[derive(Clone, Copy, Debug, PartialEq, Eq)]
pub struct Name<'a> {
    /// What is written to it.
    pub kind: Kind,
    /// Its path.
    pub path: &'a str,
}

/// A file of lines. What cannot be written waits, in order.
#[derive(Drop)]
pub struct Book<'a, D> {
    pub(crate) name: Name<'a>,
    pub(crate) lines: LineFile<D>,
    /// How many writes failed since one went well. It stops at the greatest number.
    failures: u8,
    /// How many writes failed in all. It stops at the greatest number.
    failed: u64,
    /// How many texts were given up. It stops at the greatest number.
    left_out: usize,
    /// Whether a sync failed: what was written before it may be lost though a later one goes well.
    is_doubtful: bool,
    /// What is known of other files at its path.
    pub(crate) followed: Followed,
    /// When it is looked at again for what the set has forgotten.
    pub(crate) rewriting: Rewriting,
}

/// Items whose lines are to be in a file.
#[derive(Clone, Copy)]
pub struct Wanted<'i> {
    /// The form of the lines.
    pub form: ItemForm,
    /// The items, a line each.
    pub items: &'i Vec<Item>,
    /// Whether the lines are to outlive a loss of power.
    pub is_durable: bool,
}

/// Why lines wait.
fn cause_of(unwritten: Unwritten) -> Cause {
    match unwritten {
        Unwritten::Short => Cause::Short,
        Unwritten::Failed(kind) => Cause::from(kind),
    }
}

impl<'a, D: Device> Book<'a, D> {
    /// Writes to these lines from now on.
    pub fn new(alloc: Global, name: Name<'a>, lines: LineFile<D>) -> Book<'a, D> {
        Book {
            name,
            lines,
            failures: 0,
            failed: 0,
            left_out: 0,
            is_doubtful: false,
            followed: Followed::new(alloc),
            rewriting: Rewriting::new(),
        }
    }

    /// Whether lines that are written may be lost.
    pub fn is_doubtful(&self) -> bool {
        self.is_doubtful
    }

    /// How many lines wait to be written.
    pub fn waiting_lines(&self) -> usize {
        self.lines.waiting_lines()
    }

    /// How many writes failed.
    pub fn failed(&self) -> u64 {
        self.failed
    }

    /// Whether all that was told is written.
    pub(crate) fn is_written(&self) -> bool {
        self.failures == 0 && self.lines.waiting().is_empty()
    }

    /// Puts a text of whole lines after those that wait; it is left out if too many wait, or where memory runs out.
    pub(crate) fn tell(&mut self, text: &Result<String, AllocError>) -> Result<(), AllocError>
        ensures told { OnOk result (IfOk text.now (λ t. (base told : List ℕ) → IsKept D.held base told self.old.lines
            → IsKept D.held base (told ++ string_bytes t) self.new.lines)) }
        ensures read { IfErr text.now (λ _. IsErr result) }
        ensures same { OnErr result (self.new.lines ≡ self.old.lines) }
        ensures others { self.new ≡ record self.old { lines = self.new.lines } }
    {
        let Ok(text) = text else {
            return Err(AllocError);
        };
        let bytes = text.as_bytes();
        let room = MOST_WAITING.saturating_sub(self.lines.waiting().len());
        if bytes.len() > room || torn_length(bytes) > 0 {
            return Err(AllocError);
        }
        self.lines.tell(bytes)
    }

    /// Puts lines that waited for another file after those that wait.
    pub(crate) fn take_over(&mut self, lines: &[u8]) {
        if torn_length(lines) > 0 || self.lines.tell(lines).is_err() {
            self.left_out = self.left_out.saturating_add(1);
        }
    }

    /// Puts an empty line after those that wait. It ends a last line without a line feed of a file that stands before
    /// this one, as in `cat`.
    pub fn begin_blank(&mut self) {
        if self.lines.tell(b"\n").is_err() {
            self.left_out = self.left_out.saturating_add(1);
        }
    }

    /// Puts a text of whole lines after those that wait, or counts it as left out.
    fn tell_or_count(&mut self, text: &Result<String, AllocError>)
        ensures told { (base told : List ℕ) → IsKept D.held base told self.old.lines →
            IsPut D.held base told text.now self.old.left_out self.new.left_out self.new.lines }
        ensures failures { self.new.failures ≡ self.old.failures }
    {
        if self.tell(text).is_err() {
            self.left_out = self.left_out.saturating_add(1);
        }
    }

    /// Puts a text of whole lines after those that wait, and writes them all. Where that failed before, it is tried
    /// once more, and after that only by `write`.
    pub fn put<E: Write>(&mut self, err: &mut E, text: &Result<String, AllocError>)
        ensures told { (base told : List ℕ) → IsKept D.held base told self.old.lines →
            IsPut D.held base told text.now self.old.left_out self.new.left_out self.new.lines }
        ensures written { self.old.failures < 2 → self.new.failures ≡ 0 → self.new.lines.waiting ≡ [] }
    {
        self.tell_or_count(text);
        if self.failures < MOST_FAILURES {
            let _written = self.write(err);
        }
    }

    /// Writes what waits. Standard error is told once when that begins to fail, and once when it goes on. Whether
    /// nothing waits any more.
    pub fn write<E: Write>(&mut self, err: &mut E) -> bool
        ensures kept { (base told : List ℕ) → IsKept D.held base told self.old.lines
            → IsKept D.held base told self.new.lines }
        ensures whole { result ≡ true → (base told : List ℕ) → IsKept D.held base told self.old.lines
            → Holds (D.held self.new.lines.device) (base ++ told) }
        ensures done { self.new.failures ≡ 0 → self.new.lines.waiting ≡ [] }
        ensures counted { self.new.left_out ≡ self.old.left_out }
    {
        let waiting = self.lines.waiting_lines();
        match self.lines.write() {
            Ok(()) => {
                if self.failures > 0 {
                    self.failures = 0;
                    tell_written_again(err, self.name.kind.option(), waiting);
                }
                true
            }
            Err(unwritten) => {
                // Where that fails too, it is done before the next write.
                let _cut = self.lines.heal();
                self.fail(err, cause_of(unwritten));
                false
            }
        }
    }

    /// Counts a failure, and tells why lines wait if it is the first in a row.
    fn fail<E: Write>(&mut self, err: &mut E, cause: Cause)
        ensures same { self.new.lines ≡ self.old.lines }
        ensures fails { 0 < self.new.failures }
        ensures counted { self.new.left_out ≡ self.old.left_out }
    {
        if self.failures == 0 {
            let lines = self.lines.waiting_lines();
            tell_unwritten(err, self.name.kind.option());
            tell_unwritten_cause(err, self.name.path, cause, lines);
        }
        self.failures = self.failures.saturating_add(1);
        self.failed = self.failed.saturating_add(1);
    }

    /// Sees that what was written outlives a loss of power. Whether it does.
    pub fn sync<E: Write>(&mut self, err: &mut E) -> bool
        ensures kept { (base told : List ℕ) → IsKept D.held base told self.old.lines
            → IsKept D.held base told self.new.lines }
        ensures bytes { D.held self.new.lines.device ≡ D.held self.old.lines.device }
        ensures saved { result ≡ true → D.saved self.new.lines.device ≡ D.held self.new.lines.device }
    {
        match self.lines.sync() {
            Ok(()) => true,
            Err(error) => {
                self.is_doubtful = true;
                self.fail(err, Cause::from(error.kind()));
                false
            }
        }
    }

    /// Tells the line of an item, and writes all that waits if that is much. Whether the line is told.
    fn put_one<E: Write>(&mut self, alloc: Global, form: ItemForm, item: &Item, err: &mut E) -> bool
        ensures told { result ≡ true → (base told : List ℕ) → IsKept D.held base told self.old.lines
            → IsKept D.held base (told ++ item_line form item.now) self.new.lines }
    {
        if self.tell(&learned_line(alloc, form, item)).is_err() {
            self.left_out = self.left_out.saturating_add(1);
            return false;
        }
        if self.lines.waiting().len() >= BATCH && self.failures < MOST_FAILURES {
            let _written = self.write(err);
        }
        true
    }

    /// Tells the lines of these items. Whether all are told.
    fn put_each<E: Write>(&mut self, alloc: Global, wanted: Wanted<'_>, err: &mut E) -> bool
        ensures told { result ≡ true → (base told : List ℕ) → IsKept D.held base told self.old.lines
            → IsKept D.held base (told ++ lines_of wanted.entry.form wanted.entry.items.now.items) self.new.lines }
    {
        let mut are_told = true;
        for item in wanted.items {
            are_told &= self.put_one(alloc, wanted.form, item, err);
        }
        are_told
    }

    /// Tells the lines of these items, and sees that all that was told is written, and outlives a loss of power if that
    /// is wanted. Whether that is so.
    pub fn keep<E: Write>(&mut self, alloc: Global, wanted: Wanted<'_>, err: &mut E) -> bool
        ensures stored { result ≡ true → IsStored D.held D.saved wanted.entry.is_durable
            (lines_of wanted.entry.form wanted.entry.items.now.items) self.old.lines self.new.lines }
    {
        let are_told = self.put_each(alloc, wanted, err);
        let is_written = self.write(err);
        if !are_told || !is_written {
            return false;
        }
        if wanted.is_durable {
            return self.sync(err);
        }
        true
    }

    /// Writes what waits for the last time, and tells what is lost, if anything is. Whether nothing is.
    pub fn close<E: Write>(mut self, err: &mut E) -> bool
    where
        D: Drop,
    {
        let _written = self.write(err);
        let waiting = self.lines.waiting_lines();
        tell_left_waiting(err, self.name.kind.option(), waiting);
        tell_left_out(err, self.name.kind.option(), self.left_out);
        waiting == 0 && self.left_out == 0
    }
}
