//! What one thread at a time writes of sessions and of items.

ghost use Rattle.std.specs.Prelude.{◌≡◌, IfSome, option_map};
ghost use Rattle.loading.specs.Rewriting.{lines_of};
ghost use Rattle.server.specs.Keeping.{IsStoredIn};

use crate::book::{Book, Wanted};
use crate::books::Books;
use crate::following::When;
use http_core::Arrivals;
use io_core::Device;
use item_core::Item;
use item_files::ItemForm;
use loading::Disk;
use printing_core::{Fault, learned_line, tell_full};
use shard_core::Floor;
use std::alloc::{AllocError, Global};
use std::fs::File;
use std::io::Write;
use std::marker::Model;
use std::rt::Files;
use std::snapshot::Snapshot;
use version_log::LogFault;

/// Says that the lines of some items were told to the file that keeps the set, and that all of it was written, and
/// saved if that was wanted; or that no file keeps the set. `Ledger::keep` alone makes one.
/// Contracts see the items.
#[derive(Drop)]
pub struct Kept {
    items: Snapshot<Vec<Item>>,
}

impl Model for Kept {
    ghost use Rattle.std.specs.Prelude.{List};
    ghost use Rattle.definitions.specs.Items.{Item as Bytes};

    ghost Value = { List Bytes };

    ghost view = { λ kept. kept.items.value.items };
}

/// What one thread at a time writes.
#[derive(Drop)]
pub struct Ledger<'a, D, E> {
    pub books: Books<'a, D>,
    /// What the set took last, if that is kept.
    pub arrivals: Option<Arrivals>,
    /// Standard error.
    pub err: E,
    /// How many items were dropped. It stops at the greatest number.
    dropped: u64,
    /// Whether it was told that the set is full.
    is_full_told: bool,
}

impl<'a, D: Device + Drop, E: Write + Drop> Ledger<'a, D, E> {
    /// Writes to these files from now on, and to this standard error what is to be told of them.
    pub fn new(books: Books<'a, D>, err: E) -> Ledger<'a, D, E> {
        Ledger {
            books,
            arrivals: None,
            err,
            dropped: 0,
            is_full_told: false,
        }
    }

    /// Puts this text into the report.
    pub fn report(&mut self, text: Result<String, AllocError>) {
        self.books.put_report(&text, &mut self.err);
    }

    /// Keeps an item that the log took among the last ones, and writes it to what was learned. Its line.
    fn note(&mut self, alloc: Global, form: ItemForm, item: &Item) -> Result<String, AllocError>
        ensures { self.new.books.keep ≡ self.old.books.keep }
    {
        if let Some(arrivals) = &mut self.arrivals {
            arrivals.note(*item);
        }
        let line = learned_line(alloc, form, item);
        self.books.put_learned(&line, &mut self.err);
        line
    }

    /// Writes an item that the log took, and keeps it among the last ones.
    pub fn learn(&mut self, alloc: Global, form: ItemForm, item: &Item) {
        let line = self.note(alloc, form, item);
        self.books.put_kept(&line, &mut self.err);
    }

    /// Counts items that were dropped, and tells once that the set is full.
    pub fn drop_more(&mut self, fault: LogFault, count: usize, items: usize) {
        self.dropped = self.dropped.saturating_add(count as u64);
        if fault == LogFault::Full && !self.is_full_told {
            self.is_full_told = true;
            tell_full(&mut self.err, items);
        }
    }

    /// Notes items that the log took from a program. Sees that the file that keeps the set has all wanted lines, if
    /// there is one.
    pub fn keep(&mut self, alloc: Global, entered: &[Item], wanted: Wanted<'_>) -> Option<Kept>
        ensures items { IfSome result (λ kept. kept ≡ wanted.entry.items.now.items) }
        ensures stored { IfSome result (λ kept. IsStoredIn D.held D.saved wanted.entry.is_durable
            (lines_of wanted.entry.form kept) (option_map (λ b. b.lines) self.old.books.keep)
            (option_map (λ b. b.lines) self.new.books.keep)) }
    {
        for item in entered {
            let _line = self.note(alloc, wanted.form, item);
        }
        let is_kept = match &mut self.books.keep {
            Some(book) => book.keep(alloc, wanted, &mut self.err),
            None => true,
        };
        if wanted.is_durable {
            self.books.sync_learned(&mut self.err);
        }
        if !is_kept {
            return None;
        }
        Some(Kept {
            items: Snapshot::of(wanted.items),
        })
    }

    /// Sees that what was learned outlives a loss of power.
    pub fn sync(&mut self) {
        self.books.sync(&mut self.err);
    }

    /// Tries again to write what waits.
    pub fn try_again(&mut self) {
        self.books.write(&mut self.err);
    }

    /// Writes what waits for the last time, and closes the files.
    pub fn close(self) -> Closed {
        let Ledger {
            books,
            mut err,
            dropped,
            ..
        } = self;
        Closed {
            dropped,
            is_written: books.close(&mut err),
        }
    }
}

/// Goes on in the file that another put in the place of the one that is open, if there is one.
fn go_on_in<R: Files<File = File> + AllocGlobal, E: Write>(
    book: &mut Option<Book<'_, Disk<File>>>,
    rt: &R,
    (form, when): (ItemForm, When),
    err: &mut E,
) {
    if let Some(book) = book {
        book.go_on(rt, form, when, err);
    }
}

impl<E: Write + Drop> Ledger<'_, Disk<File>, E> {
    /// Goes on in files that others put in the place of those that are open.
    pub fn follow<R: Files<File = File> + AllocGlobal>(
        &mut self,
        rt: &R,
        form: ItemForm,
        when: When,
    ) {
        let err = &mut self.err;
        go_on_in(&mut self.books.report, rt, (form, when), err);
        go_on_in(&mut self.books.learned, rt, (form, when), err);
        go_on_in(&mut self.books.keep, rt, (form, when), err);
    }

    /// Rewrites the file that keeps the set without what is below the floor, if it is due.
    pub fn forget<R: Files<File = File> + AllocGlobal>(
        &mut self,
        rt: &R,
        form: ItemForm,
        floor: &Floor,
    ) {
        if let Some(book) = &mut self.books.keep {
            book.forget(rt, form, floor, &mut self.err);
        }
    }
}

/// What is left to say once no session runs.
#[derive(Clone, Copy, Debug, PartialEq, Eq)]
pub struct Closed {
    /// How many learned items were dropped.
    pub dropped: u64,
    /// Whether all that was to be written is written.
    pub is_written: bool,
}

impl Closed {
    /// Refuses if lines are lost.
    pub fn all_written(self) -> Result<(), Fault> {
        if self.is_written {
            Ok(())
        } else {
            Err(Fault::LinesLost)
        }
    }
}
