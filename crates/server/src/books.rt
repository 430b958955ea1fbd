//! The files that a server writes to: the report, what was learned, and the set itself.

ghost use Rattle.std.specs.Prelude.{◌≡◌};

use crate::book::{Book, Kind, Name};
use io_core::Device;
use loading::{Disk, ItemFile, Kept, Opened, open_lines};
use printing_core::Refusal;
use std::alloc::{AllocError, Global};
use std::fs::File;
use std::io::Write;
use std::rt::Files;

/// The paths of the files that a server writes to, where they are asked for.
#[derive(Clone, Copy)]
pub struct Paths<'a> {
    /// The file for what each session found.
    pub report: Option<&'a str>,
    /// The item file for what the log took from peers.
    pub learned: Option<&'a str>,
    /// The item file in which the set is kept.
    pub keep: Option<&'a str>,
}

/// These files, open to be written at their ends: at most one of each kind.
#[derive(Drop)]
pub struct Books<'a, D> {
    pub(crate) report: Option<Book<'a, D>>,
    pub(crate) learned: Option<Book<'a, D>>,
    pub(crate) keep: Option<Book<'a, D>>,
}

/// How a set is kept.
#[derive(Clone, Copy, Debug, PartialEq, Eq)]
pub enum Keeping {
    /// No file keeps it.
    InMemory,
    /// A file does.
    InFile {
        /// Whether all lines that were told are written to it.
        is_written: bool,
    },
}

impl Keeping {
    /// Whether no line waits for the file, if there is one.
    pub fn is_written(self) -> bool {
        match self {
            Keeping::InMemory => true,
            Keeping::InFile { is_written } => is_written,
        }
    }

    /// Whether a file keeps it.
    pub fn is_in_file(self) -> bool {
        match self {
            Keeping::InMemory => false,
            Keeping::InFile { .. } => true,
        }
    }
}

/// The books of a disk.
pub type DiskBooks<'a> = Books<'a, Disk<File>>;

/// A file that is open, of this name.
fn book_of<'a>(
    alloc: Global,
    name: Name<'a>,
    opened: Opened,
    items: Option<ItemFile>,
) -> Book<'a, Disk<File>> {
    let begins_blank = opened.is_empty() && items.is_some_and(|items| items.is_open_ended);
    let mut book = Book::new(alloc, name, opened.into_lines(alloc));
    if begins_blank {
        book.begin_blank();
    }
    book
}

/// Opens the file at a path, if there is one. Else 80 or 90.
fn open_book<'a, R: Files<File = File> + AllocGlobal, E: Write>(
    rt: &R,
    (kind, path): (Kind, Option<&'a str>),
    items: Option<ItemFile>,
    err: &mut E,
) -> Result<Option<Book<'a, Disk<File>>>, Refusal<'a>> {
    let Some(path) = path else {
        return Ok(None);
    };
    let opened = open_lines(rt, path, items, err)?;
    Ok(Some(book_of(rt.alloc(), Name { kind, path }, opened, items)))
}

/// The file that keeps the set, which is open already, if there is one.
fn keep_book<'a>(alloc: Global, path: Option<&'a str>, kept: Kept) -> Option<Book<'a, Disk<File>>> {
    let Kept { opened, items } = kept;
    let name = Name {
        kind: Kind::Keep,
        path: path?,
    };
    Some(book_of(alloc, name, opened?, items))
}

/// Opens the files that are asked for, but for the one that is open already. Else 80 where one cannot be opened, or is
/// locked, or 90.
pub fn open_books<'a, R: Files<File = File> + AllocGlobal, E: Write>(
    rt: &R,
    paths: Paths<'a>,
    kept: Kept,
    err: &mut E,
) -> Result<DiskBooks<'a>, Refusal<'a>> {
    let report = open_book(rt, (Kind::Report, paths.report), None, err)?;
    let learned = open_book(rt, (Kind::Learned, paths.learned), kept.items, err)?;
    let keep = keep_book(rt.alloc(), paths.keep, kept);
    Ok(Books {
        report,
        learned,
        keep,
    })
}

/// How many lines wait to be written to a file, if there is one.
fn waiting_in<D: Device>(book: &Option<Book<'_, D>>) -> u64 {
    match book {
        Some(book) => book.waiting_lines() as u64,
        None => 0,
    }
}

/// How many writes to a file failed, if there is one.
fn failed_in<D: Device>(book: &Option<Book<'_, D>>) -> u64 {
    match book {
        Some(book) => book.failed(),
        None => 0,
    }
}

/// Tries again to write what waits for a file, if there is one.
fn write_in<D: Device, E: Write>(book: &mut Option<Book<'_, D>>, err: &mut E) {
    if let Some(book) = book {
        let _written = book.write(err);
    }
}

/// Sees that what was written to a file outlives a loss of power, if there is one.
fn sync_in<D: Device, E: Write>(book: &mut Option<Book<'_, D>>, err: &mut E) {
    if let Some(book) = book {
        let _saved = book.sync(err);
    }
}

/// Puts a text of whole lines into a file, if there is one.
fn put_in<D: Device, E: Write>(
    book: &mut Option<Book<'_, D>>,
    text: &Result<String, AllocError>,
    err: &mut E,
) {
    if let Some(book) = book {
        book.put(err, text);
    }
}

/// Writes what waits for a file for the last time, if there is one. Whether nothing is lost.
fn close_in<D: Device + Drop, E: Write>(book: Option<Book<'_, D>>, err: &mut E) -> bool {
    match book {
        Some(book) => book.close(err),
        None => true,
    }
}

impl<D: Device> Books<'_, D> {
    /// How many lines wait to be written, over all files.
    pub fn waiting_lines(&self) -> u64 {
        waiting_in(&self.report)
            .saturating_add(waiting_in(&self.learned))
            .saturating_add(waiting_in(&self.keep))
    }

    /// How many writes failed, over all files.
    pub fn failed(&self) -> u64 {
        failed_in(&self.report)
            .saturating_add(failed_in(&self.learned))
            .saturating_add(failed_in(&self.keep))
    }

    /// How the set is kept.
    pub fn keeping(&self) -> Keeping {
        match &self.keep {
            Some(book) => Keeping::InFile {
                is_written: book.is_written(),
            },
            None => Keeping::InMemory,
        }
    }

    /// Whether lines that are written to the file that keeps the set may be lost.
    pub fn is_doubtful(&self) -> bool {
        match &self.keep {
            Some(book) => book.is_doubtful(),
            None => false,
        }
    }

    /// Whether there is a file at all.
    pub fn is_any(&self) -> bool {
        self.report.is_some() || self.learned.is_some() || self.keep.is_some()
    }

    /// Whether there is a report.
    pub fn has_report(&self) -> bool {
        self.report.is_some()
    }

    /// Puts a text of whole lines into the report.
    pub fn put_report<E: Write>(&mut self, text: &Result<String, AllocError>, err: &mut E) {
        put_in(&mut self.report, text, err);
    }

    /// Puts the line of an item that the log took among what was learned.
    pub fn put_learned<E: Write>(&mut self, line: &Result<String, AllocError>, err: &mut E)
        ensures same { self.new.keep ≡ self.old.keep }
    {
        put_in(&mut self.learned, line, err);
    }

    /// Puts the line of an item that the log took into the file that keeps the set.
    pub fn put_kept<E: Write>(&mut self, line: &Result<String, AllocError>, err: &mut E) {
        put_in(&mut self.keep, line, err);
    }

    /// Tries again to write what waits.
    pub fn write<E: Write>(&mut self, err: &mut E) {
        write_in(&mut self.report, err);
        write_in(&mut self.learned, err);
        write_in(&mut self.keep, err);
    }

    /// Sees that what was learned outlives a loss of power.
    pub fn sync_learned<E: Write>(&mut self, err: &mut E)
        ensures same { self.new.keep ≡ self.old.keep }
    {
        sync_in(&mut self.learned, err);
    }

    /// Sees that what was learned, and what is kept, outlives a loss of power.
    pub fn sync<E: Write>(&mut self, err: &mut E) {
        self.sync_learned(err);
        sync_in(&mut self.keep, err);
    }

    /// Writes what waits for the last time, and closes the files. Whether nothing is lost.
    pub fn close<E: Write>(self, err: &mut E) -> bool
    where
        D: Drop,
    {
        let Books {
            report,
            learned,
            keep,
        } = self;
        let is_reported = close_in(report, err);
        let is_learned = close_in(learned, err);
        close_in(keep, err) && is_learned && is_reported
    }
}
