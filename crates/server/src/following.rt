//! Files that others put in the place of those that a server writes to: `mv`, `sed -i`, an editor or a rotation.

use crate::book::{BATCH, Book, Kind};
use item_core::Item;
use item_files::{ItemForm, item_set};
use loading::{Disk, open_lines};
use printing_core::{learned_line, tell_not_followed, tell_replaced};
use std::alloc::Global;
use std::fs::{File, Metadata};
use std::io::{ErrorKind, Read, Seek, SeekFrom, Write};
use std::rt::Files;
use std::{fs, io, mem};
use tcp_front::Identity;

/// What a path leads to now, by which a file was opened.
#[derive(Clone, Copy, Debug, PartialEq, Eq)]
enum Found {
    /// This file, as far as it is known; or one that is never another, as a device.
    Same,
    /// Another regular file.
    Another,
    /// Something that is no regular file.
    NoFile,
    /// Nothing.
    Gone,
}

/// What is found at a path that leads to something.
fn found_there(own: Identity, metadata: &Metadata) -> Found {
    if Identity::of(metadata) == own {
        Found::Same
    } else if metadata.is_file() {
        Found::Another
    } else {
        Found::NoFile
    }
}

/// What the path leads to now, by which this file was opened.
fn found_at<R: Files>(rt: &R, path: &str, file: &File) -> Found {
    let Ok(own) = file.metadata() else {
        return Found::Same;
    };
    if !own.is_file() {
        return Found::Same;
    }
    match fs::metadata(rt, path) {
        Ok(metadata) => found_there(Identity::of(&own), &metadata),
        Err(error) if error.kind() == ErrorKind::NotFound => Found::Gone,
        Err(_) => Found::Same,
    }
}

/// All that an open file holds.
fn all_of(alloc: Global, file: &File) -> io::Result<Vec<u8>> {
    let mut file = file.try_clone()?;
    let mut text = Vec::new(alloc);
    file.seek(SeekFrom::Start(0))?;
    file.read_to_end(&mut text)?;
    Ok(text)
}

/// When it is looked what stands at a path.
#[derive(Clone, Copy, Debug, PartialEq, Eq)]
pub enum When {
    /// Before something is written.
    Asked,
    /// Each second.
    Due,
    /// At the end.
    Last,
}

/// What is known of other files at the path of a book.
#[derive(Drop)]
pub struct Followed {
    /// The files that stood there before, of which not all is in the one that is there.
    before: Vec<File>,
    /// Whether nothing stood there a second ago.
    is_missed: bool,
    /// Whether it was told that what stands there is not written to.
    is_told: bool,
}

impl Followed {
    /// Nothing so far.
    pub fn new(alloc: Global) -> Followed {
        Followed {
            before: Vec::new(alloc),
            is_missed: false,
            is_told: false,
        }
    }

    /// Whether the file that is there has all that those before it had.
    pub(crate) fn has_all(&self) -> bool {
        self.before.is_empty()
    }
}

/// The items of what a file holds, in rising order: none if it does not hold items, or cannot be read.
fn items_in(alloc: Global, form: ItemForm, file: &File) -> Vec<Item> {
    let Ok(text) = all_of(alloc, file) else {
        return Vec::new(alloc);
    };
    match item_set(alloc, form, &text, usize::MAX) {
        Ok(items) => items,
        Err(_) => Vec::new(alloc),
    }
}

impl Book<'_, Disk<File>> {
    /// The file that is open.
    pub(crate) fn file(&self) -> &File {
        &self.lines.device().file
    }

    /// Whether the file that is open is a regular one, and is known to stand at the path.
    pub(crate) fn is_there<R: Files>(&self, rt: &R) -> bool {
        let is_regular = self.file().metadata().is_ok_and(|own| own.is_file());
        is_regular && found_at(rt, self.name.path, self.file()) == Found::Same
    }

    /// Goes on in the file that stands at the path, if that is another one. If nothing stands there a file is made, but
    /// not before a second is over: it may be between two steps of an editor.
    fn follow<R: Files<File = File> + AllocGlobal, E: Write>(
        &mut self,
        rt: &R,
        when: When,
        err: &mut E,
    ) {
        match found_at(rt, self.name.path, self.file()) {
            Found::Same => {
                self.followed.is_missed = false;
                self.followed.is_told = false;
            }
            Found::Another => self.go_on_there(rt, err),
            Found::NoFile => self.tell_not_followed(err),
            Found::Gone if self.followed.is_missed || when == When::Last => {
                self.go_on_there(rt, err)
            }
            Found::Gone => self.followed.is_missed = when == When::Due,
        }
    }

    /// Tells once that what stands at the path is not written to.
    fn tell_not_followed<E: Write>(&mut self, err: &mut E) {
        if !self.followed.is_told {
            self.followed.is_told = true;
            tell_not_followed(err, self.name.path);
        }
    }

    /// Opens the file at the path, heals and locks it, and writes to it from now on. If it cannot be opened, the file
    /// that stood there before is still written to.
    fn go_on_there<R: Files<File = File> + AllocGlobal, E: Write>(&mut self, rt: &R, err: &mut E) {
        let Ok(opened) = open_lines(rt, self.name.path, None, err) else {
            self.tell_not_followed(err);
            return;
        };
        let Ok(before) = self.file().try_clone() else {
            self.tell_not_followed(err);
            return;
        };
        if self.followed.before.push(before).is_err() {
            return;
        }
        let lines = opened.into_lines(rt.alloc());
        let old = mem::replace(&mut self.lines, lines);
        self.take_over(old.waiting());
        self.followed.is_missed = false;
        self.followed.is_told = false;
        tell_replaced(err, self.name.path);
    }

    /// Goes on in the file that stands at the path. Of those that stood there before the file in which the set is kept
    /// gets what it lacks; else they are forgotten.
    pub fn go_on<R: Files<File = File> + AllocGlobal, E: Write>(
        &mut self,
        rt: &R,
        form: ItemForm,
        when: When,
        err: &mut E,
    ) {
        self.follow(rt, when, err);
        if self.name.kind == Kind::Keep {
            self.carry_over(rt.alloc(), form, err);
        } else {
            self.followed.before.clear();
        }
    }

    /// Adds the items that the files that stood there before have, and the one that is there has not. What is not
    /// written now is tried again at the next call.
    fn carry_over<E: Write>(&mut self, alloc: Global, form: ItemForm, err: &mut E) {
        if self.followed.before.is_empty() {
            return;
        }
        if !self.write(err) {
            return;
        }
        let has = items_in(alloc, form, self.file());
        let had = match self.followed.before.last() {
            Some(file) => items_in(alloc, form, file),
            None => Vec::new(alloc),
        };
        if self.put_missing(alloc, form, (&had, &has), err) {
            let _done = self.followed.before.pop();
        }
    }

    /// Writes the first items without the second ones, which rise. Whether all are written.
    fn put_missing<E: Write>(
        &mut self,
        alloc: Global,
        form: ItemForm,
        (had, has): (&[Item], &[Item]),
        err: &mut E,
    ) -> bool {
        for item in had {
            if has.binary_search(item).is_err() && !self.put_later(alloc, form, item, err) {
                return false;
            }
        }
        self.write(err)
    }

    /// Tells an item, and writes all that waits if that is much. Whether that went well.
    fn put_later<E: Write>(
        &mut self,
        alloc: Global,
        form: ItemForm,
        item: &Item,
        err: &mut E,
    ) -> bool {
        if self.tell(&learned_line(alloc, form, item)).is_err() {
            return false;
        }
        if self.lines.waiting().len() < BATCH {
            return true;
        }
        self.write(err)
    }
}
