//! The file that keeps a set is rewritten without what the set has forgotten.

ghost use Rattle.std.specs.Prelude.{◌≡◌, []};

use crate::book::Book;
use io_core::{Device, LineFile};
use item_files::ItemForm;
use loading::{Disk, DiskFolder, ReplaceFault, rewrite};
use printing_core::{Cause, tell_unwritten_cause};
use shard_core::Floor;
use std::alloc::Global;
use std::fs::File;
use std::io::Write;
use std::mem;
use std::rt::Files;

impl<D: Device + Drop> Book<'_, D> {
    /// Writes to these lines from now on, and to them first what waits.
    fn go_over(&mut self, lines: LineFile<D>)
        ensures { self.old.lines.waiting ≡ [] → self.new.lines ≡ lines }
    {
        let old = mem::replace(&mut self.lines, lines);
        if !old.waiting().is_empty() {
            self.take_over(old.waiting());
        }
    }
}

impl Book<'_, Disk<File>> {
    /// Tells once why the file is not rewritten.
    fn tell_left<E: Write>(&mut self, alloc: Global, fault: ReplaceFault, err: &mut E) {
        if !self.rewriting.fail() {
            return;
        }
        let path = self.name.path;
        match fault {
            ReplaceFault::NotReplaced(kind) => {
                if let Ok(beside) = format!(in alloc; "{path}.new") {
                    tell_unwritten_cause(err, &beside, Cause::from(kind), 0);
                }
            }
            ReplaceFault::NotSettled(kind) => {
                tell_unwritten_cause(err, path, Cause::from(kind), 0);
            }
        }
    }

    /// Rewrites the file, and goes on in the new one once it stands at the path.
    fn rewrite<R: Files<File = File> + AllocGlobal>(
        &mut self,
        rt: &R,
        form: ItemForm,
        floor: &Floor,
    ) -> Result<(), ReplaceFault> {
        let mut folder = match DiskFolder::of(rt, self.name.path, self.file()) {
            Ok(folder) => folder,
            Err(error) => return Err(ReplaceFault::NotReplaced(error.kind())),
        };
        let rewritten = rewrite(rt.alloc(), &mut folder, form, floor);
        if let Some(opened) = folder.into_opened() {
            self.go_over(opened.into_lines(rt.alloc()));
        }
        match rewritten {
            Ok(_) => Ok(()),
            Err(fault) => Err(fault),
        }
    }

    /// Rewrites the file without the items that are not kept, if it is due, all lines are in it, and they are a quarter
    /// of its items. What fails is tried again after a minute. A file of lines of any length stays.
    pub fn forget<R: Files<File = File> + AllocGlobal, E: Write>(
        &mut self,
        rt: &R,
        form: ItemForm,
        floor: &Floor,
        err: &mut E,
    ) {
        // Of a line only its digest is known here.
        if form == ItemForm::Hash {
            return;
        }
        if !self.is_written() || !self.followed.has_all() || !self.is_there(rt) {
            return;
        }
        if !self.rewriting.is_due(self.lines.whole_length()) {
            return;
        }
        match self.rewrite(rt, form, floor) {
            Ok(()) => self.rewriting.look(self.lines.whole_length()),
            Err(fault) => self.tell_left(rt.alloc(), fault, err),
        }
    }
}
