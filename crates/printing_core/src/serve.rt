//! What standard error is told while `serve` runs.

ghost use Rattle.std.specs.Prelude.{◌≡◌};
ghost use Rattle.printing_core.specs.Causes.{cause_of};

use crate::fault::Fault;
use crate::item_text::push_item;
use crate::shown::shown_line;
use item_core::Item;
use item_files::ItemForm;
use std::alloc::Global;
use std::fmt;
use std::io::{ErrorKind, Write};
use std::net::SocketAddr;
use thiserror::Error;

/// Why a file was not written to. It prints as a clause that follows the name of the file.
#[derive(Clone, Copy, Debug, PartialEq, Eq, Error)]
pub enum Cause {
    /// The disk is full.
    #[error("no room is left on the disk")]
    NoRoom,
    /// The user's share of the disk is used up.
    #[error("the quota is used up")]
    OverQuota,
    /// The file has as many bytes as a file may have.
    #[error("the file may grow no more")]
    TooLarge,
    /// Nothing is written there.
    #[error("the file system is read-only")]
    ReadOnly,
    /// This user may not write to it.
    #[error("this user may not write to it")]
    Forbidden,
    /// It is a pipe that nobody reads.
    #[error("nobody reads it")]
    NoReader,
    /// A write took fewer bytes than there were.
    #[error("only a part of a line was taken")]
    Short,
    /// It is not written to, for any other reason.
    #[error("it cannot be written to")]
    Other,
}

impl From<ErrorKind> for Cause {
    ghost from_gives = { λ kind cause. cause ≡ cause_of kind };

    fn from(kind: ErrorKind) -> Cause {
        match kind {
            ErrorKind::StorageFull => Cause::NoRoom,
            ErrorKind::QuotaExceeded => Cause::OverQuota,
            ErrorKind::FileTooLarge => Cause::TooLarge,
            ErrorKind::ReadOnlyFilesystem => Cause::ReadOnly,
            ErrorKind::PermissionDenied => Cause::Forbidden,
            ErrorKind::BrokenPipe => Cause::NoReader,
            _ => Cause::Other,
        }
    }
}

/// A number, and what is counted: one of them, or any other number.
#[derive(Clone, Copy)]
struct Count(usize, &'static str, &'static str);

impl fmt::Display for Count {
    fn fmt<W: fmt::Write>(&self, f: &mut fmt::Formatter<W>) -> fmt::Result {
        let Count(count, one, many) = *self;
        let counted = if count == 1 { one } else { many };
        write!(f, "{count} {counted}")
    }
}

/// Prints the address that is listened at, if it is known. A line that is not taken changes nothing.
pub fn tell_address<E: Write>(err: &mut E, address: Option<SocketAddr>) {
    if let Some(address) = address {
        let _told = writeln!(err, "listening {address}");
    }
}

/// Prints that a file could not be written, which is named by its option. A line that is not taken changes nothing.
pub fn tell_unwritten<E: Write>(err: &mut E, option: &str) {
    let _told = writeln!(err, "{option} not written");
}

/// Prints how many learned items were dropped, if any were. A line that is not taken changes nothing.
pub fn tell_dropped<E: Write>(err: &mut E, count: u64) {
    if count > 0 {
        let _told = writeln!(err, "dropped {count}");
    }
}

/// Prints why a file is not written to, and how many lines wait. A line that is not taken changes nothing.
pub fn tell_unwritten_cause<E: Write>(err: &mut E, file: &str, cause: Cause, lines: usize) {
    let lines = Count(lines, "line waits", "lines wait");
    let _told = writeln!(err, "{file}: {cause}, {lines}");
}

/// Prints that a file is written to again, which is named by its option, and how many lines had waited. A line that is
/// not taken changes nothing.
pub fn tell_written_again<E: Write>(err: &mut E, option: &str, lines: usize) {
    let lines = Count(lines, "line had waited", "lines had waited");
    let _told = writeln!(err, "{option} written again, {lines}");
}

/// Prints how many lines were not written at the end, if any were not. A line that is not taken changes nothing.
pub fn tell_left_waiting<E: Write>(err: &mut E, option: &str, lines: usize) {
    if lines > 0 {
        let lines = Count(lines, "line not written", "lines not written");
        let _told = writeln!(err, "{option}: {lines}");
    }
}

/// Prints how many texts were given up, if any were. A line that is not taken changes nothing.
pub fn tell_left_out<E: Write>(err: &mut E, option: &str, count: usize) {
    if count > 0 {
        let texts = Count(count, "text", "texts");
        let _told = writeln!(
            err,
            "{option}: {texts} left out, too many wait or memory ran out"
        );
    }
}

/// Prints the front of a last line without a line feed that was cut off; nothing of it where memory runs out. A line
/// that is not taken changes nothing.
pub fn tell_torn<E: Write>(alloc: Global, err: &mut E, file: &str, bytes: &[u8]) {
    let shown = shown_line(alloc, bytes).unwrap_or(String::new(alloc));
    let _told = writeln!(
        err,
        "{file}: a last line without its end was cut off: {shown}"
    );
}

/// Prints that the set has no room for one more item. A line that is not taken changes nothing.
pub fn tell_full<E: Write>(err: &mut E, items: usize) {
    let items = Count(items, "item", "items");
    let _told = writeln!(
        err,
        "the set is full with {items}: what peers have beside them is dropped"
    );
}

/// Prints that an item has no time, so that it is below every floor. A line that is not taken changes nothing.
pub fn tell_no_time<E: Write>(alloc: Global, err: &mut E, form: ItemForm, item: &Item) {
    let mut text = String::new(alloc);
    if push_item(alloc, &mut text, form, item).is_ok() {
        let _told = writeln!(err, "not kept, since it does not begin with a time: {text}");
    }
}

/// Prints that a partner is not reached, or that its session was cut off. A line that is not taken changes nothing.
pub fn tell_partner_away<E: Write>(err: &mut E, address: &str) {
    let _told = writeln!(err, "partner {address} is away, and is called again");
}

/// Prints that a session with a partner has ended again. A line that is not taken changes nothing.
pub fn tell_partner_back<E: Write>(err: &mut E, address: &str) {
    let _told = writeln!(err, "partner {address} is back");
}

/// Prints that a session with a partner is refused, by this side or by the partner. A line that is not taken changes
/// nothing.
pub fn tell_partner_refused<E: Write>(err: &mut E, address: &str, fault: Fault) {
    let _told = writeln!(err, "partner {address}: {fault}");
}

/// Prints that what is learned is written to no file. A line that is not taken changes nothing.
pub fn tell_in_memory<E: Write>(err: &mut E) {
    let _told = writeln!(err, "kept in memory alone: --keep FILE keeps it");
}

/// Prints that another file stands at this path, and is written to instead. A line that is not taken changes nothing.
pub fn tell_replaced<E: Write>(err: &mut E, file: &str) {
    let _told = writeln!(err, "{file}: another file is there, and is written to");
}

/// Prints that what stands at this path is another thing, and is not written to. A line that is not taken changes
/// nothing.
pub fn tell_not_followed<E: Write>(err: &mut E, file: &str) {
    let _told = writeln!(
        err,
        "{file}: what is there is another, and is not written to"
    );
}
