//! Files of lines on a disk: opened, healed, locked, and written at their ends.

use io_core::{Device, LineFile, torn_length};
use item_files::ReadFault;
use printing_core::{Fault, Refusal, tell_torn};
use std::alloc::Global;
use std::cmp::Ordering;
use std::fs::{File, OpenFile, OpenOptions, TryLockError};
use std::io::{ErrorKind, Read, Seek, SeekFrom, Write};
use std::rt::Files;
use std::{fs, io};
use tcp_front::Identity;

/// How many bytes at the end of a file are looked at for its last line feed.
const TAIL: u64 = 65_536;

/// A file that is written at its end.
#[derive(Drop)]
pub struct Disk<F> {
    /// The file.
    pub file: F,
    /// Its folder, as long as a loss of power may leave another file at its path.
    unsettled: Option<F>,
}

impl<F: Write + OpenFile + Drop> Device for Disk<F> {
    fn append(&mut self, bytes: &[u8]) -> io::Result<usize> {
        let taken = self.file.write(bytes)?;
        if taken == bytes.len() || torn_length(&bytes[..taken]) < taken {
            return Ok(taken);
        }
        // No whole line was taken: the next call says why.
        let more = self.file.write(&bytes[taken..])?;
        Ok(taken + more)
    }

    fn cut(&mut self, length: u64) -> io::Result<()> {
        // A file that someone else has cut is not to be made longer.
        match self.file.metadata()?.len().cmp(&length) {
            Ordering::Less => Err(io::Error::from(ErrorKind::InvalidData)),
            Ordering::Equal => Ok(()),
            Ordering::Greater => self.file.set_len(length),
        }
    }

    fn sync(&mut self) -> io::Result<()> {
        if let Some(folder) = &self.unsettled {
            folder.sync_all()?;
            self.unsettled = None;
        }
        self.file.sync_data()
    }
}

/// What is known of the item file when other files are opened.
#[derive(Clone, Copy, Debug, PartialEq, Eq)]
pub struct ItemFile {
    identity: Identity,
    /// Whether its last line has no line feed.
    pub is_open_ended: bool,
}

/// Which file is open.
fn identity_of(file: &File) -> Option<Identity> {
    let metadata = file.metadata().ok()?;
    Some(Identity::of(&metadata))
}

/// The refusal of a file that is not opened to be written to, or not mended.
pub fn unopened<'a>(path: &'a str, error: &io::Error) -> Refusal<'a> {
    match error.kind() {
        ErrorKind::OutOfMemory => Refusal::from(Fault::Memory),
        ErrorKind::InvalidData => Refusal::of_unread(path, ReadFault::NoLines),
        _ => Refusal::of_unread(path, unopened_cause(error)),
    }
}

/// Why a file is not opened to be written to.
fn unopened_cause(error: &io::Error) -> ReadFault {
    match ReadFault::of(error) {
        cause @ (ReadFault::NoMoreFiles | ReadFault::Folder) => cause,
        _ => ReadFault::Unwritable,
    }
}

/// The bytes at the end of an open file of this length, as many as are looked at.
fn tail_of(alloc: Global, file: &mut File, length: u64) -> io::Result<Vec<u8>> {
    let mut tail = Vec::new(alloc);
    file.seek(SeekFrom::Start(length.saturating_sub(TAIL)))?;
    file.read_to_end(&mut tail)?;
    Ok(tail)
}

/// Whether the last byte of a file is no line feed. An empty file has none.
fn ends_inside_a_line<R: Files<File = File> + AllocGlobal>(rt: &R, path: &str) -> io::Result<bool> {
    let mut file = fs::open(rt, path)?;
    let length = file.metadata()?.len();
    let tail = tail_of(rt.alloc(), &mut file, length)?;
    Ok(torn_length(&tail) > 0)
}

/// What is known of the item file, if it is a regular file that can be read.
pub fn item_file<R: Files<File = File> + AllocGlobal>(rt: &R, path: &str) -> Option<ItemFile> {
    let metadata = fs::metadata(rt, path).ok()?;
    if !metadata.is_file() {
        return None;
    }
    Some(ItemFile {
        identity: Identity::of(&metadata),
        is_open_ended: ends_inside_a_line(rt, path).ok()?,
    })
}

/// Whether the path leads to something that is there and is no regular file: a device, a pipe, a terminal.
fn is_special<R: Files>(rt: &R, path: &str) -> bool {
    fs::metadata(rt, path).is_ok_and(|metadata| !metadata.is_file())
}

/// Opens a regular file, made if it is not there, and locks it, so that no other server writes to it. A system that
/// has no locks for it is passed over.
fn open_locked<'a, R: Files<File = File>>(rt: &R, path: &'a str) -> Result<File, Refusal<'a>> {
    let mut options = OpenOptions::new();
    options.read(true).append(true).create(true);
    let file = match options.open(rt, path) {
        Ok(file) => file,
        Err(error) => return Err(unopened(path, &error)),
    };
    match file.try_lock() {
        Err(TryLockError::WouldBlock) => Err(Refusal::of_unread(path, ReadFault::Locked)),
        _ => Ok(file),
    }
}

/// A file of lines that is open, and how many bytes its whole lines have.
#[derive(Drop)]
pub struct Opened {
    file: File,
    length: u64,
    // Whether it is a regular file.
    is_regular: bool,
    // Its folder, as long as a loss of power may leave another file at its path.
    unsettled: Option<File>,
}

impl Opened {
    /// A new file of whole lines, which have so many bytes.
    pub(crate) fn of_new(file: File, length: u64, unsettled: Option<File>) -> Opened {
        Opened {
            file,
            length,
            is_regular: true,
            unsettled,
        }
    }

    /// Whether it is a regular file that holds nothing.
    pub fn is_empty(&self) -> bool {
        self.is_regular && self.length == 0
    }

    /// Whether it is a regular file: no device, pipe or terminal.
    pub fn is_regular(&self) -> bool {
        self.is_regular
    }

    /// What the file holds, from its start.
    pub fn reader(&mut self) -> io::Result<&File> {
        self.file.seek(SeekFrom::Start(0))?;
        Ok(&self.file)
    }

    /// The lines, to be written at their end.
    pub fn into_lines(self, alloc: Global) -> LineFile<Disk<File>> {
        let Opened {
            file,
            length,
            is_regular: _,
            unsettled,
        } = self;
        LineFile::new(alloc, Disk { file, unsettled }, length)
    }
}

/// Ends the last line of the item file, which is lawful without a line feed.
fn end_line(file: &mut File, length: u64) -> io::Result<u64> {
    if file.write(b"\n")? == 1 {
        Ok(length.saturating_add(1))
    } else {
        Err(io::Error::from(ErrorKind::WriteZero))
    }
}

/// A file that ends with a line feed, and what was cut off for that.
#[derive(Drop)]
struct Mended {
    length: u64,
    torn: Vec<u8>,
}

/// Cuts off the last line, which has no end.
fn cut_torn(file: &File, length: u64, torn: Vec<u8>) -> io::Result<Mended> {
    let length = length.saturating_sub(torn.len() as u64);
    file.set_len(length)?;
    Ok(Mended { length, torn })
}

/// Sees that an open file ends with a line feed. A file of which no line ends within what is looked at is not one of
/// lines.
fn mend(alloc: Global, file: &mut File, is_item_file: bool) -> io::Result<Mended> {
    let length = file.metadata()?.len();
    let tail = tail_of(alloc, file, length)?;
    let torn = Vec::from_slice(alloc, &tail[tail.len() - torn_length(&tail)..])?;
    if torn.is_empty() {
        Ok(Mended { length, torn })
    } else if is_item_file {
        let length = end_line(file, length)?;
        let torn = Vec::new(alloc);
        Ok(Mended { length, torn })
    } else if torn.len() as u64 >= TAIL {
        Err(io::Error::from(ErrorKind::InvalidData))
    } else {
        cut_torn(file, length, torn)
    }
}

/// Opens a device, a pipe or a terminal to be written to.
fn open_special<'a, R: Files<File = File>>(rt: &R, path: &'a str) -> Result<Opened, Refusal<'a>> {
    match OpenOptions::new().append(true).open(rt, path) {
        Ok(file) => Ok(Opened {
            file,
            length: 0,
            is_regular: false,
            unsettled: None,
        }),
        Err(error) => Err(unopened(path, &error)),
    }
}

/// Opens a file of lines to be written at its end; it is made if it is not there. A last line without its end is cut
/// off, which standard error is told, or ended if the file is the item file. Refused 80 if it cannot be opened, read
/// or mended, or if another process has it locked; or 90.
pub fn open_lines<'a, R: Files<File = File> + AllocGlobal, E: Write>(
    rt: &R,
    path: &'a str,
    items: Option<ItemFile>,
    err: &mut E,
) -> Result<Opened, Refusal<'a>> {
    if is_special(rt, path) {
        return open_special(rt, path);
    }
    let mut file = open_locked(rt, path)?;
    let is_item_file = items.is_some_and(|items| identity_of(&file) == Some(items.identity));
    let Mended { length, torn } = match mend(rt.alloc(), &mut file, is_item_file) {
        Ok(mended) => mended,
        Err(error) => return Err(unopened(path, &error)),
    };
    if !torn.is_empty() {
        tell_torn(rt.alloc(), err, path, &torn);
    }
    Ok(Opened {
        file,
        length,
        is_regular: true,
        unsettled: None,
    })
}

/// What was opened when the items were read: the file in which the set is kept, if there is one; and what is known of
/// the item file.
#[derive(Drop)]
pub struct Kept {
    /// The file in which the set is kept.
    pub opened: Option<Opened>,
    /// The item file.
    pub items: Option<ItemFile>,
}
