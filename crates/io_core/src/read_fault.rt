//! Why a file or an input was not read: what the system said.

ghost use Rattle.std.specs.Prelude.{◌≡◌};
ghost use Rattle.std.specs.IoError.{error_kind, raw_os_error};
ghost use Rattle.io_core.specs.ReadFaults.{by_kind, read_fault};

use std::io;
use std::io::ErrorKind;
use thiserror::Error;

/// Why a file or an input was not read, or a file not opened to be written to. It prints as a clause that follows the
/// name of the file.
#[derive(Clone, Copy, Debug, PartialEq, Eq, Error)]
pub enum ReadFault {
    /// There is none.
    #[error("there is no such file")]
    Absent,
    /// Its reader has no leave.
    #[error("this user may not read it")]
    Forbidden,
    /// It is a folder.
    #[error("this is a folder")]
    Folder,
    /// The process, or the system, may open no more files.
    #[error("no more files can be opened")]
    NoMoreFiles,
    /// It is above the limit of an input.
    #[error("it has more than 16,777,216 bytes")]
    TooLong,
    /// It is above the limit of the items of so many shards.
    #[error("it has more than 16,777,216 bytes for each shard")]
    TooLongForShards,
    /// It has no line feed at its end, and what would have to be cut off is too long.
    #[error("it ends in 65,536 bytes without a line feed")]
    NoLines,
    /// Another process has locked it.
    #[error("another process has it locked")]
    Locked,
    /// It is not read, for any other reason.
    #[error("it cannot be read")]
    Other,
    /// It is to be written to, and was not opened.
    #[error("it cannot be written to")]
    Unwritable,
}

/// Why a file was not read, by the kind of the system's error.
fn by_kind(kind: ErrorKind) -> ReadFault
    ensures { result ≡ by_kind kind }
{
    match kind {
        ErrorKind::NotFound => ReadFault::Absent,
        ErrorKind::PermissionDenied => ReadFault::Forbidden,
        ErrorKind::IsADirectory => ReadFault::Folder,
        _ => ReadFault::Other,
    }
}

impl ReadFault {
    /// Why a file was not opened or not read, by the system's error. Linux gives 24 where the process may open no more
    /// files, and 23 where the system may.
    pub fn of(error: &io::Error) -> ReadFault
        ensures { result ≡ read_fault (raw_os_error error.now) (error_kind error.now) }
    {
        match error.raw_os_error() {
            Some(23 | 24) => ReadFault::NoMoreFiles,
            _ => by_kind(error.kind()),
        }
    }
}
