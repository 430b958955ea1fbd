//! Reading files.

ghost use Rattle.std.specs.Prelude.{IfOk, IfErr};
ghost use Rattle.item_files.specs.Files.{IsFileText, IsAllOf, IsUnread};

use crate::fault::SettingsFault;
use io_core::{InputFault, ReadFault, Watched, read_input};
use std::alloc::Global;
use std::io::Read;
use std::rt::Files;
use std::{fs, io};

/// What is left to read, up to 16,777,216 bytes. Refused 80 where it is not read.
pub fn read_text<R: Read + Drop>(alloc: Global, reader: R) -> Result<Vec<u8>, SettingsFault>
    ensures text { IfOk result (λ v. IsFileText v.items) }
    // It is all that the reader has left.
    ensures whole { IfOk result (λ v. IsAllOf (R.remaining reader) v.items) }
    ensures unread { IfErr result IsUnread }
{
    match read_input(alloc, &mut Watched::new(reader)) {
        Ok(text) => {
            laws::codec::are_bytes(&text);
            Ok(text)
        }
        Err(InputFault::CannotRead(cause)) => Err(SettingsFault::CannotRead(cause)),
        Err(InputFault::Memory) => Err(SettingsFault::Memory),
    }
}

/// The text of the file, up to 16,777,216 bytes. Refused 80 where it is not read.
pub fn read_file<R: Files + AllocGlobal>(rt: &R, path: &str) -> Result<Vec<u8>, SettingsFault>
    ensures text { IfOk result (λ v. IsFileText v.items) }
    ensures unread { IfErr result IsUnread }
{
    match fs::open(rt, path) {
        Ok(file) => read_text(rt.alloc(), file),
        Err(error) if error.kind() == io::ErrorKind::OutOfMemory => Err(SettingsFault::Memory),
        Err(error) => Err(SettingsFault::CannotRead(ReadFault::of(&error))),
    }
}
