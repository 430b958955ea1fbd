//! What is printed goes to the output, or to a file.

use io_core::{Watched, write_output};
use loading::unopened;
use printing_core::Refusal;
use std::fs;
use std::fs::File;
use std::io::Write;
use std::rt::Files;

/// A file that was made for what is printed.
#[derive(Drop)]
pub struct NewFile<'a> {
    path: &'a str,
    file: File,
}

impl<'a> NewFile<'a> {
    /// Writes all of this. Else `io write`.
    pub fn print(self, text: &[u8]) -> Result<(), Refusal<'a>> {
        let NewFile { path, file } = self;
        match write_output(&mut Watched::new(file), text) {
            Ok(()) => Ok(()),
            Err(_failed) => Err(Refusal::of_unwritten(path)),
        }
    }
}

/// Prints text to the file, or to the output where there is none. Else `io write`.
pub fn print_to<'a, O: Write + Drop>(
    file: Option<NewFile<'a>>,
    out: O,
    text: &[u8],
) -> Result<(), Refusal<'a>> {
    match file {
        Some(file) => file.print(text),
        None => {
            write_output(&mut Watched::new(out), text)?;
            Ok(())
        }
    }
}

/// Makes a file, or empties it if it is there, if a path is given. Else 80 or 90.
pub fn create_file<'a, R: Files<File = File>>(
    rt: &R,
    path: Option<&'a str>,
) -> Result<Option<NewFile<'a>>, Refusal<'a>> {
    let Some(path) = path else {
        return Ok(None);
    };
    match fs::create(rt, path) {
        Ok(file) => Ok(Some(NewFile { path, file })),
        Err(error) => Err(unopened(path, &error)),
    }
}
