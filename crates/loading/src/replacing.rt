//! A file is replaced by a new one: a stop at any moment leaves one of both, whole.

ghost use Rattle.std.specs.Prelude.{◌≡◌, None, Option, IfOk, IfSome, MatchResult, option_map, take};
ghost use Rattle.std.specs.Io.{WritesAtMost};
ghost use Rattle.io_core.specs.Devices.{is_short};
ghost use Rattle.loading.specs.Folders.{FolderState, Fails, FailsToAppend, FailsToRename, Gives, Lifts, Writes, Saves};
ghost use Rattle.loading.specs.Folders.{StopsBefore, Replaces, appended, begun, renamed, settled, synced};

use std::alloc::Global;
use std::io;
use std::io::ErrorKind;

/// A folder with a file at a path, and a new file beside it. It may refuse any call, and take fewer bytes than it is
/// given.
pub trait Folder {
    /// What stands at the path and what the new file holds, where that is known.
    ghost state: { Self → Option FolderState } = { λ _. None };

    /// All bytes of the file that stands at the path.
    fn read(&mut self, alloc: Global) -> io::Result<Vec<u8>>
        ensures bytes { IfOk result (λ v. IfSome (state self.old) (λ p. v.items ≡ p.there)) }
        ensures step { Gives (λ p. p) Fails (state self.old) (state self.new) result };

    /// Begins a new file, which is empty. One that a stop left there is overwritten.
    fn begin(&mut self) -> io::Result<()>
        ensures { Gives begun Fails (state self.old) (state self.new) result };

    /// Adds bytes at the end of the new file: at `Ok(n)` the first n.
    fn append(&mut self, bytes: &[u8]) -> io::Result<usize>
        ensures bound { WritesAtMost result bytes.now }
        ensures step { MatchResult result
            (λ n. state self.new ≡ option_map (appended (take n bytes.now) (is_short result bytes.now))
            (state self.old))
            (λ _. Lifts FailsToAppend (state self.old) (state self.new)) };

    /// Sees that what the new file holds outlives a loss of power.
    fn sync_file(&mut self) -> io::Result<()>
        ensures { Gives synced Fails (state self.old) (state self.new) result };

    /// Puts the new file in the place of the one that stands at the path.
    fn rename(&mut self) -> io::Result<()>
        ensures { Gives renamed FailsToRename (state self.old) (state self.new) result };

    /// Sees that a loss of power leaves the file that stands at the path.
    fn sync_folder(&mut self) -> io::Result<()>
        ensures { Gives settled Fails (state self.old) (state self.new) result };
}

/// Why a file was not replaced.
#[derive(Clone, Copy, Debug, PartialEq, Eq)]
pub enum ReplaceFault {
    /// The new file could not be written, or not be put there; or memory ran out.
    NotReplaced(ErrorKind),
    /// The new file stands there, but a loss of power may bring the old one back.
    NotSettled(ErrorKind),
}

/// Begins a new file, and writes all of the text to it.
fn write_beside<F: Folder>(folder: &mut F, text: &[u8]) -> io::Result<()>
    ensures { MatchResult result (λ _. Lifts (Writes text.now) (F.state folder.old) (F.state folder.new))
        (λ _. Lifts StopsBefore (F.state folder.old) (F.state folder.new)) }
{
    folder.begin()?;
    let mut written = 0;
    'appends: while written < text.len() {
        let count = folder.append(&text[written..])?;
        if count == 0 {
            return Err(io::Error::from(ErrorKind::WriteZero));
        }
        written += count;
    }
    Ok(())
}

/// The same, and sees that it outlives a loss of power.
fn save_beside<F: Folder>(folder: &mut F, text: &[u8]) -> io::Result<()>
    ensures { MatchResult result (λ _. Lifts (Saves text.now) (F.state folder.old) (F.state folder.new))
        (λ _. Lifts StopsBefore (F.state folder.old) (F.state folder.new)) }
{
    write_beside(folder, text)?;
    folder.sync_file()
}

/// Puts a new file of this text in the place of the one that stands at the path. A stop at any moment leaves one of
/// both there, whole; once all is done, the new one. It fails only if the folder refuses a call.
pub fn replace<F: Folder>(folder: &mut F, text: &[u8]) -> Result<(), ReplaceFault>
    ensures { Lifts (λ p q. Replaces text.now p q result) (F.state folder.old) (F.state folder.new) }
{
    if let Err(error) = save_beside(folder, text) {
        return Err(ReplaceFault::NotReplaced(error.kind()));
    }
    if let Err(error) = folder.rename() {
        return Err(ReplaceFault::NotReplaced(error.kind()));
    }
    match folder.sync_folder() {
        Ok(()) => Ok(()),
        Err(error) => Err(ReplaceFault::NotSettled(error.kind())),
    }
}
