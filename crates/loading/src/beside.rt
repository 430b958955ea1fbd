//! A folder of the system, in which a file of lines is replaced.

use crate::disk::Opened;
use crate::replacing::Folder;
use std::alloc::Global;
use std::fs::{File, OpenOptions};
use std::io::{ErrorKind, Read, Seek, SeekFrom, Write};
use std::os::unix::fs::{MetadataExt, OpenOptionsExt, fchown};
use std::rt::Files;
use std::{fs, io};
use tcp_front::Identity;

/// What the new file is called until it is whole: the path and this.
const NEW: &str = ".new";

/// The folder of a file.
fn folder_of(path: &str) -> &str {
    match path.rsplit_once('/') {
        Some(("", _)) => "/",
        Some((folder, _)) => folder,
        None => ".",
    }
}

/// The new file, while it is written.
#[derive(Drop)]
struct Fresh {
    file: File,
    length: u64,
}

/// A folder of the system, with a file that is open, and a new one beside it.
#[derive(Drop)]
pub struct DiskFolder<'a, R> {
    rt: &'a R,
    /// The file that stands at the path.
    old: &'a File,
    /// The path, without links.
    path: String,
    /// That of the new file.
    beside: String,
    folder: File,
    fresh: Option<Fresh>,
    /// Whether the new file stands at the path.
    is_renamed: bool,
    /// Whether a loss of power leaves it there.
    is_settled: bool,
}

impl<'a, R: Files<File = File> + AllocGlobal> DiskFolder<'a, R> {
    /// The folder in which this file stands at this path.
    pub fn of(rt: &'a R, path: &str, old: &'a File) -> io::Result<DiskFolder<'a, R>> {
        let alloc = rt.alloc();
        let real = fs::canonicalize(rt, path)?;
        let path = String::from_str(alloc, real.as_path().as_str())?;
        let beside = format!(in alloc; "{path}{NEW}")?;
        let folder = fs::open(rt, folder_of(path.as_str()))?;
        Ok(DiskFolder {
            rt,
            old,
            path,
            beside,
            folder,
            fresh: None,
            is_renamed: false,
            is_settled: false,
        })
    }

    /// The new file, to go on in it, if it stands at the path. Else it is removed, and takes the room of no lines.
    pub fn into_opened(self) -> Option<Opened> {
        let DiskFolder {
            rt,
            beside,
            folder,
            fresh,
            is_renamed,
            is_settled,
            ..
        } = self;
        let Fresh { file, length } = fresh?;
        if !is_renamed {
            let _removed = fs::remove_file(rt, beside.as_str());
            return None;
        }
        let unsettled = if is_settled { None } else { Some(folder) };
        Some(Opened::of_new(file, length, unsettled))
    }

    /// Makes the new file, which nobody else may read until it is as the one that stands at the path.
    fn create(&self) -> io::Result<File> {
        match fs::remove_file(self.rt, self.beside.as_str()) {
            Err(error) if error.kind() != ErrorKind::NotFound => return Err(error),
            _ => {}
        }
        let mut options = OpenOptions::new();
        options.read(true).append(true).create_new(true).mode(0o600);
        options.open(self.rt, self.beside.as_str())
    }
}

/// Gives a file the owner and the permissions of another one, and locks it.
fn make_alike(file: &File, other: &File) -> io::Result<()> {
    let (own, others) = (file.metadata()?, other.metadata()?);
    if own.uid() != others.uid() || own.gid() != others.gid() {
        fchown(file, Some(others.uid()), Some(others.gid()))?;
    }
    file.set_permissions(others.permissions())?;
    // A system that has no locks for it is passed over.
    let _locked = file.try_lock();
    Ok(())
}

/// The new file, which is to be begun.
fn begun(fresh: &mut Option<Fresh>) -> io::Result<&mut Fresh> {
    match fresh {
        Some(fresh) => Ok(fresh),
        None => Err(io::Error::from(ErrorKind::InvalidInput)),
    }
}

impl<R: Files<File = File> + AllocGlobal> Folder for DiskFolder<'_, R> {
    fn read(&mut self, alloc: Global) -> io::Result<Vec<u8>> {
        let mut file = self.old.try_clone()?;
        let mut text = Vec::new(alloc);
        file.seek(SeekFrom::Start(0))?;
        file.read_to_end(&mut text)?;
        Ok(text)
    }

    fn begin(&mut self) -> io::Result<()> {
        let file = self.create()?;
        let alike = make_alike(&file, self.old);
        self.fresh = Some(Fresh { file, length: 0 });
        self.is_renamed = false;
        alike
    }

    fn append(&mut self, bytes: &[u8]) -> io::Result<usize> {
        let fresh = begun(&mut self.fresh)?;
        let taken = fresh.file.write(bytes)?;
        fresh.length = fresh.length.saturating_add(taken as u64);
        Ok(taken)
    }

    fn sync_file(&mut self) -> io::Result<()> {
        begun(&mut self.fresh)?.file.sync_all()
    }

    fn rename(&mut self) -> io::Result<()> {
        // What others put there meanwhile is not to be lost.
        let there = Identity::of(&fs::metadata(self.rt, self.path.as_str())?);
        if there != Identity::of(&self.old.metadata()?) {
            return Err(io::Error::from(ErrorKind::AlreadyExists));
        }
        fs::rename(self.rt, self.beside.as_str(), self.path.as_str())?;
        self.is_renamed = true;
        Ok(())
    }

    fn sync_folder(&mut self) -> io::Result<()> {
        self.folder.sync_all()?;
        self.is_settled = true;
        Ok(())
    }
}
