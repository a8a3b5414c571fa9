// A directory of the file system as a store.
ghost use Rattle.std.specs.Prelude.{◌≡◌, ◌≤◌, length, None, IfOk};

use crate::fault::counted;
use bridge_io::{Fail, Name, NoMemory, Store};
use std::alloc::{AllocError, Global};
use std::fs::OpenOptions;
use std::io::{ErrorKind, Read, Seek, SeekFrom, Write};
use std::rt::Files;
use std::{fs, io};

/// The files under a directory as a store. It doesn't model their bytes.
///
/// A file's path is the directory's, `/` and the name, which has no `..` and isn't an absolute path. Symbolic links are
/// followed. The file that was read last stays open until another one is read, or it is read from its first byte again: so
/// all bytes come from the file that was opened, even if another one replaces it meanwhile. The file that was created or
/// appended to last stays open until another one is.
#[derive(Drop)]
pub struct FolderStore<R: Files> {
    pub(crate) files: R,
    pub(crate) alloc: Global,
    pub(crate) folder: String,
    /// What was read last.
    pub(crate) source: Option<OpenFile<R::File>>,
    /// What was created or appended to last.
    pub(crate) end: Option<OpenFile<R::File>>,
    /// The directory of the file that was created last, which exists.
    made: String,
    read_faults: u64,
    pub(crate) write_faults: u64,
}

/// An open file.
#[derive(Drop)]
pub(crate) struct OpenFile<F> {
    path: String,
    file: F,
}

impl<R: Files + Drop> FolderStore<R> {
    /// A store over a directory (`.` is the current one), with no error counted.
    pub fn new(files: R, alloc: Global, folder: &str) -> Result<FolderStore<R>, NoMemory>
        ensures read_faults { IfOk result (λ store. ⟦<FolderStore<R> as Store>⟧.read_faults store ≡ 0) }
        ensures write_faults { IfOk result (λ store. ⟦<FolderStore<R> as Store>⟧.write_faults store ≡ 0) }
    {
        Ok(FolderStore {
            files,
            alloc,
            folder: String::from_str(alloc, folder)?,
            source: None,
            end: None,
            made: String::new(alloc),
            read_faults: 0,
            write_faults: 0,
        })
    }
}

impl<R: Files> Store for FolderStore<R> {
    ghost files = { λ _. None };

    ghost read_faults = { λ s. s.read_faults };

    ghost write_faults = { λ s. s.write_faults };

    /// A directory, pipe or device isn't a file, and neither is a path below a file.
    fn has(&mut self, name: &Name) -> Result<bool, Fail> {
        let path = path_of(self.alloc, &self.folder, name)?;
        match is_file(&self.files, path.as_str()) {
            Ok(found) => Ok(found),
            Err(error) => Err(counted(&mut self.read_faults, error)),
        }
    }

    /// Makes one read. Returns no bytes where the path is a directory or doesn't exist.
    fn read_at(&mut self, name: &Name, at: u64, buf: &mut [u8]) -> Result<usize, Fail> {
        let path = path_of(self.alloc, &self.folder, name)?;
        match read_from(&self.files, &mut self.source, path, at, buf) {
            Ok(n) => Ok(n),
            Err(error) if is_absence(&error) || error.kind() == ErrorKind::IsADirectory => Ok(0),
            Err(error) => Err(counted(&mut self.read_faults, error)),
        }
    }

    /// Creates missing directories, too, except one that existed for the file before. Fails where the path is neither a
    /// file nor missing, as a pipe or a device.
    fn create(&mut self, name: &Name) -> Result<(), Fail> {
        let path = path_of(self.alloc, &self.folder, name)?;
        self.end = None;
        match create_empty(&self.files, &mut self.made, path.as_str()) {
            Ok(file) => self.end = Some(OpenFile { path, file }),
            Err(error) => return Err(counted(&mut self.write_faults, error)),
        }
        Ok(())
    }

    /// Writes until the whole piece is taken. Creates missing directories, as `create` does.
    fn append(&mut self, name: &Name, piece: &[u8]) -> Result<(), Fail> {
        let path = path_of(self.alloc, &self.folder, name)?;
        match append_to(&self.files, &mut self.end, &mut self.made, path, piece) {
            Ok(()) => Ok(()),
            Err(error) => Err(counted(&mut self.write_faults, error)),
        }
    }
}

pub(crate) fn path_of(alloc: Global, folder: &String, name: &Name) -> Result<String, AllocError> {
    let mut path = folder.clone()?;
    path.push('/')?;
    path.push_str(name.as_str())?;
    Ok(path)
}

/// Whether the error says that the path has no file.
fn is_absence(error: &io::Error) -> bool {
    matches!(error.kind(), ErrorKind::NotFound | ErrorKind::NotADirectory)
}

fn is_file<R: Files>(files: &R, path: &str) -> io::Result<bool> {
    match files.metadata(path) {
        Ok(metadata) => Ok(metadata.is_file()),
        Err(error) if is_absence(&error) => Ok(false),
        Err(error) => Err(error),
    }
}

/// Reads from a byte offset. Uses the open file where it is this one and the offset isn't 0.
fn read_from<R: Files>(
    files: &R,
    open: &mut Option<OpenFile<R::File>>,
    path: String,
    at: u64,
    buf: &mut [u8],
) -> io::Result<usize>
    ensures { IfOk result (λ n. n ≤ length buf.new) }
{
    let mut source = match open.take() {
        Some(source) if at > 0 && source.path == path => source,
        _ => OpenFile {
            file: fs::open(files, path.as_str())?,
            path,
        },
    };
    source.file.seek(SeekFrom::Start(at))?;
    let n = source.file.read(buf)?;
    *open = Some(source);
    Ok(n)
}

fn create_empty<R: Files>(files: &R, made: &mut String, path: &str) -> io::Result<R::File> {
    make_folders(files, made, path)?;
    check_kind(files, path)?;
    fs::create(files, path)
}

/// Whether the path is missing, a file or a directory: opening something else might block for ever.
fn check_kind<R: Files>(files: &R, path: &str) -> io::Result<()> {
    match files.metadata(path) {
        Ok(metadata) if !metadata.is_file() && !metadata.is_dir() => {
            Err(io::Error::from(ErrorKind::InvalidInput))
        }
        _ => Ok(()),
    }
}

/// Appends a piece to a file, which is open where it was created or appended to last. An error closes it.
fn append_to<R: Files>(
    files: &R,
    open: &mut Option<OpenFile<R::File>>,
    made: &mut String,
    path: String,
    piece: &[u8],
) -> io::Result<()> {
    let mut end = match open.take() {
        Some(end) if end.path == path => end,
        _ => OpenFile {
            file: end_of(files, made, path.as_str())?,
            path,
        },
    };
    end.file.write_all(piece)?;
    *open = Some(end);
    Ok(())
}

fn end_of<R: Files>(files: &R, made: &mut String, path: &str) -> io::Result<R::File> {
    make_folders(files, made, path)?;
    check_kind(files, path)?;
    OpenOptions::new()
        .append(true)
        .create(true)
        .open(files, path)
}

/// Creates a file's directory, unless it existed for the file before: one that was removed meanwhile isn't created
/// again.
fn make_folders<R: Files>(files: &R, made: &mut String, path: &str) -> io::Result<()> {
    let Some((folder, _)) = path.rsplit_once('/') else {
        return Ok(());
    };
    if made.as_str() == folder {
        return Ok(());
    }
    fs::create_dir_all(files, folder)?;
    made.clear();
    made.push_str(folder)?;
    Ok(())
}
