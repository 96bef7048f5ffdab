//! The files of the system.
ghost use Rattle.std.specs.Prelude.{None};

use crate::folder::{FileError, Folder};
use std::alloc::Global;
use std::fs::{File, Files, OpenFile, Permissions};
use std::io::{ErrorKind, Read, Write};
use std::{fs, io};

/// The files of the system; `-` is the input.
#[derive(Drop)]
pub struct Disk<R, I> {
    runtime: R,
    input: I,
}

impl<R: Files, I: Read> Disk<R, I> {
    /// The files of the runtime, and this input.
    pub fn new(runtime: R, input: I) -> Disk<R, I> {
        Disk { runtime, input }
    }
}

impl<R: Files, I: Read> Folder for Disk<R, I> {
    ghost holds = { λ _ _. None };

    fn read(&mut self, alloc: Global, name: &str) -> Result<Vec<u8>, FileError> {
        let bytes = if name == "-" {
            read_whole(alloc, &mut self.input)
        } else {
            read_file(alloc, &self.runtime, name)
        };
        match bytes {
            Ok(bytes) => Ok(bytes),
            Err(error) => Err(file_error(alloc, &error)),
        }
    }

    fn replace(&mut self, alloc: Global, name: &str, bytes: &[u8]) -> Result<(), FileError> {
        match replace_file(alloc, &self.runtime, name, bytes) {
            Ok(()) => Ok(()),
            Err(error) => Err(file_error(alloc, &error)),
        }
    }
}

/// The bytes up to the reader's end.
fn read_whole<I: Read>(alloc: Global, input: &mut I) -> io::Result<Vec<u8>> {
    let mut bytes = Vec::new(alloc);
    input.read_to_end(&mut bytes)?;
    Ok(bytes)
}

/// The bytes of the file.
fn read_file<R: Files>(alloc: Global, runtime: &R, name: &str) -> io::Result<Vec<u8>> {
    read_whole(alloc, &mut File::open(runtime, name)?)
}

/// Writes the bytes to a new file beside the one of this name, and renames that over it. A symbolic link is
/// followed; the new file has the permissions of the old one.
fn replace_file<R: Files>(alloc: Global, runtime: &R, name: &str, bytes: &[u8]) -> io::Result<()> {
    let path = runtime.canonicalize(alloc, name)?.into_string();
    let metadata = runtime.metadata(path.as_str())?;
    if !metadata.is_file() {
        return Err(io::Error::from(ErrorKind::InvalidInput));
    }
    let beside = format!(in alloc; "{path}.wave-new")?;
    let mut file = File::create_new(runtime, beside.as_str())?;
    let written = write_new(&mut file, bytes, metadata.permissions());
    drop(file);
    let replaced = match written {
        Ok(()) => fs::rename(runtime, beside.as_str(), path.as_str()),
        Err(error) => Err(error),
    };
    if replaced.is_err() {
        drop(fs::remove_file(runtime, beside.as_str()));
    }
    replaced
}

/// Gives the new file these permissions and bytes, and waits until the system has stored them.
fn write_new<F: Write + OpenFile>(
    file: &mut F,
    bytes: &[u8],
    permissions: Permissions,
) -> io::Result<()> {
    file.set_permissions(permissions)?;
    file.write_all(bytes)?;
    file.sync_all()
}

/// What the system said.
fn file_error(alloc: Global, error: &io::Error) -> FileError {
    if error.kind() == ErrorKind::OutOfMemory {
        return FileError::OutOfMemory;
    }
    match error.to_string(alloc) {
        Ok(reason) => FileError::Failed(reason),
        Err(_) => FileError::OutOfMemory,
    }
}
