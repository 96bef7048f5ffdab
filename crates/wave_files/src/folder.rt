//! Files, by their names.
ghost use Rattle.std.specs.Prelude.{ℕ, List, ◌≡◌, IfOk, IfErr, OnOk, OnErr};
ghost use Rattle.std.specs.declared.option.Option.{Option};
ghost use Rattle.wave_files.specs.declared.folder.FileError.TheVariants.{OutOfMemory};
ghost use Rattle.wave_files.specs.Folders.{Holds, Keeps, Replaces, IsOfUnknown};

use std::alloc::{AllocError, Global};

/// Why a file is not read, or not replaced.
#[derive(Debug, Drop)]
pub enum FileError {
    /// There was no memory.
    OutOfMemory,
    /// The system refused it, for this reason.
    Failed(String),
}

impl From<AllocError> for FileError {
    ghost from_gives = { λ _ error. error ≡ OutOfMemory };

    fn from(_error: AllocError) -> FileError {
        FileError::OutOfMemory
    }
}

/// Files that are read, and replaced, by their names.
pub trait Folder {
    // what the file of this name holds, where that is known
    ghost holds: { Self → List ℕ → Option (List ℕ) };

    /// The bytes of the file.
    fn read(&mut self, alloc: Global, name: &str) -> Result<Vec<u8>, FileError>
        ensures bytes { IfOk result (λ bytes. Holds (holds self.old name.now) bytes.items) }
        ensures kept { Keeps (holds self.old) (holds self.new) }
        ensures unknown { IfErr result (IsOfUnknown (holds self.old name.now)) };

    /// Puts these bytes in place of those of the file; where that fails, the file is as it was.
    fn replace(&mut self, alloc: Global, name: &str, bytes: &[u8]) -> Result<(), FileError>
        ensures replaced { OnOk result (Replaces (holds self.old) (holds self.new) name.now bytes.now) }
        ensures kept { OnErr result (Keeps (holds self.old) (holds self.new)) }
        ensures unknown { IfErr result (IsOfUnknown (holds self.old name.now)) };
}
