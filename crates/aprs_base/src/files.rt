//! Files, from which the configuration is read.
ghost use Rattle.aprs_base.specs.Stores.{AfterRead, FilesShown};

use crate::texts::Text;
use std::alloc::{AllocError, AllocFailed};

/// Why a file wasn't read.
#[derive(Clone, Copy, PartialEq, Eq, Debug)]
pub enum FileError {
    Failed,
    /// It has more bytes than the limit.
    Big,
    Memory,
}

impl From<AllocError> for FileError {
    ghost use Rattle.std.specs.Prelude.{◌≡◌};
    ghost use Rattle.aprs_base.specs.declared.files.FileError.TheVariants.{Memory};

    ghost from_gives = { λ _ e. e ≡ Memory };

    fn from(_error: AllocError) -> FileError {
        FileError::Memory
    }
}

impl<T: Drop> From<AllocFailed<T>> for FileError {
    ghost use Rattle.std.specs.Prelude.{◌≡◌};
    ghost use Rattle.aprs_base.specs.declared.files.FileError.TheVariants.{Memory};

    ghost from_gives = { λ _ e. e ≡ Memory };

    fn from(_failed: AllocFailed<T>) -> FileError {
        FileError::Memory
    }
}

/// Files by their names. Two counts tell of reads: of those that were made, and of those that failed. Each is one more after such a
/// read and the same after any other, and stays at the greatest u64.
pub trait Files {
    ghost shown: { Self → FilesShown };

    /// Appends the file's whole bytes to `out`. `Big` exactly where it has more than `limit`; `Failed` counts. Where the answer
    /// isn't Ok, `out` stays as it was.
    fn read(&mut self, name: &str, limit: usize, out: &mut Vec<u8>) -> Result<(), FileError>
        ensures { AfterRead (shown self.old) (shown self.new) name.now limit out.old.items out.new.items result };
}

/// A file, by its name and its bytes.
#[derive(Drop)]
pub struct MemFile {
    pub name: Text,
    pub bytes: Text,
}
