//! Why a directory makes no workspace.

use bq_label::PathErr;
use std::alloc::{AllocError, AllocFailed};
use std::io;
use thiserror::Error;

/// Why a directory makes no workspace.
#[derive(Clone, Copy, Debug, PartialEq, Eq, Error)]
pub enum DirectoryErr {
    /// Memory was refused.
    #[error("out of memory")]
    Memory,
    /// A directory or a file could not be read, or a name is not UTF-8.
    #[error("the directory could not be read")]
    Read,
    /// There are more files than a workspace may have.
    #[error("there are more files than a workspace may have")]
    TooManyFiles,
    /// The files have more bytes than a workspace may have, or `.bazelignore` has more than it may.
    #[error("the files have more bytes than a workspace may have")]
    TooManyBytes,
    /// There are more directories than are read.
    #[error("there are more directories than are read")]
    TooManyDirectories,
}

impl From<AllocError> for DirectoryErr {
    fn from(_: AllocError) -> Self {
        DirectoryErr::Memory
    }
}

impl<T: Drop> From<AllocFailed<T>> for DirectoryErr {
    fn from(_: AllocFailed<T>) -> Self {
        DirectoryErr::Memory
    }
}

impl From<io::Error> for DirectoryErr {
    fn from(error: io::Error) -> Self {
        match error.kind() {
            io::ErrorKind::OutOfMemory => DirectoryErr::Memory,
            _ => DirectoryErr::Read,
        }
    }
}

/// Valid paths that are there once, with no file where a directory of another is, as a disk has them, can only be too
/// many.
impl From<PathErr> for DirectoryErr {
    fn from(_: PathErr) -> Self {
        DirectoryErr::TooManyFiles
    }
}
