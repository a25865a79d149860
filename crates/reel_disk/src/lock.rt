//! The lock that keeps a second run out of a reel folder.
use cf_base::{FilePath, Tried, Trouble};
use std::fs::{File, TryLockError};
use std::io::{self, ErrorKind};
use std::rt::{Files, LibcRuntime};

/// The files of a system, and locks on those that are open. A stand-in for tests can refuse one.
pub trait LockFiles: Files {
    /// Takes the lock of an open file, which no other open of the file gets from then on, and never waits for it. The lock is
    /// held until the file is closed, also where the process is killed.
    fn try_lock(&self, file: &Self::File) -> Result<(), TryLockError>;
}

impl LockFiles for LibcRuntime {
    fn try_lock(&self, file: &File) -> Result<(), TryLockError> {
        file.try_lock()
    }
}

/// Whether a lock was taken.
#[derive(Clone, Copy, Debug, PartialEq, Eq)]
pub(crate) enum Locked {
    /// It was.
    Yes,
    /// The file system has no locks.
    Unsupported,
}

/// The system's number for a file system whose locks aren't served, as NFS without its lock daemon.
const NO_LOCKS: i32 = 37;

/// Whether a file system doesn't know what was asked of it. Then the call didn't fail.
pub(crate) fn is_unsupported(error: &io::Error) -> bool {
    matches!(
        error.kind(),
        ErrorKind::Unsupported | ErrorKind::InvalidInput
    ) || error.raw_os_error() == Some(NO_LOCKS)
}

/// Takes the lock of an open file. It fails where another open of the file has it.
pub(crate) fn lock_file<R: LockFiles>(
    rt: &R,
    file: &R::File,
    path: &FilePath,
) -> Result<Locked, Trouble> {
    match rt.try_lock(file) {
        Ok(()) => Ok(Locked::Yes),
        Err(TryLockError::WouldBlock) => Err(other_run(path)),
        Err(TryLockError::Error(error)) if is_unsupported(&error) => Ok(Locked::Unsupported),
        Err(TryLockError::Error(error)) => Err(Trouble::of(path, Tried::Lock, error)),
    }
}

/// Another run has the lock, or made the file after this one found none.
pub(crate) fn other_run(path: &FilePath) -> Trouble {
    Trouble::refusal(
        path,
        ErrorKind::ResourceBusy,
        "another run is at work there",
    )
}
