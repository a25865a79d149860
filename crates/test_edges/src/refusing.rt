//! The system's files, of which some calls are refused: a lock, and a sync at one path.
use reel_disk::LockFiles;
use std::alloc::Allocator;
use std::fs::{File, FileTimes, Metadata, OpenFile, OpenOptions, Permissions, TryLockError};
use std::io::{self, Read, Seek, SeekFrom, Write};
use std::rt::Files;

/// What a system answers that is asked for a lock.
#[derive(Clone, Copy)]
pub enum Lock {
    /// What the system says.
    Real,
    /// Another open of the file has it.
    Held,
    /// An error with this number.
    Error(i32),
}

/// What a run syncs.
#[derive(Clone, Copy)]
pub enum Synced {
    /// The reel folder.
    Folder,
    /// The ledger's body.
    Body,
}

impl Synced {
    /// The end of its path.
    fn end(self) -> &'static str {
        match self {
            Synced::Folder => "_lacks",
            Synced::Body => "body2",
        }
    }
}

/// The system, but for what is refused.
#[derive(Drop)]
pub struct Refusing {
    pub rt: HostRuntime,
    pub lock: Lock,
    /// What can't be synced, and the number of the error.
    pub sync: Option<(Synced, i32)>,
}

/// An open file, and the number of the error that a sync of it answers, where it does.
#[derive(Drop)]
pub struct Refused {
    file: File,
    sync: Option<i32>,
}

impl Refused {
    /// What a sync answers.
    fn may_sync(&self) -> io::Result<()> {
        match self.sync {
            Some(code) => Err(io::Error::from_raw_os_error(code)),
            None => Ok(()),
        }
    }
}

impl Read for Refused {
    fn read(&mut self, buf: &mut [u8]) -> io::Result<usize> {
        self.file.read(buf)
    }
}

impl Write for Refused {
    fn write(&mut self, buf: &[u8]) -> io::Result<usize> {
        self.file.write(buf)
    }

    fn flush(&mut self) -> io::Result<()> {
        self.file.flush()
    }
}

impl Seek for Refused {
    fn seek(&mut self, to: SeekFrom) -> io::Result<u64> {
        self.file.seek(to)
    }
}

impl OpenFile for Refused {
    fn metadata(&self) -> io::Result<Metadata> {
        self.file.metadata()
    }

    fn set_len(&self, size: u64) -> io::Result<()> {
        self.file.set_len(size)
    }

    fn sync_all(&self) -> io::Result<()> {
        self.may_sync()?;
        self.file.sync_all()
    }

    fn sync_data(&self) -> io::Result<()> {
        self.may_sync()?;
        self.file.sync_data()
    }

    fn set_permissions(&self, perm: Permissions) -> io::Result<()> {
        self.file.set_permissions(perm)
    }

    fn set_times(&self, times: FileTimes) -> io::Result<()> {
        self.file.set_times(times)
    }
}

impl Files for Refusing {
    type File = Refused;

    type Dir = <HostRuntime as Files>::Dir;

    fn open_file(&self, how: &OpenOptions, path: &str) -> io::Result<Refused> {
        let file = self.rt.open_file(how, path)?;
        let sync = match self.sync {
            Some((synced, code)) if path.ends_with(synced.end()) => Some(code),
            _ => None,
        };
        Ok(Refused { file, sync })
    }

    fn open_dir(&self, path: &str) -> io::Result<Self::Dir> {
        self.rt.open_dir(path)
    }

    fn metadata(&self, path: &str) -> io::Result<Metadata> {
        self.rt.metadata(path)
    }

    fn symlink_metadata(&self, path: &str) -> io::Result<Metadata> {
        self.rt.symlink_metadata(path)
    }

    fn copy(&self, from: &str, to: &str) -> io::Result<u64> {
        self.rt.copy(from, to)
    }

    fn rename(&self, from: &str, to: &str) -> io::Result<()> {
        self.rt.rename(from, to)
    }

    fn remove_file(&self, path: &str) -> io::Result<()> {
        self.rt.remove_file(path)
    }

    fn create_dir(&self, path: &str) -> io::Result<()> {
        self.rt.create_dir(path)
    }

    fn remove_dir(&self, path: &str) -> io::Result<()> {
        self.rt.remove_dir(path)
    }

    fn remove_dir_all<B: Allocator>(&self, alloc: B, path: &str) -> io::Result<()> {
        self.rt.remove_dir_all(alloc, path)
    }
}

impl LockFiles for Refusing {
    fn try_lock(&self, file: &Refused) -> Result<(), TryLockError> {
        match self.lock {
            Lock::Real => self.rt.try_lock(&file.file),
            Lock::Held => Err(TryLockError::WouldBlock),
            Lock::Error(code) => Err(TryLockError::Error(io::Error::from_raw_os_error(code))),
        }
    }
}
