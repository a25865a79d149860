//! The files of a reel folder as the system has them: which are open, which of them this process wrote, and the lock.
ghost use Rattle.std.specs.Prelude.{◌≡◌, ◌≤◌, length, IfOk};

use crate::lock::{LockFiles, Locked, is_unsupported, lock_file, other_run};
use crate::paths::{file_path, folder_path, parent_path};
use crate::plain::{
    Opened, is_read_only, is_several_names, make_new, open_to_change, open_to_read, read_from,
    still_there, sync_as_found, sync_folder, what_is_at, write_again, write_anew, write_over,
};
use cf_base::{FileId, FilePath, PathText, Tried, Trouble, is_same_file, told};
use std::fs::{self, OpenFile};
use std::io::{ErrorKind, Read, Seek, Write};

/// A file that is open to be written.
#[derive(Drop)]
struct OwnFile<F: Drop> {
    file: F,
    /// Whether all of its bytes were written by this process, and none of its syncs failed since.
    is_sure: bool,
}

/// What a file system doesn't do, and a run goes on without.
#[derive(Clone, Copy, Debug, Default, PartialEq, Eq)]
pub struct Lacks {
    /// It has no locks: a second run isn't kept out.
    pub locks: bool,
    /// It doesn't make sure of a folder's names.
    pub folder_syncs: bool,
}

/// Which names were made sure of.
#[derive(Clone, Copy, Default)]
struct Names {
    /// Those in the folder, as they are now.
    inside: bool,
    /// The folder's own.
    own: bool,
}

/// The files of one reel folder.
#[derive(Drop)]
pub(crate) struct ReelFiles<R: LockFiles + Drop> {
    rt: R,
    folder: PathText,
    /// The ledger's body, whose lock this run holds for as long as it is open. There is none where it wasn't there at the
    /// first write or sync, and wasn't made since.
    body: Option<OwnFile<R::File>>,
    /// Whether the body was looked for.
    has_entered: bool,
    /// The file other than the body that was written last, until it is synced.
    written: Option<(FileId, OwnFile<R::File>)>,
    /// The file that was read last.
    reader: Option<(FileId, R::File)>,
    /// Whether nobody can write there. Then there is no lock, and nothing is written again before a sync.
    is_read_only: bool,
    /// Whether the folder is the reel's: it had the body, or a file was written in it. It isn't made any more then.
    is_begun: bool,
    names: Names,
    lacks: Lacks,
}

/// Whether the file is the ledger's body, which has the lock.
fn is_body(id: FileId) -> bool {
    is_same_file(id, FileId::Body2)
}

/// Whether the file may be made anew, in place of one that has other names, too: it is never written but whole.
fn is_replaceable(id: FileId) -> bool {
    matches!(id, FileId::Frame { .. } | FileId::Sheet)
}

impl<R: LockFiles + Drop> ReelFiles<R> {
    /// The files of this folder, before the first call on them.
    pub(crate) fn new(rt: R, folder: PathText) -> ReelFiles<R>
        ensures { result.folder ≡ folder }
    {
        ReelFiles {
            rt,
            folder,
            body: None,
            has_entered: false,
            written: None,
            reader: None,
            is_read_only: false,
            is_begun: false,
            names: Names::default(),
            lacks: Lacks::default(),
        }
    }

    /// What the file system doesn't do, as far as that came out.
    pub(crate) fn lacks(&self) -> Lacks {
        self.lacks
    }

    /// The length of a file, which stays open to be read.
    pub(crate) fn length(&mut self, id: FileId) -> Result<u64, Trouble> {
        let path = file_path(&self.folder, id)?;
        let Opened { file, about } = open_to_read(&self.rt, &path)?;
        self.reader = Some((id, file));
        Ok(about.len())
    }

    /// Reads a file from byte `start` on: as its last look found it, where no other file was looked at or read since.
    pub(crate) fn read_at(
        &mut self,
        id: FileId,
        start: u64,
        into: &mut [u8],
    ) -> Result<usize, Trouble>
        ensures { IfOk result (λ n. n ≤ length into.old) }
    {
        let mut file = self.take_reader(id)?;
        let outcome = read_from(&mut file, start, into);
        self.reader = Some((id, file));
        match outcome {
            Ok(count) => Ok(count),
            Err(error) => Err(Trouble::of(&file_path(&self.folder, id)?, Tried::Read, error)),
        }
    }

    /// The file, open to be read: the one that was read last, where it is this.
    fn take_reader(&mut self, id: FileId) -> Result<R::File, Trouble> {
        match self.reader.take() {
            Some((other, file)) if is_same_file(other, id) => Ok(file),
            _ => {
                let path = file_path(&self.folder, id)?;
                let Opened { file, about: _ } = open_to_read(&self.rt, &path)?;
                Ok(file)
            }
        }
    }

    /// Gives a file these bytes and no others.
    pub(crate) fn write_whole(&mut self, id: FileId, bytes: &[u8]) -> Result<(), Trouble> {
        self.enter(id)?;
        self.forget_reader(id);
        if is_body(id) {
            self.write_body(bytes)
        } else {
            self.write_other(id, bytes)
        }
    }

    /// Writes over a part of a file that is there.
    pub(crate) fn write_at(&mut self, id: FileId, start: u64, bytes: &[u8]) -> Result<(), Trouble> {
        self.enter(id)?;
        let path = file_path(&self.folder, id)?;
        let mut own = self.take_written(id, &path)?;
        self.is_begun = true;
        let outcome = patch(&self.rt, &mut own.file, &path, start, bytes);
        self.put_written(id, own);
        outcome
    }

    /// Makes sure of a file, or of its absence: of its bytes, and of its name where that isn't done.
    pub(crate) fn sync(&mut self, id: FileId) -> Result<(), Trouble> {
        self.enter(id)?;
        self.sync_file(id)?;
        self.sync_names()
    }

    /// Takes the lock of the reel, where its body is there: before the first write or sync, so that what is read from then on is
    /// this run's alone. The contact sheet isn't the run's.
    fn enter(&mut self, id: FileId) -> Result<(), Trouble> {
        if self.has_entered || is_same_file(id, FileId::Sheet) {
            return Ok(());
        }
        let path = file_path(&self.folder, FileId::Body2)?;
        match open_to_change(&self.rt, &path) {
            Ok(file) => {
                self.lock(&file)?;
                self.is_begun = true;
                self.body = Some(OwnFile {
                    file,
                    is_sure: false,
                });
            }
            Err(trouble) if trouble.is_absence() => {}
            Err(trouble) if is_read_only(&trouble) => self.is_read_only = true,
            Err(trouble) => return Err(trouble),
        }
        self.has_entered = true;
        Ok(())
    }

    /// Takes the lock of an open file, or notes that there are none.
    fn lock(&mut self, file: &R::File) -> Result<(), Trouble> {
        match lock_file(&self.rt, file, &folder_path(&self.folder)?)? {
            Locked::Yes => {}
            Locked::Unsupported => self.lacks.locks = true,
        }
        Ok(())
    }

    /// Writes the whole body, and makes it where it wasn't there at the first write or sync.
    fn write_body(&mut self, bytes: &[u8]) -> Result<(), Trouble> {
        let path = file_path(&self.folder, FileId::Body2)?;
        let mut own = match self.body.take() {
            Some(own) => own,
            None => self.make_body(&path)?,
        };
        self.is_begun = true;
        let outcome = write_body(&self.rt, &mut own.file, &path, bytes);
        own.is_sure = outcome.is_ok();
        self.body = Some(own);
        outcome
    }

    /// Makes the body and takes its lock. Where it is there by now, another run made it.
    fn make_body(&mut self, path: &FilePath) -> Result<OwnFile<R::File>, Trouble> {
        match self.make(path) {
            Ok(file) => {
                self.lock(&file)?;
                Ok(OwnFile {
                    file,
                    is_sure: false,
                })
            }
            Err(trouble) if trouble.error().kind() == ErrorKind::AlreadyExists => {
                Err(self.kept_out())
            }
            Err(trouble) => Err(trouble),
        }
    }

    /// Writes a whole file other than the body.
    fn write_other(&mut self, id: FileId, bytes: &[u8]) -> Result<(), Trouble> {
        self.written = None;
        self.keep_folder()?;
        let path = file_path(&self.folder, id)?;
        let mut file = self.open_or_make(id, &path)?;
        if is_same_file(id, FileId::Sheet) {
            self.lock(&file)?;
        }
        self.is_begun = true;
        told(write_anew(&mut file, bytes), &path, Tried::Write)?;
        self.written = Some((
            id,
            OwnFile {
                file,
                is_sure: true,
            },
        ));
        Ok(())
    }

    /// That the folder is the one whose lock this run has, and no other in its place.
    fn keep_folder(&self) -> Result<(), Trouble> {
        match &self.body {
            Some(own) => {
                let path = file_path(&self.folder, FileId::Body2)?;
                still_there(&self.rt, &own.file, &path)
            }
            None => Ok(()),
        }
    }

    /// The file to be written whole: the one that is there, where it has no other name, else a new one.
    fn open_or_make(&mut self, id: FileId, path: &FilePath) -> Result<R::File, Trouble> {
        match open_to_change(&self.rt, path) {
            Ok(file) => Ok(file),
            Err(trouble) if trouble.is_absence() => self.make(path),
            Err(trouble) if is_several_names(&trouble) && is_replaceable(id) => {
                self.names.inside = false;
                told(
                    fs::remove_file(&self.rt, path.as_str()),
                    path,
                    Tried::Remove,
                )?;
                self.make(path)
            }
            Err(trouble) => Err(trouble),
        }
    }

    /// Makes a file, and before the first write its folder too, where that isn't there.
    fn make(&mut self, path: &FilePath) -> Result<R::File, Trouble> {
        self.names.inside = false;
        match make_new(&self.rt, path) {
            Ok(file) => Ok(file),
            Err(error) if error.kind() == ErrorKind::NotFound && !self.is_begun => {
                let folder = folder_path(&self.folder)?;
                told(
                    fs::create_dir(&self.rt, folder.as_str()),
                    &folder,
                    Tried::Make,
                )?;
                told(make_new(&self.rt, path), path, Tried::Make)
            }
            Err(error) => Err(Trouble::of(path, Tried::Make, error)),
        }
    }

    /// The file, open to be written: the body, or the one that was written last, where it is this.
    fn take_written(&mut self, id: FileId, path: &FilePath) -> Result<OwnFile<R::File>, Trouble> {
        if is_body(id) {
            return match self.body.take() {
                Some(own) => Ok(own),
                None => Err(self.no_body(path)),
            };
        }
        match self.written.take() {
            Some((other, own)) if is_same_file(other, id) => Ok(own),
            _ => {
                let file = open_to_change(&self.rt, path)?;
                Ok(OwnFile {
                    file,
                    is_sure: false,
                })
            }
        }
    }

    /// Why the body isn't this run's: it isn't there, or another run made it after this one found none.
    fn no_body(&self, path: &FilePath) -> Trouble {
        match what_is_at(&self.rt, path) {
            Ok(_) => self.kept_out(),
            Err(trouble) => trouble,
        }
    }

    /// Another run is at work in the folder.
    fn kept_out(&self) -> Trouble {
        match folder_path(&self.folder) {
            Ok(folder) => other_run(&folder),
            Err(trouble) => trouble,
        }
    }

    /// Keeps a file that was written open.
    fn put_written(&mut self, id: FileId, own: OwnFile<R::File>) {
        if is_body(id) {
            self.body = Some(own);
        } else {
            self.written = Some((id, own));
        }
    }

    /// Makes sure of a file's bytes, where it is there. One that this process didn't write is written again before, unless nobody
    /// can write there.
    fn sync_file(&mut self, id: FileId) -> Result<(), Trouble> {
        let path = file_path(&self.folder, id)?;
        if self.is_read_only {
            return sync_as_found(&self.rt, &path);
        }
        let mut own = match self.take_written(id, &path) {
            Ok(own) => own,
            Err(trouble) if trouble.is_absence() => return Ok(()),
            Err(trouble) => return Err(trouble),
        };
        let outcome = make_sure(&mut own, &path);
        if is_body(id) {
            self.body = Some(own);
        }
        outcome
    }

    /// Makes sure of the names in the folder, where one was made since that was done, and once of the folder's own.
    fn sync_names(&mut self) -> Result<(), Trouble> {
        if !self.names.inside {
            let folder = folder_path(&self.folder)?;
            match self.sync_folder(&folder) {
                Ok(()) => self.names.inside = true,
                Err(trouble) if trouble.is_absence() && !self.is_begun => return Ok(()),
                Err(trouble) => return Err(trouble),
            }
        }
        if !self.names.own {
            let parent = parent_path(&self.folder)?;
            self.sync_folder(&parent)?;
            self.names.own = true;
        }
        Ok(())
    }

    /// Makes sure of a folder's names, or notes that the file system doesn't do that.
    fn sync_folder(&mut self, path: &FilePath) -> Result<(), Trouble> {
        match sync_folder(&self.rt, path) {
            Err(trouble)
                if trouble.tried() == Some(Tried::Sync) && is_unsupported(&trouble.error()) => {
                self.lacks.folder_syncs = true;
                Ok(())
            }
            outcome => outcome,
        }
    }

    /// Closes the file that was read last, where it is this one.
    fn forget_reader(&mut self, id: FileId) {
        match self.reader.take() {
            Some((other, file)) if !is_same_file(other, id) => self.reader = Some((other, file)),
            _ => {}
        }
    }
}

/// Writes over a part of the file at this path.
fn patch<R: LockFiles>(
    rt: &R,
    file: &mut R::File,
    path: &FilePath,
    start: u64,
    bytes: &[u8],
) -> Result<(), Trouble> {
    still_there(rt, file, path)?;
    told(write_over(file, start, bytes), path, Tried::Write)
}

/// Gives the body at this path these bytes and no others.
fn write_body<R: LockFiles>(
    rt: &R,
    file: &mut R::File,
    path: &FilePath,
    bytes: &[u8],
) -> Result<(), Trouble> {
    still_there(rt, file, path)?;
    told(write_anew(file, bytes), path, Tried::Write)
}

/// Makes sure of a file's bytes, and writes them again before where this process didn't write them all, or a sync of them failed.
fn make_sure<F: Read + Write + Seek + OpenFile + Drop>(
    own: &mut OwnFile<F>,
    path: &FilePath,
) -> Result<(), Trouble> {
    if !own.is_sure {
        told(write_again(&mut own.file), path, Tried::Write)?;
    }
    own.is_sure = false;
    told(own.file.sync_all(), path, Tried::Sync)?;
    own.is_sure = true;
    Ok(())
}
