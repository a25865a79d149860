//! The folder of a real file system.
ghost use Rattle.std.specs.Prelude.{◌≡◌, ◌≤◌, ℕ, [], false, IfOk, ⊤};
ghost use Rattle.cf_base.specs.Count.{CountsOneFault, kept};
ghost use Rattle.reel_disk.specs.Disk.{IsWithin};
ghost use Rattle.reel_disk.specs.Folder.{folder_in};

use crate::lock::LockFiles;
use crate::made::{Calls, Note};
use crate::reel_files::{Lacks, ReelFiles};
use crate::{Did, Disk, Got, Length};
use cf_base::{FileId, PathText, Trouble};

/// The files of one folder of a real file system. It does not tell what they hold.
///
/// The folder is made at the first write, where it is not there, and never before; once something was written, a folder that
/// is not there any more is a fault, and none is made in its place. A file without a name, any answer of the system but "not
/// found", and a folder, a pipe, a link or another thing in a file's place are faults; such a thing isn't opened, and a link is
/// never followed. The folder itself may be a link.
///
/// Before the first write or sync the lock of `conform.body2` is taken, where that file is there, else as soon as it is made; it
/// is held for as long as the disk lives. Where another run has it, the call fails, and nothing is written. A write of the
/// contact sheet takes that file's lock, until it is synced, and not the other. Who only reads takes none.
///
/// A frame's file that has several names is removed and made anew, so that what stands under the others stays; a file of the
/// ledger with several names is a fault. A sync syncs the file, over the very handle that wrote it last, and then the folder,
/// where a file was made in it since; the first one that finds the folder there syncs the folder that it lies in, too, so that it
/// isn't lost by itself, whoever made it. A file that this process didn't write is written again, with its own bytes, before its
/// sync is believed: a system tells a failed write-back once, and perhaps to a run that is gone.
#[derive(Drop)]
pub struct FolderDisk<R: LockFiles + Drop> {
    files: ReelFiles<R>,
    faults: u64,
    calls: Calls,
    /// Why the first call failed that did.
    trouble: Option<Trouble>,
}

impl<R: LockFiles + Drop> FolderDisk<R> {
    /// A disk over this folder, relative to the current folder. It reads and makes nothing.
    pub fn new(rt: R, folder: PathText) -> FolderDisk<R>
        ensures folder { folder_in result ≡ folder }
        ensures faults { (⟦<FolderDisk<R> as Disk>⟧.state result).faults ≡ 0 }
        ensures calls { (⟦<FolderDisk<R> as Disk>⟧.state result).calls ≡ [] }
    {
        FolderDisk {
            files: ReelFiles::new(rt, folder),
            faults: 0,
            calls: Calls::new(),
            trouble: None,
        }
    }

    /// Why the first call failed that did; none, where all were done.
    pub fn trouble(&self) -> Option<Trouble> {
        self.trouble
    }

    /// What the file system doesn't do, as far as that came out.
    pub fn lacks(&self) -> Lacks {
        self.files.lacks()
    }

    /// Counts a fault, and keeps the cause of the first.
    fn fault(&mut self, trouble: Trouble)
        ensures calls { self.new.calls ≡ self.old.calls }
        ensures fault { CountsOneFault ⊤ self.old.faults self.new.faults }
    {
        self.faults = self.faults.saturating_add(1);
        self.trouble = self.trouble.or(Some(trouble));
    }

    /// Counts a fault where the length is not known, though a file may be there.
    fn measured(&mut self, outcome: Result<u64, Trouble>) -> Length
        ensures calls { self.new.calls ≡ self.old.calls }
        ensures fault { CountsOneFault (result ≡ Length.Failed) self.old.faults self.new.faults }
    {
        match outcome {
            Ok(len) => Length::There(len),
            Err(trouble) => {
                if trouble.is_absence() {
                    Length::Absent
                } else {
                    self.fault(trouble);
                    Length::Failed
                }
            }
        }
    }

    /// Counts a fault where nothing was read, though a file may be there.
    fn got(&mut self, outcome: Result<usize, Trouble>) -> Got
        ensures bound { (most : ℕ) → IfOk outcome (λ n. n ≤ most) → IsWithin most result }
        ensures calls { self.new.calls ≡ self.old.calls }
        ensures fault { CountsOneFault (result ≡ Got.Failed) self.old.faults self.new.faults }
    {
        match outcome {
            Ok(n) => Got::Bytes(n),
            Err(trouble) => {
                if trouble.is_absence() {
                    Got::Absent
                } else {
                    self.fault(trouble);
                    Got::Failed
                }
            }
        }
    }

    /// Counts a fault where the call wasn't done.
    fn done(&mut self, outcome: Result<(), Trouble>) -> Did
        ensures calls { self.new.calls ≡ self.old.calls }
        ensures fault { CountsOneFault (result ≡ Did.Failed) self.old.faults self.new.faults }
    {
        match outcome {
            Ok(()) => Did::Done,
            Err(trouble) => {
                self.fault(trouble);
                Did::Failed
            }
        }
    }
}

impl<R: LockFiles + Drop> Disk for FolderDisk<R> {
    ghost use Rattle.std.specs.Prelude.{false, None, []};
    ghost use Rattle.std.proofs.Common.{arith};

    ghost tells = { false };

    ghost state = { λ d. record {
      history = record { now = 0; past = λ m. record { view = λ id. None; loose = [] } };
      faults = kept d.faults;
      calls = d.calls.list;
      loans = [];
    } };

    ghost bounded = { λ _. Prim.omega arith };

    fn length(&mut self, id: FileId) -> Length {
        let measured = self.files.length(id);
        let length = self.measured(measured);
        self.calls = self.calls.then(&Note::Length(id, length));
        length
    }

    fn read(&mut self, id: FileId, start: u64, into: &mut [u8]) -> Got {
        let read = self.files.read_at(id, start, into);
        let got = self.got(read);
        self.calls = self.calls.then(&Note::Read(id, start, into, got));
        got
    }

    fn write_whole(&mut self, id: FileId, bytes: &[u8]) -> Did {
        let outcome = self.files.write_whole(id, bytes);
        let did = self.done(outcome);
        self.calls = self.calls.then(&Note::WriteWhole(id, bytes, did));
        did
    }

    fn write_at(&mut self, id: FileId, start: u64, bytes: &[u8]) -> Did {
        let outcome = self.files.write_at(id, start, bytes);
        let did = self.done(outcome);
        self.calls = self.calls.then(&Note::WriteAt(id, start, bytes, did));
        did
    }

    fn sync(&mut self, id: FileId) -> Did {
        let outcome = self.files.sync(id);
        let did = self.done(outcome);
        self.calls = self.calls.then(&Note::Sync(id, did));
        did
    }
}
