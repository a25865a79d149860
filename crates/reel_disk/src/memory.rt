//! A disk in memory, whose calls fail by number.
ghost use Rattle.std.specs.Prelude.{◌≡◌, ◌↔◌, ◌∷◌, true, false, length, IfOk, ⊤};
ghost use Rattle.cf_base.specs.Count.{CountsOneFault};
ghost use Rattle.cf_base.specs.declared.file.FileId.{FileId};
ghost use Rattle.reel_disk.specs.Call.{Measured, Read, Wrote, Patched, Synced};
ghost use Rattle.reel_disk.specs.Crash.{IsCrash};
ghost use Rattle.reel_disk.specs.Disk.{view_of, moment_of, HasLength, HasRead, IsStill, IsWithin, HasWrittenWhole, HasWrittenAt, HasSynced, IsInFile, IsImage, IsNewDisk};
ghost use Rattle.reel_disk.specs.Memory.{find_file};
ghost use Rattle.reel_disk.specs.MemoryDisk.{history_in, faults_in, made_in, script_in, calls_in, no_fault, fails_at, is_stopped, next_call, IsNextCall};

use crate::crash::files_left;
use crate::made::{Calls, Note};
use crate::store::{Store, bytes_of, copy_from, length_of, loosen, settle, write_file, write_part};
use crate::{Did, Disk, Got, Length, Place};
use cf_base::{Fail, FileId, Never};
use std::alloc::Global;
use std::collections::BTreeMap;

/// A disk in memory. It tells what it holds, and keeps a record of all that it held since it was made.
///
/// Its calls are numbered from 1, and those that are to fail are named when it is made. A failed call leaves what a read
/// answers as it was. A write that fails by its number leaves its place loose, unless the record of it finds no memory. A
/// write or a sync that finds no memory fails too.
pub struct MemoryDisk {
    alloc: Global,
    store: Store,
    calls: u64,
    made: Calls,
    fails: Vec<u64>,
    stop: Option<u64>,
    faults: u64,
}

/// Written out, so that a function that lets a disk go has one step for it; the derived one has a step for each part.
impl Drop for MemoryDisk {
    fn drop(self) {
        let MemoryDisk {
            alloc: _,
            store: _,
            calls: _,
            made: _,
            fails: _,
            stop: _,
            faults: _,
        } = self;
    }
}

fn with_files(
    alloc: Global,
    files: BTreeMap<FileId, Vec<u8>>,
    fails: Vec<u64>,
    stop: Option<u64>,
) -> MemoryDisk
    ensures disk { IsNewDisk (find_file files) (history_in result) (faults_in result) }
    ensures calls { calls_in result ≡ 0 }
    ensures script { script_in result ≡ record { calls = fails.items; stop = stop } }
{
    MemoryDisk {
        alloc,
        store: Store {
            files,
            loose: Vec::new(alloc),
            steps: Vec::new(alloc),
        },
        calls: 0,
        made: Calls::new(),
        fails,
        stop,
        faults: 0,
    }
}

fn has_stopped(stop: Option<u64>, call: u64) -> bool
    ensures { result ≡ is_stopped stop call }
{
    match stop {
        Some(stop) => stop <= call,
        None => false,
    }
}

impl MemoryDisk {
    ghost use Rattle.std.specs.Prelude.{None, [], Some};

    /// An empty disk, of which no call fails by its number.
    pub fn new(alloc: Global) -> Result<MemoryDisk, Fail<Never>>
        ensures disk { IfOk result (λ disk. IsNewDisk (λ id. None) (history_in disk) (faults_in disk)) }
        ensures calls { IfOk result (λ disk. calls_in disk ≡ 0) }
        ensures script { IfOk result (λ disk. script_in disk ≡ no_fault) }
    {
        Ok(with_files(alloc, BTreeMap::new(alloc), Vec::new(alloc), None))
    }

    /// An empty disk whose calls with these numbers, from 1, fail.
    pub fn failing(alloc: Global, calls: Vec<u64>) -> Result<MemoryDisk, Fail<Never>>
        ensures disk { IfOk result (λ disk. IsNewDisk (λ id. None) (history_in disk) (faults_in disk)) }
        ensures calls { IfOk result (λ disk. calls_in disk ≡ 0) }
        ensures script { IfOk result (λ disk. script_in disk ≡ record { calls = calls.items; stop = None }) }
    {
        Ok(with_files(alloc, BTreeMap::new(alloc), calls, None))
    }

    /// An empty disk whose call of that number, counted from 1, and all later calls fail.
    pub fn stopped_at(alloc: Global, call: u64) -> Result<MemoryDisk, Fail<Never>>
        ensures disk { IfOk result (λ disk. IsNewDisk (λ id. None) (history_in disk) (faults_in disk)) }
        ensures calls { IfOk result (λ disk. calls_in disk ≡ 0) }
        ensures script { IfOk result (λ disk. script_in disk ≡ record { calls = []; stop = Some call }) }
    {
        Ok(with_files(alloc, BTreeMap::new(alloc), Vec::new(alloc), Some(call)))
    }

    /// What a crash leaves now, as a new disk of which no call fails by its number. Pick 0 leaves what a read answers;
    /// pick 1 goes back to before the loose places were loose, without the files that are loose as a whole; any other
    /// pick cuts these to half their length, rounded down, and turns each loose byte of a range over, to 255 minus its
    /// value.
    pub fn crash(&self, pick: u8) -> Result<MemoryDisk, Fail<Never>>
        ensures picked { IfOk result (λ disk. IsCrash pick (history_in self.now) (view_of (history_in disk))) }
        ensures image { IfOk result (λ disk. IsImage (moment_of (history_in self.now)) (view_of (history_in disk))) }
        ensures disk { IfOk result (λ disk. IsNewDisk (view_of (history_in disk)) (history_in disk) (faults_in disk)) }
        ensures calls { IfOk result (λ disk. calls_in disk ≡ 0) }
        ensures script { IfOk result (λ disk. script_in disk ≡ no_fault) }
    {
        match files_left(self.alloc, &self.store, pick) {
            Ok(files) => Ok(with_files(self.alloc, files, Vec::new(self.alloc), None)),
            Err(_) => Err(Fail::NoMemory),
        }
    }

    /// Counts a call. It says whether the call fails by its number.
    fn begins(&mut self) -> bool
        ensures fails { result ≡ fails_at (script_in self.old) (next_call self.old) }
        ensures next { IsNextCall self.old self.new }
        ensures store { self.new.store ≡ self.old.store }
        ensures made { self.new.made ≡ self.old.made }
        ensures fault { CountsOneFault (result ≡ true) self.old.faults self.new.faults }
    {
        self.calls = self.calls.saturating_add(1);
        let fails = self.fails.contains(&self.calls) || has_stopped(self.stop, self.calls);
        if fails {
            self.fault();
        }
        fails
    }

    fn fault(&mut self)
        ensures store { self.new.store ≡ self.old.store }
        ensures made { self.new.made ≡ self.old.made }
        ensures calls { self.new.calls ≡ self.old.calls }
        ensures script { script_in self.new ≡ script_in self.old }
        ensures fault { CountsOneFault ⊤ self.old.faults self.new.faults }
    {
        self.faults = self.faults.saturating_add(1);
    }
}

impl Disk for MemoryDisk {
    ghost use Rattle.std.specs.Prelude.{true};
    ghost use Rattle.reel_disk.specs.MemoryDisk.{history_in, faults_in, state_in};
    ghost use Rattle.std.proofs.Common.{arith};

    ghost tells = { true };

    ghost state = { state_in };

    ghost bounded = { λ _. Prim.omega arith };

    fn length(&mut self, id: FileId) -> Length
        ensures answer { HasLength (view_of (history_in self.old) id) result }
        ensures time { IsStill (history_in self.old) (history_in self.new) }
        ensures call { made_in self.new ≡ Measured id result ∷ made_in self.old }
        ensures fault { CountsOneFault (result ≡ Length.Failed) (faults_in self.old) (faults_in self.new) }
        ensures next { IsNextCall self.old self.new }
        ensures fails { (result ≡ Length.Failed) ↔ (fails_at (script_in self.old) (next_call self.old) ≡ true) }
    {
        if self.begins() {
            self.made = self.made.then(&Note::Length(id, Length::Failed));
            return Length::Failed;
        }
        let answer = match length_of(&self.store, id) {
            Some(n) => Length::There(n),
            None => Length::Absent,
        };
        self.made = self.made.then(&Note::Length(id, answer));
        answer
    }

    fn read(&mut self, id: FileId, start: u64, into: &mut [u8]) -> Got
        ensures bound { IsWithin (length into.old) result }
        ensures answer { HasRead (view_of (history_in self.old) id) start into.new result }
        ensures time { IsStill (history_in self.old) (history_in self.new) }
        ensures call { made_in self.new ≡ Read id start into.new result ∷ made_in self.old }
        ensures fault { CountsOneFault (result ≡ Got.Failed) (faults_in self.old) (faults_in self.new) }
        ensures next { IsNextCall self.old self.new }
        ensures fails { (result ≡ Got.Failed) ↔ (fails_at (script_in self.old) (next_call self.old) ≡ true) }
    {
        if self.begins() {
            self.made = self.made.then(&Note::Read(id, start, into, Got::Failed));
            return Got::Failed;
        }
        let answer = match bytes_of(&self.store, id) {
            Some(bytes) => Got::Bytes(copy_from(bytes, start, into)),
            None => Got::Absent,
        };
        self.made = self.made.then(&Note::Read(id, start, into, answer));
        answer
    }

    fn write_whole(&mut self, id: FileId, bytes: &[u8]) -> Did
        ensures told { HasWrittenWhole (history_in self.old) (history_in self.new) id bytes.now result }
        ensures call { made_in self.new ≡ Wrote id bytes.now result ∷ made_in self.old }
        ensures fault { CountsOneFault (result ≡ Did.Failed) (faults_in self.old) (faults_in self.new) }
        ensures next { IsNextCall self.old self.new }
        ensures fails { fails_at (script_in self.old) (next_call self.old) ≡ true → result ≡ Did.Failed }
        ensures kept { result ≡ Did.Failed → (q : FileId) → view_of (history_in self.new) q ≡ view_of (history_in self.old) q }
    {
        if self.begins() {
            loosen(&mut self.store, Place::Whole(id));
            self.made = self.made.then(&Note::WriteWhole(id, bytes, Did::Failed));
            return Did::Failed;
        }
        match write_file(self.alloc, &mut self.store, id, bytes) {
            Ok(()) => {
                self.made = self.made.then(&Note::WriteWhole(id, bytes, Did::Done));
                Did::Done
            }
            Err(_) => {
                self.fault();
                self.made = self.made.then(&Note::WriteWhole(id, bytes, Did::Failed));
                Did::Failed
            }
        }
    }

    fn write_at(&mut self, id: FileId, start: u64, bytes: &[u8]) -> Did
        requires { IsInFile (view_of (history_in self.old) id) start (length bytes.now) }
        ensures told { HasWrittenAt (history_in self.old) (history_in self.new) id start bytes.now result }
        ensures call { made_in self.new ≡ Patched id start bytes.now result ∷ made_in self.old }
        ensures fault { CountsOneFault (result ≡ Did.Failed) (faults_in self.old) (faults_in self.new) }
        ensures next { IsNextCall self.old self.new }
        ensures fails { fails_at (script_in self.old) (next_call self.old) ≡ true → result ≡ Did.Failed }
        ensures kept { result ≡ Did.Failed → (q : FileId) → view_of (history_in self.new) q ≡ view_of (history_in self.old) q }
    {
        if self.begins() {
            let len = bytes.len() as u64;
            loosen(&mut self.store, Place::Range { id, start, len });
            self.made = self
                .made
                .then(&Note::WriteAt(id, start, bytes, Did::Failed));
            return Did::Failed;
        }
        match write_part(self.alloc, &mut self.store, id, start, bytes) {
            Ok(()) => {
                self.made = self.made.then(&Note::WriteAt(id, start, bytes, Did::Done));
                Did::Done
            }
            Err(_) => {
                self.fault();
                self.made = self
                    .made
                    .then(&Note::WriteAt(id, start, bytes, Did::Failed));
                Did::Failed
            }
        }
    }

    fn sync(&mut self, id: FileId) -> Did
        ensures told { HasSynced (history_in self.old) (history_in self.new) id result }
        ensures call { made_in self.new ≡ Synced id result ∷ made_in self.old }
        ensures fault { CountsOneFault (result ≡ Did.Failed) (faults_in self.old) (faults_in self.new) }
        ensures next { IsNextCall self.old self.new }
        ensures fails { fails_at (script_in self.old) (next_call self.old) ≡ true → result ≡ Did.Failed }
        ensures kept { result ≡ Did.Failed → IsStill (history_in self.old) (history_in self.new) }
    {
        if self.begins() {
            self.made = self.made.then(&Note::Sync(id, Did::Failed));
            return Did::Failed;
        }
        match settle(self.alloc, &mut self.store, id) {
            Ok(()) => {
                self.made = self.made.then(&Note::Sync(id, Did::Done));
                Did::Done
            }
            Err(_) => {
                self.fault();
                self.made = self.made.then(&Note::Sync(id, Did::Failed));
                Did::Failed
            }
        }
    }
}
