//! A disk as the layers above see it: what a read answers, what a crash may still change, and each moment so far.
ghost use Rattle.std.specs.Prelude.{◌≡◌, Bool, true, ◌∷◌, length};
ghost use Rattle.cf_base.specs.Count.{CountsOneFault, IsKept};
ghost use Rattle.reel_disk.specs.Call.{Measured, Read, Wrote, Patched, Synced};
ghost use Rattle.reel_disk.specs.Disk.{view_of, HasLength, HasRead, IsStill, IsWithin, HasWrittenWhole, HasWrittenAt, HasSynced, IsInFile};
ghost use Rattle.reel_disk.specs.State.{DiskState, lent_by};

use cf_base::FileId;
use std::alloc::AllocError;

/// A part of the folder that a crash may still change.
#[derive(Clone, Copy, Debug, PartialEq, Eq)]
pub enum Place {
    /// The whole file: a crash may leave any bytes of any length there, or no file.
    Whole(FileId),
    /// `len` bytes of the file, from byte `start` on: a crash may leave any bytes there.
    Range { id: FileId, start: u64, len: u64 },
}

/// The disk failed.
#[derive(Clone, Copy, Debug, PartialEq, Eq)]
pub struct DiskFault;

/// Why what was to be made of a disk's files isn't there.
#[derive(Clone, Copy, Debug, PartialEq, Eq)]
pub enum DiskFail {
    /// The disk failed, which it counts.
    DiskFault,
    /// Memory ran out.
    NoMemory,
}

impl From<AllocError> for DiskFail {
    ghost use Rattle.std.specs.Prelude.{◌≡◌};
    ghost use Rattle.reel_disk.specs.declared.disk.DiskFail.TheVariants.{NoMemory};

    ghost from_gives = { λ _ fail. fail ≡ NoMemory };

    fn from(_error: AllocError) -> DiskFail {
        DiskFail::NoMemory
    }
}

/// How long a file is.
#[derive(Clone, Copy, Debug, PartialEq, Eq)]
pub enum Length {
    /// The file is there, and has that many bytes.
    There(u64),
    /// No such file is there.
    Absent,
    /// The disk failed.
    Failed,
}

/// What a read gave.
#[derive(Clone, Copy, Debug, PartialEq, Eq)]
pub enum Got {
    /// That many bytes were read.
    Bytes(usize),
    /// No such file is there.
    Absent,
    /// The disk failed: what was read is not known.
    Failed,
}

/// How a write or a sync ended.
#[derive(Clone, Copy, Debug, PartialEq, Eq)]
pub enum Did {
    /// It was done.
    Done,
    /// The disk failed.
    Failed,
}

/// The files of one reel folder, which a crash may catch at any moment.
///
/// A write leaves its place loose: until a sync of that file a crash may change it. Each call may fail, and says so by
/// its count of faults, which rises by one in a call that fails, and in no other. A disk need not be `Drop`: who takes
/// one hands it back.
pub trait Disk {
    /// Whether disks of this type tell what they hold.
    ghost tells: { Bool };

    /// Its moments until now, how often it has failed, the calls that were made on it, and how it is lent. The moments count
    /// where `tells` is true.
    ghost state: { Self → DiskState };

    /// The length of a file in bytes. `Absent` exactly where the view has no such file and the call did not fail.
    fn length(&mut self, id: FileId) -> Length
        ensures answer { tells ≡ true → HasLength (view_of (state self.old).history id) result }
        ensures time { tells ≡ true → IsStill (state self.old).history (state self.new).history }
        ensures same { (state self.new).loans ≡ (state self.old).loans }
        ensures call { (state self.new).calls ≡ Measured id result ∷ (state self.old).calls }
        ensures fault { CountsOneFault (result ≡ Length.Failed) (state self.old).faults (state self.new).faults };

    /// Reads a file from byte `start` on, as much as it has there and `into` takes: `Bytes(n)` says how many bytes.
    /// `Absent` exactly where the view has no such file and the call did not fail.
    fn read(&mut self, id: FileId, start: u64, into: &mut [u8]) -> Got
        ensures bound { IsWithin (length into.old) result }
        ensures answer { tells ≡ true → HasRead (view_of (state self.old).history id) start into.new result }
        ensures time { tells ≡ true → IsStill (state self.old).history (state self.new).history }
        ensures same { (state self.new).loans ≡ (state self.old).loans }
        ensures call { (state self.new).calls ≡ Read id start into.new result ∷ (state self.old).calls }
        ensures fault { CountsOneFault (result ≡ Got.Failed) (state self.old).faults (state self.new).faults };

    /// Gives a file these bytes and no others. Until a sync of the file, a crash may leave anything there.
    fn write_whole(&mut self, id: FileId, bytes: &[u8]) -> Did
        ensures told { tells ≡ true → HasWrittenWhole (state self.old).history (state self.new).history id bytes.now result }
        ensures same { (state self.new).loans ≡ (state self.old).loans }
        ensures call { (state self.new).calls ≡ Wrote id bytes.now result ∷ (state self.old).calls }
        ensures fault { CountsOneFault (result ≡ Did.Failed) (state self.old).faults (state self.new).faults };

    /// Writes over a part of a file that is there, from byte `start` on. Until a sync of the file, a crash may leave any
    /// bytes in this part.
    fn write_at(&mut self, id: FileId, start: u64, bytes: &[u8]) -> Did
        requires { tells ≡ true → IsInFile (view_of (state self.old).history id) start (length bytes.now) }
        ensures told { tells ≡ true → HasWrittenAt (state self.old).history (state self.new).history id start bytes.now result }
        ensures same { (state self.new).loans ≡ (state self.old).loans }
        ensures call { (state self.new).calls ≡ Patched id start bytes.now result ∷ (state self.old).calls }
        ensures fault { CountsOneFault (result ≡ Did.Failed) (state self.old).faults (state self.new).faults };

    /// After it a crash leaves the file, or its absence, as a read answers it.
    fn sync(&mut self, id: FileId) -> Did
        ensures told { tells ≡ true → HasSynced (state self.old).history (state self.new).history id result }
        ensures same { (state self.new).loans ≡ (state self.old).loans }
        ensures call { (state self.new).calls ≡ Synced id result ∷ (state self.old).calls }
        ensures fault { CountsOneFault (result ≡ Did.Failed) (state self.old).faults (state self.new).faults };

    /// The count is never past 2^64 - 1.
    ghost bounded: { (d : Self) → IsKept (state d).faults };
}

/// A disk that is lent: the calls of the lender are those of the disk.
impl<D: Disk> Disk for &mut D {
    ghost tells = { D.tells };

    ghost state = { λ d. lent_by (record { name = d.ghost_name; place = d.ref_ptr }) (D.state d.now) };

    ghost bounded = { λ d. D.bounded d.now };

    fn length(&mut self, id: FileId) -> Length {
        Disk::length(&mut **self, id)
    }

    fn read(&mut self, id: FileId, start: u64, into: &mut [u8]) -> Got {
        Disk::read(&mut **self, id, start, into)
    }

    fn write_whole(&mut self, id: FileId, bytes: &[u8]) -> Did {
        Disk::write_whole(&mut **self, id, bytes)
    }

    fn write_at(&mut self, id: FileId, start: u64, bytes: &[u8]) -> Did {
        Disk::write_at(&mut **self, id, start, bytes)
    }

    fn sync(&mut self, id: FileId) -> Did {
        Disk::sync(&mut **self, id)
    }
}
