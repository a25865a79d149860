//! The digest of a reel.
ghost use Rattle.std.specs.Prelude.{◌≡◌, ◌<◌, ℕ, Some, IsSome, IfOk, OnOk};
ghost use Rattle.conform_job.specs.Job.{file_of};
ghost use Rattle.scan_source.specs.World.{World};
ghost use Rattle.reel_disk.specs.Disk.{view_of};
ghost use Rattle.reel_disk.specs.MemoryDisk.{history_in};
ghost use Rattle.reel_writer.specs.Reel.{frames_of};
ghost use Rattle.demo.specs.inside.Whole.{IsReelDigest, IsWholeOn};

use cf_base::{Fail, FileId, Never};
use conform_job::Job;
use reel_disk::{Disk, Got, Length, MemoryDisk};
use sha2::{Digest, Sha256};
use std::alloc::Global;

/// SHA-256 (FIPS 180-4) of the files of a reel's frames, which are read back from the disk in record order.
pub(crate) fn digest_of(
    alloc: Global,
    job: &Job,
    disk: &mut MemoryDisk,
) -> Result<[u8; 32], Fail<Never>>
    requires there { (i : ℕ) → i < frames_of job.now → IsSome (view_of (history_in disk.old) (file_of job.now i)) }
    ensures { (world : World) → IsWholeOn disk.old job.now world → IfOk result (IsReelDigest job.now world) }
{
    let mut hasher = Sha256::new();
    let mut file = Vec::new(alloc);
    let count = job.count();
    for i in 0..count {
        read_file(disk, job.file_of(i), &mut file)?;
        hasher.update(file.as_slice());
    }
    Ok(hasher.finalize())
}

/// Reads a file that is there. What `into` had before is lost. A disk in memory of which no call fails by its number fails for
/// want of memory alone.
fn read_file(disk: &mut MemoryDisk, id: FileId, into: &mut Vec<u8>) -> Result<(), Fail<Never>>
    requires { IsSome (view_of (history_in disk.old) id) }
    ensures bytes { OnOk result (view_of (history_in disk.old) id ≡ Some into.new.items) }
    ensures view { view_of (history_in disk.new) ≡ view_of (history_in disk.old) }
{
    let len = match disk.length(id) {
        Length::There(len) => len as usize,
        Length::Absent => unreachable!(),
        Length::Failed => return Err(Fail::NoMemory),
    };
    let Ok(()) = into.resize(len, 0) else {
        return Err(Fail::NoMemory);
    };
    match disk.read(id, 0, into) {
        Got::Bytes(_) => Ok(()),
        Got::Absent => unreachable!(),
        Got::Failed => Err(Fail::NoMemory),
    }
}
