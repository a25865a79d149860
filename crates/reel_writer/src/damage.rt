//! A check of a reel's files against the ledger's records.
ghost use Rattle.std.specs.Prelude.{◌≡◌, ◌+◌, ◌<◌, true, length, List, Err, IfOk, OnOk, IsErr, MatchResult};
ghost use Rattle.reel_disk.specs.Call.{Call};
ghost use Rattle.reel_disk.specs.Disk.{view_of};
ghost use Rattle.conform_job.specs.Job.{file_of};
ghost use Rattle.resume_ledger.specs.Hash.{digest_of_file};
ghost use Rattle.reel_writer.specs.inside.Ahead.{AreRead, IsOnceSoFar};
ghost use Rattle.reel_disk.specs.State.{LeavesDisk, OnlyReads};
ghost use Rattle.reel_writer.specs.Reel.{frames_of};
ghost use Rattle.reel_writer.specs.Damage.{HasChecked, IsCheckFor, IsIntactWhereSound, IsRecorded, IsRecordedFile, ReadsReel};
ghost use Rattle.reel_writer.specs.Reads.{MakesOnly, ReadsOnce, WasHashed};
ghost use Rattle.reel_writer.specs.inside.Damage.{HasCheckedOne, IsCheckOneFor, ReadsFrame};

use crate::ahead::Ahead;
use crate::files::frame_len;
use cf_base::PIECE;
use conform_job::Job;
use frame_hash::Hasher;
use reel_disk::{Disk, DiskFault};
use resume_ledger::{LedgerView, digest_of_file};
use std::alloc::Global;

/// Why a check found no whole reel.
#[derive(Clone, Copy, Debug, PartialEq, Eq)]
pub enum CheckFault {
    /// The first frame, from 0, whose file has another SHA-256 than the ledger keeps of it: the
    /// record, and what was found.
    Damaged {
        frame: u32,
        kept: [u8; 32],
        found: [u8; 32],
    },
    /// The disk failed.
    DiskFault,
    /// No memory was left.
    NoMemory,
}

/// Reads the file of each frame that has a record, in order, and compares its SHA-256 (FIPS 180-4)
/// with the record. An absent file counts as no bytes. Answers how many frames have a record. It
/// only reads.
///
/// `Damaged` comes exactly at the first frame where the two differ. `DiskFault` comes only where the
/// disk's count of faults rose.
pub fn check<D: Disk, H: Hasher>(
    alloc: Global,
    disk: &mut D,
    job: &Job,
    view: &LedgerView,
    hasher: &H,
) -> Result<u32, CheckFault>
    requires can_hash { H.can_hash }
    requires size { length view.now.gates ≡ frames_of job.now }
    ensures answer { D.tells ≡ true
        → HasChecked job.now view.now (view_of (D.state disk.old).history) result }

    // Where the folder is sound, and the view is what it acknowledges, no frame is damaged.
    ensures intact { D.tells ≡ true
        → IsIntactWhereSound job.now view.now (view_of (D.state disk.old).history) }

    // It only reads: what the disk tells stays at every moment, and no write and no sync is made, whatever the answer is.
    ensures reads { OnlyReads D.tells (D.state disk.old) (D.state disk.new) }

    // The number of records, and which frame is damaged, are known over every disk.
    ensures known { IsCheckFor job.now view.now result }

    // Over every disk it reads the files of frames with a record alone, each once, and each digest is of what reads of that file gave.
    ensures read { ReadsReel job.now view.now result (D.state disk.old).calls (D.state disk.new).calls }
    ensures disk { LeavesDisk (result ≡ Err CheckFault.DiskFault) (D.state disk.old) (D.state disk.new) }
{
    let Ok(mut piece) = vec![in alloc; 0u8; PIECE] else {
        return Err(CheckFault::NoMemory);
    };
    let mut ahead = Ahead::new(
        alloc,
        hasher.rooms().min(view.acked() as usize),
        frame_len(job) as usize,
    );
    check_all(disk, job, view, hasher, &mut ahead, &mut piece)
}

/// Checks all frames.
fn check_all<D: Disk, H: Hasher>(
    disk: &mut D,
    job: &Job,
    view: &LedgerView,
    hasher: &H,
    ahead: &mut Ahead,
    piece: &mut [u8],
) -> Result<u32, CheckFault>
    requires can_hash { H.can_hash }
    requires size { length view.now.gates ≡ frames_of job.now }
    requires ahead { AreRead job.now D.tells (D.state disk.old) ahead.old.rooms.items }
    requires once { IsOnceSoFar job.now 0 ahead.old.next (D.state disk.old).calls (D.state disk.old).calls ahead.old.rooms.items }
    requires piece { length piece.old ≡ PIECE }
    ensures answer { D.tells ≡ true
        → HasChecked job.now view.now (view_of (D.state disk.old).history) result }
    ensures reads { OnlyReads D.tells (D.state disk.old) (D.state disk.new) }
    ensures known { IsCheckFor job.now view.now result }
    ensures read { ReadsReel job.now view.now result (D.state disk.old).calls (D.state disk.new).calls }
    ensures disk { LeavesDisk (result ≡ Err CheckFault.DiskFault) (D.state disk.old) (D.state disk.new) }
{
    let mut records = 0;
    for i in 0..job.count() {
        match check_one(disk, job, view, hasher, i, ahead, piece) {
            Ok(more) => records += more,
            Err(fault) => return Err(fault),
        }
    }
    Ok(records)
}

/// Checks a frame: whether it has a record, 1 or 0.
fn check_one<D: Disk, H: Hasher>(
    disk: &mut D,
    job: &Job,
    view: &LedgerView,
    hasher: &H,
    i: u32,
    ahead: &mut Ahead,
    piece: &mut [u8],
) -> Result<u32, CheckFault>
    requires can_hash { H.can_hash }
    requires size { length view.now.gates ≡ frames_of job.now }
    requires within { i < frames_of job.now }
    requires ahead { AreRead job.now D.tells (D.state disk.old) ahead.old.rooms.items }
    requires piece { length piece.old ≡ PIECE }
    ensures answer { D.tells ≡ true
        → HasCheckedOne job.now view.now (view_of (D.state disk.old).history) i result }
    ensures reads { OnlyReads D.tells (D.state disk.old) (D.state disk.new) }
    ensures known { IsCheckOneFor view.now i result }
    ensures read { ReadsFrame job.now view.now i result (D.state disk.old).calls (D.state disk.new).calls }
    ensures once { (before : List Call) → IsOnceSoFar job.now i ahead.old.next before (D.state disk.old).calls ahead.old.rooms.items
        → MatchResult result
        (λ _. IsOnceSoFar job.now (i + 1) ahead.new.next before (D.state disk.new).calls ahead.new.rooms.items)
        (λ _. ReadsOnce before (D.state disk.new).calls) }
    ensures ahead { OnOk result (AreRead job.now D.tells (D.state disk.new) ahead.new.rooms.items) }
    ensures disk { LeavesDisk (result ≡ Err CheckFault.DiskFault) (D.state disk.old) (D.state disk.new) }
{
    let Some(kept) = view.hash_of(i) else {
        return Ok(0);
    };
    let found = match digest_of(disk, job, view, hasher, i, ahead, piece) {
        Ok(found) => found,
        Err(DiskFault) => return Err(CheckFault::DiskFault),
    };
    if kept == found {
        Ok(1)
    } else {
        Err(CheckFault::Damaged {
            frame: i,
            kept,
            found,
        })
    }
}

/// The SHA-256 of the file of frame `i`. If it isn't read ahead, it is hashed piece by piece.
fn digest_of<D: Disk, H: Hasher>(
    disk: &mut D,
    job: &Job,
    view: &LedgerView,
    hasher: &H,
    i: u32,
    ahead: &mut Ahead,
    piece: &mut [u8],
) -> Result<[u8; 32], DiskFault>
    requires can_hash { H.can_hash }
    requires size { length view.now.gates ≡ frames_of job.now }
    requires recorded { IsRecorded job.now view.now i }
    requires ahead { AreRead job.now D.tells (D.state disk.old) ahead.old.rooms.items }
    requires piece { length piece.old ≡ PIECE }
    ensures digest { IfOk result (λ digest. D.tells ≡ true
        → digest ≡ digest_of_file (view_of (D.state disk.old).history (file_of job.now i))) }
    ensures hashed { IfOk result (λ digest. WasHashed (file_of job.now i) digest (D.state disk.new).calls) }
    ensures once { (before : List Call) → IsOnceSoFar job.now i ahead.old.next before (D.state disk.old).calls ahead.old.rooms.items
        → MatchResult result
        (λ _. IsOnceSoFar job.now (i + 1) ahead.new.next before (D.state disk.new).calls ahead.new.rooms.items)
        (λ _. ReadsOnce before (D.state disk.new).calls) }
    ensures reads { OnlyReads D.tells (D.state disk.old) (D.state disk.new) }
    ensures on { MakesOnly (IsRecordedFile job.now view.now) (D.state disk.old).calls (D.state disk.new).calls }
    ensures ahead { OnOk result (AreRead job.now D.tells (D.state disk.new) ahead.new.rooms.items) }
    ensures disk { LeavesDisk (IsErr result) (D.state disk.old) (D.state disk.new) }
{
    match ahead.digest_of(disk, job, view, hasher, i) {
        Ok(Some(digest)) => Ok(digest),
        Ok(None) => digest_of_file(disk, job.file_of(i), piece),
        Err(DiskFault) => Err(DiskFault),
    }
}
