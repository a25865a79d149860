//! Taking over frames of an old reel.
ghost use Rattle.std.specs.Prelude.{◌≡◌, true, false, length, IfOk, IfSome, IfErr, IsErrOf};
ghost use Rattle.reel_disk.specs.Disk.{view_of};
ghost use Rattle.reel_disk.specs.State.{OnlyReads};
ghost use Rattle.resume_ledger.specs.Ledger.{IsInForce};
ghost use Rattle.reel_writer.specs.Reel.{frames_of};
ghost use Rattle.reconform.specs.Adopt.{CanServe, HasAnswered, IsOfOld, IsSafeAdoption, LeavesBoth};
ghost use Rattle.reconform.specs.Taken.{TakesOnly, TakesOver};
ghost use Rattle.reconform.specs.inside.Adopt.{AsOpenedFor, by_new, by_old};
ghost use Rattle.reconform.specs.inside.Parts.{IsPart, WasLookedAt};

use crate::whole::adopt_alike;
use conform_job::{Job, Work};
use frame_hash::Hasher;
use reel_disk::Disk;
use reel_writer::Reel;
use resume_ledger::{Ledger, LedgerView, OpenFault, Version};
use std::alloc::Global;

/// How many frames of the new reel were acknowledged before, and how many were taken over.
#[derive(Clone, Copy, Debug, PartialEq, Eq)]
pub struct Adopted {
    pub kept: u32,
    pub adopted: u32,
}

/// Why an adoption didn't come to its end.
#[derive(Clone, Copy, Debug, PartialEq, Eq)]
pub enum AdoptFault {
    /// 20.1 of the old folder: its ledger is another job's. The digest there, and the old job's.
    OldOtherJob { kept: [u8; 32], wanted: [u8; 32] },
    /// 20.2 of the old folder: its ledger is bad. The length of its body in bytes.
    OldBadLedger { len: u64 },
    /// 20.1 of the new folder: the digest there, and the new job's.
    OtherJob { kept: [u8; 32], wanted: [u8; 32] },
    /// 20.2 of the new folder.
    BadLedger { len: u64 },
    /// One of the two disks failed.
    DiskFault,
    /// No memory was left.
    NoMemory,
}

/// Takes over frames of the old job's reel, in the folder `old`, into the new job's, in the folder `disk`: each frame that the
/// new folder doesn't acknowledge, and whose donor is intact, gets its own header over the donor's pixels, and is finished. No
/// source file is read, and `old` is only read.
///
/// The donor of a frame is the least frame of the old job that the old folder acknowledges and whose plan is equal, where the
/// two jobs are alike: of one size, one black and one cube path. It is intact where its file has the length of a frame's and,
/// where the old folder keeps its SHA-256, that digest.
///
/// `OldOtherJob` and `OldBadLedger` come exactly where 20.1 and 20.2 hold of `old`, and the new folder isn't touched then;
/// after them `OtherJob` and `BadLedger` exactly where they hold of `disk`, and nothing is written there then. `DiskFault` comes
/// only where the count of faults of one of the two disks rose, and `NoMemory` for want of memory alone.
pub fn adopt<N: Work, O: Work, D: Disk, H: Hasher>(
    alloc: Global,
    new_job: &Job,
    old_job: &Job,
    old: &mut D,
    disk: &mut D,
    hasher: &H,
) -> Result<Adopted, AdoptFault>
    requires can_hash { H.can_hash }
    requires new_job { new_job.now ≡ N.job }
    requires old_job { old_job.now ≡ O.job }
    requires one_world { O.files ≡ N.files }
    requires can_serve { IfSome N.files (λ world. CanServe N.job O.job world D.tells (view_of (D.state old.old).history)) }

    // At Ok, which frames are acknowledged now, and how many were before; else why, the old folder first.
    ensures answer { HasAnswered N.job O.job D.tells (D.state old.old).history (D.state old.new).history
        (D.state disk.old).history (D.state disk.new).history result }
    ensures untouched { IfErr result (λ fault. IsOfOld fault → disk.new ≡ disk.old) }

    // A crash at any moment leaves only frames acknowledged that are the reel's. No acknowledgement is lost, where each frame
    // that version 1 of the ledger acknowledged at the start had a file of a frame's length, as sound files have. In the new
    // folder no file is changed but the ledger's and those of frames that the opening didn't keep. Of the ledger's those of
    // version 2 alone are written. Over every disk no file is written but a run's, and none where a folder is refused.
    ensures safe { IsSafeAdoption N.job N.files D.tells result (D.state disk.old) (D.state disk.new) }

    // At Ok the new folder is sealed by version 2, so the next opening keeps each frame that it acknowledges.
    ensures sealed { IfOk result (λ done. D.tells ≡ true → IsInForce Version.Two (view_of (D.state disk.new).history)) }

    // What the old folder holds stays as it is, at every moment and whatever the answer is.
    ensures reads { OnlyReads D.tells (D.state old.old) (D.state old.new) }

    // Over every disk, of the old folder it looks at the ledger and then reads files of donors alone. Each frame's file that it writes
    // is the frame's header before the pixels of its donor's file, as a read gave it.
    ensures taken { TakesOver N.job O.job (D.state old.old).calls (D.state old.new).calls
        (D.state disk.old).calls (D.state disk.new).calls }

    // Both disks are lent as they were. The count of one of them rose where a disk failed, and else both stay.
    ensures disks { LeavesBoth (IsErrOf result AdoptFault.DiskFault) (D.state old.old) (D.state old.new) (D.state disk.old)
        (D.state disk.new) }
{
    let (result, _) = adopt_into::<N, O, D, _, H>(alloc, new_job, old_job, old, &mut *disk, hasher);
    result
}

/// An adoption that hands the new disk back.
fn adopt_into<N: Work, O: Work, D: Disk, E: Disk, H: Hasher>(
    alloc: Global,
    new_job: &Job,
    old_job: &Job,
    old: &mut D,
    disk: E,
    hasher: &H,
) -> (Result<Adopted, AdoptFault>, E)
    requires can_hash { H.can_hash }
    requires new_job { new_job.now ≡ N.job }
    requires old_job { old_job.now ≡ O.job }
    requires can_serve { IfSome N.files (λ world. CanServe N.job O.job world D.tells (view_of (D.state old.old).history)) }
    requires tells { D.tells ≡ E.tells }
    ensures answer { HasAnswered N.job O.job E.tells (D.state old.old).history (D.state old.new).history
        (E.state disk).history (E.state result.1).history result.0 }
    ensures untouched { IfErr result.0 (λ fault. IsOfOld fault → result.1 ≡ disk) }
    ensures safe { IsSafeAdoption N.job N.files E.tells result.0 (E.state disk) (E.state result.1) }
    ensures sealed { IfOk result.0 (λ done. E.tells ≡ true → IsInForce Version.Two (view_of (E.state result.1).history)) }
    ensures taken { TakesOver N.job O.job (D.state old.old).calls (D.state old.new).calls (E.state disk).calls (E.state result.1).calls }
    ensures reads { OnlyReads D.tells (D.state old.old) (D.state old.new) }
    ensures disks { LeavesBoth (IsErrOf result.0 AdoptFault.DiskFault) (D.state old.old) (D.state old.new) (E.state disk)
        (E.state result.1) }
{
    new_job.recall();
    match Ledger::look(alloc, old, old_job.digest(), old_job.timeline().count()) {
        Ok(view) => adopt_owned::<N, O, D, E, H>(alloc, new_job, old_job, old, &view, disk, hasher),
        Err(fault) => (Err(of_old(fault)), disk),
    }
}

/// An adoption that hands the new disk back; the old folder was looked at.
fn adopt_owned<N: Work, O: Work, D: Disk, E: Disk, H: Hasher>(
    alloc: Global,
    new_job: &Job,
    old_job: &Job,
    old: &mut D,
    view: &LedgerView,
    disk: E,
    hasher: &H,
) -> (Result<Adopted, AdoptFault>, E)
    requires can_hash { H.can_hash }
    requires new_job { new_job.now ≡ N.job }
    requires old_job { old_job.now ≡ O.job }
    requires tells { D.tells ≡ E.tells }
    requires looked { WasLookedAt N.job O.job N.files D.tells (view_of (D.state old.old).history) view.now }
    ensures answer { HasAnswered N.job O.job E.tells (D.state old.old).history (D.state old.new).history
        (E.state disk).history (E.state result.1).history result.0 }
    ensures not_old { IfErr result.0 (λ fault. IsOfOld fault → ⊥) }
    ensures safe { IsSafeAdoption N.job N.files E.tells result.0 (E.state disk) (E.state result.1) }
    ensures sealed { IfOk result.0 (λ done. E.tells ≡ true → IsInForce Version.Two (view_of (E.state result.1).history)) }
    ensures taken { TakesOnly N.job O.job view.now (D.state old.old).calls (D.state old.new).calls
        (E.state disk).calls (E.state result.1).calls }
    ensures reads { OnlyReads D.tells (D.state old.old) (D.state old.new) }
    ensures disks { LeavesBoth (IsErrOf result.0 AdoptFault.DiskFault) (D.state old.old) (D.state old.new) (E.state disk)
        (E.state result.1) }
{
    match Reel::<E, N>::begin(alloc, disk, new_job) {
        Ok(reel) => adopt_opened::<N, O, D, E, H>(alloc, new_job, old_job, old, view, reel, hasher),
        Err((fault, disk)) => (Err(of_new(fault)), disk),
    }
}

/// What keeps the old folder from being looked at.
fn of_old(fault: OpenFault) -> AdoptFault
    ensures { result ≡ by_old fault }
{
    match fault {
        OpenFault::OtherJob { kept, wanted } => AdoptFault::OldOtherJob { kept, wanted },
        OpenFault::BadLedger { len } => AdoptFault::OldBadLedger { len },
        OpenFault::DiskFault => AdoptFault::DiskFault,
        OpenFault::NoMemory => AdoptFault::NoMemory,
    }
}

/// What keeps the new folder from being opened.
fn of_new(fault: OpenFault) -> AdoptFault
    ensures { result ≡ by_new fault }
{
    match fault {
        OpenFault::OtherJob { kept, wanted } => AdoptFault::OtherJob { kept, wanted },
        OpenFault::BadLedger { len } => AdoptFault::BadLedger { len },
        OpenFault::DiskFault => AdoptFault::DiskFault,
        OpenFault::NoMemory => AdoptFault::NoMemory,
    }
}

/// An adoption into a folder that was opened; it hands the disk back.
fn adopt_opened<N: Work, O: Work, D: Disk, E: Disk, H: Hasher>(
    alloc: Global,
    new_job: &Job,
    old_job: &Job,
    old: &mut D,
    view: &LedgerView,
    reel: Reel<E, N>,
    hasher: &H,
) -> (Result<Adopted, AdoptFault>, E)
    requires can_hash { H.can_hash }
    requires new_job { new_job.now ≡ N.job }
    requires old_job { old_job.now ≡ O.job }
    requires looked { WasLookedAt N.job O.job N.files D.tells (view_of (D.state old.old).history) view.now }
    requires is_open { reel.ledger.closed ≡ false }
    requires size { length reel.ledger.gates ≡ frames_of N.job }
    ensures answer { AsOpenedFor N.job O.job D.tells view.now (D.state old.old).history E.tells E.state reel result }
    ensures part { IsPart N.job N.files E.tells reel.ledger.gates (E.state reel.disk) (E.state result.1) }
    ensures sealed { IfOk result.0 (λ done. E.tells ≡ true → IsInForce Version.Two (view_of (E.state result.1).history)) }
    ensures taken { TakesOnly N.job O.job view.now (D.state old.old).calls (D.state old.new).calls
        (E.state reel.disk).calls (E.state result.1).calls }
    ensures reads { OnlyReads D.tells (D.state old.old) (D.state old.new) }
    ensures disks { LeavesBoth (IsErrOf result.0 AdoptFault.DiskFault)
        (D.state old.old) (D.state old.new) (E.state reel.disk) (E.state result.1) }
{
    let mut reel = reel;
    match adopt_alike::<N, O, D, E, H>(alloc, new_job, old_job, old, view, &mut reel, hasher) {
        Ok(()) => {
            let kept = reel.kept();
            let adopted = reel.acks().len() as u32;
            (Ok(Adopted { kept, adopted }), reel.close())
        }
        Err(fault) => (Err(fault), reel.close()),
    }
}
