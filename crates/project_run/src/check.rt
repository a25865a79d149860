//! The command `verify`.
ghost use Rattle.std.specs.Prelude.{◌≡◌, ◌≢◌, true, length, Err, IfOk, MatchResult};
ghost use Rattle.reel_disk.specs.Disk.{view_of};
ghost use Rattle.reel_writer.specs.Reel.{frames_of};
ghost use Rattle.resume_ledger.specs.Look.{IsViewOf};
ghost use Rattle.project_run.specs.Calls.{LeavesDiskFor, LeavesScanFor, Replies, OverScan};
ghost use Rattle.reel_disk.specs.State.{LeavesDisk, OnlyReads, OnDisk};
ghost use Rattle.project_run.specs.Verify.{IsChecked, IsOfVerify, IsVerified, IsVerifyReply, outcome_of_check, verify_text};

use crate::progress::outcome_of_fault;
use crate::report::put_count;
use cf_base::PathText;
use conform_job::Job;
use frame_hash::Hasher;
use outcome::Outcome;
use project_job::planned;
use reel_disk::Disk;
use reel_writer::{CheckFault, check};
use resume_ledger::{Ledger, LedgerView};
use scan_source::Scans;
use std::alloc::{AllocError, Global};

/// How many frames the reel of the project at a path has, how many of them the reel folder acknowledges, and of how many the
/// file was found to have the SHA-256 that the ledger keeps, or the outcome that was reached. The folder is looked at alone:
/// no call but a length and a read is made on it, and none at all where the project is refused.
///
/// `Damaged` comes exactly where the file of an acknowledged frame has another SHA-256 than its record, an absent file as no
/// bytes: it is the first such frame. A folder of version 1 has no records. `OtherJob`, `BadLedger` and `DiskFault` come as
/// they do for `status`.
pub fn verify<S: Scans, D: Disk, H: Hasher>(
    alloc: Global,
    path: &PathText,
    scan: &mut S,
    disk: &mut D,
    hasher: &H,
) -> Result<Vec<u8>, Outcome>
    requires can_hash { H.can_hash }
    ensures folder { Replies result (OnDisk D.tells (D.state disk.old) (D.state disk.new)
        (OverScan (S.state scan.old) (S.state scan.new) (IsVerifyReply path.now))) }
    ensures kind { MatchResult result (λ text. Unit {0}) IsOfVerify }

    ensures scan { LeavesScanFor path.now result (S.state scan.old) (S.state scan.new) }
    ensures disk { LeavesDiskFor D.state result disk.old disk.new }
{
    let job = match planned(alloc, path, scan) {
        Ok(job) => job,
        Err(outcome) => return Err(outcome),
    };
    let reply = verified(alloc, &job, disk, hasher);
    // By a call, as in a run.
    drop(job);
    reply
}

/// What the ledger of a job's reel has, and whether the files are those of its records, or the outcome that was reached.
fn verified<D: Disk, H: Hasher>(
    alloc: Global,
    job: &Job,
    disk: &mut D,
    hasher: &H,
) -> Result<Vec<u8>, Outcome>
    requires can_hash { H.can_hash }
    ensures verified { Replies result (OnDisk D.tells (D.state disk.old) (D.state disk.new) (IsVerified job.now)) }
    ensures kind { MatchResult result (λ text. Unit {0}) IsOfVerify }
    ensures never { result ≢ Err Outcome.SourceFault }

    ensures disk { LeavesDisk (result ≡ Err Outcome.DiskFault) (D.state disk.old) (D.state disk.new) }
{
    match Ledger::look(alloc, disk, job.digest(), job.timeline().count()) {
        Ok(view) => {
            let reply = checked(alloc, job, &view, disk, hasher);
            drop(view);
            reply
        }
        Err(fault) => Err(outcome_of_fault(fault)),
    }
}

/// Whether the files of a job's reel are those of the records, or the outcome that was reached.
fn checked<D: Disk, H: Hasher>(
    alloc: Global,
    job: &Job,
    view: &LedgerView,
    disk: &mut D,
    hasher: &H,
) -> Result<Vec<u8>, Outcome>
    requires can_hash { H.can_hash }
    requires size { length view.now.gates ≡ frames_of job.now }
    requires view { D.tells ≡ true → IsViewOf job.now.parts.digest (frames_of job.now) (view_of (D.state disk.old).history) view.now }
    ensures checked { Replies result (OnDisk D.tells (D.state disk.old) (D.state disk.new)
        (λ was is. IsChecked job.now view.now was.calls was is)) }
    ensures reads { OnlyReads D.tells (D.state disk.old) (D.state disk.new) }
    ensures kind { MatchResult result (λ text. Unit {0}) IsOfVerify }
    ensures never { result ≢ Err Outcome.SourceFault }

    ensures disk { LeavesDisk (result ≡ Err Outcome.DiskFault) (D.state disk.old) (D.state disk.new) }
{
    match check(alloc, disk, job, view, hasher) {
        Ok(records) => {
            match verify_text(alloc, job.timeline().count(), view.acked(), records) {
                Ok(text) => Ok(text),
                Err(_) => Err(Outcome::NoMemory),
            }
        }
        Err(fault) => Err(outcome_of_check(fault)),
    }
}

/// The outcome of a check that found no whole reel.
fn outcome_of_check(fault: CheckFault) -> Outcome
    ensures { result ≡ outcome_of_check (Err fault) }
{
    match fault {
        CheckFault::Damaged { frame, kept, found } => Outcome::Damaged { frame, kept, found },
        CheckFault::DiskFault => Outcome::DiskFault,
        CheckFault::NoMemory => Outcome::NoMemory,
    }
}

/// The frames of the reel, those that the folder acknowledges, and those whose files were compared with their records.
fn verify_text(alloc: Global, frames: u32, acked: u32, verified: u32) -> Result<Vec<u8>, AllocError>
    ensures { IfOk result (λ text. text.items ≡ verify_text frames acked verified) }
{
    let mut text = Vec::new(alloc);
    put_count(&mut text, b"frames", frames)?;
    put_count(&mut text, b"acknowledged", acked)?;
    put_count(&mut text, b"verified", verified)?;
    Ok(text)
}
