//! The command `status`.
ghost use Rattle.std.specs.Prelude.{◌≡◌, ◌≢◌, Err, IfOk, MatchResult};
ghost use Rattle.project_run.specs.Look.{IsOfLook, outcome_of_fault};
ghost use Rattle.project_run.specs.Calls.{LeavesDiskFor, LeavesScanFor, Replies, OverScan};
ghost use Rattle.reel_disk.specs.State.{LeavesDisk, OnDisk};
ghost use Rattle.project_run.specs.Status.{IsStatus, IsStatusReply, status_text};

use crate::report::put_count;
use cf_base::PathText;
use conform_job::Job;
use outcome::Outcome;
use project_job::planned;
use reel_disk::Disk;
use resume_ledger::{Ledger, OpenFault};
use scan_source::Scans;
use std::alloc::{AllocError, Global};

/// How many frames the reel of the project at a path has, and how many of them the reel folder acknowledges, or the outcome
/// that was reached. The folder is looked at alone: no call but a length and a read is made on it, and none at all where the
/// project is refused.
///
/// `OtherJob`, `BadLedger` and `DiskFault` come as they do for a run.
pub fn status<S: Scans, D: Disk>(
    alloc: Global,
    path: &PathText,
    scan: &mut S,
    disk: &mut D,
) -> Result<Vec<u8>, Outcome>
    ensures folder { Replies result (OnDisk D.tells (D.state disk.old) (D.state disk.new)
        (OverScan (S.state scan.old) (S.state scan.new) (IsStatusReply path.now))) }
    ensures kind { MatchResult result (λ text. Unit {0}) IsOfLook }

    ensures scan { LeavesScanFor path.now result (S.state scan.old) (S.state scan.new) }
    ensures disk { LeavesDiskFor D.state result disk.old disk.new }
{
    let job = match planned(alloc, path, scan) {
        Ok(job) => job,
        Err(outcome) => return Err(outcome),
    };
    let reply = status_of(alloc, &job, disk);
    // By a call, as in a run.
    drop(job);
    reply
}

/// How many frames of a job the reel folder acknowledges, or the outcome that was reached.
fn status_of<D: Disk>(alloc: Global, job: &Job, disk: &mut D) -> Result<Vec<u8>, Outcome>
    ensures status { Replies result (OnDisk D.tells (D.state disk.old) (D.state disk.new) (IsStatus job.now)) }
    ensures kind { MatchResult result (λ text. Unit {0}) IsOfLook }
    ensures never { result ≢ Err Outcome.SourceFault }

    ensures disk { LeavesDisk (result ≡ Err Outcome.DiskFault) (D.state disk.old) (D.state disk.new) }
{
    let count = job.timeline().count();
    match Ledger::peek(alloc, disk, job.digest(), count) {
        Ok(acked) => match status_text(alloc, count, acked) {
            Ok(text) => Ok(text),
            Err(_) => Err(Outcome::NoMemory),
        },
        Err(fault) => Err(outcome_of_fault(fault)),
    }
}

/// The outcome of a ledger that can't be had.
pub(crate) fn outcome_of_fault(fault: OpenFault) -> Outcome
    ensures { result ≡ outcome_of_fault fault }
{
    match fault {
        OpenFault::OtherJob { kept, wanted } => Outcome::OtherJob { kept, wanted },
        OpenFault::BadLedger { len } => Outcome::BadLedger { len },
        OpenFault::DiskFault => Outcome::DiskFault,
        OpenFault::NoMemory => Outcome::NoMemory,
    }
}

/// The frames of the reel, and those that the folder acknowledges.
fn status_text(alloc: Global, frames: u32, acked: u32) -> Result<Vec<u8>, AllocError>
    ensures { IfOk result (λ text. text.items ≡ status_text frames acked) }
{
    let mut text = Vec::new(alloc);
    put_count(&mut text, b"frames", frames)?;
    put_count(&mut text, b"acknowledged", acked)?;
    Ok(text)
}
