//! The command `sums`.
ghost use Rattle.std.specs.Prelude.{◌≡◌, ◌≢◌, ◌<◌, ◌++◌, length, Err, IfOk, OnOk, MatchResult};
ghost use Rattle.reel_disk.specs.Names.{file_name};
ghost use Rattle.conform_job.specs.Job.{file_of};
ghost use Rattle.reel_writer.specs.Reel.{frames_of};
ghost use Rattle.project_run.specs.Look.{IsOfLook};
ghost use Rattle.project_run.specs.Calls.{LeavesDiskFor, LeavesScanFor, Replies, OverScan};
ghost use Rattle.reel_disk.specs.State.{LeavesDisk, OnDisk};
ghost use Rattle.project_run.specs.Sums.{IsSummed, IsSumsReply, sum_line, sums_text};

use crate::progress::outcome_of_fault;
use cf_base::{FileId, PathText, frame_file_name};
use conform_job::Job;
use outcome::Outcome;
use printed_text::{put_bytes, put_digest};
use project_job::planned;
use reel_disk::Disk;
use resume_ledger::{Ledger, LedgerView};
use scan_source::Scans;
use std::alloc::{AllocError, Global};

/// A line for each frame of the project at a path that the reel folder acknowledges and of which its ledger keeps the SHA-256:
/// the digest in hexadecimal digits, two blanks, and the name of the frame's file; or the outcome that was reached. The folder
/// is looked at alone, and no frame is read. A folder of the ledger's first version has no records, so no line.
///
/// `OtherJob`, `BadLedger` and `DiskFault` come as they do for `status`.
pub fn sums<S: Scans, D: Disk>(
    alloc: Global,
    path: &PathText,
    scan: &mut S,
    disk: &mut D,
) -> Result<Vec<u8>, Outcome>
    ensures folder { Replies result (OnDisk D.tells (D.state disk.old) (D.state disk.new)
        (OverScan (S.state scan.old) (S.state scan.new) (IsSumsReply path.now))) }
    ensures kind { MatchResult result (λ text. Unit {0}) IsOfLook }

    ensures scan { LeavesScanFor path.now result (S.state scan.old) (S.state scan.new) }
    ensures disk { LeavesDiskFor D.state result disk.old disk.new }
{
    let job = match planned(alloc, path, scan) {
        Ok(job) => job,
        Err(outcome) => return Err(outcome),
    };
    let reply = sums_of(alloc, &job, disk);
    // By a call, as in a run.
    drop(job);
    reply
}

/// The lines of a job's reel, or the outcome that was reached.
fn sums_of<D: Disk>(alloc: Global, job: &Job, disk: &mut D) -> Result<Vec<u8>, Outcome>
    ensures summed { Replies result (OnDisk D.tells (D.state disk.old) (D.state disk.new) (IsSummed job.now)) }
    ensures kind { MatchResult result (λ text. Unit {0}) IsOfLook }
    ensures never { result ≢ Err Outcome.SourceFault }

    ensures disk { LeavesDisk (result ≡ Err Outcome.DiskFault) (D.state disk.old) (D.state disk.new) }
{
    match Ledger::look(alloc, disk, job.digest(), job.timeline().count()) {
        Ok(view) => {
            let text = sums_text(alloc, job, &view);
            drop(view);
            match text {
                Ok(text) => Ok(text),
                Err(_) => Err(Outcome::NoMemory),
            }
        }
        Err(fault) => Err(outcome_of_fault(fault)),
    }
}

/// The lines of what the ledger has, in the order of the frames.
fn sums_text(alloc: Global, job: &Job, view: &LedgerView) -> Result<Vec<u8>, AllocError>
    requires size { length view.now.gates ≡ frames_of job.now }
    ensures { IfOk result (λ text. text.items ≡ sums_text job.now view.now) }
{
    let mut text = Vec::new(alloc);
    for i in 0..job.count() {
        put_sum(&mut text, job, view, i)?;
    }
    Ok(text)
}

/// Appends the line of a frame that has a record.
fn put_sum(text: &mut Vec<u8>, job: &Job, view: &LedgerView, i: u32) -> Result<(), AllocError>
    requires size { length view.now.gates ≡ frames_of job.now }
    requires within { i < frames_of job.now }
    ensures { OnOk result (text.new.items ≡ text.old.items ++ sum_line job.now view.now i) }
{
    let Some(hash) = view.hash_of(i) else {
        return Ok(());
    };
    put_digest(text, &hash)?;
    put_bytes(text, b"  ")?;
    put_bytes(text, &name_of(job, i))?;
    put_bytes(text, b"\n")
}

/// The name of a frame's file.
fn name_of(job: &Job, i: u32) -> [u8; 16]
    requires { i < frames_of job.now }
    ensures { result ≡ file_name (file_of job.now i) }
{
    match job.file_of(i) {
        FileId::Frame { reel, frame } => frame_file_name(reel, frame),
        _ => unreachable!(),
    }
}
