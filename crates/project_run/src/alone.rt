//! A run on one thread.
ghost use Rattle.std.specs.Prelude.{◌≡◌, ◌≤◌, Err, MatchResult};
ghost use Rattle.conform_job.specs.Answers.{AreInfosOf};
ghost use Rattle.scan_source.specs.State.{LeavesScan};
ghost use Rattle.project_run.specs.Calls.{LeavesDiskFor, LeavesScanFor, Replies, OverScan};
ghost use Rattle.frame_range.specs.Parts.{IsExtent};
ghost use Rattle.reel_disk.specs.State.{LeavesDisk, OnDisk};
ghost use Rattle.reel_writer.specs.Reel.{frames_of};
ghost use Rattle.project_run.specs.Run.{IsJobRun, IsOfRun, IsRunReply, IsShareCount};

use crate::report::reply_of;
use cf_base::PathText;
use conform_job::Job;
use frame_range::{Extent, FrameRange, range_of};
use outcome::Outcome;
use project_job::planned;
use reel_disk::Disk;
use run_alone::{Task, run_alone};
use scan_source::Scans;
use std::alloc::Global;
use std::marker::Brand;

/// The report of a run of the project at a path in the reel folder, over all its frames or those of a part, on one thread, or
/// the outcome that was reached.
///
/// First the project is planned: what refuses it, `SourceFault` and `NoMemory` leave the folder as it was. Then the job is
/// run: `OtherJob` and `BadLedger` where the folder is so, `Changed` where a source file isn't what the plan found,
/// `SourceFault` and `DiskFault` only where the count of the scan or of the disk rose. `share` is from 1 to 16.
pub fn run<S: Scans, D: Disk>(
    alloc: Global,
    path: &PathText,
    extent: Extent,
    share: u16,
    scan: &mut S,
    disk: &mut D,
) -> Result<Vec<u8>, Outcome>
    requires extent { IsExtent extent }
    requires share { IsShareCount share }
    ensures folder { Replies result (OnDisk D.tells (D.state disk.old) (D.state disk.new)
        (OverScan (S.state scan.old) (S.state scan.new) (IsRunReply path.now extent share))) }
    ensures kind { MatchResult result (λ text. Unit {0}) IsOfRun }

    ensures scan { LeavesScanFor path.now result (S.state scan.old) (S.state scan.new) }
    ensures disk { LeavesDiskFor D.state result disk.old disk.new }
{
    let job = match planned(alloc, path, scan) {
        Ok(job) => job,
        Err(outcome) => return Err(outcome),
    };
    let range = range_of(extent, job.count());
    let reply = run_job(alloc, &job, extent, range, share, scan, disk);
    // By a call: a job that falls out of scope is dropped part by part, here and in each proof.
    drop(job);
    reply
}

/// The report of a run over a range of a job's frames, or the outcome that was reached.
fn run_job<S: Scans, D: Disk>(
    alloc: Global,
    job: &Job,
    extent: Extent,
    range: FrameRange,
    share: u16,
    scan: &mut S,
    disk: &mut D,
) -> Result<Vec<u8>, Outcome>
    requires range { (range.low ≤ range.high) × (range.high ≤ frames_of job.now) }
    requires share { IsShareCount share }
    requires infos { AreInfosOf job.now.parts (S.state scan.old).world job.now.infos }
    ensures ran { Replies result (OnDisk D.tells (D.state disk.old) (D.state disk.new)
        (OverScan (S.state scan.old) (S.state scan.new) (IsJobRun job.now extent range share))) }
    ensures kind { MatchResult result (λ text. Unit {0}) IsOfRun }

    ensures scan { LeavesScan (result ≡ Err Outcome.SourceFault) (S.state scan.old) (S.state scan.new) }
    ensures heads { (S.state scan.new).heads ≡ (S.state scan.old).heads }

    ensures disk { LeavesDisk (result ≡ Err Outcome.DiskFault) (D.state disk.old) (D.state disk.new) }
{
    let task = Task {
        job,
        range,
        share: u32::from(share),
    };
    let (end, report, _) = run_alone::<Brand, S, D>(alloc, &task, scan, disk);
    reply_of(alloc, job, extent, range, end, &report)
}
