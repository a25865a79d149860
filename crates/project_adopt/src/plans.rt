//! From the paths of two projects to their jobs.
ghost use Rattle.std.specs.Prelude.{◌≡◌, Err, IfErr, MatchResult};
ghost use Rattle.conform_job.specs.Answers.{AreInfosOf};
ghost use Rattle.scan_source.specs.State.{LeavesScan};
ghost use Rattle.project_run.specs.Calls.{IsLeftAlone, Replies, OverScan};
ghost use Rattle.reconform.specs.Adopt.{LeavesBoth};
ghost use Rattle.project_adopt.specs.Adopt.{GoesOn, IsAdoptReply, IsOfAdopt, OnDisks};
ghost use Rattle.project_adopt.specs.Heads.{AreOldHeads, LeavesScanOfBoth};
ghost use Rattle.project_adopt.specs.inside.Adopt.{Ends, IsJobOver};

use crate::reels::adopt_jobs;
use crate::report::of_old_project;
use cf_base::PathText;
use conform_job::Job;
use frame_hash::Hasher;
use outcome::Outcome;
use project_job::planned;
use reel_disk::Disk;
use scan_source::Scans;
use std::alloc::Global;

/// Conforms the project at `path` into the folder `disk`, and takes over the pixels of those frames of the reel in the folder
/// `old`, of the project at `old_path`, that have an equal plan. The report says how many frames the reel has, how many were
/// acknowledged before, how many were taken over and how many were rendered. The
/// digests of the frames taken over are the hasher's; the rest runs on one thread, with a share of 8.
///
/// First the project is planned, then the old one: what refuses the first comes as it is, a refusal of the old one as
/// `OldRefused`, and `SourceFault` and `NoMemory` of both as they are; both folders are as they were then. Then frames are taken
/// over: `OldOtherJob` and `OldBadLedger` come where the old folder is so, then `OtherJob` and `BadLedger` where the new one is.
/// Last the rest is run, as the command `run` does. `SourceFault` comes only where the count of the scan rose, and `DiskFault`
/// only where that of one of the two disks did. The old folder is only read.
pub fn adopt<S: Scans, D: Disk, H: Hasher>(
    alloc: Global,
    path: &PathText,
    old_path: &PathText,
    scan: &mut S,
    disk: &mut D,
    old: &mut D,
    hasher: &H,
) -> Result<Vec<u8>, Outcome>
    requires can_hash { H.can_hash }
    ensures folders { Replies result (OnDisks D.tells (D.state old.old) (D.state old.new) (D.state disk.old) (D.state disk.new)
        (OverScan (S.state scan.old) (S.state scan.new) (IsAdoptReply path.now old_path.now))) }
    ensures kind { MatchResult result (λ text. Unit {0}) IsOfAdopt }

    ensures scan { LeavesScanOfBoth path.now old_path.now result (S.state scan.old) (S.state scan.new) }
    ensures disks { LeavesBoth (result ≡ Err Outcome.DiskFault) (D.state old.old) (D.state old.new) (D.state disk.old) (D.state disk.new) }
    ensures untouched { IfErr result (IsLeftAlone disk.old disk.new) }
    ensures old_untouched { IfErr result (IsLeftAlone old.old old.new) }
{
    let job = match planned(alloc, path, scan) {
        Ok(job) => job,
        Err(outcome) => return Err(outcome),
    };
    let reply = adopt_onto(alloc, &job, old_path, scan, disk, old, hasher);
    // By a call: a job that falls out of scope is dropped part by part, here and in each proof.
    drop(job);
    reply
}

/// The same, where the project came to this job.
fn adopt_onto<S: Scans, D: Disk, H: Hasher>(
    alloc: Global,
    job: &Job,
    old_path: &PathText,
    scan: &mut S,
    disk: &mut D,
    old: &mut D,
    hasher: &H,
) -> Result<Vec<u8>, Outcome>
    requires can_hash { H.can_hash }
    requires infos { AreInfosOf job.now.parts (S.state scan.old).world job.now.infos }
    requires over { IsJobOver (S.state scan.old).world job.now }
    ensures folders { Replies result (OnDisks D.tells (D.state old.old) (D.state old.new) (D.state disk.old) (D.state disk.new)
        (OverScan (S.state scan.old) (S.state scan.new) (GoesOn job.now old_path.now))) }
    ensures kind { MatchResult result (λ text. Unit {0}) IsOfAdopt }

    ensures scan { LeavesScan (result ≡ Err Outcome.SourceFault) (S.state scan.old) (S.state scan.new) }
    ensures heads { Ends result (AreOldHeads (S.state scan.old).world old_path.now (S.state scan.old).heads (S.state scan.new).heads) }

    ensures disks { LeavesBoth (result ≡ Err Outcome.DiskFault) (D.state old.old) (D.state old.new) (D.state disk.old) (D.state disk.new) }
    ensures untouched { IfErr result (IsLeftAlone disk.old disk.new) }
    ensures old_untouched { IfErr result (IsLeftAlone old.old old.new) }
{
    let old_job = match planned(alloc, old_path, scan) {
        Ok(job) => job,
        Err(outcome) => return Err(of_old_project(outcome)),
    };
    let reply = adopt_jobs(alloc, job, &old_job, scan, disk, old, hasher);
    drop(old_job);
    reply
}
