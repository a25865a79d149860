//! From two jobs to the reel: frames of the old one are taken over, and the rest is run.
ghost use Rattle.std.specs.Prelude.{◌≡◌, true, None, Err, IfSome, MatchResult};
ghost use Rattle.conform_job.specs.Answers.{AreInfosOf};
ghost use Rattle.conform_job.specs.Names.{Tells};
ghost use Rattle.scan_source.specs.State.{LeavesScan};
ghost use Rattle.project_run.specs.Calls.{Replies, OverScan};
ghost use Rattle.reel_disk.specs.State.{LeavesDisk, OnDisk};
ghost use Rattle.project_run.specs.Run.{IsOfRun};
ghost use Rattle.reconform.specs.Adopt.{CanServe, LeavesBoth};
ghost use Rattle.reel_disk.specs.Disk.{view_of};
ghost use Rattle.project_adopt.specs.Adopt.{IsAdoption, IsOfAdopt, IsOldSoundIn, IsPromised, IsRest, OnDisks};
ghost use Rattle.project_adopt.specs.inside.Adopt.{Ends, IsJobOver, LeavesPlanned};

use crate::report::{outcome_of_fault, reply_of};
use conform_job::{Job, Work};
use frame_hash::Hasher;
use frame_range::FrameRange;
use outcome::Outcome;
use reconform::Adopted;
use reel_disk::Disk;
use run_alone::{Task, run_alone};
use scan_source::Scans;
use std::alloc::Global;
use std::marker::Brand;

/// How many decoded source frames the run shares.
const SHARE: u32 = 8;

/// Takes frames over from the old job's reel, and runs the rest.
///
/// The names of both jobs have the files that the scan tells, where the old folder is told and sound over them, and none
/// elsewhere: so the promise on the source files has that as its premise.
pub(crate) fn adopt_jobs<S: Scans, D: Disk, H: Hasher>(
    alloc: Global,
    job: &Job,
    old_job: &Job,
    scan: &mut S,
    disk: &mut D,
    old: &mut D,
    hasher: &H,
) -> Result<Vec<u8>, Outcome>
    requires can_hash { H.can_hash }
    requires infos { AreInfosOf job.now.parts (S.state scan.old).world job.now.infos }
    requires over { IsJobOver (S.state scan.old).world job.now }
    requires old_over { IsJobOver (S.state scan.old).world old_job.now }
    ensures went { Replies result (OnDisks D.tells (D.state old.old) (D.state old.new) (D.state disk.old) (D.state disk.new)
        (OverScan (S.state scan.old) (S.state scan.new) (IsAdoption job.now old_job.now))) }
    ensures promise { D.tells ≡ true → Ends result (OnDisk D.tells (D.state disk.old) (D.state disk.new)
        (IsPromised job.now None)) }
    ensures sound { D.tells ≡ true → IsOldSoundIn (S.state scan.old).world old_job.now (view_of (D.state old.old).history)
        → Ends result (OnDisk D.tells (D.state disk.old) (D.state disk.new) (IsPromised job.now (S.state scan.old).world)) }
    ensures kind { MatchResult result (λ text. Unit {0}) IsOfAdopt }

    ensures scan { LeavesScan (result ≡ Err Outcome.SourceFault) (S.state scan.old) (S.state scan.new) }
    ensures heads { (S.state scan.new).heads ≡ (S.state scan.old).heads }

    ensures disks { LeavesBoth (result ≡ Err Outcome.DiskFault) (D.state old.old) (D.state old.new) (D.state disk.old) (D.state disk.new) }
{
    adopt_and_run::<Brand, Brand, S, D, H>(alloc, job, old_job, scan, disk, old, hasher)
}

/// The same under names of both jobs.
fn adopt_and_run<N: Work, O: Work, S: Scans, D: Disk, H: Hasher>(
    alloc: Global,
    job: &Job,
    old_job: &Job,
    scan: &mut S,
    disk: &mut D,
    old: &mut D,
    hasher: &H,
) -> Result<Vec<u8>, Outcome>
    requires can_hash { H.can_hash }
    requires job { job.now ≡ N.job }
    requires old_job { old_job.now ≡ O.job }
    requires one_world { O.files ≡ N.files }
    requires files { Tells N.files (S.state scan.old).world }
    requires infos { AreInfosOf N.job.parts (S.state scan.old).world N.job.infos }
    requires can_serve { IfSome N.files (λ world. CanServe N.job O.job world D.tells (view_of (D.state old.old).history)) }
    ensures went { Replies result (OnDisks D.tells (D.state old.old) (D.state old.new) (D.state disk.old) (D.state disk.new)
        (OverScan (S.state scan.old) (S.state scan.new) (IsAdoption N.job O.job))) }
    ensures promise { D.tells ≡ true → Ends result (OnDisk D.tells (D.state disk.old) (D.state disk.new)
        (IsPromised N.job N.files)) }
    ensures kind { MatchResult result (λ text. Unit {0}) IsOfAdopt }

    ensures scan { LeavesPlanned (result ≡ Err Outcome.SourceFault) (S.state scan.old) (S.state scan.new) }

    ensures disks { LeavesBoth (result ≡ Err Outcome.DiskFault) (D.state old.old) (D.state old.new) (D.state disk.old) (D.state disk.new) }
{
    match reconform::adopt::<N, O, D, H>(alloc, job, old_job, old, disk, hasher) {
        Ok(done) => run_rest(alloc, job, done, scan, disk),
        Err(fault) => Err(outcome_of_fault(fault)),
    }
}

/// Runs what was not taken over.
fn run_rest<S: Scans, D: Disk>(
    alloc: Global,
    job: &Job,
    done: Adopted,
    scan: &mut S,
    disk: &mut D,
) -> Result<Vec<u8>, Outcome>
    requires infos { AreInfosOf job.now.parts (S.state scan.old).world job.now.infos }
    ensures ran { Replies result (OnDisk D.tells (D.state disk.old) (D.state disk.new)
        (OverScan (S.state scan.old) (S.state scan.new) (IsRest job.now done))) }
    ensures kind { MatchResult result (λ text. Unit {0}) IsOfRun }

    ensures scan { LeavesScan (result ≡ Err Outcome.SourceFault) (S.state scan.old) (S.state scan.new) }
    ensures heads { (S.state scan.new).heads ≡ (S.state scan.old).heads }

    ensures disk { LeavesDisk (result ≡ Err Outcome.DiskFault) (D.state disk.old) (D.state disk.new) }
{
    let task = Task {
        job,
        range: FrameRange {
            low: 0,
            high: job.count(),
        },
        share: SHARE,
    };
    let (end, report, _) = run_alone::<Brand, S, D>(alloc, &task, scan, disk);
    reply_of(alloc, job, done, end, &report)
}
