//! A run by a crew.
ghost use Rattle.std.specs.Prelude.{◌≡◌, ◌≤◌, true, All, AllPairs, Err, IfErr, MatchResult, vec_len};
ghost use Rattle.cf_base.specs.Count.{HasCause};
ghost use Rattle.conform_job.specs.Answers.{AreInfosOf};
ghost use Rattle.project_crew.specs.Crew.{HasFailed, IsJobRunByCrew, IsCrewReply, told_by};
ghost use Rattle.frame_range.specs.Parts.{IsExtent};
ghost use Rattle.reel_disk.specs.State.{OnDisk};
ghost use Rattle.run_alone.specs.Task.{IsTask};
ghost use Rattle.project_run.specs.Calls.{IsLeftAlone, Replies};
ghost use Rattle.project_run.specs.Run.{IsOfRun, IsShareCount};

use cf_base::{PathText, WORKERS};
use frame_range::{Extent, range_of};
use outcome::Outcome;
use project_job::planned;
use project_run::reply_of;
use reel_disk::Disk;
use run_crew::{Crew, Task, run_crew};
use scan_source::Scans;
use std::alloc::Global;
use std::marker::Brand;
use std::sync::Wait;
use std::thread::Threads;

/// How many workers a crew has, from 1 to 16, and how many decoded source frames they share, from 1 to 16.
#[derive(Clone, Copy, Debug, PartialEq, Eq)]
pub struct CrewSize {
    pub workers: u16,
    pub share: u16,
}

/// What a run by a crew comes to, with what it was handed.
pub struct CrewEnded<S, D> {
    /// The report, or the outcome that was reached.
    pub result: Result<Vec<u8>, Outcome>,
    /// The scans, the k-th as the k-th.
    pub scans: Vec<S>,
    /// The disk.
    pub disk: D,
}

/// The report of a run of the project at a path in the reel folder, over all its frames or those of a part, by so many workers,
/// or the outcome that was reached. The scans tell one world, or none does; the disk was never used.
///
/// The project is planned with the first scan; then each of the first `workers` scans has a worker. The outcomes are those of
/// a run on one thread, and come for the same causes. It may wait for the lock that the workers share.
pub fn run_crewed<S: Scans + Send, D: Disk + Send, R: Threads + Wait + Sync>(
    rt: &R,
    alloc: Global,
    path: &PathText,
    extent: Extent,
    size: CrewSize,
    mut scans: Vec<S>,
    disk: D,
) -> CrewEnded<S, D>
    requires scans { (1 ≤ vec_len scans) × (vec_len scans ≤ WORKERS) }
    requires one_world { AllPairs (λ a b. (S.state a).world ≡ (S.state b).world) scans.items }
    requires extent { IsExtent extent }
    requires size { (1 ≤ size.workers) × (size.workers ≤ WORKERS) × IsShareCount size.share }
    requires unused { ((D.state disk).faults ≡ 0) × (D.tells ≡ true → (D.state disk).history.now ≡ 0) }
    ensures reply { Replies result.result (OnDisk D.tells (D.state disk) (D.state result.disk)
        (IsCrewReply S.state path.now extent size.workers size.share scans.items result.scans.items)) }
    ensures kind { MatchResult result.result (λ text. Unit {0}) IsOfRun }
    ensures handed_back { vec_len result.scans ≡ vec_len scans }

    ensures failed { result.result ≡ Err Outcome.SourceFault → HasFailed S.state scans.items result.scans.items }
    ensures disk { HasCause (D.state disk).faults (D.state result.disk).faults (result.result ≡ Err Outcome.DiskFault) }
    ensures disk_same { (D.state result.disk).loans ≡ (D.state disk).loans }
    ensures untouched { IfErr result.result (IsLeftAlone disk result.disk) }
{
    let job = match planned(alloc, path, &mut scans[0]) {
        Ok(job) => job,
        Err(outcome) => {
            return CrewEnded {
                result: Err(outcome),
                scans,
                disk,
            };
        }
    };
    let task = Task {
        job: &job,
        range: range_of(extent, job.count()),
        share: u32::from(size.share),
    };
    let ended = run_job(rt, alloc, &task, extent, size.workers, scans, disk);
    // By a call, as in a run on one thread.
    drop(job);
    ended
}

/// The report of a run over a range of a job's frames by so many workers, or the outcome that was reached.
fn run_job<S: Scans + Send, D: Disk + Send, R: Threads + Wait + Sync>(
    rt: &R,
    alloc: Global,
    task: &Task,
    extent: Extent,
    workers: u16,
    scans: Vec<S>,
    disk: D,
) -> CrewEnded<S, D>
    requires task { IsTask task.now.job.now task.now.share task.now }
    requires scans { (1 ≤ vec_len scans) × (vec_len scans ≤ WORKERS) }
    requires one_world { All (λ scan. (S.state scan).world ≡ told_by S.state scans.items) scans.items }
    requires workers { (1 ≤ workers) × (workers ≤ WORKERS) }
    requires infos { AreInfosOf task.now.job.now.parts (told_by S.state scans.items) task.now.job.now.infos }
    requires unused { ((D.state disk).faults ≡ 0) × (D.tells ≡ true → (D.state disk).history.now ≡ 0) }
    ensures ran { Replies result.result (OnDisk D.tells (D.state disk) (D.state result.disk)
        (IsJobRunByCrew S.state task.now.job.now extent task.now.range (told_by S.state scans.items)
        workers task.now.share scans.items result.scans.items)) }
    ensures kind { MatchResult result.result (λ text. Unit {0}) IsOfRun }
    ensures handed_back { vec_len result.scans ≡ vec_len scans }

    ensures failed { result.result ≡ Err Outcome.SourceFault → HasFailed S.state scans.items result.scans.items }
    ensures disk { HasCause (D.state disk).faults (D.state result.disk).faults (result.result ≡ Err Outcome.DiskFault) }
    ensures disk_same { (D.state result.disk).loans ≡ (D.state disk).loans }
{
    task.job.recall();
    let Crew {
        end,
        report,
        history: _,
        log: _,
        scans,
        disk,
    } = run_crew::<Brand, S, D, R>(rt, alloc, task, scans, workers, disk);
    let result = reply_of(alloc, task.job, extent, task.range, end, &report);
    CrewEnded {
        result,
        scans,
        disk,
    }
}
