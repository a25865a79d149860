//! The command `qc`.
ghost use Rattle.std.specs.Prelude.{◌≡◌, ◌≢◌, true, length, Err, MatchResult, map};
ghost use Rattle.reel_disk.specs.Disk.{view_of};
ghost use Rattle.reel_writer.specs.Reel.{frames_of};
ghost use Rattle.resume_ledger.specs.Look.{IsViewOf};
ghost use Rattle.project_run.specs.Look.{IsOfLook};
ghost use Rattle.project_run.specs.Quality.{IsCounted, IsQcReply, IsTabled};
ghost use Rattle.project_run.specs.Calls.{LeavesDiskFor, LeavesScanFor, Replies, OverScan};
ghost use Rattle.reel_disk.specs.State.{LeavesDisk, OnlyReads, OnDisk};

use crate::progress::outcome_of_fault;
use cf_base::PathText;
use conform_job::Job;
use outcome::Outcome;
use project_job::planned;
use reel_disk::{Disk, DiskFail};
use reel_qc::{Counter, Probe, quality_table};
use resume_ledger::{Ledger, LedgerView};
use scan_source::Scans;
use std::alloc::Global;

/// The quality table of the reel of the project at a path: for each frame that the reel folder acknowledges the counts of the
/// probes over its file, or the outcome that was reached. The folder is looked at alone: no call but a length and a read is
/// made on it, and none at all where the project is refused.
///
/// A file is counted as it lies there, also where it is damaged, and an absent one as no words. `OtherJob`, `BadLedger` and
/// `DiskFault` come as they do for `status`.
pub fn qc<S: Scans, D: Disk, C: Counter>(
    alloc: Global,
    counter: &C,
    path: &PathText,
    scan: &mut S,
    disk: &mut D,
    probes: &[Probe],
) -> Result<Vec<u8>, Outcome>
    requires ready { C.ready }
    ensures folder { Replies result (OnDisk D.tells (D.state disk.old) (D.state disk.new)
        (OverScan (S.state scan.old) (S.state scan.new) (IsQcReply (map (λ p. p.kind) probes.now) path.now))) }
    ensures kind { MatchResult result (λ text. Unit {0}) IsOfLook }

    ensures scan { LeavesScanFor path.now result (S.state scan.old) (S.state scan.new) }
    ensures disk { LeavesDiskFor D.state result disk.old disk.new }
{
    let job = match planned(alloc, path, scan) {
        Ok(job) => job,
        Err(outcome) => return Err(outcome),
    };
    let reply = tabled(alloc, counter, &job, disk, probes);
    // By a call, as in a run.
    drop(job);
    reply
}

/// The table of what the ledger of a job's reel has, or the outcome that was reached.
fn tabled<D: Disk, C: Counter>(
    alloc: Global,
    counter: &C,
    job: &Job,
    disk: &mut D,
    probes: &[Probe],
) -> Result<Vec<u8>, Outcome>
    requires ready { C.ready }
    ensures tabled { Replies result (OnDisk D.tells (D.state disk.old) (D.state disk.new)
        (IsTabled (map (λ p. p.kind) probes.now) job.now)) }
    ensures kind { MatchResult result (λ text. Unit {0}) IsOfLook }
    ensures never { result ≢ Err Outcome.SourceFault }

    ensures disk { LeavesDisk (result ≡ Err Outcome.DiskFault) (D.state disk.old) (D.state disk.new) }
{
    match Ledger::look(alloc, disk, job.digest(), job.timeline().count()) {
        Ok(view) => {
            let reply = counted(alloc, counter, job, &view, disk, probes);
            drop(view);
            reply
        }
        Err(fault) => Err(outcome_of_fault(fault)),
    }
}

/// The table of a view, or the outcome that was reached.
fn counted<D: Disk, C: Counter>(
    alloc: Global,
    counter: &C,
    job: &Job,
    view: &LedgerView,
    disk: &mut D,
    probes: &[Probe],
) -> Result<Vec<u8>, Outcome>
    requires ready { C.ready }
    requires size { length view.now.gates ≡ frames_of job.now }
    requires view { D.tells ≡ true → IsViewOf job.now.parts.digest (frames_of job.now) (view_of (D.state disk.old).history) view.now }
    ensures counted { Replies result (OnDisk D.tells (D.state disk.old) (D.state disk.new)
        (IsCounted (map (λ p. p.kind) probes.now) job.now view.now)) }
    ensures reads { OnlyReads D.tells (D.state disk.old) (D.state disk.new) }
    ensures kind { MatchResult result (λ text. Unit {0}) IsOfLook }
    ensures never { result ≢ Err Outcome.SourceFault }

    ensures disk { LeavesDisk (result ≡ Err Outcome.DiskFault) (D.state disk.old) (D.state disk.new) }
{
    match quality_table(alloc, counter, probes, disk, job, view) {
        Ok(text) => Ok(text),
        Err(DiskFail::DiskFault) => Err(Outcome::DiskFault),
        Err(DiskFail::NoMemory) => Err(Outcome::NoMemory),
    }
}
