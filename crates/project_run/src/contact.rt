//! The command `sheet`.
ghost use Rattle.std.specs.Prelude.{◌≡◌, ◌≢◌, true, length, Err, IfOk, MatchResult};
ghost use Rattle.cf_base.specs.declared.file.FileId.TheVariants as file;
ghost use Rattle.reel_disk.specs.Call.{writes_in};
ghost use Rattle.reel_disk.specs.Runs.{Extends, Spares};
ghost use Rattle.reel_qc.specs.Sheet.{WritesSheet};
ghost use Rattle.reel_writer.specs.Reel.{frames_of};
ghost use Rattle.project_run.specs.Look.{IsOfLook};
ghost use Rattle.project_run.specs.Calls.{LeavesDiskFor, LeavesScanFor, Replies, OverScan};
ghost use Rattle.reel_disk.specs.State.{LeavesDisk, OnDisk};
ghost use Rattle.project_run.specs.Sheet.{HasSheet, IsSheetReply, IsSheeted, sheet_text};

use crate::progress::outcome_of_fault;
use crate::report::put_count;
use cf_base::PathText;
use conform_job::Job;
use outcome::Outcome;
use project_job::planned;
use reel_disk::{Disk, DiskFail};
use reel_qc::{SheetDone, Tone, make_sheet};
use resume_ledger::{Ledger, LedgerView};
use scan_source::Scans;
use std::alloc::{AllocError, Global};

/// Makes the contact sheet of the reel of the project at a path, of the frames that the reel folder acknowledges, under the
/// tone, and writes it into the folder: how many cells it has and its greatest code, or the outcome that was reached. No other
/// file of the folder is changed, and where the project or the folder is refused nothing is written.
///
/// A file is drawn as it lies there, also where it is damaged. `OtherJob`, `BadLedger` and `DiskFault` come as they do for
/// `status`.
pub fn sheet<S: Scans, D: Disk>(
    alloc: Global,
    path: &PathText,
    scan: &mut S,
    disk: &mut D,
    tone: &Tone,
) -> Result<Vec<u8>, Outcome>
    ensures folder { Replies result (OnDisk D.tells (D.state disk.old) (D.state disk.new)
        (OverScan (S.state scan.old) (S.state scan.new) (IsSheetReply tone.now.table path.now))) }
    ensures kind { MatchResult result (λ text. Unit {0}) IsOfLook }

    ensures scan { LeavesScanFor path.now result (S.state scan.old) (S.state scan.new) }
    ensures disk { LeavesDiskFor D.state result disk.old disk.new }
{
    let job = match planned(alloc, path, scan) {
        Ok(job) => job,
        Err(outcome) => return Err(outcome),
    };
    let reply = sheet_of(alloc, &job, disk, tone);
    // By a call, as in a run.
    drop(job);
    reply
}

/// The sheet of what the ledger of a job's reel has, or the outcome that was reached.
fn sheet_of<D: Disk>(
    alloc: Global,
    job: &Job,
    disk: &mut D,
    tone: &Tone,
) -> Result<Vec<u8>, Outcome>
    ensures made { Replies result (OnDisk D.tells (D.state disk.old) (D.state disk.new) (HasSheet tone.now.table job.now)) }
    ensures kind { MatchResult result (λ text. Unit {0}) IsOfLook }
    ensures never { result ≢ Err Outcome.SourceFault }

    ensures disk { LeavesDisk (result ≡ Err Outcome.DiskFault) (D.state disk.old) (D.state disk.new) }
{
    match Ledger::look(alloc, disk, job.digest(), job.timeline().count()) {
        Ok(view) => {
            let reply = sheeted(alloc, job, &view, disk, tone);
            drop(view);
            reply
        }
        Err(fault) => Err(outcome_of_fault(fault)),
    }
}

/// The sheet of a view, or the outcome that was reached.
fn sheeted<D: Disk>(
    alloc: Global,
    job: &Job,
    view: &LedgerView,
    disk: &mut D,
    tone: &Tone,
) -> Result<Vec<u8>, Outcome>
    requires size { length view.now.gates ≡ frames_of job.now }
    ensures sheeted { Replies result (OnDisk D.tells (D.state disk.old) (D.state disk.new)
        (IsSheeted tone.now.table job.now view.now)) }
    ensures past { D.tells ≡ true → Extends (D.state disk.old).history (D.state disk.new).history }
    ensures spares { D.tells ≡ true → Spares (D.state disk.old).history (D.state disk.new).history (λ q. q ≡ file.Sheet) }
    ensures writes { WritesSheet (writes_in (D.state disk.old).calls) (writes_in (D.state disk.new).calls) }
    ensures kind { MatchResult result (λ text. Unit {0}) IsOfLook }
    ensures never { result ≢ Err Outcome.SourceFault }

    ensures disk { LeavesDisk (result ≡ Err Outcome.DiskFault) (D.state disk.old) (D.state disk.new) }
{
    match make_sheet(alloc, disk, job, view, tone) {
        Ok(done) => match sheet_text(alloc, done) {
            Ok(text) => Ok(text),
            Err(_) => Err(Outcome::NoMemory),
        },
        Err(DiskFail::DiskFault) => Err(Outcome::DiskFault),
        Err(DiskFail::NoMemory) => Err(Outcome::NoMemory),
    }
}

/// The cells of a sheet, and its greatest code.
fn sheet_text(alloc: Global, done: SheetDone) -> Result<Vec<u8>, AllocError>
    ensures { IfOk result (λ text. text.items ≡ sheet_text done.cells done.peak) }
{
    let mut text = Vec::new(alloc);
    put_count(&mut text, b"cells", done.cells)?;
    put_count(&mut text, b"peak", u32::from(done.peak))?;
    Ok(text)
}
