//! A run on one thread.
ghost use Rattle.std.specs.Prelude.{◌≡◌, ◌≢◌, ◌≤◌, [], length};
ghost use Rattle.cf_base.specs.Count.{HasRisen};
ghost use Rattle.conform_job.specs.Answers.{AreInfosOf};
ghost use Rattle.conform_job.specs.Names.{Tells};
ghost use Rattle.frame_share.specs.Share.{IsBlankOf, IsLegal, misses_of};
ghost use Rattle.reel_disk.specs.State.{LeavesDisk, OnDisk};
ghost use Rattle.reel_writer.specs.Reel.{frames_of};
ghost use Rattle.frame_fetch.specs.Ends.{IsChange};
ghost use Rattle.run_alone.specs.Ends.{refused_by};
ghost use Rattle.run_alone.specs.Ran.{WereFinished};
ghost use Rattle.run_alone.specs.Run.{WasRun};
ghost use Rattle.run_alone.specs.Safe.{IsSafeRun};
ghost use Rattle.run_alone.specs.inside.Run.{HasRunOver, HasRunThrough, IsJustOpened};
ghost use Rattle.frame_fetch.specs.Scanned.{IsScannedAlone};
ghost use Rattle.run_alone.specs.Sharing.{IsDetermined};
ghost use Rattle.run_alone.specs.Task.{IsTask};

use crate::frames::run_frames;
use crate::report::{Report, report_of};
use crate::task::Task;
use conform_job::Work;
use frame_fetch::{Loader, RunEnd};
use frame_share::{Share, ShareLog};
use reel_disk::Disk;
use reel_writer::Reel;
use resume_ledger::OpenFault;
use scan_source::Scans;
use std::alloc::Global;
use std::marker::Brand;
use std::sync::ledger::{Blank, Ledger};

/// A run over the frames of a reel, with a share of its own. It hands out the log of that, how many loads it made, and the scan.
fn run_shared<N: Work, L: Ledger, S: Scans, D: Disk>(
    alloc: Global,
    task: &Task,
    scan: S,
    reel: &mut Reel<D, N>,
    blank: Blank,
) -> (RunEnd, ShareLog, u64, S)
    requires task { IsTask N.job N.share task.now }
    requires files { Tells N.files (S.state scan).world }
    requires infos { AreInfosOf N.job.parts N.files N.job.infos }
    requires blank { IsBlankOf L.name L.parts blank.name blank.parts }
    requires opened { IsJustOpened N.job reel.old }

    ensures finished { WereFinished N.job task.now.range.low task.now.range.high reel.old.ledger.gates result.0
        (length reel.new.acks) result.1 }
    ensures legal { IsLegal task.now.share result.1 }
    ensures determined { IsDetermined task.now.share result.1 }
    ensures misses { result.2 ≡ misses_of result.1 }
    ensures reel { HasRunOver N.job task.now.range.low task.now.range.high N.files D.tells D.state result.0 reel.old reel.new }
    ensures changed { IsChange result.0 → 1 ≤ result.2 }
    ensures scan { IsScannedAlone result.2 (result.0 ≡ RunEnd.SourceFault) (S.state scan) (S.state result.3) }
{
    let (mut share, units) = match Share::<N, L>::new(alloc, task.share, blank) {
        Ok(made) => made,
        Err(_) => return (RunEnd::NoMemory, ShareLog::empty(alloc), 0, scan),
    };
    let mut loader = Loader::new(alloc, scan, units);
    let end = run_frames(task, &mut loader, reel, &mut share);
    let (scan, mut units, loads) = loader.into_parts();
    share.settle(&mut units);
    (end, share.into_log(), loads, scan)
}

/// A run in a folder that was opened; it hands the scan and the disk back.
fn run_opened<N: Work, L: Ledger, S: Scans, D: Disk>(
    alloc: Global,
    task: &Task,
    scan: S,
    reel: Reel<D, N>,
    blank: Blank,
) -> (RunEnd, Report, ShareLog, S, D)
    requires task { IsTask N.job N.share task.now }
    requires files { Tells N.files (S.state scan).world }
    requires infos { AreInfosOf N.job.parts N.files N.job.infos }
    requires blank { IsBlankOf L.name L.parts blank.name blank.parts }
    requires opened { IsJustOpened N.job reel }

    ensures ran { HasRunThrough N.job task.now.range N.files task.now.share D.tells reel.ledger.gates result.0 result.1 result.2
        (D.state reel.disk) (D.state result.4) }
    ensures kept { result.1.kept ≡ reel.kept }
    ensures frames { result.1.frames ≡ frames_of N.job }
    ensures misses { result.1.misses ≡ result.1.loads }
    ensures changed { IsChange result.0 → HasRisen (S.state scan).loads (S.state result.3).loads }
    ensures scan { IsScannedAlone result.1.loads (result.0 ≡ RunEnd.SourceFault) (S.state scan) (S.state result.3) }
    ensures disk { LeavesDisk (result.0 ≡ RunEnd.DiskFault) (D.state reel.disk) (D.state result.4) }
{
    let mut reel = reel;
    let (end, log, loads, scan) = run_shared::<N, L, S, D>(alloc, task, scan, &mut reel, blank);
    let report = report_of(task.job, &reel, loads);
    (end, report, log, scan, reel.close())
}

/// How a run ends whose folder isn't opened.
pub fn end_of_opening(fault: OpenFault) -> RunEnd
    ensures end { result ≡ refused_by fault }
    ensures refused { (result ≢ RunEnd.Done) × (result ≢ RunEnd.SourceFault) }
{
    match fault {
        OpenFault::OtherJob { kept, wanted } => RunEnd::OtherJob { kept, wanted },
        OpenFault::BadLedger { len } => RunEnd::BadLedger { len },
        OpenFault::DiskFault => RunEnd::DiskFault,
        OpenFault::NoMemory => RunEnd::NoMemory,
    }
}

/// A run that hands the scan and the disk back, and writes what was shared into a log.
fn run_owned<N: Work, L: Ledger, S: Scans, D: Disk>(
    alloc: Global,
    task: &Task,
    scan: S,
    blank: Blank,
    log: &mut ShareLog,
    disk: D,
) -> (RunEnd, Report, S, D)
    requires task { IsTask N.job N.share task.now }
    requires files { Tells N.files (S.state scan).world }
    requires infos { AreInfosOf N.job.parts N.files N.job.infos }
    requires blank { IsBlankOf L.name L.parts blank.name blank.parts }
    requires unasked { log.old ≡ [] }

    ensures ran { WasRun N.job task.now.range.low task.now.range.high N.files task.now.share D.tells
        (D.state disk).history (D.state result.3).history result.0 result.1 log.new }
    ensures frames { result.1.frames ≡ frames_of N.job }
    ensures misses { result.1.misses ≡ result.1.loads }
    ensures keeps { OnDisk D.tells (D.state disk) (D.state result.3) (IsSafeRun N.job task.now.range N.files result.0) }
    ensures changed { IsChange result.0 → HasRisen (S.state scan).loads (S.state result.2).loads }
    ensures scan { IsScannedAlone result.1.loads (result.0 ≡ RunEnd.SourceFault) (S.state scan) (S.state result.2) }
    ensures disk { LeavesDisk (result.0 ≡ RunEnd.DiskFault) (D.state disk) (D.state result.3) }
{
    let frames = task.job.count();
    match Reel::<D, N>::begin(alloc, disk, task.job) {
        Ok(reel) => {
            let (end, report, made, scan, disk) = run_opened::<N, L, S, D>(
                alloc, task, scan, reel, blank,
            );
            *log = made;
            (end, report, scan, disk)
        }
        Err((fault, disk)) => {
            let report = Report {
                frames,
                kept: 0,
                rendered: 0,
                loads: 0,
                misses: 0,
            };
            (end_of_opening(fault), report, scan, disk)
        }
    }
}

/// Renders the frames of a task's range into the folder, one after another; those that the folder acknowledges stay as they are,
/// and so do all others. It waits for nobody. A source frame that is shared isn't loaded again.
///
/// A frame's source frames are asked for, and loaded and decoded where they aren't shared, the frame is rendered and finished, and
/// then comes the next one. The log is that of the share, and is empty where the folder wasn't opened. `OtherJob` (20.1) and
/// `BadLedger` (20.2) come exactly where the folder is so, and nothing is written then. `Changed` comes where a source file isn't
/// what the job has of it, and never where the source files are told. `SourceFault` and `DiskFault` come only where the count of
/// faults of the scan or of the disk rose, and `NoMemory` for want of memory alone.
pub fn run_alone<N: Work, S: Scans, D: Disk>(
    alloc: Global,
    task: &Task,
    scan: &mut S,
    disk: &mut D,
) -> (RunEnd, Report, ShareLog)
    requires task { IsTask N.job N.share task.now }
    requires files { Tells N.files (S.state scan.old).world }
    requires infos { AreInfosOf N.job.parts N.files N.job.infos }

    // Which frames the opening kept, what the folder acknowledges now, what was finished, and which
    // source frames were asked for and loaded; or why the folder wasn't opened.
    ensures ran { WasRun N.job task.now.range.low task.now.range.high N.files task.now.share D.tells
        (D.state disk.old).history (D.state disk.new).history result.0 result.1 result.2 }
    ensures frames { result.1.frames ≡ frames_of N.job }
    ensures misses { result.1.misses ≡ result.1.loads }

    // A crash at any moment leaves only frames acknowledged that are the reel's. No acknowledgement is lost, where each frame
    // that version 1 of the ledger acknowledged at the start had a file of a frame's length, as sound files have. At Done every
    // image acknowledges every frame of the range, and the folder has the whole range. No file is changed but the ledger's and
    // those of the range's frames that the opening didn't keep; of the ledger's those of version 2 alone are written. Over every
    // disk, also one that tells nothing, no file is written but these, and none where the folder is refused.
    ensures keeps { OnDisk D.tells (D.state disk.old) (D.state disk.new) (IsSafeRun N.job task.now.range N.files result.0) }

    ensures changed { IsChange result.0 → HasRisen (S.state scan.old).loads (S.state scan.new).loads }
    ensures scan { IsScannedAlone result.1.loads (result.0 ≡ RunEnd.SourceFault) (S.state scan.old) (S.state scan.new) }
    ensures disk { LeavesDisk (result.0 ≡ RunEnd.DiskFault) (D.state disk.old) (D.state disk.new) }
{
    let mut log = ShareLog::empty(alloc);
    let blank = Blank::new(1);
    let (end, report, _, _) = run_owned::<N, Brand, _, _>(
        alloc, task, &mut *scan, blank, &mut log, &mut *disk,
    );
    (end, report, log)
}
