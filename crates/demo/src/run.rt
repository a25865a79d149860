//! A run of the job over an empty disk.
ghost use Rattle.std.specs.Prelude.{◌≡◌, None, IfOk, OnOk, IfSome};
ghost use Rattle.conform_job.specs.Answers.{AreInfosOf};
ghost use Rattle.reel_disk.specs.Disk.{IsNewDisk};
ghost use Rattle.reel_disk.specs.MemoryDisk.{history_in, faults_in};
ghost use Rattle.reel_writer.specs.Reel.{frames_of};
ghost use Rattle.demo.specs.inside.Whole.{IsWholeOn};

use crate::scans::UnfailingScans;
use cf_base::{Fail, Never};
use conform_job::Job;
use frame_fetch::RunEnd;
use frame_range::FrameRange;
use reel_disk::MemoryDisk;
use run_alone::{Task, run_alone};
use scan_source::Scans;
use std::alloc::Global;
use std::marker::Brand;

/// How many frames may be shared.
const SHARE: u32 = 8;

/// Renders the whole reel into an empty disk, and says how many frames are acknowledged then.
pub(crate) fn run(
    alloc: Global,
    job: &Job,
    scan: &mut UnfailingScans,
    disk: &mut MemoryDisk,
) -> Result<u32, Fail<Never>>
    requires infos { AreInfosOf job.now.parts (⟦<UnfailingScans as Scans>⟧.state scan.old).world job.now.infos }
    requires empty { IsNewDisk (λ id. None) (history_in disk.old) (faults_in disk.old) }
    ensures acknowledged { IfOk result (λ acknowledged. acknowledged ≡ frames_of job.now) }
    ensures whole { OnOk result (IfSome (⟦<UnfailingScans as Scans>⟧.state scan.old).world (IsWholeOn disk.new job.now)) }
{
    let task = Task {
        job,
        range: FrameRange {
            low: 0,
            high: job.count(),
        },
        share: SHARE,
    };
    let (end, report, _) = run_alone::<Brand, UnfailingScans, MemoryDisk>(alloc, &task, scan, disk);
    match end {
        RunEnd::Done => Ok(report.kept + report.rendered),
        // A disk in memory of which no call fails by its number fails for want of memory alone.
        RunEnd::DiskFault | RunEnd::NoMemory => Err(Fail::NoMemory),
        _ => unreachable!(),
    }
}
