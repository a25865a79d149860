//! Crews over the desk job, and scans that see one another.
ghost use Rattle.std.specs.Prelude.{◌≡◌, ◌≤◌, true, vec_len};

use conform_job::Job;
use reel_disk::{Disk, MemoryDisk};
use run_crew::{Crew, Report, RunEnd, Task, run_crew};
use scan_source::Scans;
use std::alloc::Global;
use std::marker::Brand;
use std::sync::Wait;
use std::thread::Threads;
use test_desk::{Desk, Together, has_reels, is_whole, report, scans_together};
use test_stand_ins::GatedScans;

/// The frame behind the desk's last: no second record reel begins there.
pub(crate) const END: u32 = 86_424;

/// A run of the job by so many workers that share so many source frames, over a disk that was never used; its name tells no files.
pub(crate) fn crew_on<S: Scans + Send, D: Disk + Send, R: Threads + Wait + Sync>(
    rt: &R,
    alloc: Global,
    job: &Job,
    disk: D,
    scans: Vec<S>,
    workers: u16,
    share_cap: u32,
) -> Crew<S, D>
    requires scans { (1 ≤ vec_len scans) × (vec_len scans ≤ 16) }
    requires workers { (1 ≤ workers) × (workers ≤ 16) }
    requires share { (1 ≤ share_cap) × (share_cap ≤ 16) }
    requires moment { D.tells ≡ true → (D.state disk).history.now ≡ 0 }
    requires faults { (D.state disk).faults ≡ 0 }
{
    job.recall();
    let task = Task::whole(job, share_cap);
    run_crew::<Brand, S, D, R>(rt, alloc, &task, scans, workers, disk)
}

/// The same over a fresh disk, by as many workers as there are scans, which are those of `scans_together`. None where
/// no memory is left.
fn crew<R: Threads + Wait + Sync>(
    rt: &R,
    alloc: Global,
    job: &Job,
    workers: u16,
    failing: u64,
    together: u64,
    rounds: u64,
) -> Option<Crew<GatedScans<Together>, MemoryDisk>> {
    if workers < 1 || workers > 16 {
        return None;
    }
    let scans = scans_together(alloc, workers, failing, together, rounds)?;
    let disk = MemoryDisk::new(alloc).ok()?;
    Some(crew_on(rt, alloc, job, disk, scans, workers, 8))
}

/// With several workers the first loads of two scans wait for one another, so that a run on one thread would wait in vain. In the
/// last row so do their second loads: a crew of two whose workers leave after a frame would wait in vain for the second pair.
#[test]
fn workers_load_beside_one_another_and_leave_the_reel(rt: HostRuntime) {
    let alloc = rt.alloc();
    let desk = Desk::new(alloc, &[]).expect(&rt, "a job");
    for (workers, together, rounds) in [
        (1, 0, 0),
        (2, 2, 1),
        (3, 2, 1),
        (8, 2, 1),
        (16, 2, 1),
        (2, 2, 2),
    ] {
        let Crew {
            end,
            report: done,
            history,
            log: _,
            scans,
            mut disk,
        } = crew(&rt, alloc, &desk.job, workers, 0, together, rounds).expect(&rt, "a crew");
        assert!(rt;
            end == RunEnd::Done && done == report(0, 24, 26),
            "{workers} workers"
        );
        assert!(rt;
            history.expect(&rt, "steps").items().len() == 48,
            "{workers} workers"
        );
        assert!(rt; scans.len() == usize::from(workers));
        assert!(rt; is_whole(&mut disk), "{workers} workers");
    }
}

/// Nine loads are good for the first six frames at least: each of three workers holds one frame, and a frame has two at most.
#[test]
fn a_crew_acknowledges_as_it_goes(rt: HostRuntime) {
    let alloc = rt.alloc();
    let desk = Desk::new(alloc, &[]).expect(&rt, "a job");
    let Crew {
        end,
        report: done,
        history: _,
        log: _,
        scans: _,
        mut disk,
    } = crew(&rt, alloc, &desk.job, 3, 10, 0, 0).expect(&rt, "a crew");
    assert!(rt; end == RunEnd::SourceFault);
    assert!(rt; done.rendered >= 6);
    let (_, rest) = desk.run_without_files(&mut disk);
    assert!(rt; rest.kept == done.rendered);
}

/// Whether a run on one thread leaves the whole record over what a crash by this pick left, and how many frames it kept. The
/// second record reel begins with that frame.
pub(crate) fn kept_alone(desk: &mut Desk, disk: &MemoryDisk, pick: u8, second: u32) -> Option<u32> {
    let mut crashed = disk.crash(pick).ok()?;
    let (end, report) = desk.run(&mut crashed);
    let all = report.kept.wrapping_add(report.rendered);
    (end == RunEnd::Done && all == 24 && has_reels(&mut crashed, second)).then_some(report.kept)
}

/// How a crew of so many workers over the desk's files ends on a disk that was never used, what it did, and what it leaves. None
/// where no memory is left.
pub(crate) fn crew_over<D: Disk + Drop + Send, R: Threads + Wait + Sync>(
    rt: &R,
    alloc: Global,
    job: &Job,
    workers: u16,
    disk: D,
) -> Option<(RunEnd, Report, D)>
    requires workers { (1 ≤ workers) × (workers ≤ 16) }
    requires moment { D.tells ≡ true → (D.state disk).history.now ≡ 0 }
    requires faults { (D.state disk).faults ≡ 0 }
{
    let scans = scans_together(alloc, workers, 0, 0, 0)?;
    let Crew {
        end,
        report,
        history: _,
        log: _,
        scans: _,
        disk,
    } = crew_on(rt, alloc, job, disk, scans, workers, 8);
    Some((end, report, disk))
}

/// Whether a run on one thread goes on over each of three crashes of this disk, and keeps so many frames.
fn keeps(desk: &mut Desk, disk: &MemoryDisk, second: u32, found: [u32; 3]) -> bool {
    for (pick, kept) in (0..3).zip(found) {
        if kept_alone(desk, disk, pick, second) != Some(kept) {
            return false;
        }
    }
    true
}

/// Whether a crew of three that is stopped at this call, or ends before it, leaves so many frames acknowledged after each of
/// three crashes, and a run on one thread renders the rest.
fn leaves<R: Threads + Wait + Sync>(
    rt: &R,
    alloc: Global,
    desk: &mut Desk,
    second: u32,
    stop: u64,
    found: [u32; 3],
) -> Option<bool> {
    let disk = MemoryDisk::stopped_at(alloc, stop).ok()?;
    let (end, _, disk) = crew_over(rt, alloc, &desk.job, 3, disk)?;
    Some((end == RunEnd::Done) == (stop == 153) && keeps(desk, &disk, second, found))
}

/// An undisturbed crew makes 152 calls: eight of the opening, and six of each frame. Stopped at one of them, it leaves as many
/// frames acknowledged as were whole by then, or one more where its gate was written, and a run on one thread renders the rest.
/// These are calls of the opening, and those of the first frame, of one in the middle and of the last.
#[test]
fn a_crew_that_was_stopped_at_a_call_loses_no_frame(rt: HostRuntime) {
    let alloc = rt.alloc();
    let mut desk = Desk::new(alloc, &[]).expect(&rt, "a job");
    for (stop, found) in [
        (1, [0, 0, 0]),
        (6, [0, 0, 0]),
        (8, [0, 0, 0]),
        (9, [0, 0, 0]),
        (10, [0, 0, 0]),
        (12, [0, 0, 0]),
        (13, [0, 0, 0]),
        (14, [1, 0, 0]),
        (15, [1, 1, 1]),
        (75, [11, 11, 11]),
        (76, [11, 11, 11]),
        (78, [11, 11, 11]),
        (80, [12, 11, 11]),
        (147, [23, 23, 23]),
        (150, [23, 23, 23]),
        (152, [24, 23, 23]),
        (153, [24, 24, 24]),
    ] {
        let left = leaves(&rt, alloc, &mut desk, END, stop, found);
        assert!(rt; left == Some(true), "stop at {stop}");
    }
}

/// The same of a record that is cut in two: a run that goes on leaves the same 24 files each time, twelve of each reel.
#[test]
fn a_crew_that_was_stopped_loses_no_frame_of_two_reels(rt: HostRuntime) {
    let alloc = rt.alloc();
    let mut desk = Desk::cut(alloc).expect(&rt, "a job");
    for (stop, found) in [
        (8, [0, 0, 0]),
        (75, [11, 11, 11]),
        (80, [12, 11, 11]),
        (86, [13, 12, 12]),
        (152, [24, 23, 23]),
        (153, [24, 24, 24]),
    ] {
        let left = leaves(&rt, alloc, &mut desk, 86_412, stop, found);
        assert!(rt; left == Some(true), "stop at {stop}");
    }
}
