//! Runs of the desk job that end at each device call, or of which one call fails, and the runs that go on behind them.
use crate::crews::{END, crew_over, kept_alone};
use reel_disk::MemoryDisk;
use run_crew::RunEnd;
use std::alloc::Global;
use std::sync::Wait;
use std::thread::Threads;
use test_desk::{Desk, has_reels};

/// How many frames a crew of four keeps that goes on over what a crash by this pick left, where it leaves the whole record.
fn kept_by_four<R: Threads + Wait + Sync>(
    rt: &R,
    alloc: Global,
    desk: &Desk,
    disk: &MemoryDisk,
    pick: u8,
    second: u32,
) -> Option<u32> {
    let crashed = disk.crash(pick).ok()?;
    let (end, report, left) = crew_over(rt, alloc, &desk.job, 4, crashed)?;
    let mut left = left;
    let all = report.kept.wrapping_add(report.rendered);
    (end == RunEnd::Done && all == 24 && has_reels(&mut left, second)).then_some(report.kept)
}

/// Whether one worker goes on over each of three crashes of this disk and so do four, with as many frames kept, which are as many
/// as were done before the stop, or one more.
fn is_resumed<R: Threads + Wait + Sync>(
    rt: &R,
    alloc: Global,
    desk: &mut Desk,
    disk: &MemoryDisk,
    second: u32,
    done: u32,
) -> bool {
    for pick in 0..3 {
        let alone = kept_alone(desk, disk, pick, second);
        if alone != Some(done) && alone != Some(done.saturating_add(1)) {
            return false;
        }
        if kept_by_four(rt, alloc, desk, disk, pick, second) != alone {
            return false;
        }
    }
    true
}

/// Whether runs that are stopped at each of these calls lose nothing: whatever a crash leaves, one worker goes on there and so
/// do four, with as many frames kept as were acknowledged before the stop, or one more. Eight calls are those of the opening, and
/// each frame has six. The desk's record is of one reel, or cut into two.
fn are_resumed<R: Threads + Wait + Sync>(
    rt: &R,
    alloc: Global,
    desk: &mut Desk,
    second: u32,
    first: u64,
    last: u64,
) -> Option<bool> {
    for stop in first..=last {
        let mut disk = MemoryDisk::stopped_at(alloc, stop).ok()?;
        let (end, report) = desk.run(&mut disk);
        let done = report.rendered;
        let is_stopped = end == RunEnd::DiskFault && u64::from(done) == stop.saturating_sub(9) / 6;
        if !is_stopped || !is_resumed(rt, alloc, desk, &disk, second, done) {
            return Some(false);
        }
    }
    Some(true)
}

fn of_one_reel<R: Threads + Wait + Sync>(
    rt: &R,
    alloc: Global,
    first: u64,
    last: u64,
) -> Option<bool> {
    let mut desk = Desk::new(alloc, &[])?;
    are_resumed(rt, alloc, &mut desk, END, first, last)
}

fn of_two_reels<R: Threads + Wait + Sync>(
    rt: &R,
    alloc: Global,
    first: u64,
    last: u64,
) -> Option<bool> {
    let mut desk = Desk::cut(alloc)?;
    are_resumed(rt, alloc, &mut desk, 86_412, first, last)
}

#[test]
fn a_run_goes_on_behind_a_stop_in_its_opening_and_at_its_first_frames(rt: HostRuntime) {
    assert!(rt; of_one_reel(&rt, rt.alloc(), 1, 26) == Some(true));
}

#[test]
fn a_run_goes_on_behind_a_stop_at_frames_3_to_6(rt: HostRuntime) {
    assert!(rt; of_one_reel(&rt, rt.alloc(), 27, 50) == Some(true));
}

#[test]
fn a_run_goes_on_behind_a_stop_at_frames_7_to_10(rt: HostRuntime) {
    assert!(rt; of_one_reel(&rt, rt.alloc(), 51, 74) == Some(true));
}

#[test]
fn a_run_goes_on_behind_a_stop_at_frames_11_to_14(rt: HostRuntime) {
    assert!(rt; of_one_reel(&rt, rt.alloc(), 75, 98) == Some(true));
}

#[test]
fn a_run_goes_on_behind_a_stop_at_frames_15_to_18(rt: HostRuntime) {
    assert!(rt; of_one_reel(&rt, rt.alloc(), 99, 122) == Some(true));
}

#[test]
fn a_run_goes_on_behind_a_stop_at_frames_19_to_23(rt: HostRuntime) {
    assert!(rt; of_one_reel(&rt, rt.alloc(), 123, 152) == Some(true));
}

#[test]
fn a_record_of_two_reels_goes_on_behind_a_stop_at_its_first_frames(rt: HostRuntime) {
    assert!(rt; of_two_reels(&rt, rt.alloc(), 1, 32) == Some(true));
}

#[test]
fn a_record_of_two_reels_goes_on_behind_a_stop_in_its_first_reel(rt: HostRuntime) {
    assert!(rt; of_two_reels(&rt, rt.alloc(), 33, 62) == Some(true));
}

#[test]
fn a_record_of_two_reels_goes_on_behind_a_stop_where_they_meet(rt: HostRuntime) {
    assert!(rt; of_two_reels(&rt, rt.alloc(), 63, 92) == Some(true));
}

#[test]
fn a_record_of_two_reels_goes_on_behind_a_stop_in_its_second_reel(rt: HostRuntime) {
    assert!(rt; of_two_reels(&rt, rt.alloc(), 93, 122) == Some(true));
}

#[test]
fn a_record_of_two_reels_goes_on_behind_a_stop_at_its_last_frames(rt: HostRuntime) {
    assert!(rt; of_two_reels(&rt, rt.alloc(), 123, 152) == Some(true));
}

/// A call of the opening, and of the first frame, that fails once ends the run; what was not made sure of may be there or not.
#[test]
fn a_call_that_fails_once_ends_a_run_that_goes_on(rt: HostRuntime) {
    let alloc = rt.alloc();
    let mut desk = Desk::new(alloc, &[]).expect(&rt, "a job");
    for (call, least, most) in [(6, 0, 0), (10, 0, 0), (14, 0, 1)] {
        let fails = Vec::from_slice(alloc, &[call]).ok().expect(&rt, "a list");
        let mut disk = MemoryDisk::failing(alloc, fails).ok().expect(&rt, "a disk");
        assert!(rt; desk.run(&mut disk).0 == RunEnd::DiskFault, "call {call}");
        for pick in 0..3 {
            let kept = kept_alone(&mut desk, &disk, pick, END);
            assert!(rt;
                kept.is_some_and(|kept| least <= kept && kept <= most),
                "call {call}, crash {pick}"
            );
        }
    }
}

/// Call 50 of a crew is the sync of the seventh gate.
#[test]
fn a_crew_whose_call_fails_once_has_that_frame_or_not(rt: HostRuntime) {
    let alloc = rt.alloc();
    let mut desk = Desk::new(alloc, &[]).expect(&rt, "a job");
    let fails = Vec::from_slice(alloc, &[50]).ok().expect(&rt, "a list");
    let disk = MemoryDisk::failing(alloc, fails).ok().expect(&rt, "a disk");
    let (end, _, disk) = crew_over(&rt, alloc, &desk.job, 3, disk).expect(&rt, "a crew");
    assert!(rt; end == RunEnd::DiskFault);
    for pick in 0..3 {
        let kept = kept_alone(&mut desk, &disk, pick, END);
        assert!(rt; kept == Some(6) || kept == Some(7), "crash {pick}");
    }
}
