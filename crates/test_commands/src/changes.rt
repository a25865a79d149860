//! Source files that change between the plan of a run and their load.
use crate::commands::{outcome_of, says, tells};
use cf_base::{Key, MemorySink, Name};
use dpx_header::FrameInfo;
use outcome::Outcome;
use reel_disk::MemoryDisk;
use scan_source::{MemoryScans, TurningScans};
use source_reels::Seen;
use std::alloc::Global;
use test_desk::{LIST, desk_scans, files_of, lined_picture, put_file};

/// What a scan of the desk says of its pixels, with so many bytes behind each line.
fn info(pad: u32) -> FrameInfo {
    FrameInfo {
        little: false,
        width: 2,
        height: 2,
        start: 2048,
        pad,
    }
}

/// The desk's files up to the sixth scan of A001, which isn't there or has four bytes behind each line.
fn later_files(alloc: Global, there: bool) -> Option<MemoryScans> {
    let mut files = files_of(alloc, LIST)?;
    files.truncate(7);
    if there {
        let padded = lined_picture(alloc, 100, 4)?;
        put_file(&mut files, b"a001/a001.0086405.dpx", padded)?;
    }
    Some(MemoryScans::new(files, Vec::new(alloc)))
}

/// What a run comes to, and its output, where the load of the sixth frame's file is the first call that goes to the later files:
/// before it there are the loads of the two texts, 26 heads, and the loads of five files.
fn run_changed(alloc: Global, there: bool, disk: &mut MemoryDisk) -> Option<(Outcome, MemorySink)> {
    let first = desk_scans(alloc, &[])?;
    let mut scan = TurningScans::new(first, later_files(alloc, there)?, 34);
    let mut out = MemorySink::new(alloc);
    let words = ["run", "desk.toml", "--workers", "1"];
    let outcome = outcome_of(alloc, &words, &mut scan, disk, &mut out, &[])?;
    Some((outcome, out))
}

/// Whether such a run ends as changed by what is there now, with five frames acknowledged, and the next one renders the rest.
fn ends_changed(alloc: Global, there: bool, now: Seen) -> Option<bool> {
    let mut disk = MemoryDisk::new(alloc).ok()?;
    let (outcome, out) = run_changed(alloc, there, &mut disk)?;
    let changed = Outcome::Changed {
        reel: Name::of(b"A001")?,
        key: Key {
            reel: 0,
            source: 86405,
        },
        was: info(0),
        now,
    };
    let is_told = outcome == changed
        && outcome.status() == 6
        && says(&out, "changed reel A001 frame 86405\n");
    let acknowledged = "frames 24\nacknowledged 5\n";
    let rest = "frames 24\nkept 5\nrendered 19\n";
    Some(
        is_told
            && tells(alloc, "status desk.toml", 0, &mut disk, acknowledged)
            && tells(alloc, "run desk.toml", 0, &mut disk, rest),
    )
}

#[test]
fn a_file_that_changed_behind_the_plan_ends_the_run(rt: HostRuntime) {
    let alloc = rt.alloc();
    assert!(rt; ends_changed(alloc, false, Seen::Absent) == Some(true));
    assert!(rt; ends_changed(alloc, true, Seen::Info(info(4))) == Some(true));
}
