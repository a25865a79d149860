//! Runs of the desk job on one thread: how often files are loaded, the device calls of a frame, and a stop at each of them.
use cf_base::{FileId, Key};
use dpx_header::FrameInfo;
use reel_disk::{Did, Disk, Got, Length, MemoryDisk};
use run_crew::RunEnd;
use source_reels::Seen;
use test_desk::{Desk, TWO, is_whole, report};
use test_stand_ins::{Call, Noted};

/// The length of a frame's file of the desk job.
const FRAME: usize = 2064;

const FIRST: FileId = FileId::Frame {
    reel: 1,
    frame: 86_400,
};

const SECOND: FileId = FileId::Frame {
    reel: 1,
    frame: 86_401,
};

#[test]
fn a_job_has_the_bands_and_the_reels_of_its_project(rt: HostRuntime) {
    let desk = Desk::new(rt.alloc(), &[]).expect(&rt, "a job");
    assert!(rt; desk.job.bands() == 4 && desk.job.reels().entries().len() == 2);
}

/// After the eight calls of the opening each frame has six: those of its file come before those of its record, and these before
/// those of its gate. A second run loads nothing.
#[test]
fn a_frames_file_is_kept_before_its_gate(rt: HostRuntime) {
    let alloc = rt.alloc();
    let mut desk = Desk::new(alloc, &[]).expect(&rt, "a job");
    let mut noted = Noted {
        disk: MemoryDisk::new(alloc).ok().expect(&rt, "a disk"),
        notes: Vec::new(alloc),
    };
    assert!(rt; desk.run(&mut noted) == (RunEnd::Done, report(0, 24, 26)));
    assert!(rt;
        noted.notes.get(8..20)
            == Some([
                Call::WriteWhole(FIRST, FRAME),
                Call::Sync(FIRST),
                Call::WriteAt(FileId::Body2, 65, 32),
                Call::Sync(FileId::Body2),
                Call::WriteAt(FileId::Body2, 64, 1),
                Call::Sync(FileId::Body2),
                Call::WriteWhole(SECOND, FRAME),
                Call::Sync(SECOND),
                Call::WriteAt(FileId::Body2, 98, 32),
                Call::Sync(FileId::Body2),
                Call::WriteAt(FileId::Body2, 97, 1),
                Call::Sync(FileId::Body2),
            ]
            .as_slice())
    );
    assert!(rt; noted.notes.len() == 152);
    assert!(rt; desk.run(&mut noted) == (RunEnd::Done, report(24, 0, 0)));
}

/// Whether a crash by this pick leaves the first frame's file so, and a run over what it leaves keeps so many frames and ends
/// with the whole reel.
fn goes_on(desk: &mut Desk, disk: &MemoryDisk, pick: u8, kept: u32, length: Length) -> bool {
    match disk.crash(pick) {
        Ok(crashed) => {
            let mut crashed = crashed;
            let found = crashed.length(FIRST);
            let (end, report) = desk.run(&mut crashed);
            found == length && end == RunEnd::Done && report.kept == kept && is_whole(&mut crashed)
        }
        Err(_) => false,
    }
}

/// Calls 9 to 14 are those of the first frame. A stop before the gate's write leaves the frame without an acknowledgement;
/// one between that and its sync leaves it either way, with the file there in both.
#[test]
fn a_stop_leaves_no_frame_half_acknowledged(rt: HostRuntime) {
    let alloc = rt.alloc();
    let mut desk = Desk::new(alloc, &[]).expect(&rt, "a job");
    let whole = Length::There(2064);
    for (stop, kept, lengths) in [
        (9, [0, 0, 0], [Length::Absent; 3]),
        (10, [0, 0, 0], [whole, Length::Absent, Length::There(1032)]),
        (11, [0, 0, 0], [whole; 3]),
        (12, [0, 0, 0], [whole; 3]),
        (13, [0, 0, 0], [whole; 3]),
        (14, [1, 0, 0], [whole; 3]),
        (15, [1, 1, 1], [whole; 3]),
    ] {
        let mut disk = MemoryDisk::stopped_at(alloc, stop)
            .ok()
            .expect(&rt, "a disk");
        assert!(rt;
            desk.run(&mut disk).0 == RunEnd::DiskFault,
            "stop at {stop}"
        );
        let all = goes_on(&mut desk, &disk, 0, kept[0], lengths[0])
            && goes_on(&mut desk, &disk, 1, kept[1], lengths[1])
            && goes_on(&mut desk, &disk, 2, kept[2], lengths[2]);
        assert!(rt; all, "stop at {stop}");
    }
}

/// Frame 3 has the calls 27 to 32: it is acknowledged once its gate is written, or not.
#[test]
fn a_run_that_was_stopped_loads_what_is_left(rt: HostRuntime) {
    let alloc = rt.alloc();
    let mut desk = Desk::new(alloc, &[]).expect(&rt, "a job");
    let mut disk = MemoryDisk::stopped_at(alloc, 32).ok().expect(&rt, "a disk");
    assert!(rt; desk.run(&mut disk) == (RunEnd::DiskFault, report(0, 3, 4)));
    for (pick, kept, loads) in [(0, 4, 22), (1, 3, 23)] {
        let mut crashed = disk.crash(pick).ok().expect(&rt, "a disk");
        let want = (RunEnd::Done, report(kept, 24 - kept, loads));
        assert!(rt; desk.run(&mut crashed) == want, "crash {pick}");
        assert!(rt; is_whole(&mut crashed), "crash {pick}");
    }
}

/// The first frames of a reel that was rendered by version 1.
const DONE: u32 = 5;

/// Copies so many bytes of a file from one disk to another, and makes sure of them.
fn copy(from: &mut MemoryDisk, to: &mut MemoryDisk, id: FileId) -> Option<()> {
    let mut bytes = [0; FRAME];
    if from.read(id, 0, &mut bytes) != Got::Bytes(FRAME) {
        return None;
    }
    keep(to, id, &bytes)
}

fn keep(disk: &mut MemoryDisk, id: FileId, bytes: &[u8]) -> Option<()> {
    (disk.write_whole(id, bytes) == Did::Done && disk.sync(id) == Did::Done).then_some(())
}

/// Lays out by 14 calls what a run of version 1 left that was stopped behind its first frames: its seal, its body with their
/// gates, and their files as a whole reel has them.
fn leave_version_1(whole: &mut MemoryDisk, disk: &mut MemoryDisk) -> Option<()> {
    let mut body = [0; 88];
    if whole.read(FileId::Body2, 0, &mut body) != Got::Bytes(88) {
        return None;
    }
    body[7] = b'1';
    for (at, gate) in body.iter_mut().enumerate().skip(64) {
        *gate = if at < 69 { b'A' } else { 0 };
    }
    keep(disk, FileId::Body, &body)?;
    keep(disk, FileId::Seal, b"CONFORM SEAL 1\n")?;
    for frame in 86_400..86_400 + DONE {
        copy(whole, disk, FileId::Frame { reel: 1, frame })?;
    }
    Some(())
}

/// Whether a run that was taken over goes on behind a crash by this pick: it keeps the first frames and renders the rest.
fn keeps_first(desk: &mut Desk, disk: &MemoryDisk, pick: u8) -> bool {
    match disk.crash(pick) {
        Ok(crashed) => {
            let mut crashed = crashed;
            let (end, report) = desk.run(&mut crashed);
            let all = end == RunEnd::Done && report.kept == DONE && report.rendered == 19;
            all && is_whole(&mut crashed)
        }
        Err(_) => false,
    }
}

/// The taking over makes 22 calls. A stop at each of them loses no acknowledgement, whatever a crash leaves.
#[test]
fn a_folder_of_version_1_is_taken_over(rt: HostRuntime) {
    let alloc = rt.alloc();
    let mut desk = Desk::new(alloc, &[]).expect(&rt, "a job");
    let mut whole = MemoryDisk::new(alloc).ok().expect(&rt, "a disk");
    assert!(rt; desk.run(&mut whole) == (RunEnd::Done, report(0, 24, 26)));
    for call in 1..24 {
        let mut disk = MemoryDisk::stopped_at(alloc, 14 + call)
            .ok()
            .expect(&rt, "a disk");
        assert!(rt; leave_version_1(&mut whole, &mut disk).is_some());
        let (end, stopped) = desk.run(&mut disk);
        let kept = if call < 23 { 0 } else { DONE };
        assert!(rt;
            end == RunEnd::DiskFault && stopped.kept == kept,
            "stop at {call}"
        );
        for pick in 0..3 {
            assert!(rt;
                keeps_first(&mut desk, &disk, pick),
                "stop at {call}, crash {pick}"
            );
        }
    }
}

/// The plan makes 28 calls on the scans, so the load of the sixth frame's file is call 34.
#[test]
fn a_run_ends_where_a_source_frame_fails_or_changed(rt: HostRuntime) {
    let alloc = rt.alloc();
    let mut desk = Desk::new(alloc, &[34]).expect(&rt, "a job");
    let mut disk = MemoryDisk::new(alloc).ok().expect(&rt, "a disk");
    assert!(rt; desk.run(&mut disk) == (RunEnd::SourceFault, report(0, 5, 6)));
    let changed = RunEnd::Changed {
        key: Key {
            reel: 0,
            source: 86405,
        },
        was: FrameInfo {
            little: false,
            width: 2,
            height: 2,
            start: 2048,
            pad: 0,
        },
        now: Seen::Absent,
    };
    assert!(rt; desk.run_without_files(&mut disk) == (changed, report(5, 0, 1)));
    assert!(rt; desk.run(&mut disk) == (RunEnd::Done, report(5, 19, 21)));
}

/// Ten record frames of one source frame.
const STILL: &[u8] = b"001 A001 V C 01:00:00:00 01:00:00:10 01:00:00:00 01:00:00:10
M2 A001 000.0 01:00:00:00
";

#[test]
fn a_source_frame_that_is_shared_is_not_loaded_again(rt: HostRuntime) {
    let alloc = rt.alloc();
    let mut still = Desk::with_list(alloc, STILL, &[]).expect(&rt, "a job");
    assert!(rt; still.loads(8) == Some(1));
    let mut two = Desk::with_list(alloc, TWO, &[]).expect(&rt, "a job");
    assert!(rt; two.loads(2) == Some(2));
    assert!(rt; two.loads(1) == Some(5));
}
