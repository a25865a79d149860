//! Commands over scans, disks and sinks in memory that fail at chosen calls, and over scans that wait for one another.
ghost use Rattle.std.specs.Prelude.{◌≡◌, ◌≤◌, IfSome, AllPairs, length, vec_len};

use cf_base::{FileId, MemorySink, PathText, Sink, StreamSink};
use conform_tool::{Ended, answer, conform};
use outcome::Outcome;
use reel_disk::{Disk, Length, MemoryDisk};
use reel_qc::{Probe, ProbeKind, Tone, square, square_table, sum};
use scan_source::{MemoryScans, Scans};
use std::alloc::Global;
use std::sync::Wait;
use std::thread::Threads;
use test_desk::{TWO, Together, desk_scans, is_whole, scans_of, scans_together};
use test_stand_ins::{Gate, GatedScans, Slow};

/// The tone that the program hands in.
pub fn squared() -> Tone {
    Tone::new(square_table(), square)
}

/// What the words come to, where no folder of an old reel is.
pub fn outcome_of<S: Scans, K: Sink>(
    alloc: Global,
    words: &[&str],
    scan: &mut S,
    disk: &mut MemoryDisk,
    out: &mut K,
    probes: &[Probe],
) -> Option<Outcome>
    requires { length probes.now ≤ 16 }
{
    let mut old = MemoryDisk::new(alloc).ok()?;
    Some(answer(alloc, words, scan, disk, &mut old, out, probes, &squared()))
}

/// The same by threads, over a disk that was never used.
pub fn conformed<S: Scans + Send, R: Threads + Wait + Sync>(
    rt: &R,
    alloc: Global,
    words: &[&str],
    scans: Vec<S>,
    out: &mut MemorySink,
    probes: &[Probe],
) -> Option<Ended<S, MemoryDisk>>
    requires some { 1 ≤ vec_len scans }
    requires few { vec_len scans ≤ 16 }
    requires few_probes { length probes.now ≤ 16 }
    requires one_world { AllPairs (λ a b. (S.state a).world ≡ (S.state b).world) scans.items }
{
    let mut old = MemoryDisk::new(alloc).ok()?;
    let disk = MemoryDisk::new(alloc).ok()?;
    Some(conform(
        rt,
        alloc,
        words,
        scans,
        disk,
        &mut old,
        out,
        probes,
        &squared(),
    ))
}

/// The status that the words of a line come to, which have one blank between them, and the one in whose place a fault of the
/// sink stands.
pub fn answered<S: Scans, K: Sink>(
    alloc: Global,
    line: &str,
    scan: &mut S,
    disk: &mut MemoryDisk,
    out: &mut K,
) -> Option<(u8, Option<u8>)> {
    let mut words = Vec::new(alloc);
    for word in line.split(' ') {
        words.push(word).ok()?;
    }
    let probes = [Probe::new(ProbeKind::Sum, sum)];
    let outcome = outcome_of(alloc, &words, scan, disk, out, &probes)?;
    let instead = match outcome {
        Outcome::SinkFault { instead } => Some(instead),
        _ => None,
    };
    Some((outcome.status(), instead))
}

/// What a line puts over the desk's files, of which the call of this number fails, 0 for none.
pub fn put(alloc: Global, line: &str, fail: u64, disk: &mut MemoryDisk) -> Option<MemorySink> {
    let mut scan = desk_scans(alloc, &[fail])?;
    let mut out = MemorySink::new(alloc);
    answered(alloc, line, &mut scan, disk, &mut out)?;
    Some(out)
}

pub fn says(out: &MemorySink, text: &str) -> bool {
    out.bytes() == text.as_bytes()
}

/// Whether a line puts this text over the desk's files, of which the call of this number fails, 0 for none.
pub fn tells(alloc: Global, line: &str, fail: u64, disk: &mut MemoryDisk, text: &str) -> bool {
    match put(alloc, line, fail, disk) {
        Some(out) => says(&out, text),
        None => false,
    }
}

/// Whether what it puts begins and ends so.
fn shows(
    alloc: Global,
    line: &str,
    fail: u64,
    disk: &mut MemoryDisk,
    front: &[u8],
    back: &[u8],
) -> bool {
    match put(alloc, line, fail, disk) {
        Some(out) => out.bytes().starts_with(front) && out.bytes().ends_with(back),
        None => false,
    }
}

/// Two texts and 26 heads, and then the loads, of which the sixth frame's is call 34.
#[test]
fn a_fault_of_the_scan_ends_a_command_where_it_stands(rt: HostRuntime) {
    let alloc = rt.alloc();
    let mut disk = MemoryDisk::new(alloc).ok().expect(&rt, "a disk");
    for (line, fail) in [
        ("frame a001/a001.0086400.dpx", 1),
        ("list desk.edl 24", 1),
        ("plan desk.toml", 1),
        ("plan desk.toml", 2),
        ("plan desk.toml", 3),
        ("plan desk.toml", 28),
        ("status desk.toml", 28),
        ("qc desk.toml", 28),
        ("run desk.toml --workers 1", 1),
        ("run desk.toml --workers 1", 5),
    ] {
        let told = tells(alloc, line, fail, &mut disk, "source fault\n");
        let is_unwritten = disk.length(FileId::Seal2) == Length::Absent;
        assert!(rt; told && is_unwritten, "{line}, call {fail}");
    }
    for (line, fail, front) in [
        ("plan desk.toml", 29, b"01:00:00:00 A001 86400\n".as_slice()),
        ("run desk.toml --workers 1", 34, b"source fault\n"),
        ("run desk.toml", 0, b"frames 24\nkept 5\nrendered 19\n"),
    ] {
        let shown = shows(alloc, line, fail, &mut disk, front, b"");
        assert!(rt; shown, "{line}, call {fail}");
    }
}

/// Whether a run that is stopped at this call leaves so much acknowledged after a crash by this pick, and another one so much to
/// render, and the whole reel.
fn goes_on(alloc: Global, stop: u64, pick: u8, acknowledged: &str, rest: &str) -> Option<bool> {
    let mut disk = MemoryDisk::stopped_at(alloc, stop).ok()?;
    let is_fault = tells(alloc, "run desk.toml", 0, &mut disk, "disk fault\n");
    let mut left = disk.crash(pick).ok()?;
    let is_told = tells(alloc, "status desk.toml", 0, &mut left, acknowledged);
    let is_rest = tells(alloc, "run desk.toml", 0, &mut left, rest);
    Some(is_fault && is_told && is_rest && is_whole(&mut left))
}

/// Frame 0 has the calls 9 to 14: the write of its file and its sync, that of its record and its sync, the write of its gate and
/// its sync. Frame 5 begins with call 39.
#[test]
fn a_command_that_was_stopped_goes_on(rt: HostRuntime) {
    let alloc = rt.alloc();
    for (stop, pick, acknowledged, rest) in [
        (
            14,
            0,
            "frames 24\nacknowledged 1\n",
            "frames 24\nkept 1\nrendered 23\n",
        ),
        (
            14,
            1,
            "frames 24\nacknowledged 0\n",
            "frames 24\nkept 0\nrendered 24\n",
        ),
        (
            14,
            2,
            "frames 24\nacknowledged 0\n",
            "frames 24\nkept 0\nrendered 24\n",
        ),
        (
            39,
            1,
            "frames 24\nacknowledged 5\n",
            "frames 24\nkept 5\nrendered 19\n",
        ),
    ] {
        let goes_on = goes_on(alloc, stop, pick, acknowledged, rest);
        assert!(rt; goes_on == Some(true), "stop at {stop}, crash {pick}");
    }
}

/// A run has 152 calls, and a look at its ledger 4; then each frame's file is read, the second by call 158.
#[test]
fn a_fault_of_the_disk_ends_a_table(rt: HostRuntime) {
    let alloc = rt.alloc();
    let fails = Vec::from_slice(alloc, &[158]).ok().expect(&rt, "a number");
    let mut disk = MemoryDisk::failing(alloc, fails).ok().expect(&rt, "a disk");
    let lines = [
        ("qc desk.toml", "qc sum\nframes 0\n"),
        ("run desk.toml", "frames 24\nkept 0\nrendered 24\n"),
        ("qc desk.toml", "disk fault\n"),
    ];
    for (line, told) in lines {
        assert!(rt; tells(alloc, line, 0, &mut disk, told), "{line}");
    }
    let (front, back) = (
        b"qc sum\n0 1200\n".as_slice(),
        b"\n23 2400\nframes 24\n".as_slice(),
    );
    assert!(rt; shows(alloc, "qc desk.toml", 0, &mut disk, front, back));
}

/// What a line comes to over the desk's files and a sink of so much room, and whether the sink keeps this prefix.
fn kept_of(
    alloc: Global,
    line: &str,
    room: usize,
    disk: &mut MemoryDisk,
    prefix: &[u8],
) -> Option<(u8, Option<u8>, bool)> {
    let mut scan = desk_scans(alloc, &[])?;
    let mut out = StreamSink::new(Slow {
        bytes: Vec::new(alloc),
        room,
    });
    let (status, instead) = answered(alloc, line, &mut scan, disk, &mut out)?;
    let is_kept = out.into_writer().bytes.as_slice() == prefix;
    Some((status, instead, is_kept))
}

/// A sink of so much room over the desk's files.
#[test]
fn a_sink_that_fails_keeps_a_prefix_and_the_status(rt: HostRuntime) {
    let alloc = rt.alloc();
    let mut disk = MemoryDisk::new(alloc).ok().expect(&rt, "a disk");
    for (line, room, instead, prefix) in [
        ("frame a001/a001.0086400.dpx", 3, 0, b"SDP".as_slice()),
        ("frame none.dpx", 7, 2, b"refused"),
        ("none none.dpx", 0, 1, b""),
        ("run desk.toml", 3, 0, b"fra"),
    ] {
        let kept = kept_of(alloc, line, room, &mut disk, prefix);
        assert!(rt; kept == Some((9, Some(instead), true)), "{line}");
    }
    let told = "frames 24\nkept 24\nrendered 0\n";
    assert!(rt; tells(alloc, "run desk.toml", 0, &mut disk, told));
}

/// An answer's output goes by one put.
#[test]
fn a_put_that_fails_by_its_number_keeps_a_prefix_and_the_status(rt: HostRuntime) {
    let alloc = rt.alloc();
    let mut scan = desk_scans(alloc, &[]).expect(&rt, "files");
    let mut disk = MemoryDisk::new(alloc).ok().expect(&rt, "a disk");
    let fails = Vec::from_slice(alloc, &[1]).ok().expect(&rt, "a list");
    let mut out = MemorySink::failing(alloc, fails, 3)
        .ok()
        .expect(&rt, "a sink");
    let ended = answered(alloc, "run desk.toml", &mut scan, &mut disk, &mut out);
    assert!(rt; ended == Some((9, Some(0))) && says(&out, "fra"));
    let ended = answered(alloc, "status desk.toml", &mut scan, &mut disk, &mut out);
    assert!(rt; ended == Some((0, None)) && says(&out, "fraframes 24\nacknowledged 24\n"));
}

/// How many files a line loads over the files of the list of two, with the two texts among them, where it is done.
fn loads_of(alloc: Global, line: &str) -> Option<u64> {
    let mut scan = recording(scans_of(alloc, TWO, &[])?);
    let mut disk = MemoryDisk::new(alloc).ok()?;
    let mut out = MemorySink::new(alloc);
    let ended = answered(alloc, line, &mut scan, &mut disk, &mut out)?;
    (ended == (0, None)).then_some(scan.gate.loads)
}

#[test]
fn the_words_say_how_many_source_frames_are_shared(rt: HostRuntime) {
    let alloc = rt.alloc();
    assert!(rt; loads_of(alloc, "run desk.toml --workers 1 --share 2") == Some(4));
    assert!(rt; loads_of(alloc, "run desk.toml --workers 1 --share 1") == Some(7));
}

/// How many bytes the last load asked for, and how many loads there were.
#[derive(Drop)]
struct Asked {
    most: u64,
    loads: u64,
}

impl Gate for Asked {
    fn passes(&mut self, _: &PathText, most: u64) -> bool {
        self.most = most;
        self.loads = self.loads.saturating_add(1);
        true
    }
}

/// Scans that tell what was asked of them.
fn recording(files: MemoryScans) -> GatedScans<Asked> {
    GatedScans::new(files, Asked { most: 0, loads: 0 })
}

#[test]
fn a_command_asks_for_as_many_bytes_as_its_largest_file_has(rt: HostRuntime) {
    let alloc = rt.alloc();
    let mut scan = recording(desk_scans(alloc, &[]).expect(&rt, "files"));
    let mut disk = MemoryDisk::new(alloc).ok().expect(&rt, "a disk");
    let mut out = MemorySink::new(alloc);
    for (line, most) in [
        ("list desk.edl 50", 0),
        ("frame a001/a001.0086400.dpx", 84_914_180),
        ("list desk.edl 25", 4_194_305),
        ("plan none.toml", 1_048_577),
    ] {
        assert!(rt;
            answered(alloc, line, &mut scan, &mut disk, &mut out).is_some(),
            "{line}"
        );
        assert!(rt; scan.gate.most == most, "{line}");
    }
}

/// Three scans over the desk's files that wait for one another.
fn held(alloc: Global) -> Option<Vec<GatedScans<Together>>>
    ensures { IfSome result (λ scans. vec_len scans ≡ 3) }
{
    scans_together(alloc, 3, 0, 3, 1)
}

/// A run on one thread would wait in vain, and end as a source fault.
#[test]
fn three_workers_load_beside_one_another_and_leave_the_reel(rt: HostRuntime) {
    let alloc = rt.alloc();
    let mut out = MemorySink::new(alloc);
    let words = ["run", "desk.toml", "--workers", "3"];
    let scans = held(alloc).expect(&rt, "scans");
    let Ended {
        outcome,
        scans,
        mut disk,
    } = conformed(&rt, alloc, &words, scans, &mut out, &[]).expect(&rt, "an answer");
    assert!(rt; outcome == Outcome::Done);
    assert!(rt; says(&out, "frames 24\nkept 0\nrendered 24\n"));
    assert!(rt; scans.len() == 3);
    assert!(rt; is_whole(&mut disk));
}
