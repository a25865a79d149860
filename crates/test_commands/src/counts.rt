//! Counts in pieces, and tables of other probes than the program's.
ghost use Rattle.std.specs.Prelude.{◌≤◌, length};

use crate::commands::{conformed, outcome_of};
use cf_base::MemorySink;
use conform_tool::Ended;
use outcome::Outcome;
use reel_disk::MemoryDisk;
use reel_qc::{Probe, ProbeKind, count_forked, frame_words, high, low, sum};
use scan_source::MemoryScans;
use std::alloc::Global;
use test_desk::{Desk, desk_scans};

/// The last piece of some is shorter than 512 words, and some have none.
#[test]
fn counts_in_pieces_are_those_of_the_whole(rt: HostRuntime) {
    let probes = [
        Probe::new(ProbeKind::High, high),
        Probe::new(ProbeKind::Low, low),
        Probe::new(ProbeKind::Sum, sum),
    ];
    assert!(rt; probes[0].kind() == ProbeKind::High && probes[2].kind() == ProbeKind::Sum);
    let words = [0x0080_3004; 1537];
    for count in [0, 1, 511, 512, 513, 1024, 1537] {
        let all = &words[..count as usize];
        for (probe, each) in probes.iter().zip([0, 1, 6]) {
            let forked = count_forked(&rt, probe, all).ok();
            assert!(rt;
                forked == Some(count * each) && probe.run(all) == count * each,
                "{count}"
            );
        }
    }
}

/// Channels are counted by themselves: each word has one at an end of its range, or next to it.
#[test]
fn a_word_is_high_or_low_by_one_channel(rt: HostRuntime) {
    for (word, highs, lows) in [
        (1020 << 22 | 500 << 12 | 500 << 2, 1, 0),
        (500 << 22 | 1020 << 12 | 500 << 2, 1, 0),
        (500 << 22 | 500 << 12 | 1020 << 2, 1, 0),
        (1019 << 22 | 1019 << 12 | 1019 << 2, 0, 0),
        (500 << 22 | 500 << 12 | 3 << 2, 0, 1),
        (500 << 22 | 3 << 12 | 500 << 2, 0, 1),
        (3 << 22 | 500 << 12 | 500 << 2 | 3, 0, 1),
        (4 << 22 | 4 << 12 | 4 << 2 | 3, 0, 0),
        (1023 << 22 | 1023 << 2, 1, 1),
    ] {
        assert!(rt; high(&[word]) == highs && low(&[word]) == lows, "{word}");
    }
}

/// The desk's frames have four pixels.
#[test]
fn a_file_has_as_many_words_as_are_whole(rt: HostRuntime) {
    let alloc = rt.alloc();
    let desk = Desk::new(alloc, &[]).expect(&rt, "a job");
    let mut words = Vec::new(alloc);
    let file = [7u8; 2100];
    for (len, count) in [
        (0, 0),
        (2047, 0),
        (2051, 0),
        (2052, 1),
        (2063, 3),
        (2064, 4),
        (2100, 4),
    ] {
        assert!(rt; frame_words(&desk.job, &file[..len], &mut words).is_ok());
        assert!(rt; words.as_slice() == &[0x0707_0707u32; 4][..count], "{len}");
    }
}

/// Whether the table of these probes over the desk's files is put, and begins and ends so.
fn is_tabled(
    alloc: Global,
    scan: &mut MemoryScans,
    disk: &mut MemoryDisk,
    probes: &[Probe],
    front: &[u8],
    back: &[u8],
) -> bool
    requires { length probes.now ≤ 16 }
{
    let mut out = MemorySink::new(alloc);
    let words = ["qc", "desk.toml"];
    let reached = outcome_of(alloc, &words, scan, disk, &mut out, probes);
    reached == Some(Outcome::Done) && out.bytes().starts_with(front) && out.bytes().ends_with(back)
}

#[test]
fn a_table_has_a_column_for_each_probe(rt: HostRuntime) {
    let alloc = rt.alloc();
    let probes = [Probe::new(ProbeKind::Low, low); 16];
    let mut scan = desk_scans(alloc, &[]).expect(&rt, "files");
    let mut disk = MemoryDisk::new(alloc).ok().expect(&rt, "a disk");
    let mut out = MemorySink::new(alloc);
    let words = ["run", "desk.toml"];
    let ran = outcome_of(alloc, &words, &mut scan, &mut disk, &mut out, &[]);
    assert!(rt; ran == Some(Outcome::Done));
    for (count, front, back) in [
        (
            0,
            b"qc\n0\n1\n2\n".as_slice(),
            b"\n22\n23\nframes 24\n".as_slice(),
        ),
        (
            1,
            b"qc low\n0 0\n1 0\n",
            b"\n10 4\n11 4\n12 0\n13 0\n14 0\n15 0\n16 0\n17 0\n18 0\n19 0\n20 0\n21 0\n22 0\n23 0\nframes 24\n",
        ),
        (
            16,
            b"qc low low low low low low low low low low low low low low low low\n0 0 0 0 0 0 0 0 0 0 0 0 0 0 0 0 0\n",
            b"\n23 0 0 0 0 0 0 0 0 0 0 0 0 0 0 0 0\nframes 24\n",
        ),
    ] {
        let probes = &probes[..count];
        assert!(rt;
            is_tabled(alloc, &mut scan, &mut disk, probes, front, back),
            "{count}"
        );
    }
}

#[test]
fn a_table_of_no_frame_is_made_by_threads(rt: HostRuntime) {
    let alloc = rt.alloc();
    let probes = [Probe::new(ProbeKind::High, high); 2];
    let scan = desk_scans(alloc, &[]).expect(&rt, "files");
    let mut scans = Vec::new(alloc);
    assert!(rt; scans.push(scan).is_ok() && scans.len() == 1);
    let mut out = MemorySink::new(alloc);
    let words = ["qc", "desk.toml"];
    let Ended {
        outcome,
        scans: _,
        disk: _,
    } = conformed(&rt, alloc, &words, scans, &mut out, &probes).expect(&rt, "an answer");
    assert!(rt; outcome == Outcome::Done);
    assert!(rt; out.bytes() == b"qc high high\nframes 0\n".as_slice());
}
