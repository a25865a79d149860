//! A plan of a reel of twenty minutes over scans that are all alike, of which none can be loaded.
use crate::commands::answered;
use cf_base::{MemorySink, PathText, last_digits};
use project_job::planned;
use reel_disk::MemoryDisk;
use scan_source::{MemoryScans, SameScans};
use std::alloc::Global;
use test_desk::put_file;

const PROJECT: &[u8] = b"rate = 24
width = 2048
height = 1556
edl = \"long.edl\"
cube = \"long.cube\"

[[reel]]
name = \"A001\"
prefix = \"a001/a001.\"
start = \"00:00:00:00\"
frames = 28800
";

/// The label of the first frame of a second of the first hour, behind a blank.
fn put_label(text: &mut Vec<u8>, second: u32) -> Option<()> {
    let minutes: [u8; 2] = last_digits(second / 60);
    let seconds: [u8; 2] = last_digits(second % 60);
    for part in [b" 00:".as_slice(), &minutes, b":", &seconds, b":00"] {
        text.extend_from_slice(part).ok()?;
    }
    Some(())
}

/// A cut of one second, with the same labels in the source and in the record.
fn put_event(text: &mut Vec<u8>, second: u32) -> Option<()> {
    text.extend_from_slice(b"001 A001 V C").ok()?;
    let next = second.wrapping_add(1);
    for label in [second, next, second, next] {
        put_label(text, label)?;
    }
    text.push(b'\n').ok()
}

/// 1,200 events of a second each.
fn list(alloc: Global) -> Option<Vec<u8>> {
    let mut text = Vec::new(alloc);
    for second in 0..1_200 {
        put_event(&mut text, second)?;
    }
    Some(text)
}

/// A cube of size 33, which has as many lines as its third power.
fn cube(alloc: Global) -> Option<Vec<u8>> {
    let mut text = Vec::from_slice(alloc, b"LUT_3D_SIZE 33\n").ok()?;
    for _ in 0..35_937 {
        text.extend_from_slice(b"0 0.5 1\n").ok()?;
    }
    Some(text)
}

/// The head of a scan of 2048 by 1556 pixels that begin at byte 8192, whose padding is undefined.
fn head() -> [u8; 2048] {
    let mut head = [0; 2048];
    head[..4].copy_from_slice(b"SDPX");
    head[770..780].copy_from_slice(b"\0\x01\0\0\x08\0\0\0\x06\x14");
    head[800..812].copy_from_slice(b"\x32\0\0\x0A\0\x01\0\0\0\0\x20\0");
    head[812..816].copy_from_slice(&[255; 4]);
    head
}

/// The three texts, and at every other path a scan of 8192 bytes and four for each pixel.
fn scans(alloc: Global) -> Option<SameScans> {
    let mut files = Vec::new(alloc);
    put_file(
        &mut files,
        b"long.toml",
        Vec::from_slice(alloc, PROJECT).ok()?,
    )?;
    put_file(&mut files, b"long.edl", list(alloc)?)?;
    put_file(&mut files, b"long.cube", cube(alloc)?)?;
    let texts = MemoryScans::new(files, Vec::new(alloc));
    Some(SameScans::new(texts, head(), 12_754_944))
}

#[test]
fn a_reel_of_twenty_minutes_is_planned(rt: HostRuntime) {
    let alloc = rt.alloc();
    let mut scan = scans(alloc).expect(&rt, "scans");
    let mut disk = MemoryDisk::new(alloc).ok().expect(&rt, "a disk");
    let mut out = MemorySink::new(alloc);
    let ended = answered(alloc, "plan long.toml", &mut scan, &mut disk, &mut out);
    assert!(rt; ended == Some((0, None)));
    assert!(rt; out.bytes().starts_with(b"00:00:00:00 A001 0\n"));
    assert!(rt;
        out.bytes()
            .ends_with(b"00:19:59:23 A001 28799\nframes 28800\n")
    );
    let path = PathText::of(b"long.toml").expect(&rt, "a path");
    let job = planned(alloc, &path, &mut scan).ok().expect(&rt, "a job");
    assert!(rt; job.count() == 28_800 && job.width() == 2048 && job.height() == 1556);
    drop(job);
}
