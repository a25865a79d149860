//! Tones that a house hands in, and contact sheets that a disk in memory fails.
use cf_base::FileId;
use reel_disk::{Disk, DiskFail, Got, MemoryDisk};
use reel_qc::{SheetDone, Tone, ToneTable, make_sheet, square, square_table};
use resume_ledger::Ledger;
use std::alloc::Global;
use test_desk::{Desk, is_whole};

/// A change of one value leaves a table of zeros and then codes of 1023 one, or doesn't.
#[test]
fn a_table_that_falls_or_goes_past_the_last_code_is_none(rt: HostRuntime) {
    let mut values = [0; 1024];
    values[512..].fill(1023);
    assert!(rt; ToneTable::of(&[0; 1024]).is_some() && ToneTable::of(&[1023; 1024]).is_some());
    for (place, value, is_table) in [
        (0, 0, true),
        (0, 1, false),
        (511, 1023, true),
        (511, 1024, false),
        (512, 0, true),
        (513, 1022, false),
        (1023, 1023, true),
        (1023, 1022, false),
        (1023, 1024, false),
        (1023, 65535, false),
    ] {
        let mut changed = values;
        if let Some(changed) = changed.get_mut(place) {
            *changed = value;
        }
        assert!(rt;
            ToneTable::of(&changed).is_some() == is_table,
            "{place} {value}"
        );
    }
}

/// The square of a code over 1023, to the nearest code.
#[test]
fn the_square_keeps_black_and_white(rt: HostRuntime) {
    let tone = Tone::new(square_table(), square);
    assert!(rt; tone.at(0) == 0 && tone.at(22) == 0 && tone.at(23) == 1 && tone.at(113) == 12);
    assert!(rt; tone.at(512) == 256 && tone.at(1022) == 1021 && tone.at(1023) == 1023);
    let table = square_table();
    assert!(rt; table.at(0) == 0 && table.at(22) == 0 && table.at(23) == 1 && table.at(113) == 12);
    assert!(rt; table.at(512) == 256 && table.at(1022) == 1021 && table.at(1023) == 1023);
}

/// The contact sheet of what the folder acknowledges of the desk's job.
fn sheet(alloc: Global, desk: &Desk, disk: &mut MemoryDisk) -> Option<Result<SheetDone, DiskFail>> {
    let job = &desk.job;
    let tone = Tone::new(square_table(), square);
    match Ledger::look(alloc, disk, job.digest(), job.timeline().count()) {
        Ok(view) => Some(make_sheet(alloc, disk, job, &view, &tone)),
        Err(_) => None,
    }
}

/// The words of the desk's sheet: a cell of each event, and six places without one.
const WORDS: &[u8] =
    b"\x02\x80\xA0\x28\x03\x00\xC0\x30\0\0\0\0\0\0\0\0\0\0\0\0\0\0\0\0\0\0\0\0\0\0\0\0";

/// A run makes 152 calls on the disk and a look four. A sheet reads the first frames of two events, and writes and syncs its
/// file; the last row is of no failure.
#[test]
fn a_sheet_fails_at_each_of_its_calls_and_leaves_the_reel(rt: HostRuntime) {
    let alloc = rt.alloc();
    let mut desk = Desk::new(alloc, &[]).expect(&rt, "a job");
    for (call, is_there) in [
        (157, false),
        (158, false),
        (159, false),
        (160, true),
        (999, true),
    ] {
        let calls = Vec::from_slice(alloc, &[call]).ok().expect(&rt, "numbers");
        let mut disk = MemoryDisk::failing(alloc, calls).ok().expect(&rt, "a disk");
        let _ = desk.run(&mut disk);
        let made = sheet(alloc, &desk, &mut disk).expect(&rt, "a view");
        let mut left = [1; 33];
        let read = disk.read(FileId::Sheet, 2048, &mut left);
        assert!(rt;
            made.is_ok() == (call == 999) && made != Err(DiskFail::NoMemory),
            "{call}"
        );
        assert!(rt; made.is_err() || made == Ok(SheetDone { cells: 2, peak: 12 }));
        assert!(rt;
            is_there == (read == Got::Bytes(32) && left.starts_with(WORDS)),
            "{call}"
        );
        assert!(rt; is_whole(&mut disk), "{call}");
    }
}
