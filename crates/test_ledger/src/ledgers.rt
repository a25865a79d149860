//! The ledger over disks in memory: its calls in order, and a stop at each call.
ghost use Rattle.std.specs.Prelude.{◌≡◌, ◌<◌, ℕ, true, false, length, slice_index_or};
ghost use Rattle.reel_disk.specs.Disk.{moment_of};
ghost use Rattle.resume_ledger.specs.Ledger.{Agrees};
ghost use Rattle.resume_ledger.specs.Sound.{IsFrameFile, file_at};

use cf_base::FileId;
use reel_disk::{Disk, DiskFault, MemoryDisk};
use resume_ledger::{Ledger, OpenFault, ledger_laws};
use std::alloc::Global;
use test_stand_ins::{Call, Noted};

const JOB: [u8; 32] = [7; 32];

/// The digest that is kept of a frame.
const RECORD: [u8; 32] = [9; 32];

/// The length of a frame's file.
const SIZE: u64 = 2064;

/// A job's 24 files. Which they are doesn't matter to a folder of version 2.
fn files() -> [FileId; 24]
    ensures frames { (i : ℕ) → i < 24 → IsFrameFile (file_at result i) }
{
    [FileId::Frame {
        reel: 1,
        frame: 86_400,
    }; 24]
}

/// How many frames a folder acknowledges when it is attached for the job of 24 frames, or why it is refused.
fn attached<D: Disk>(alloc: Global, disk: &mut D) -> Result<u32, OpenFault> {
    match Ledger::attach(alloc, disk, JOB, &files(), SIZE) {
        Ok(ledger) => Ok(ledger.acked()),
        Err(fault) => Err(fault),
    }
}

fn peeked<D: Disk>(alloc: Global, disk: &mut D) -> Result<u32, OpenFault> {
    Ledger::peek(alloc, disk, JOB, 24)
}

/// Attaches a folder and acknowledges frame 1, or frame 3 where that one is acknowledged.
fn acknowledge<D: Disk>(alloc: Global, disk: &mut D) -> Option<Result<(), DiskFault>> {
    match Ledger::attach(alloc, disk, JOB, &files(), SIZE) {
        Ok(ledger) => {
            let mut ledger = ledger;
            keep_next(&mut ledger, disk)
        }
        Err(_) => None,
    }
}

/// Keeps frame 1, or frame 3 where that one is acknowledged.
fn keep_next<D: Disk>(ledger: &mut Ledger, disk: &mut D) -> Option<Result<(), DiskFault>>
    requires is_open { ledger.old.closed ≡ false }
    requires agrees { D.tells ≡ true → Agrees (moment_of (D.state disk.old).history) ledger.old }
    requires size { length ledger.old.gates ≡ 24 }
{
    if !ledger.is_acked(1) {
        return Some(keep(ledger, disk, 1));
    }
    if ledger.is_acked(3) {
        return None;
    }
    Some(keep(ledger, disk, 3))
}

/// Keeps the record of a frame and acknowledges it.
fn keep<D: Disk>(ledger: &mut Ledger, disk: &mut D, i: u32) -> Result<(), DiskFault>
    requires is_open { ledger.old.closed ≡ false }
    requires agrees { D.tells ≡ true → Agrees (moment_of (D.state disk.old).history) ledger.old }
    requires within { i < length ledger.old.gates }
    requires fresh { slice_index_or ledger.old.gates i false ≡ false }
{
    ledger.note(disk, i, RECORD)?;
    ledger.ack(disk, i)
}

/// The calls of an attach on a fresh folder, of one acknowledgement, and of an attach on the sealed folder.
#[test]
fn the_calls_on_the_disk_come_in_order(rt: HostRuntime) {
    let alloc = rt.alloc();
    let disk = MemoryDisk::new(alloc).ok().expect(&rt, "a disk");
    let mut noted = Noted {
        disk,
        notes: Vec::new(alloc),
    };
    assert!(rt; acknowledge(alloc, &mut noted) == Some(Ok(())));
    assert!(rt; attached(alloc, &mut noted) == Ok(1));
    assert!(rt;
        noted.notes.as_slice()
            == [
                Call::Sync(FileId::Seal2),
                Call::Length(FileId::Seal2),
                Call::Sync(FileId::Seal),
                Call::Length(FileId::Seal),
                Call::WriteWhole(FileId::Body2, 856),
                Call::Sync(FileId::Body2),
                Call::WriteWhole(FileId::Seal2, 15),
                Call::Sync(FileId::Seal2),
                Call::WriteAt(FileId::Body2, 98, 32),
                Call::Sync(FileId::Body2),
                Call::WriteAt(FileId::Body2, 97, 1),
                Call::Sync(FileId::Body2),
                Call::Sync(FileId::Seal2),
                Call::Length(FileId::Seal2),
                Call::Read(FileId::Seal2, 0, 15),
                Call::Sync(FileId::Body2),
                Call::Length(FileId::Body2),
                Call::Read(FileId::Body2, 0, 856),
            ]
            .as_slice()
    );
    ledger_laws();
}

/// The calls of a peek at a fresh folder, and at a sealed one, of which neither changes a file.
#[test]
fn a_peek_asks_for_lengths_and_reads(rt: HostRuntime) {
    let alloc = rt.alloc();
    let disk = MemoryDisk::new(alloc).ok().expect(&rt, "a disk");
    let mut noted = Noted {
        disk,
        notes: Vec::new(alloc),
    };
    assert!(rt; peeked(alloc, &mut noted) == Ok(0));
    assert!(rt;
        noted.notes.as_slice()
            == [Call::Length(FileId::Seal2), Call::Length(FileId::Seal)].as_slice()
    );
    assert!(rt; attached(alloc, &mut noted) == Ok(0));
    noted.notes.clear();
    assert!(rt; peeked(alloc, &mut noted) == Ok(0));
    assert!(rt;
        noted.notes.as_slice()
            == [
                Call::Length(FileId::Seal2),
                Call::Read(FileId::Seal2, 0, 15),
                Call::Length(FileId::Body2),
                Call::Read(FileId::Body2, 0, 856),
            ]
            .as_slice()
    );
}

/// The attach makes eight calls. Each of the four of the peek behind it may fail: the length and the read of the seal, and those
/// of the body.
#[test]
fn a_peek_fails_where_a_call_does(rt: HostRuntime) {
    let alloc = rt.alloc();
    for (stop, want) in [
        (9, Err(OpenFault::DiskFault)),
        (10, Err(OpenFault::DiskFault)),
        (11, Err(OpenFault::DiskFault)),
        (12, Err(OpenFault::DiskFault)),
        (13, Ok(0)),
    ] {
        let mut disk = MemoryDisk::stopped_at(alloc, stop)
            .ok()
            .expect(&rt, "a disk");
        assert!(rt; attached(alloc, &mut disk) == Ok(0), "stop at {stop}");
        assert!(rt; peeked(alloc, &mut disk) == want, "stop at {stop}");
    }
}

/// A crash at each of the eight calls of an attach leaves a folder that is opened again, with nothing acknowledged.
#[test]
fn an_attach_that_was_stopped_is_made_again(rt: HostRuntime) {
    let alloc = rt.alloc();
    for stop in 1..10 {
        let mut disk = MemoryDisk::stopped_at(alloc, stop)
            .ok()
            .expect(&rt, "a disk");
        assert!(rt;
            attached(alloc, &mut disk).is_ok() == (stop == 9),
            "stop at {stop}"
        );
        for pick in 0..3 {
            let mut again = disk.crash(pick).ok().expect(&rt, "a disk");
            assert!(rt;
                attached(alloc, &mut again) == Ok(0),
                "stop at {stop}, crash {pick}"
            );
        }
    }
}

/// Frame 1 is acknowledged by calls 9 to 12. An attach makes six again, and frame 3 is acknowledged by calls 19 to 22: a stop
/// before its gate is written leaves it as it was, one before its end acknowledged or not, and after `Ok` it is, whatever the
/// crash leaves. Frame 1 is in any case.
#[test]
fn an_acknowledgement_that_was_stopped_loses_no_earlier_one(rt: HostRuntime) {
    let alloc = rt.alloc();
    for (stop, done, found) in [
        (19, Err(DiskFault), [1, 1, 1]),
        (20, Err(DiskFault), [1, 1, 1]),
        (21, Err(DiskFault), [1, 1, 1]),
        (22, Err(DiskFault), [2, 1, 1]),
        (23, Ok(()), [2, 2, 2]),
    ] {
        let mut disk = MemoryDisk::stopped_at(alloc, stop)
            .ok()
            .expect(&rt, "a disk");
        assert!(rt;
            acknowledge(alloc, &mut disk) == Some(Ok(())),
            "stop at {stop}"
        );
        assert!(rt;
            acknowledge(alloc, &mut disk) == Some(done),
            "stop at {stop}"
        );
        for (pick, count) in (0..3).zip(found) {
            let mut crashed = disk.crash(pick).ok().expect(&rt, "a disk");
            assert!(rt;
                attached(alloc, &mut crashed) == Ok(count),
                "stop at {stop}, crash {pick}"
            );
        }
    }
}
