//! What a crash leaves of a disk in memory, and which of its calls fail.
use cf_base::FileId;
use reel_disk::{Did, Disk, Got, Length, MemoryDisk};

/// A file of at most six bytes, with zeros after it, and its length.
type Content = Option<([u8; 6], usize)>;

/// What a pick leaves of a file; none where there is no memory.
fn left(disk: &MemoryDisk, pick: u8, id: FileId) -> Option<Content> {
    let mut crashed = disk.crash(pick).ok()?;
    let mut bytes = [0; 6];
    match crashed.read(id, 0, &mut bytes) {
        Got::Bytes(n) => Some(Some((bytes, n))),
        Got::Absent => Some(None),
        Got::Failed => None,
    }
}

/// Whether this is what three picks leave of a file.
fn leaves(disk: &MemoryDisk, id: FileId, first: Content, second: Content, third: Content) -> bool {
    left(disk, 0, id) == Some(first)
        && left(disk, 1, id) == Some(second)
        && left(disk, 7, id) == Some(third)
}

/// A body of six bytes that is kept, and then two ranges that overlap: byte 2 is loose already when the second is written.
fn body_and_two_ranges(disk: &mut MemoryDisk) -> bool {
    disk.write_whole(FileId::Body, &[10, 20, 30, 40, 50, 60]) == Did::Done
        && disk.sync(FileId::Body) == Did::Done
        && disk.write_at(FileId::Body, 1, &[21, 31]) == Did::Done
        && disk.write_at(FileId::Body, 2, &[32, 42]) == Did::Done
}

/// A seal that is loose as a whole and in a range.
fn seal_and_a_range(disk: &mut MemoryDisk) -> bool {
    disk.write_whole(FileId::Seal, &[1, 2, 3, 4, 5]) == Did::Done
        && disk.write_at(FileId::Seal, 0, &[9]) == Did::Done
}

/// A body of four bytes that is kept.
fn body(disk: &mut MemoryDisk) -> bool {
    disk.write_whole(FileId::Body, &[1, 2, 3, 4]) == Did::Done
        && disk.sync(FileId::Body) == Did::Done
}

/// The same, and then a range of it whose write fails.
fn body_and_no_range(disk: &mut MemoryDisk) -> bool {
    disk.write_whole(FileId::Body, &[1, 2, 3, 4]) == Did::Done
        && disk.sync(FileId::Body) == Did::Done
        && disk.write_at(FileId::Body, 1, &[9, 9]) == Did::Failed
}

fn writes(disk: &mut MemoryDisk, id: FileId) -> bool {
    disk.write_whole(id, &[7, 7]) == Did::Done
}

fn syncs(disk: &mut MemoryDisk, id: FileId) -> bool {
    disk.sync(id) == Did::Done
}

#[test]
fn each_pick_leaves_its_own_image(rt: HostRuntime) {
    let mut disk = MemoryDisk::new(rt.alloc()).ok().expect(&rt, "a disk");
    assert!(rt; body_and_two_ranges(&mut disk));
    let kept = Some(([10, 21, 32, 42, 50, 60], 6));
    let old = Some(([10, 20, 30, 40, 50, 60], 6));
    let turned = Some(([10, 234, 223, 213, 50, 60], 6));
    assert!(rt; leaves(&disk, FileId::Body, kept, old, turned));
    // A file that is loose as a whole and in a range goes by the rule for the whole.
    assert!(rt; seal_and_a_range(&mut disk));
    let whole = Some(([9, 2, 3, 4, 5, 0], 5));
    let half = Some(([9, 2, 0, 0, 0, 0], 2));
    assert!(rt; leaves(&disk, FileId::Seal, whole, None, half));
    // After its sync every pick leaves a file as it is.
    assert!(rt; syncs(&mut disk, FileId::Body));
    assert!(rt; leaves(&disk, FileId::Body, kept, kept, kept));
    assert!(rt;
        leaves(&disk, FileId::Seal, whole, None, half),
        "it is loose still"
    );
    assert!(rt; leaves(&disk, FileId::Sheet, None, None, None));
}

#[test]
fn a_failed_write_leaves_its_place_loose(rt: HostRuntime) {
    let alloc = rt.alloc();
    let was = Some(([1, 2, 3, 4, 0, 0], 4));
    let third = [3].as_slice().to_vec(alloc).expect(&rt, "memory");
    let mut disk = MemoryDisk::failing(alloc, third).ok().expect(&rt, "a disk");
    assert!(rt; body_and_no_range(&mut disk));
    let turned = Some(([1, 253, 252, 4, 0, 0], 4));
    assert!(rt; leaves(&disk, FileId::Body, was, was, turned));

    let mut disk = MemoryDisk::stopped_at(alloc, 3).ok().expect(&rt, "a disk");
    assert!(rt; body(&mut disk));
    assert!(rt; !writes(&mut disk, FileId::Body) && !writes(&mut disk, FileId::Seal));
    assert!(rt; !syncs(&mut disk, FileId::Body), "it stays loose");
    let half = Some(([1, 2, 0, 0, 0, 0], 2));
    assert!(rt; leaves(&disk, FileId::Body, was, None, half));
    assert!(rt;
        leaves(&disk, FileId::Seal, None, None, None),
        "what is absent stays so"
    );
}

/// Whether five calls were done, in their order.
fn calls(disk: &mut MemoryDisk) -> [bool; 5] {
    [
        disk.write_whole(FileId::Seal, b"seal") == Did::Done,
        disk.length(FileId::Seal) != Length::Failed,
        disk.read(FileId::Seal, 0, &mut [0; 2]) != Got::Failed,
        disk.sync(FileId::Seal) == Did::Done,
        disk.length(FileId::Body) == Length::Absent,
    ]
}

/// Whether a disk after a crash counts its calls anew, and none of them fails.
fn starts_anew(disk: &MemoryDisk) -> bool {
    match disk.crash(0) {
        Ok(crashed) => {
            let mut crashed = crashed;
            crashed.length(FileId::Seal) == Length::There(4) && syncs(&mut crashed, FileId::Seal)
        }
        Err(_) => false,
    }
}

#[test]
fn calls_fail_by_their_numbers(rt: HostRuntime) {
    let alloc = rt.alloc();
    let mut disk = MemoryDisk::new(alloc).ok().expect(&rt, "a disk");
    assert!(rt; calls(&mut disk) == [true; 5] && starts_anew(&disk));
    let listed = [4, 2].as_slice().to_vec(alloc).expect(&rt, "memory");
    let mut disk = MemoryDisk::failing(alloc, listed)
        .ok()
        .expect(&rt, "a disk");
    assert!(rt; calls(&mut disk) == [true, false, true, false, true] && starts_anew(&disk));
    let mut disk = MemoryDisk::stopped_at(alloc, 3).ok().expect(&rt, "a disk");
    assert!(rt; calls(&mut disk) == [true, true, false, false, false] && starts_anew(&disk));
}
