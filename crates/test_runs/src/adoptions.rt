//! Adoptions over disks in memory: stops at each call of the new folder, and what is done behind them, and an old folder that
//! fails.
use cf_base::FileId;
use frame_hash::{Hasher, Room, hash_behind};
use reconform::{AdoptFault, Adopted, adopt};
use reel_disk::{Disk, Got, MemoryDisk};
use run_crew::RunEnd;
use std::alloc::Global;
use std::marker::Brand;
use test_desk::{Desk, report};

/// The desk's list with a dissolve of two frames, so frames 12 to 15 are others.
const SHORTER: &[u8] = b"TITLE: DESK
001  A001     V     C        01:00:00:00 01:00:00:10 01:00:00:00 01:00:00:10
003  A001     V     C        01:00:00:10 01:00:00:10 01:00:00:12 01:00:00:12
003  B002     V     D    002 02:00:00:00 02:00:00:12 01:00:00:12 01:00:01:00
";

/// Three files are read ahead.
struct ThreeRooms;

impl Hasher for ThreeRooms {
    ghost can_hash = { Unit {0} };

    fn rooms(&self) -> usize {
        3
    }

    fn hash_beside<F: FnMut() -> A, A>(&self, rooms: &mut [Room], size: usize, work: &mut F) -> A {
        hash_behind(rooms, size, work)
    }
}

/// What the disk takes over from the folder of the old job.
fn taken(
    alloc: Global,
    new: &Desk,
    old: &Desk,
    from: &mut MemoryDisk,
    disk: &mut MemoryDisk,
) -> Result<Adopted, AdoptFault> {
    new.job.recall();
    old.job.recall();
    adopt::<Brand, Brand, MemoryDisk, ThreeRooms>(
        alloc,
        &new.job,
        &old.job,
        from,
        disk,
        &ThreeRooms,
    )
}

/// Whether a run renders the four frames that can't be taken over, and leaves the same files as are on the other disk.
fn is_finished(new: &mut Desk, disk: &mut MemoryDisk, whole: &mut MemoryDisk) -> bool {
    if new.run(disk) != (RunEnd::Done, report(20, 4, 6)) {
        return false;
    }
    for frame in 86_400..86_424 {
        if !is_same(disk, whole, FileId::Frame { reel: 1, frame }) {
            return false;
        }
    }
    true
}

/// Whether two disks have a file of 2064 bytes of that name, and the same one.
fn is_same(a: &mut MemoryDisk, b: &mut MemoryDisk, file: FileId) -> bool {
    let mut left = [0; 2065];
    let mut right = [0; 2065];
    a.read(file, 0, &mut left) == Got::Bytes(2064)
        && b.read(file, 0, &mut right) == Got::Bytes(2064)
        && left.as_slice() == right.as_slice()
}

#[test]
fn a_changed_list_renders_what_has_changed(rt: HostRuntime) {
    let alloc = rt.alloc();
    let mut old = Desk::new(alloc, &[]).expect(&rt, "a job");
    let mut from = MemoryDisk::new(alloc).ok().expect(&rt, "a disk");
    assert!(rt; old.run(&mut from).0 == RunEnd::Done);
    let mut new = Desk::with_list(alloc, SHORTER, &[]).expect(&rt, "a job");
    let mut whole = MemoryDisk::new(alloc).ok().expect(&rt, "a disk");
    assert!(rt; new.run(&mut whole).0 == RunEnd::Done);
    let mut disk = MemoryDisk::new(alloc).ok().expect(&rt, "a disk");
    for (kept, adopted) in [(0, 20), (20, 0)] {
        let done = taken(alloc, &new, &old, &mut from, &mut disk);
        assert!(rt; done == Ok(Adopted { kept, adopted }));
    }
    assert!(rt; is_finished(&mut new, &mut disk, &mut whole));
}

/// How many frames an adoption keeps over what a crash by this pick left, where it takes over the others and a run behind it
/// leaves the same files as are on the whole disk.
fn kept_behind(
    alloc: Global,
    new: &mut Desk,
    old: &Desk,
    from: &mut MemoryDisk,
    disk: &MemoryDisk,
    pick: u8,
    whole: &mut MemoryDisk,
) -> Option<u32> {
    let mut crashed = disk.crash(pick).ok()?;
    let Ok(again) = taken(alloc, new, old, from, &mut crashed) else {
        return None;
    };
    let all = again.kept.wrapping_add(again.adopted);
    (all == 20 && is_finished(new, &mut crashed, whole)).then_some(again.kept)
}

/// Whether an adoption that is stopped at this call on the new folder loses nothing: whatever a crash leaves, the next one keeps
/// as many frames as were taken over before, or one more. Eight calls are those of the opening, and each of the 20 frames has
/// six.
fn is_resumed(
    alloc: Global,
    new: &mut Desk,
    old: &Desk,
    from: &mut MemoryDisk,
    stop: u64,
    whole: &mut MemoryDisk,
) -> Option<bool> {
    let mut disk = MemoryDisk::stopped_at(alloc, stop).ok()?;
    if taken(alloc, new, old, from, &mut disk) != Err(AdoptFault::DiskFault) {
        return Some(false);
    }
    let done = stop.saturating_sub(9) / 6;
    let kept = u64::from(kept_behind(alloc, new, old, from, &disk, (stop % 3) as u8, whole)?);
    Some(done <= kept && kept <= done.saturating_add(1))
}

/// The same of each of these calls, over an old folder and a new one that were rendered whole.
fn are_resumed(
    alloc: Global,
    new: &mut Desk,
    old: &mut Desk,
    first: u64,
    last: u64,
) -> Option<bool> {
    let mut from = MemoryDisk::new(alloc).ok()?;
    let mut whole = MemoryDisk::new(alloc).ok()?;
    let mut all = old.run(&mut from).0 == RunEnd::Done && new.run(&mut whole).0 == RunEnd::Done;
    for stop in first..=last {
        all = all && is_resumed(alloc, new, old, &mut from, stop, &mut whole) == Some(true);
    }
    Some(all)
}

#[test]
fn an_adoption_goes_on_behind_a_stop_in_its_opening_and_at_frames_0_to_9(rt: HostRuntime) {
    let alloc = rt.alloc();
    let mut old = Desk::new(alloc, &[]).expect(&rt, "a job");
    let mut new = Desk::with_list(alloc, SHORTER, &[]).expect(&rt, "a job");
    assert!(rt; are_resumed(alloc, &mut new, &mut old, 1, 68) == Some(true));
}

#[test]
fn an_adoption_goes_on_behind_a_stop_at_frames_10_to_23(rt: HostRuntime) {
    let alloc = rt.alloc();
    let mut old = Desk::new(alloc, &[]).expect(&rt, "a job");
    let mut new = Desk::with_list(alloc, SHORTER, &[]).expect(&rt, "a job");
    assert!(rt; are_resumed(alloc, &mut new, &mut old, 69, 128) == Some(true));
}

/// The old reel was written by 152 calls. An adoption looks at its ledger by four, and has two for each of the 20 donors.
#[test]
fn an_old_folder_that_fails_ends_an_adoption(rt: HostRuntime) {
    let alloc = rt.alloc();
    let mut old = Desk::new(alloc, &[]).expect(&rt, "a job");
    let new = Desk::with_list(alloc, SHORTER, &[]).expect(&rt, "a job");
    for stop in 153..=196 {
        let mut from = MemoryDisk::stopped_at(alloc, stop)
            .ok()
            .expect(&rt, "a disk");
        assert!(rt; old.run(&mut from).0 == RunEnd::Done);
        let mut disk = MemoryDisk::new(alloc).ok().expect(&rt, "a disk");
        let done = taken(alloc, &new, &old, &mut from, &mut disk);
        assert!(rt; done == Err(AdoptFault::DiskFault), "stop at {stop}");
    }
}
