//! Files of a reel's frames that are read ahead of a check: while one is read, those before it are hashed side by side.
ghost use Rattle.std.specs.Prelude.{◌≡◌, ◌+◌, ◌<◌, ◌≤◌, ◌∷◌, ℕ, Bool, None, true, length, List, OnOk, IfOk, IfSome, IsErr, MatchOption, MatchResult};
ghost use Rattle.conform_job.specs.Job.{JobData, file_of};
ghost use Rattle.frame_hash.specs.declared.Room.{Room as RoomState};
ghost use Rattle.reel_disk.specs.Call.{Call};
ghost use Rattle.reel_disk.specs.Disk.{view_of};
ghost use Rattle.resume_ledger.specs.Hash.{digest_of_file};
ghost use Rattle.reel_writer.specs.Damage.{IsRecorded, IsRecordedFile};
ghost use Rattle.reel_writer.specs.Reads.{MakesOnly, ReadsOnce, WasHashed};
ghost use Rattle.reel_writer.specs.inside.Ahead.{AreRead, IsOnceSoFar, IsOnceStill, IsOnceTaken, IsRead};
ghost use Rattle.reel_disk.specs.State.{DiskState, LeavesDisk, OnlyReads};
ghost use Rattle.reel_writer.specs.Reel.{frames_of};

use crate::whole::read_whole;
use conform_job::Job;
use frame_hash::{Hasher, Room, rooms_of};
use reel_disk::{Disk, DiskFault};
use resume_ledger::LedgerView;
use std::alloc::Global;
use std::mem::swap;

/// Rooms for files that are read ahead, and where the next one is looked for.
#[derive(Drop)]
pub(crate) struct Ahead {
    /// The next file is read into the first.
    rooms: Vec<Room>,
    next: u32,
}

impl Ahead {
    /// So many rooms for files of one size, or as many as memory is left for.
    pub(crate) fn new(alloc: Global, count: usize, size: usize) -> Ahead
        ensures free { (job : JobData) (tells : Bool) (disk : DiskState) → AreRead job tells disk result.rooms.items }
        ensures once { (job : JobData) (calls : List Call) → IsOnceSoFar job 0 result.next calls calls result.rooms.items }
    {
        Ahead {
            rooms: rooms_of(alloc, count, size),
            next: 0,
        }
    }

    /// The SHA-256 of the file of frame `i`, if it is read ahead.
    pub(crate) fn digest_of<D: Disk, H: Hasher>(
        &mut self,
        disk: &mut D,
        job: &Job,
        view: &LedgerView,
        hasher: &H,
        i: u32,
    ) -> Result<Option<[u8; 32]>, DiskFault>
        requires can_hash { H.can_hash }
        requires size { length view.now.gates ≡ frames_of job.now }
        requires within { i < frames_of job.now }
        requires rooms { AreRead job.now D.tells (D.state disk.old) self.old.rooms.items }
        ensures digest { IfOk result (λ found. IfSome found (λ digest. D.tells ≡ true
            → digest ≡ digest_of_file (view_of (D.state disk.old).history (file_of job.now i)))) }
        ensures hashed { IfOk result (λ found. IfSome found (λ digest.
            WasHashed (file_of job.now i) digest (D.state disk.new).calls)) }
        ensures rooms { OnOk result (AreRead job.now D.tells (D.state disk.new) self.new.rooms.items) }
        ensures once { (before : List Call) → IsOnceSoFar job.now i self.old.next before (D.state disk.old).calls self.old.rooms.items
            → MatchResult result
            (λ found. IsOnceTaken job.now i self.new.next before (D.state disk.new).calls self.new.rooms.items found)
            (λ fault. ReadsOnce before (D.state disk.new).calls) }
        ensures reads { OnlyReads D.tells (D.state disk.old) (D.state disk.new) }
        ensures on { MakesOnly (IsRecordedFile job.now view.now) (D.state disk.old).calls (D.state disk.new).calls }
        ensures disk { LeavesDisk (IsErr result) (D.state disk.old) (D.state disk.new) }
    {
        self.hash_until(disk, job, view, hasher, i)?;
        Ok(take_digest(&mut self.rooms, i))
    }

    /// Reads files ahead and hashes them, until all of that of frame `i` is hashed, or in vain.
    fn hash_until<D: Disk, H: Hasher>(
        &mut self,
        disk: &mut D,
        job: &Job,
        view: &LedgerView,
        hasher: &H,
        i: u32,
    ) -> Result<(), DiskFault>
        requires can_hash { H.can_hash }
        requires size { length view.now.gates ≡ frames_of job.now }
        requires within { i < frames_of job.now }
        requires rooms { AreRead job.now D.tells (D.state disk.old) self.old.rooms.items }
        ensures rooms { OnOk result (AreRead job.now D.tells (D.state disk.new) self.new.rooms.items) }
        ensures once { (before : List Call) → IsOnceSoFar job.now i self.old.next before (D.state disk.old).calls self.old.rooms.items
            → MatchResult result
            (λ _. IsOnceSoFar job.now i self.new.next before (D.state disk.new).calls self.new.rooms.items)
            (λ _. ReadsOnce before (D.state disk.new).calls) }
        ensures reads { OnlyReads D.tells (D.state disk.old) (D.state disk.new) }
        ensures on { MakesOnly (IsRecordedFile job.now view.now) (D.state disk.old).calls (D.state disk.new).calls }
        ensures disk { LeavesDisk (IsErr result) (D.state disk.old) (D.state disk.new) }
    {
        // One room after the other gets a file, and then each step hashes a part of it.
        for _ in 0..=self.rooms.len() {
            if is_hashed(&self.rooms, i) {
                return Ok(());
            }
            let from = self.next.max(i);
            self.next = read_beside(disk, job, view, hasher, from, &mut self.rooms)?;
        }
        Ok(())
    }
}

/// Whether the file of frame `i` lies in a room, and all of it is hashed.
fn is_hashed(rooms: &[Room], i: u32) -> bool {
    for room in rooms {
        if room.frame == Some(i) {
            return room.is_hashed();
        }
    }
    false
}

/// The digest of the file of frame `i`, if it lies in a room; what is left of it is hashed now. The room is free then.
fn take_digest(rooms: &mut [Room], i: u32) -> Option<[u8; 32]>
    ensures digest { (job : JobData) (tells : Bool) (disk : DiskState) → AreRead job tells disk rooms.old
        → IfSome result (λ digest. tells ≡ true → digest ≡ digest_of_file (view_of disk.history (file_of job i))) }
    ensures hashed { (job : JobData) (tells : Bool) (disk : DiskState) → AreRead job tells disk rooms.old
        → IfSome result (λ digest. WasHashed (file_of job i) digest disk.calls) }
    ensures rooms { (job : JobData) (tells : Bool) (disk : DiskState) → AreRead job tells disk rooms.old
        → AreRead job tells disk rooms.new }
    ensures once { (job : JobData) (next : ℕ) (before now : List Call) → IsOnceSoFar job i next before now rooms.old
        → IsOnceTaken job i next before now rooms.new result }
{
    for n in 0..rooms.len() {
        if rooms[n].frame == Some(i) {
            rooms[n].frame = None;
            return Some(rooms[n].digest());
        }
    }
    None
}

/// Reads the file of the first frame from `from` on that has a record into the first room, and meanwhile hashes a part of each of
/// those in other rooms: where the next file is looked for.
fn read_beside<D: Disk, H: Hasher>(
    disk: &mut D,
    job: &Job,
    view: &LedgerView,
    hasher: &H,
    from: u32,
    rooms: &mut [Room],
) -> Result<u32, DiskFault>
    requires can_hash { H.can_hash }
    requires size { length view.now.gates ≡ frames_of job.now }
    requires rooms { AreRead job.now D.tells (D.state disk.old) rooms.old }
    ensures rooms { OnOk result (AreRead job.now D.tells (D.state disk.new) rooms.new) }
    ensures once { (low : ℕ) (before : List Call) → low ≤ from
        → IsOnceSoFar job.now low from before (D.state disk.old).calls rooms.old
        → IsOnceStill job.now low before (D.state disk.new).calls rooms.new result }
    ensures reads { OnlyReads D.tells (D.state disk.old) (D.state disk.new) }
    ensures on { MakesOnly (IsRecordedFile job.now view.now) (D.state disk.old).calls (D.state disk.new).calls }
    ensures disk { LeavesDisk (IsErr result) (D.state disk.old) (D.state disk.new) }
{
    match rooms.split_first_mut() {
        Some((first, others)) => read_into(disk, job, view, hasher, from, first, others),
        None => Ok(from),
    }
}

/// The same, where the first room is apart from the others.
fn read_into<D: Disk, H: Hasher>(
    disk: &mut D,
    job: &Job,
    view: &LedgerView,
    hasher: &H,
    from: u32,
    first: &mut Room,
    others: &mut [Room],
) -> Result<u32, DiskFault>
    requires can_hash { H.can_hash }
    requires size { length view.now.gates ≡ frames_of job.now }
    requires first { IsRead job.now D.tells (D.state disk.old) first.old }
    requires others { AreRead job.now D.tells (D.state disk.old) others.old }
    ensures first { OnOk result (IsRead job.now D.tells (D.state disk.new) first.new) }
    ensures others { AreRead job.now D.tells (D.state disk.new) others.new }
    ensures count { length others.new ≡ length others.old }
    ensures once { (low : ℕ) (before : List Call) → low ≤ from
        → IsOnceSoFar job.now low from before (D.state disk.old).calls (first.old ∷ others.old)
        → IsOnceStill job.now low before (D.state disk.new).calls (first.new ∷ others.new) result }
    ensures reads { OnlyReads D.tells (D.state disk.old) (D.state disk.new) }
    ensures on { MakesOnly (IsRecordedFile job.now view.now) (D.state disk.old).calls (D.state disk.new).calls }
    ensures disk { LeavesDisk (IsErr result) (D.state disk.old) (D.state disk.new) }
{
    make_way(first, others);
    // Each thread has the same part of a file to hash: a smaller one for this thread, which also reads, brought nothing.
    let part = first.bytes.len().div_ceil(others.len().saturating_add(1));
    let mut read = || -> Result<u32, DiskFault>
        requires { (length view.now.gates ≡ frames_of job.now)
            × IsRead job.now D.tells (D.state disk.now) first.now }
        ensures room { OnOk result (IsRead job.entry.now D.tells (D.state disk.exit.now) first.exit.now) }
        ensures once { (low : ℕ) (before : List Call) (held : List RoomState) → low ≤ from
            → IsOnceSoFar job.entry.now low from before (D.state disk.entry.now).calls (first.entry.now ∷ held)
            → IsOnceStill job.entry.now low before (D.state disk.exit.now).calls (first.exit.now ∷ held) result }
        ensures reads { OnlyReads D.tells (D.state disk.entry.now) (D.state disk.exit.now) }
        ensures on { MakesOnly (IsRecordedFile job.entry.now view.entry.now)
            (D.state disk.entry.now).calls (D.state disk.exit.now).calls }
        ensures disk { LeavesDisk (IsErr result) (D.state disk.entry.now) (D.state disk.exit.now) }
    { read_on(disk, job, view, from, first, part) };
    hasher.hash_beside(others, part, &mut read)
}

/// If a file lies in the first room, it goes to one that is free, if there is one.
fn make_way(first: &mut Room, others: &mut [Room])
    ensures first { (job : JobData) (tells : Bool) (disk : DiskState) → IsRead job tells disk first.old
        → AreRead job tells disk others.old → IsRead job tells disk first.new }
    ensures others { (job : JobData) (tells : Bool) (disk : DiskState) → IsRead job tells disk first.old
        → AreRead job tells disk others.old → AreRead job tells disk others.new }
    ensures count { length others.new ≡ length others.old }
    ensures once { (job : JobData) (low next : ℕ) (before now : List Call)
        → IsOnceSoFar job low next before now (first.old ∷ others.old)
        → IsOnceSoFar job low next before now (first.new ∷ others.new) }
{
    if first.frame.is_none() {
        return;
    }
    for n in 0..others.len() {
        if others[n].frame.is_none() {
            swap(first, &mut others[n]);
            return;
        }
    }
}

/// Reads the next file into a room, if that is free, and begins to hash it; else it hashes so many bytes more of the one that lies
/// there. Where the next file is looked for.
fn read_on<D: Disk>(
    disk: &mut D,
    job: &Job,
    view: &LedgerView,
    from: u32,
    room: &mut Room,
    size: usize,
) -> Result<u32, DiskFault>
    requires size { length view.now.gates ≡ frames_of job.now }
    requires room { IsRead job.now D.tells (D.state disk.old) room.old }
    ensures room { OnOk result (IsRead job.now D.tells (D.state disk.new) room.new) }
    ensures once { (low : ℕ) (before : List Call) (held : List RoomState) → low ≤ from
        → IsOnceSoFar job.now low from before (D.state disk.old).calls (room.old ∷ held)
        → IsOnceStill job.now low before (D.state disk.new).calls (room.new ∷ held) result }
    ensures reads { OnlyReads D.tells (D.state disk.old) (D.state disk.new) }
    ensures on { MakesOnly (IsRecordedFile job.now view.now) (D.state disk.old).calls (D.state disk.new).calls }
    ensures disk { LeavesDisk (IsErr result) (D.state disk.old) (D.state disk.new) }
{
    let mut next = from;
    if room.frame.is_none() {
        next = read_next(disk, job, view, from, room)?;
    }
    room.hash_part(size);
    Ok(next)
}

/// Reads the file of the first frame from `from` on that has a record into a free room, if the file is as long as the room: where
/// the next one is looked for. The room stays free where there is none.
fn read_next<D: Disk>(
    disk: &mut D,
    job: &Job,
    view: &LedgerView,
    from: u32,
    room: &mut Room,
) -> Result<u32, DiskFault>
    requires size { length view.now.gates ≡ frames_of job.now }
    requires free { room.old.frame ≡ None }
    ensures room { OnOk result (IsRead job.now D.tells (D.state disk.new) room.new) }
    ensures once { (low : ℕ) (before : List Call) (held : List RoomState) → low ≤ from
        → IsOnceSoFar job.now low from before (D.state disk.old).calls (room.old ∷ held)
        → IsOnceStill job.now low before (D.state disk.new).calls (room.new ∷ held) result }
    ensures reads { OnlyReads D.tells (D.state disk.old) (D.state disk.new) }
    ensures on { MakesOnly (IsRecordedFile job.now view.now) (D.state disk.old).calls (D.state disk.new).calls }
    ensures disk { LeavesDisk (IsErr result) (D.state disk.old) (D.state disk.new) }
{
    let end = job.count();
    match next_recorded(job, view, from) {
        Some(i) => match read_whole(disk, job.file_of(i), &mut room.bytes) {
            Ok(true) => {
                room.frame = Some(i);
                room.begin();
                Ok(i + 1)
            }
            Ok(false) => Ok(end),
            Err(DiskFault) => Err(DiskFault),
        },
        None => Ok(end),
    }
}

/// The first frame from `from` on that has a record.
fn next_recorded(job: &Job, view: &LedgerView, from: u32) -> Option<u32>
    requires size { length view.now.gates ≡ frames_of job.now }
    ensures recorded { IfSome result (IsRecorded job.now view.now) }
    ensures behind { IfSome result (λ i. from ≤ i) }
{
    for i in from..job.count() {
        if view.hash_of(i).is_some() {
            return Some(i);
        }
    }
    None
}
