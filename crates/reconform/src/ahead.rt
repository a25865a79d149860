//! Files of donors that are read ahead, so that frames' files are made of several side by side, with two digests each: the
//! donor's own, and that of the frame's file, which has another header.
ghost use Rattle.std.specs.Prelude.{◌≡◌, ◌⊎◌, ◌↔◌, ℕ, ◌<◌, ◌≤◌, true, false, Some, None, length, slice_index_or, All, OnOk, IfOk, IfSome, IsErr};
ghost use Rattle.frame_hash.specs.declared.Room.{Room};
ghost use Rattle.frame_render.specs.Frame.{frame_size};
ghost use Rattle.reel_disk.specs.Disk.{view_of};
ghost use Rattle.reel_disk.specs.State.{LeavesDisk, OnlyReads};
ghost use Rattle.reel_writer.specs.Reel.{frames_of};
ghost use Rattle.reconform.specs.Donor.{HasIntactDonor};
ghost use Rattle.reconform.specs.inside.Ahead.{AreHeld, AreReady, CanFinish, HasRoom, HoldsDonor, IsKept};
ghost use Rattle.reconform.specs.inside.Donor.{donor_in};
ghost use Rattle.reconform.specs.inside.Asking.{AsksFrom, end_of};
ghost use Rattle.reconform.specs.inside.Parts.{CanTake, HasDonors, IsFurther};
ghost use Rattle.reconform.specs.Plan.{plan_at};

use crate::plan::plan_at;
use crate::takeover::Takeover;
use conform_job::Work;
use frame_hash::Room;
use frame_render::rehead;
use reel_disk::{Disk, DiskFault};
use reel_writer::{Reel, read_whole};

impl Takeover<'_, '_, '_, '_> {
    /// Reads the files of the donors of the frames from `from` on that are to be taken over, one into each room: where the next is
    /// looked for. Where a donor's file isn't as long as a frame's, its room is free then.
    pub(crate) fn read_ahead<N: Work, O: Work, D: Disk, E: Disk>(
        &self,
        old: &mut D,
        reel: &Reel<E, N>,
        from: u32,
        rooms: &mut [Room],
    ) -> Result<u32, DiskFault>
        requires can { CanTake N.job O.job N.files D.tells (view_of (D.state old.old).history)
            self.now.new_job.now self.now.old_job.now self.now.view.now self.now.donors.now.by_plan }
        requires from { from ≤ frames_of N.job }
        requires rooms { (0 < length rooms.old) × All (λ room. length room.bytes.items ≡ frame_size N.job) rooms.old }
        ensures next { IfOk result (IsFurther (frames_of N.job) from) }
        ensures read { OnOk result (All (HoldsDonor N.job O.job D.tells (D.state old.new) self.now.donors.now.by_plan)
            rooms.new) }
        ensures held { IfOk result (λ next. D.tells ≡ true → AreHeld N.job O.job self.now.view.now
            (view_of (D.state old.old).history) from next reel.now.ledger.gates (λ i. HasRoom i rooms.new)) }
        ensures asks { AsksFrom (λ next. next) N.job O.job self.now.view.now from result (D.state old.old).calls (D.state old.new).calls }
        ensures reads { OnlyReads D.tells (D.state old.old) (D.state old.new) }
        ensures disk { LeavesDisk (IsErr result) (D.state old.old) (D.state old.new) }
    {
        let mut next = from;
        for n in 0..rooms.len() {
            next = self.read_next::<N, O, D, E>(old, reel, next, &mut rooms[n])?;
        }
        Ok(next)
    }

    /// Reads the file of the donor of the next frame from `from` on that is to be taken over: where the one behind it is looked for.
    /// The room is free where there is none, or where its file isn't as long as a frame's.
    fn read_next<N: Work, O: Work, D: Disk, E: Disk>(
        &self,
        old: &mut D,
        reel: &Reel<E, N>,
        from: u32,
        room: &mut Room,
    ) -> Result<u32, DiskFault>
        requires can { CanTake N.job O.job N.files D.tells (view_of (D.state old.old).history)
            self.now.new_job.now self.now.old_job.now self.now.view.now self.now.donors.now.by_plan }
        requires from { from ≤ frames_of N.job }
        requires size { length room.old.bytes.items ≡ frame_size N.job }
        ensures next { IfOk result (IsFurther (frames_of N.job) from) }
        ensures read { OnOk result
            (HoldsDonor N.job O.job D.tells (D.state old.new) self.now.donors.now.by_plan room.new) }
        ensures held { IfOk result (λ next. D.tells ≡ true → AreHeld N.job O.job self.now.view.now
            (view_of (D.state old.old).history) from next reel.now.ledger.gates (λ i. room.new.frame ≡ Some i)) }
        ensures asks { AsksFrom (λ next. next) N.job O.job self.now.view.now from result (D.state old.old).calls (D.state old.new).calls }
        ensures reads { OnlyReads D.tells (D.state old.old) (D.state old.new) }
        ensures disk { LeavesDisk (IsErr result) (D.state old.old) (D.state old.new) }
    {
        room.frame = None;
        room.begin();
        let end = self.new_job.count();
        match self.next_wanted::<N, O, E>(reel, from) {
            Some((i, j)) => match read_whole(old, self.old_job.file_of(j), &mut room.bytes) {
                Ok(true) => {
                    room.frame = Some(i);
                    Ok(i + 1)
                }
                Ok(false) => Ok(i + 1),
                Err(DiskFault) => Err(DiskFault),
            },
            None => Ok(end),
        }
    }

    /// The first frame from `from` on that isn't acknowledged and has a donor, and the donor.
    fn next_wanted<N: Work, O: Work, E: Disk>(
        &self,
        reel: &Reel<E, N>,
        from: u32,
    ) -> Option<(u32, u32)>
        requires new_job { self.now.new_job.now ≡ N.job }
        requires donors { HasDonors N.job O.job self.now.view.now.gates self.now.donors.now.by_plan }
        ensures within { IfSome result (λ found. (from ≤ found.0) × (found.0 < frames_of N.job) × (found.1 < frames_of O.job)) }
        ensures donor { IfSome result (λ found. donor_in self.now.donors.now.by_plan (plan_at N.job found.0) ≡ Some found.1) }
        ensures passed { (i : ℕ) → from ≤ i → i < end_of (frames_of N.job) result
            → (slice_index_or reel.now.ledger.gates i false ≡ true) ⊎ (donor_in self.now.donors.now.by_plan (plan_at N.job i) ≡ None) }
    {
        for i in from..self.new_job.count() {
            if let Some(j) = self.wanted(reel, i) {
                return Some((i, j));
            }
        }
        None
    }

    /// The donor of frame `i`, if it has one and isn't acknowledged.
    fn wanted<N: Work, E: Disk>(&self, reel: &Reel<E, N>, i: u32) -> Option<u32>
        requires new_job { self.now.new_job.now ≡ N.job }
        requires index { i < frames_of N.job }
        ensures donor { IfSome result (λ j. donor_in self.now.donors.now.by_plan (plan_at N.job i) ≡ Some j) }
        ensures none { result ≡ None → (slice_index_or reel.now.ledger.gates i false ≡ true)
            ⊎ (donor_in self.now.donors.now.by_plan (plan_at N.job i) ≡ None) }
    {
        if reel.is_acked(i) {
            return None;
        }
        self.donors.get(plan_at(self.new_job, i))
    }

    /// Makes of each donor's file that of its frame, where the donor is intact; the rooms of others are free then.
    pub(crate) fn dress_all<N: Work, O: Work, D: Disk>(&self, _old: &D, rooms: &mut [Room])
        requires can { CanTake N.job O.job N.files D.tells (view_of (D.state _old.now).history)
            self.now.new_job.now self.now.old_job.now self.now.view.now self.now.donors.now.by_plan }
        requires read { All (HoldsDonor N.job O.job D.tells (D.state _old.now) self.now.donors.now.by_plan) rooms.old }
        ensures frames { AreReady N.job O.job N.files D.tells self.now.view.now (D.state _old.now) rooms.new }
        ensures stays { D.tells ≡ true → (i : ℕ) → HasIntactDonor N.job O.job self.now.view.now (view_of (D.state _old.now).history) i
            → HasRoom i rooms.old → HasRoom i rooms.new }
    {
        for n in 0..rooms.len() {
            self.dress::<N, O, D>(_old, &mut rooms[n]);
        }
    }

    /// The same of one room. Nothing is read of the old folder.
    fn dress<N: Work, O: Work, D: Disk>(&self, _old: &D, room: &mut Room)
        requires can { CanTake N.job O.job N.files D.tells (view_of (D.state _old.now).history)
            self.now.new_job.now self.now.old_job.now self.now.view.now self.now.donors.now.by_plan }
        requires read { HoldsDonor N.job O.job D.tells (D.state _old.now) self.now.donors.now.by_plan room.old }
        ensures frame { CanFinish N.job O.job N.files D.tells self.now.view.now (D.state _old.now) room.new }
        ensures stays { D.tells ≡ true → (i : ℕ) → HasIntactDonor N.job O.job self.now.view.now (view_of (D.state _old.now).history) i
            → room.old.frame ≡ Some i → room.new.frame ≡ Some i }
    {
        if let Some(i) = room.frame {
            let digest = room.digest();
            if self.is_kept::<N, O>(i, &digest) {
                rehead::<N>(self.new_job, i, &mut room.bytes);
            } else {
                room.frame = None;
            }
        }
    }

    /// Whether frame `i` has a donor, and the digest is the one that the old folder keeps of it, if it keeps one.
    fn is_kept<N: Work, O: Work>(&self, i: u32, digest: &[u8; 32]) -> bool
        requires new_job { self.now.new_job.now ≡ N.job }
        requires index { i < frames_of N.job }
        requires flags { length self.now.view.now.gates ≡ frames_of O.job }
        requires donors { HasDonors N.job O.job self.now.view.now.gates self.now.donors.now.by_plan }
        ensures kept { (result ≡ true) ↔ IsKept N.job self.now.view.now self.now.donors.now.by_plan i digest.now }
    {
        match self.donors.get(plan_at(self.new_job, i)) {
            Some(j) => match self.view.hash_of(j) {
                Some(kept) => kept == *digest,
                None => true,
            },
            None => false,
        }
    }
}

/// The room that a frame has, if it has one.
pub(crate) fn place_of(rooms: &[Room], i: u32) -> Option<usize>
    ensures within { IfSome result (λ n. n < length rooms.now) }
    ensures holds { IfSome result (λ n. (d : Room) → (slice_index_or rooms.now n d).frame ≡ Some i) }
    ensures none { result ≡ None → HasRoom i rooms.now → ⊥ }
{
    for n in 0..rooms.len() {
        if rooms[n].frame == Some(i) {
            return Some(n);
        }
    }
    None
}
