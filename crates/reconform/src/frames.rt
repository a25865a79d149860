//! The frames of an adoption, in order.
ghost use Rattle.std.specs.Prelude.{◌≡◌, ◌≢◌, ◌⊎◌, ℕ, ◌<◌, ◌≤◌, true, false, length, set, slice_index_or, OnOk, IsErr};
ghost use Rattle.frame_hash.specs.Rooms.{IsBegun, IsFree};
ghost use Rattle.frame_render.specs.Frame.{IsFileOf, frame_size};
ghost use Rattle.reel_disk.specs.Disk.{view_of};
ghost use Rattle.reel_disk.specs.State.{LeavesDisk};
ghost use Rattle.reel_writer.specs.Reel.{frames_of};
ghost use Rattle.reconform.specs.Donor.{HasIntactDonor};
ghost use Rattle.reconform.specs.inside.Adopt.{IsSameReel};
ghost use Rattle.reconform.specs.inside.Ahead.{AreHeld, AreReady, HasRoom};
ghost use Rattle.reconform.specs.inside.Parts.{HasServed, HasServedTo, IsFinish};

use crate::ahead::place_of;
use crate::takeover::Takeover;
use conform_job::Work;
use frame_hash::Room;
use frame_render::Rendered;
use reel_disk::{Disk, DiskFault};
use reel_writer::{Hashed, Reel};
use std::mem::replace;

impl Takeover<'_, '_, '_, '_> {
    /// Finishes frame `i`, whose file lies in a room; what isn't hashed of it yet is hashed now. The room is free then.
    fn finish_frame<N: Work, E: Disk>(
        &self,
        reel: &mut Reel<E, N>,
        i: u32,
        room: &mut Room,
    ) -> Result<(), DiskFault>
        requires job { self.now.new_job.now ≡ N.job }
        requires index { i < frames_of N.job }
        requires size { length room.old.bytes.items ≡ frame_size N.job }
        requires file { IsFileOf N.job N.files i room.old.bytes.items }
        requires begun { IsBegun room.old }
        requires is_open { reel.old.ledger.closed ≡ false }
        requires fresh { slice_index_or reel.old.ledger.gates i false ≡ false }
        ensures free { OnOk result (IsFree (frame_size N.job) room.new) }
        ensures finished { OnOk result ((reel.new.ledger.gates ≡ set reel.old.ledger.gates i true) × (reel.new.ledger.closed ≡ false)) }
        ensures stays { IsSameReel reel.old reel.new }
        ensures part { IsFinish N.job N.files E.tells reel.old.ledger.gates i room.old.bytes.items
            (E.state reel.old.disk) (E.state reel.new.disk) }
        ensures disk { LeavesDisk (IsErr result) (E.state reel.old.disk) (E.state reel.new.disk) }
    {
        let digest = room.digest();
        let bytes = replace(&mut room.bytes, Vec::new(self.alloc));
        let hashed = Hashed::with(Rendered::<N>::of_file(self.new_job, i, bytes), digest);
        match reel.finish(&hashed) {
            Ok(()) => {
                room.bytes = hashed.into_frame().into_bytes();
                room.frame = None;
                Ok(())
            }
            Err(DiskFault) => Err(DiskFault),
        }
    }

    /// Adopts frame `i`, unless it is acknowledged or has no room.
    fn adopt_frame<N: Work, O: Work, D: Disk, E: Disk>(
        &self,
        _old: &D,
        reel: &mut Reel<E, N>,
        i: u32,
        rooms: &mut [Room],
    ) -> Result<(), DiskFault>
        requires job { self.now.new_job.now ≡ N.job }
        requires index { i < frames_of N.job }
        requires rooms { AreReady N.job O.job N.files D.tells self.now.view.now (D.state _old.now) rooms.old }
        requires held { D.tells ≡ true
            → HasIntactDonor N.job O.job self.now.view.now (view_of (D.state _old.now).history) i
            → (slice_index_or reel.old.ledger.gates i false ≡ true) ⊎ HasRoom i rooms.old }
        requires is_open { reel.old.ledger.closed ≡ false }
        requires size { length reel.old.ledger.gates ≡ frames_of N.job }

        ensures rooms { OnOk result (AreReady N.job O.job N.files D.tells self.now.view.now (D.state _old.now) rooms.new) }
        ensures left { OnOk result ((k : ℕ) → k ≢ i → HasRoom k rooms.old → HasRoom k rooms.new) }
        ensures done { HasServed N.job O.job N.files D.tells D.state E.tells E.state
            self.now.view.now i result _old.now _old.now reel.old reel.new }
    {
        if reel.is_acked(i) {
            return Ok(());
        }
        match place_of(rooms, i) {
            Some(n) => self.finish_frame(reel, i, &mut rooms[n]),
            None => Ok(()),
        }
    }

    /// Adopts the frames from one to another that have rooms and aren't acknowledged, in order. Nothing is read of the old folder.
    pub(crate) fn adopt_frames<N: Work, O: Work, D: Disk, E: Disk>(
        &self,
        _old: &D,
        reel: &mut Reel<E, N>,
        from: u32,
        to: u32,
        rooms: &mut [Room],
    ) -> Result<(), DiskFault>
        requires job { self.now.new_job.now ≡ N.job }
        requires order { (from ≤ to) × (to ≤ frames_of N.job) }
        requires rooms { AreReady N.job O.job N.files D.tells self.now.view.now (D.state _old.now) rooms.old }
        requires held { D.tells ≡ true → AreHeld N.job O.job self.now.view.now (view_of (D.state _old.now).history)
            from to reel.old.ledger.gates (λ i. HasRoom i rooms.old) }
        requires is_open { reel.old.ledger.closed ≡ false }
        requires size { length reel.old.ledger.gates ≡ frames_of N.job }

        ensures rooms { OnOk result (AreReady N.job O.job N.files D.tells self.now.view.now (D.state _old.now) rooms.new) }
        ensures left { OnOk result ((k : ℕ) → to ≤ k → HasRoom k rooms.old → HasRoom k rooms.new) }
        ensures done { HasServedTo N.job O.job N.files D.tells D.state E.tells E.state
            self.now.view.now from to result _old.now _old.now reel.old reel.new }
    {
        for i in from..to {
            match self.adopt_frame::<N, O, D, E>(_old, reel, i, rooms) {
                Ok(()) => {}
                Err(DiskFault) => return Err(DiskFault),
            }
        }
        Ok(())
    }
}
