//! All frames of an adoption: while the files of some are made of their donors, those before them are finished, and the donors of
//! those behind them are read.
ghost use Rattle.std.specs.Prelude.{◌≡◌, ℕ, ◌<◌, ◌≤◌, true, false, length, All, IfOk, OnOk, IsErrOf};
ghost use Rattle.frame_hash.specs.Rooms.{IsFree};
ghost use Rattle.frame_render.specs.Frame.{frame_size};
ghost use Rattle.reel_disk.specs.Disk.{view_of};
ghost use Rattle.reel_writer.specs.Reel.{frames_of};
ghost use Rattle.reconform.specs.Adopt.{LeavesBoth};
ghost use Rattle.reconform.specs.inside.Ahead.{AreHeld, AreReady, HasRoom, HoldsDonor};
ghost use Rattle.reconform.specs.inside.Asking.{AsksFrom};
ghost use Rattle.reconform.specs.inside.Parts.{CanTake, HasAdopted, HasGoneOn, HasServedTo, IsFurther, IsInOrder, IsUnderWay, WasLookedAt, half_of};
ghost use Rattle.reconform.specs.Taken.{AsksForDonors};

use crate::adopting::AdoptFault;
use crate::donors::Donors;
use crate::plan::are_alike;
use crate::takeover::Takeover;
use cf_base::HEADER;
use conform_job::{Job, Work};
use frame_hash::{Hasher, Room, rooms_of};
use reel_disk::{Disk, DiskFault};
use reel_writer::Reel;
use resume_ledger::LedgerView;
use std::alloc::Global;

/// How far an adoption is: the frames before each number are adopted, their files are made, or their donors are read; as far as they
/// are to be.
#[derive(Clone, Copy)]
pub(crate) struct Reached {
    pub adopted: u32,
    pub made: u32,
    pub read: u32,
}

impl Takeover<'_, '_, '_, '_> {
    /// Adopts half of the frames whose files are made in some rooms. Meanwhile donors in others are hashed, and then frames' files are
    /// made of those that are intact.
    fn adopt_half<N: Work, O: Work, D: Disk, E: Disk, H: Hasher>(
        &self,
        _old: &D,
        reel: &mut Reel<E, N>,
        hasher: &H,
        at: Reached,
        made: &mut [Room],
        read: &mut [Room],
    ) -> Result<Reached, DiskFault>
        requires can_hash { H.can_hash }
        requires can { CanTake N.job O.job N.files D.tells (view_of (D.state _old.now).history)
            self.now.new_job.now self.now.old_job.now self.now.view.now self.now.donors.now.by_plan }
        requires under_way { IsUnderWay N.job O.job D.tells self.now.view.now (view_of (D.state _old.now).history)
            reel.old.ledger.gates at made.old read.old }
        requires made { AreReady N.job O.job N.files D.tells self.now.view.now (D.state _old.now) made.old }
        requires read { All (HoldsDonor N.job O.job D.tells (D.state _old.now) self.now.donors.now.by_plan) read.old }
        requires is_open { reel.old.ledger.closed ≡ false }
        requires size { length reel.old.ledger.gates ≡ frames_of N.job }

        ensures to { IfOk result (λ to. to ≡ half_of at × IsUnderWay N.job O.job D.tells self.now.view.now
            (view_of (D.state _old.now).history) reel.new.ledger.gates to made.new read.new) }
        ensures made { OnOk result (AreReady N.job O.job N.files D.tells self.now.view.now (D.state _old.now) made.new) }
        ensures read { OnOk result (AreReady N.job O.job N.files D.tells self.now.view.now (D.state _old.now) read.new) }
        ensures done { HasServedTo N.job O.job N.files D.tells D.state E.tells E.state
            self.now.view.now at.adopted (half_of at).adopted result _old.now _old.now reel.old reel.new }
    {
        let mut work = || -> Result<Reached, DiskFault>
            requires { (self.now.new_job.now ≡ N.job)
                × IsInOrder (frames_of N.job) at
                × AreReady N.job O.job N.files D.tells self.now.view.now (D.state _old.now) made.now
                × (D.tells ≡ true → AreHeld N.job O.job self.now.view.now (view_of (D.state _old.now).history)
                at.adopted at.made reel.now.ledger.gates (λ i. HasRoom i made.now))
                × (reel.now.ledger.closed ≡ false)
                × (length reel.now.ledger.gates ≡ frames_of N.job) }
            ensures to { IfOk result (λ to. to ≡ half_of at) }
            ensures rooms { OnOk result (AreReady N.job O.job N.files D.tells self.entry.now.view.now
                (D.state _old.entry.now) made.exit.now) }
            ensures left { OnOk result ((k : ℕ) → (half_of at).adopted ≤ k → HasRoom k made.entry.now → HasRoom k made.exit.now) }
            ensures done { HasServedTo N.job O.job N.files D.tells D.state E.tells E.state self.entry.now.view.now
                at.adopted (half_of at).adopted result _old.entry.now _old.entry.now reel.entry.now reel.exit.now }
        { self.adopt_first::<N, O, D, E>(_old, reel, at, made) };
        match hasher.hash_beside(read, usize::MAX, &mut work) {
            Ok(to) => {
                self.dress_all::<N, O, D>(_old, read);
                Ok(to)
            }
            Err(DiskFault) => Err(DiskFault),
        }
    }

    /// Adopts half of the frames whose files are made in some rooms.
    fn adopt_first<N: Work, O: Work, D: Disk, E: Disk>(
        &self,
        _old: &D,
        reel: &mut Reel<E, N>,
        at: Reached,
        rooms: &mut [Room],
    ) -> Result<Reached, DiskFault>
        requires job { self.now.new_job.now ≡ N.job }
        requires order { IsInOrder (frames_of N.job) at }
        requires rooms { AreReady N.job O.job N.files D.tells self.now.view.now (D.state _old.now) rooms.old }
        requires held { D.tells ≡ true → AreHeld N.job O.job self.now.view.now (view_of (D.state _old.now).history)
            at.adopted at.made reel.old.ledger.gates (λ i. HasRoom i rooms.old) }
        requires is_open { reel.old.ledger.closed ≡ false }
        requires size { length reel.old.ledger.gates ≡ frames_of N.job }

        ensures to { IfOk result (λ to. to ≡ half_of at) }
        ensures rooms { OnOk result (AreReady N.job O.job N.files D.tells self.now.view.now (D.state _old.now) rooms.new) }
        ensures left { OnOk result ((k : ℕ) → (half_of at).adopted ≤ k → HasRoom k rooms.old → HasRoom k rooms.new) }
        ensures done { HasServedTo N.job O.job N.files D.tells D.state E.tells E.state
            self.now.view.now at.adopted (half_of at).adopted result _old.now _old.now reel.old reel.new }
    {
        let middle = at.adopted + (at.made - at.adopted) / 2;
        match self.adopt_frames::<N, O, D, E>(_old, reel, at.adopted, middle, rooms) {
            Ok(()) => Ok(Reached {
                adopted: middle,
                ..at
            }),
            Err(DiskFault) => Err(DiskFault),
        }
    }

    /// Adopts the other half, and then reads the next donors into their rooms. Meanwhile the files that were made are hashed.
    fn adopt_rest<N: Work, O: Work, D: Disk, E: Disk, H: Hasher>(
        &self,
        old: &mut D,
        reel: &mut Reel<E, N>,
        hasher: &H,
        at: Reached,
        made: &mut [Room],
        read: &mut [Room],
    ) -> Result<Reached, DiskFault>
        requires can_hash { H.can_hash }
        requires can { CanTake N.job O.job N.files D.tells (view_of (D.state old.old).history)
            self.now.new_job.now self.now.old_job.now self.now.view.now self.now.donors.now.by_plan }
        requires under_way { IsUnderWay N.job O.job D.tells self.now.view.now (view_of (D.state old.old).history)
            reel.old.ledger.gates at made.old read.old }
        requires made { (0 < length made.old) × AreReady N.job O.job N.files D.tells self.now.view.now (D.state old.old) made.old }
        requires read { AreReady N.job O.job N.files D.tells self.now.view.now (D.state old.old) read.old }
        requires is_open { reel.old.ledger.closed ≡ false }
        requires size { length reel.old.ledger.gates ≡ frames_of N.job }

        ensures to { IfOk result (λ to. HasGoneOn (frames_of N.job) at to × IsUnderWay N.job O.job D.tells self.now.view.now
            (view_of (D.state old.old).history) reel.new.ledger.gates to read.new made.new) }
        ensures made { OnOk result (All (HoldsDonor N.job O.job D.tells (D.state old.new) self.now.donors.now.by_plan)
            made.new) }
        ensures read { OnOk result (AreReady N.job O.job N.files D.tells self.now.view.now (D.state old.new) read.new) }
        ensures asks { AsksFrom (λ to. to.read) N.job O.job self.now.view.now at.read result (D.state old.old).calls
            (D.state old.new).calls }
        ensures done { HasServedTo N.job O.job N.files D.tells D.state E.tells E.state
            self.now.view.now at.adopted at.made result old.old old.new reel.old reel.new }
    {
        let mut work = || -> Result<u32, DiskFault>
            requires { CanTake N.job O.job N.files D.tells (view_of (D.state old.now).history)
                self.now.new_job.now self.now.old_job.now self.now.view.now self.now.donors.now.by_plan
                × IsInOrder (frames_of N.job) at
                × (0 < length made.now)
                × AreReady N.job O.job N.files D.tells self.now.view.now (D.state old.now) made.now
                × (D.tells ≡ true → AreHeld N.job O.job self.now.view.now (view_of (D.state old.now).history)
                at.adopted at.made reel.now.ledger.gates (λ i. HasRoom i made.now))
                × (reel.now.ledger.closed ≡ false)
                × (length reel.now.ledger.gates ≡ frames_of N.job) }
            ensures next { IfOk result (IsFurther (frames_of N.job) at.read) }
            ensures rooms { OnOk result (All (HoldsDonor N.job O.job D.tells (D.state old.exit.now)
                self.entry.now.donors.now.by_plan) made.exit.now) }
            ensures held { IfOk result (λ next. D.tells ≡ true → AreHeld N.job O.job self.entry.now.view.now
                (view_of (D.state old.entry.now).history) at.read next reel.exit.now.ledger.gates (λ i. HasRoom i made.exit.now)) }
            ensures asks { AsksFrom (λ next. next) N.job O.job self.entry.now.view.now at.read result (D.state old.entry.now).calls
                (D.state old.exit.now).calls }
            ensures done { HasServedTo N.job O.job N.files D.tells D.state E.tells E.state
                self.entry.now.view.now at.adopted at.made result old.entry.now old.exit.now reel.entry.now reel.exit.now }
        { self.adopt_and_read::<N, O, D, E>(old, reel, at, made) };
        match hasher.hash_beside(read, usize::MAX, &mut work) {
            Ok(next) => Ok(Reached {
                adopted: at.made,
                made: at.read,
                read: next,
            }),
            Err(DiskFault) => Err(DiskFault),
        }
    }

    /// Adopts the frames whose files are made in some rooms, and then reads the next donors into these: where those behind them are
    /// looked for.
    fn adopt_and_read<N: Work, O: Work, D: Disk, E: Disk>(
        &self,
        old: &mut D,
        reel: &mut Reel<E, N>,
        at: Reached,
        rooms: &mut [Room],
    ) -> Result<u32, DiskFault>
        requires can { CanTake N.job O.job N.files D.tells (view_of (D.state old.old).history)
            self.now.new_job.now self.now.old_job.now self.now.view.now self.now.donors.now.by_plan }
        requires order { IsInOrder (frames_of N.job) at }
        requires rooms { (0 < length rooms.old)
            × AreReady N.job O.job N.files D.tells self.now.view.now (D.state old.old) rooms.old }
        requires held { D.tells ≡ true → AreHeld N.job O.job self.now.view.now (view_of (D.state old.old).history)
            at.adopted at.made reel.old.ledger.gates (λ i. HasRoom i rooms.old) }
        requires is_open { reel.old.ledger.closed ≡ false }
        requires size { length reel.old.ledger.gates ≡ frames_of N.job }

        ensures next { IfOk result (IsFurther (frames_of N.job) at.read) }
        ensures rooms { OnOk result (All (HoldsDonor N.job O.job D.tells (D.state old.new) self.now.donors.now.by_plan)
            rooms.new) }
        ensures held { IfOk result (λ next. D.tells ≡ true → AreHeld N.job O.job self.now.view.now
            (view_of (D.state old.old).history) at.read next reel.new.ledger.gates (λ i. HasRoom i rooms.new)) }
        ensures asks { AsksFrom (λ next. next) N.job O.job self.now.view.now at.read result (D.state old.old).calls
            (D.state old.new).calls }
        ensures done { HasServedTo N.job O.job N.files D.tells D.state E.tells E.state
            self.now.view.now at.adopted at.made result old.old old.new reel.old reel.new }
    {
        match self.adopt_frames::<N, O, D, E>(&*old, reel, at.adopted, at.made, rooms) {
            Ok(()) => self.read_ahead::<N, O, D, E>(old, reel, at.read, rooms),
            Err(DiskFault) => Err(DiskFault),
        }
    }

    /// Adopts the frames whose files are made in some rooms, and reads the next donors into these. Meanwhile frames' files are made in
    /// others: how far it is then.
    fn go_on<N: Work, O: Work, D: Disk, E: Disk, H: Hasher>(
        &self,
        old: &mut D,
        reel: &mut Reel<E, N>,
        hasher: &H,
        at: Reached,
        made: &mut [Room],
        read: &mut [Room],
    ) -> Result<Reached, DiskFault>
        requires can_hash { H.can_hash }
        requires can { CanTake N.job O.job N.files D.tells (view_of (D.state old.old).history)
            self.now.new_job.now self.now.old_job.now self.now.view.now self.now.donors.now.by_plan }
        requires under_way { IsUnderWay N.job O.job D.tells self.now.view.now (view_of (D.state old.old).history)
            reel.old.ledger.gates at made.old read.old }
        requires made { (0 < length made.old) × AreReady N.job O.job N.files D.tells self.now.view.now (D.state old.old) made.old }
        requires read { All (HoldsDonor N.job O.job D.tells (D.state old.old) self.now.donors.now.by_plan) read.old }
        requires is_open { reel.old.ledger.closed ≡ false }
        requires size { length reel.old.ledger.gates ≡ frames_of N.job }

        ensures to { IfOk result (λ to. HasGoneOn (frames_of N.job) at to × IsUnderWay N.job O.job D.tells self.now.view.now
            (view_of (D.state old.old).history) reel.new.ledger.gates to read.new made.new) }
        ensures read { OnOk result (All (HoldsDonor N.job O.job D.tells (D.state old.new) self.now.donors.now.by_plan)
            made.new) }
        ensures made { OnOk result (AreReady N.job O.job N.files D.tells self.now.view.now (D.state old.new) read.new) }
        ensures asks { AsksFrom (λ to. to.read) N.job O.job self.now.view.now at.read result (D.state old.old).calls
            (D.state old.new).calls }
        ensures done { HasServedTo N.job O.job N.files D.tells D.state E.tells E.state
            self.now.view.now at.adopted at.made result old.old old.new reel.old reel.new }
    {
        match self.adopt_half::<N, O, D, E, H>(&*old, reel, hasher, at, made, read) {
            Ok(to) => self.adopt_rest::<N, O, D, E, H>(old, reel, hasher, to, made, read),
            Err(DiskFault) => Err(DiskFault),
        }
    }

    /// The same twice, so that both rooms are as they were: files made, and donors read.
    fn go_on_twice<N: Work, O: Work, D: Disk, E: Disk, H: Hasher>(
        &self,
        old: &mut D,
        reel: &mut Reel<E, N>,
        hasher: &H,
        at: Reached,
        made: &mut [Room],
        read: &mut [Room],
    ) -> Result<Reached, DiskFault>
        requires can_hash { H.can_hash }
        requires can { CanTake N.job O.job N.files D.tells (view_of (D.state old.old).history)
            self.now.new_job.now self.now.old_job.now self.now.view.now self.now.donors.now.by_plan }
        requires under_way { IsUnderWay N.job O.job D.tells self.now.view.now (view_of (D.state old.old).history)
            reel.old.ledger.gates at made.old read.old }
        requires made { (0 < length made.old) × AreReady N.job O.job N.files D.tells self.now.view.now (D.state old.old) made.old }
        requires read { (0 < length read.old)
            × All (HoldsDonor N.job O.job D.tells (D.state old.old) self.now.donors.now.by_plan) read.old }
        requires is_open { reel.old.ledger.closed ≡ false }
        requires size { length reel.old.ledger.gates ≡ frames_of N.job }

        ensures to { IfOk result (λ to. (to.adopted ≡ at.read) × (at.read < frames_of N.job → at.read < to.read)
            × IsUnderWay N.job O.job D.tells self.now.view.now (view_of (D.state old.old).history) reel.new.ledger.gates
            to made.new read.new) }
        ensures made { OnOk result (AreReady N.job O.job N.files D.tells self.now.view.now (D.state old.new) made.new) }
        ensures read { OnOk result (All (HoldsDonor N.job O.job D.tells (D.state old.new) self.now.donors.now.by_plan)
            read.new) }
        ensures asks { AsksFrom (λ to. to.read) N.job O.job self.now.view.now at.read result (D.state old.old).calls
            (D.state old.new).calls }
        ensures done { HasServedTo N.job O.job N.files D.tells D.state E.tells E.state
            self.now.view.now at.adopted at.read result old.old old.new reel.old reel.new }
    {
        match self.go_on::<N, O, D, E, H>(old, reel, hasher, at, made, read) {
            Ok(to) => self.go_on::<N, O, D, E, H>(old, reel, hasher, to, read, made),
            Err(DiskFault) => Err(DiskFault),
        }
    }

    /// Adopts each frame of the new job that isn't acknowledged and has an intact donor, in order.
    fn adopt_all<N: Work, O: Work, D: Disk, E: Disk, H: Hasher>(
        &self,
        old: &mut D,
        reel: &mut Reel<E, N>,
        hasher: &H,
    ) -> Result<(), AdoptFault>
        requires can_hash { H.can_hash }
        requires can { CanTake N.job O.job N.files D.tells (view_of (D.state old.old).history)
            self.now.new_job.now self.now.old_job.now self.now.view.now self.now.donors.now.by_plan }
        requires is_open { reel.old.ledger.closed ≡ false }
        requires size { length reel.old.ledger.gates ≡ frames_of N.job }

        ensures adopted { HasAdopted N.job O.job N.files D.tells D.state E.tells E.state self.now.view.now
            result old.old old.new reel.old reel.new }
        ensures disks { LeavesBoth (IsErrOf result AdoptFault.DiskFault)
            (D.state old.old) (D.state old.new) (E.state reel.old.disk) (E.state reel.new.disk) }
    {
        let count = hasher.rooms().max(1);
        let size = frame_len(self.new_job);
        let mut some = rooms_of(self.alloc, count, size);
        let mut others = rooms_of(self.alloc, count, size);
        if some.is_empty() || others.is_empty() {
            return Err(AdoptFault::NoMemory);
        }
        match self.adopt_each::<N, O, D, E, H>(old, reel, hasher, &mut some, &mut others) {
            Ok(()) => Ok(()),
            Err(DiskFault) => Err(AdoptFault::DiskFault),
        }
    }

    /// The same, in rooms that are there: while frames are made in some, those in others are finished.
    fn adopt_each<N: Work, O: Work, D: Disk, E: Disk, H: Hasher>(
        &self,
        old: &mut D,
        reel: &mut Reel<E, N>,
        hasher: &H,
        some: &mut [Room],
        others: &mut [Room],
    ) -> Result<(), DiskFault>
        requires can_hash { H.can_hash }
        requires can { CanTake N.job O.job N.files D.tells (view_of (D.state old.old).history)
            self.now.new_job.now self.now.old_job.now self.now.view.now self.now.donors.now.by_plan }
        requires some { (0 < length some.old) × All (IsFree (frame_size N.job)) some.old }
        requires others { (0 < length others.old) × All (IsFree (frame_size N.job)) others.old }
        requires is_open { reel.old.ledger.closed ≡ false }
        requires size { length reel.old.ledger.gates ≡ frames_of N.job }

        ensures asks { AsksForDonors N.job O.job self.now.view.now 0 (frames_of N.job) (D.state old.old).calls (D.state old.new).calls }
        ensures done { HasServedTo N.job O.job N.files D.tells D.state E.tells E.state
            self.now.view.now 0 (frames_of N.job) result old.old old.new reel.old reel.new }
    {
        let end = self.new_job.count();
        let mut at = Reached {
            adopted: 0,
            made: 0,
            read: 0,
        };
        while at.adopted < end {
            match self.go_on_twice::<N, O, D, E, H>(old, reel, hasher, at, some, others) {
                Ok(to) => at = to,
                Err(DiskFault) => return Err(DiskFault),
            }
        }
        Ok(())
    }
}

/// How many bytes the file of a frame has: 2048 of header and four for each pixel.
fn frame_len(job: &Job) -> usize
    ensures { result ≡ frame_size job.now }
{
    job.recall();
    HEADER + 4 * (job.width() as usize * job.height() as usize)
}

/// Adopts what can be, where the two jobs are alike.
pub(crate) fn adopt_alike<N: Work, O: Work, D: Disk, E: Disk, H: Hasher>(
    alloc: Global,
    new_job: &Job,
    old_job: &Job,
    old: &mut D,
    view: &LedgerView,
    reel: &mut Reel<E, N>,
    hasher: &H,
) -> Result<(), AdoptFault>
    requires can_hash { H.can_hash }
    requires new_job { new_job.now ≡ N.job }
    requires old_job { old_job.now ≡ O.job }
    requires looked { WasLookedAt N.job O.job N.files D.tells (view_of (D.state old.old).history) view.now }
    requires is_open { reel.old.ledger.closed ≡ false }
    requires size { length reel.old.ledger.gates ≡ frames_of N.job }

    ensures adopted { HasAdopted N.job O.job N.files D.tells D.state E.tells E.state view.now result old.old old.new reel.old reel.new }
    ensures disks { LeavesBoth (IsErrOf result AdoptFault.DiskFault)
        (D.state old.old) (D.state old.new) (E.state reel.old.disk) (E.state reel.new.disk) }
{
    if are_alike(new_job, old_job) {
        return match Donors::of(alloc, old_job, view) {
            Ok(donors) => {
                let from = Takeover {
                    alloc,
                    new_job,
                    old_job,
                    view,
                    donors: &donors,
                };
                from.adopt_all::<N, O, D, E, H>(old, reel, hasher)
            }
            Err(_) => Err(AdoptFault::NoMemory),
        };
    }
    Ok(())
}
