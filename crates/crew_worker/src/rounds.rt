//! A worker's rounds: a claim under the station's lock, then loads, rendering and the file's digest outside it, then a finish
//! or a stop under it.
ghost use Rattle.std.specs.Prelude.{◌≡◌, ◌+◌, ◌<◌, ◌^◌, true, false, Err, length, IfOk, IfErr, IsOk, OnErr, OnOk};
ghost use Rattle.conform_job.specs.Answers.{AreInfosOf};
ghost use Rattle.conform_job.specs.Names.{Tells};
ghost use Rattle.frame_render.specs.Frame.{frame_size};
ghost use Rattle.render_board.specs.declared.step.Why.TheVariants as whys;
ghost use Rattle.reel_writer.specs.Reel.{frames_of};
ghost use Rattle.frame_fetch.specs.Ends.{IsUnrendered};
ghost use Rattle.station.specs.Leaving.{HasLeft};
ghost use Rattle.station.specs.Needed.{with_needs};
ghost use Rattle.station.specs.StationSteps.{MayStop};
ghost use Rattle.frame_fetch.specs.Asks.{needs_of};
ghost use Rattle.crew_seat.specs.Stepped.{HasStepped, HasWorked};
ghost use Rattle.crew_seat.specs.Worked.{worker_loads};
ghost use Rattle.crew_seat.specs.inside.Worked.{HasMarked};

use crate::shared_frames::{Asker, SharedFrames};
use conform_job::{Job, Work};
use crew_seat::{Seat, is_source_fault, why_of};
use frame_fetch::RunEnd;
use frame_render::{FrameBuf, Rendered};
use reel_disk::{Disk, Start};
use reel_writer::Hashed;
use render_board::Why;
use scan_source::Scans;
use station::{Away, Crewed, Held, Leave, Marks, Station};
use std::sync::{Mutex, Wait};
use std::thread::Threads;

/// What the workers of a run share.
#[derive(Drop)]
pub struct Shared<'a, D: Disk, N: Work + Start, C: Crewed, R: Threads + Wait + Sync> {
    /// Threads, and waiting for a lock.
    pub rt: &'a R,
    /// N's job.
    pub job: &'a Job,
    /// The reel, and who renders which frame.
    pub station: &'a Mutex<Station<D, N, C>>,
    /// The source frames.
    pub share: &'a SharedFrames<N, C::Misses>,
}

impl<D: Disk, N: Work + Start, C: Crewed, R: Threads + Wait + Sync> Shared<'_, D, N, C, R> {
    /// Takes a frame, where there is one for the worker. What it needs is counted in the worker's marks.
    fn take_frame(&self, number: u16, marks: &mut Marks<C>) -> Result<Held, Away>
        requires job { self.now.job.now ≡ N.job }
        ensures within { IfOk result (λ i. i < frames_of N.job) }
        ensures counted { IfOk result (λ i. marks.new ≡ with_needs (needs_of N.job i) marks.old) }
        ensures uncounted { OnErr result (marks.new ≡ marks.old) }
    {
        self.station.lock(self.rt).take(number, self.job, marks)
    }

    /// Finishes a frame that the worker took, where it still holds it and the reel is open.
    fn hand_in(
        &self,
        number: u16,
        marks: &mut Marks<C>,
        held: Held,
        frame: &Hashed<N>,
    ) -> Result<(), Leave>
        requires index { frame.now.index ≡ held }
        ensures unmarked { OnOk result (marks.new ≡ marks.old) }
        ensures left { IfErr result (HasLeft (λ why. why ≡ whys.Disk) marks.old marks.new) }
    {
        self.station
            .lock(self.rt)
            .hand_in(number, held, frame, marks)
    }

    /// Stops, where the worker has not stopped and the reel is open, with the frame that it took.
    fn give_up(&self, number: u16, marks: &mut Marks<C>, held: Option<Held>, why: Why) -> Leave
        requires why { MayStop N.job N.files why }
        ensures left { HasLeft (λ other. other ≡ why) marks.old marks.new result }
    {
        self.station.lock(self.rt).give_up(number, held, why, marks)
    }

    /// Hands in the frame that was made for a worker, or stops where none was. The room is handed back where the worker goes on.
    fn deliver(
        &self,
        number: u16,
        marks: &mut Marks<C>,
        held: Held,
        made: Result<Rendered<N>, RunEnd>,
    ) -> Result<FrameBuf, Leave>
        requires index { IfOk made (λ frame. frame.index ≡ held) }
        requires stop { IfErr made (IsUnrendered N.job N.files) }
        ensures room { IfOk result (λ back. length back ≡ frame_size N.job) }
        ensures goes_on { OnOk result ((marks.new ≡ marks.old) × IsOk made) }
        ensures marks { HasMarked N.files made marks.old marks.new }
        ensures claims { marks.new.claims ≡ marks.old.claims }
        ensures left { IfErr result (HasLeft (λ why. made ≡ Err RunEnd.SourceFault → why ≡ whys.Source) marks.old marks.new) }
    {
        match made {
            Ok(frame) => {
                let hashed = Hashed::of(frame);
                match self.hand_in(number, marks, held, &hashed) {
                    Ok(()) => Ok(hashed.into_frame().into_buf()),
                    Err(leave) => Err(leave),
                }
            }
            Err(end) => Err(self.give_up(number, marks, Some(held), why_of::<N>(end))),
        }
    }

    /// One round: takes a frame, makes it and finishes it. The room is handed back where the worker goes on; else it has stopped, or
    /// was turned away.
    fn round<S: Scans>(&self, seat: &mut Seat<S, N, C>, room: FrameBuf) -> Result<FrameBuf, Leave>
        requires job { self.now.job.now ≡ N.job }
        requires files { Tells N.files (S.state seat.old.loader.scan).world }
        requires infos { AreInfosOf N.job.parts N.files N.job.infos }
        requires room { length room ≡ frame_size N.job }
        requires few { seat.old.loader.loads + 2 < 2 ^ 64 }
        requires unfailed { seat.old.has_failed ≡ false }
        requires closed { seat.old.loader.units.pending ≡ 0 }
        ensures number { seat.new.number ≡ seat.old.number }
        ensures stepped { HasStepped N.files S.state 2 0 seat.old seat.new }
        ensures room { IfOk result (λ back. length back ≡ frame_size N.job) }
        ensures goes_on { OnOk result ((seat.new.marks ≡ record seat.old.marks { claims = seat.new.marks.claims })
            × (seat.new.has_failed ≡ false) × (seat.new.loader.units.pending ≡ 0)) }
        ensures left { IfErr result (HasLeft (λ why. seat.new.has_failed ≡ true → why ≡ whys.Source)
            (record seat.old.marks { claims = seat.new.marks.claims }) seat.new.marks) }
    {
        let held = match self.take_frame(seat.number, &mut seat.marks) {
            Ok(held) => held,
            Err(away) => return Err(Leave::Away(away)),
        };
        let mut asker = Asker {
            rt: self.rt,
            frames: self.share,
            worker: seat.number,
        };
        let made = seat.loader.make_forked(
            self.rt,
            self.job,
            &mut asker,
            held.frame(),
            room,
            seat.threads,
        );
        seat.has_failed = is_source_fault(&made);
        self.deliver(seat.number, &mut seat.marks, held, made)
    }

    /// Rounds, from the first one on, in this room, until the worker stops or is turned away.
    fn rounds<S: Scans>(&self, seat: &mut Seat<S, N, C>, room: FrameBuf) -> Leave
        requires job { self.now.job.now ≡ N.job }
        requires files { Tells N.files (S.state seat.old.loader.scan).world }
        requires infos { AreInfosOf N.job.parts N.files N.job.infos }
        requires room { length room ≡ frame_size N.job }
        requires none { seat.old.loader.loads ≡ 0 }
        requires unfailed { seat.old.has_failed ≡ false }
        requires closed { seat.old.loader.units.pending ≡ 0 }
        ensures number { seat.new.number ≡ seat.old.number }
        ensures worked { HasWorked N.files S.state worker_loads seat.old seat.new }
        ensures left { HasLeft (λ why. seat.new.has_failed ≡ true → why ≡ whys.Source)
            (record seat.old.marks { claims = seat.new.marks.claims }) seat.new.marks result }
    {
        let mut room = room;
        for _ in 0..self.job.timeline().count() {
            match self.round(seat, room) {
                Ok(back) => room = back,
                Err(leave) => return leave,
            }
        }
        // So many finishes leave no frame, and the station says so.
        match self.take_frame(seat.number, &mut seat.marks) {
            Err(away) => Leave::Away(away),
            Ok(held) => self.give_up(seat.number, &mut seat.marks, Some(held), Why::Memory),
        }
    }

    /// A worker's part of a run: it claims, makes and finishes frames until none is left, or somebody stops. It loads, renders
    /// and hashes outside both locks, holds one of them at a time, and waits for them alone. A frame is rendered in as many threads
    /// as its seat says.
    ///
    /// It stops where a load failed, where memory ran out, where the disk failed in a finish, and where a source file isn't
    /// what it was when the job was planned. Each stop is counted in its marks. It leaves only where it has stopped or the station
    /// has turned it away: a frame that it took can't be let go, and a station alone says that it has no step for a worker.
    pub fn worker<S: Scans>(&self, seat: &mut Seat<S, N, C>) -> Leave
        requires job { self.now.job.now ≡ N.job }
        requires files { Tells N.files (S.state seat.old.loader.scan).world }
        requires infos { AreInfosOf N.job.parts N.files N.job.infos }
        requires none { seat.old.loader.loads ≡ 0 }
        requires unfailed { seat.old.has_failed ≡ false }
        requires closed { seat.old.loader.units.pending ≡ 0 }
        ensures number { seat.new.number ≡ seat.old.number }
        ensures worked { HasWorked N.files S.state worker_loads seat.old seat.new }
        ensures left { HasLeft (λ why. seat.new.has_failed ≡ true → why ≡ whys.Source)
            (record seat.old.marks { claims = seat.new.marks.claims }) seat.new.marks result }
    {
        match FrameBuf::new(seat.loader.alloc, self.job) {
            Ok(room) => self.rounds(seat, room),
            Err(_) => self.give_up(seat.number, &mut seat.marks, None, Why::Memory),
        }
    }
}
