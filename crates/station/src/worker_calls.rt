//! What a worker asks of the station while it holds the lock. Each call is made whatever the station is, and answers why it
//! came to nothing.
ghost use Rattle.std.specs.Prelude.{◌≡◌, ◌≢◌, ◌<◌, IfErr, IfOk, OnErr, OnOk};
ghost use Rattle.render_board.specs.declared.board.Turn.TheVariants as turns;
ghost use Rattle.render_board.specs.declared.step.Why.TheVariants as whys;
ghost use Rattle.reel_writer.specs.Reel.{frames_of};
ghost use Rattle.station.specs.Leaving.{HasGone, HasLeft, HasTaken, IsUntaken, HasGoneHolding};
ghost use Rattle.station.specs.Needed.{with_needs};
ghost use Rattle.frame_fetch.specs.Asks.{needs_of};
ghost use Rattle.station.specs.StationSteps.{MayStop, after_finished, after_stopped};

use crate::crewed::Crewed;
use crate::leaving::{Away, Held, Leave, Reason};
use crate::marks::Marks;
use crate::station::Station;
use conform_job::{Job, Work};
use reel_disk::{Disk, DiskFault, Start};
use reel_writer::Hashed;
use render_board::{Claim, Turn, Why};

impl<D: Disk, N: Work + Start, C: Crewed> Station<D, N, C> {
    /// Takes the least free frame for an idle worker while the reel is open, or tells why there is none for it. What the frame needs
    /// is counted in the worker's marks.
    pub fn take(&mut self, worker: u16, job: &Job, marks: &mut Marks<C>) -> Result<Held, Away>
        requires job { job.now ≡ N.job }
        ensures within { IfOk result (λ i. i < frames_of N.job) }
        ensures taken { IfOk result (λ i. HasTaken self.old worker i self.new) }
        ensures untaken { IfErr result (λ reason. IsUntaken self.old worker reason × (self.new ≡ self.old)) }
        ensures counted { IfOk result (λ i. marks.new ≡ with_needs (needs_of N.job i) marks.old) }
        ensures uncounted { OnErr result (marks.new ≡ marks.old) }
    {
        if worker >= self.workers() {
            return Err(Away::of(Reason::Unknown));
        }
        if self.is_closed() {
            return Err(Away::of(Reason::Closed));
        }
        match self.turn(worker) {
            Turn::Idle => {}
            Turn::Holds(_) | Turn::Stopped => return Err(Away::of(Reason::Moved)),
        }
        match self.claim(worker, job, marks) {
            Claim::Take(frame) => Ok(Held { frame }),
            Claim::NoneLeft => Err(Away::of(Reason::NoneLeft)),
            Claim::Stopped => Err(Away::of(Reason::Stopped)),
        }
    }

    /// Finishes the frame that a worker took, where it still holds it and the reel is open. A worker leaves where that isn't so,
    /// and where the disk fails, which stops it.
    pub fn hand_in(
        &mut self,
        worker: u16,
        held: Held,
        frame: &Hashed<N>,
        marks: &mut Marks<C>,
    ) -> Result<(), Leave>
        requires index { frame.now.index ≡ held }
        ensures finished { OnOk result (self.new ≡ after_finished self.old worker held self.new.reel.disk) }
        ensures unmarked { OnOk result (marks.new ≡ marks.old) }
        ensures gone { IfErr result (λ leave. HasGoneHolding held self.old worker leave self.new) }
        ensures left { IfErr result (HasLeft (λ why. why ≡ whys.Disk) marks.old marks.new) }
    {
        let Held { frame: taken } = held;
        if worker >= self.workers() {
            return Err(Leave::Away(Away::of(Reason::Unknown)));
        }
        if self.is_closed() {
            return Err(Leave::Away(Away::of(Reason::Closed)));
        }
        match self.turn(worker) {
            Turn::Holds(i) if i == taken => {}
            _ => return Err(Leave::Away(Away::of(Reason::Moved))),
        }
        match self.finish(worker, frame, marks) {
            Ok(()) => Ok(()),
            Err(DiskFault) => Err(Leave::Stopped),
        }
    }

    /// Stops a worker that has not stopped, while the reel is open, with the frame that it took.
    pub fn give_up(
        &mut self,
        worker: u16,
        held: Option<Held>,
        why: Why,
        marks: &mut Marks<C>,
    ) -> Leave
        requires why { MayStop N.job N.files why }
        ensures gone { HasGone (λ turn. turn ≢ turns.Stopped) self.old worker (after_stopped self.old worker why) result self.new }
        ensures left { HasLeft (λ other. other ≡ why) marks.old marks.new result }
    {
        if let Some(Held { frame: _ }) = held {}
        if worker >= self.workers() {
            return Leave::Away(Away::of(Reason::Unknown));
        }
        if self.is_closed() {
            return Leave::Away(Away::of(Reason::Closed));
        }
        match self.turn(worker) {
            Turn::Stopped => return Leave::Away(Away::of(Reason::Moved)),
            Turn::Idle | Turn::Holds(_) => {}
        }
        self.stop(worker, why, marks);
        Leave::Stopped
    }
}
