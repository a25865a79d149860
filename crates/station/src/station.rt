//! The value behind the station's lock: the reel and the board, and how many stops of each why there were.
ghost use Rattle.std.specs.Prelude.{◌≡◌, ◌≢◌, ◌<◌, ◌≤◌, true, false, length, OnOk, OnErr, IsErr};
ghost use Rattle.reel_disk.specs.Call.{OnlyWrites};
ghost use Rattle.reel_disk.specs.State.{LeavesDisk};
ghost use Rattle.render_board.specs.Board.{turn_of, claim_of};
ghost use Rattle.render_board.specs.declared.board.Turn.TheVariants as turns;
ghost use Rattle.render_board.specs.declared.step.Why.TheVariants as whys;
ghost use Rattle.reel_writer.specs.Reel.{IsRunFile, IsSafeFinish, frames_of};
ghost use Rattle.station.specs.Marks.{AreWhole, IsBlankOf, IsSettled, raised_by};
ghost use Rattle.station.specs.Needed.{needed_by, needed_for, with_needs};
ghost use Rattle.frame_fetch.specs.Asks.{needs_of};
ghost use Rattle.station.specs.Station.{StationView, IsStation};
ghost use Rattle.station.specs.StationSteps.{IsBeginning, IsSurelyAcked, IsSurelyStored, MayStop, ShowsFrame, after_claimed, after_failed, after_finished, after_stopped};

use crate::crewed::Crewed;
use crate::marks::Marks;
use cf_base::WORKERS;
use conform_job::{Job, Work};
use reel_disk::{Disk, DiskFault, Start};
use reel_writer::{Hashed, Reel};
use render_board::{Board, Claim, Turn, Why};
use std::marker::{Model, PhantomData};
use std::sync::ledger::{Blank, Book};

/// How many stops of each why there were.
#[derive(Drop)]
struct Totals<C: Crewed> {
    source: Book<C::SourceStops>,
    disk: Book<C::DiskStops>,
    memory: Book<C::MemoryStops>,
    changed: Book<C::ChangeStops>,
}

/// The reel and the board of a run, as several workers share them. Each of its calls takes no memory, and is one step of
/// the board or none.
///
/// Contracts see the reel, the board's log, and the totals of stops.
pub struct Station<D: Disk, N: Work + Start, C: Crewed> {
    reel: Reel<D, N>,
    board: Board,
    totals: Totals<C>,
    claims: Book<C::Claims>,
    of: PhantomData<N>,
    crew: PhantomData<C>,
}

impl<D: Disk, N: Work + Start, C: Crewed> Model for Station<D, N, C> {
    ghost use Rattle.std.specs.Prelude.{◌≡◌};
    ghost use Rattle.std.specs.Coded.{codes};
    ghost use Rattle.reel_disk.specs.Call.{OnlyWrites};
    ghost use Rattle.reel_writer.specs.Reel.{IsRunFile};
    ghost use Rattle.reel_writer.specs.View.{reel_code};
    ghost use Rattle.station.specs.Needed.{needed_by};
    ghost use Rattle.station.specs.Station.{StationView, IsStation};
    ghost use Rattle.station.specs.inside.Station.{station_of};

    ghost Value = { StationView D };

    ghost coded = { Prim.hlevel (codes, reel_code D.code) };

    ghost view = { λ s. station_of s.reel s.board s.totals.source.total s.totals.disk.total s.totals.memory.total s.totals.changed.total };

    ghost invariant = { λ s.
        IsStation N.job N.files N.start D.tells D.state
        (station_of s.reel s.board s.totals.source.total s.totals.disk.total s.totals.memory.total s.totals.changed.total)
        × (s.board.workers ≡ C.workers) × ((D.state s.reel.disk).loans ≡ N.loans)
        × ((s.board.low ≡ C.low) × (s.board.high ≡ C.high))
        × OnlyWrites (IsRunFile N.job C.low C.high) N.calls (D.state s.reel.disk).calls
        × (s.claims.total ≡ needed_by N.job s.board.steps) };
}

impl<D: Disk, N: Work + Start, C: Crewed> Station<D, N, C> {
    /// The station of a reel that was just opened, and of a board whose done frames are those that it acknowledges. The
    /// marks have every part of each total.
    pub fn new(
        reel: Reel<D, N>,
        board: Board,
        source: Blank,
        disk: Blank,
        memory: Blank,
        changed: Blank,
        claims: Blank,
    ) -> (Station<D, N, C>, Marks<C>)
        requires source { IsBlankOf C.SourceStops.name C.SourceStops.parts source.name source.parts }
        requires disk { IsBlankOf C.DiskStops.name C.DiskStops.parts disk.name disk.parts }
        requires memory { IsBlankOf C.MemoryStops.name C.MemoryStops.parts memory.name memory.parts }
        requires changed { IsBlankOf C.ChangeStops.name C.ChangeStops.parts changed.name changed.parts }
        requires claims { IsBlankOf C.Claims.name C.Claims.parts claims.name claims.parts }
        requires beginning { IsBeginning N.job N.files N.start D.tells D.state reel board }
        requires named { (board.workers ≡ C.workers) × ((board.low ≡ C.low) × (board.high ≡ C.high)) }
        requires disk_of { ((D.state reel.disk).loans ≡ N.loans)
            × OnlyWrites (IsRunFile N.job C.low C.high) N.calls (D.state reel.disk).calls }
        ensures station { (result.0.reel ≡ reel) × (result.0.log ≡ board) }
        ensures marks { AreWhole C.SourceStops.parts C.DiskStops.parts C.MemoryStops.parts C.ChangeStops.parts C.Claims.parts result.1 }
    {
        let (source_book, source_share) = source.open::<C::SourceStops>();
        let (disk_book, disk_share) = disk.open::<C::DiskStops>();
        let (memory_book, memory_share) = memory.open::<C::MemoryStops>();
        let (changed_book, changed_share) = changed.open::<C::ChangeStops>();
        let (claims_book, claims_share) = claims.open::<C::Claims>();
        let station = Station {
            reel,
            board,
            totals: Totals {
                source: source_book,
                disk: disk_book,
                memory: memory_book,
                changed: changed_book,
            },
            claims: claims_book,
            of: PhantomData,
            crew: PhantomData,
        };
        let marks = Marks {
            source: source_share,
            disk: disk_share,
            memory: memory_share,
            changed: changed_share,
            claims: claims_share,
        };
        (station, marks)
    }

    /// Takes the least free frame for an idle worker, as the board does. What that frame needs is counted in the worker's marks.
    pub fn claim(&mut self, worker: u16, job: &Job, marks: &mut Marks<C>) -> Claim
        requires job { job.now ≡ N.job }
        requires worker { worker < self.old.log.workers }
        requires idle { turn_of self.old.log worker ≡ turns.Idle }
        ensures answer { result ≡ claim_of self.old.log }
        ensures step { self.new ≡ after_claimed self.old worker result }
        ensures marks { marks.new ≡ with_needs (needed_for N.job result) marks.old }
    {
        let answer = self.board.claim(worker);
        if let Claim::Take(i) = answer {
            self.claims.add(&mut marks.claims, count_needs(job, i));
        }
        answer
    }

    /// Writes and acknowledges the frame that the worker holds, as the reel does, and then it is done. Its digest was made
    /// before, so that no worker waits for it at the lock. `DiskFault` comes only where the disk's count of faults rose: the
    /// reel is closed then, and the worker has stopped.
    pub fn finish(
        &mut self,
        worker: u16,
        frame: &Hashed<N>,
        marks: &mut Marks<C>,
    ) -> Result<(), DiskFault>
        requires is_open { self.old.reel.ledger.closed ≡ false }
        requires worker { worker < self.old.log.workers }
        requires holds { turn_of self.old.log worker ≡ turns.Holds frame.now.index }
        ensures finished { OnOk result (self.new ≡ after_finished self.old worker frame.now.index self.new.reel.disk) }
        ensures failed { OnErr result (self.new ≡ after_failed self.old worker self.new.reel.disk) }
        ensures unmarked { OnOk result (marks.new ≡ marks.old) }
        ensures marked { OnErr result (marks.new ≡ raised_by whys.Disk marks.old) }

        // What the reel's finish says.
        ensures safe { D.tells ≡ true → IsSafeFinish N.job N.files frame.now.index
            (D.state self.old.reel.disk).history (D.state self.new.reel.disk).history }
        ensures acked { OnOk result (D.tells ≡ true → IsSurelyAcked N.job frame.now.index D.state self.new) }
        ensures shown { OnOk result (D.tells ≡ true → ShowsFrame N.job frame.now.index D.state frame.now.bytes self.new) }
        ensures stored { OnOk result (D.tells ≡ true → IsSurelyStored N.job frame.now.index D.state frame.now.bytes self.new) }
        ensures disk { LeavesDisk (IsErr result) (D.state self.old.reel.disk) (D.state self.new.reel.disk) }
    {
        let index = frame.frame().index();
        match self.reel.finish(frame) {
            Ok(()) => {
                self.board.finished(worker, index);
                Ok(())
            }
            Err(DiskFault) => {
                self.board.stop(worker, Why::Disk);
                self.totals.disk.add(&mut marks.disk, 1);
                Err(DiskFault)
            }
        }
    }

    /// The worker does no more, for another reason than the disk. A frame that it holds stays claimed.
    pub fn stop(&mut self, worker: u16, why: Why, marks: &mut Marks<C>)
        requires worker { worker < self.old.log.workers }
        requires running { turn_of self.old.log worker ≢ turns.Stopped }
        requires why { MayStop N.job N.files why }
        ensures step { self.new ≡ after_stopped self.old worker why }
        ensures marks { marks.new ≡ raised_by why marks.old }
    {
        self.board.stop(worker, why);
        match why {
            Why::Source => self.totals.source.add(&mut marks.source, 1),
            Why::Disk => self.totals.disk.add(&mut marks.disk, 1),
            Why::Memory => self.totals.memory.add(&mut marks.memory, 1),
            Why::Changed { .. } => self.totals.changed.add(&mut marks.changed, 1),
        }
    }

    /// What the worker is at.
    pub fn turn(&self, worker: u16) -> Turn
        requires { worker < self.now.log.workers }
        ensures { result ≡ turn_of self.now.log worker }
    {
        self.board.turn(worker)
    }

    /// How many workers there are, from 1 to 16, which no call changes; and what holds whenever the lock is free.
    pub fn workers(&self) -> u16
        ensures workers { result ≡ self.now.log.workers }
        ensures some { 1 ≤ result }
        ensures most { result ≤ WORKERS }
        ensures named { self.now.log.workers ≡ C.workers }
        ensures range { (self.now.log.low ≡ C.low) × (self.now.log.high ≡ C.high) }
        ensures ordered { (self.now.log.low ≤ self.now.log.high) × (self.now.log.high ≤ length self.now.log.start) }
        ensures lent { (D.state self.now.reel.disk).loans ≡ N.loans }
        ensures kept { IsStation N.job N.files N.start D.tells D.state self.now }
    {
        self.board.workers()
    }

    /// Recalls what every station keeps whenever the lock is free. Nothing runs: it is called for what its clauses say.
    pub fn recall(&self)
        ensures some { 1 ≤ self.now.log.workers }
        ensures most { self.now.log.workers ≤ WORKERS }
        ensures named { self.now.log.workers ≡ C.workers }
        ensures range { (self.now.log.low ≡ C.low) × (self.now.log.high ≡ C.high) }
        ensures ordered { (self.now.log.low ≤ self.now.log.high) × (self.now.log.high ≤ length self.now.log.start) }
        ensures lent { (D.state self.now.reel.disk).loans ≡ N.loans }
        ensures kept { IsStation N.job N.files N.start D.tells D.state self.now }
    {
        self.workers();
    }

    /// Whether a fault of the disk has closed the reel.
    pub fn is_closed(&self) -> bool
        ensures { result ≡ self.now.reel.ledger.closed }
    {
        self.reel.is_closed()
    }

    /// Shows that the amounts of marks that have every part are the numbers of stops, and what the claimed frames need.
    pub fn settle(&mut self, marks: &mut Marks<C>)
        requires source { marks.old.source.parts ≡ C.SourceStops.parts }
        requires disk { marks.old.disk.parts ≡ C.DiskStops.parts }
        requires memory { marks.old.memory.parts ≡ C.MemoryStops.parts }
        requires changed { marks.old.changed.parts ≡ C.ChangeStops.parts }
        requires claims { marks.old.claims.parts ≡ C.Claims.parts }
        ensures same { self.new ≡ self.old }
        ensures marks { marks.new ≡ marks.old }
        ensures settled { IsSettled self.old.log.steps marks.old }
        ensures needed { marks.old.claims.amount ≡ needed_by N.job self.old.log.steps }
    {
        self.totals.source.audit(&mut marks.source);
        self.totals.disk.audit(&mut marks.disk);
        self.totals.memory.audit(&mut marks.memory);
        self.totals.changed.audit(&mut marks.changed);
        self.claims.audit(&mut marks.claims);
    }

    /// Gives up the station.
    pub fn into_parts(self) -> (Reel<D, N>, Board)
        ensures reel { result.0 ≡ self.reel }
        ensures log { result.1 ≡ self.log }
        ensures named { self.log.workers ≡ C.workers }
        ensures range { (self.log.low ≡ C.low) × (self.log.high ≡ C.high) }
        ensures lent { (D.state self.reel.disk).loans ≡ N.loans }
        ensures kept { IsStation N.job N.files N.start D.tells D.state self }

        // Over every disk no file was written since the start but the ledger's and those of frames of the range.
        ensures own { OnlyWrites (IsRunFile N.job C.low C.high) N.calls (D.state self.reel.disk).calls }
    {
        let Station {
            reel,
            board,
            totals: _,
            claims: _,
            of: _,
            crew: _,
        } = self;
        (reel, board)
    }
}

/// How many source frames a record frame needs.
fn count_needs(job: &Job, i: u32) -> u64
    requires within { i < frames_of job.now }
    ensures { result ≡ needs_of job.now i }
{
    let need = job.need(i);
    u64::from(need.old.is_some()) + u64::from(need.new.is_some())
}
