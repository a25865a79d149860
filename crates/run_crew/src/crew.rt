//! A crew: a worker for each of several scans over one reel, and what is known once all have returned.
ghost use Rattle.std.specs.Prelude.{◌≡◌, ◌≤◌, All, [], true, length, vec_len, vec_capacity, min, IfErr, IfOk, IfSome, Some, None};
ghost use Rattle.conform_job.specs.Answers.{AreInfosOf};
ghost use Rattle.conform_job.specs.Names.{Tells};
ghost use Rattle.reel_disk.specs.Call.{OnlyWrites};
ghost use Rattle.reel_disk.specs.Disk.{moment_of};
ghost use Rattle.reel_disk.specs.State.{LeavesDisk, OnDisk};
ghost use Rattle.render_board.specs.History.{first_why};
ghost use Rattle.reel_writer.specs.Reel.{frames_of, IsRunFile};
ghost use Rattle.frame_share.specs.Share.{IsBlankOf as IsCounterOf};
ghost use Rattle.frame_share.specs.Units.{whole};
ghost use Rattle.run_crew.specs.Crews.{HasDiskFailed, HasScansBack, IsFirstUse, IsReported, WasRunByCrew, end_by, log_of};
ghost use Rattle.run_crew.specs.inside.Blanks.{AreBlanks};
ghost use Rattle.run_crew.specs.inside.Crews.{HasRunCrew, IsClosedStation};
ghost use Rattle.crew_rest.specs.Left.{HasFinished};
ghost use Rattle.run_alone.specs.Run.{AreAllAcked};
ghost use Rattle.run_alone.specs.Safe.{IsSafeRun};
ghost use Rattle.run_alone.specs.Task.{IsTask};
ghost use Rattle.station.specs.Needed.{needed_by};
ghost use Rattle.station.specs.StationSteps.{IsBeginning};

use crate::work::work_all;
use cf_base::WORKERS;
use conform_job::{Job, Work};
use crew_seat::{Seat, seat_all, threads_each, unseat};
use frame_fetch::RunEnd;
use frame_share::{Share, ShareLog, Units};
use reel_disk::{Disk, Start};
use reel_writer::Reel;
use render_board::{Board, History, Step, Why};
use run_alone::{Report, Task, end_of_opening, report_of};
use scan_source::Scans;
use station::{Crewed, Named, Station, Workers};
use std::alloc::Global;
use std::marker::Brand;
use std::sync::Wait;
use std::sync::ledger::{Blank, Ledger};
use std::thread::Threads;

/// What a crew hands back: every scan in its place, and the disk.
pub struct Crew<S, D> {
    /// How the run ended.
    pub end: RunEnd,
    /// What it did.
    pub report: Report,
    /// The steps of its workers: none where the folder wasn't opened, or no memory was left to begin with.
    pub history: Option<History>,
    /// The log of the source frames that were shared.
    pub log: ShareLog,
    /// The scans that were handed over, in their order.
    pub scans: Vec<S>,
    /// The disk that was handed over.
    pub disk: D,
}

/// The end that a history tells.
fn end_of(history: &[Step]) -> RunEnd
    ensures { result ≡ end_by (first_why history.now) }
{
    for step in history {
        if let Step::Stop { worker: _, why } = *step {
            return end_of_why(why);
        }
    }
    RunEnd::Done
}

/// The end of a run whose first stop has this why.
fn end_of_why(why: Why) -> RunEnd
    ensures { result ≡ end_by (Some why) }
{
    match why {
        Why::Source => RunEnd::SourceFault,
        Why::Disk => RunEnd::DiskFault,
        Why::Memory => RunEnd::NoMemory,
        Why::Changed { key, was, now } => RunEnd::Changed { key, was, now },
    }
}

/// A crew without a step.
fn unmade<S, D>(alloc: Global, job: &Job, end: RunEnd, scans: Vec<S>, disk: D) -> Crew<S, D>
    ensures end { result.end ≡ end }
    ensures frames { result.report.frames ≡ frames_of job.now }
    ensures kept { (result.report.kept ≡ 0) × (result.report.rendered ≡ 0) }
    ensures loads { (result.report.loads ≡ 0) × (result.report.misses ≡ 0) }
    ensures history { result.history ≡ None }
    ensures log { result.log ≡ [] }
    ensures scans { result.scans ≡ scans }
    ensures disk { result.disk ≡ disk }
{
    Crew {
        end,
        report: Report {
            frames: job.count(),
            kept: 0,
            rendered: 0,
            loads: 0,
            misses: 0,
        },
        history: None,
        log: ShareLog::empty(alloc),
        scans,
        disk,
    }
}

/// The board of a reel that was opened: the frames that it acknowledges are done, and those of the task's range are to be claimed.
fn board_of<D: Disk, N: Work>(
    alloc: Global,
    task: &Task,
    reel: &Reel<D, N>,
    workers: u16,
) -> Option<Board>
    requires task { IsTask N.job N.share task.now }
    requires size { length reel.now.ledger.gates ≡ frames_of N.job }
    requires workers { (1 ≤ workers) × (workers ≤ WORKERS) }
    ensures board { IfSome result (λ board. board
        ≡ log_of reel.now.ledger.gates task.now.range.low task.now.range.high workers []) }
{
    let count = task.job.timeline().count();
    let mut done = match Vec::with_capacity(alloc, count as usize) {
        Ok(done) => done,
        Err(_) => return None,
    };
    for i in 0..count {
        done.push_reserved(reel.is_acked(i));
    }
    match Board::new(alloc, &done, task.range.low, task.range.high, workers) {
        Ok(board) => Some(board),
        Err(_) => None,
    }
}

/// How many parts a total has: one for each worker, and one that stays.
const PARTS: u64 = WORKERS as u64 + 1;

/// The totals that a crew counts, still without a count: of its stops by their cause, of its misses, and of the source frames that
/// claimed frames need.
#[derive(Drop)]
struct Blanks {
    source: Blank,
    disk: Blank,
    memory: Blank,
    changed: Blank,
    misses: Blank,
    claims: Blank,
}

/// What a crew needs beside its reel.
struct Ready<S: Scans, N: Work, C: Crewed> {
    /// Who renders which frame.
    board: Board,
    /// The source frames that are shared.
    share: Share<N, C::Misses>,
    /// All units of the share.
    units: Units<C::Misses>,
    /// Room for the seats.
    room: Vec<Seat<S, N, C>>,
    /// Room for the scans that are handed back.
    back: Vec<S>,
}

/// Makes what a crew of so many workers needs beside its reel, with room for so many scans. None where memory ran out.
fn make_ready<S: Scans, D: Disk, N: Work, C: Crewed>(
    alloc: Global,
    task: &Task,
    reel: &Reel<D, N>,
    workers: u16,
    scans: usize,
    misses: Blank,
) -> Option<Ready<S, N, C>>
    requires task { IsTask N.job N.share task.now }
    requires size { length reel.now.ledger.gates ≡ frames_of N.job }
    requires workers { (1 ≤ workers) × (workers ≤ WORKERS) }
    requires misses { IsCounterOf C.Misses.name C.Misses.parts misses.name misses.parts }
    ensures board { IfSome result (λ made. made.board
        ≡ log_of reel.now.ledger.gates task.now.range.low task.now.range.high workers []) }
    ensures share { IfSome result (λ made. made.share.steps ≡ []) }
    ensures units { IfSome result (λ made. made.units ≡ whole C.Misses.parts) }
    ensures room { IfSome result (λ made. (made.room.items ≡ []) × (scans ≤ vec_capacity made.room)) }
    ensures back { IfSome result (λ made. (made.back.items ≡ []) × (scans ≤ vec_capacity made.back)) }
{
    let Ok(back) = Vec::with_capacity(alloc, scans) else {
        return None;
    };
    let Ok(room) = Vec::with_capacity(alloc, scans) else {
        return None;
    };
    let board = match board_of(alloc, task, reel, workers) {
        Some(board) => board,
        None => return None,
    };
    match Share::<N, C::Misses>::new(alloc, task.share, misses) {
        Ok((share, units)) => Some(Ready {
            board,
            share,
            units,
            room,
            back,
        }),
        Err(_) => None,
    }
}

/// What is known of a station that nobody shares any more.
fn closing<N: Work + Start, C: Crewed, S: Scans, D: Disk>(
    job: &Job,
    station: Station<D, N, C>,
    log: ShareLog,
    scans: Vec<S>,
    loads: u64,
) -> Crew<S, D>
    requires job { job.now ≡ N.job }
    requires finished { HasFinished N.job station.log × (loads ≤ needed_by N.job station.log.steps) }
    requires within { C.high ≤ frames_of N.job }
    ensures frames { result.report.frames ≡ frames_of N.job }
    ensures loads { (result.report.loads ≡ loads) × (result.report.misses ≡ loads) }
    ensures end { result.end ≡ end_by (first_why station.log.steps) }
    ensures steps { result.history ≡ Some station.log.steps }
    ensures handed { (result.log ≡ log) × (result.scans ≡ scans) }
    ensures made { IsClosedStation N.job C.low C.high N.files C.workers N.start D.tells D.state station.log.steps
        result.end result.report result.disk }
    ensures acked { result.end ≡ RunEnd.Done → D.tells ≡ true → AreAllAcked N.job C.low C.high (moment_of (D.state result.disk).history) }
    ensures lent { (D.state result.disk).loans ≡ N.loans }
    ensures own { OnlyWrites (IsRunFile N.job C.low C.high) N.calls (D.state result.disk).calls }
{
    let (reel, board) = station.into_parts();
    let end = end_of(board.history());
    let report = report_of(job, &reel, loads);
    Crew {
        end,
        report,
        history: Some(board.into_history()),
        log,
        scans,
        disk: reel.close(),
    }
}

/// The run of a crew over a reel that was opened. Where no memory is left to begin with, the scans and the reel are handed back
/// as they were.
fn run_opened<
    N: Work + Start + Send + Sync,
    W: Workers + Send + Sync,
    A: Ledger + Send + Sync,
    B: Ledger + Send + Sync,
    C: Ledger + Send + Sync,
    E: Ledger + Send + Sync,
    F: Ledger + Send + Sync,
    G: Ledger + Send + Sync,
    S: Scans + Send,
    D: Disk + Send,
    R: Threads + Wait + Sync,
>(
    rt: &R,
    alloc: Global,
    task: &Task,
    blanks: Blanks,
    scans: Vec<S>,
    workers: u16,
    reel: Reel<D, N>,
) -> Result<Crew<S, D>, (Vec<S>, Reel<D, N>)>
    requires blanks { AreBlanks blanks (A.name, A.parts) (B.name, B.parts) (C.name, C.parts) (E.name, E.parts) (F.name, F.parts)
        (G.name, G.parts) }
    requires task { IsTask N.job N.share task.now }
    requires files { All (λ s. Tells N.files (S.state s).world) scans.items }
    requires infos { AreInfosOf N.job.parts N.files N.job.infos }
    requires workers { (1 ≤ workers) × (workers ≤ vec_len scans) × (vec_len scans ≤ WORKERS) }
    requires named { (workers ≡ W.workers) × (task.now.range.low ≡ W.low) × (task.now.range.high ≡ W.high) }
    requires beginning { IsBeginning N.job N.files N.start D.tells D.state reel
        (log_of reel.ledger.gates task.now.range.low task.now.range.high workers []) }
    requires lent { (D.state reel.disk).loans ≡ N.loans }
    requires own { OnlyWrites (IsRunFile N.job W.low W.high) N.calls (D.state reel.disk).calls }
    ensures unmade { IfErr result (λ back. (back.0 ≡ scans) × (back.1 ≡ reel)) }
    ensures ran { IfOk result (HasRunCrew N.job W.low W.high N.files W.workers task.now.share N.start N.loans N.calls D.tells
        D.state) }
    ensures scans { IfOk result (HasScansBack S.state workers scans.items) }
{
    let Blanks {
        source,
        disk: failed,
        memory,
        changed,
        misses,
        claims,
    } = blanks;
    let ready = match make_ready::<S, D, N, Named<W, A, B, C, E, F, G>>(
        alloc,
        task,
        &reel,
        workers,
        scans.len(),
        misses,
    ) {
        Some(ready) => ready,
        None => return Err((scans, reel)),
    };
    let Ready {
        board,
        share,
        units,
        room,
        back,
    } = ready;
    let (station, mut marks) = Station::<D, N, Named<W, A, B, C, E, F, G>>::new(
        reel, board, source, failed, memory, changed, claims,
    );
    let mut units = units;
    let threads = usize::from(workers);
    let each = threads_each(rt, threads);
    let mut seats = seat_all(alloc, room, scans, each, &mut marks, &mut units);
    let (mut station, mut share) = work_all(rt, task.job, &mut seats, threads, station, share);
    let (scans, loads) = unseat(seats, back, &mut marks, &mut units);
    station.settle(&mut marks);
    share.settle(&mut units);
    Ok(closing(task.job, station, share.into_log(), scans, loads))
}

/// Runs the frames of a task's range with several workers over a disk that was never used, and hands back every scan and the disk.
/// All other frames stay as they are.
///
/// The first `workers` scans have a worker each, or all scans where there are fewer. The folder is opened as `Reel::begin`
/// opens it. A source frame that is shared isn't loaded again. It may wait for the locks that its workers share.
pub fn run_crew<
    N: Work + Start + Send + Sync,
    S: Scans + Send,
    D: Disk + Send,
    R: Threads + Wait + Sync,
>(rt: &R, alloc: Global, task: &Task, scans: Vec<S>, workers: u16, disk: D) -> Crew<S, D>
    requires task { IsTask N.job N.share task.now }
    requires files { All (λ s. Tells N.files (S.state s).world) scans.items }
    requires infos { AreInfosOf N.job.parts N.files N.job.infos }
    requires scans { (1 ≤ vec_len scans) × (vec_len scans ≤ WORKERS) }
    requires workers { (1 ≤ workers) × (workers ≤ WORKERS) }
    requires disk { IsFirstUse N.start N.loans N.calls D.tells (D.state disk) }

    // Which frames the opening kept, what the folder acknowledges now, and the steps by which it came; or why there are none.
    // There are as many workers as were asked for, at most one a scan.
    ensures ran { WasRunByCrew N.job task.now.range.low task.now.range.high N.files (min workers (vec_len scans)) task.now.share
        D.tells (D.state disk).history (D.state result.disk).history result }
    ensures reported { IsReported N.job result.end result.report }

    // What every run keeps at each moment, and which files it writes: that of a run on one thread.
    ensures keeps { OnDisk D.tells (D.state disk) (D.state result.disk) (IsSafeRun N.job task.now.range N.files result.end) }

    // Each scan is handed back in its place. A stop has its cause: a load failed, a loaded file has changed, the disk failed.
    ensures scans { HasScansBack S.state (min workers (vec_len scans)) scans.items result }
    ensures failed { result.end ≡ RunEnd.DiskFault → HasDiskFailed result.history result.end }
    ensures disk { LeavesDisk (HasDiskFailed result.history result.end) (D.state disk) (D.state result.disk) }
{
    let reel = match Reel::<D, N>::begin(alloc, disk, task.job) {
        Ok(reel) => reel,
        Err((fault, disk)) => return unmade(alloc, task.job, end_of_opening(fault), scans, disk),
    };
    let workers = workers.min(scans.len() as u16);
    let blanks = Blanks {
        source: Blank::new(PARTS),
        disk: Blank::new(PARTS),
        memory: Blank::new(PARTS),
        changed: Blank::new(PARTS),
        misses: Blank::new(PARTS),
        claims: Blank::new(PARTS),
    };
    match run_opened::<N, Brand, Brand, Brand, Brand, Brand, Brand, Brand, S, D, R>(
        rt, alloc, task, blanks, scans, workers, reel,
    ) {
        Ok(crew) => crew,
        Err((scans, reel)) => unmade(alloc, task.job, RunEnd::NoMemory, scans, reel.close()),
    }
}
