//! The board: a cursor behind which no frame is free, one turn for each worker, and the history.
ghost use Rattle.std.specs.Prelude.{◌≡◌, ◌≢◌, ◌<◌, ◌≤◌, length, [], IfOk, IfSome, true, false};
ghost use Rattle.render_board.specs.declared.board.Turn.TheVariants as turns;
ghost use Rattle.render_board.specs.Board.{IsLegal, turn_of, claim_of, least_free, after_claim, with_step};
ghost use Rattle.render_board.specs.inside.Inside.{IsLeastFree};

use crate::step::{History, Step, Why};
use cf_base::{FRAMES, Fail, Never, WORKERS};
use std::alloc::Global;
use std::marker::Model;

/// What a claim answers.
#[derive(Clone, Copy, Debug, PartialEq, Eq)]
pub enum Claim {
    /// The frame that the worker holds from now on.
    Take(u32),
    /// No frame of the range is free.
    NoneLeft,
    /// A worker has stopped, so no more frames are claimed.
    Stopped,
}

/// What a worker is at.
#[derive(Clone, Copy, Debug, PartialEq, Eq)]
pub enum Turn {
    /// It holds no frame.
    Idle,
    /// It holds this frame.
    Holds(u32),
    /// It has stopped.
    Stopped,
}

/// The board of a run: which frames are free, claimed and done, and the history of its steps. Its
/// workers go from 0, and so do its frames. Of these it has a range to be claimed: the others stay as
/// they are.
///
/// Contracts see the frames that were done at the start, the range, the number of workers, and all
/// steps in order.
#[derive(Drop)]
pub struct Board {
    start: Vec<bool>,
    low: usize,
    high: usize,
    /// One of the range, or its end. No frame of the range before it is free, and none from it on is
    /// claimed.
    cursor: usize,
    workers: u16,
    turns: [Turn; WORKERS],
    has_stopped: bool,
    history: Vec<Step>,
}

impl Model for Board {
    ghost use Rattle.render_board.specs.Board.{Log};

    ghost Value = { Log };

    ghost view = { λ b. record { start = b.start.items; low = b.low; high = b.high; workers = b.workers; steps = b.history.items } };

    ghost use Rattle.render_board.specs.inside.Inside.{IsBoard};

    ghost invariant = { IsBoard };
}

impl Board {
    /// A board of 1 to 16 workers and 1 to 262,144 frames, of which these are done and the others
    /// free. Those from `low` up to `high`, which is left out, are to be claimed, which may be none. It
    /// has room for every history. `NoMemory` is the one failure, where memory runs out.
    pub fn new(
        alloc: Global,
        done: &[bool],
        low: u32,
        high: u32,
        workers: u16,
    ) -> Result<Board, Fail<Never>>
        requires some_workers { 1 ≤ workers }
        requires most_workers { workers ≤ WORKERS }
        requires some_frames { 1 ≤ length done.now }
        requires most_frames { length done.now ≤ FRAMES }
        requires range { (low ≤ high) × (high ≤ length done.now) }
        ensures { IfOk result (λ board. board ≡ record { start = done.now; low = low; high = high; workers = workers; steps = [] }) }
    {
        let start = Vec::from_slice(alloc, done).map_err(|_| Fail::NoMemory)?;
        let (low, high) = (low as usize, high as usize);
        let room = 2 * (high - low) + WORKERS;
        let history = Vec::with_capacity(alloc, room).map_err(|_| Fail::NoMemory)?;
        Ok(Board {
            start,
            low,
            high,
            cursor: low,
            workers,
            turns: [Turn::Idle; WORKERS],
            has_stopped: false,
            history,
        })
    }

    /// Takes the range's least free frame for an idle worker: `Stopped` exactly where a worker has
    /// stopped, else `NoneLeft` exactly where no frame of the range is free. Only a frame that is taken is a step. Takes
    /// no memory.
    pub fn claim(&mut self, worker: u16) -> Claim
        requires worker { worker < self.old.workers }
        requires idle { turn_of self.old worker ≡ turns.Idle }
        ensures answer { result ≡ claim_of self.old }
        ensures log { self.new ≡ after_claim self.old worker result }
    {
        if self.has_stopped {
            return Claim::Stopped;
        }
        let Some(frame) = self.next_free() else {
            return Claim::NoneLeft;
        };
        self.cursor = frame as usize + 1;
        self.turns[usize::from(worker)] = Turn::Holds(frame);
        self.history.push_reserved(Step::Claim { worker, frame });
        Claim::Take(frame)
    }

    /// The frame that the worker holds is done, and the worker is idle. Takes no memory.
    pub fn finished(&mut self, worker: u16, frame: u32)
        requires worker { worker < self.old.workers }
        requires holds { turn_of self.old worker ≡ turns.Holds frame }
        ensures { self.new ≡ with_step self.old (Step.Finish worker frame) }
    {
        self.turns[usize::from(worker)] = Turn::Idle;
        self.history.push_reserved(Step::Finish { worker, frame });
    }

    /// The worker does no more; a frame that it holds stays claimed. Takes no memory.
    pub fn stop(&mut self, worker: u16, why: Why)
        requires worker { worker < self.old.workers }
        requires running { turn_of self.old worker ≢ turns.Stopped }
        ensures { self.new ≡ with_step self.old (Step.Stop worker why) }
    {
        self.turns[usize::from(worker)] = Turn::Stopped;
        self.has_stopped = true;
        self.history.push_reserved(Step::Stop { worker, why });
    }

    /// What the worker is at. Takes no memory.
    pub fn turn(&self, worker: u16) -> Turn
        requires { worker < self.now.workers }
        ensures { result ≡ turn_of self.now worker }
    {
        self.turns[usize::from(worker)]
    }

    /// How many workers there are, from 1 to 16, which no call changes. Takes no memory.
    pub fn workers(&self) -> u16
        ensures workers { result ≡ self.now.workers }
        ensures some { 1 ≤ result }
        ensures most { result ≤ WORKERS }
        ensures some_frames { 1 ≤ length self.now.start }
        ensures most_frames { length self.now.start ≤ FRAMES }
        ensures range { (self.now.low ≤ self.now.high) × (self.now.high ≤ length self.now.start) }
        ensures legal { IsLegal self.now }
    {
        self.workers
    }

    /// All steps, in order. Takes no memory.
    pub fn history(&self) -> &[Step]
        ensures steps { result.now ≡ self.now.steps }
        ensures legal { IsLegal self.now }
    {
        &self.history
    }

    /// Gives up the board, and hands out its history. Takes no memory.
    pub fn into_history(self) -> History
        ensures steps { result ≡ self.steps }
        ensures legal { IsLegal self }
    {
        History::of(self.history)
    }

    /// The range's least frame that is free.
    fn next_free(&self) -> Option<u32>
        ensures least { result ≡ least_free self.now }
        ensures found { IfSome result (IsLeastFree self.now) }
    {
        for at in self.cursor..self.high {
            if !self.start[at] {
                return Some(at as u32);
            }
        }
        None
    }
}
