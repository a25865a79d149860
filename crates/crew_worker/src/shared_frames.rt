//! The source frames that the workers of a crew share: an ask and a put are each one step under the share's lock.
ghost use Rattle.std.specs.Prelude.{◌≡◌, ◌≢◌, None};
ghost use Rattle.std.specs.Arc.{arc_value};
ghost use Rattle.frame_share.specs.Answers.{AsTold, IsPut, IsPutBy};

use crate::turns::Turns;
use cf_base::Key;
use conform_job::Work;
use frame_render::{Decoded, Spare};
use frame_share::{Ask, Placed, Share, Shares, Ticket, Units};
use std::sync::ledger::Ledger;
use std::sync::{Arc, Mutex, Wait};

/// A share behind its lock, and turns at the source frames that it holds: a source frame that is shared as long as a worker wants
/// it is loaded once.
pub struct SharedFrames<N: Work, F: Ledger> {
    share: Mutex<Share<N, F>>,
    turns: Turns,
}

impl<N: Work, F: Ledger> SharedFrames<N, F> {
    /// The frames of this share. Takes no memory.
    pub fn new(share: Share<N, F>) -> SharedFrames<N, F> {
        SharedFrames {
            share: Mutex::new(share),
            turns: Turns::new(),
        }
    }

    /// The share, which nobody else has any more. Takes no memory.
    pub fn into_share(self) -> Share<N, F> {
        let SharedFrames { share, turns: _ } = self;
        share.into_inner()
    }
}

/// Shared frames, as one worker asks for them. What others ask isn't known, so no log is told.
#[derive(Drop)]
pub(crate) struct Asker<'r, 'f, N: Work, F: Ledger, R: Wait> {
    /// Waiting for a lock.
    pub(crate) rt: &'r R,
    /// The frames.
    pub(crate) frames: &'f SharedFrames<N, F>,
    /// Which worker it is, from 0.
    pub(crate) worker: u16,
}

impl<N: Work, F: Ledger, R: Wait> Shares<N, F> for Asker<'_, '_, N, F, R> {
    ghost log = { λ _. None };

    /// Waits until no other worker asks for this source frame or loads it; then it is this worker's turn.
    fn begin(&mut self, key: Key) {
        self.frames.turns.begin(self.rt, self.worker, key);
    }

    fn end(&mut self) {
        self.frames.turns.end(self.rt, self.worker);
    }

    fn ask(&mut self, key: Key, units: &mut Units<F>) -> Ask<N> {
        self.frames.share.lock(self.rt).ask(key, units)
    }

    fn put(
        &mut self,
        ticket: &Ticket<N>,
        frame: &Arc<Decoded<N>>,
        units: &mut Units<F>,
        spare: &mut Spare<N>,
    ) -> Placed
        requires key { (arc_value frame.now).key ≡ ticket.now }
        requires opened { units.old.pending ≢ 0 }
        ensures answer { AsTold (λ before after. IsPut before ticket.now result after) None None }
        ensures units { IsPutBy units.old result units.new }
    {
        self.frames
            .share
            .lock(self.rt)
            .put(ticket, frame, units, spare)
    }
}
