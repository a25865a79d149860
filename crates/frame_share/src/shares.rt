//! Who shares source frames, as one worker asks: a share that one thread has, or one that stands behind a lock.
ghost use Rattle.std.specs.Prelude.{◌≡◌, ◌≢◌, Option, Some};
ghost use Rattle.std.specs.Arc.{arc_value};
ghost use Rattle.frame_share.specs.Answers.{AsTold, HasKey, IsAsked, IsAskedBy, IsPut, IsPutBy};
ghost use Rattle.frame_share.specs.Share.{ShareView};

use crate::share::{Ask, Placed, Share};
use crate::ticket::Ticket;
use crate::units::Units;
use cf_base::Key;
use conform_job::Work;
use frame_render::{Decoded, Spare};
use std::sync::Arc;
use std::sync::ledger::Ledger;

/// Shared frames of N's job, as one worker asks for them. Between `begin` and `end` it is the worker's turn at a source frame.
pub trait Shares<N: Work, L: Ledger> {
    /// The log, where it is told.
    ghost log: { Self → Option ShareView };

    /// Waits for the turn at a source frame.
    fn begin(&mut self, key: Key)
        ensures { log self.new ≡ log self.old };

    /// Ends the turn.
    fn end(&mut self)
        ensures { log self.new ≡ log self.old };

    /// Asks for the frame of a key, as `Share::ask` does.
    fn ask(&mut self, key: Key, units: &mut Units<L>) -> Ask<N>
        requires closed { units.old.pending ≡ 0 }
        ensures key { HasKey key result }
        ensures answer { AsTold (λ before after. IsAsked before key result after) (log self.old) (log self.new) }
        ensures units { IsAskedBy units.old result units.new };

    /// Puts the frame of a ticket, as `Share::put` does.
    fn put(
        &mut self,
        ticket: &Ticket<N>,
        frame: &Arc<Decoded<N>>,
        units: &mut Units<L>,
        spare: &mut Spare<N>,
    ) -> Placed
        requires key { (arc_value frame.now).key ≡ ticket.now }
        requires opened { units.old.pending ≢ 0 }
        ensures answer { AsTold (λ before after. IsPut before ticket.now result after) (log self.old) (log self.new) }
        ensures units { IsPutBy units.old result units.new };
}

/// A share of one thread tells its log, and has no turns.
impl<N: Work, L: Ledger> Shares<N, L> for Share<N, L> {
    ghost log = { λ share. Some share };

    fn begin(&mut self, _key: Key) {}

    fn end(&mut self) {}

    fn ask(&mut self, key: Key, units: &mut Units<L>) -> Ask<N> {
        Share::ask(self, key, units)
    }

    fn put(
        &mut self,
        ticket: &Ticket<N>,
        frame: &Arc<Decoded<N>>,
        units: &mut Units<L>,
        spare: &mut Spare<N>,
    ) -> Placed
        requires key { (arc_value frame.now).key ≡ ticket.now }
        requires opened { units.old.pending ≢ 0 }
        ensures answer { AsTold (λ before after. IsPut before ticket.now result after) (Some self.old) (Some self.new) }
        ensures units { IsPutBy units.old result units.new }
    {
        Share::put(self, ticket, frame, units, spare)
    }
}
