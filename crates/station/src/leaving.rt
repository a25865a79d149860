//! What a worker has that took a frame, and why one leaves.
ghost use Rattle.std.specs.Prelude.{◌≡◌};

use std::marker::Model;

/// A frame that a worker took from a station. It can't be let go: who has it hands it in or gives it up. Contracts see its number.
pub struct Held {
    pub(crate) frame: u32,
}

impl Model for Held {
    ghost use Rattle.std.specs.Prelude.{ℕ};

    ghost Value = { ℕ };

    ghost view = { λ h. h.frame };
}

impl Held {
    /// Which frame it is.
    pub fn frame(&self) -> u32
        ensures { result ≡ self.now }
    {
        self.frame
    }
}

/// Why a station has no step for a worker.
#[derive(Clone, Copy, Debug, PartialEq, Eq)]
pub enum Reason {
    /// Its number isn't below the number of workers.
    Unknown,
    /// A fault of the disk has closed the reel.
    Closed,
    /// Its turn isn't the one that it left.
    Moved,
    /// No frame is left.
    NoneLeft,
    /// A worker has stopped.
    Stopped,
}

/// That a station had no step for a worker. A station alone makes it, so whoever has one was turned away. Contracts see why.
#[derive(Drop)]
pub struct Away {
    reason: Reason,
}

impl Model for Away {
    ghost use Rattle.station.specs.declared.leaving.Reason.{Reason};

    ghost Value = { Reason };

    ghost view = { λ a. a.reason };
}

impl Away {
    /// For this reason.
    pub(crate) fn of(reason: Reason) -> Away
        ensures { result ≡ reason }
    {
        Away { reason }
    }

    /// Why it is so.
    pub fn reason(&self) -> Reason
        ensures { result ≡ self.now }
    {
        self.reason
    }
}

/// Why a worker leaves.
#[derive(Drop)]
pub enum Leave {
    /// It has stopped, and its marks count the stop.
    Stopped,
    /// The station turned it away.
    Away(Away),
}
