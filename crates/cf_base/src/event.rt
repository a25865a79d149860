//! The events of an edit decision list (CMX 3600).
ghost use Rattle.std.specs.Prelude.{◌≡◌};

use crate::{Items, Mode, Name};

/// How an event comes in. A duration `d` is in record frames.
#[derive(Clone, Copy, Debug, PartialEq, Eq)]
pub enum Transition {
    /// The incoming side alone, from the first frame on.
    Cut,
    /// A mix of the outgoing and the incoming side, for `d` frames.
    Dissolve { d: u32 },
    /// The incoming side behind a moving edge, for `d` frames; `code` is the three digits of the wipe.
    Wipe { code: u16, d: u32 },
}

/// A picture line of an edit list. Source and record points are frame numbers of their days; out points are exclusive.
#[derive(Clone, Copy)]
pub struct EventRec {
    /// The number of its line in the text, from 1.
    pub line: u32,
    /// The event number.
    pub number: u32,
    /// The reel of its source.
    pub reel: Name,
    /// The mode in which its source labels are counted.
    pub src_mode: Mode,
    pub src_in: u32,
    pub src_out: u32,
    pub rec_in: u32,
    pub rec_out: u32,
    /// Hundredths of a frame per second, where a motion line belongs to the event.
    pub speed: Option<i32>,
    pub transition: Transition,
}

impl EventRec {
    ghost use Rattle.cf_base.specs.Events.{is_black_reel};

    /// Whether the event is black: exactly where its reel is `BL`.
    pub fn is_black(&self) -> bool
        ensures { result ≡ is_black_reel self.now.reel }
    {
        self.reel.bytes() == b"BL".as_slice()
    }
}

/// The events of a list, in its order.
pub type EventRows = Items<EventRec>;

/// An edit list: the mode of its record labels, and its picture lines in list order.
#[derive(Drop)]
pub struct EventList {
    pub mode: Mode,
    pub events: EventRows,
}
