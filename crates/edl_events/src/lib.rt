//! Edit lists after CMX 3600: a text to its events, or to its first refusal.
//!
//! Source labels count in the mode in force at their line, that of the last `FCM:` line before it; all record labels in
//! the mode in force at the first event line. A motion line belongs to an event line of the last run of event lines with
//! one number: the first of its reel to the first, the second to the second. These rules are this project's own.
#![tactic(auto)]

ghost use Rattle.cf_base.specs.Fail.{Gives};
ghost use Rattle.edl_events.specs.Lists.{list_of};
ghost use Rattle.edl_events.specs.Made.{IsMade, AcceptsWellMade};

mod reading;
mod rounds;
mod steps;
mod table;

use cf_base::{EventList, EventRows, Fail, LIST_BYTES, Rate};
use cf_timecode::TcFault;
use edl_lines::LineFault;
use reading::{put_speeds, read_lines};
use rounds::{has_event, second_round};
use std::alloc::Global;

/// Why a text is no list, and at which of its lines, from 1. Line 0 is the text as a whole.
#[derive(Clone, Copy, Debug, PartialEq, Eq)]
pub struct ListRefusal {
    pub line: u32,
    pub kind: ListKind,
}

/// Why a text is no list. The numbers are this project's own.
///
/// 3.7 comes first. Then a first round goes through the lines and refuses the first faulty one: a picture line by 3.1 to
/// 3.6, its four labels, 4.2, 4.7, 4.5, 4.3 and 4.4 in this order; an `FCM:` line by 3.5, also where it names drop-frame
/// counting at another base than 30; a motion line by 3.4, its trigger label and 4.6. A second round refuses the first
/// picture line by 4.1. Last comes 4.8.
#[derive(Clone, Copy, Debug, PartialEq, Eq)]
pub enum ListKind {
    /// 3.1 to 3.6: a line that can't be read by itself.
    Line(LineFault),
    /// 3.7: over 4,194,304 bytes; line 0.
    TooLong,
    /// 2.1 to 2.4: a label of a line.
    Label(TcFault),
    /// 4.1: a source that isn't as long as its record, on a line without motion and of another reel than `BL`.
    Lengths,
    /// 4.2: a record out before the record in.
    Backwards,
    /// 4.3: a transition without a picture line before it that ends where this one begins.
    NoFrom,
    /// 4.4: a transition of no frame, or of more frames than the record has.
    Duration,
    /// 4.5: a wipe whose code has no shape here.
    UnknownWipe,
    /// 4.6: a motion line to which no event line belongs.
    StrayMotion,
    /// 4.7: the 10,001st picture line.
    TooMany,
    /// 4.8: no picture line of positive record length; line 0.
    NoEvents,
}

/// The events of a text's picture lines in order, with their speeds, or the text's first refusal. Every list that it gives
/// is well made for its rate. The time that it takes grows with the length of the text, whatever the text says.
pub fn read_list(alloc: Global, rate: Rate, text: &[u8]) -> Result<EventList, Fail<ListRefusal>>
    ensures answer { Gives result (list_of rate text.now) }
    ensures made { IsMade rate result }
{
    if LIST_BYTES < text.len() {
        return Err(Fail::Fault(ListRefusal {
            line: 0,
            kind: ListKind::TooLong,
        }));
    }
    let reading = read_lines(alloc, rate, text)?;
    let events = match put_speeds(alloc, &reading.events, &reading.speeds) {
        Ok(events) => events,
        Err(_) => return Err(Fail::NoMemory),
    };
    if let Some(first) = second_round(&events) {
        return Err(Fail::Fault(first));
    }
    if !has_event(&events) {
        return Err(Fail::Fault(ListRefusal {
            line: 0,
            kind: ListKind::NoEvents,
        }));
    }
    let mode = reading.state.record_mode.unwrap_or(reading.state.mode);
    Ok(EventList {
        mode,
        events: EventRows::of(events),
    })
}

/// What holds of the definition: each list that it accepts is well made for its rate.
pub fn list_law()
    ensures made { AcceptsWellMade }
{}
