//! The record timeline: what each record frame of an edit list shows. The rules of overlap, length, black and motion are
//! this project's own; record and source numbers are as the events of a CMX 3600 list have them.
#![tactic(auto)]

mod shots;
mod spans;

ghost use Rattle.record_timeline.specs.Laws.{SharingIsMeeting, FindsMeetings, NamesFirstMeeting, OneCovers, FindsCover};
ghost use Rattle.record_timeline.specs.Laws.{MadeCovers, HoldsCovered, EndsWithin, BeginsCovered, EndsCovered, ReelIsLeast};
ghost use Rattle.record_timeline.specs.Laws.{ShowsCover, ShowsGap};

use cf_base::{EventList, EventRec, FRAMES, Fail, FrameNo, Mode, Rate, Transition};
use shots::{event_before, shot_within};
use spans::{RecordSpan, covering, end_frame, first_frame, first_overlap, sorted_spans};
use std::alloc::Global;
use std::marker::Model;

/// One side of a shot.
#[derive(Clone, Copy, PartialEq, Eq)]
pub enum Side {
    /// The line's reel is `BL`.
    Black,
    /// A source frame of the line at the place `event` of the list, from 0. It may be negative or past the day.
    Frame { event: u32, source: i64 },
}

/// What a record frame shows.
#[derive(Clone, Copy, PartialEq, Eq)]
pub enum Shot {
    /// No line covers the frame.
    Gap,
    /// A line outside of a transition.
    One {
        side: Side,
    },
    /// Frame `k`, from 0, of a transition of `d` frames from the old side to the new one.
    Two {
        old: Side,
        new: Side,
        transition: Transition,
        k: u32,
        d: u32,
    },
}

/// Why a list has no timeline.
#[derive(Clone, Copy, Debug, PartialEq, Eq)]
pub enum TimelineFault {
    /// 7.1: `line` is the first, in list order, that shares a record frame with an earlier one; `with` is the earliest such one.
    Overlap { line: u32, with: u32 },
    /// 7.2: the reel has over 262,144 frames.
    TooLongReel,
}

/// An edit list by its record frames. Contracts see its rate, mode and events.
#[derive(Drop)]
pub struct Timeline {
    rate: Rate,
    list: EventList,
    /// The events that have record frames, by record in.
    spans: Vec<RecordSpan>,
    first: u32,
    count: u32,
}

impl Model for Timeline {
    ghost use Rattle.record_timeline.specs.Accepted.{RecordReel};
    ghost use Rattle.record_timeline.specs.inside.Spans.{IsTimeline};

    ghost Value = { RecordReel };

    ghost view = { λ t. record { rate = t.rate; mode = t.list.mode; events = t.list.events } };

    ghost invariant = { λ t. IsTimeline t.rate t.list.mode t.list.events t.spans.items t.first t.count };
}

impl Timeline {
    ghost use Rattle.std.specs.Prelude.{◌≡◌, ◌≤◌, ◌<◌, ◌+◌, IfOk};
    ghost use Rattle.cf_base.specs.Fail.{Gives};
    ghost use Rattle.cf_base.specs.Events.{IsWellMade};
    ghost use Rattle.cf_base.specs.Timing.{CanCount, frames_in_day};
    ghost use Rattle.record_timeline.specs.Accepted.{IsAccepted, timeline_of, first_frame, frame_count};
    ghost use Rattle.record_timeline.specs.Parts.{IsOfList};
    ghost use Rattle.record_timeline.specs.Shots.{shot_of, IsShotIn};

    /// The timeline of a list. 7.1 comes before 7.2, and both exactly where their rule says.
    pub fn build(
        alloc: Global,
        rate: Rate,
        list: EventList,
    ) -> Result<Timeline, Fail<TimelineFault>>
        requires { IsWellMade rate list.mode list.events }
        ensures timeline { Gives result (timeline_of rate list) }
        ensures parts { IfOk result (IsOfList rate list) }
    {
        let events = list.events.items();
        let Ok(spans) = sorted_spans(alloc, events) else {
            return Err(Fail::NoMemory);
        };
        if let Some(overlap) = first_overlap(events, &spans) {
            return Err(Fail::Fault(overlap));
        }
        let first = first_frame(events);
        let count = end_frame(events).saturating_sub(first);
        if FRAMES < count {
            return Err(Fail::Fault(TimelineFault::TooLongReel));
        }
        Ok(Timeline {
            rate,
            list,
            spans,
            first,
            count,
        })
    }

    /// The reel's first record frame: the least record in of a line that has record frames. Takes no memory.
    pub fn first(&self) -> FrameNo
        ensures first { result.0 ≡ first_frame self.now.events }
        ensures day { result.0 + frame_count self.now.events < frames_in_day self.now.rate self.now.mode }
    {
        FrameNo(self.first)
    }

    /// How many record frames the reel has, up to the greatest record out. Takes no memory.
    pub fn count(&self) -> u32
        ensures count { result ≡ frame_count self.now.events }
        ensures some { 1 ≤ result }
        ensures most { result ≤ FRAMES }
    {
        self.count
    }

    /// The events in list order. Takes no memory.
    pub fn events(&self) -> &[EventRec]
        ensures events { result.now ≡ self.now.events }
        ensures accepted { IsAccepted self.now.rate self.now.mode self.now.events }
    {
        self.list.events.items()
    }

    /// How the record labels are counted. Takes no memory.
    pub fn mode(&self) -> Mode
        ensures mode { result ≡ self.now.mode }
        ensures countable { CanCount self.now.rate result }
    {
        self.list.mode
    }

    /// What a record frame of the reel shows. Takes no memory.
    pub fn shot_at(&self, n: FrameNo) -> Shot
        requires from { first_frame self.now.events ≤ n.0 }
        requires below { n.0 < first_frame self.now.events + frame_count self.now.events }
        ensures shot { result ≡ shot_of self.now.rate self.now.events n.0 }
        ensures fits { IsShotIn self.now.events result }
    {
        let events = self.list.events.items();
        let Some(place) = covering(events, &self.spans, n.0) else {
            return Shot::Gap;
        };
        let old = event_before(events, place);
        shot_within(self.rate, place as u32, &events[place], old, n.0)
    }
}

/// What the definitions come to. Lines share a frame where both cover one; no line is refused exactly where no two lines do,
/// and else the first line that does, with the earliest one that it meets. The covering line of a frame covers it, and where no
/// line is refused there is one at most.
///
/// The reel has each frame that a line covers, and no line ends behind it. Its first frame is covered. So is its last one,
/// unless a line without record frames ends the reel; where it is, no smaller range has each frame that is covered. A frame
/// shows the line that covers it, and a gap exactly where none does.
pub fn timeline_laws()
    ensures sharing { SharingIsMeeting }
    ensures none { FindsMeetings }
    ensures first { NamesFirstMeeting }
    ensures cover { FindsCover }
    ensures one { OneCovers }
    ensures some { MadeCovers }
    ensures holds { HoldsCovered }
    ensures within { EndsWithin }
    ensures begins { BeginsCovered }
    ensures ends { EndsCovered }
    ensures least { ReelIsLeast }
    ensures shows { ShowsCover × ShowsGap }
{}
