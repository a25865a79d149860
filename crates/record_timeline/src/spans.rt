//! The record spans of a list's events: whether two of them meet, where they begin and end, and which one covers a frame.
ghost use Rattle.std.specs.Prelude.{◌≡◌, ◌≤◌, ◌<◌, IfOk, IsTrue, IfSome, None, min, unwrap_or, length};
ghost use Rattle.std.specs.Option.{option_map};
ghost use Rattle.std.specs.List.{find};
ghost use Rattle.cf_base.specs.declared.event.EventRec.{EventRec};
ghost use Rattle.record_timeline.specs.declared.TimelineFault.TheVariants.{Overlap};
ghost use Rattle.record_timeline.specs.Accepted.{share, first_overlap, first_frame, end_frame};
ghost use Rattle.record_timeline.specs.Shots.{covering};
ghost use Rattle.record_timeline.specs.inside.Spans.{span_by, spans_of, IsSortedSpans, AreApart, NoOverlapBefore};

use crate::TimelineFault;
use cf_base::EventRec;
use std::alloc::{AllocError, Global};

/// The record frames of an event that has some, and the event's place in the list.
#[derive(Clone, Copy)]
pub struct RecordSpan {
    pub rec_in: u32,
    pub rec_out: u32,
    pub place: usize,
}

/// The spans of a list by record in.
pub fn sorted_spans(alloc: Global, events: &[EventRec]) -> Result<Vec<RecordSpan>, AllocError>
    ensures { IfOk result (λ v. IsSortedSpans events.now v.items) }
{
    let mut spans = spans_of(alloc, events)?;
    spans.sort_unstable_by_key(|span| span.rec_in);
    Ok(spans)
}

/// The spans of a list in its order.
fn spans_of(alloc: Global, events: &[EventRec]) -> Result<Vec<RecordSpan>, AllocError>
    ensures { IfOk result (λ v. v.items ≡ spans_of events.now) }
{
    events
        .iter()
        .enumerate()
        .filter_map(|(place, e)| span_by(place, e))
        .collect(alloc)
}

fn span_by(place: usize, e: &EventRec) -> Option<RecordSpan>
    ensures { result ≡ span_by place e.now }
{
    if e.rec_in < e.rec_out {
        Some(RecordSpan {
            rec_in: e.rec_in,
            rec_out: e.rec_out,
            place,
        })
    } else {
        None
    }
}

/// The first event that shares a record frame with an earlier one. Where some spans meet, halving finds how far the list
/// goes on without, so that pairs are looked at for one event alone.
pub fn first_overlap(events: &[EventRec], spans: &[RecordSpan]) -> Option<TimelineFault>
    requires { IsSortedSpans events.now spans.now }
    ensures { result ≡ first_overlap events.now }
{
    if are_apart(spans, events.len()) {
        return None;
    }
    first_of_pairs(events, apart_front(spans, events.len()))
}

/// How many lines of a list of `len` lines, some of which meet, stand in front of the first one that meets an earlier one.
fn apart_front(spans: &[RecordSpan], len: usize) -> usize
    ensures within { result ≤ len }
    ensures apart { AreApart spans.now result }
{
    let mut apart = 0;
    let mut meet = len;
    while meet - apart > 1 {
        let middle = apart + (meet - apart) / 2;
        if are_apart(spans, middle) {
            apart = middle;
        } else {
            meet = middle;
        }
    }
    apart
}

/// Whether, of the spans of the first lines, each ends where the next one begins, or before.
fn are_apart(spans: &[RecordSpan], front: usize) -> bool
    ensures { IsTrue result → AreApart spans.now front }
{
    let mut end = 0;
    for span in spans {
        if span.place < front {
            if span.rec_in < end {
                return false;
            }
            end = span.rec_out.max(end);
        }
    }
    true
}

/// The first event from a place on that shares a record frame with an earlier one.
fn first_of_pairs(events: &[EventRec], from: usize) -> Option<TimelineFault>
    requires { NoOverlapBefore events.now from }
    ensures { result ≡ first_overlap events.now }
{
    for place in from..events.len() {
        if let Some(overlap) = overlap_with(&events[..place], &events[place]) {
            return Some(overlap);
        }
    }
    None
}

/// The earliest of these events that shares a record frame with `e`.
fn overlap_with(before: &[EventRec], e: &EventRec) -> Option<TimelineFault>
    ensures { result ≡ option_map (λ (old : EventRec). Overlap e.now.line old.line) (find (share e.now) before.now) }
{
    let old = before.iter().find(|old| shares(e, old))?;
    Some(TimelineFault::Overlap {
        line: e.line,
        with: old.line,
    })
}

fn shares(e: &EventRec, f: &EventRec) -> bool
    ensures { result ≡ share e.now f.now }
{
    e.rec_in.max(f.rec_in) < e.rec_out.min(f.rec_out)
}

/// The least record in of an event that has record frames, or 0.
pub fn first_frame(events: &[EventRec]) -> u32
    ensures value { result ≡ first_frame events.now }
{
    let mut first = None;
    for e in events {
        if e.rec_in < e.rec_out {
            first = Some(lesser(first, e.rec_in));
        }
    }
    first.unwrap_or(0)
}

fn lesser(first: Option<u32>, n: u32) -> u32
    ensures { result ≡ unwrap_or (option_map (min n) first) n }
{
    match first {
        Some(least) => n.min(least),
        None => n,
    }
}

/// The greatest record out, or 0.
pub fn end_frame(events: &[EventRec]) -> u32
    ensures value { result ≡ end_frame events.now }
{
    let mut end = 0;
    for e in events {
        end = e.rec_out.max(end);
    }
    end
}

/// The place of the event that covers record frame `n`, if no two events share a frame.
pub fn covering(events: &[EventRec], spans: &[RecordSpan], n: u32) -> Option<usize>
    requires sorted { IsSortedSpans events.now spans.now }
    requires apart { first_overlap events.now ≡ None }
    ensures value { result ≡ covering events.now n }
    ensures within { IfSome result (λ place. place < length events.now) }
{
    let begun = spans.partition_point(|span| span.rec_in <= n);
    if begun == 0 {
        return None;
    }
    let last = &spans[begun - 1];
    if n < last.rec_out {
        Some(last.place)
    } else {
        None
    }
}
