//! The spans of what a job needs.
ghost use Rattle.std.specs.Prelude.{◌≡◌, ◌<◌, ◌≤◌, ◌++◌, All, None, IfOk, IfSome, OnOk};
ghost use Rattle.record_timeline.specs.Accepted.{frame_count};
ghost use Rattle.conform_job.specs.Asks.{asks_of};
ghost use Rattle.source_reels.specs.Reels.{reels_fault};
ghost use Rattle.pull_list.specs.inside.Spans.{HasKey, IsSpan, spans_at, spans_of_asks, spans_of_side};

use crate::range::{PullRange, span_at};
use cf_base::{Key, ReelEntry};
use conform_job::{Job, Need};
use dpx_header::FrameInfo;
use std::alloc::{AllocError, Global};

/// A span for each source frame that a record frame needs, in the order of the record frames.
pub fn spans_of(
    alloc: Global,
    job: &Job,
    entries: &[ReelEntry],
    margin: u32,
) -> Result<Vec<PullRange>, AllocError>
    requires margin { margin ≤ 1000 }
    requires entries { entries.now ≡ job.now.parts.reels }
    requires accepted { reels_fault entries.now ≡ None }
    ensures spans { IfOk result (λ spans. spans.items ≡ spans_of_asks job.now.parts margin (asks_of job.now.parts.timeline)) }
    ensures some { IfOk result (λ spans. All IsSpan spans.items) }
{
    let mut spans = Vec::new(alloc);
    for i in 0..job.count() {
        put_frame(&mut spans, job, entries, i, margin)?;
    }
    Ok(spans)
}

/// The spans of what record frame `i` needs.
fn put_frame(
    spans: &mut Vec<PullRange>,
    job: &Job,
    entries: &[ReelEntry],
    i: u32,
    margin: u32,
) -> Result<(), AllocError>
    requires margin { margin ≤ 1000 }
    requires entries { entries.now ≡ job.now.parts.reels }
    requires accepted { reels_fault entries.now ≡ None }
    requires within { i < frame_count job.now.parts.timeline.events }
    requires some { All IsSpan spans.old.items }
    ensures spans { OnOk result (spans.new.items ≡ spans.old.items ++ spans_at job.now.parts margin i) }
    ensures some { OnOk result (All IsSpan spans.new.items) }
{
    let Need { old, new } = job.need(i);
    put_side(spans, entries, old, margin)?;
    put_side(spans, entries, new, margin)
}

/// The span of a side, if it is a source frame.
fn put_side(
    spans: &mut Vec<PullRange>,
    entries: &[ReelEntry],
    side: Option<(Key, FrameInfo)>,
    margin: u32,
) -> Result<(), AllocError>
    requires margin { margin ≤ 1000 }
    requires key { IfSome side (λ s. HasKey entries.now s.0) }
    requires accepted { reels_fault entries.now ≡ None }
    requires some { All IsSpan spans.old.items }
    ensures spans { OnOk result (spans.new.items ≡ spans.old.items ++ spans_of_side entries.now margin side) }
    ensures some { OnOk result (All IsSpan spans.new.items) }
{
    let Some((key, _)) = side else {
        return Ok(());
    };
    spans.push(span_at(entries, key, margin))?;
    Ok(())
}
