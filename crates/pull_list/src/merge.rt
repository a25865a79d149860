//! Spans that are sorted, and joined where they touch.
ghost use Rattle.std.specs.Prelude.{◌≡◌, All, IfOk};
ghost use Rattle.pull_list.specs.Pull.{AreRangesOf, HoldsIn};
ghost use Rattle.pull_list.specs.inside.Spans.{AreSorted, IsSpan, joined, touches};

use crate::range::{PullRange, place_of};
use std::alloc::{AllocError, Global};

/// The ranges of the frames that the spans hold, in whatever order these stand. They are sorted.
pub fn ranges_of(alloc: Global, spans: &mut Vec<PullRange>) -> Result<Vec<PullRange>, AllocError>
    requires { All IsSpan spans.old.items }
    ensures { IfOk result (λ ranges. AreRangesOf (HoldsIn spans.old.items) ranges.items) }
{
    spans.sort_unstable_by_key(|span| place_of(span));
    merged(alloc, spans.as_slice())
}

/// The same of spans that stand by their reels and starts.
fn merged(alloc: Global, spans: &[PullRange]) -> Result<Vec<PullRange>, AllocError>
    requires { AreSorted 0 0 spans.now }
    ensures { IfOk result (λ ranges. AreRangesOf (HoldsIn spans.now) ranges.items) }
{
    let mut ranges = Vec::new(alloc);
    let Some((first, rest)) = spans.split_first() else {
        return Ok(ranges);
    };
    let mut current = *first;
    for span in rest {
        if touches(current, *span) {
            current = join(current, *span);
        } else {
            ranges.push(current)?;
            current = *span;
        }
    }
    ranges.push(current)?;
    Ok(ranges)
}

/// Whether no frame lies between the two that neither holds, where `next` doesn't start before `current`.
fn touches(current: PullRange, next: PullRange) -> bool
    ensures { result ≡ touches current next }
{
    current.reel == next.reel && next.start <= current.end
}

/// Both in one.
fn join(current: PullRange, next: PullRange) -> PullRange
    ensures { result ≡ joined current next }
{
    PullRange {
        reel: current.reel,
        start: current.start,
        end: current.end.max(next.end),
    }
}
