//! Ranges of source frames, and their list.
ghost use Rattle.std.specs.Prelude.{◌≡◌, ◌+◌, ◌≤◌, ◌<◌, None};
ghost use Rattle.source_reels.specs.Reels.{reels_fault};
ghost use Rattle.pull_list.specs.inside.Spans.{HasKey, IsSpan, place_of, span_at, span_in};

use cf_base::{Items, Key, ReelEntry};
use source_reels::reel_laws;

/// Source frames of one reel.
#[derive(Clone, Copy, Debug, PartialEq, Eq)]
pub struct PullRange {
    /// The place of the reel in the project, from 0.
    pub reel: u16,
    /// The number of the first frame in the day of the reel.
    pub start: u32,
    /// The number behind that of the last frame.
    pub end: u32,
}

/// Ranges in the order of the project's reels and then of their starts.
pub type PullList = Items<PullRange>;

/// The frames of a reel that are at most `margin` away from one of its frames.
pub fn span_at(entries: &[ReelEntry], key: Key, margin: u32) -> PullRange
    requires margin { margin ≤ 1000 }
    requires key { HasKey entries.now key }
    requires accepted { reels_fault entries.now ≡ None }
    ensures span { result ≡ span_at entries.now margin key }
    ensures some { IsSpan result }
{
    reel_laws();
    let e = entries[usize::from(key.reel)];
    span_in(&e, key, margin)
}

/// The same by the reel.
fn span_in(e: &ReelEntry, key: Key, margin: u32) -> PullRange
    requires margin { margin ≤ 1000 }
    requires day { e.now.start + e.now.frames ≤ e.now.day }
    requires start { e.now.start ≤ key.source }
    requires end { key.source < e.now.start + e.now.frames }
    ensures span { result ≡ span_in margin key e.now }
    ensures some { IsSpan result }
{
    let end = end_of(e.start, e.frames, e.day);
    PullRange {
        reel: key.reel,
        start: e.start.max(key.source.saturating_sub(margin)),
        end: end.min(key.source.saturating_add(margin + 1)),
    }
}

/// The number behind a reel's last frame.
fn end_of(start: u32, frames: u32, day: u32) -> u32
    requires { start + frames ≤ day }
    ensures end { result ≡ start + frames }
    ensures fits { result < 4294967296 }
{
    start + frames
}

/// Where a range starts, on one line for all reels.
pub fn place_of(range: &PullRange) -> u64
    ensures { result ≡ place_of range.now }
{
    u64::from(range.reel) * 4_294_967_296 + u64::from(range.start)
}
