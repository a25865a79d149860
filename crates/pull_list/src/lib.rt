//! The pull list of a job: which ranges of source frames a room fetches from the vault, with a margin on both sides. The rules
//! are this project's own.
//!
//! Each frame that a record frame needs gives a span. The spans are sorted by reel and start, and those that touch are joined in
//! one pass; no single frame is listed.
#![tactic(auto)]

mod laws;
mod merge;
mod range;
mod spans;

ghost use Rattle.std.specs.Prelude.{◌≤◌, IfOk, All};
ghost use Rattle.pull_list.specs.Pull.{IsInDay, IsPullList};

use cf_base::{Fail, Never};
use conform_job::Job;
pub use laws::pull_laws;
use merge::ranges_of;
pub use range::{PullList, PullRange};
use source_reels::reel_laws;
use spans::spans_of;
use std::alloc::Global;

/// The source frames of a job's reels that are at most `margin` frames, 0 to 1000, away from one that a record frame needs.
/// `Fail::NoMemory` is the only error.
pub fn pull(alloc: Global, job: &Job, margin: u32) -> Result<PullList, Fail<Never>>
    requires margin { margin ≤ 1000 }
    ensures list { IfOk result (λ list. IsPullList job.now.parts margin list) }
    ensures days { IfOk result (λ list. All (IsInDay job.now.parts.reels) list) }
{
    pull_laws();
    reel_laws();
    let entries = job.reels().entries();
    let Ok(mut spans) = spans_of(alloc, job, entries, margin) else {
        return Err(Fail::NoMemory);
    };
    match ranges_of(alloc, &mut spans) {
        Ok(ranges) => Ok(PullList::of(ranges)),
        Err(_) => Err(Fail::NoMemory),
    }
}
