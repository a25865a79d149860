//! The record reels of a job: the frames with which they begin, the reel of a frame, and the frames of a reel.
ghost use Rattle.std.specs.Prelude.{◌≡◌, ◌+◌, ◌≤◌, ◌<◌, ◌∷◌, ◌++◌, [], length, nat_le, slice_index, false, Some, None, IfOk, IfErr, IfSome, IfNone};
ghost use Rattle.std.specs.List.{count_by};
ghost use Rattle.std.specs.List.Sorted.{IsNonDecreasing};
ghost use Rattle.record_timeline.specs.Accepted.{frame_count};
ghost use Rattle.conform_job.specs.Cuts.{bad_cut, cut_number, cut_numbers, is_in_turn, record_end, record_reel, reel_count, reel_span, HasFramesOf, IsWithin};
ghost use Rattle.conform_job.specs.Job.{ArePlanned};
ghost use Rattle.conform_job.specs.inside.Lines.{IsCutInTurn, IsCutUnless};

use crate::{JobFault, JobParts};
use cf_base::{PathText, Span};
use project_file::label_number;
use std::alloc::Global;

/// The frame numbers of the cuts, or the first cut that isn't in turn.
#[tactic(auto, unfolding(crate::specs::Cuts::bad_cut))]
pub fn cut_numbers(alloc: Global, parts: &JobParts) -> Result<Vec<u32>, JobFault>
    requires { ArePlanned parts.now }
    ensures none { IfOk result (λ cuts. (bad_cut parts.now ≡ None) × (cuts.items ≡ cut_numbers parts.now)) }
    ensures refused { IfErr result (IsCutUnless (bad_cut parts.now)) }
{
    let end = record_end(parts);
    let mut cuts = Vec::new(alloc);
    let mut before = parts.timeline.first().0;
    let mut number: u32 = 1;
    let texts = parts.project.cuts.items();
    for text in texts {
        let Some(cut) = number_in_turn(parts, text, before, end) else {
            return Err(JobFault::BadCut { cut: number });
        };
        let Ok(()) = cuts.push(cut) else {
            return Err(JobFault::NoMemory);
        };
        before = cut;
        number += 1;
    }
    Ok(cuts)
}

/// The frame number behind the record's last.
fn record_end(parts: &JobParts) -> u32
    ensures { result ≡ record_end parts.now.timeline }
{
    parts.timeline.first().0 + parts.timeline.count()
}

/// The frame number of a cut, if its text is a label of the record above `before` and below `end`.
fn number_in_turn(parts: &JobParts, text: &PathText, before: u32, end: u32) -> Option<u32>
    requires { ArePlanned parts.now }
    ensures some { IfSome result (IsCutInTurn parts.now text.now before end) }
    ensures none { IfNone result (is_in_turn end (Some before) (cut_number parts.now text.now) ≡ false) }
{
    let Some(cut) = number_of(parts, text) else {
        return None;
    };
    if before < cut && cut < end {
        Some(cut)
    } else {
        None
    }
}

/// The frame number of a cut, if its text is a label of the record.
fn number_of(parts: &JobParts, text: &PathText) -> Option<u32>
    requires { ArePlanned parts.now }
    ensures { result ≡ cut_number parts.now text.now }
{
    label_number(parts.project.rate, parts.timeline.mode(), text.bytes())
}

/// The record reel of record frame `i`, from 0.
#[tactic(auto, unfolding(crate::specs::Cuts::record_reel))]
pub fn record_reel(parts: &JobParts, cuts: &[u32], i: u32) -> u16
    requires planned { ArePlanned parts.now }
    requires good { bad_cut parts.now ≡ None }
    requires cuts { cuts.now ≡ cut_numbers parts.now }
    requires index { i < frame_count parts.now.timeline.events }
    ensures reel { result ≡ record_reel parts.now i }
    ensures some { 1 ≤ result }
    ensures most { result ≤ reel_count parts.now }
    ensures few { result ≤ 999 }
    ensures within { IsWithin i (reel_span parts.now result) }
{
    1 + cuts_up_to(cuts, parts.timeline.first().0 + i)
}

/// How many cuts stand at or below a record frame.
fn cuts_up_to(cuts: &[u32], number: u32) -> u16
    requires few { length cuts.now ≤ 998 }
    requires ascending { IsNonDecreasing cuts.now }
    ensures count { result ≡ count_by (λ cut. nat_le cut number) cuts.now }
    ensures most { result ≤ length cuts.now }
{
    cuts.partition_point(|cut| *cut <= number) as u16
}

/// The record frames of a reel.
#[tactic(auto, unfolding(crate::specs::Cuts::reel_span))]
pub fn reel_span(parts: &JobParts, cuts: &[u32], reel: u16) -> Span
    requires good { bad_cut parts.now ≡ None }
    requires cuts { cuts.now ≡ cut_numbers parts.now }
    requires some { 1 ≤ reel }
    requires most { reel ≤ reel_count parts.now }
    ensures span { result ≡ reel_span parts.now reel }
    ensures frames { HasFramesOf parts.now reel result }
{
    let first = parts.timeline.first().0;
    let place = usize::from(reel - 1);
    Span {
        start: first_of_reel(cuts, first, place) - first,
        end: end_of_reel(cuts, record_end(parts), place) - first,
    }
}

/// The first frame of the reel at a place, from 0: the record's, or the cut's.
fn first_of_reel(cuts: &[u32], first: u32, place: usize) -> u32
    requires { place ≤ length cuts.now }
    ensures { result ≡ slice_index (first ∷ cuts.now) place }
{
    if place == 0 { first } else { cuts[place - 1] }
}

/// The frame behind the last of the reel at a place, from 0: the next cut, or the record's end.
fn end_of_reel(cuts: &[u32], end: u32, place: usize) -> u32
    requires { place ≤ length cuts.now }
    ensures { result ≡ slice_index (cuts.now ++ end ∷ []) place }
{
    if place < cuts.len() { cuts[place] } else { end }
}
