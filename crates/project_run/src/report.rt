//! What a run of a job comes to: its report, or an outcome.
ghost use Rattle.std.specs.Prelude.{◌≡◌, ◌≤◌, ◌↔◌, [], ◌∷◌, ◌++◌, Some, Err, IfOk, OnOk, MatchResult, codes, decimal};
ghost use Rattle.conform_job.specs.Keys.{info_at};
ghost use Rattle.printed_text.specs.Text.{spaced_line};
ghost use Rattle.project_run.specs.Run.{IsKnown, IsOfRun, ReportsEnd, name_in, outcome_of_end, part_text, report_text, run_text};
ghost use Rattle.outcome.specs.declared.Outcome.TheVariants as outcomes;
ghost use Rattle.project_run.specs.Calls.{Replies};

use cf_base::Key;
use conform_job::Job;
use dpx_header::FrameInfo;
use frame_fetch::RunEnd;
use frame_range::{Extent, FrameRange};
use outcome::Outcome;
use printed_text::{put_bytes, put_number};
use run_alone::Report;
use source_reels::Seen;
use std::alloc::{AllocError, Global};

/// The report of a run over a range of frames that ended so, or its outcome; want of memory if there is none for the report.
pub fn reply_of(
    alloc: Global,
    job: &Job,
    extent: Extent,
    range: FrameRange,
    end: RunEnd,
    report: &Report,
) -> Result<Vec<u8>, Outcome>
    requires known { IsKnown job.now end }
    requires range { range.low ≤ range.high }
    ensures reply { Replies result (ReportsEnd job.now end (report_text extent range report.now)) }
    ensures kind { MatchResult result (λ text. Unit {0}) IsOfRun }
    ensures source { (result ≡ Err Outcome.SourceFault) ↔ (end ≡ RunEnd.SourceFault) }
    ensures disk { (result ≡ Err Outcome.DiskFault) ↔ (end ≡ RunEnd.DiskFault) }
{
    if let RunEnd::Done = end {
        return match report_text(alloc, extent, range, report) {
            Ok(text) => Ok(text),
            Err(_) => Err(Outcome::NoMemory),
        };
    }
    Err(outcome_of_end(job, end))
}

/// What a run over a range of frames has to report.
fn report_text(
    alloc: Global,
    extent: Extent,
    range: FrameRange,
    report: &Report,
) -> Result<Vec<u8>, AllocError>
    requires { range.low ≤ range.high }
    ensures { IfOk result (λ text. text.items ≡ report_text extent range report.now) }
{
    match extent {
        Extent::Whole => run_text(alloc, report),
        Extent::Part { .. } => part_text(alloc, range, report),
    }
}

/// The frames of the reel, the range of the part, and of the range those that were acknowledged at the opening and the rendered
/// ones.
fn part_text(alloc: Global, range: FrameRange, report: &Report) -> Result<Vec<u8>, AllocError>
    requires { range.low ≤ range.high }
    ensures { IfOk result (λ text. text.items ≡ part_text range report.now) }
{
    let kept = (range.high - range.low).saturating_sub(report.rendered);
    let mut text = Vec::new(alloc);
    put_count(&mut text, b"frames", report.frames)?;
    put_range(&mut text, range)?;
    put_count(&mut text, b"kept", kept)?;
    put_count(&mut text, b"rendered", report.rendered)?;
    Ok(text)
}

/// Appends the line of a part's range.
fn put_range(text: &mut Vec<u8>, range: FrameRange) -> Result<(), AllocError>
    ensures { OnOk result (text.new.items ≡ text.old.items
        ++ spaced_line (codes "part" ∷ decimal range.low ∷ decimal range.high ∷ [])) }
{
    put_bytes(text, b"part ")?;
    put_number(text, range.low)?;
    put_bytes(text, b" ")?;
    put_number(text, range.high)?;
    put_bytes(text, b"\n")
}

/// The frames of the reel, those that were acknowledged at the opening, and the rendered ones.
fn run_text(alloc: Global, report: &Report) -> Result<Vec<u8>, AllocError>
    ensures { IfOk result (λ text. text.items ≡ run_text report.now) }
{
    let mut text = Vec::new(alloc);
    put_count(&mut text, b"frames", report.frames)?;
    put_count(&mut text, b"kept", report.kept)?;
    put_count(&mut text, b"rendered", report.rendered)?;
    Ok(text)
}

/// Appends a line: what is counted, and how many there are.
pub fn put_count(text: &mut Vec<u8>, word: &[u8], count: u32) -> Result<(), AllocError>
    ensures { OnOk result (text.new.items ≡ text.old.items ++ spaced_line (word.now ∷ decimal count ∷ [])) }
{
    put_bytes(text, word)?;
    put_bytes(text, b" ")?;
    put_number(text, count)?;
    put_bytes(text, b"\n")
}

/// The outcome of a run that ended so.
pub fn outcome_of_end(job: &Job, end: RunEnd) -> Outcome
    requires { IsKnown job.now end }
    ensures { result ≡ outcome_of_end job.now.parts.reels end }
{
    match end {
        RunEnd::Done => Outcome::Done,
        RunEnd::OtherJob { kept, wanted } => Outcome::OtherJob { kept, wanted },
        RunEnd::BadLedger { len } => Outcome::BadLedger { len },
        RunEnd::Changed { key, was, now } => changed(job, key, was, now),
        RunEnd::SourceFault => Outcome::SourceFault,
        RunEnd::DiskFault => Outcome::DiskFault,
        RunEnd::NoMemory => Outcome::NoMemory,
    }
}

/// The outcome of a source file that isn't what the job has for its key.
fn changed(job: &Job, key: Key, was: FrameInfo, now: Seen) -> Outcome
    requires { info_at job.now.infos key ≡ Some was }
    ensures { result ≡ outcomes.Changed (name_in job.now.parts.reels key.reel) key was now }
{
    job.recall();
    Outcome::Changed {
        reel: *job.reels().name_of(key.reel),
        key,
        was,
        now,
    }
}
