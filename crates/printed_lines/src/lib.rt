//! The lines that are put for outcomes.
#![tactic(auto)]

ghost use Rattle.std.specs.Prelude.{◌≡◌, ◌++◌, IfOk, OnOk};
ghost use Rattle.std.specs.Option.{option_copied};
ghost use Rattle.printed_lines.specs.Made.{HasMadeLine};
ghost use Rattle.printed_lines.specs.Lines.{plain_line, refused_line, absent_line, numbered_line, timeline_line, reels_line, project_line, cut_line, job_line, source_line, fault_text, other_job_line, bad_ledger_line, damaged_line, changed_line, old_line};

use cf_base::Name;
use conform_job::JobFault;
use outcome::{
    Outcome, Refused, Which, cube_number, header_number, list_number, project_number, reels_number,
};
use printed_text::{put_bytes, put_digest, put_number};
use project_file::ProjectFault;
use record_timeline::TimelineFault;
use source_reels::ReelFault;
use std::alloc::{AllocError, Global};

/// The line of an outcome that has always the same one.
pub fn plain_line(outcome: &Outcome) -> &'static str
    ensures { result.now ≡ plain_line outcome.now }
{
    match outcome {
        Outcome::Usage => { "usage: conform COMMAND SUBJECT [EXTRA] [--workers N] [--share N]\n" }
        Outcome::SourceFault => "source fault\n",
        Outcome::DiskFault => "disk fault\n",
        Outcome::NoMemory => "no memory\n",
        Outcome::Done
        | Outcome::Refused(_)
        | Outcome::OtherJob { .. }
        | Outcome::BadLedger { .. }
        | Outcome::OldRefused(_)
        | Outcome::OldOtherJob { .. }
        | Outcome::OldBadLedger { .. }
        | Outcome::Damaged { .. }
        | Outcome::Changed { .. }
        | Outcome::SinkFault { .. } => "",
    }
}

/// The line of an outcome whose line is made, None of another.
pub fn made_line(alloc: Global, outcome: &Outcome) -> Option<Result<Vec<u8>, AllocError>>
    ensures { HasMadeLine outcome.now result }
{
    match outcome {
        Outcome::Refused(refused) => Some(refused_line(alloc, refused)),
        Outcome::OtherJob { kept, wanted } => Some(other_job_line(alloc, kept, wanted)),
        Outcome::BadLedger { len } => Some(bad_ledger_line(alloc, *len)),
        Outcome::OldRefused(refused) => Some(old_refused_line(alloc, refused)),
        Outcome::OldOtherJob { kept, wanted } => Some(old_other_job_line(alloc, kept, wanted)),
        Outcome::OldBadLedger { len } => Some(old_bad_ledger_line(alloc, *len)),
        Outcome::Damaged { frame, kept, found } => Some(damaged_line(alloc, *frame, kept, found)),
        Outcome::Changed { reel, key, .. } => Some(changed_line(alloc, reel, key.source)),
        _ => None,
    }
}

/// The line of a folder of another job.
fn other_job_line(alloc: Global, kept: &[u8; 32], wanted: &[u8; 32]) -> Result<Vec<u8>, AllocError>
    ensures { IfOk result (λ text. text.items ≡ other_job_line kept.now wanted.now) }
{
    let mut text = Vec::new(alloc);
    put_bytes(&mut text, b"other job ")?;
    put_digest(&mut text, kept)?;
    put_bytes(&mut text, b" ")?;
    put_digest(&mut text, wanted)?;
    put_bytes(&mut text, b"\n")?;
    Ok(text)
}

/// The line of a bad ledger.
fn bad_ledger_line(alloc: Global, len: u64) -> Result<Vec<u8>, AllocError>
    ensures { IfOk result (λ text. text.items ≡ bad_ledger_line len) }
{
    let mut text = Vec::new(alloc);
    put_bytes(&mut text, b"bad ledger ")?;
    put_number(&mut text, len)?;
    put_bytes(&mut text, b"\n")?;
    Ok(text)
}

/// The line of an old project's refusal.
fn old_refused_line(alloc: Global, refused: &Refused) -> Result<Vec<u8>, AllocError>
    ensures { IfOk result (λ text. text.items ≡ old_line (refused_line refused.now)) }
{
    let line = refused_line(alloc, refused)?;
    old_line(alloc, &line)
}

/// The line of an old reel's folder that is another job's.
fn old_other_job_line(
    alloc: Global,
    kept: &[u8; 32],
    wanted: &[u8; 32],
) -> Result<Vec<u8>, AllocError>
    ensures { IfOk result (λ text. text.items ≡ old_line (other_job_line kept.now wanted.now)) }
{
    let line = other_job_line(alloc, kept, wanted)?;
    old_line(alloc, &line)
}

/// The line of an old reel's bad ledger.
fn old_bad_ledger_line(alloc: Global, len: u64) -> Result<Vec<u8>, AllocError>
    ensures { IfOk result (λ text. text.items ≡ old_line (bad_ledger_line len)) }
{
    let line = bad_ledger_line(alloc, len)?;
    old_line(alloc, &line)
}

/// A line of what is old.
fn old_line(alloc: Global, line: &[u8]) -> Result<Vec<u8>, AllocError>
    ensures { IfOk result (λ text. text.items ≡ old_line line.now) }
{
    let mut text = Vec::new(alloc);
    put_bytes(&mut text, b"old ")?;
    put_bytes(&mut text, line)?;
    Ok(text)
}

/// The line of a damaged frame.
fn damaged_line(
    alloc: Global,
    frame: u32,
    kept: &[u8; 32],
    found: &[u8; 32],
) -> Result<Vec<u8>, AllocError>
    ensures { IfOk result (λ text. text.items ≡ damaged_line frame kept.now found.now) }
{
    let mut text = Vec::new(alloc);
    put_bytes(&mut text, b"damaged frame ")?;
    put_number(&mut text, frame)?;
    put_bytes(&mut text, b" ")?;
    put_digest(&mut text, kept)?;
    put_bytes(&mut text, b" ")?;
    put_digest(&mut text, found)?;
    put_bytes(&mut text, b"\n")?;
    Ok(text)
}

/// The line of a source frame whose file changed.
fn changed_line(alloc: Global, reel: &Name, source: u32) -> Result<Vec<u8>, AllocError>
    ensures { IfOk result (λ text. text.items ≡ changed_line reel.now source) }
{
    let mut text = Vec::new(alloc);
    put_bytes(&mut text, b"changed reel ")?;
    put_bytes(&mut text, reel.bytes())?;
    put_bytes(&mut text, b" frame ")?;
    put_number(&mut text, source)?;
    put_bytes(&mut text, b"\n")?;
    Ok(text)
}

/// A refusal's line.
pub fn refused_line(alloc: Global, refused: &Refused) -> Result<Vec<u8>, AllocError>
    ensures { IfOk result (λ text. text.items ≡ refused_line refused.now) }
{
    match refused {
        Refused::NoFile(which) => Vec::from_slice(alloc, absent_line(*which).as_bytes()),
        Refused::Project(fault) => project_line(alloc, fault),
        Refused::Reels(fault) => reels_line(alloc, fault),
        Refused::List(refusal) => numbered_line(alloc, list_number(refusal.kind), refusal.line),
        Refused::Timeline(fault) => timeline_line(alloc, *fault),
        Refused::Cube(fault) => numbered_line(alloc, cube_number(fault.kind), fault.line),
        Refused::Job(fault) => job_line(alloc, fault),
        Refused::Frame(fault) => numbered_line(alloc, header_number(*fault), 0),
    }
}

/// The line of an absent file.
fn absent_line(which: Which) -> &'static str
    ensures { result.now ≡ absent_line which }
{
    match which {
        Which::Frame => "refused 0.1 frame\n",
        Which::Project => "refused 0.1 project\n",
        Which::List => "refused 0.1 list\n",
        Which::Cube => "refused 0.1 cube\n",
    }
}

/// The line of a refusal at a line of a text.
fn numbered_line(alloc: Global, number: &str, at: u32) -> Result<Vec<u8>, AllocError>
    ensures { IfOk result (λ text. text.items ≡ numbered_line number.now at) }
{
    let mut text = Vec::new(alloc);
    put_bytes(&mut text, b"refused ")?;
    put_bytes(&mut text, number.as_bytes())?;
    put_bytes(&mut text, b" line ")?;
    put_number(&mut text, at)?;
    put_bytes(&mut text, b"\n")?;
    Ok(text)
}

/// The line of a project's fault: its key, and its reel.
fn project_line(alloc: Global, fault: &ProjectFault) -> Result<Vec<u8>, AllocError>
    ensures { IfOk result (λ text. text.items ≡ project_line fault.now) }
{
    let mut text = Vec::new(alloc);
    put_bytes(&mut text, b"refused ")?;
    put_bytes(&mut text, project_number(fault.kind).as_bytes())?;
    put_bytes(&mut text, b" key ")?;
    put_number(&mut text, fault.key)?;
    put_bytes(&mut text, b" reel ")?;
    put_number(&mut text, fault.reel)?;
    put_bytes(&mut text, b"\n")?;
    Ok(text)
}

/// The line of the reels' fault.
fn reels_line(alloc: Global, fault: &ReelFault) -> Result<Vec<u8>, AllocError>
    ensures { IfOk result (λ text. text.items ≡ reels_line fault.now) }
{
    let mut text = Vec::new(alloc);
    put_bytes(&mut text, b"refused ")?;
    put_bytes(&mut text, reels_number(fault.kind).as_bytes())?;
    put_bytes(&mut text, b" reel ")?;
    put_number(&mut text, fault.reel)?;
    put_bytes(&mut text, b"\n")?;
    Ok(text)
}

/// The line of a list without a timeline.
fn timeline_line(alloc: Global, fault: TimelineFault) -> Result<Vec<u8>, AllocError>
    ensures { IfOk result (λ text. text.items ≡ timeline_line fault) }
{
    match fault {
        TimelineFault::Overlap { line, with } => overlap_line(alloc, line, with),
        TimelineFault::TooLongReel => numbered_line(alloc, "7.2", 0),
    }
}

/// The line of two events that share a record frame.
fn overlap_line(alloc: Global, line: u32, with: u32) -> Result<Vec<u8>, AllocError>
    ensures { IfOk result (λ text. text.items ≡ timeline_line (TimelineFault.Overlap line with)) }
{
    let mut text = Vec::new(alloc);
    put_bytes(&mut text, b"refused 7.1 line ")?;
    put_number(&mut text, line)?;
    put_bytes(&mut text, b" with ")?;
    put_number(&mut text, with)?;
    put_bytes(&mut text, b"\n")?;
    Ok(text)
}

/// The line of a cut that is refused.
fn cut_line(alloc: Global, cut: u32) -> Result<Vec<u8>, AllocError>
    ensures { IfOk result (λ text. text.items ≡ cut_line cut) }
{
    let mut text = Vec::new(alloc);
    put_bytes(&mut text, b"refused 15.5 cut ")?;
    put_number(&mut text, cut)?;
    put_bytes(&mut text, b"\n")?;
    Ok(text)
}

/// The line of a cut, or of a source frame that can't be had. A fault of the scan and want of memory have none here.
fn job_line(alloc: Global, fault: &JobFault) -> Result<Vec<u8>, AllocError>
    ensures { IfOk result (λ text. text.items ≡ job_line fault.now) }
{
    match fault {
        JobFault::BadCut { cut } => cut_line(alloc, *cut),
        JobFault::UnknownReel { line } => numbered_line(alloc, "15.1", *line),
        JobFault::MissingFrame { line, reel, source } => {
            source_line(alloc, "15.2", *line, reel, *source, None)
        }
        JobFault::BadFrame {
            line,
            reel,
            source,
            fault,
        } => {
            source_line(
                alloc,
                "15.3",
                *line,
                reel,
                *source,
                Some(header_number(*fault)),
            )
        }
        JobFault::Geometry { line, reel, source } => {
            source_line(alloc, "15.4", *line, reel, *source, None)
        }
        JobFault::SourceFault | JobFault::NoMemory => Ok(Vec::new(alloc)),
    }
}

/// The line of a refusal of a source frame, with the number of its header's fault if it has one.
fn source_line(
    alloc: Global,
    number: &str,
    line: u32,
    reel: &Name,
    source: i64,
    fault: Option<&str>,
) -> Result<Vec<u8>, AllocError>
    ensures { IfOk result (λ text. text.items ≡ source_line number.now line reel.now source (option_copied fault.entry)) }
{
    let mut text = Vec::new(alloc);
    put_bytes(&mut text, b"refused ")?;
    put_bytes(&mut text, number.as_bytes())?;
    put_bytes(&mut text, b" line ")?;
    put_number(&mut text, line)?;
    put_bytes(&mut text, b" reel ")?;
    put_bytes(&mut text, reel.bytes())?;
    put_bytes(&mut text, b" frame ")?;
    put_number(&mut text, source)?;
    put_fault(&mut text, fault)?;
    put_bytes(&mut text, b"\n")?;
    Ok(text)
}

/// The number of a header's fault, if there is one.
fn put_fault(text: &mut Vec<u8>, fault: Option<&str>) -> Result<(), AllocError>
    ensures { OnOk result (text.new.items ≡ text.old.items ++ fault_text (option_copied fault.entry)) }
{
    match fault {
        None => Ok(()),
        Some(number) => {
            put_bytes(text, b" fault ")?;
            put_bytes(text, number.as_bytes())
        }
    }
}
