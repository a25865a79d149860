//! What an adoption and the run behind it come to: a report, or an outcome.
ghost use Rattle.std.specs.Prelude.{◌≡◌, ◌↔◌, Err, IfOk, MatchResult};
ghost use Rattle.project_run.specs.Run.{IsKnown, IsOfRun};
ghost use Rattle.project_adopt.specs.Adopt.{adopt_text, of_old_project, outcome_of_fault};
ghost use Rattle.project_adopt.specs.inside.Adopt.{ReportsAdoption};
ghost use Rattle.project_run.specs.Calls.{Replies};

use conform_job::Job;
use frame_fetch::RunEnd;
use outcome::Outcome;
use project_run::{outcome_of_end, put_count};
use reconform::{AdoptFault, Adopted};
use run_alone::Report;
use std::alloc::{AllocError, Global};

/// The outcome of an old project that came to no job.
pub(crate) fn of_old_project(outcome: Outcome) -> Outcome
    ensures { result ≡ of_old_project outcome }
{
    match outcome {
        Outcome::Refused(refused) => Outcome::OldRefused(refused),
        other => other,
    }
}

/// The outcome of an adoption that didn't come to its end.
pub(crate) fn outcome_of_fault(fault: AdoptFault) -> Outcome
    ensures { result ≡ outcome_of_fault fault }
{
    match fault {
        AdoptFault::OldOtherJob { kept, wanted } => Outcome::OldOtherJob { kept, wanted },
        AdoptFault::OldBadLedger { len } => Outcome::OldBadLedger { len },
        AdoptFault::OtherJob { kept, wanted } => Outcome::OtherJob { kept, wanted },
        AdoptFault::BadLedger { len } => Outcome::BadLedger { len },
        AdoptFault::DiskFault => Outcome::DiskFault,
        AdoptFault::NoMemory => Outcome::NoMemory,
    }
}

/// The report of a run that ended so behind an adoption, or its outcome.
pub(crate) fn reply_of(
    alloc: Global,
    job: &Job,
    done: Adopted,
    end: RunEnd,
    report: &Report,
) -> Result<Vec<u8>, Outcome>
    requires { IsKnown job.now end }
    ensures reply { Replies result (ReportsAdoption job.now done end report.now) }
    ensures kind { MatchResult result (λ text. Unit {0}) IsOfRun }
    ensures source { (result ≡ Err Outcome.SourceFault) ↔ (end ≡ RunEnd.SourceFault) }
    ensures disk { (result ≡ Err Outcome.DiskFault) ↔ (end ≡ RunEnd.DiskFault) }
{
    if let RunEnd::Done = end {
        return match adopt_text(alloc, done, report) {
            Ok(text) => Ok(text),
            Err(_) => Err(Outcome::NoMemory),
        };
    }
    Err(outcome_of_end(job, end))
}

/// The frames of the reel, those that were acknowledged at the opening, those that were taken over, and the rendered ones.
fn adopt_text(alloc: Global, done: Adopted, report: &Report) -> Result<Vec<u8>, AllocError>
    ensures { IfOk result (λ text. text.items ≡ adopt_text done report.now) }
{
    let mut text = Vec::new(alloc);
    put_count(&mut text, b"frames", report.frames)?;
    put_count(&mut text, b"kept", done.kept)?;
    put_count(&mut text, b"adopted", done.adopted)?;
    put_count(&mut text, b"rendered", report.rendered)?;
    Ok(text)
}
