//! The command `plan`.
ghost use Rattle.std.specs.Prelude.{◌≡◌};
ghost use Rattle.project_run.specs.Calls.{Replies};
ghost use Rattle.command_answers.specs.Reply.{IsReplyOverScan};
ghost use Rattle.command_words.specs.declared.command.Command.TheVariants as commands;

use cf_base::PathText;
use outcome::Outcome;
use printed_tables::plan_of;
use project_job::planned;
use scan_source::Scans;
use std::alloc::Global;

/// The plan of the job of the project at a path, or the outcome that was reached.
pub fn plan<S: Scans>(alloc: Global, path: &PathText, scan: &mut S) -> Result<Vec<u8>, Outcome>
    ensures reply { Replies result (IsReplyOverScan (commands.Plan path.now) (S.state scan.old) (S.state scan.new)) }
    ensures same { (S.state scan.new).loans ≡ (S.state scan.old).loans }
{
    let job = match planned(alloc, path, scan) {
        Ok(job) => job,
        Err(outcome) => return Err(outcome),
    };
    let plan = plan_of(alloc, &job);
    // By a call: a job that falls out of scope is dropped part by part, here and in each proof.
    drop(job);
    match plan {
        Ok(text) => Ok(text),
        Err(_) => Err(Outcome::NoMemory),
    }
}
