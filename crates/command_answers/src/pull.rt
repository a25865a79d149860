//! The command `pull`.
ghost use Rattle.std.specs.Prelude.{◌≡◌, ◌≤◌, IfOk};
ghost use Rattle.project_run.specs.Calls.{Replies};
ghost use Rattle.command_answers.specs.Commands.Pull.{IsPullForm};
ghost use Rattle.command_answers.specs.Reply.{IsReplyOverScan};
ghost use Rattle.command_words.specs.declared.command.Command.TheVariants as commands;
ghost use Rattle.project_job.specs.Jobs.{AreCounted};

use cf_base::{Fail, Never, PathText};
use conform_job::Job;
use outcome::Outcome;
use printed_tables::pull_of;
use project_job::planned;
use scan_source::Scans;
use std::alloc::Global;

/// The pull list of the job of the project at a path, with a margin of 0 to 1000 frames, or the outcome that was reached.
pub fn pull<S: Scans>(
    alloc: Global,
    path: &PathText,
    margin: u32,
    scan: &mut S,
) -> Result<Vec<u8>, Outcome>
    requires { margin ≤ 1000 }
    ensures reply { Replies result (IsReplyOverScan (commands.Pull path.now margin) (S.state scan.old) (S.state scan.new)) }
    ensures same { (S.state scan.new).loans ≡ (S.state scan.old).loans }
{
    let job = match planned(alloc, path, scan) {
        Ok(job) => job,
        Err(outcome) => return Err(outcome),
    };
    let list = list_of(alloc, &job, margin);
    // By a call, as in `plan`.
    drop(job);
    match list {
        Ok(text) => Ok(text),
        Err(_) => Err(Outcome::NoMemory),
    }
}

/// The text of a job's pull list.
fn list_of(alloc: Global, job: &Job, margin: u32) -> Result<Vec<u8>, Fail<Never>>
    requires margin { margin ≤ 1000 }
    requires counted { AreCounted job.now.parts.project.rate job.now.parts.reels }
    ensures { IfOk result (λ text. IsPullForm margin job.now.parts text.items) }
{
    let list = match pull_list::pull(alloc, job, margin) {
        Ok(list) => list,
        Err(_) => return Err(Fail::NoMemory),
    };
    match pull_of(alloc, job, &list) {
        Ok(text) => Ok(text),
        Err(_) => Err(Fail::NoMemory),
    }
}
