//! A command on one thread, and what is put for it.
ghost use Rattle.std.specs.Prelude.{◌≡◌, ◌≤◌, ℕ, List, length, Some, IfSome, IfErr, map};
ghost use Rattle.scan_source.specs.World.{World};
ghost use Rattle.command_answers.specs.Answer.{Answered, IsFoundIn, IsLinePut, IsPut, IsUncalled, IsResultPut};
ghost use Rattle.command_answers.specs.Leaving.{LeavesFolders, LeavesUncalled};
ghost use Rattle.command_answers.specs.Complete.{HasNotRisen, IsAccepted, IsComplete, IsUnfailed};
ghost use Rattle.command_answers.specs.Adoption.{KeepsItAdopting};
ghost use Rattle.command_answers.specs.Headline.{HasEnded, KeepsHeadline};
ghost use Rattle.command_answers.specs.Reply.{CallsDisk, CallsOld, IsReplyOverFolders};
ghost use Rattle.command_answers.specs.States.{folders_of, house_of};
ghost use Rattle.command_words.specs.Commands.{HasCounts, IsNoCommand, Spells};
ghost use Rattle.project_run.specs.Calls.{IsLeftAlone, Replies};
ghost use Rattle.command_words.specs.Lines.{texts_of};

use crate::frame::frame;
use crate::house::House;
use crate::list::list;
use crate::plan::plan;
use crate::pull::pull;
use cf_base::{PROBES, Put, Sink};
use command_words::{Command, command_of};
use demo::demo;
use frame_hash::Hasher;
use outcome::Outcome;
use printed_lines::{made_line, plain_line};
use project_adopt::adopt;
use project_job::job_laws;
use project_run::{qc, run, sheet, status, sums, verify};
use reel_disk::Disk;
use reel_qc::{Counter, OneThread, Probe, Tone};
use scan_source::Scans;
use std::alloc::Global;

/// Does the command that the words spell, on one thread, and puts its output or its line. `run` renders into the disk,
/// `status`, `verify` and `qc` look at it, and `sheet` writes its sheet there; `adopt` takes over frames of the old disk, which
/// is only read, and runs the rest. No other command makes a call on a disk. Words of no command come to `Usage`, and words for
/// which no memory is left to `NoMemory`, before anything is read. A run keeps the headline's promise, wherever it is stopped and
/// whatever it answers, and so does an adoption of frames that are the old project's.
pub fn answer<S: Scans, D: Disk, K: Sink>(
    alloc: Global,
    words: &[&str],
    scan: &mut S,
    disk: &mut D,
    old: &mut D,
    out: &mut K,
    probes: &[Probe],
    tone: &Tone,
) -> Outcome
    requires few { length probes.now ≤ PROBES }
    ensures answered { Answered (house_of (map (λ p. p.kind) probes.now) tone.now.table) (texts_of words.now)
        (S.state scan.old) (S.state scan.new)
        (folders_of D.tells (D.state disk.old) (D.state old.old)) (folders_of D.tells (D.state disk.new) (D.state old.new))
        (K.state out.old) (K.state out.new) result }
    ensures later { (K.state out.old).faults ≤ (K.state out.new).faults }
    ensures same { (S.state scan.new).loans ≡ (S.state scan.old).loans }

    // What is left alone is the very disk, or the very scan.
    ensures untouched { IsLeftAlone disk.old disk.new result }
    ensures old_untouched { IsLeftAlone old.old old.new result }
    ensures no_call { IsUncalled CallsDisk (texts_of words.now) → disk.new ≡ disk.old }
    ensures no_old_call { IsUncalled CallsOld (texts_of words.now) → old.new ≡ old.old }
    ensures unread { IsNoCommand (texts_of words.now) → scan.new ≡ scan.old }
    ensures disk_same { (D.state disk.new).loans ≡ (D.state disk.old).loans }
    ensures old_same { (D.state old.new).loans ≡ (D.state old.old).loans }

    // The headline.
    ensures headline { KeepsHeadline (texts_of words.now) (S.state scan.old).world D.tells
        (D.state disk.old).history (D.state disk.new).history (HasEnded result) }
    ensures adopted { KeepsItAdopting (texts_of words.now) (S.state scan.old).world D.tells
        (D.state old.old).history (D.state disk.old).history (D.state disk.new).history (HasEnded result) }

    // Where nothing stands in the way of the command and no call failed, it is done, or memory ran out.
    ensures complete { (command : Command) (world : World) → Spells (texts_of words.now) command → (S.state scan.old).world ≡ Some world
        → IsAccepted command world (folders_of D.tells (D.state disk.old) (D.state old.old))
        → HasNotRisen (S.state scan.old).faults (S.state scan.new).faults → HasNotRisen (D.state disk.old).faults (D.state disk.new).faults
        → HasNotRisen (D.state old.old).faults (D.state old.new).faults → HasNotRisen (K.state out.old).faults (K.state out.new).faults
        → IsComplete command result }
    ensures unfailed { (command : Command) → Spells (texts_of words.now) command
        → HasNotRisen (S.state scan.old).faults (S.state scan.new).faults → HasNotRisen (D.state disk.old).faults (D.state disk.new).faults
        → HasNotRisen (D.state old.old).faults (D.state old.new).faults → HasNotRisen (K.state out.old).faults (K.state out.new).faults
        → IsUnfailed command result }
{
    job_laws();
    let Ok(found) = command_of(alloc, words) else {
        return put_line(alloc, &Outcome::NoMemory, out);
    };
    let counter = OneThread;
    let house = House {
        counter: &counter,
        probes,
        tone,
    };
    answer_found(alloc, &house, found, scan, disk, old, out)
}

/// Does the command that was found in some words, on one thread but for counts and digests, and puts its output or its line.
pub fn answer_found<S: Scans, D: Disk, K: Sink, C: Counter + Hasher>(
    alloc: Global,
    house: &House<C>,
    found: Option<Command>,
    scan: &mut S,
    disk: &mut D,
    old: &mut D,
    out: &mut K,
) -> Outcome
    requires ready { C.ready }
    requires can_hash { C.can_hash }
    requires counts { IfSome found HasCounts }
    ensures answered { (words : List (List ℕ)) → IsFoundIn words found
        → Answered (house_of (map (λ p. p.kind) house.now.probes.now) house.now.tone.now.table) words
        (S.state scan.old) (S.state scan.new)
        (folders_of D.tells (D.state disk.old) (D.state old.old)) (folders_of D.tells (D.state disk.new) (D.state old.new))
        (K.state out.old) (K.state out.new) result }
    ensures later { (K.state out.old).faults ≤ (K.state out.new).faults }
    ensures same { (S.state scan.new).loans ≡ (S.state scan.old).loans }
    ensures folders { LeavesFolders D.state result disk.old disk.new old.old old.new }
    ensures uncalled { (words : List (List ℕ)) → IsFoundIn words found → LeavesUncalled words disk.old disk.new old.old old.new }
    ensures unread { (words : List (List ℕ)) → IsFoundIn words found → IsNoCommand words → scan.new ≡ scan.old }
{
    let Some(command) = found else {
        return put_line(alloc, &Outcome::Usage, out);
    };
    match carried_out(alloc, house, &command, scan, disk, old) {
        Ok(output) => put(&output, &Outcome::Done, out),
        Err(outcome) => put_line(alloc, &outcome, out),
    }
}

/// The output of a command, or the outcome that was reached in its place. A run is on one thread, however many workers the
/// command has.
fn carried_out<S: Scans, D: Disk, C: Counter + Hasher>(
    alloc: Global,
    house: &House<C>,
    command: &Command,
    scan: &mut S,
    disk: &mut D,
    old: &mut D,
) -> Result<Vec<u8>, Outcome>
    requires ready { C.ready }
    requires can_hash { C.can_hash }
    requires counts { HasCounts command.now }
    ensures reply { Replies result (IsReplyOverFolders
        (house_of (map (λ p. p.kind) house.now.probes.now) house.now.tone.now.table) command.now
        (S.state scan.old) (S.state scan.new)
        (folders_of D.tells (D.state disk.old) (D.state old.old)) (folders_of D.tells (D.state disk.new) (D.state old.new))) }
    ensures same { (S.state scan.new).loans ≡ (S.state scan.old).loans }
    ensures untouched { IfErr result (IsLeftAlone disk.old disk.new) }
    ensures old_untouched { IfErr result (IsLeftAlone old.old old.new) }
    ensures no_call { (CallsDisk command.now → ⊥) → disk.new ≡ disk.old }
    ensures no_old_call { (CallsOld command.now → ⊥) → old.new ≡ old.old }
    ensures disk_same { (D.state disk.new).loans ≡ (D.state disk.old).loans }
    ensures old_same { (D.state old.new).loans ≡ (D.state old.old).loans }
{
    match command {
        Command::Frame(path) => frame(alloc, path, scan),
        Command::List(path, rate) => list(alloc, path, *rate, scan),
        Command::Plan(path) => plan(alloc, path, scan),
        Command::Run {
            project,
            extent,
            share,
            ..
        } => run(alloc, project, *extent, *share, scan, disk),
        Command::Status(project) => status(alloc, project, scan, disk),
        Command::Verify(project) => verify(alloc, project, scan, disk, house.counter),
        Command::Sums(project) => sums(alloc, project, scan, disk),
        Command::Qc(project) => qc(alloc, house.counter, project, scan, disk, house.probes),
        Command::Sheet(project) => sheet(alloc, project, scan, disk, house.tone),
        Command::Adopt {
            project,
            old: old_project,
        } => adopt(alloc, project, old_project, scan, disk, old, house.counter),
        Command::Pull { project, margin } => pull(alloc, project, *margin, scan),
        Command::Demo(count) => demo(alloc, *count),
    }
}

/// Puts the output that a command came to, or the line of its outcome.
pub fn put_result<K: Sink>(
    alloc: Global,
    reached: &Result<Vec<u8>, Outcome>,
    out: &mut K,
) -> Outcome
    ensures put { IsResultPut (K.state out.old) (K.state out.new) reached.now result }
    ensures later { (K.state out.old).faults ≤ (K.state out.new).faults }
{
    match reached {
        Ok(output) => put(output, &Outcome::Done, out),
        Err(outcome) => put_line(alloc, outcome, out),
    }
}

/// Puts the line of an outcome. One whose line is made and finds no memory becomes NoMemory.
pub fn put_line<K: Sink>(alloc: Global, outcome: &Outcome, out: &mut K) -> Outcome
    ensures put { IsLinePut (K.state out.old) (K.state out.new) outcome.now result }
    ensures later { (K.state out.old).faults ≤ (K.state out.new).faults }
{
    match made_line(alloc, outcome) {
        None => put(plain_line(outcome).as_bytes(), outcome, out),
        Some(Ok(line)) => put(&line, outcome, out),
        Some(Err(_)) => put(
            plain_line(&Outcome::NoMemory).as_bytes(),
            &Outcome::NoMemory,
            out,
        ),
    }
}

/// Puts the output of an outcome, in one piece.
fn put<K: Sink>(output: &[u8], reached: &Outcome, out: &mut K) -> Outcome
    ensures put { IsPut (K.state out.old) (K.state out.new) reached.now output.now result }
    ensures later { (K.state out.old).faults ≤ (K.state out.new).faults }
{
    match out.put(output) {
        Put::All => *reached,
        Put::Failed => Outcome::SinkFault {
            instead: reached.status(),
        },
    }
}
