//! The top call: a run with more than one worker by a crew, and all else on one thread.
ghost use Rattle.std.specs.Prelude.{◌≡◌, ◌≤◌, ℕ, List, true, length, drop, vec_len, Some, IfSome, AllPairs, map};
ghost use Rattle.command_words.specs.Commands.{HasCounts, Spells};
ghost use Rattle.frame_range.specs.Parts.{IsExtent};
ghost use Rattle.frame_range.specs.declared.range.Extent.{Extent};
ghost use Rattle.command_words.specs.Lines.{HasCount, texts_of};
ghost use Rattle.command_words.specs.declared.command.Command.TheVariants as commands;
ghost use Rattle.command_answers.specs.Answer.{Answered, IsFoundIn, IsUncalled};
ghost use Rattle.command_answers.specs.Leaving.{LeavesFolders, LeavesUncalled};
ghost use Rattle.conform_tool.specs.Conform.{AnsweredByCrew, IsAlone, IsFirst};
ghost use Rattle.conform_tool.specs.inside.Conform.{IsCrewOf};
ghost use Rattle.command_answers.specs.Complete.{HasNotRisen, IsAccepted, IsComplete, IsUnfailed};
ghost use Rattle.command_answers.specs.Adoption.{KeepsItAdopting};
ghost use Rattle.command_answers.specs.Headline.{HasEnded, KeepsHeadline};
ghost use Rattle.command_answers.specs.Reply.{CallsDisk, CallsOld};
ghost use Rattle.command_answers.specs.States.{folders_of, house_of};
ghost use Rattle.project_crew.specs.Crew.{HasFailed, told_by};
ghost use Rattle.reel_disk.specs.State.{folder_state};
ghost use Rattle.project_run.specs.Calls.{IsLeftAlone};
ghost use Rattle.scan_source.specs.World.{World};

use cf_base::{PathText, Sink, WORKERS};
use command_answers::{House, answer_found, parts_law, put_line, put_result};
use command_words::{Command, command_of};
use frame_hash::Hasher;
use frame_range::Extent;
use outcome::Outcome;
use project_crew::{CrewEnded, CrewSize, run_crewed};
use project_job::job_laws;
use reel_disk::Disk;
use reel_qc::{Counter, Forked, Probe, Tone};
use scan_source::Scans;
use std::alloc::Global;
use std::sync::Wait;
use std::thread::Threads;

/// What a call comes to, with what it was handed.
pub struct Ended<S, D> {
    pub outcome: Outcome,
    /// The scans, the k-th as the k-th.
    pub scans: Vec<S>,
    pub disk: D,
}

/// Does the command that the words spell. It takes 1 to 16 scans that all tell one world or tell none, a disk before its first
/// call, and the disk of an old reel, which is only read; a run with more than one worker is a crew's, with all scans, and all
/// else goes to the first scan alone. It hands all scans back in their order, and the disk. A run keeps the headline's promise,
/// as far as it goes,
/// by any number of workers, wherever it is stopped and whatever it answers, and so does an adoption of frames that are the old
/// project's.
pub fn conform<S: Scans + Send, D: Disk + Send, K: Sink, R: Threads + Wait + Sync>(
    rt: &R,
    alloc: Global,
    words: &[&str],
    scans: Vec<S>,
    disk: D,
    old: &mut D,
    out: &mut K,
    probes: &[Probe],
    tone: &Tone,
) -> Ended<S, D>
    requires some { 1 ≤ vec_len scans }
    requires few { vec_len scans ≤ WORKERS }
    requires few_probes { length probes.now ≤ WORKERS }
    requires one_world { AllPairs (λ a b. (S.state a).world ≡ (S.state b).world) scans.items }
    requires no_fault { (D.state disk).faults ≡ 0 }
    requires first_moment { D.tells ≡ true → (D.state disk).history.now ≡ 0 }

    // A run with several workers.
    ensures crew { (path : List ℕ) (extent : Extent) (workers share : ℕ)
        → Spells (texts_of words.now) (commands.Run path extent workers share)
        → 2 ≤ workers
        → AnsweredByCrew S.state path extent workers share scans.items result.scans.items
        (folder_state D.tells (D.state disk)) (folder_state D.tells (D.state result.disk))
        (K.state out.old) (K.state out.new) result.outcome }

    // All else, with the first scan.
    ensures answered { IsAlone (texts_of words.now) → (first last : S) → IsFirst scans.items first → IsFirst result.scans.items last
        → Answered (house_of (map (λ p. p.kind) probes.now) tone.now.table) (texts_of words.now)
        (S.state first) (S.state last)
        (folders_of D.tells (D.state disk) (D.state old.old)) (folders_of D.tells (D.state result.disk) (D.state old.new))
        (K.state out.old) (K.state out.new) result.outcome }
    ensures others { IsAlone (texts_of words.now) → drop 1 result.scans.items ≡ drop 1 scans.items }
    ensures same { IsAlone (texts_of words.now) → (first last : S) → IsFirst scans.items first → IsFirst result.scans.items last
        → (S.state last).loans ≡ (S.state first).loans }

    ensures handed_back { vec_len result.scans ≡ vec_len scans }
    ensures later { (K.state out.old).faults ≤ (K.state out.new).faults }
    ensures old_folder { (path : List ℕ) (extent : Extent) (workers share : ℕ)
        → Spells (texts_of words.now) (commands.Run path extent workers share)
        → 2 ≤ workers → old.new ≡ old.old }

    // What is left alone is the very disk.
    ensures untouched { IsLeftAlone disk result.disk result.outcome }
    ensures old_untouched { IsLeftAlone old.old old.new result.outcome }
    ensures no_call { IsUncalled CallsDisk (texts_of words.now) → result.disk ≡ disk }
    ensures no_old_call { IsUncalled CallsOld (texts_of words.now) → old.new ≡ old.old }
    ensures disk_same { (D.state result.disk).loans ≡ (D.state disk).loans }
    ensures old_same { (D.state old.new).loans ≡ (D.state old.old).loans }

    // The headline, for any number of workers.
    ensures headline { KeepsHeadline (texts_of words.now) (told_by S.state scans.items) D.tells
        (D.state disk).history (D.state result.disk).history (HasEnded result.outcome) }

    // The same of an adoption, whose old folder is sound.
    ensures adopted { KeepsItAdopting (texts_of words.now) (told_by S.state scans.items) D.tells
        (D.state old.old).history (D.state disk).history (D.state result.disk).history (HasEnded result.outcome) }

    // Where nothing stands in the way of the command and no call failed, it is done, or memory ran out.
    ensures complete { (command : Command) (world : World) → Spells (texts_of words.now) command
        → told_by S.state scans.items ≡ Some world
        → IsAccepted command world (folders_of D.tells (D.state disk) (D.state old.old))
        → (HasFailed S.state scans.items result.scans.items → ⊥)
        → HasNotRisen (D.state disk).faults (D.state result.disk).faults
        → HasNotRisen (D.state old.old).faults (D.state old.new).faults → HasNotRisen (K.state out.old).faults (K.state out.new).faults
        → IsComplete command result.outcome }
    ensures unfailed { (command : Command) → Spells (texts_of words.now) command
        → (HasFailed S.state scans.items result.scans.items → ⊥)
        → HasNotRisen (D.state disk).faults (D.state result.disk).faults
        → HasNotRisen (D.state old.old).faults (D.state old.new).faults → HasNotRisen (K.state out.old).faults (K.state out.new).faults
        → IsUnfailed command result.outcome }
{
    job_laws();
    parts_law();
    let Ok(found) = command_of(alloc, words) else {
        let outcome = put_line(alloc, &Outcome::NoMemory, out);
        return Ended {
            outcome,
            scans,
            disk,
        };
    };
    match crew_of(&found) {
        Some(crew) => by_crew(rt, alloc, &crew, scans, disk, out),
        None => {
            let counter = Forked::new(rt);
            let house = House {
                counter: &counter,
                probes,
                tone,
            };
            by_one(alloc, &house, found, scans, disk, old, out)
        }
    }
}

/// A run with several workers: its project, which frames, their number, and how many source frames they share.
#[derive(Drop)]
struct CrewRun {
    project: PathText,
    extent: Extent,
    size: CrewSize,
}

/// The run with several workers that a command is, None exactly where it is none.
fn crew_of(found: &Option<Command>) -> Option<CrewRun>
    ensures { IsCrewOf found.now result }
{
    match *found {
        Some(
            Command::Run {
                project,
                extent,
                workers,
                share,
            },
        ) => {
            if workers < 2 {
                return None;
            }
            Some(CrewRun {
                project,
                extent,
                size: CrewSize { workers, share },
            })
        }
        _ => None,
    }
}

/// A run by a crew, whose report or line is put.
fn by_crew<S: Scans + Send, D: Disk + Send, K: Sink, R: Threads + Wait + Sync>(
    rt: &R,
    alloc: Global,
    crew: &CrewRun,
    scans: Vec<S>,
    disk: D,
    out: &mut K,
) -> Ended<S, D>
    requires extent { IsExtent crew.now.extent }
    requires workers { HasCount crew.now.size.workers }
    requires share { HasCount crew.now.size.share }
    requires scans { (1 ≤ vec_len scans) × (vec_len scans ≤ WORKERS) }
    requires one_world { AllPairs (λ a b. (S.state a).world ≡ (S.state b).world) scans.items }
    requires no_fault { (D.state disk).faults ≡ 0 }
    requires first_moment { D.tells ≡ true → (D.state disk).history.now ≡ 0 }
    ensures crew { AnsweredByCrew S.state crew.now.project crew.now.extent crew.now.size.workers crew.now.size.share
        scans.items result.scans.items
        (folder_state D.tells (D.state disk)) (folder_state D.tells (D.state result.disk))
        (K.state out.old) (K.state out.new) result.outcome }
    ensures handed_back { vec_len result.scans ≡ vec_len scans }
    ensures later { (K.state out.old).faults ≤ (K.state out.new).faults }
    ensures untouched { IsLeftAlone disk result.disk result.outcome }
    ensures disk_same { (D.state result.disk).loans ≡ (D.state disk).loans }
{
    let CrewEnded {
        result,
        scans,
        disk,
    } = run_crewed(
        rt,
        alloc,
        &crew.project,
        crew.extent,
        crew.size,
        scans,
        disk,
    );
    let outcome = put_result(alloc, &result, out);
    Ended {
        outcome,
        scans,
        disk,
    }
}

/// A command with the first scan.
fn by_one<S: Scans, D: Disk, K: Sink, C: Counter + Hasher>(
    alloc: Global,
    house: &House<C>,
    found: Option<Command>,
    mut scans: Vec<S>,
    mut disk: D,
    old: &mut D,
    out: &mut K,
) -> Ended<S, D>
    requires ready { C.ready }
    requires can_hash { C.can_hash }
    requires some { 1 ≤ vec_len scans }
    requires counts { IfSome found HasCounts }
    ensures answered { (words : List (List ℕ)) → IsFoundIn words found
        → (first last : S) → IsFirst scans.items first → IsFirst result.scans.items last
        → Answered (house_of (map (λ p. p.kind) house.now.probes.now) house.now.tone.now.table) words
        (S.state first) (S.state last)
        (folders_of D.tells (D.state disk) (D.state old.old)) (folders_of D.tells (D.state result.disk) (D.state old.new))
        (K.state out.old) (K.state out.new) result.outcome }
    ensures others { drop 1 result.scans.items ≡ drop 1 scans.items }
    ensures handed_back { vec_len result.scans ≡ vec_len scans }
    ensures same { (first last : S) → IsFirst scans.items first → IsFirst result.scans.items last
        → (S.state last).loans ≡ (S.state first).loans }
    ensures later { (K.state out.old).faults ≤ (K.state out.new).faults }
    ensures folders { LeavesFolders D.state result.outcome disk result.disk old.old old.new }
    ensures uncalled { (words : List (List ℕ)) → IsFoundIn words found → LeavesUncalled words disk result.disk old.old old.new }
{
    let outcome = answer_found(alloc, house, found, &mut scans[0], &mut disk, old, out);
    Ended {
        outcome,
        scans,
        disk,
    }
}
