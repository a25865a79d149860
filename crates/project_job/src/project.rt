//! The job of a project: its texts are read in their order, and the job is planned.
ghost use Rattle.std.specs.Prelude.{◌≡◌, ◌≢◌, ◌+◌, [], length, Err, Option, IfSome, IfOk, IfErr};
ghost use Rattle.cf_base.specs.Events.{IsWellMade};
ghost use Rattle.scan_source.specs.World.{file_at};
ghost use Rattle.project_file.specs.Projects.{IsInRange};
ghost use Rattle.record_timeline.specs.Accepted.{timeline_of};
ghost use Rattle.source_reels.specs.Reels.{table_of};
ghost use Rattle.conform_job.specs.Answers.{count_after, Grows, HeadsGrow};
ghost use Rattle.conform_job.specs.Asks.{asks_of};
ghost use Rattle.conform_job.specs.Infos.{HasEachOnce};
ghost use Rattle.conform_job.specs.Job.{ArePlanned};
ghost use Rattle.project_job.specs.Asked.{HasInspectedFor, HasLoadedFor};
ghost use Rattle.project_job.specs.inside.Asked.{ComesBehind, HasLoadedBehind, IsOfTexts};
ghost use Rattle.project_job.specs.Jobs.{list_in, cube_in, look_in, look_of_text, parts_from, HasPlanned, unless_refused, IsOfJob, cube_count, AreCounted, AreLoaded};
ghost use Rattle.project_job.specs.Texts.{ByFiles, IsByTexts};
ghost use Rattle.project_job.specs.inside.Jobs.{itself, list_and_text, look_and_text, outcome_of_fault, Reaches, MeansFile};
ghost use Rattle.scan_source.specs.State.{LeavesScan};
ghost use Rattle.outcome.specs.declared.Refused.TheVariants as refused;

use crate::loads::load;
use cf_base::{CUBE_BYTES, EventList, Fail, LIST_BYTES, PROJECT_BYTES, PathText, Rate};
use conform_job::{Job, JobFault, JobParts, job_digest};
use cube_reader::read_cube;
use edl_events::read_list;
use outcome::{Outcome, Refused, Which};
use project_file::{Project, read_project};
use record_timeline::Timeline;
use scan_source::Scans;
use source_reels::ReelTable;
use std::alloc::Global;
use tetra_look::Look;

/// One byte more than the longest project has.
const MOST_PROJECT: u64 = PROJECT_BYTES as u64 + 1;

/// One byte more than the longest list has.
pub const MOST_LIST: u64 = LIST_BYTES as u64 + 1;

/// One byte more than the longest cube has.
const MOST_CUBE: u64 = CUBE_BYTES as u64 + 1;

/// A project and its text.
#[derive(Drop)]
struct ProjectText {
    text: Vec<u8>,
    project: Project,
}

/// An edit list and its text.
#[derive(Drop)]
struct ListText {
    text: Vec<u8>,
    list: EventList,
}

/// A look, and the text of its cube if there is one.
#[derive(Drop)]
struct LookText {
    text: Option<Vec<u8>>,
    look: Look,
}

/// The job of the project at a path, or what was reached in its place.
pub fn planned<S: Scans>(alloc: Global, path: &PathText, scan: &mut S) -> Result<Job, Outcome>
    ensures told { IfSome (S.state scan.old).world (λ world. HasPlanned (file_at world) path.now result) }
    ensures read { ByFiles (S.state scan.old).world (λ files. IsByTexts files path.now result) }
    ensures kind { IfErr result IsOfJob }
    ensures job { IfOk result (λ job. Grows job.parts (S.state scan.old).world (asks_of job.parts.timeline) [] job.infos) }
    ensures once { IfOk result (λ job. HasEachOnce job.infos) }
    ensures heads { IfOk result (λ job. HeadsGrow (S.state scan.old).heads (S.state scan.new).heads 0 (length job.infos)) }
    ensures counted { IfOk result (λ job. AreCounted job.parts.project.rate job.parts.reels) }

    ensures scan { LeavesScan (result ≡ Err Outcome.SourceFault) (S.state scan.old) (S.state scan.new) }
    ensures loads { AreLoaded 1 3 (S.state scan.old).loads (S.state scan.new).loads }
    ensures refused { IfErr result (HasLoadedFor (S.state scan.old).world path.now (S.state scan.old).loads (S.state scan.new).loads) }
    ensures refused_heads { IfErr result
        (HasInspectedFor (S.state scan.old).world path.now (S.state scan.old).heads (S.state scan.new).heads) }
    ensures loaded { IfOk result
        (λ job. (S.state scan.new).loads ≡ count_after (2 + cube_count job.parts.project.cube) (S.state scan.old).loads) }
{
    let ProjectText { text, project } = match project_in(alloc, path, scan) {
        Ok(read) => read,
        Err(outcome) => return Err(outcome),
    };
    let parts = match parts_of(alloc, &text, project, scan) {
        Ok(parts) => parts,
        Err(outcome) => return Err(outcome),
    };
    match Job::plan(alloc, parts, scan) {
        Ok(job) => Ok(job),
        Err(fault) => Err(refused_job(fault)),
    }
}

/// What a job's refusal comes to.
fn refused_job(fault: JobFault) -> Outcome
    ensures { result ≡ outcome_of_fault fault }
{
    match fault {
        JobFault::SourceFault => Outcome::SourceFault,
        JobFault::NoMemory => Outcome::NoMemory,
        _ => Outcome::Refused(Refused::Job(fault)),
    }
}

/// The project at a path.
fn project_in<S: Scans>(
    alloc: Global,
    path: &PathText,
    scan: &mut S,
) -> Result<ProjectText, Outcome>
    ensures read { ByFiles (S.state scan.old).world (λ files. MeansFile (files.project path.now) result) }
    ensures kind { IfErr result IsOfJob }
    ensures stage { IfErr result (ComesBehind 1) }
    ensures range { IfOk result (λ read. IsInRange read.project) }
    ensures counted { IfOk result (λ read. AreCounted read.project.rate read.project.reels) }

    ensures scan { LeavesScan (result ≡ Err Outcome.SourceFault) (S.state scan.old) (S.state scan.new) }
    ensures loads { (S.state scan.new).loads ≡ count_after 1 (S.state scan.old).loads }
    ensures heads { (S.state scan.new).heads ≡ (S.state scan.old).heads }
{
    let front = match load(alloc, path, MOST_PROJECT, Which::Project, scan) {
        Ok(front) => front,
        Err(outcome) => return Err(outcome),
    };
    match read_project(alloc, &front.bytes) {
        Ok(project) => Ok(ProjectText {
            text: front.bytes,
            project,
        }),
        Err(Fail::Fault(fault)) => Err(Outcome::Refused(Refused::Project(fault))),
        Err(Fail::NoMemory) => Err(Outcome::NoMemory),
    }
}

/// The parts of the job of a project with this text.
fn parts_of<S: Scans>(
    alloc: Global,
    text: &[u8],
    project: Project,
    scan: &mut S,
) -> Result<JobParts, Outcome>
    requires { IsInRange project }
    ensures read { ByFiles (S.state scan.old).world (λ files. Reaches itself result (parts_from files text.now project)) }
    ensures kind { IfErr result IsOfJob }
    ensures planned { IfOk result ArePlanned }
    ensures project { IfOk result (λ parts. parts.project ≡ project) }

    ensures scan { LeavesScan (result ≡ Err Outcome.SourceFault) (S.state scan.old) (S.state scan.new) }
    ensures loads { AreLoaded 0 2 (S.state scan.old).loads (S.state scan.new).loads }
    ensures refused { IfErr result (HasLoadedBehind project.cube (S.state scan.old).loads (S.state scan.new).loads) }
    ensures texts { IfErr result IsOfTexts }
    ensures loaded { IfOk result
        (λ parts. (S.state scan.new).loads ≡ count_after (1 + cube_count parts.project.cube) (S.state scan.old).loads) }
    ensures heads { (S.state scan.new).heads ≡ (S.state scan.old).heads }
{
    let reels = match reels_of(alloc, &project) {
        Ok(reels) => reels,
        Err(outcome) => return Err(outcome),
    };
    let ListText { text: edl, list } = match list_in(alloc, project.rate, &project.edl, scan) {
        Ok(read) => read,
        Err(outcome) => return Err(outcome),
    };
    let timeline = match timeline_of(alloc, project.rate, list) {
        Ok(timeline) => timeline,
        Err(outcome) => return Err(outcome),
    };
    let LookText { text: cube, look } = match look_in(alloc, &project.cube, scan) {
        Ok(read) => read,
        Err(outcome) => return Err(outcome),
    };
    Ok(JobParts {
        digest: job_digest(text, &edl, cube.as_deref()),
        project,
        reels,
        timeline,
        look,
    })
}

/// The table of a project's reels.
fn reels_of(alloc: Global, project: &Project) -> Result<ReelTable, Outcome>
    requires { IsInRange project.now }
    ensures table { Reaches itself result (unless_refused refused.Reels (table_of project.now.reels)) }
    ensures entries { IfOk result (λ table. table ≡ project.now.reels) }
    ensures kind { IfErr result IsOfJob }
    ensures stage { IfErr result (ComesBehind 1) }
    ensures not_the_scan { result ≢ Err Outcome.SourceFault }
{
    let Ok(entries) = project.reels.copy(alloc) else {
        return Err(Outcome::NoMemory);
    };
    match ReelTable::of(alloc, entries) {
        Ok(table) => Ok(table),
        Err(Fail::Fault(fault)) => Err(Outcome::Refused(Refused::Reels(fault))),
        Err(Fail::NoMemory) => Err(Outcome::NoMemory),
    }
}

/// The edit list at a path.
fn list_in<S: Scans>(
    alloc: Global,
    rate: Rate,
    path: &PathText,
    scan: &mut S,
) -> Result<ListText, Outcome>
    ensures read { ByFiles (S.state scan.old).world (λ files. Reaches list_and_text result (list_in rate (files.list path.now))) }
    ensures kind { IfErr result IsOfJob }
    ensures stage { IfErr result (ComesBehind 2) }
    ensures made { IfOk result (λ read. IsWellMade rate read.list.mode read.list.events) }

    ensures scan { LeavesScan (result ≡ Err Outcome.SourceFault) (S.state scan.old) (S.state scan.new) }
    ensures loads { (S.state scan.new).loads ≡ count_after 1 (S.state scan.old).loads }
    ensures heads { (S.state scan.new).heads ≡ (S.state scan.old).heads }
{
    let front = match load(alloc, path, MOST_LIST, Which::List, scan) {
        Ok(front) => front,
        Err(outcome) => return Err(outcome),
    };
    match read_list(alloc, rate, &front.bytes) {
        Ok(list) => Ok(ListText {
            text: front.bytes,
            list,
        }),
        Err(Fail::Fault(refusal)) => Err(Outcome::Refused(Refused::List(refusal))),
        Err(Fail::NoMemory) => Err(Outcome::NoMemory),
    }
}

/// The timeline of a list.
fn timeline_of(alloc: Global, rate: Rate, list: EventList) -> Result<Timeline, Outcome>
    requires { IsWellMade rate list.mode list.events }
    ensures timeline { Reaches itself result (unless_refused refused.Timeline (timeline_of rate list)) }
    ensures rate { IfOk result (λ timeline. timeline.rate ≡ rate) }
    ensures kind { IfErr result IsOfJob }
    ensures stage { IfErr result (ComesBehind 2) }
    ensures not_the_scan { result ≢ Err Outcome.SourceFault }
{
    match Timeline::build(alloc, rate, list) {
        Ok(timeline) => Ok(timeline),
        Err(Fail::Fault(fault)) => Err(Outcome::Refused(Refused::Timeline(fault))),
        Err(Fail::NoMemory) => Err(Outcome::NoMemory),
    }
}

/// The look of the cube that a project names, if it names one.
fn look_in<S: Scans>(
    alloc: Global,
    named: &Option<PathText>,
    scan: &mut S,
) -> Result<LookText, Outcome>
    ensures read { ByFiles (S.state scan.old).world (λ files. Reaches look_and_text result (look_in files.cube named.now)) }
    ensures kind { IfErr result IsOfJob }
    ensures stage { IfErr result (ComesBehind 3) }
    ensures named { IfErr result (λ _. cube_count named.now ≡ 1) }

    ensures scan { LeavesScan (result ≡ Err Outcome.SourceFault) (S.state scan.old) (S.state scan.new) }
    ensures loads { (S.state scan.new).loads ≡ count_after (cube_count named.now) (S.state scan.old).loads }
    ensures heads { (S.state scan.new).heads ≡ (S.state scan.old).heads }
{
    match named {
        Some(path) => cube_in(alloc, path, scan),
        None => Ok(LookText {
            text: None,
            look: Look::none(),
        }),
    }
}

/// The look of the cube at a path.
fn cube_in<S: Scans>(alloc: Global, path: &PathText, scan: &mut S) -> Result<LookText, Outcome>
    ensures read { ByFiles (S.state scan.old).world (λ files. Reaches look_and_text result (cube_in (files.cube path.now))) }
    ensures kind { IfErr result IsOfJob }
    ensures stage { IfErr result (ComesBehind 3) }

    ensures scan { LeavesScan (result ≡ Err Outcome.SourceFault) (S.state scan.old) (S.state scan.new) }
    ensures loads { (S.state scan.new).loads ≡ count_after 1 (S.state scan.old).loads }
    ensures heads { (S.state scan.new).heads ≡ (S.state scan.old).heads }
{
    let front = match load(alloc, path, MOST_CUBE, Which::Cube, scan) {
        Ok(front) => front,
        Err(outcome) => return Err(outcome),
    };
    match look_of(alloc, &front.bytes) {
        Ok(look) => Ok(LookText {
            text: Some(front.bytes),
            look,
        }),
        Err(outcome) => Err(outcome),
    }
}

/// The look of a cube's text.
fn look_of(alloc: Global, text: &[u8]) -> Result<Look, Outcome>
    ensures look { Reaches itself result (look_of_text text.now) }
    ensures kind { IfErr result IsOfJob }
    ensures stage { IfErr result (ComesBehind 3) }
    ensures not_the_scan { result ≢ Err Outcome.SourceFault }
{
    let cube = match read_cube(alloc, text) {
        Ok(cube) => cube,
        Err(Fail::Fault(fault)) => return Err(Outcome::Refused(Refused::Cube(fault))),
        Err(Fail::NoMemory) => return Err(Outcome::NoMemory),
    };
    match Look::of(alloc, cube) {
        Ok(look) => Ok(look),
        Err(_) => Err(Outcome::NoMemory),
    }
}
