//! The plan of a frame.
ghost use Rattle.std.specs.Prelude.{◌≡◌, ◌↔◌, ◌<◌, true, Some, IfSome};
ghost use Rattle.std.specs.Option.{option_map};
ghost use Rattle.conform_job.specs.Job.{IsNeeded};
ghost use Rattle.reel_writer.specs.Reel.{frames_of};
ghost use Rattle.reconform.specs.Laws.{EqualPlansLookAlike, HasTitle};
ghost use Rattle.reconform.specs.Plan.{AreAlike, key_path, one_by, plan_at, side_by, two_by};

use cf_base::{Key, PathText, Rgb, Transition};
use conform_job::Job;
use dpx_header::FrameInfo;
use record_timeline::Shot;

/// A side of a frame.
#[derive(Clone, Copy, PartialEq, Eq, PartialOrd, Ord)]
pub enum PlanSide {
    /// Black, or a gap.
    Black,
    /// The source frame of this file.
    Frame(PathText),
}

/// What a frame shows.
#[derive(Clone, Copy, PartialEq, Eq, PartialOrd, Ord)]
pub enum FramePlan {
    /// Black alone: a gap, or one side that is black.
    Solid,
    /// One source frame, of this file.
    One(PathText),
    /// Frame `k`, from 0, of a transition of `d` frames from the old side to the new one: the wipe of that code, or else a
    /// dissolve.
    Two {
        old: PlanSide,
        new: PlanSide,
        wipe: Option<u16>,
        k: u32,
        d: u32,
    },
}

/// Frames of one plan in alike jobs with one look over one world have equal bytes from 2048 on.
pub fn plan_laws()
    ensures { EqualPlansLookAlike }
{}

/// Whether two jobs are alike: their size, their black and the path of their cube are equal.
pub fn are_alike(a: &Job, b: &Job) -> bool
    ensures alike { (result ≡ true) ↔ AreAlike a.now b.now }
    ensures titles { HasTitle a.now × HasTitle b.now }
{
    a.recall();
    b.recall();
    same_size(a, b) && same_colours(a, b)
}

/// Whether two jobs have one size.
fn same_size(a: &Job, b: &Job) -> bool
    ensures { (result ≡ true) ↔ ((a.now.parts.project.width ≡ b.now.parts.project.width)
        × (a.now.parts.project.height ≡ b.now.parts.project.height)) }
{
    a.width() == b.width() && a.height() == b.height()
}

/// Whether two jobs have one black, and one path of a cube.
fn same_colours(a: &Job, b: &Job) -> bool
    ensures { (result ≡ true) ↔ ((a.now.parts.project.black ≡ b.now.parts.project.black)
        × (a.now.parts.project.cube ≡ b.now.parts.project.cube)) }
{
    same_black(a.project().black, b.project().black)
        && same_cube(a.project().cube, b.project().cube)
}

/// Whether two blacks are equal.
fn same_black(a: Rgb, b: Rgb) -> bool
    ensures { (result ≡ true) ↔ (a ≡ b) }
{
    a == b
}

/// Whether two paths of cubes are equal, or neither job has a cube.
fn same_cube(a: Option<PathText>, b: Option<PathText>) -> bool
    ensures { (result ≡ true) ↔ (a ≡ b) }
{
    match (a, b) {
        (Some(a), Some(b)) => a.bytes() == b.bytes(),
        (None, None) => true,
        _ => false,
    }
}

/// The plan of record frame `i`, from 0. Takes no memory.
pub fn plan_at(job: &Job, i: u32) -> FramePlan
    requires { i < frames_of job.now }
    ensures { result ≡ plan_at job.now i }
{
    job.recall();
    let need = job.need(i);
    match job.shot(i) {
        Shot::Gap => FramePlan::Solid,
        Shot::One { .. } => one_side(path_of(job, need.new)),
        Shot::Two {
            transition,
            k,
            d,
            ..
        } => two_sides(
            path_of(job, need.old),
            path_of(job, need.new),
            transition,
            k,
            d,
        ),
    }
}

/// The path of a side's source frame, if it is one.
fn path_of(job: &Job, need: Option<(Key, FrameInfo)>) -> Option<PathText>
    requires { IfSome need (λ need. IsNeeded job.now.parts need.0) }
    ensures { result ≡ key_path job.now (option_map (λ need. need.0) need) }
{
    match need {
        Some((key, _)) => Some(job.path_of(key)),
        None => None,
    }
}

/// A frame of one side.
fn one_side(path: Option<PathText>) -> FramePlan
    ensures { result ≡ one_by path }
{
    match path {
        Some(path) => FramePlan::One(path),
        None => FramePlan::Solid,
    }
}

/// A frame of two sides. A cut shows the new side alone.
fn two_sides(
    old: Option<PathText>,
    new: Option<PathText>,
    transition: Transition,
    k: u32,
    d: u32,
) -> FramePlan
    ensures { result ≡ two_by old new transition k d }
{
    let wipe = match transition {
        Transition::Cut => return one_side(new),
        Transition::Dissolve { .. } => None,
        Transition::Wipe { code, .. } => Some(code),
    };
    FramePlan::Two {
        old: side_of(old),
        new: side_of(new),
        wipe,
        k,
        d,
    }
}

/// A side of a transition's frame.
fn side_of(path: Option<PathText>) -> PlanSide
    ensures { result ≡ side_by path }
{
    match path {
        Some(path) => PlanSide::Frame(path),
        None => PlanSide::Black,
    }
}
