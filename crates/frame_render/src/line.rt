//! The words of one line of a frame. What the shot is, and whether there is a look, is asked outside of the loops over
//! pixels.
ghost use Rattle.std.specs.Prelude.{◌≡◌, ◌<◌, ◌≤◌, length};
ghost use Rattle.std.specs.Option.{option_copied};
ghost use Rattle.cf_base.specs.Rgb.{codes_of};
ghost use Rattle.cf_base.specs.declared.limits.TheConstants.{LONGEST};
ghost use Rattle.record_timeline.specs.Shots.{Lasts};
ghost use Rattle.conform_job.specs.Job.{ArePlanned};
ghost use Rattle.frame_render.specs.Frame.{black_of, line_of, seen_word, side_colour};
ghost use Rattle.frame_render.specs.inside.Frame.{HasWords};
ghost use Rattle.frame_render.specs.inside.Lines.{HasColours, joined_colour};
ghost use Rattle.frame_render.specs.inside.Pictures.{IsPicture, words_of_line};

use crate::picture::Picture;
use band_kernels::{WipeFrame, blend_band, copy_band, fill_band, look_band, seen_band, wipe_band};
use cf_base::{LONGEST, Rgb, Transition};
use conform_job::Job;
use dpx_pack::word_of;
use record_timeline::Shot;

/// Frame `k`, from 0, of a transition of `d` frames, at most a day.
#[derive(Clone, Copy)]
struct TransitionFrame {
    transition: Transition,
    k: u32,
    d: u32,
    ghost within: { k < d },
    ghost day: { d ≤ LONGEST },
}

impl Picture<'_> {
    /// The words of line `y`; `black` is a line of the project's black.
    pub(crate) fn fill_line(&self, y: u32, black: &[u32], out: &mut [u32])
        requires picture { IsPicture self.now }
        requires line { y < self.now.job.now.parts.project.height }
        requires black { HasColours self.now.job.now (λ x. black_of self.now.job.now) black.now }
        requires room { length out.old ≡ self.now.job.now.parts.project.width }
        ensures { out.new ≡ words_of_line self.now y }
    {
        let job = self.job;
        match self.shot {
            Shot::Gap => fill_black(job, out),
            Shot::One { .. } => fill_side(job, self.new, y, out),
            Shot::Two {
                transition,
                k,
                d,
                ..
            } => {
                let frame = TransitionFrame { transition, k, d };
                let old = side_line(job, self.old, y, black);
                let new = side_line(job, self.new, y, black);
                fill_transition(job, frame, old, new, y, out);
            }
        }
    }
}

/// A line of black.
fn fill_black(job: &Job, out: &mut [u32])
    requires room { length out.old ≡ job.now.parts.project.width }
    ensures { out.new ≡ line_of job.now (λ x. black_of job.now) }
{
    fill_band(seen_word(job, job.project().black), out);
}

/// Line `y` of a side.
fn fill_side(job: &Job, words: Option<&[u32]>, y: u32, out: &mut [u32])
    requires planned { ArePlanned job.now.parts }
    requires words { HasWords job.now (option_copied words) }
    requires line { y < job.now.parts.project.height }
    requires room { length out.old ≡ job.now.parts.project.width }
    ensures { out.new ≡ line_of job.now (λ x. side_colour job.now (option_copied words.entry) x y) }
{
    match words {
        None => fill_black(job, out),
        Some(words) => seen_band(job.look(), line_at(job, words, y), out),
    }
}

/// Line `y` of a transition's frame, from that line of its sides.
fn fill_transition(
    job: &Job,
    frame: TransitionFrame,
    old: &[u32],
    new: &[u32],
    y: u32,
    out: &mut [u32],
)
    requires planned { ArePlanned job.now.parts }
    requires lasts { Lasts frame.d frame.transition }
    requires old { length old.now ≡ job.now.parts.project.width }
    requires new { length new.now ≡ job.now.parts.project.width }
    requires line { y < job.now.parts.project.height }
    requires room { length out.old ≡ job.now.parts.project.width }
    ensures { out.new ≡ line_of job.now (joined_colour job.now frame.transition frame.k frame.d y old.now new.now) }
{
    let look = job.look();
    join_sides(job, frame, old, new, y, out);
    look_band(look, out);
}

/// What the transition makes of line `y` of its sides, before the look.
fn join_sides(job: &Job, frame: TransitionFrame, old: &[u32], new: &[u32], y: u32, out: &mut [u32])
    requires planned { ArePlanned job.now.parts }
    requires lasts { Lasts frame.d frame.transition }
    requires old { length old.now ≡ job.now.parts.project.width }
    requires new { length new.now ≡ job.now.parts.project.width }
    requires line { y < job.now.parts.project.height }
    requires room { length out.old ≡ job.now.parts.project.width }
    ensures { HasColours job.now (joined_colour job.now frame.transition frame.k frame.d y old.now new.now) out.new }
{
    let TransitionFrame { transition, k, d } = frame;
    match transition {
        Transition::Cut => copy_band(new, out),
        Transition::Dissolve { .. } => blend_band(old, new, k, d, out),
        Transition::Wipe { code, .. } => {
            let wipe = WipeFrame {
                code,
                width: job.width(),
                height: job.height(),
                k,
                d,
            };
            wipe_band(wipe, y, old, new, out);
        }
    }
}

/// Line `y` of a side, black where it has no words.
fn side_line<'a>(job: &Job, words: Option<&'a [u32]>, y: u32, black: &'a [u32]) -> &'a [u32]
    requires planned { ArePlanned job.now.parts }
    requires words { HasWords job.now (option_copied words) }
    requires line { y < job.now.parts.project.height }
    requires black { HasColours job.now (λ x. black_of job.now) black.now }
    ensures { HasColours job.now (λ x.
        side_colour job.now (option_copied words.entry) x y) result.now }
{
    match words {
        None => black,
        Some(words) => line_at(job, words, y),
    }
}

/// Line `y` of a picture's words.
fn line_at<'a>(job: &Job, words: &'a [u32], y: u32) -> &'a [u32]
    requires planned { ArePlanned job.now.parts }
    requires words { HasWords job.now (Some words.now) }
    requires line { y < job.now.parts.project.height }
    ensures { HasColours job.now (λ x. side_colour job.now (Some words.now) x y) result.now }
{
    let width = job.width() as usize;
    let start = y as usize * width;
    &words[start..start + width]
}

/// The word of a pixel under the job's look.
fn seen_word(job: &Job, p: Rgb) -> u32
    ensures { result ≡ seen_word job.now (codes_of p) }
{
    word_of(job.look().at(p))
}
