//! What a run is to do.
ghost use Rattle.std.specs.Prelude.{◌≡◌, ◌≤◌};
ghost use Rattle.reel_writer.specs.Reel.{frames_of};
ghost use Rattle.run_alone.specs.Task.{IsTask};

use cf_base::SHARED;
use conform_job::Job;
use frame_range::FrameRange;

/// What a run is to do.
#[derive(Drop)]
pub struct Task<'a> {
    /// The job.
    pub job: &'a Job,
    /// Which of its frames are rendered.
    pub range: FrameRange,
    /// How many decoded source frames are shared between record frames, from 1 to 16.
    pub share: u32,
}

impl<'a> Task<'a> {
    /// Renders all frames of a job.
    pub fn whole(job: &'a Job, share: u32) -> Task<'a>
        requires least { 1 ≤ share }
        requires most { share ≤ SHARED }
        ensures task { IsTask job.now share result }
        ensures range { result.range ≡ record { low = 0; high = frames_of job.now } }
    {
        Task {
            job,
            range: FrameRange {
                low: 0,
                high: job.count(),
            },
            share,
        }
    }
}
