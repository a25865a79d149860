//! From the path of a project to its job: its texts are loaded and read in their order, and the job is planned.
#![tactic(auto)]

mod loads;
mod project;

ghost use Rattle.project_job.specs.Laws.{OneAnswer, OneJob};

pub use loads::{Front, load};
pub use project::{MOST_LIST, planned};
use project_file::project_laws;

/// A project comes to one answer: to one job, or to one first refusal.
pub fn job_laws()
    ensures answer { OneAnswer }
    ensures job { OneJob }
{
    project_laws();
}
