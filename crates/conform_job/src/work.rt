//! The name of a job, of the world that its source files stand in, and of how many source frames are shared.
use cf_base::SHARED;
use std::marker::Brand;

/// Names the job of a run, the files of its scans where they are told, and how many decoded source frames record frames share.
/// A value that stands behind a lock is known by its type alone, so its type has such a name as a parameter. A name has no call
/// and no constant, and its meanings never change; the caller of a function that has a name picks them.
pub trait Work {
    ghost use Rattle.conform_job.specs.Job.{JobData};
    ghost use Rattle.scan_source.specs.World.{World};
    ghost use Rattle.std.specs.Prelude.{ℕ, Option};

    /// The data of the job.
    ghost job: { JobData };

    /// The files by their paths, where they are told.
    ghost files: { Option World };

    /// How many source frames are shared.
    ghost share: { ℕ };
}

impl Work for Brand {
    ghost use Rattle.cf_base.specs.declared.limits.TheConstants.{SHARED};
    ghost use Rattle.conform_job.specs.Names.{no_job};
    ghost use Rattle.std.specs.Prelude.{None};

    ghost job = { no_job };

    ghost files = { None };

    ghost share = { SHARED };
}
