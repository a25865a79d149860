//! What follows from the definition of a part.
ghost use Rattle.frame_range.specs.Laws.{ArePartition, IsOnlyPart};

/// Laws: the parts of a job share no frame, and together have all; the one part of one is the whole job.
pub fn part_laws()
    ensures partition { ArePartition }
    ensures only { IsOnlyPart }
{}
