//! What holds of every pull list.
ghost use Rattle.pull_list.specs.Laws.{FewestRanges, OnePullList};

/// A job has one pull list for a margin, and no list of ranges with the same frames is shorter.
pub fn pull_laws()
    ensures one { OnePullList }
    ensures fewest { FewestRanges }
{}
