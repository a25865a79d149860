//! What reads source files.
ghost use Rattle.std.specs.Prelude.{◌≡◌, IfSome};
ghost use Rattle.cf_base.specs.Count.{CountsOneFault, IsKept};
ghost use Rattle.scan_source.specs.Answers.{IsLoaded, Fills, IsHead};
ghost use Rattle.scan_source.specs.Plan.{one_more};
ghost use Rattle.scan_source.specs.Planned.{FollowsIfTold};
ghost use Rattle.scan_source.specs.State.{ScanState};
ghost use Rattle.scan_source.specs.World.{file_at};

use cf_base::{HEADER, PathText};

/// What a load answers.
#[derive(Clone, Copy, Debug, PartialEq, Eq)]
pub enum Loaded {
    /// The file has this many bytes, and its first ones were read.
    Got { len: u64 },
    /// There is no file at the path.
    Absent,
    /// The scan failed, which it counts as a fault.
    Failed,
    /// Memory ran out.
    NoMemory,
}

/// What a look at the head of a file answers.
#[derive(Clone, Copy, Debug, PartialEq, Eq)]
pub enum Head {
    /// The file has this many bytes, and its first 2048 were read.
    Found { len: u64 },
    /// There is no file at the path.
    Absent,
    /// The scan failed, which it counts as a fault.
    Failed,
}

/// Reads source files by path. Each call that fails is counted, once, so that a failure always has its cause. All counts
/// stay at 2^64 - 1 once they are there.
pub trait Scans: Drop {
    /// The files by path, where the scan tells them: no call changes them. How often it has failed, and how many loads and heads
    /// were asked for. Which of its calls fail, where it tells that: one over real files can't know it. How it is lent.
    ghost state: { Self → ScanState };

    /// Reads the first `most` bytes of a file into `into`, and tells the file's length in bytes. What `into` had before
    /// is lost. It is empty after each answer but `Got`. A path without a file is `Absent` and no failure.
    fn load(&mut self, path: &PathText, most: u64, into: &mut Vec<u8>) -> Loaded
        ensures told { IfSome (state self.old).world (λ files. IsLoaded result (file_at files path.now) most into.new.items) }
        ensures fills { Fills result most into.new.items }

        ensures fault { CountsOneFault (result ≡ Loaded.Failed) (state self.old).faults (state self.new).faults }
        ensures plan { FollowsIfTold (state self.old).plan (state self.new).plan (result ≡ Loaded.Failed) }

        ensures loads { (state self.new).loads ≡ one_more (state self.old).loads }
        ensures heads { (state self.new).heads ≡ (state self.old).heads }
        ensures world { (state self.new).world ≡ (state self.old).world }
        ensures same { (state self.new).loans ≡ (state self.old).loans };

    /// Reads the first 2048 bytes of a file, with zeros behind them where it has fewer, and tells its length in bytes.
    /// After another answer than `Found` nothing is known of the bytes in `into`. Takes no memory.
    fn head(&mut self, path: &PathText, into: &mut [u8; HEADER]) -> Head
        ensures told { IfSome (state self.old).world (λ files. IsHead result (file_at files path.now) into.new) }

        ensures fault { CountsOneFault (result ≡ Head.Failed) (state self.old).faults (state self.new).faults }
        ensures plan { FollowsIfTold (state self.old).plan (state self.new).plan (result ≡ Head.Failed) }

        ensures heads { (state self.new).heads ≡ one_more (state self.old).heads }
        ensures loads { (state self.new).loads ≡ (state self.old).loads }
        ensures world { (state self.new).world ≡ (state self.old).world }
        ensures same { (state self.new).loans ≡ (state self.old).loans };

    /// No count is ever past 2^64 - 1.
    ghost bounded: { (scan : Self) → IsKept (state scan).faults × IsKept (state scan).loads × IsKept (state scan).heads };
}
