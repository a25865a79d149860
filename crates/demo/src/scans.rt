//! Source files in memory that are always there to be read.
ghost use Rattle.std.specs.Prelude.{◌≡◌, Some, []};
ghost use Rattle.demo.specs.inside.Scan.{fails_of};

use cf_base::{HEADER, PathText};
use scan_source::{Head, Loaded, MemoryScans, Scans};
use std::alloc::Global;

/// Files in memory, of which no call fails.
#[derive(Drop)]
pub(crate) struct UnfailingScans {
    scans: MemoryScans,
    ghost unfailing: { fails_of (⟦<MemoryScans as Scans>⟧.state scans).plan ≡ Some [] },
}

impl UnfailingScans {
    ghost use Rattle.std.specs.Prelude.{map};
    ghost use Rattle.scan_source.specs.World.{world_of};

    /// The files by path, of which the first of two equal paths counts.
    pub(crate) fn new(alloc: Global, files: Vec<(PathText, Vec<u8>)>) -> Self
        ensures { (⟦<UnfailingScans as Scans>⟧.state result).world ≡ Some (world_of (map (λ f. (f.0, f.1.items)) files.items)) }
    {
        UnfailingScans {
            scans: MemoryScans::new(files, Vec::new(alloc)),
        }
    }
}

impl Scans for UnfailingScans {
    ghost use Rattle.std.proofs.Common.{arith};

    ghost state = { λ scan. record (⟦<MemoryScans as Scans>⟧.state scan.scans) { faults = 0 } };

    fn load(&mut self, path: &PathText, most: u64, into: &mut Vec<u8>) -> Loaded {
        self.scans.load(path, most, into)
    }

    fn head(&mut self, path: &PathText, into: &mut [u8; HEADER]) -> Head {
        self.scans.head(path, into)
    }

    ghost bounded = { λ _. (Prim.omega arith, Prim.omega arith, Prim.omega arith) };
}
