//! Scans whose loads pass a gate first.
use cf_base::PathText;
use scan_source::{Head, Loaded, MemoryScans, Scans};

/// What a load passes before its file is read.
pub trait Gate {
    /// Whether a load of at most so many bytes of the file at the path goes on; else it fails.
    fn passes(&mut self, path: &PathText, most: u64) -> bool;
}

/// Scans over files in memory whose loads pass a gate first. They don't tell their files.
#[derive(Drop)]
pub struct GatedScans<G: Gate + Drop> {
    files: MemoryScans,
    pub gate: G,
    loads: u64,
    heads: u64,
    faults: u64,
}

impl<G: Gate + Drop> GatedScans<G> {
    pub fn new(files: MemoryScans, gate: G) -> GatedScans<G> {
        GatedScans {
            files,
            gate,
            loads: 0,
            heads: 0,
            faults: 0,
        }
    }
}

impl<G: Gate + Drop> Scans for GatedScans<G> {
    ghost use Rattle.std.proofs.Common.{arith};
    ghost use Rattle.cf_base.specs.Count.{kept};
    ghost use Rattle.scan_source.specs.State.{untold};

    ghost state = { λ scan. untold (kept scan.faults) (kept scan.loads) (kept scan.heads) };

    fn load(&mut self, path: &PathText, most: u64, into: &mut Vec<u8>) -> Loaded {
        into.clear();
        self.loads = self.loads.saturating_add(1);
        if !self.gate.passes(path, most) {
            self.faults = self.faults.saturating_add(1);
            return Loaded::Failed;
        }
        match self.files.load(path, most, into) {
            Loaded::Failed => {
                self.faults = self.faults.saturating_add(1);
                Loaded::Failed
            }
            answer => answer,
        }
    }

    fn head(&mut self, path: &PathText, into: &mut [u8; 2048]) -> Head {
        self.heads = self.heads.saturating_add(1);
        match self.files.head(path, into) {
            Head::Failed => {
                self.faults = self.faults.saturating_add(1);
                Head::Failed
            }
            answer => answer,
        }
    }

    ghost bounded = { λ _. (Prim.omega arith, Prim.omega arith, Prim.omega arith) };
}
