//! Source files in memory.
ghost use Rattle.std.specs.Prelude.{◌≡◌, ◌↔◌, Some, None, IsTrue, MatchOption, Contains, is_some};
ghost use Rattle.cf_base.specs.Count.{CountsOneFault, kept};
ghost use Rattle.scan_source.specs.Memory.{memory_of, world_in};
ghost use Rattle.scan_source.specs.Plan.{one_more};
ghost use Rattle.scan_source.specs.World.{file_at};

use crate::{Head, Loaded, Scans, head_of};
use cf_base::{HEADER, PathText};

/// Files in memory, which the scan tells. Chosen calls fail. A look-up goes through the files in their order.
#[derive(Drop)]
pub struct MemoryScans {
    files: Vec<(PathText, Vec<u8>)>,
    fails: Vec<u64>,
    calls: u64,
    faults: u64,
    loads: u64,
    heads: u64,
}

impl MemoryScans {
    /// The files by path, of which the first of two equal paths counts. Calls of both kinds are numbered together from
    /// 1, and those whose numbers are in `fails` fail. Takes no memory.
    pub fn new(files: Vec<(PathText, Vec<u8>)>, fails: Vec<u64>) -> Self
        ensures world { (⟦<MemoryScans as Scans>⟧.state result).world ≡ Some (world_in files.items) }
        ensures plan { (⟦<MemoryScans as Scans>⟧.state result).plan ≡ Some (record { calls = 0; fails = fails.items }) }
        ensures faults { (⟦<MemoryScans as Scans>⟧.state result).faults ≡ 0 }
        ensures loads { (⟦<MemoryScans as Scans>⟧.state result).loads ≡ 0 }
        ensures heads { (⟦<MemoryScans as Scans>⟧.state result).heads ≡ 0 }
    {
        MemoryScans {
            files,
            fails,
            calls: 0,
            faults: 0,
            loads: 0,
            heads: 0,
        }
    }

    /// Whether there is a file at the path. It is no call, and none is counted.
    pub(crate) fn has_file(&self, path: &PathText) -> bool
        ensures { result ≡ is_some (file_at (memory_of self.now).files path.now) }
    {
        bytes_at(&self.files, path).is_some()
    }

    /// Whether this call is one that fails. It counts the call, and the fault.
    fn fails_now(&mut self) -> bool
        ensures planned { IsTrue result ↔ Contains self.old.fails.items (one_more self.old.calls) }
        ensures changed { self.new ≡ record self.old { calls = one_more self.old.calls; faults = self.new.faults } }
        ensures fault { CountsOneFault (IsTrue result) self.old.faults self.new.faults }
    {
        self.calls = self.calls.saturating_add(1);
        let fails = self.fails.contains(&self.calls);
        if fails {
            self.faults = self.faults.saturating_add(1);
        }
        fails
    }
}

/// The bytes of the first file with this path.
fn bytes_at<'a>(files: &'a [(PathText, Vec<u8>)], path: &PathText) -> Option<&'a [u8]>
    ensures { let file = file_at (world_in files.now) path.now in MatchOption result (file ≡ None) (λ bytes. file ≡ Some bytes.now) }
{
    for file in files {
        if path.bytes() == file.0.bytes() {
            return Some(file.1.as_slice());
        }
    }
    None
}

impl Scans for MemoryScans {
    ghost use Rattle.std.specs.Prelude.{[]};
    ghost use Rattle.std.proofs.Common.{arith};

    ghost state = { λ scan. record {
      world = Some (world_in scan.files.items);
      faults = kept scan.faults;
      loads = kept scan.loads;
      heads = kept scan.heads;
      plan = Some (record { calls = scan.calls; fails = scan.fails.items });
      loans = [];
    } };

    fn load(&mut self, path: &PathText, most: u64, into: &mut Vec<u8>) -> Loaded {
        into.clear();
        self.loads = self.loads.saturating_add(1);
        if self.fails_now() {
            return Loaded::Failed;
        }
        let Some(bytes) = bytes_at(&self.files, path) else {
            return Loaded::Absent;
        };
        let len = bytes.len() as u64;
        let front = &bytes[..len.min(most) as usize];
        match into.extend_from_slice(front) {
            Ok(()) => Loaded::Got { len },
            Err(_) => Loaded::NoMemory,
        }
    }

    fn head(&mut self, path: &PathText, into: &mut [u8; HEADER]) -> Head {
        self.heads = self.heads.saturating_add(1);
        if self.fails_now() {
            return Head::Failed;
        }
        let Some(bytes) = bytes_at(&self.files, path) else {
            return Head::Absent;
        };
        *into = head_of(bytes);
        Head::Found {
            len: bytes.len() as u64,
        }
    }

    ghost bounded = { λ _. (Prim.omega arith, Prim.omega arith, Prim.omega arith) };
}
