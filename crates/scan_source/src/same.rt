//! Texts in memory, and one head for all other files.
ghost use Rattle.std.specs.Prelude.{◌≡◌, None};
ghost use Rattle.cf_base.specs.Count.{CountsOneFault, kept};
ghost use Rattle.scan_source.specs.Answers.{Fills};
ghost use Rattle.scan_source.specs.Memory.{memory_of};
ghost use Rattle.scan_source.specs.Plan.{one_more};
ghost use Rattle.scan_source.specs.Same.{same_of, HasLoadedSame, HasLookedSame, next_same, faults_in};
ghost use Rattle.scan_source.specs.State.{untold};

use crate::{Head, Loaded, MemoryScans, Scans};
use cf_base::{HEADER, PathText};

/// A few texts in memory, and at every other path a file with one and the same head, which can't be loaded: a job of any
/// number of source frames can be planned over it, and takes no memory for their files. It doesn't tell its files, and
/// never fails by itself.
#[derive(Drop)]
pub struct SameScans {
    texts: MemoryScans,
    head: [u8; HEADER],
    len: u64,
    loads: u64,
    heads: u64,
}

impl SameScans {
    /// Calls on a path of the texts go to their scan, which counts and fails those that go to it. At any other path the
    /// head is this one, the file has `len` bytes, and a load finds none. Takes no memory.
    pub fn new(texts: MemoryScans, head: [u8; HEADER], len: u64) -> Self
        ensures same { same_of result ≡ record { texts = memory_of texts; head = head; len = len } }
        ensures faults { (⟦<SameScans as Scans>⟧.state result).faults ≡ (⟦<MemoryScans as Scans>⟧.state texts).faults }
        ensures world { (⟦<SameScans as Scans>⟧.state result).world ≡ None }
        ensures plan { (⟦<SameScans as Scans>⟧.state result).plan ≡ None }
        ensures loads { (⟦<SameScans as Scans>⟧.state result).loads ≡ 0 }
        ensures heads { (⟦<SameScans as Scans>⟧.state result).heads ≡ 0 }
    {
        SameScans {
            texts,
            head,
            len,
            loads: 0,
            heads: 0,
        }
    }
}

impl Scans for SameScans {
    ghost use Rattle.std.proofs.Common.{arith};

    ghost state = { λ scan. untold (faults_in scan) (kept scan.loads) (kept scan.heads) };

    fn load(&mut self, path: &PathText, most: u64, into: &mut Vec<u8>) -> Loaded
        ensures answer { HasLoadedSame (same_of self.old) path.now most result into.new.items }
        ensures next { same_of self.new ≡ next_same path.now (same_of self.old) }
        ensures fills { Fills result most into.new.items }

        ensures fault { CountsOneFault (result ≡ Loaded.Failed) (faults_in self.old) (faults_in self.new) }

        ensures loads { (⟦<SameScans as Scans>⟧.state self.new).loads ≡ one_more (⟦<SameScans as Scans>⟧.state self.old).loads }
        ensures heads { (⟦<SameScans as Scans>⟧.state self.new).heads ≡ (⟦<SameScans as Scans>⟧.state self.old).heads }
    {
        self.loads = self.loads.saturating_add(1);
        if self.texts.has_file(path) {
            return self.texts.load(path, most, into);
        }
        into.clear();
        Loaded::Absent
    }

    fn head(&mut self, path: &PathText, into: &mut [u8; HEADER]) -> Head
        ensures answer { HasLookedSame (same_of self.old) path.now result into.new }
        ensures next { same_of self.new ≡ next_same path.now (same_of self.old) }

        ensures fault { CountsOneFault (result ≡ Head.Failed) (faults_in self.old) (faults_in self.new) }

        ensures heads { (⟦<SameScans as Scans>⟧.state self.new).heads ≡ one_more (⟦<SameScans as Scans>⟧.state self.old).heads }
        ensures loads { (⟦<SameScans as Scans>⟧.state self.new).loads ≡ (⟦<SameScans as Scans>⟧.state self.old).loads }
    {
        self.heads = self.heads.saturating_add(1);
        if self.texts.has_file(path) {
            return self.texts.head(path, into);
        }
        *into = self.head;
        Head::Found { len: self.len }
    }

    ghost bounded = { λ _. (Prim.omega arith, Prim.omega arith, Prim.omega arith) };
}
