//! Source files in memory that change between two calls.
ghost use Rattle.std.specs.Prelude.{◌≡◌, None};
ghost use Rattle.cf_base.specs.Count.{CountsOneFault, kept};
ghost use Rattle.scan_source.specs.Answers.{Fills};
ghost use Rattle.scan_source.specs.Memory.{memory_of, HasLoaded, HasLooked};
ghost use Rattle.scan_source.specs.Plan.{one_more};
ghost use Rattle.scan_source.specs.Turning.{turning_of, is_before, serving, next_turning, both_counts, faults_in};
ghost use Rattle.scan_source.specs.State.{untold};

use crate::{Head, Loaded, MemoryScans, Scans};
use cf_base::{HEADER, PathText};

/// Two scans in memory, one in place of the other from a chosen call on: what a plan finds and what is loaded afterwards
/// need not be the same. It doesn't tell its files, and never fails by itself.
#[derive(Drop)]
pub struct TurningScans {
    first: MemoryScans,
    later: MemoryScans,
    at: u64,
    calls: u64,
    loads: u64,
    heads: u64,
}

impl TurningScans {
    /// Calls of both kinds are numbered together from 1. Those with numbers below `at` go to the first scan, and all later
    /// ones to the second, and each of the two counts and fails those that go to it. Takes no memory.
    pub fn new(first: MemoryScans, then: MemoryScans, at: u64) -> Self
        ensures turning { turning_of result ≡ record { first = memory_of first; later = memory_of then; at = at; calls = 0 } }
        ensures faults { let state = ⟦<MemoryScans as Scans>⟧.state in
            (⟦<TurningScans as Scans>⟧.state result).faults ≡ both_counts (state first).faults (state then).faults }
        ensures world { (⟦<TurningScans as Scans>⟧.state result).world ≡ None }
        ensures plan { (⟦<TurningScans as Scans>⟧.state result).plan ≡ None }
        ensures loads { (⟦<TurningScans as Scans>⟧.state result).loads ≡ 0 }
        ensures heads { (⟦<TurningScans as Scans>⟧.state result).heads ≡ 0 }
    {
        TurningScans {
            first,
            later: then,
            at,
            calls: 0,
            loads: 0,
            heads: 0,
        }
    }

    /// Whether this call goes to the first scan. It counts the call.
    fn goes_first(&mut self) -> bool
        ensures first { result ≡ is_before (turning_of self.old) }
        ensures changed { self.new ≡ record self.old { calls = one_more self.old.calls } }
    {
        self.calls = self.calls.saturating_add(1);
        self.calls < self.at
    }
}

impl Scans for TurningScans {
    ghost use Rattle.std.proofs.Common.{arith};

    ghost state = { λ scan. untold (faults_in scan) (kept scan.loads) (kept scan.heads) };

    fn load(&mut self, path: &PathText, most: u64, into: &mut Vec<u8>) -> Loaded
        ensures answer { HasLoaded (serving (turning_of self.old)) path.now most result into.new.items }
        ensures next { turning_of self.new ≡ next_turning (turning_of self.old) }
        ensures fills { Fills result most into.new.items }

        ensures fault { CountsOneFault (result ≡ Loaded.Failed) (faults_in self.old) (faults_in self.new) }

        ensures loads { (⟦<TurningScans as Scans>⟧.state self.new).loads ≡ one_more (⟦<TurningScans as Scans>⟧.state self.old).loads }
        ensures heads { (⟦<TurningScans as Scans>⟧.state self.new).heads ≡ (⟦<TurningScans as Scans>⟧.state self.old).heads }
    {
        self.loads = self.loads.saturating_add(1);
        if self.goes_first() {
            self.first.load(path, most, into)
        } else {
            self.later.load(path, most, into)
        }
    }

    fn head(&mut self, path: &PathText, into: &mut [u8; HEADER]) -> Head
        ensures answer { HasLooked (serving (turning_of self.old)) path.now result into.new }
        ensures next { turning_of self.new ≡ next_turning (turning_of self.old) }

        ensures fault { CountsOneFault (result ≡ Head.Failed) (faults_in self.old) (faults_in self.new) }

        ensures heads { (⟦<TurningScans as Scans>⟧.state self.new).heads ≡ one_more (⟦<TurningScans as Scans>⟧.state self.old).heads }
        ensures loads { (⟦<TurningScans as Scans>⟧.state self.new).loads ≡ (⟦<TurningScans as Scans>⟧.state self.old).loads }
    {
        self.heads = self.heads.saturating_add(1);
        if self.goes_first() {
            self.first.head(path, into)
        } else {
            self.later.head(path, into)
        }
    }

    ghost bounded = { λ _. (Prim.omega arith, Prim.omega arith, Prim.omega arith) };
}
