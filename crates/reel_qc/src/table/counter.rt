//! How a table counts: on one thread, or in blocks by several. The counts are the same.
ghost use Rattle.reel_qc.specs.Counts.{HasAdded, counts_of};
ghost use Rattle.std.specs.Prelude.{◌≡◌, ◌<◌, ◌≤◌, OnOk, length, map};

use crate::table::blocks::{BLOCK, add_each, add_forked};
use crate::table::probe::Probe;
use crate::words::PIXELS;
use rayon::current_num_threads;
use std::alloc::{AllocError, Global};
use std::thread::Threads;

/// A way to count.
pub trait Counter {
    /// What has to hold of whatever it counts with.
    ghost ready: { Type 0 };

    /// How many words it counts best at once: 1 to 16,777,216. Takes no memory.
    fn most_words(&self) -> usize
        ensures some { 0 < result }
        ensures most { result ≤ PIXELS };

    /// Adds the count of each probe over at most 16,777,216 words to its own, modulo 2^64.
    fn add_counts(
        &self,
        alloc: Global,
        probes: &[Probe],
        words: &[u32],
        counts: &mut [u64],
    ) -> Result<(), AllocError>
        requires ready { ready }
        requires words { length words.now ≤ PIXELS }
        requires size { length counts.old ≡ length probes.now }
        ensures size { length counts.new ≡ length counts.old }
        ensures added { OnOk result (HasAdded (counts_of (map (λ p. p.kind) probes.now) words.now) counts.old counts.new) };
}

/// Counts on the thread that asks, and takes no memory.
#[derive(Clone, Copy, Debug)]
pub struct OneThread;

impl Counter for OneThread {
    ghost ready = { Unit {0} };

    fn most_words(&self) -> usize {
        BLOCK
    }

    fn add_counts(
        &self,
        alloc: Global,
        probes: &[Probe],
        words: &[u32],
        counts: &mut [u64],
    ) -> Result<(), AllocError> {
        add_each(probes, words, counts);
        Ok(())
    }
}

/// Counts a whole frame at once, in blocks on several threads.
#[derive(Drop)]
pub struct Forked<'a, R: Threads + Sync> {
    pub(crate) rt: &'a R,
}

impl<'a, R: Threads + Sync> Forked<'a, R> {
    /// By the threads of this handle.
    pub fn new(rt: &'a R) -> Forked<'a, R> {
        Forked { rt }
    }
}

/// Several threads use the handle.
impl<R: Threads + Sync> Counter for Forked<'_, R> {
    ghost use Rattle.std.specs.Thread.{IsSync};

    ghost ready = { IsSync R.row };

    // One processor counts what lies in its cache.
    fn most_words(&self) -> usize {
        if current_num_threads(self.rt) == 1 {
            BLOCK
        } else {
            PIXELS
        }
    }

    fn add_counts(
        &self,
        alloc: Global,
        probes: &[Probe],
        words: &[u32],
        counts: &mut [u64],
    ) -> Result<(), AllocError> {
        if words.len() <= BLOCK {
            add_each(probes, words, counts);
            Ok(())
        } else {
            add_forked(self.rt, alloc, probes, words, counts)
        }
    }
}
