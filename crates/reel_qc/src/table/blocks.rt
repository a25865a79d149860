//! The counts of several probes over many words, block by block, by one thread or by several.
ghost use Rattle.reel_qc.specs.Counts.{HasAdded, count_of, counts_of};
ghost use Rattle.reel_qc.specs.inside.Counts.{block_of, cell_of};
ghost use Rattle.std.specs.Prelude.{◌≡◌, ℕ, ◌+◌, ◌*◌, ◌/◌, ◌%◌, ◌<◌, ◌≤◌, OnOk, drop, length, map, slice_index, take};

use crate::table::probe::Probe;
use crate::words::PIXELS;
use rayon::prelude::*;
use std::alloc::{AllocError, Global};
use std::thread::Threads;

/// Words of a block, which stays in a cache while all probes go over it.
pub(crate) const BLOCK: usize = 16384;

/// Adds the count of each probe over at most 16,777,216 words to its own, modulo 2^64.
pub(crate) fn add_each(probes: &[Probe], words: &[u32], counts: &mut [u64])
    requires words { length words.now ≤ PIXELS }
    requires size { length counts.old ≡ length probes.now }
    ensures { HasAdded (counts_of (map (λ p. p.kind) probes.now) words.now) counts.old counts.new }
{
    for (k, probe) in probes.iter().enumerate() {
        counts[k] = counts[k].wrapping_add(probe.run(words));
    }
}

/// The same by several threads, which count block after block.
pub(crate) fn add_forked<R: Threads + Sync>(
    rt: &R,
    alloc: Global,
    probes: &[Probe],
    words: &[u32],
    counts: &mut [u64],
) -> Result<(), AllocError>
    requires words { length words.now ≤ PIXELS }
    requires size { length counts.old ≡ length probes.now }
    ensures { OnOk result (HasAdded (counts_of (map (λ p. p.kind) probes.now) words.now) counts.old counts.new) }
{
    let blocks = words.len().div_ceil(BLOCK);
    let Some(count) = blocks.checked_mul(probes.len()) else {
        return Err(AllocError);
    };
    let mut cells = vec![in alloc; 0u64; count]?;
    count_cells(rt, probes, words, &mut cells);
    let width = probes.len();
    for n in 0..blocks {
        add_row(&cells[n * width..(n + 1) * width], counts);
    }
    Ok(())
}

/// Counts block by block, each by all probes, before the next.
fn count_cells<R: Threads + Sync>(rt: &R, probes: &[Probe], words: &[u32], cells: &mut [u64])
    requires some { 0 < length cells.old → 0 < length probes.now }
    requires words { length words.now ≤ PIXELS }
    ensures size { length cells.new ≡ length cells.old }
    ensures cells { (i : ℕ) → i < length cells.old
        → slice_index cells.new i ≡ cell_of (map (λ p. p.kind) probes.now) words.now i }
{
    par_for_each_mut(
        rt,
        cells,
        |i: usize, cell: &mut u64|
            requires { (0 < length probes.now) × (length words.now ≤ PIXELS) }
            ensures { cell.new ≡ cell_of (map (λ p. p.kind) probes.entry.now) words.entry.now i }
        {
            *cell = count_cell(probes, words, i);
        },
    );
}

/// The count of a probe over a block: the first block by each probe, then the next.
fn count_cell(probes: &[Probe], words: &[u32], i: usize) -> u64
    requires some { 0 < length probes.now }
    requires words { length words.now ≤ PIXELS }
    ensures { result ≡ cell_of (map (λ p. p.kind) probes.now) words.now i }
{
    probes[i % probes.len()].run(block_of(words, i / probes.len()))
}

/// The words of a block, of which the last may be shorter.
fn block_of(words: &[u32], n: usize) -> &[u32]
    requires { length words.now ≤ PIXELS }
    ensures block { result.now ≡ block_of words.now n }
    ensures few { length result.now ≤ PIXELS }
{
    let start = n.saturating_mul(BLOCK).min(words.len());
    let end = (start + BLOCK).min(words.len());
    &words[start..end]
}

/// Adds a row, modulo 2^64.
fn add_row(row: &[u64], counts: &mut [u64])
    requires { length row.now ≡ length counts.old }
    ensures { HasAdded row.now counts.old counts.new }
{
    for (k, count) in row.iter().enumerate() {
        counts[k] = counts[k].wrapping_add(*count);
    }
}
