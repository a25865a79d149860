//! A count in pieces, by several threads.
ghost use Rattle.reel_qc.specs.Counts.{count_of};
ghost use Rattle.std.specs.Prelude.{◌≡◌, ◌≤◌, Ok, length};

use crate::table::probe::Probe;
use crate::words::PIXELS;
use cf_base::{Fail, Never};
use rayon::prelude::*;
use std::thread::Threads;

/// The probe's count of at most 16,777,216 words: the sum of its counts of pieces of 512 words, the last of which may be
/// shorter, on several threads. It takes no memory, and is never an error.
pub fn count_forked<R: Threads + Sync>(
    rt: &R,
    probe: &Probe,
    words: &[u32],
) -> Result<u64, Fail<Never>>
    requires { length words.now ≤ PIXELS }
    ensures { result ≡ Ok (count_of probe.now.kind words.now) }
{
    Ok(sum_of_pieces(rt, probe, words))
}

/// The counts of all pieces, added up.
fn sum_of_pieces<R: Threads + Sync>(rt: &R, probe: &Probe, words: &[u32]) -> u64
    requires { length words.now ≤ PIXELS }
    ensures { result ≡ count_of probe.now.kind words.now }
{
    words
        .par_chunks(512)
        .map(
            |piece: &[u32]| -> u64
                requires { length piece.now ≤ PIXELS }
                ensures { result ≡ count_of probe.entry.now.kind piece.now }
            { probe.run(piece) },
        )
        .sum(rt)
}
