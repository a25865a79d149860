//! Scans that count their loads of DPX files together, and wait for one another.
ghost use Rattle.std.specs.Prelude.{◌≡◌, IfSome, vec_len};

use crate::desk::desk_scans;
use cf_base::PathText;
use std::alloc::Global;
use std::sync::Arc;
use std::sync::atomic::{AtomicU64, Ordering};
use std::thread;
use test_stand_ins::{Gate, GatedScans};

/// How many turns a load waits for the others.
const TURNS: u64 = 1_000_000;

/// What a scan's loads of DPX files pass: they are counted together with those of other scans.
#[derive(Drop)]
pub struct Together {
    /// How many DPX files all scans were asked for.
    all: Arc<AtomicU64, Global>,
    /// The load among all that fails; 0 for none.
    failing: u64,
    /// How many scans wait for one another,
    together: u64,
    /// and with how many of their loads, from the first on.
    rounds: u64,
    /// How many DPX files this scan was asked for.
    frames: u64,
}

impl Together {
    /// Whether so many loads were asked for, in time.
    fn have_come(&self) -> bool {
        let wanted = self.together.saturating_mul(self.frames);
        for _ in 0..TURNS {
            if self.all.load(Ordering::SeqCst) >= wanted {
                return true;
            }
            thread::yield_now();
        }
        false
    }
}

impl Gate for Together {
    fn passes(&mut self, path: &PathText, _: u64) -> bool {
        if !path.bytes().ends_with(b".dpx") {
            return true;
        }
        self.frames = self.frames.saturating_add(1);
        let number = self.all.fetch_add(1, Ordering::SeqCst).wrapping_add(1);
        number != self.failing && (self.frames > self.rounds || self.have_come())
    }
}

/// So many scans over the desk's files. The load of a DPX file with this number among all fails, 0 for none. Of so many first
/// loads of each scan, the k-th answers once k for each of `together` scans were asked for, of all.
pub fn scans_together(
    alloc: Global,
    count: u16,
    failing: u64,
    together: u64,
    rounds: u64,
) -> Option<Vec<GatedScans<Together>>>
    ensures { IfSome result (λ scans. vec_len scans ≡ count) }
{
    let all = Arc::new(alloc, AtomicU64::new(0)).ok()?;
    let mut scans = Vec::new(alloc);
    for _ in 0..count {
        let gate = Together {
            all: Arc::try_clone(&all).ok()?,
            failing,
            together,
            rounds,
            frames: 0,
        };
        scans
            .push(GatedScans::new(desk_scans(alloc, &[])?, gate))
            .ok()?;
    }
    Some(scans)
}
