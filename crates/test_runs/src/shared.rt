//! Workers that share source frames: scans and a disk that see one another, so that a crew whose workers have a share each, or
//! put nothing there, comes to an end by itself.
ghost use Rattle.std.specs.Prelude.{◌≡◌, ◌≤◌, vec_len, IfSome};

use crate::crews::crew_on;
use cf_base::{FileId, PathText};
use conform_job::Job;
use reel_disk::MemoryDisk;
use run_crew::{Crew, RunEnd};
use std::alloc::Global;
use std::sync::atomic::{AtomicU64, Ordering};
use std::sync::{Arc, Wait};
use std::thread::{self, Threads};
use test_desk::{Desk, TWO, scans_of};
use test_stand_ins::{Call, Gate, GatedScans, Noted, Notes};

/// How many turns a load waits for what is to come.
const TURNS: u64 = 1_000_000;

const FIRST: u32 = 86_400;

const LAST: u32 = 86_403;

/// What all loads and writes of a crew have come to.
#[derive(Drop)]
struct Seen {
    /// How often a scan of reel A001 was asked for, and one of B002.
    loads: [AtomicU64; 2],
    /// Whether the write of the first record frame was called, and that of the last.
    writes: [AtomicU64; 2],
}

impl Seen {
    fn of() -> Seen {
        Seen {
            loads: [AtomicU64::new(0), AtomicU64::new(0)],
            writes: [AtomicU64::new(0), AtomicU64::new(0)],
        }
    }

    /// The first load of A001 waits for the first of B002, and that for the first frame's write. Each later load waits for a
    /// later one of the other reel, or for the last frame's write.
    fn has_come(&self, reel: usize, number: u64) -> bool
        requires { reel ≤ 1 }
    {
        if number == 1 {
            if reel == 0 {
                return self.loads[1].load(Ordering::SeqCst) >= 1;
            }
            return self.writes[0].load(Ordering::SeqCst) >= 1;
        }
        self.loads[1 - reel].load(Ordering::SeqCst) >= 2
            || self.writes[1].load(Ordering::SeqCst) >= 1
    }

    /// Whether a load of that number comes in time to what it waits for.
    fn comes(&self, reel: usize, number: u64) -> bool
        requires { reel ≤ 1 }
    {
        for _ in 0..TURNS {
            if self.has_come(reel, number) {
                return true;
            }
            thread::yield_now();
        }
        false
    }
}

/// What loads of DPX files pass: they wait for one another, and for writes.
#[derive(Drop)]
struct Turns {
    seen: Arc<Seen, Global>,
}

impl Gate for Turns {
    fn passes(&mut self, path: &PathText, _: u64) -> bool {
        if !path.bytes().ends_with(b".dpx") {
            return true;
        }
        let reel = if path.bytes().starts_with(b"a001") {
            0
        } else {
            1
        };
        let number = self.seen.loads[reel]
            .fetch_add(1, Ordering::SeqCst)
            .wrapping_add(1);
        self.seen.comes(reel, number)
    }
}

/// A scan for each of two workers, over the files of the list of two.
fn two_scans(alloc: Global, seen: &Arc<Seen, Global>) -> Option<Vec<GatedScans<Turns>>>
    ensures { IfSome result (λ scans. vec_len scans ≡ 2) }
{
    let mut scans = Vec::new(alloc);
    for _ in 0..2u16 {
        let gate = Turns {
            seen: Arc::try_clone(seen).ok()?,
        };
        let scan = GatedScans::new(scans_of(alloc, TWO, &[])?, gate);
        scans.push(scan).ok()?;
    }
    Some(scans)
}

/// Tells the scans when the first and the last frame are written.
#[derive(Drop)]
struct Writes {
    seen: Arc<Seen, Global>,
}

impl Notes for Writes {
    fn note(&mut self, call: Call) {
        match call {
            Call::WriteWhole(FileId::Frame { frame, .. }, _) if frame == FIRST => {
                self.seen.writes[0].store(1, Ordering::SeqCst)
            }
            Call::WriteWhole(FileId::Frame { frame, .. }, _) if frame == LAST => {
                self.seen.writes[1].store(1, Ordering::SeqCst)
            }
            _ => {}
        }
    }
}

/// A run of the job by two workers that share two source frames, over scans and a disk that see one another. None where no memory
/// is left.
fn crew_of_two<R: Threads + Wait + Sync>(
    rt: &R,
    alloc: Global,
    job: &Job,
) -> Option<Crew<GatedScans<Turns>, Noted<MemoryDisk, Writes>>> {
    let seen = Arc::new(alloc, Seen::of()).ok()?;
    let scans = two_scans(alloc, &seen)?;
    let disk = Noted {
        disk: MemoryDisk::new(alloc).ok()?,
        notes: Writes { seen },
    };
    Some(crew_on(rt, alloc, job, disk, scans, 2, 2))
}

/// A frame of each reel, and a dissolve of both. With a share for each worker it would take four loads; with puts that are
/// dropped both workers would load B002 again and wait for one another in vain.
#[test]
fn all_workers_use_one_share(rt: HostRuntime) {
    let alloc = rt.alloc();
    let desk = Desk::with_list(alloc, TWO, &[]).expect(&rt, "a job");
    let Crew {
        end,
        report,
        history: _,
        log: _,
        scans: _,
        disk: _,
    } = crew_of_two(&rt, alloc, &desk.job).expect(&rt, "a crew");
    assert!(rt; end == RunEnd::Done);
    assert!(rt; report.rendered == 4);
    assert!(rt; report.loads <= 3, "{} loads", report.loads);
}
