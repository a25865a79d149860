//! The seats of a crew: one for each scan, made before the workers begin and taken apart after they have returned.
ghost use Rattle.std.specs.Prelude.{◌≡◌, ◌+◌, ◌<◌, ◌≤◌, ℕ, All, [], false, map, slice_index_or, sum_by, vec_len, vec_capacity};
ghost use Rattle.station.specs.Marks.{HasMoreThan};
ghost use Rattle.crew_seat.specs.Seats.{HasGiven, HasTaken};
ghost use Rattle.crew_seat.specs.Stepped.{IsFresh, WasCounted};

use crate::seat::Seat;
use cf_base::WORKERS;
use conform_job::Work;
use frame_fetch::Loader;
use frame_share::Units;
use scan_source::Scans;
use station::{Crewed, Marks};
use std::alloc::Global;
use std::thread::{Threads, available_parallelism};

/// In how many threads each of so many workers renders a frame: as many as there are processors for it, as far as the system
/// tells, and at least 1. With as many workers as processors a frame is rendered on its worker's own thread.
pub fn threads_each<R: Threads>(rt: &R, workers: usize) -> u32
    requires some { 0 < workers }
    ensures some { 1 ≤ result }
{
    match available_parallelism(rt) {
        Ok(processors) => (processors.get() / workers).clamp(1, 64) as u32,
        Err(_) => 1,
    }
}

/// A seat for each scan, in their order, with so many threads each. Takes no memory.
pub fn seat_all<S: Scans, N: Work, C: Crewed>(
    alloc: Global,
    room: Vec<Seat<S, N, C>>,
    scans: Vec<S>,
    threads: u32,
    marks: &mut Marks<C>,
    units: &mut Units<C::Misses>,
) -> Vec<Seat<S, N, C>>
    requires empty { room.items ≡ [] }
    requires room { vec_len scans ≤ vec_capacity room }
    requires few { vec_len scans ≤ WORKERS }
    requires parts { HasMoreThan (vec_len scans) marks.old }
    requires shares { vec_len scans < units.old.parts }
    requires closed { units.old.pending ≡ 0 }
    ensures scans { map (λ s. s.loader.scan) result.items ≡ scans.items }
    ensures len { vec_len result ≡ vec_len scans }
    ensures numbers { (k : ℕ) (d : _) → k < vec_len scans → (slice_index_or result.items k d).number ≡ k }
    ensures fresh { All (λ s. IsFresh s) result.items }
    ensures given { HasGiven marks.old (vec_len scans) marks.new }
    ensures units { (units.new.parts + vec_len scans ≡ units.old.parts) × (units.new.amount ≡ units.old.amount) }
{
    let mut seats = room;
    let mut number = 0;
    for scan in scans {
        let seat = Seat {
            number,
            threads,
            marks: marks.split(),
            loader: Loader::new(alloc, scan, units.split()),
            has_failed: false,
        };
        seats.push_reserved(seat);
        number += 1;
    }
    seats
}

/// The scans, in their order, and how many loads the seats counted; all marks are in one, and so are all units. Takes no
/// memory.
pub fn unseat<S: Scans, N: Work, C: Crewed>(
    seats: Vec<Seat<S, N, C>>,
    room: Vec<S>,
    marks: &mut Marks<C>,
    units: &mut Units<C::Misses>,
) -> (Vec<S>, u64)
    requires empty { room.items ≡ [] }
    requires room { vec_len seats ≤ vec_capacity room }
    requires some { vec_len seats ≤ WORKERS }
    requires counted { All (λ s. WasCounted s) seats.items }
    ensures scans { result.0.items ≡ map (λ s. s.loader.scan) seats.items }
    ensures loads { result.1 ≡ sum_by (λ s. s.loader.loads) seats.items }
    ensures source { marks.new.source.amount ≡ marks.old.source.amount + sum_by (λ s. s.marks.source.amount) seats.items }
    ensures changed { marks.new.changed.amount ≡ marks.old.changed.amount + sum_by (λ s. s.marks.changed.amount) seats.items }
    ensures taken { HasTaken marks.old (vec_len seats) marks.new }
    ensures shares { units.new.parts ≡ units.old.parts + vec_len seats }
    ensures amount { units.new.amount ≡ units.old.amount + result.1 }
    ensures needed { marks.old.claims.amount + result.1 ≤ marks.new.claims.amount }
{
    let mut scans = room;
    let mut loads = 0;
    for seat in seats {
        let Seat {
            number: _,
            threads: _,
            marks: theirs,
            loader,
            has_failed: _,
        } = seat;
        let (scan, asked, more) = loader.into_parts();
        marks.join(theirs);
        units.join(asked);
        loads += more;
        scans.push_reserved(scan);
    }
    (scans, loads)
}
