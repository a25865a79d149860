//! A worker in each seat, and what they leave.
ghost use Rattle.std.specs.Prelude.{◌≡◌, ◌↔◌, ◌<◌, ◌≤◌, ℕ, All, true, length, slice_index_or};
ghost use Rattle.conform_job.specs.Answers.{AreInfosOf};
ghost use Rattle.run_crew.specs.inside.Each.{EachBecame};
ghost use Rattle.crew_rest.specs.Left.{HasFinished};
ghost use Rattle.crew_seat.specs.Stepped.{HasWorked};
ghost use Rattle.crew_seat.specs.Worked.{seat_loads};
ghost use Rattle.crew_seat.specs.inside.Stepped.{IsReady};

use crate::each::{Works, work_on_first};
use conform_job::{Job, Work};
use crew_rest::Rest;
use crew_seat::Seat;
use crew_worker::{Shared, SharedFrames};
use frame_share::Share;
use reel_disk::{Disk, Start};
use scan_source::Scans;
use station::{Crewed, Station};
use std::sync::{Mutex, Wait};
use std::thread::Threads;

impl<S: Scans, D: Disk, N: Work + Start, C: Crewed, R: Threads + Wait + Sync> Works<Seat<S, N, C>>
    for Shared<'_, D, N, C, R> {
    ghost use Rattle.std.specs.Prelude.{◌≡◌};
    ghost use denote.Param.Send.{IsSync};
    ghost use Rattle.conform_job.specs.Answers.{AreInfosOf};
    ghost use Rattle.crew_seat.specs.Stepped.{HasWorked};
    ghost use Rattle.crew_seat.specs.Worked.{worker_loads};
    ghost use Rattle.crew_seat.specs.inside.Stepped.{IsReady};

    ghost may = { λ shared seat. IsSync R.row × (shared.job.now ≡ N.job) × AreInfosOf N.job.parts N.files N.job.infos
        × IsReady N.files S.state seat };

    ghost has = { λ shared old new. HasWorked N.files S.state worker_loads old new };

    fn work(&self, seat: &mut Seat<S, N, C>) {
        drop(self.worker(seat));
    }
}

/// Whether each miss has had its put.
fn are_put<S: Scans, N: Work, C: Crewed>(seats: &[Seat<S, N, C>]) -> bool
    ensures { result ≡ true ↔ All (λ s. s.loader.units.pending ≡ 0) seats.now }
{
    seats.iter().all(|seat| !seat.loader.units.is_open())
}

/// Runs the workers, and finishes what they left.
pub(crate) fn work_all<
    S: Scans + Send,
    D: Disk + Send,
    N: Work + Start + Send + Sync,
    C: Crewed + Send + Sync,
    R: Threads + Wait + Sync,
>(
    rt: &R,
    job: &Job,
    seats: &mut [Seat<S, N, C>],
    threads: usize,
    station: Station<D, N, C>,
    share: Share<N, C::Misses>,
) -> (Station<D, N, C>, Share<N, C::Misses>)
where
    C::SourceStops: Send + Sync,
    C::DiskStops: Send + Sync,
    C::MemoryStops: Send + Sync,
    C::ChangeStops: Send + Sync,
    C::Misses: Send + Sync,
    C::Claims: Send + Sync,
    requires some { 0 < threads }
    requires within { threads ≤ length seats.old }
    requires job { job.now ≡ N.job }
    requires infos { AreInfosOf N.job.parts N.files N.job.infos }
    requires ready { All (λ s. IsReady N.files S.state s) seats.old }
    ensures size { length seats.new ≡ length seats.old }
    ensures worked { EachBecame (length seats.old) (HasWorked N.files S.state seat_loads) seats.old seats.new }
    ensures unused { (k : ℕ) (d : _) → threads ≤ k → slice_index_or seats.new k d ≡ slice_index_or seats.old k d }
    ensures whole { HasFinished N.job result.0.log }
{
    let station = Mutex::new(station);
    let share = SharedFrames::new(share);
    let shared = Shared {
        rt,
        job,
        station: &station,
        share: &share,
    };
    work_on_first(rt, &shared, seats, threads);
    let mut rest = Rest {
        station: station.into_inner(),
        share: share.into_share(),
    };
    let all_put = are_put(seats);
    rest.finish_rest(job, &mut seats[0], all_put);
    let Rest { station, share } = rest;
    (station, share)
}
