//! The frames of a run, in order.
ghost use Rattle.std.specs.Prelude.{◌≡◌, ◌<◌, ◌≤◌, [], false, length, slice_index_or, IfOk, IfErr, OnOk, OnErr};
ghost use Rattle.conform_job.specs.Job.{need_at};
ghost use Rattle.frame_render.specs.Frame.{frame_size};
ghost use Rattle.reel_writer.specs.Reel.{frames_of};
ghost use Rattle.reel_writer.specs.View.{IsReelOf};
ghost use Rattle.frame_fetch.specs.Asks.{keys_of_need};
ghost use Rattle.frame_fetch.specs.Ends.{IsChange};
ghost use Rattle.run_alone.specs.inside.Ends.{IsStop};
ghost use Rattle.run_alone.specs.Ran.{WereFinished};
ghost use Rattle.run_alone.specs.inside.Run.{HasRunFrame, HasRunOver, IsJustOpened};
ghost use Rattle.frame_fetch.specs.Loading.{CanLoad, HasLoadedFor};
ghost use Rattle.frame_fetch.specs.Scanned.{IsScannedAlone};
ghost use Rattle.frame_fetch.specs.Sharing.{HasAsked, HasTried};
ghost use Rattle.run_alone.specs.Task.{IsTask};

use crate::task::Task;
use conform_job::{Job, Work};
use frame_fetch::{Loader, RunEnd};
use frame_render::FrameBuf;
use frame_share::Share;
use reel_disk::{Disk, DiskFault};
use reel_writer::{Hashed, Reel};
use scan_source::Scans;
use std::sync::ledger::Ledger;

/// Whether a run passes over record frame `i`: just where it is acknowledged.
fn is_passed_over<N: Work, D: Disk>(reel: &Reel<D, N>, i: u32) -> bool
    requires index { i < frames_of N.job }
    ensures passed { result ≡ slice_index_or reel.now.ledger.gates i false }
    ensures reel { IsReelOf N.job D.tells D.state reel.now }
{
    reel.is_acked(i)
}

/// Renders record frame `i`, which isn't acknowledged, and finishes it. The room is handed back for
/// another frame.
fn run_frame<N: Work, L: Ledger, S: Scans, D: Disk>(
    job: &Job,
    loader: &mut Loader<N, L, S>,
    reel: &mut Reel<D, N>,
    share: &mut Share<N, L>,
    i: u32,
    room: FrameBuf,
) -> Result<FrameBuf, RunEnd>
    requires ready { CanLoad S.state N.job N.files job.now 2 loader.old }
    requires index { i < frames_of N.job }
    requires room { length room ≡ frame_size N.job }
    requires is_open { reel.old.ledger.closed ≡ false }
    requires reel { IsReelOf N.job D.tells D.state reel.old }
    requires fresh { slice_index_or reel.old.ledger.gates i false ≡ false }

    ensures room { IfOk result (λ room. length room ≡ frame_size N.job) }
    ensures stop { IfErr result (IsStop N.job N.files) }
    ensures reel { HasRunFrame i N.job N.files D.tells D.state result reel.old reel.new }

    ensures asked { OnOk result (HasAsked share.old share.new (keys_of_need (need_at N.job i))) }
    ensures tried { OnErr result (HasTried share.old share.new (keys_of_need (need_at N.job i))) }
    ensures loaded { HasLoadedFor S.state 2 result loader.old loader.new }
{
    let frame = match loader.make(job, share, i, room) {
        Ok(frame) => frame,
        Err(end) => return Err(end),
    };
    let hashed = Hashed::of(frame);
    match reel.finish(&hashed) {
        Ok(()) => Ok(hashed.into_frame().into_buf()),
        Err(DiskFault) => Err(RunEnd::DiskFault),
    }
}

/// Renders and finishes each frame of the range that isn't acknowledged, in order. The loads are counted.
pub(crate) fn run_frames<N: Work, L: Ledger, S: Scans, D: Disk>(
    task: &Task,
    loader: &mut Loader<N, L, S>,
    reel: &mut Reel<D, N>,
    share: &mut Share<N, L>,
) -> RunEnd
    requires task { IsTask N.job N.share task.now }
    requires ready { CanLoad S.state N.job N.files task.now.job.now 0 loader.old }
    requires none { (loader.old.loads ≡ 0) × (loader.old.units.amount ≡ 0) }
    requires opened { IsJustOpened N.job reel.old }
    requires unasked { share.old.steps ≡ [] }

    ensures finished { WereFinished N.job task.now.range.low task.now.range.high reel.old.ledger.gates result
        (length reel.new.acks) share.new.steps }
    ensures reel { HasRunOver N.job task.now.range.low task.now.range.high N.files D.tells D.state result reel.old
        reel.new }

    ensures room { share.new.capacity ≡ share.old.capacity }
    ensures parts { loader.new.units.parts ≡ loader.old.units.parts }
    ensures counted { loader.new.units.amount ≡ loader.new.loads }
    ensures changed { IsChange result → 1 ≤ loader.new.loads }
    ensures scan { IsScannedAlone loader.new.loads (result ≡ RunEnd.SourceFault) (S.state loader.old.scan) (S.state loader.new.scan) }
{
    let mut room = match FrameBuf::new(loader.alloc, task.job) {
        Ok(room) => room,
        Err(_) => return RunEnd::NoMemory,
    };
    for i in task.range.low..task.range.high {
        if is_passed_over(reel, i) {
            continue;
        }
        match run_frame(task.job, loader, reel, share, i, room) {
            Ok(back) => room = back,
            Err(end) => return end,
        }
    }
    RunEnd::Done
}
