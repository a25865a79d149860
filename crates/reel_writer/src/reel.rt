//! The reel of a job.
ghost use Rattle.std.specs.Prelude.{◌≡◌, ◌<◌, true, false, Some, Err, length, slice_index_or, OnOk, OnErr, IfOk, IsErr, IsErrOf};
ghost use Rattle.reel_disk.specs.Call.{OnlyWrites};
ghost use Rattle.reel_disk.specs.State.{LeavesDisk};
ghost use Rattle.conform_job.specs.Job.{file_of};
ghost use Rattle.reel_disk.specs.Disk.{Files, moment_of, view_of};
ghost use Rattle.reel_disk.specs.Runs.{Narrows, Surely};
ghost use Rattle.frame_render.specs.Frame.{frame_size};
ghost use Rattle.scan_source.specs.World.{World};
ghost use Rattle.resume_ledger.specs.Ledger.{IsInForce};
ghost use Rattle.resume_ledger.specs.Attach.{IsAnswerTo, OpeningMayWrite};
ghost use Rattle.reel_writer.specs.Calls.{Finishes, Opens};
ghost use Rattle.reel_writer.specs.Reel.{frames_of, HasAcked, HasBegun, HasFrameFiles, HasStored, IsSafeBeginning, IsSafeFinish, IsSoundReel, IsWrittenFile};
ghost use Rattle.reel_writer.specs.View.{ReelView, IsReelOf, IsOpening, after_finish, after_fault, ledger_in, disk_in};

use crate::files::{attach_for, frame_len};
use crate::hashed::Hashed;
use crate::store::store;
use conform_job::{Job, Work};
use reel_disk::{Disk, DiskFault};
use resume_ledger::{Ledger, OpenFault, Version};
use std::alloc::Global;
use std::marker::{Model, PhantomData};

/// The folder of N's reel while it is written: the disk, the ledger, and which frames were finished
/// in this run.
///
/// Contracts see these, and how many frames were acknowledged before; the ledger is closed once a
/// fault has closed the reel. A frame that is acknowledged is not written again.
pub struct Reel<D: Disk, N: Work> {
    disk: D,
    ledger: Ledger,
    /// The frames finished in this run, in order. There is room for every frame.
    acks: Vec<u32>,
    kept: u32,
    closed: bool,
    of: PhantomData<N>,
}

impl<D: Disk, N: Work> Model for Reel<D, N> {
    ghost use Rattle.std.specs.Prelude.{◌≡◌, ◌≤◌, false, length, vec_capacity};
    ghost use Rattle.reel_writer.specs.View.{ReelView, reel_code, IsReelOf};

    ghost Value = { ReelView D };

    ghost coded = { reel_code D.code };

    ghost view = { λ r. record {
      disk = r.disk;
      ledger = record { digest = r.ledger.digest; gates = r.ledger.gates; closed = r.closed };
      acks = r.acks.items;
      kept = r.kept;
    } };

    ghost invariant = { λ r.
        IsReelOf N.job D.tells D.state (record {
          disk = r.disk;
          ledger = record { digest = r.ledger.digest; gates = r.ledger.gates; closed = r.closed };
          acks = r.acks.items;
          kept = r.kept;
        })
        × (length r.ledger.gates ≤ vec_capacity r.acks)
        × (r.closed ≡ false → r.ledger.closed ≡ false) };
}

impl<D: Disk, N: Work> Reel<D, N> {
    /// Opens a folder for N's job, and reserves room for every frame that is finished. It makes the
    /// device calls of `Ledger::attach`, and answers as that does; a refusal hands the disk back.
    pub fn begin(alloc: Global, disk: D, job: &Job) -> Result<Reel<D, N>, (OpenFault, D)>
        requires job { job.now ≡ N.job }

        // By the view at the start: which answer comes, and what the disk holds then.
        ensures answer { D.tells ≡ true
            → HasBegun N.job (frame_size N.job) (D.state disk).history (D.state (disk_in result)).history
            (ledger_in result) }

        // A crash at any moment of the call leaves a folder whose acknowledged frames are the
        // reel's. No acknowledgement is lost, where each frame that version 1 acknowledges has a
        // file of a frame's length, as sound files have; and none is made. No file but those of
        // version 2 is written, and in a folder of version 2 none, whatever the answer is.
        ensures safe { D.tells ≡ true
            → IsSafeBeginning N.job N.files (D.state disk).history (D.state (disk_in result)).history }
        ensures sound_has { (world : World) (files : Files) → IsSoundReel N.job world files
            → HasFrameFiles N.job files }
        ensures only_reads { D.tells ≡ true → IsInForce Version.Two (view_of (D.state disk).history)
            → Narrows (D.state disk).history (D.state (disk_in result)).history }

        // Over every disk no file is written but those of version 2, and none where it is refused or no memory was left.
        ensures own { OnlyWrites (OpeningMayWrite (ledger_in result)) (D.state disk).calls (D.state (disk_in result)).calls }

        // The job's digest, the size of the ledger and that it is open are known over every disk.
        ensures known { IsAnswerTo N.job.parts.digest (frames_of N.job) (ledger_in result) }
        ensures opening { IfOk result IsOpening }

        // So are the calls that it makes, and no others.
        ensures calls { Opens N.job (frame_size N.job) (ledger_in result) (D.state disk).calls (D.state (disk_in result)).calls }
        ensures disk { LeavesDisk (IsErrOf (ledger_in result) OpenFault.DiskFault) (D.state disk) (D.state (disk_in result)) }
    {
        let size = frame_len(job);
        let Ok(acks) = Vec::with_capacity(alloc, job.count() as usize) else {
            return Err((OpenFault::NoMemory, disk));
        };
        let mut disk = disk;
        match attach_for(alloc, &mut disk, job, size) {
            Ok(ledger) => {
                let kept = ledger.acked();
                Ok(Reel {
                    disk,
                    ledger,
                    acks,
                    kept,
                    closed: false,
                    of: PhantomData,
                })
            }
            Err(fault) => Err((fault, disk)),
        }
    }

    /// Writes the file of a frame and acknowledges it: a write of the whole file, a sync of it, a
    /// write of the frame's record, its SHA-256, a sync of the ledger's body, a write of the frame's
    /// gate and a sync of the body. Takes no memory. At `Ok` each crash from now on finds the frame
    /// acknowledged, and its file as it was rendered. `DiskFault` comes only where the disk's count
    /// of faults rose; the reel is closed then, and a crash may find the frame acknowledged or not.
    pub fn finish(&mut self, frame: &Hashed<N>) -> Result<(), DiskFault>
        requires is_open { self.old.ledger.closed ≡ false }
        requires fresh { slice_index_or self.old.ledger.gates frame.now.index false ≡ false }

        // A crash at any moment of the call leaves a folder whose acknowledged frames are the
        // reel's, and no acknowledgement is lost, whatever the folder was. All other frames stay
        // as they were, also after a fault, and all other files.
        ensures safe { D.tells ≡ true → IsSafeFinish N.job N.files frame.now.index
            (D.state self.old.disk).history (D.state self.new.disk).history }

        ensures acked { OnOk result (D.tells ≡ true
            → Surely (moment_of (D.state self.new.disk).history) (HasAcked N.job frame.now.index)) }
        ensures shown { OnOk result (D.tells ≡ true
            → view_of (D.state self.new.disk).history (file_of N.job frame.now.index)
            ≡ Some frame.now.bytes) }

        // Whatever a crash leaves from now on has the file as it was rendered, whatever the folder was.
        ensures stored { OnOk result (D.tells ≡ true
            → Surely (moment_of (D.state self.new.disk).history)
            (HasStored (file_of N.job frame.now.index) frame.now.bytes)) }

        ensures finished { OnOk result (self.new
            ≡ after_finish self.old frame.now.index self.new.disk) }
        ensures closed { OnErr result (self.new ≡ after_fault self.old self.new.disk) }

        // Over every disk no file is written but the frame's and the second body.
        ensures own { OnlyWrites (IsWrittenFile (file_of N.job frame.now.index))
            (D.state self.old.disk).calls (D.state self.new.disk).calls }

        // Which calls are made, in which order, over every disk.
        ensures calls { Finishes frame.now.index (file_of N.job frame.now.index) frame.now.bytes result
            (D.state self.old.disk).calls (D.state self.new.disk).calls }
        ensures disk { LeavesDisk (IsErr result) (D.state self.old.disk) (D.state self.new.disk) }
    {
        let hash = frame.hash();
        let frame = frame.frame();
        let i = frame.index();
        match store(
            &mut self.disk,
            &mut self.ledger,
            i,
            frame.file(),
            frame.bytes(),
            hash,
        ) {
            Ok(()) => {
                self.acks.push_reserved(i);
                Ok(())
            }
            Err(DiskFault) => {
                self.closed = true;
                Err(DiskFault)
            }
        }
    }

    /// Whether a frame is acknowledged. Frames are numbered from 0, below the job's count.
    pub fn is_acked(&self, i: u32) -> bool
        requires { i < frames_of N.job }
        ensures acked { result ≡ slice_index_or self.now.ledger.gates i false }
        ensures reel { IsReelOf N.job D.tells D.state self.now }
    {
        self.ledger.is_acked(i)
    }

    /// How many frames were acknowledged before this run.
    pub fn kept(&self) -> u32
        ensures { result ≡ self.now.kept }
    {
        self.kept
    }

    /// The frames finished in this run, in order.
    pub fn acks(&self) -> &[u32]
        ensures acks { result.now ≡ self.now.acks }
        ensures reel { IsReelOf N.job D.tells D.state self.now }
    {
        &self.acks
    }

    /// Whether a fault has closed the reel.
    pub fn is_closed(&self) -> bool
        ensures { result ≡ self.now.ledger.closed }
    {
        self.closed
    }

    /// Gives the disk back, without a call on it.
    pub fn close(self) -> D
        ensures { result ≡ self.disk }
    {
        let Reel {
            disk,
            ledger: _,
            acks: _,
            kept: _,
            closed: _,
            of: _,
        } = self;
        disk
    }
}
