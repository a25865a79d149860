//! The files of a job's frames.
ghost use Rattle.std.specs.Prelude.{◌≡◌, ◌<◌, ◌≤◌, ℕ, true, length, IfOk, IsErrOf, Err};
ghost use Rattle.reel_disk.specs.Call.{OnlyWrites};
ghost use Rattle.reel_disk.specs.State.{LeavesDisk};
ghost use Rattle.conform_job.specs.Job.{file_of};
ghost use Rattle.conform_job.specs.Refusals.{Files as Sources};
ghost use Rattle.frame_render.specs.Frame.{frame_file, frame_size};
ghost use Rattle.reel_disk.specs.Disk.{view_of};
ghost use Rattle.reel_disk.specs.Runs.{Narrows};
ghost use Rattle.resume_ledger.specs.Ledger.{IsInForce};
ghost use Rattle.resume_ledger.specs.Safe.{IsSafeOpening};
ghost use Rattle.resume_ledger.specs.Sound.{file_at};
ghost use Rattle.resume_ledger.specs.Attach.{IsAnswerTo, OpeningMayWrite};
ghost use Rattle.reel_writer.specs.Calls.{Opens};
ghost use Rattle.reel_writer.specs.Reel.{frames_of, HasBegun};

use cf_base::{FRAMES, FileId, HEADER};
use conform_job::Job;
use reel_disk::Disk;
use resume_ledger::{Ledger, OpenFault, Version};
use std::alloc::{AllocError, Global};

/// The files of a job's frames, in order.
pub(crate) fn files_of(alloc: Global, job: &Job) -> Result<Vec<FileId>, AllocError>
    ensures size { IfOk result (λ files. length files.items ≡ frames_of job.now) }
    ensures each { IfOk result (λ files. (i : ℕ) → i < frames_of job.now
        → file_at files.items i ≡ file_of job.now i) }
    ensures some { IfOk result (λ files. 1 ≤ length files.items) }
    ensures most { IfOk result (λ files. length files.items ≤ FRAMES) }
{
    let mut files = Vec::new(alloc);
    for i in 0..job.timeline().count() {
        files.push(job.file_of(i))?;
    }
    Ok(files)
}

/// Opens a folder for a job whose frame files have that length.
pub(crate) fn attach_for<D: Disk>(
    alloc: Global,
    disk: &mut D,
    job: &Job,
    size: u64,
) -> Result<Ledger, OpenFault>
    ensures answer { D.tells ≡ true
        → HasBegun job.now size (D.state disk.old).history (D.state disk.new).history result }
    ensures safe { D.tells ≡ true
        → IsSafeOpening job.now.parts.digest (frames_of job.now) (file_of job.now) size
        (D.state disk.old).history (D.state disk.new).history }
    ensures only_reads { D.tells ≡ true → IsInForce Version.Two (view_of (D.state disk.old).history)
        → Narrows (D.state disk.old).history (D.state disk.new).history }
    ensures own { OnlyWrites (OpeningMayWrite result) (D.state disk.old).calls (D.state disk.new).calls }
    ensures known { IsAnswerTo job.now.parts.digest (frames_of job.now) result }
    ensures calls { Opens job.now size result (D.state disk.old).calls (D.state disk.new).calls }
    ensures disk { LeavesDisk (IsErrOf result OpenFault.DiskFault) (D.state disk.old) (D.state disk.new) }
{
    let Ok(files) = files_of(alloc, job) else {
        return Err(OpenFault::NoMemory);
    };
    Ledger::attach(alloc, disk, job.digest(), &files, size)
}

/// The length of the file of a frame, in bytes: 2048 of header and four for each pixel.
pub(crate) fn frame_len(job: &Job) -> u64
    ensures size { result ≡ frame_size job.now }
    ensures each { (sources : Sources) (i : ℕ) → length (frame_file job.now sources i) ≡ frame_size job.now }
{
    job.recall();
    HEADER as u64 + 4 * (job.width() as u64 * job.height() as u64)
}
