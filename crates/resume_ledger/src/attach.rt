//! Opening a reel's folder for a job.
ghost use Rattle.std.specs.Prelude.{◌≡◌, ◌<◌, ◌≤◌, ℕ, true, length, IsErrOf, Err, None, OnOk};
ghost use Rattle.reel_disk.specs.State.{LeavesDisk};
ghost use Rattle.resume_ledger.specs.Ledger.{IsInForce};
ghost use Rattle.resume_ledger.specs.Safe.{IsSafeOpeningOf};
ghost use Rattle.resume_ledger.specs.Sound.{IsFrameFile, file_at, OnlyReadsSecond};
ghost use Rattle.resume_ledger.specs.Attach.{HasAttachedTo, IsAnswerTo, OpeningMayWrite};
ghost use Rattle.reel_disk.specs.Call.{OnlyWrites};
ghost use Rattle.reel_disk.specs.Disk.{view_of};
ghost use Rattle.resume_ledger.specs.OpeningCalls.{Attaches, FreshCalls, FirstCalls, SecondCalls};

use crate::Ledger;
use crate::layout::Version;
use crate::older::open_older;
use crate::sealed::{is_sealed, open_sealed};
use cf_base::{FRAMES, FileId};
use reel_disk::{Disk, DiskFault};
use std::alloc::Global;

/// Why a folder is not opened.
#[derive(Clone, Copy, Debug, PartialEq, Eq)]
pub enum OpenFault {
    /// 20.1: the folder is sealed, and its body in force is another job's: the digest there, and the one that was asked for.
    OtherJob { kept: [u8; 32], wanted: [u8; 32] },
    /// 20.2: the folder is sealed, and its body in force is not well formed, or has this job's digest and another number of
    /// frames. `len` is the length of that body in bytes, 0 where it is absent.
    BadLedger { len: u64 },
    /// The disk failed.
    DiskFault,
    /// No memory was left.
    NoMemory,
}

impl Ledger {
    /// Opens a folder for the job with this digest and these files of its frames, which are `size` bytes long each. An
    /// unsealed folder is made ready, with nothing acknowledged, whatever its bodies have. One of version 1 is taken over:
    /// each frame that it acknowledges and whose file has `size` bytes stays acknowledged, with the SHA-256 of its file as
    /// it is read. In one of version 2 nothing is written.
    ///
    /// The calls on the disk are, in order: a sync of the second seal, its length and, where that is 15, a read of it.
    /// Where it is the seal: a sync of the second body, its length and, where that is at most 8,650,816, a read of it.
    /// Else: a sync of the first seal, its length and, where that is 15, a read of it. Where that is the first seal: a sync
    /// of the first body, its length and, where that is at most 262,208, a read of it; then for each acknowledged frame in
    /// order the length of its file and, where that is `size`, reads of at most 65,536 bytes to its end. Last, where
    /// nothing is refused: a write of the whole second body, a sync of it, a write of the second seal and a sync of it.
    ///
    /// `OtherJob` (20.1) and `BadLedger` (20.2) come exactly where they are so, and nothing is written then. `DiskFault`
    /// comes only where the disk's count of faults rose. After `NoMemory` nothing was written.
    pub fn attach<D: Disk>(
        alloc: Global,
        disk: &mut D,
        digest: [u8; 32],
        files: &[FileId],
        size: u64,
    ) -> Result<Ledger, OpenFault>
        requires count { (1 ≤ length files.now) × (length files.now ≤ FRAMES) }
        requires frames { (i : ℕ) → i < length files.now → IsFrameFile (file_at files.now i) }

        // By the view at the start: which answer comes, and what the disk holds then.
        ensures answer { D.tells ≡ true → HasAttachedTo digest files.now size (D.state disk.old).history (D.state disk.new).history result }

        // A crash at any moment of the call leaves a folder whose acknowledged frames are the reel's. No acknowledgement is
        // lost, where each frame that version 1 acknowledges has a file of a frame's length; and none is made. No file but
        // those of version 2 is written, and in a folder of version 2 none, whatever the answer is.
        ensures safe { D.tells ≡ true → IsSafeOpeningOf digest files.now size (D.state disk.old).history (D.state disk.new).history }
        ensures only_reads { D.tells ≡ true → OnlyReadsSecond (D.state disk.old).history (D.state disk.new).history }

        // Over every disk no file is written but those of version 2, and none where it is refused or no memory was left.
        ensures own { OnlyWrites (OpeningMayWrite result) (D.state disk.old).calls (D.state disk.new).calls }

        // The job's digest, the size of the ledger and that it is open are known over every disk.
        ensures known { IsAnswerTo digest (length files.now) result }
        ensures calls { Attaches digest files.now size result (D.state disk.old).calls (D.state disk.new).calls }
        ensures fresh { D.tells ≡ true → view_of (D.state disk.old).history FileId.Seal2 ≡ None
            → view_of (D.state disk.old).history FileId.Seal ≡ None
            → OnOk result (FreshCalls digest (length files.now) (D.state disk.old).calls (D.state disk.new).calls) }
        ensures taken { D.tells ≡ true → IsInForce Version.One (view_of (D.state disk.old).history)
            → OnOk result (FirstCalls digest files.now size (D.state disk.old).calls (D.state disk.new).calls) }
        ensures second { D.tells ≡ true → IsInForce Version.Two (view_of (D.state disk.old).history)
            → OnOk result (SecondCalls (D.state disk.old).calls (D.state disk.new).calls) }
        ensures disk { LeavesDisk (IsErrOf result OpenFault.DiskFault) (D.state disk.old) (D.state disk.new) }
    {
        match is_sealed(disk, Version::Two) {
            Ok(true) => open_sealed(alloc, disk, digest, files.len() as u32),
            Ok(false) => open_older(alloc, disk, digest, files, size),
            Err(DiskFault) => Err(OpenFault::DiskFault),
        }
    }
}
