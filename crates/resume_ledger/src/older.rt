//! Opening a folder that is not sealed by version 2: an unsealed one, or one of version 1, which is taken over.
ghost use Rattle.std.specs.Prelude.{◌≡◌, ◌≢◌, ◌+◌, ◌*◌, ◌<◌, ◌≤◌, ℕ, true, length, slice_index, OnOk, IsErr, IsErrOf, Err, None, IfOk, OnErr};
ghost use Rattle.reel_disk.specs.State.{LeavesDisk, OnlyReads};
ghost use Rattle.reel_disk.specs.Disk.{view_of, moment_of, loose_of, IsFirm};
ghost use Rattle.resume_ledger.specs.Body.{closed_body};
ghost use Rattle.resume_ledger.specs.Ledger.{IsInForce};
ghost use Rattle.resume_ledger.specs.Sound.{IsFrameFile, file_at};
ghost use Rattle.resume_ledger.specs.Attach.{HasAttachedTo, IsAnswerTo};
ghost use Rattle.resume_ledger.specs.Steps.{OthersKept};
ghost use Rattle.resume_ledger.specs.inside.Steps.{IsReading, HasAcked, IsAckedFor, HasFirstBodyOf, IsFirstFor, IsRecorded, AreNoted, TakesOver, IsBegun};
ghost use Rattle.resume_ledger.specs.Safe.{IsSafeOpeningOf};
ghost use Rattle.resume_ledger.specs.Calls.{Begins};
ghost use Rattle.resume_ledger.specs.OpeningCalls.{FindsNone, MakesFresh, TakesFirst, TakesOverCalls, TakesFrame, TakesFrames, FailsHash, FailsFrames, AcksBefore, Takes, ReadsFirst, OpensOlder};

use crate::body::{closed, gates, judge, set_record};
use crate::hash::hash_of_file;
use crate::layout::Version;
use crate::sealed::{is_sealed, read_body};
use crate::write::write_firmly;
use crate::{Ledger, OpenFault};
use cf_base::{FRAMES, FileId, PIECE};
use reel_disk::{Disk, DiskFault};
use std::alloc::Global;

/// Opens a folder that is not sealed by version 2. All memory is taken before the first write.
pub(crate) fn open_older<D: Disk>(
    alloc: Global,
    disk: &mut D,
    digest: [u8; 32],
    files: &[FileId],
    size: u64,
) -> Result<Ledger, OpenFault>
    requires some { 1 ≤ length files.now }
    requires most { length files.now ≤ FRAMES }
    requires frames { (i : ℕ) → i < length files.now → IsFrameFile (file_at files.now i) }
    requires unsealed { D.tells ≡ true → IsInForce Version.Two (view_of (D.state disk.old).history) → ⊥ }
    requires firm { D.tells ≡ true → IsFirm (loose_of (D.state disk.old).history) FileId.Seal2 }
    ensures safe { D.tells ≡ true → IsSafeOpeningOf digest files.now size (D.state disk.old).history (D.state disk.new).history }
    ensures answer { D.tells ≡ true → HasAttachedTo digest files.now size (D.state disk.old).history (D.state disk.new).history result }
    ensures known { IsAnswerTo digest (length files.now) result }
    ensures calls { OpensOlder digest (length files.now) (file_at files.now) size result (D.state disk.old).calls (D.state disk.new).calls }
    ensures taken { D.tells ≡ true → IsInForce Version.One (view_of (D.state disk.old).history)
        → OnOk result (TakesOverCalls digest (length files.now) (file_at files.now) size (D.state disk.old).calls
        (D.state disk.new).calls) }
    ensures fresh { D.tells ≡ true → view_of (D.state disk.old).history FileId.Seal ≡ None
        → OnOk result (MakesFresh digest (length files.now) (D.state disk.old).calls (D.state disk.new).calls) }
    ensures disk { LeavesDisk (IsErrOf result OpenFault.DiskFault) (D.state disk.old) (D.state disk.new) }
{
    let body = match first_body(alloc, disk, digest, files, size) {
        Ok(body) => body,
        Err(fault) => return Err(fault),
    };
    let Ok(gates) = gates(alloc, Version::Two, &body, files.len() as u32) else {
        return Err(OpenFault::NoMemory);
    };
    match begin_second(disk, &body) {
        Ok(()) => Ok(Ledger::of(digest, gates)),
        Err(DiskFault) => Err(OpenFault::DiskFault),
    }
}

/// The body that version 2 begins with: the closed one, or where the folder is sealed by version 1, with the records of the
/// frames that it acknowledges. Syncs and reads alone.
fn first_body<D: Disk>(
    alloc: Global,
    disk: &mut D,
    digest: [u8; 32],
    files: &[FileId],
    size: u64,
) -> Result<Vec<u8>, OpenFault>
    requires some { 1 ≤ length files.now }
    requires most { length files.now ≤ FRAMES }
    requires unsealed { D.tells ≡ true → IsInForce Version.Two (view_of (D.state disk.old).history) → ⊥ }
    requires firm { D.tells ≡ true → IsFirm (loose_of (D.state disk.old).history) FileId.Seal2 }
    ensures reading { D.tells ≡ true → IsReading (D.state disk.old).history (D.state disk.new).history }
    ensures body { D.tells ≡ true → HasFirstBodyOf digest files.now size (D.state disk.old).history (D.state disk.new).history result }
    ensures known { IsFirstFor digest (length files.now) result }
    ensures calls { ReadsFirst digest (length files.now) (file_at files.now) size result (D.state disk.old).calls (D.state disk.new).calls }
    ensures taken { D.tells ≡ true → IsInForce Version.One (view_of (D.state disk.old).history)
        → IfOk result (λ body. TakesFirst digest (length files.now) (file_at files.now) size body.items (D.state disk.old).calls
        (D.state disk.new).calls) }
    ensures fresh { D.tells ≡ true → view_of (D.state disk.old).history FileId.Seal ≡ None
        → IfOk result (λ body. (body.items ≡ closed_body digest (length files.now)) × FindsNone Version.One
        (D.state disk.old).calls (D.state disk.new).calls) }
    ensures disk { LeavesDisk (IsErrOf result OpenFault.DiskFault) (D.state disk.old) (D.state disk.new) }
{
    let Ok(body) = closed(alloc, &digest, files.len() as u32) else {
        return Err(OpenFault::NoMemory);
    };
    match is_sealed(disk, Version::One) {
        Ok(true) => taken_body(alloc, disk, digest, files, size, body),
        Ok(false) => Ok(body),
        Err(DiskFault) => Err(OpenFault::DiskFault),
    }
}

/// The closed body with the records of the frames that version 1 acknowledges.
fn taken_body<D: Disk>(
    alloc: Global,
    disk: &mut D,
    digest: [u8; 32],
    files: &[FileId],
    size: u64,
    body: Vec<u8>,
) -> Result<Vec<u8>, OpenFault>
    requires some { 1 ≤ length files.now }
    requires most { length files.now ≤ FRAMES }
    requires closed { body.items ≡ closed_body digest (length files.now) }
    requires size { length body.items ≡ 64 + 33 * length files.now }
    requires sealed { D.tells ≡ true → IsInForce Version.One (view_of (D.state disk.old).history) }
    requires firm { D.tells ≡ true → IsFirm (loose_of (D.state disk.old).history) FileId.Seal2 }
    requires firm_first { D.tells ≡ true → IsFirm (loose_of (D.state disk.old).history) FileId.Seal }
    ensures reading { D.tells ≡ true → IsReading (D.state disk.old).history (D.state disk.new).history }
    ensures body { D.tells ≡ true → HasFirstBodyOf digest files.now size (D.state disk.old).history (D.state disk.new).history result }
    ensures known { IsFirstFor digest (length files.now) result }
    ensures calls { Takes digest (length files.now) (file_at files.now) size result (D.state disk.old).calls (D.state disk.new).calls }
    ensures disk { LeavesDisk (IsErrOf result OpenFault.DiskFault) (D.state disk.old) (D.state disk.new) }
{
    let gates = match acked_before(alloc, disk, digest, files.len() as u32) {
        Ok(gates) => gates,
        Err(fault) => return Err(fault),
    };
    let Ok(mut piece) = vec![in alloc; 0u8; PIECE] else {
        return Err(OpenFault::NoMemory);
    };
    let mut body = body;
    match record_all(disk, &gates, files, size, &mut piece, &mut body) {
        Ok(()) => Ok(body),
        Err(DiskFault) => Err(OpenFault::DiskFault),
    }
}

/// Which frames a folder acknowledges that is sealed by version 1.
fn acked_before<D: Disk>(
    alloc: Global,
    disk: &mut D,
    digest: [u8; 32],
    count: u32,
) -> Result<Vec<bool>, OpenFault>
    requires most { count ≤ FRAMES }
    requires sealed { D.tells ≡ true → IsInForce Version.One (view_of (D.state disk.old).history) }
    ensures reading { D.tells ≡ true → IsReading (D.state disk.old).history (D.state disk.new).history }
    ensures acked { D.tells ≡ true → HasAcked digest count (D.state disk.old).history (D.state disk.new).history result }
    ensures known { IsAckedFor digest count result }
    ensures calls { AcksBefore digest count result (D.state disk.old).calls (D.state disk.new).calls }
    ensures disk { LeavesDisk (IsErrOf result OpenFault.DiskFault) (D.state disk.old) (D.state disk.new) }
{
    let body = match read_body(alloc, disk, Version::One) {
        Ok(body) => body,
        Err(fault) => return Err(fault),
    };
    judge(alloc, Version::One, &body, digest, count)
}

/// Opens the gate of a frame that was acknowledged and whose file has the length of one, with the SHA-256 of that file.
fn record_one<D: Disk>(
    disk: &mut D,
    was_open: bool,
    id: FileId,
    size: u64,
    piece: &mut [u8],
    body: &mut [u8],
    i: u32,
) -> Result<(), DiskFault>
    requires piece { length piece.old ≡ PIECE }
    requires within { 64 + 33 * (i + 1) ≤ length body.old }
    requires closed { slice_index body.old (64 + 33 * i) ≢ 65 }
    ensures reads { OnlyReads D.tells (D.state disk.old) (D.state disk.new) }
    ensures recorded { OnOk result (D.tells ≡ true → IsRecorded was_open (view_of (D.state disk.old).history id) size body.new i) }
    ensures others { OthersKept body.old body.new i }
    ensures piece { length piece.new ≡ PIECE }
    ensures calls { OnOk result (TakesFrame was_open id size i body.old body.new (D.state disk.old).calls (D.state disk.new).calls) }
    ensures failed { OnErr result ((was_open ≡ true) × FailsHash id size (D.state disk.old).calls (D.state disk.new).calls) }
    ensures disk { LeavesDisk (IsErr result) (D.state disk.old) (D.state disk.new) }
{
    if !was_open {
        return Ok(());
    }
    match hash_of_file(disk, id, size, piece) {
        Ok(Some(hash)) => {
            set_record(body, i, &hash);
            Ok(())
        }
        Ok(None) => Ok(()),
        Err(DiskFault) => Err(DiskFault),
    }
}

/// Gives a closed body the gates and records of the acknowledged frames, whose files are read in order.
fn record_all<D: Disk>(
    disk: &mut D,
    gates: &[bool],
    files: &[FileId],
    size: u64,
    piece: &mut [u8],
    body: &mut [u8],
) -> Result<(), DiskFault>
    requires piece { length piece.old ≡ PIECE }
    requires few { length files.now ≤ FRAMES }
    requires gates { length gates.now ≡ length files.now }
    requires body { length body.old ≡ 64 + 33 * length files.now }
    requires closed { (k : ℕ) → k < length files.now → slice_index body.old (64 + 33 * k) ≢ 65 }
    ensures reads { OnlyReads D.tells (D.state disk.old) (D.state disk.new) }
    ensures size { length body.new ≡ length body.old }
    ensures recorded { OnOk result (D.tells ≡ true → AreNoted gates.now files.now size (D.state disk.old).history body.old body.new) }
    ensures calls { OnOk result
        (TakesFrames gates.now (file_at files.now) size (length files.now) body.old body.new (D.state disk.old).calls
        (D.state disk.new).calls) }
    ensures failed { OnErr result
        (FailsFrames gates.now (file_at files.now) size (length files.now) body.old (D.state disk.old).calls (D.state disk.new).calls) }
    ensures disk { LeavesDisk (IsErr result) (D.state disk.old) (D.state disk.new) }
{
    for i in 0..files.len() {
        match record_one(disk, gates[i], files[i], size, piece, body, i as u32) {
            Ok(()) => {}
            Err(DiskFault) => return Err(DiskFault),
        }
    }
    Ok(())
}

/// Puts version 2 in force: its body is on the disk before there is its seal.
fn begin_second<D: Disk>(disk: &mut D, body: &[u8]) -> Result<(), DiskFault>
    ensures part { D.tells ≡ true → TakesOver body.now (D.state disk.old).history (D.state disk.new).history }
    ensures begun { OnOk result (D.tells ≡ true → IsBegun body.now (moment_of (D.state disk.new).history)) }
    ensures calls { Begins body.now result (D.state disk.old).calls (D.state disk.new).calls }
    ensures disk { LeavesDisk (IsErr result) (D.state disk.old) (D.state disk.new) }
{
    let Ok(()) = write_firmly(disk, FileId::Body2, body) else {
        return Err(DiskFault);
    };
    let Ok(()) = write_firmly(disk, FileId::Seal2, &Version::Two.mark()) else {
        return Err(DiskFault);
    };
    Ok(())
}
