//! Writes that are synced at once.
ghost use Rattle.std.specs.Prelude.{◌≡◌, true, length, Some, OnOk, IsErr};
ghost use Rattle.reel_disk.specs.State.{LeavesDisk};
ghost use Rattle.reel_disk.specs.declared.disk.Place.TheVariants.{Whole, Range};
ghost use Rattle.reel_disk.specs.Disk.{view_of, IsInFile};
ghost use Rattle.reel_disk.specs.Runs.{Spares};
ghost use Rattle.resume_ledger.specs.Steps.{IsPut, IsFirmly};
ghost use Rattle.resume_ledger.specs.inside.Steps.{IsPatchedFirmly};
ghost use Rattle.reel_disk.specs.Call.{Wrote, Patched, OnlyWrites};
ghost use Rattle.resume_ledger.specs.Calls.{Puts};

use cf_base::FileId;
use reel_disk::{Did, Disk, DiskFault};

/// Writes a whole file and syncs it. Until the sync a crash may leave anything there, and from then on these bytes.
///
/// `DiskFault` comes only where the disk's count of faults rose. Takes no memory.
pub fn write_firmly<D: Disk>(disk: &mut D, id: FileId, bytes: &[u8]) -> Result<(), DiskFault>
    ensures put { D.tells ≡ true → IsPut (D.state disk.old).history (D.state disk.new).history (Whole id) }
    ensures spares { D.tells ≡ true → Spares (D.state disk.old).history (D.state disk.new).history (λ q. q ≡ id) }
    ensures own { OnlyWrites (λ q. q ≡ id) (D.state disk.old).calls (D.state disk.new).calls }
    ensures firmly { OnOk result (D.tells ≡ true → IsFirmly (D.state disk.old).history (D.state disk.new).history id (Some bytes.now)) }
    ensures calls { Puts (Wrote id bytes.now) id result (D.state disk.old).calls (D.state disk.new).calls }
    ensures disk { LeavesDisk (IsErr result) (D.state disk.old) (D.state disk.new) }
{
    let Did::Done = disk.write_whole(id, bytes) else {
        return Err(DiskFault);
    };
    let Did::Done = disk.sync(id) else {
        return Err(DiskFault);
    };
    Ok(())
}

/// Writes over a part of a file that is there, from byte `start` on, and syncs the file.
pub(crate) fn patch_firmly<D: Disk>(
    disk: &mut D,
    id: FileId,
    start: u64,
    bytes: &[u8],
) -> Result<(), DiskFault>
    requires there { D.tells ≡ true → IsInFile (view_of (D.state disk.old).history id) start (length bytes.now) }
    ensures put { D.tells ≡ true → IsPut (D.state disk.old).history (D.state disk.new).history (Range id start (length bytes.now)) }
    ensures spares { D.tells ≡ true → Spares (D.state disk.old).history (D.state disk.new).history (λ q. q ≡ id) }
    ensures own { OnlyWrites (λ q. q ≡ id) (D.state disk.old).calls (D.state disk.new).calls }
    ensures firmly { OnOk result
        (D.tells ≡ true → IsPatchedFirmly (D.state disk.old).history (D.state disk.new).history id start bytes.now) }
    ensures calls { Puts (Patched id start bytes.now) id result (D.state disk.old).calls (D.state disk.new).calls }
    ensures disk { LeavesDisk (IsErr result) (D.state disk.old) (D.state disk.new) }
{
    let Did::Done = disk.write_at(id, start, bytes) else {
        return Err(DiskFault);
    };
    let Did::Done = disk.sync(id) else {
        return Err(DiskFault);
    };
    Ok(())
}
