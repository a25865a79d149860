//! The device calls of a frame.
ghost use Rattle.std.specs.Prelude.{◌≡◌, ◌<◌, true, false, length, slice_index_or, OnOk, IsErr};
ghost use Rattle.cf_base.specs.declared.file.FileId.TheVariants.{Body2};
ghost use Rattle.sha2.specs.Sha256.{sha256};
ghost use Rattle.reel_disk.specs.Disk.{moment_of};
ghost use Rattle.reel_disk.specs.Runs.{Extends, Spares, Surely};
ghost use Rattle.resume_ledger.specs.Ledger.{Agrees};
ghost use Rattle.resume_ledger.specs.Sound.{IsFrameFile};
ghost use Rattle.reel_disk.specs.Call.{OnlyWrites};
ghost use Rattle.reel_disk.specs.State.{LeavesDisk};
ghost use Rattle.reel_writer.specs.Calls.{Acknowledging, Finishes};
ghost use Rattle.reel_writer.specs.Reel.{HasStored, IsWrittenFile};
ghost use Rattle.reel_writer.specs.inside.Reel.{Acknowledges, FinishesStored, IsFinishing};

use cf_base::FileId;
use reel_disk::{Disk, DiskFault};
use resume_ledger::{Ledger, write_firmly};

/// Writes a frame's file and acknowledges the frame: a write of the whole file and a sync of it, then what `acknowledge` does.
pub(crate) fn store<D: Disk>(
    disk: &mut D,
    ledger: &mut Ledger,
    i: u32,
    file: FileId,
    bytes: &[u8],
    hash: [u8; 32],
) -> Result<(), DiskFault>
    requires is_open { ledger.old.closed ≡ false }
    requires agrees { D.tells ≡ true → Agrees (moment_of (D.state disk.old).history) ledger.old }
    requires within { i < length ledger.old.gates }
    requires fresh { slice_index_or ledger.old.gates i false ≡ false }
    requires frame { IsFrameFile file }
    requires hash { hash ≡ sha256 bytes.now }

    ensures finishing { D.tells ≡ true
        → IsFinishing ledger.old.digest (length ledger.old.gates) i file bytes.now
        (D.state disk.old).history (D.state disk.new).history }

    ensures stored { OnOk result (D.tells ≡ true
        → Surely (moment_of (D.state disk.new).history) (HasStored file bytes.now)) }
    ensures ledger { Acknowledges D.tells i result (moment_of (D.state disk.new).history) ledger.old ledger.new }
    ensures own { OnlyWrites (IsWrittenFile file) (D.state disk.old).calls (D.state disk.new).calls }
    ensures calls { Finishes i file bytes.now result (D.state disk.old).calls (D.state disk.new).calls }
    ensures disk { LeavesDisk (IsErr result) (D.state disk.old) (D.state disk.new) }
{
    let Ok(()) = write_firmly(disk, file, bytes) else {
        return Err(DiskFault);
    };
    acknowledge(disk, ledger, i, hash)
}

/// Acknowledges a frame whose file has this hash and was stored before: a write of the record, a sync of the body, a write
/// of the gate, and a sync of the body.
fn acknowledge<D: Disk>(
    disk: &mut D,
    ledger: &mut Ledger,
    i: u32,
    hash: [u8; 32],
) -> Result<(), DiskFault>
    requires is_open { ledger.old.closed ≡ false }
    requires agrees { D.tells ≡ true → Agrees (moment_of (D.state disk.old).history) ledger.old }
    requires within { i < length ledger.old.gates }
    requires fresh { slice_index_or ledger.old.gates i false ≡ false }

    ensures past { D.tells ≡ true → Extends (D.state disk.old).history (D.state disk.new).history }
    ensures finishing { D.tells ≡ true
        → FinishesStored ledger.old.digest (length ledger.old.gates) i hash
        (D.state disk.old).history (D.state disk.new).history }
    ensures spares { D.tells ≡ true
        → Spares (D.state disk.old).history (D.state disk.new).history (λ q. q ≡ Body2) }

    ensures ledger { Acknowledges D.tells i result (moment_of (D.state disk.new).history) ledger.old ledger.new }
    ensures own { OnlyWrites (λ q. q ≡ Body2) (D.state disk.old).calls (D.state disk.new).calls }
    ensures calls { Acknowledging i hash result (D.state disk.old).calls (D.state disk.new).calls }
    ensures disk { LeavesDisk (IsErr result) (D.state disk.old) (D.state disk.new) }
{
    let Ok(()) = ledger.note(disk, i, hash) else {
        return Err(DiskFault);
    };
    match ledger.ack(disk, i) {
        Ok(()) => Ok(()),
        Err(DiskFault) => Err(DiskFault),
    }
}
