//! A file of the folder that is read whole.
ghost use Rattle.std.specs.Prelude.{◌≡◌, ◌↔◌, true, length, IfOk, IsErr, Some};
ghost use Rattle.reel_disk.specs.Disk.{view_of};
ghost use Rattle.resume_ledger.specs.Sound.{HasSize};
ghost use Rattle.reel_writer.specs.Reads.{AsksWhole, MakesOnly, ReadsWhole};
ghost use Rattle.reel_disk.specs.State.{LeavesDisk, OnlyReads};

use cf_base::FileId;
use reel_disk::{Disk, DiskFault, Got, Length};

/// Reads a file that has as many bytes as `into`: whether it has. The calls on the disk are its length and one read.
///
/// `DiskFault` comes only where the disk's count of faults rose. Takes no memory.
pub fn read_whole<D: Disk>(disk: &mut D, id: FileId, into: &mut [u8]) -> Result<bool, DiskFault>
    ensures whole { IfOk result (λ is. D.tells ≡ true
        → (is ≡ true) ↔ HasSize (length into.old) (view_of (D.state disk.old).history id)) }
    ensures bytes { IfOk result (λ is. is ≡ true → D.tells ≡ true
        → view_of (D.state disk.old).history id ≡ Some into.new) }
    ensures room { length into.new ≡ length into.old }

    // Over every disk, it asks for the length and, if that is as wanted, for all of the file once. The bytes are what its read gave, and
    // no call is made on another file.
    ensures asks { AsksWhole id (length into.old) result (D.state disk.old).calls (D.state disk.new).calls }
    ensures calls { IfOk result (λ is. is ≡ true → ReadsWhole id into.new (D.state disk.old).calls (D.state disk.new).calls) }
    ensures on { MakesOnly (λ q. q ≡ id) (D.state disk.old).calls (D.state disk.new).calls }
    ensures reads { OnlyReads D.tells (D.state disk.old) (D.state disk.new) }
    ensures disk { LeavesDisk (IsErr result) (D.state disk.old) (D.state disk.new) }
{
    let len = match disk.length(id) {
        Length::There(len) => len,
        Length::Absent => return Ok(false),
        Length::Failed => return Err(DiskFault),
    };
    if len != into.len() as u64 {
        return Ok(false);
    }
    match disk.read(id, 0, into) {
        Got::Bytes(n) => Ok(n == into.len()),
        Got::Absent => Ok(false),
        Got::Failed => Err(DiskFault),
    }
}
