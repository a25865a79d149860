//! The SHA-256 of a file of a reel folder, read in pieces.
ghost use Rattle.std.specs.Prelude.{◌≡◌, true, length, IfOk, IsErr, OnErr};
ghost use Rattle.reel_disk.specs.State.{LeavesDisk, OnlyReads};
ghost use Rattle.reel_disk.specs.Disk.{view_of};
ghost use Rattle.resume_ledger.specs.Sound.{HasSize};
ghost use Rattle.resume_ledger.specs.Hash.{IsHashOf, digest_of_file};
ghost use Rattle.resume_ledger.specs.Calls.{Hashes, ReadsHash};
ghost use Rattle.resume_ledger.specs.OpeningCalls.{FailsReads, FailsHash, FailsDigest, Digests};

use cf_base::{FileId, PIECE};
use reel_disk::{Disk, DiskFault, Got, Length};
use sha2::{Digest, Sha256};

/// The SHA-256 (FIPS 180-4) of a file that has this many bytes: None where it is absent or has another length. The calls on
/// the disk are its length and, where that is `size`, reads of at most `piece.len()` bytes to its end.
///
/// `DiskFault` comes only where the disk's count of faults rose. The bytes of `piece` are lost. Takes no memory.
pub fn hash_of_file<D: Disk>(
    disk: &mut D,
    id: FileId,
    size: u64,
    piece: &mut [u8],
) -> Result<Option<[u8; 32]>, DiskFault>
    requires piece { length piece.old ≡ PIECE }
    ensures reads { OnlyReads D.tells (D.state disk.old) (D.state disk.new) }
    ensures hash { IfOk result (λ hash. D.tells ≡ true → IsHashOf (view_of (D.state disk.old).history id) size hash) }
    ensures piece { length piece.new ≡ PIECE }
    ensures calls { IfOk result (λ hash. Hashes id size hash (D.state disk.old).calls (D.state disk.new).calls) }
    ensures failed { OnErr result (FailsHash id size (D.state disk.old).calls (D.state disk.new).calls) }
    ensures disk { LeavesDisk (IsErr result) (D.state disk.old) (D.state disk.new) }
{
    match disk.length(id) {
        Length::There(len) if len == size => read_pieces(disk, id, size, piece),
        Length::Failed => Err(DiskFault),
        _ => Ok(None),
    }
}

/// The SHA-256 (FIPS 180-4) of a file of any length; an absent one counts as no bytes. The calls on the disk are its length and
/// reads of at most `piece.len()` bytes to its end.
///
/// `DiskFault` comes only where the disk's count of faults rose. The bytes of `piece` are lost. Takes no memory.
pub fn digest_of_file<D: Disk>(
    disk: &mut D,
    id: FileId,
    piece: &mut [u8],
) -> Result<[u8; 32], DiskFault>
    requires piece { length piece.old ≡ PIECE }
    ensures reads { OnlyReads D.tells (D.state disk.old) (D.state disk.new) }
    ensures digest { IfOk result (λ digest. D.tells ≡ true → digest ≡ digest_of_file (view_of (D.state disk.old).history id)) }
    ensures piece { length piece.new ≡ PIECE }
    ensures calls { IfOk result (λ digest. Digests id digest (D.state disk.old).calls (D.state disk.new).calls) }
    ensures failed { OnErr result (FailsDigest id (D.state disk.old).calls (D.state disk.new).calls) }
    ensures disk { LeavesDisk (IsErr result) (D.state disk.old) (D.state disk.new) }
{
    let size = match disk.length(id) {
        Length::There(size) => size,
        Length::Absent => return Ok(Sha256::digest([0; 0])),
        Length::Failed => return Err(DiskFault),
    };
    match read_pieces(disk, id, size, piece) {
        Ok(Some(digest)) => Ok(digest),
        Ok(None) => Ok(Sha256::digest([0; 0])),
        Err(DiskFault) => Err(DiskFault),
    }
}

/// The SHA-256 of a file that has that length.
fn read_pieces<D: Disk>(
    disk: &mut D,
    id: FileId,
    size: u64,
    piece: &mut [u8],
) -> Result<Option<[u8; 32]>, DiskFault>
    requires piece { length piece.old ≡ PIECE }
    requires there { D.tells ≡ true → HasSize size (view_of (D.state disk.old).history id) }
    ensures reads { OnlyReads D.tells (D.state disk.old) (D.state disk.new) }
    ensures hash { IfOk result (λ hash. D.tells ≡ true → IsHashOf (view_of (D.state disk.old).history id) size hash) }
    ensures piece { length piece.new ≡ PIECE }
    ensures calls { IfOk result (λ hash. ReadsHash id size hash (D.state disk.old).calls (D.state disk.new).calls) }
    ensures failed { OnErr result (FailsReads id size (D.state disk.old).calls (D.state disk.new).calls) }
    ensures disk { LeavesDisk (IsErr result) (D.state disk.old) (D.state disk.new) }
{
    let mut hasher = Sha256::new();
    let mut at: u64 = 0;
    while at < size {
        let n = match disk.read(id, at, piece) {
            Got::Bytes(n) if n > 0 => n,
            Got::Failed => return Err(DiskFault),
            _ => return Ok(None),
        };
        hasher.update(&piece[..n]);
        at = at.saturating_add(n as u64);
    }
    Ok(Some(hasher.finalize()))
}
