//! Reading the files of a ledger.
ghost use Rattle.std.specs.Prelude.{◌≡◌, ◌≢◌, ◌↔◌, ◌≤◌, true, IfOk, OnOk, IsErr, IsErrOf, Err, ◌∷◌, None};
ghost use Rattle.reel_disk.specs.State.{LeavesDisk, OnlyReads};
ghost use Rattle.reel_disk.specs.Disk.{view_of, loose_of, IsFirm};
ghost use Rattle.resume_ledger.specs.Body.{layout_of};
ghost use Rattle.resume_ledger.specs.Ledger.{HasSeal, IsInForce};
ghost use Rattle.resume_ledger.specs.Attach.{IsAnswerTo};
ghost use Rattle.resume_ledger.specs.inside.Steps.{IsReading, IsReadFirmly, ReadsBody, HasBody, HasRead, IsVersionOf};

use crate::body::judge;
use crate::layout::Version;
use crate::{Ledger, OpenFault};
use cf_base::FRAMES;
use reel_disk::{Did, Disk, DiskFault, Got, Length};
use std::alloc::Global;

/// Whether a read finds the seal of a version.
fn has_seal<D: Disk>(disk: &mut D, version: Version) -> Result<bool, DiskFault>
    ensures reads { OnlyReads D.tells (D.state disk.old) (D.state disk.new) }
    ensures sealed { IfOk result (λ sealed. D.tells ≡ true → (sealed ≡ true ↔ HasSeal version (view_of (D.state disk.old).history))) }
    ensures calls { SeeksSeal version result (D.state disk.old).calls (D.state disk.new).calls }
    ensures absent { D.tells ≡ true → view_of (D.state disk.old).history (layout_of version).seal ≡ None
        → OnOk result ((D.state disk.new).calls ≡ Measured (layout_of version).seal Length.Absent ∷ (D.state disk.old).calls) }
    ensures disk { LeavesDisk (IsErr result) (D.state disk.old) (D.state disk.new) }
{
    match disk.length(version.seal()) {
        Length::There(15) => {
            let mut seal = [0; 15];
            match disk.read(version.seal(), 0, &mut seal) {
                Got::Bytes(15) => Ok(seal == version.mark()),
                Got::Failed => Err(DiskFault),
                _ => Ok(false),
            }
        }
        Length::Failed => Err(DiskFault),
        _ => Ok(false),
    }
}

/// The version in force, as a read finds it.
pub(crate) fn in_force<D: Disk>(disk: &mut D) -> Result<Option<Version>, DiskFault>
    ensures reads { OnlyReads D.tells (D.state disk.old) (D.state disk.new) }
    ensures version { IfOk result (λ version. D.tells ≡ true → IsVersionOf (view_of (D.state disk.old).history) version) }
    ensures calls { SeeksVersion result (D.state disk.old).calls (D.state disk.new).calls }
    ensures disk { LeavesDisk (IsErr result) (D.state disk.old) (D.state disk.new) }
{
    match has_seal(disk, Version::Two) {
        Ok(true) => Ok(Some(Version::Two)),
        Ok(false) => match has_seal(disk, Version::One) {
            Ok(true) => Ok(Some(Version::One)),
            Ok(false) => Ok(None),
            Err(DiskFault) => Err(DiskFault),
        },
        Err(DiskFault) => Err(DiskFault),
    }
}

/// Whether the seal of a version is there, and a crash keeps that so.
pub(crate) fn is_sealed<D: Disk>(disk: &mut D, version: Version) -> Result<bool, DiskFault>
    ensures reading { D.tells ≡ true → IsReading (D.state disk.old).history (D.state disk.new).history }
    ensures read { OnOk result
        (D.tells ≡ true → IsReadFirmly (layout_of version).seal (D.state disk.old).history (D.state disk.new).history) }
    ensures sealed { IfOk result (λ sealed. D.tells ≡ true → (sealed ≡ true ↔ HasSeal version (view_of (D.state disk.old).history))) }
    ensures calls { SyncsSeal version result (D.state disk.old).calls (D.state disk.new).calls }
    ensures absent { D.tells ≡ true → view_of (D.state disk.old).history (layout_of version).seal ≡ None
        → OnOk result (FindsNone version (D.state disk.old).calls (D.state disk.new).calls) }
    ensures disk { LeavesDisk (IsErr result) (D.state disk.old) (D.state disk.new) }
{
    let Did::Done = disk.sync(version.seal()) else {
        return Err(DiskFault);
    };
    has_seal(disk, version)
}

/// The body of a version as a read finds it, where it is not too long for any job.
pub(crate) fn load_body<D: Disk>(
    alloc: Global,
    disk: &mut D,
    version: Version,
) -> Result<Vec<u8>, OpenFault>
    ensures reads { OnlyReads D.tells (D.state disk.old) (D.state disk.new) }
    ensures body { D.tells ≡ true → HasBody (layout_of version) (view_of (D.state disk.old).history (layout_of version).body) result }
    ensures known { HasRead (layout_of version) result }
    ensures calls { LoadsBody version result (D.state disk.old).calls (D.state disk.new).calls }
    ensures disk { LeavesDisk (IsErrOf result OpenFault.DiskFault) (D.state disk.old) (D.state disk.new) }
{
    let len = match disk.length(version.body()) {
        Length::There(len) => len,
        Length::Absent => return Err(OpenFault::BadLedger { len: 0 }),
        Length::Failed => return Err(OpenFault::DiskFault),
    };
    if len > version.most() {
        return Err(OpenFault::BadLedger { len });
    }
    let Ok(mut body) = vec![in alloc; 0u8; len as usize] else {
        return Err(OpenFault::NoMemory);
    };
    match disk.read(version.body(), 0, &mut body) {
        Got::Bytes(n) if n == body.len() => Ok(body),
        Got::Failed => Err(OpenFault::DiskFault),
        _ => Err(OpenFault::BadLedger { len }),
    }
}

/// The body of a version, where it is not too long for any job, and a crash keeps it so.
pub(crate) fn read_body<D: Disk>(
    alloc: Global,
    disk: &mut D,
    version: Version,
) -> Result<Vec<u8>, OpenFault>
    ensures reading { D.tells ≡ true → IsReading (D.state disk.old).history (D.state disk.new).history }
    ensures read { result ≢ Err OpenFault.DiskFault → D.tells ≡ true
        → ReadsBody version (D.state disk.old).history (D.state disk.new).history }
    ensures body { D.tells ≡ true → HasBody (layout_of version) (view_of (D.state disk.old).history (layout_of version).body) result }
    ensures known { HasRead (layout_of version) result }
    ensures calls { SyncsBody version result (D.state disk.old).calls (D.state disk.new).calls }
    ensures disk { LeavesDisk (IsErrOf result OpenFault.DiskFault) (D.state disk.old) (D.state disk.new) }
{
    let Did::Done = disk.sync(version.body()) else {
        return Err(OpenFault::DiskFault);
    };
    load_body(alloc, disk, version)
}

ghost use Rattle.cf_base.specs.declared.file.FileId.TheVariants.{Seal2};
ghost use Rattle.resume_ledger.specs.inside.Attach.{HasAttachedSecond};
ghost use Rattle.reel_disk.specs.Call.{Measured};
ghost use Rattle.resume_ledger.specs.Calls.{SeeksSeal, SeeksVersion, LoadsBody, SyncsSeal, SyncsBody, OpensSealed};
ghost use Rattle.resume_ledger.specs.OpeningCalls.{FindsNone};

/// Reads the body of a folder that is sealed by version 2.
pub(crate) fn open_sealed<D: Disk>(
    alloc: Global,
    disk: &mut D,
    digest: [u8; 32],
    count: u32,
) -> Result<Ledger, OpenFault>
    requires some { 1 ≤ count }
    requires most { count ≤ FRAMES }
    requires sealed { D.tells ≡ true → IsInForce Version.Two (view_of (D.state disk.old).history) }
    requires firm { D.tells ≡ true → IsFirm (loose_of (D.state disk.old).history) Seal2 }
    ensures reading { D.tells ≡ true → IsReading (D.state disk.old).history (D.state disk.new).history }
    ensures answer { D.tells ≡ true → HasAttachedSecond digest count (D.state disk.old).history (D.state disk.new).history result }
    ensures known { IsAnswerTo digest count result }
    ensures calls { OpensSealed digest count result (D.state disk.old).calls (D.state disk.new).calls }
    ensures disk { LeavesDisk (IsErrOf result OpenFault.DiskFault) (D.state disk.old) (D.state disk.new) }
{
    let body = match read_body(alloc, disk, Version::Two) {
        Ok(body) => body,
        Err(fault) => return Err(fault),
    };
    match judge(alloc, Version::Two, &body, digest, count) {
        Ok(gates) => Ok(Ledger::of(digest, gates)),
        Err(fault) => Err(fault),
    }
}
