//! A look at a reel's folder that leaves it as it is.
ghost use Rattle.std.specs.Prelude.{◌≡◌, ◌≢◌, ◌<◌, ◌≤◌, true, false, length, slice_index_or, count_by, IsErrOf, Err};
ghost use Rattle.reel_disk.specs.State.{LeavesDisk, OnlyReads};
ghost use Rattle.reel_disk.specs.Disk.{view_of};
ghost use Rattle.resume_ledger.specs.Body.{layout_of};
ghost use Rattle.resume_ledger.specs.Ledger.{IsInForce};
ghost use Rattle.resume_ledger.specs.Steps.{records_in};
ghost use Rattle.resume_ledger.specs.Look.{hash_at, HasLooked, IsLookFor};
ghost use Rattle.resume_ledger.specs.Peek.{HasPeeked, IsPeekFor};
ghost use Rattle.resume_ledger.specs.Calls.{LooksSealed, Looks};
ghost use Rattle.resume_ledger.specs.OpeningCalls.{Peeks};

use crate::body::{judge, record_at};
use crate::layout::Version;
use crate::sealed::{in_force, load_body};
use crate::{Ledger, OpenFault};
use cf_base::FRAMES;
use reel_disk::{Disk, DiskFault};
use std::alloc::Global;
use std::marker::Model;

/// What a folder acknowledges of a job, and the records of version 2, as they were when they were read.
///
/// Contracts see a flag for each of the job's frames, and the body that has the records, where version 2 counts.
#[derive(Drop)]
pub struct LedgerView {
    gates: Vec<bool>,
    body: Option<Vec<u8>>,
}

impl Model for LedgerView {
    ghost use Rattle.std.specs.Prelude.{◌≤◌, ◌≡◌, length, MatchOption};
    ghost use Rattle.std.specs.Option.{option_map};
    ghost use Rattle.cf_base.specs.declared.limits.TheConstants.{FRAMES};
    ghost use Rattle.resume_ledger.specs.Body.{layout_of};
    ghost use Rattle.resume_ledger.specs.declared.layout.Version.TheVariants.{Two};
    ghost use Rattle.resume_ledger.specs.Look.{ViewState};

    ghost Value = { ViewState };

    ghost view = { λ v. record { gates = v.gates.items; body = option_map (λ b. b.items) v.body } };

    ghost invariant = { λ v. (length v.gates.items ≤ FRAMES)
        × MatchOption v.body (Unit {0}) (λ b. length b.items ≡ (layout_of Two).size (length v.gates.items)) };
}

impl LedgerView {
    /// How many frames are acknowledged.
    pub fn acked(&self) -> u32
        ensures { result ≡ count_by (λ gate. gate) self.now.gates }
    {
        self.gates.iter().filter(|gate| **gate).count() as u32
    }

    /// Whether a frame is acknowledged. Frames are numbered from 0, below the job's count.
    pub fn is_acked(&self, i: u32) -> bool
        requires { i < length self.now.gates }
        ensures { result ≡ slice_index_or self.now.gates i false }
    {
        self.gates[i as usize]
    }

    /// The record of a frame: none where it isn't acknowledged, or the folder isn't sealed by version 2.
    pub fn hash_of(&self, i: u32) -> Option<[u8; 32]>
        requires { i < length self.now.gates }
        ensures { result ≡ hash_at self.now i }
    {
        if !self.gates[i as usize] {
            return None;
        }
        match &self.body {
            Some(body) => Some(record_at(body, i)),
            None => None,
        }
    }
}

impl Ledger {
    /// What a folder acknowledges for the job with this digest and this number of frames, with its records: nothing where
    /// it is not sealed.
    ///
    /// The calls on the disk are, in order: the length of the second seal and, where that is 15, a read of it; where it is
    /// not the seal, the same of the first. Where one is a seal: the length of its version's body and, where that is not
    /// too long, a read of it. No other call is made.
    ///
    /// `OtherJob` (20.1) and `BadLedger` (20.2) come exactly where `attach` has them. `DiskFault` comes only where the
    /// disk's count of faults rose.
    pub fn look<D: Disk>(
        alloc: Global,
        disk: &mut D,
        digest: [u8; 32],
        count: u32,
    ) -> Result<LedgerView, OpenFault>
        requires count { (1 ≤ count) × (count ≤ FRAMES) }

        ensures answer { D.tells ≡ true → HasLooked digest count (D.state disk.old).history (D.state disk.new).history result }

        // It only reads: what the disk tells stays at every moment, and no write and no sync is made, whatever the answer is.
        ensures reads { OnlyReads D.tells (D.state disk.old) (D.state disk.new) }

        // The job's digest and the number of frames are known over every disk.
        ensures known { IsLookFor digest count result }
        ensures calls { Looks digest count result (D.state disk.old).calls (D.state disk.new).calls }
        ensures disk { LeavesDisk (IsErrOf result OpenFault.DiskFault) (D.state disk.old) (D.state disk.new) }
    {
        match in_force(disk) {
            Ok(Some(version)) => look_sealed(alloc, disk, version, digest, count),
            Ok(None) => match vec![in alloc; false; count as usize] {
                Ok(gates) => Ok(LedgerView { gates, body: None }),
                Err(_) => Err(OpenFault::NoMemory),
            },
            Err(DiskFault) => Err(OpenFault::DiskFault),
        }
    }

    /// How many frames a folder acknowledges for the job with this digest and this number of frames: 0 where it is not
    /// sealed. It makes the calls of `look`, and is refused as that is.
    pub fn peek<D: Disk>(
        alloc: Global,
        disk: &mut D,
        digest: [u8; 32],
        count: u32,
    ) -> Result<u32, OpenFault>
        requires count { (1 ≤ count) × (count ≤ FRAMES) }

        ensures answer { D.tells ≡ true → HasPeeked digest count (D.state disk.old).history (D.state disk.new).history result }

        // It only reads: what the disk tells stays at every moment, and no write and no sync is made, whatever the answer is.
        ensures reads { OnlyReads D.tells (D.state disk.old) (D.state disk.new) }

        // The job's digest and the size of the ledger are known over every disk.
        ensures known { IsPeekFor digest count result }
        ensures calls { Peeks digest count result (D.state disk.old).calls (D.state disk.new).calls }
        ensures disk { LeavesDisk (IsErrOf result OpenFault.DiskFault) (D.state disk.old) (D.state disk.new) }
    {
        match Ledger::look(alloc, disk, digest, count) {
            Ok(view) => Ok(view.acked()),
            Err(fault) => Err(fault),
        }
    }
}

/// What a folder that is sealed by this version acknowledges.
fn look_sealed<D: Disk>(
    alloc: Global,
    disk: &mut D,
    version: Version,
    digest: [u8; 32],
    count: u32,
) -> Result<LedgerView, OpenFault>
    requires most { count ≤ FRAMES }
    requires sealed { D.tells ≡ true → IsInForce version (view_of (D.state disk.old).history) }
    ensures answer { D.tells ≡ true → HasLooked digest count (D.state disk.old).history (D.state disk.new).history result }
    ensures reads { OnlyReads D.tells (D.state disk.old) (D.state disk.new) }
    ensures known { IsLookFor digest count result }
    ensures calls { LooksSealed version digest count result (D.state disk.old).calls (D.state disk.new).calls }
    ensures disk { LeavesDisk (IsErrOf result OpenFault.DiskFault) (D.state disk.old) (D.state disk.new) }
{
    let body = match load_body(alloc, disk, version) {
        Ok(body) => body,
        Err(fault) => return Err(fault),
    };
    match judge(alloc, version, &body, digest, count) {
        Ok(gates) => Ok(view_by(version, gates, body)),
        Err(fault) => Err(fault),
    }
}

/// The view that a body of this version gives.
fn view_by(version: Version, gates: Vec<bool>, body: Vec<u8>) -> LedgerView
    requires most { length gates.items ≤ FRAMES }
    requires size { length body.items ≡ (layout_of version).size (length gates.items) }
    ensures { result ≡ record { gates = gates.items; body = records_in version body.items } }
{
    match version {
        Version::One => LedgerView { gates, body: None },
        Version::Two => LedgerView {
            gates,
            body: Some(body),
        },
    }
}
