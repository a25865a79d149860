//! The ledger of a job: one gate for each frame.
ghost use Rattle.std.specs.Prelude.{◌≡◌, ◌<◌, ◌≤◌, true, false, length, set, slice_index_or, OnOk, OnErr, IsErr, count_by};
ghost use Rattle.cf_base.specs.declared.file.FileId.TheVariants.{Body2};
ghost use Rattle.reel_disk.specs.Call.{OnlyWrites};
ghost use Rattle.reel_disk.specs.State.{LeavesDisk};
ghost use Rattle.reel_disk.specs.Disk.{moment_of};
ghost use Rattle.resume_ledger.specs.declared.layout.Version.TheVariants.{Two};
ghost use Rattle.resume_ledger.specs.Ledger.{Agrees, IsLedger};
ghost use Rattle.resume_ledger.specs.Safe.{IsSafeAck, IsSafeNote, WasAcked, WasNoted};
ghost use Rattle.resume_ledger.specs.Calls.{PutsRecord, PutsGate};

use crate::body::OPEN;
use crate::layout::Version;
use crate::write::patch_firmly;
use cf_base::{FRAMES, FileId};
use reel_disk::{Disk, DiskFault};
use std::marker::Model;

/// Which frames of a job are acknowledged: the file of an acknowledged frame is on the disk, and a crash keeps it there.
///
/// Contracts see the job's digest of 32 bytes, a flag for each of its 1 to 262,144 frames, and whether the ledger is
/// closed: a fault closes it, and no frame is acknowledged through it from then on.
#[derive(Drop)]
pub struct Ledger {
    digest: [u8; 32],
    gates: Vec<bool>,
    closed: bool,
}

impl Model for Ledger {
    ghost use Rattle.resume_ledger.specs.Ledger.{LedgerState, IsLedger};

    ghost Value = { LedgerState };

    ghost view = { λ l. record { digest = l.digest; gates = l.gates.items; closed = l.closed } };

    ghost invariant = { λ l. IsLedger l.digest l.gates.items };
}

impl Ledger {
    /// An open ledger with these gates.
    pub(crate) fn of(digest: [u8; 32], gates: Vec<bool>) -> Ledger
        requires some { 1 ≤ length gates.items }
        requires most { length gates.items ≤ FRAMES }
        ensures { result ≡ record { digest = digest; gates = gates.items; closed = false } }
    {
        Ledger {
            digest,
            gates,
            closed: false,
        }
    }

    /// Whether a frame is acknowledged. Frames are numbered from 0, below the job's count.
    pub fn is_acked(&self, i: u32) -> bool
        requires { i < length self.now.gates }
        ensures { result ≡ slice_index_or self.now.gates i false }
    {
        self.gates[i as usize]
    }

    /// How many frames are acknowledged.
    pub fn acked(&self) -> u32
        ensures count { result ≡ count_by (λ gate. gate) self.now.gates }
        ensures valid { IsLedger self.now.digest self.now.gates }
    {
        self.gates.iter().filter(|gate| **gate).count() as u32
    }

    /// Whether a fault has closed the ledger.
    pub fn is_closed(&self) -> bool
        ensures { result ≡ self.now.closed }
    {
        self.closed
    }

    /// Keeps the SHA-256 of a frame's file as the frame's record: writes it behind the gate, at byte `65 + 33 * i` of the
    /// body, and syncs the body. `DiskFault` comes only where the disk's count of faults rose; the ledger is closed then.
    /// Takes no memory.
    pub fn note<D: Disk>(&mut self, disk: &mut D, i: u32, hash: [u8; 32]) -> Result<(), DiskFault>
        requires is_open { self.old.closed ≡ false }
        requires agrees { D.tells ≡ true → Agrees (moment_of (D.state disk.old).history) self.old }
        requires within { i < length self.old.gates }
        requires fresh { slice_index_or self.old.gates i false ≡ false }

        // A crash at any moment of the call leaves a folder whose acknowledged frames are the reel's, with their records, and
        // no acknowledgement is lost, whatever the reel is. No frame is acknowledged, and no file but the second body is
        // written, also after a fault.
        ensures safe { D.tells ≡ true → IsSafeNote self.old (D.state disk.old).history (D.state disk.new).history }
        ensures own { OnlyWrites (λ q. q ≡ Body2) (D.state disk.old).calls (D.state disk.new).calls }

        ensures noted { OnOk result (D.tells ≡ true → WasNoted i hash self.new (D.state disk.old).history (D.state disk.new).history) }
        ensures ledger { OnOk result (self.new ≡ self.old) }
        ensures closed { OnErr result (self.new ≡ record self.old { closed = true }) }

        ensures calls { PutsRecord i hash result (D.state disk.old).calls (D.state disk.new).calls }
        ensures disk { LeavesDisk (IsErr result) (D.state disk.old) (D.state disk.new) }
    {
        let at = Version::Two.gate(i) as u64 + 1;
        match patch_firmly(disk, FileId::Body2, at, &hash) {
            Ok(()) => Ok(()),
            Err(DiskFault) => {
                self.closed = true;
                Err(DiskFault)
            }
        }
    }

    /// Acknowledges a frame whose file and record are stored: writes `A` to its gate, byte `64 + 33 * i` of the body, and
    /// syncs the body. At `Ok` each crash from now on finds the frame acknowledged. `DiskFault` comes only where the disk's
    /// count of faults rose; the ledger is closed then, and a crash may find the frame acknowledged or not. Takes no memory.
    pub fn ack<D: Disk>(&mut self, disk: &mut D, i: u32) -> Result<(), DiskFault>
        requires is_open { self.old.closed ≡ false }
        requires agrees { D.tells ≡ true → Agrees (moment_of (D.state disk.old).history) self.old }
        requires within { i < length self.old.gates }
        requires fresh { slice_index_or self.old.gates i false ≡ false }

        // A crash at any moment of the call leaves a folder whose acknowledged frames are the reel's, with their records. No
        // acknowledgement is lost, whatever the reel is. All other frames stay as they were, and no file but the second body
        // is written, also after a fault.
        ensures safe { D.tells ≡ true → IsSafeAck i self.old (D.state disk.old).history (D.state disk.new).history }
        ensures own { OnlyWrites (λ q. q ≡ Body2) (D.state disk.old).calls (D.state disk.new).calls }

        ensures acked { OnOk result (D.tells ≡ true
            → WasAcked i self.old self.new (D.state disk.old).history (D.state disk.new).history) }
        ensures ledger { OnOk result (self.new ≡ record self.old { gates = set self.old.gates i true }) }
        ensures closed { OnErr result (self.new ≡ record self.old { closed = true }) }

        ensures calls { PutsGate i result (D.state disk.old).calls (D.state disk.new).calls }
        ensures disk { LeavesDisk (IsErr result) (D.state disk.old) (D.state disk.new) }
    {
        let at = Version::Two.gate(i) as u64;
        match patch_firmly(disk, FileId::Body2, at, &[OPEN]) {
            Ok(()) => {
                self.gates[i as usize] = true;
                Ok(())
            }
            Err(DiskFault) => {
                self.closed = true;
                Err(DiskFault)
            }
        }
    }
}
