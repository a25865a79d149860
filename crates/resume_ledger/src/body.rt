//! The bytes of a ledger's body.
ghost use Rattle.std.specs.Prelude.{◌≡◌, ◌+◌, ◌*◌, ◌<◌, ◌≤◌, length, slice_index, IfOk};
ghost use Rattle.resume_ledger.specs.Body.{layout_of, head_of, closed_body, record_of};
ghost use Rattle.resume_ledger.specs.Ledger.{AreGatesOf};
ghost use Rattle.resume_ledger.specs.Steps.{IsJudged, OthersKept};

use crate::OpenFault;
use crate::layout::Version;
use cf_base::FRAMES;
use std::alloc::{AllocError, Global};

/// A gate that is open.
pub(crate) const OPEN: u8 = b'A';

/// The first 64 bytes of a job's body.
fn head(
    alloc: Global,
    version: Version,
    digest: &[u8; 32],
    count: u32,
) -> Result<Vec<u8>, AllocError>
    ensures { IfOk result (λ head. head.items ≡ head_of (layout_of version) digest.now count) }
{
    let mut head = Vec::new(alloc);
    head.extend_from_slice(&version.magic())?;
    head.extend_from_slice(digest)?;
    head.extend_from_slice(&count.to_be_bytes())?;
    head.extend_from_slice(&[0; 20])?;
    Ok(head)
}

/// The body of a job without an open gate, of version 2.
#[tactic(auto, unfolding(crate::specs::Body::closed_body))]
pub(crate) fn closed(alloc: Global, digest: &[u8; 32], count: u32) -> Result<Vec<u8>, AllocError>
    requires { count ≤ FRAMES }
    ensures body { IfOk result (λ body. body.items ≡ closed_body digest.now count) }
    ensures size { IfOk result (λ body. length body.items ≡ 64 + 33 * count) }
    ensures digest { length digest.now ≡ 32 }
{
    let mut body = head(alloc, Version::Two, digest, count)?;
    let frames = vec![in alloc; 0u8; 33 * count as usize]?;
    body.extend_from_slice(&frames)?;
    Ok(body)
}

/// Which frames of a job a body acknowledges, or why it is none of the job.
pub(crate) fn judge(
    alloc: Global,
    version: Version,
    body: &[u8],
    digest: [u8; 32],
    count: u32,
) -> Result<Vec<bool>, OpenFault>
    requires size { length body.now ≤ (layout_of version).most }
    requires most { count ≤ FRAMES }
    ensures { IsJudged (layout_of version) digest count body.now result }
{
    let bad = OpenFault::BadLedger {
        len: body.len() as u64,
    };
    let Some(frames) = version.frames(body.len()) else {
        return Err(bad);
    };
    let mut kept = [0; 32];
    kept.copy_from_slice(&body[8..40]);
    let Ok(wanted_head) = head(alloc, version, &kept, frames) else {
        return Err(OpenFault::NoMemory);
    };
    if &body[..64] != wanted_head.as_slice() {
        return Err(bad);
    }
    if kept != digest {
        return Err(OpenFault::OtherJob {
            kept,
            wanted: digest,
        });
    }
    if frames != count {
        return Err(bad);
    }
    match gates(alloc, version, body, count) {
        Ok(gates) => Ok(gates),
        Err(_) => Err(OpenFault::NoMemory),
    }
}

/// Which gates of a body are open.
pub(crate) fn gates(
    alloc: Global,
    version: Version,
    body: &[u8],
    count: u32,
) -> Result<Vec<bool>, AllocError>
    requires size { length body.now ≡ (layout_of version).size count }
    requires most { count ≤ FRAMES }
    ensures { IfOk result (λ gates. AreGatesOf (layout_of version) body.now count gates.items) }
{
    let mut gates = Vec::new(alloc);
    for i in 0..count {
        gates.push(body[version.gate(i)] == OPEN)?;
    }
    Ok(gates)
}

/// Opens the gate of a frame in a body of version 2, with this record.
pub(crate) fn set_record(body: &mut [u8], i: u32, hash: &[u8; 32])
    requires within { 64 + 33 * (i + 1) ≤ length body.old }
    ensures gate { slice_index body.new (64 + 33 * i) ≡ 65 }
    ensures record { record_of body.new i ≡ hash.now }
    ensures others { OthersKept body.old body.new i }
{
    let at = 64 + 33 * i as usize;
    body[at] = OPEN;
    body[at + 1..at + 33].copy_from_slice(hash);
}

/// The record of a frame in a body of version 2.
pub(crate) fn record_at(body: &[u8], i: u32) -> [u8; 32]
    requires { 64 + 33 * (i + 1) ≤ length body.now }
    ensures { result ≡ record_of body.now i }
{
    let at = 65 + 33 * i as usize;
    let mut hash = [0; 32];
    hash.copy_from_slice(&body[at..at + 32]);
    hash
}
