//! Loads of files.
ghost use Rattle.std.specs.Prelude.{◌≡◌, min, length, Err, IfOk, IfErr};
ghost use Rattle.scan_source.specs.Plan.{one_more};
ghost use Rattle.scan_source.specs.State.{LeavesScan};
ghost use Rattle.project_job.specs.Load.{ByFile, IsLoadOf, IsOfLoad};

use cf_base::PathText;
use outcome::{Outcome, Refused, Which};
use scan_source::{Loaded, Scans};
use std::alloc::Global;

/// The front of a file.
#[derive(Drop)]
pub struct Front {
    /// How many bytes the file has.
    pub len: u64,
    /// Its first bytes: all of them, or as many as were asked for.
    pub bytes: Vec<u8>,
}

/// The first `most` bytes of the file at a path. `absent` says which file it is: a refusal has its name.
pub fn load<S: Scans>(
    alloc: Global,
    path: &PathText,
    most: u64,
    absent: Which,
    scan: &mut S,
) -> Result<Front, Outcome>
    ensures read { ByFile (S.state scan.old).world path.now (λ file. IsLoadOf absent most file result) }
    ensures fills { IfOk result (λ front. length front.bytes.items ≡ min front.len most) }
    ensures kind { IfErr result (IsOfLoad absent) }

    ensures scan { LeavesScan (result ≡ Err Outcome.SourceFault) (S.state scan.old) (S.state scan.new) }
    ensures loads { (S.state scan.new).loads ≡ one_more (S.state scan.old).loads }
    ensures heads { (S.state scan.new).heads ≡ (S.state scan.old).heads }
{
    let mut bytes = Vec::new(alloc);
    match scan.load(path, most, &mut bytes) {
        Loaded::Got { len } => Ok(Front { len, bytes }),
        Loaded::Absent => Err(Outcome::Refused(Refused::NoFile(absent))),
        Loaded::Failed => Err(Outcome::SourceFault),
        Loaded::NoMemory => Err(Outcome::NoMemory),
    }
}
