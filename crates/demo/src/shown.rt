//! What the demonstration shows.
ghost use Rattle.std.specs.Prelude.{◌≡◌, ◌≤◌, IfOk, IfSome, MatchResult};
ghost use Rattle.conform_job.specs.Answers.{AreInfosOf};
ghost use Rattle.scan_source.specs.World.{file_at};
ghost use Rattle.demo.specs.Demo.{demo_world, demo_text, IsShown, IsInstead};
ghost use Rattle.demo.specs.inside.Whole.{IsReelText};

use crate::digest::digest_of;
use crate::files::{demo_files, project_path};
use crate::run::run;
use crate::scans::UnfailingScans;
use cf_base::{Fail, Never};
use conform_job::Job;
use outcome::Outcome;
use printed_text::{put_bytes, put_digest, put_number};
use project_job::{job_laws, planned};
use reel_disk::MemoryDisk;
use scan_source::Scans;
use std::alloc::{AllocError, Global};

/// What the demonstration of 1 to 1000 events prints: `frames` and how many the reel has, `acknowledged` and how many of
/// them are, and `digest` and 64 hexadecimal digits, in three lines. The digest is SHA-256 (FIPS 180-4) of the files of all
/// frames, one after another in record order.
///
/// The job of these events is made in memory, planned, and run over an empty disk in memory, from which the files are read
/// back. It is accepted for every number of events, so only `NoMemory` comes instead, for want of memory.
pub fn demo(alloc: Global, events: u32) -> Result<Vec<u8>, Outcome>
    requires some { 1 ≤ events }
    requires most { events ≤ 1000 }
    ensures { MatchResult result
        (λ text. IsShown (file_at (demo_world events)) text.items)
        IsInstead }
{
    job_laws();
    let Ok(files) = demo_files(alloc, events) else {
        return Err(Outcome::NoMemory);
    };
    let mut scan = UnfailingScans::new(alloc, files);
    let job = match planned(alloc, &project_path(), &mut scan) {
        Ok(job) => job,
        Err(Outcome::SourceFault) => unreachable!(),
        Err(outcome) => return Err(outcome),
    };
    let text = shown(alloc, &job, &mut scan);
    // By a call: a job that falls out of scope is dropped part by part, here and in each proof.
    drop(job);
    match text {
        Ok(text) => Ok(text),
        Err(_) => Err(Outcome::NoMemory),
    }
}

/// What is printed of a job that is run over an empty disk.
fn shown(alloc: Global, job: &Job, scan: &mut UnfailingScans) -> Result<Vec<u8>, Fail<Never>>
    requires infos { AreInfosOf job.now.parts (⟦<UnfailingScans as Scans>⟧.state scan.old).world job.now.infos }
    ensures { IfSome (⟦<UnfailingScans as Scans>⟧.state scan.old).world (λ world. IfOk result (IsReelText job.now world)) }
{
    let mut disk = MemoryDisk::new(alloc)?;
    let acknowledged = run(alloc, job, scan, &mut disk)?;
    let digest = digest_of(alloc, job, &mut disk)?;
    match text_of(alloc, job.count(), acknowledged, &digest) {
        Ok(text) => Ok(text),
        Err(_) => Err(Fail::NoMemory),
    }
}

/// The three lines.
fn text_of(
    alloc: Global,
    frames: u32,
    acknowledged: u32,
    digest: &[u8; 32],
) -> Result<Vec<u8>, AllocError>
    ensures { IfOk result (λ text. text.items ≡ demo_text frames acknowledged digest.now) }
{
    let mut text = Vec::new(alloc);
    put_bytes(&mut text, b"frames ")?;
    put_number(&mut text, frames)?;
    put_bytes(&mut text, b"\nacknowledged ")?;
    put_number(&mut text, acknowledged)?;
    put_bytes(&mut text, b"\ndigest ")?;
    put_digest(&mut text, digest)?;
    put_bytes(&mut text, b"\n")?;
    Ok(text)
}
