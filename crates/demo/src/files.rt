//! The files of the job, with their paths.
ghost use Rattle.std.specs.Prelude.{◌≡◌, ◌+◌, ◌<◌, ◌≤◌, ◌∷◌, [], ◌++◌, OnOk, IfOk};
ghost use Rattle.demo.specs.Files.{project_path, list_path, source_path, source_entry, reel_files, demo_files, kept};

use crate::counts::source_count;
use crate::picture::source_file;
use crate::texts::{HOUR, list_text, project_text};
use cf_base::{Fail, Never, PathText, last_digits};
use std::alloc::{AllocError, Global};

/// The path of the project of the demonstration job.
pub fn project_path() -> PathText
    ensures { result ≡ project_path }
{
    match PathText::of(b"demo.toml") {
        Some(path) => path,
        None => unreachable!(),
    }
}

/// The files of the demonstration job of 1 to 1000 events, with their paths: the project, its list, then the source frames of
/// one reel after another. Only want of memory makes it fail.
pub fn demo_files(alloc: Global, events: u32) -> Result<Vec<(PathText, Vec<u8>)>, Fail<Never>>
    requires some { 1 ≤ events }
    requires most { events ≤ 1000 }
    ensures { IfOk result (λ files. kept files.items ≡ demo_files events) }
{
    match files_of(alloc, events) {
        Ok(files) => Ok(files),
        Err(_) => Err(Fail::NoMemory),
    }
}

#[tactic(auto, unfolding(crate::specs::Files::demo_files))]
fn files_of(alloc: Global, events: u32) -> Result<Vec<(PathText, Vec<u8>)>, AllocError>
    requires some { 1 ≤ events }
    requires most { events ≤ 1000 }
    ensures { IfOk result (λ files. kept files.items ≡ demo_files events) }
{
    let mut files = Vec::new(alloc);
    files.push((project_path(), project_text(alloc, events)?))?;
    files.push((list_path(), list_text(alloc, events)?))?;
    let frames = source_count(events);
    for reel in 0..4 {
        put_reel(&mut files, alloc, frames, reel)?;
    }
    Ok(files)
}

fn list_path() -> PathText
    ensures { result ≡ list_path }
{
    match PathText::of(b"demo.edl") {
        Some(path) => path,
        None => unreachable!(),
    }
}

/// Appends the files of a source reel.
fn put_reel(
    files: &mut Vec<(PathText, Vec<u8>)>,
    alloc: Global,
    frames: u32,
    reel: u16,
) -> Result<(), AllocError>
    requires reel { reel < 4 }
    requires frames { frames ≤ 10000 }
    ensures { OnOk result (kept files.new.items ≡ kept files.old.items ++ reel_files frames reel) }
{
    for k in 0..frames {
        put_frame(files, alloc, reel, HOUR + k)?;
    }
    Ok(())
}

/// Appends the file of a source frame.
fn put_frame(
    files: &mut Vec<(PathText, Vec<u8>)>,
    alloc: Global,
    reel: u16,
    frame: u32,
) -> Result<(), AllocError>
    requires reel { reel < 4 }
    requires frame { frame < 100000 }
    ensures { OnOk result (kept files.new.items ≡ kept files.old.items ++ source_entry reel frame ∷ []) }
{
    files.push((source_path(reel, frame), source_file(alloc, reel, frame)?))?;
    Ok(())
}

/// The path of a source frame.
fn source_path(reel: u16, frame: u32) -> PathText
    ensures { result ≡ source_path reel frame }
{
    match PathText::of(&path_bytes(reel, frame)) {
        Some(path) => path,
        None => unreachable!(),
    }
}

/// The bytes of the path of a source frame.
#[tactic(auto, unfolding(crate::specs::Files::source_path))]
fn path_bytes(reel: u16, frame: u32) -> [u8; 14]
    ensures { result ≡ source_path reel frame }
{
    let digit: [u8; 1] = last_digits(u32::from(reel));
    let number: [u8; 7] = last_digits(frame);
    let mut path = *b"rR.FFFFFFF.dpx";
    path[1..2].copy_from_slice(&digit);
    path[3..10].copy_from_slice(&number);
    path
}
