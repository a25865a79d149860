//! What the program is handed of the outside: its words, scans over the files of the system, and the two folders; and what it
//! says on standard error of a call on them that failed.
#![tactic(auto)]

mod causes;
mod places;

ghost use Rattle.std.specs.Prelude.{◌≡◌, drop, vec_len, IfOk};
ghost use Rattle.std.specs.Vec.Iter.{into_iter_items};
ghost use Rattle.outside.specs.Places.{folders_of, old_folder, reel_folder};
ghost use Rattle.reel_disk.specs.Folder.{folder_in};

pub use causes::tell_cause;
use cf_base::{PathText, WORKERS};
pub use places::{Places, split_words};
use reel_disk::{Disk, FolderDisk, LockFiles};
use scan_source::FileScans;
use std::alloc::{AllocError, Global};
use std::rt::Runtime;
use std::{env, io};

/// The reel folder, in the current folder, if the words name no other.
const FOLDER: &[u8] = b"conform.out";

/// The folder of an old reel, which `adopt` reads, if the words name no other.
const OLD_FOLDER: &[u8] = b"conform.old";

/// What a call is handed of the outside, beside its words and where its output goes.
pub struct Outside<R: Runtime + LockFiles> {
    /// 16 scans over the files of the system, below the current folder.
    pub scans: Vec<FileScans<R>>,
    /// The reel folder, before the first call on it.
    pub disk: FolderDisk<R>,
    /// The folder of an old reel, in the same way.
    pub old: FolderDisk<R>,
}

/// The files of the system, and the two folders before the first call on them: those that the words name, or `conform.out` and
/// `conform.old`. It makes no call on any of them, and fails if memory is missing.
pub fn outside_of<R: Runtime + LockFiles + AllocGlobal>(
    rt: &R,
    places: &Places,
) -> Result<Outside<R>, AllocError>
    ensures scans { IfOk result (λ outside. vec_len outside.scans ≡ WORKERS) }
    ensures folders { IfOk result (λ outside. (folder_in outside.disk, folder_in outside.old) ≡ folders_of places.now) }
    ensures disk { IfOk result (λ outside. (⟦<FolderDisk<R> as Disk>⟧.state outside.disk).faults ≡ 0) }
{
    let (reel, old) = folders_of(places);
    Ok(Outside {
        scans: scans_over(rt)?,
        disk: folder_at(rt, reel)?,
        old: folder_at(rt, old)?,
    })
}

/// The words after the program's name. Words that aren't UTF-8 are those of no command: then there are none. It fails where
/// memory is missing.
pub fn arguments<R: Runtime + AllocGlobal>(rt: &R) -> Result<Vec<String>, AllocError> {
    match env::args(rt) {
        Ok(arguments) => words_behind(rt.alloc(), arguments),
        Err(error) if error.kind() == io::ErrorKind::OutOfMemory => Err(AllocError),
        Err(_) => Ok(Vec::new(rt.alloc())),
    }
}

/// All arguments behind the first, which is the program's name, in their order.
fn words_behind(alloc: Global, mut arguments: env::Args) -> Result<Vec<String>, AllocError>
    ensures { IfOk result (λ words. words.items ≡ drop 1 (into_iter_items arguments)) }
{
    arguments.next();
    let mut words = Vec::new(alloc);
    for word in arguments {
        words.push(word)?;
    }
    Ok(words)
}

/// Scans over the files of the system, below the current folder.
fn scans_over<R: Runtime + AllocGlobal>(rt: &R) -> Result<Vec<FileScans<R>>, AllocError>
    ensures { IfOk result (λ scans. vec_len scans ≡ WORKERS) }
{
    let mut scans = Vec::new(rt.alloc());
    for _ in 0..WORKERS {
        scans.push(FileScans::new(rt.clone()?))?;
    }
    Ok(scans)
}

/// The two folders, that of the reel and that of an old one: those that the words name, or else the usual ones.
fn folders_of(places: &Places) -> (PathText, PathText)
    ensures { result ≡ folders_of places.now }
{
    let Some(reel) = PathText::of(FOLDER) else {
        unreachable!()
    };
    let Some(old) = PathText::of(OLD_FOLDER) else {
        unreachable!()
    };
    (places.into.unwrap_or(reel), places.from.unwrap_or(old))
}

/// The folder of that name in the current folder, before the first call on it.
fn folder_at<R: Runtime + LockFiles>(rt: &R, name: PathText) -> Result<FolderDisk<R>, AllocError>
    ensures folder { IfOk result (λ disk. folder_in disk ≡ name) }
    ensures faults { IfOk result (λ disk. (⟦<FolderDisk<R> as Disk>⟧.state disk).faults ≡ 0) }
{
    Ok(FolderDisk::new(rt.clone()?, name))
}
