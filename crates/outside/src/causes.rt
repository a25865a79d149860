//! Why a command came to its outcome, in words for people.
use cf_base::{Name, PathText, Trouble};
use conform_job::JobFault;
use outcome::{Outcome, Refused};
use reel_disk::{FolderDisk, LockFiles};
use scan_source::FileScans;
use std::rt::Runtime;
use std::str;

/// Says on standard error what the outcome's own line leaves out: the path of the file that it is about, what was tried there,
/// and the system's words. First comes what the reel's file system doesn't do. If standard error can't be written, nothing is
/// said.
pub fn tell_cause<R: Runtime + LockFiles>(
    rt: &R,
    outcome: &Outcome,
    scans: &[FileScans<R>],
    reel: &FolderDisk<R>,
    old: &FolderDisk<R>,
) {
    tell_lacks(rt, reel);
    match outcome {
        Outcome::DiskFault => tell_trouble(rt, reel.trouble().or(old.trouble())),
        Outcome::SourceFault => tell_trouble(rt, first_trouble(scans)),
        Outcome::Refused(refused) | Outcome::OldRefused(refused) => {
            if let Some(first) = scans.first() {
                tell_refused(rt, refused, first);
            }
        }
        _ => {}
    }
}

/// What the reel's file system doesn't do, and a run goes on without.
fn tell_lacks<R: Runtime + LockFiles>(rt: &R, reel: &FolderDisk<R>) {
    let lacks = reel.lacks();
    if lacks.locks {
        let _ = eprintln!(rt; "conform: the reel folder has no locks: a second run isn't kept out");
    }
    if lacks.folder_syncs {
        let _ = eprintln!(rt; "conform: the reel folder's names can't be synced there");
    }
}

/// Why a call failed.
fn tell_trouble<R: Runtime>(rt: &R, trouble: Option<Trouble>) {
    if let Some(trouble) = trouble {
        let _ = eprintln!(rt; "conform: {trouble}");
    }
}

/// Why the first of the scans failed that did.
fn first_trouble<R: Runtime>(scans: &[FileScans<R>]) -> Option<Trouble> {
    for scan in scans {
        if let Some(trouble) = scan.trouble() {
            return Some(trouble);
        }
    }
    None
}

/// Which file is refused; or that the project's reel has no such frame.
fn tell_refused<R: Runtime>(rt: &R, refused: &Refused, scan: &FileScans<R>) {
    match refused {
        Refused::NoFile(_) => tell_file(rt, scan.last(), "no such file"),
        Refused::Job(JobFault::MissingFrame { .. }) if scan.is_absent() => {
            tell_file(rt, scan.last(), "no such file");
        }
        Refused::Job(JobFault::MissingFrame { reel, .. }) => tell_reel(rt, reel),
        Refused::Job(JobFault::BadFrame { .. }) => tell_file(rt, scan.last(), "not taken"),
        Refused::Job(JobFault::Geometry { .. }) => {
            tell_file(rt, scan.last(), "not of the project's size");
        }
        _ => {}
    }
}

/// What is wrong with the file at a path.
fn tell_file<R: Runtime>(rt: &R, path: Option<PathText>, why: &str) {
    let Some(path) = path else {
        return;
    };
    if let Ok(path) = str::from_utf8(path.bytes()) {
        let _ = eprintln!(rt; "conform: {path}: {why}");
    }
}

/// That a reel's frames end before the one that the list wants, or begin behind it.
fn tell_reel<R: Runtime>(rt: &R, reel: &Name) {
    if let Ok(reel) = str::from_utf8(reel.bytes()) {
        let _ = eprintln!(rt;
            "conform: reel {reel}: the project's start and frames don't reach that frame"
        );
    }
}
