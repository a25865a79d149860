//! What stands in a real folder's way: another run, links, files with several names, a file system that lacks something.
use crate::refusing::{Lock, Refusing, Synced};
use cf_base::{FileId, PathText, Tried};
use reel_disk::{Did, Disk, FolderDisk, Length, LockFiles};
use std::io::ErrorKind;
use std::os::unix::fs::symlink;
use std::rt::Files;
use std::{fs, io, process};

const FRAME: FileId = FileId::Frame { reel: 1, frame: 2 };

/// The folder of a test, below that of temporary files.
fn scratch(rt: &HostRuntime, name: &str) -> io::Result<String> {
    Ok(format!(in rt.alloc(); "/tmp/conform_tests_{}_{name}", process::id(rt.process()))?)
}

/// A path for a folder.
fn path_of(path: &str) -> io::Result<PathText> {
    PathText::of(path.as_bytes()).ok_or(io::Error::from(ErrorKind::InvalidInput))
}

/// Writes a file, and says whether that was done.
fn writes<D: Disk>(disk: &mut D, id: FileId) -> bool {
    disk.write_whole(id, b"abcdef") == Did::Done
}

fn syncs<D: Disk>(disk: &mut D, id: FileId) -> bool {
    disk.sync(id) == Did::Done
}

/// What a run does at first in a new folder.
fn begins<D: Disk>(disk: &mut D) -> bool {
    syncs(disk, FileId::Seal2) && writes(disk, FileId::Body2) && syncs(disk, FileId::Body2)
}

/// Whether the first fault has this kind, where the system was asked for this.
fn failed_by<R: LockFiles + Drop>(
    disk: &FolderDisk<R>,
    tried: Option<Tried>,
    kind: ErrorKind,
) -> bool {
    match disk.trouble() {
        Some(trouble) => trouble.tried() == tried && trouble.error().kind() == kind,
        None => false,
    }
}

/// Whether the first fault is that another run is at work in the folder.
fn is_kept_out<R: LockFiles + Drop>(disk: &FolderDisk<R>, folder: &str) -> bool {
    match disk.trouble() {
        Some(trouble) => trouble.path() == folder && failed_by(disk, None, ErrorKind::ResourceBusy),
        None => false,
    }
}

fn has_bytes(rt: &HostRuntime, path: &str, bytes: &[u8]) -> bool {
    match fs::read(rt, path) {
        Ok(found) => found.as_slice() == bytes,
        Err(_) => false,
    }
}

/// Whether a run that comes second is kept out, while the first goes on.
fn second_is_kept_out(rt: &HostRuntime, folder: &str) -> io::Result<bool> {
    let path = path_of(folder)?;
    let first_rt = rt.clone()?;
    let early_rt = rt.clone()?;
    let late_rt = rt.clone()?;
    let second_rt = rt.clone()?;
    let mut first = FolderDisk::new(first_rt, path);
    let mut early = FolderDisk::new(early_rt, path);
    let mut late = FolderDisk::new(late_rt, path);
    // All find an empty folder, and only one of them makes the body. Then one would make it too, and one would go on with it.
    let empty = syncs(&mut early, FileId::Seal2) && syncs(&mut late, FileId::Seal2);
    let begun = begins(&mut first);
    let early_fails = !writes(&mut early, FileId::Body2) && is_kept_out(&early, folder);
    let late_fails = !syncs(&mut late, FileId::Body2) && is_kept_out(&late, folder);
    let mut second = FolderDisk::new(second_rt, path);
    let second_fails = !syncs(&mut second, FileId::Seal2)
        && !writes(&mut second, FRAME)
        && second.length(FRAME) == Length::Absent
        && is_kept_out(&second, folder);
    Ok(empty && begun && early_fails && late_fails && second_fails)
}

/// Whether a run goes on where the first has ended.
fn third_goes_on(rt: &HostRuntime, folder: &str) -> io::Result<bool> {
    let path = path_of(folder)?;
    let own = rt.clone()?;
    let mut third = FolderDisk::new(own, path);
    Ok(
        syncs(&mut third, FileId::Seal2)
            && writes(&mut third, FRAME)
            && syncs(&mut third, FileId::Body2),
    )
}

#[test]
fn a_second_run_is_kept_out(rt: HostRuntime) {
    let folder = scratch(&rt, "second").ok().expect(&rt, "a path");
    let kept_out = second_is_kept_out(&rt, &folder);
    assert!(rt; kept_out.ok() == Some(true));
    let goes_on = third_goes_on(&rt, &folder);
    assert!(rt; goes_on.ok() == Some(true));
    assert!(rt; fs::remove_dir_all(&rt, folder.as_str()).is_ok());
}

/// Whether a run begins where the lock or the syncs of a path are answered so.
fn begins_over(
    rt: &HostRuntime,
    folder: &str,
    lock: Lock,
    sync: Option<(Synced, i32)>,
) -> io::Result<(bool, bool, bool)> {
    let path = path_of(folder)?;
    let rt_below = rt.clone()?;
    let system = Refusing {
        rt: rt_below,
        lock,
        sync,
    };
    let mut disk = FolderDisk::new(system, path);
    let begun = begins(&mut disk);
    let lacks = disk.lacks();
    let _ = fs::remove_dir_all(rt, folder);
    Ok((begun, lacks.locks, lacks.folder_syncs))
}

#[test]
fn what_a_file_system_lacks_is_told_and_the_rest_is_a_fault(rt: HostRuntime) {
    let folder = scratch(&rt, "lacks").ok().expect(&rt, "a path");
    for (name, lock, sync, wanted) in [
        ("all is there", Lock::Real, None, (true, false, false)),
        ("held", Lock::Held, None, (false, false, false)),
        ("no locks", Lock::Error(95), None, (true, true, false)),
        ("no lock daemon", Lock::Error(37), None, (true, true, false)),
        (
            "a lock that fails",
            Lock::Error(5),
            None,
            (false, false, false),
        ),
        (
            "folders aren't synced",
            Lock::Real,
            Some((Synced::Folder, 22)),
            (true, false, true),
        ),
        (
            "a folder's sync fails",
            Lock::Real,
            Some((Synced::Folder, 5)),
            (false, false, false),
        ),
        (
            "a file's sync is refused",
            Lock::Real,
            Some((Synced::Body, 22)),
            (false, false, false),
        ),
    ] {
        let found = begins_over(&rt, &folder, lock, sync);
        assert!(rt; found.ok() == Some(wanted), "{name}");
    }
}

/// Whether what a link names is neither read nor written.
fn link_is_refused(rt: &HostRuntime, folder: &str) -> io::Result<bool> {
    fs::create_dir(rt, folder)?;
    let scan = format!(in rt.alloc(); "{folder}/scan")?;
    let frame = format!(in rt.alloc(); "{folder}/r001.0000002.dpx")?;
    fs::write(rt, scan.as_str(), b"scan")?;
    symlink(rt, "scan", frame.as_str())?;
    let path = path_of(folder)?;
    let own = rt.clone()?;
    let mut disk = FolderDisk::new(own, path);
    let refused = !writes(&mut disk, FRAME)
        && !syncs(&mut disk, FRAME)
        && disk.length(FRAME) == Length::Failed;
    Ok(refused && has_bytes(rt, &scan, b"scan"))
}

#[test]
fn a_link_is_never_followed(rt: HostRuntime) {
    let folder = scratch(&rt, "link").ok().expect(&rt, "a path");
    let refused = link_is_refused(&rt, &folder);
    assert!(rt; refused.ok() == Some(true));
    assert!(rt; fs::remove_dir_all(&rt, folder.as_str()).is_ok());
}

/// Whether a file with two names is made anew where it is a frame's, and left alone where it is the ledger's.
fn other_name_stays(rt: &HostRuntime, folder: &str) -> io::Result<bool> {
    fs::create_dir(rt, folder)?;
    let mut stays = true;
    for (id, name, is_made) in [
        (FRAME, "r001.0000002.dpx", true),
        (FileId::Seal2, "conform.seal2", false),
    ] {
        let path = format!(in rt.alloc(); "{folder}/{name}")?;
        let other = format!(in rt.alloc(); "{folder}/{name}.old")?;
        fs::write(rt, path.as_str(), b"old")?;
        rt.hard_link(&path, &other)?;
        let own = rt.clone()?;
        let mut disk = FolderDisk::new(own, path_of(folder)?);
        let made = writes(&mut disk, id);
        stays = stays && made == is_made && has_bytes(rt, &other, b"old");
    }
    Ok(stays)
}

#[test]
fn a_file_with_other_names_is_left_to_them(rt: HostRuntime) {
    let folder = scratch(&rt, "names").ok().expect(&rt, "a path");
    let stays = other_name_stays(&rt, &folder);
    assert!(rt; stays.ok() == Some(true));
    assert!(rt; fs::remove_dir_all(&rt, folder.as_str()).is_ok());
}
