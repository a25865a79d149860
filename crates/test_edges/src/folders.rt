//! A real folder, in what no command asks of it: files that none writes yet, places behind a file's first byte, and frames
//! whose numbers don't fit the digits of a name.
use cf_base::{FileId, PathText};
use reel_disk::{Did, Disk, FolderDisk, Got, Length};
use std::{fs, process};

type Folder = FolderDisk<HostRuntime>;

/// Writes a file, and says whether that was done.
fn writes(disk: &mut Folder, id: FileId) -> bool {
    disk.write_whole(id, b"abcdef") == Did::Done
}

/// What four bytes from a place on are, and how many of them are the file's.
fn from(disk: &mut Folder, id: FileId, start: u64) -> Option<([u8; 4], usize)> {
    let mut bytes = [0; 4];
    match disk.read(id, start, &mut bytes) {
        Got::Bytes(n) => Some((bytes, n)),
        Got::Absent | Got::Failed => None,
    }
}

fn has_no_file(disk: &mut Folder, reel: u16, frame: u32) -> bool {
    let id = FileId::Frame { reel, frame };
    !writes(disk, id) && disk.length(id) == Length::Failed
}

/// Whether a file is written, under this path.
fn is_written(rt: &HostRuntime, disk: &mut Folder, id: FileId, path: &str) -> bool {
    if !writes(disk, id) {
        return false;
    }
    match fs::read(rt, path) {
        Ok(bytes) => bytes.as_slice() == b"abcdef".as_slice(),
        Err(_) => false,
    }
}

#[test]
fn a_folder_names_its_files_and_reads_from_any_place(rt: HostRuntime) {
    let folder = format!(in rt.alloc(); "/tmp/conform_tests_{}", process::id(rt.process()))
        .ok()
        .expect(&rt, "a path");
    let path = PathText::of(folder.as_bytes()).expect(&rt, "a path");
    let own = rt.clone().ok().expect(&rt, "a runtime");
    let mut disk = FolderDisk::new(own, path);
    assert!(rt; has_no_file(&mut disk, 1000, 0) && has_no_file(&mut disk, 0, 10_000_000));
    assert!(rt; from(&mut disk, FileId::Body, 0).is_none());
    let last = FileId::Frame {
        reel: 999,
        frame: 9_999_999,
    };
    for (id, name) in [
        (FileId::Seal2, "conform.seal2"),
        (FileId::Body2, "conform.body2"),
        (FileId::Sheet, "sheet.dpx"),
        (last, "r999.9999999.dpx"),
    ] {
        let path = format!(in rt.alloc(); "{folder}/{name}")
            .ok()
            .expect(&rt, "a path");
        assert!(rt; is_written(&rt, &mut disk, id, &path), "{name}");
    }
    assert!(rt; from(&mut disk, last, 1) == Some((*b"bcde", 4)));
    assert!(rt; from(&mut disk, last, 5) == Some((*b"f\0\0\0", 1)));
    assert!(rt; from(&mut disk, last, 9) == Some(([0; 4], 0)));
    assert!(rt; fs::remove_dir_all(&rt, folder.as_str()).is_ok());
}
