//! Plain files: how they are looked at, opened, made and written, so that a link is never followed and no other thing is
//! opened in a file's place.
ghost use Rattle.std.specs.Prelude.{◌≡◌, ◌≤◌, length, IfOk};

use cf_base::{FilePath, PIECE, Tried, Trouble, again, fill, told};
use std::fs::{self, Metadata, OpenFile, OpenOptions};
use std::io::{self, ErrorKind, Read, Seek, SeekFrom, Write};
use std::os::unix::fs::MetadataExt;
use std::rt::Files;

/// An open file, and what the system says of it.
#[derive(Drop)]
pub(crate) struct Opened<F: Drop> {
    pub(crate) file: F,
    pub(crate) about: Metadata,
}

/// Something that isn't a plain file stands in its place.
fn not_plain(path: &FilePath) -> Trouble {
    Trouble::refusal(path, ErrorKind::InvalidInput, "not a plain file")
}

/// Whether two looks saw one file.
fn is_same_node(a: &Metadata, b: &Metadata) -> bool {
    a.dev() == b.dev() && a.ino() == b.ino()
}

/// What the system says of what stands at a path, be it a link.
pub(crate) fn what_is_at<R: Files>(rt: &R, path: &FilePath) -> Result<Metadata, Trouble> {
    let about = again(|| fs::symlink_metadata(rt, path.as_str()));
    told(about, path, Tried::Look)
}

/// What the system says of an open file.
fn what_is_open<F: OpenFile>(file: &F, path: &FilePath) -> Result<Metadata, Trouble> {
    told(again(|| file.metadata()), path, Tried::Look)
}

/// Opens the plain file at a path, and nothing else. The system's options can't say that a link isn't followed: so what was
/// opened is compared with what stood there before, and a link that came in between is refused, too. It makes and cuts nothing.
fn open_plain<R: Files>(
    rt: &R,
    how: &OpenOptions,
    path: &FilePath,
) -> Result<Opened<R::File>, Trouble> {
    let there = what_is_at(rt, path)?;
    if !there.is_file() {
        return Err(not_plain(path));
    }
    let file = told(how.open(rt, path.as_str()), path, Tried::Open)?;
    let about = what_is_open(&file, path)?;
    if !is_same_node(&there, &about) {
        return Err(not_plain(path));
    }
    Ok(Opened { file, about })
}

/// Opens the plain file at a path to be read.
pub(crate) fn open_to_read<R: Files>(rt: &R, path: &FilePath) -> Result<Opened<R::File>, Trouble> {
    let mut how = OpenOptions::new();
    how.read(true);
    open_plain(rt, &how, path)
}

/// Whether the file at a path has other names, too.
pub(crate) fn is_several_names(trouble: &Trouble) -> bool {
    trouble.tried().is_none() && trouble.error().kind() == ErrorKind::TooManyLinks
}

/// Whether nobody can write there.
pub(crate) fn is_read_only(trouble: &Trouble) -> bool {
    trouble.error().kind() == ErrorKind::ReadOnlyFilesystem
}

/// Opens the plain file at a path to be read and written. A file that has other names, too, is refused: what is written would
/// change it under those.
pub(crate) fn open_to_change<R: Files>(rt: &R, path: &FilePath) -> Result<R::File, Trouble> {
    let mut how = OpenOptions::new();
    how.read(true).write(true);
    let opened = open_plain(rt, &how, path)?;
    if opened.about.nlink() > 1 {
        let why = "the file has other names, too";
        return Err(Trouble::refusal(path, ErrorKind::TooManyLinks, why));
    }
    Ok(opened.file)
}

/// That an open file is still the one at its path: a folder that was removed, unmounted or put in another's place since isn't
/// written any more.
pub(crate) fn still_there<R: Files>(
    rt: &R,
    file: &R::File,
    path: &FilePath,
) -> Result<(), Trouble> {
    let there = what_is_at(rt, path)?;
    let about = what_is_open(file, path)?;
    if is_same_node(&there, &about) {
        Ok(())
    } else {
        let why = "another file was put in its place";
        Err(Trouble::refusal(path, ErrorKind::StaleNetworkFileHandle, why))
    }
}

/// Makes a file where nothing stands: not even a link that leads nowhere.
pub(crate) fn make_new<R: Files>(rt: &R, path: &FilePath) -> io::Result<R::File> {
    OpenOptions::new()
        .read(true)
        .write(true)
        .create_new(true)
        .open(rt, path.as_str())
}

/// Makes sure of the plain file at a path as it was found. A file that isn't there is none.
pub(crate) fn sync_as_found<R: Files>(rt: &R, path: &FilePath) -> Result<(), Trouble> {
    match open_to_read(rt, path) {
        Ok(opened) => told(opened.file.sync_all(), path, Tried::Sync),
        Err(trouble) if trouble.is_absence() => Ok(()),
        Err(trouble) => Err(trouble),
    }
}

/// Gives an open file these bytes and no others.
pub(crate) fn write_anew<F: Write + Seek + OpenFile>(file: &mut F, bytes: &[u8]) -> io::Result<()> {
    file.set_len(0)?;
    write_over(file, 0, bytes)
}

/// Writes over a part of an open file, from byte `start` on.
pub(crate) fn write_over<F: Write + Seek>(
    file: &mut F,
    start: u64,
    bytes: &[u8],
) -> io::Result<()> {
    again(|| file.seek(SeekFrom::Start(start)))?;
    file.write_all(bytes)
}

/// Writes the bytes of an open file over themselves. Where an earlier write to the disk failed, the system told that once, to
/// whoever asked then, and takes what it holds in memory for written: only bytes that are written anew reach the disk by the
/// next sync.
pub(crate) fn write_again<F: Read + Write + Seek>(file: &mut F) -> io::Result<()> {
    let mut piece = [0; PIECE];
    let mut start = 0u64;
    for _ in 0..u64::MAX {
        let count = read_from(file, start, &mut piece)?;
        if count == 0 {
            break;
        }
        write_over(file, start, &piece[..count])?;
        start = start.saturating_add(count as u64);
    }
    Ok(())
}

/// Reads an open file from byte `start` on, as much as it has there and the buffer takes.
pub(crate) fn read_from<F: Read + Seek>(
    file: &mut F,
    start: u64,
    into: &mut [u8],
) -> io::Result<usize>
    ensures { IfOk result (λ n. n ≤ length into.old) }
{
    again(|| file.seek(SeekFrom::Start(start)))?;
    fill(file, into)
}

/// Makes sure of a folder's names.
pub(crate) fn sync_folder<R: Files>(rt: &R, folder: &FilePath) -> Result<(), Trouble> {
    let opened = told(fs::open(rt, folder.as_str()), folder, Tried::Open)?;
    told(opened.sync_all(), folder, Tried::Sync)
}
