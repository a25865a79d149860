//! Source files of the file system.
ghost use Rattle.std.specs.Prelude.{◌≡◌, ◌≤◌, None, IfOk, length, min, vec_len, ⊤};
ghost use Rattle.cf_base.specs.Count.{CountsOneFault, kept};
ghost use Rattle.scan_source.specs.State.{untold};

use crate::{Head, Loaded, Scans};
use arrayvec::ArrayString;
use cf_base::{FilePath, HEADER, PIECE, PathText, Tried, Trouble, again, fill, told};
use std::fs::{self, OpenFile};
use std::io::{ErrorKind, Read};
use std::rt::Files;
use std::str;

/// Files by paths that start at the current folder. The scan tells nothing. It counts each error of the system other
/// than "not found": a folder in a file's place, a path through a file, a file that can't be read; and at a head whatever
/// isn't a plain file, which isn't opened, since a pipe would be waited for. A call that a signal interrupts is made again.
#[derive(Drop)]
pub struct FileScans<R: Files> {
    rt: R,
    faults: u64,
    loads: u64,
    heads: u64,
    /// The path that was asked for last.
    last: Option<PathText>,
    /// Whether no file was there.
    is_absent: bool,
    /// Why the first call failed that did.
    trouble: Option<Trouble>,
}

impl<R: Files + Drop> FileScans<R> {
    /// Over the runtime that it is given, which it keeps. Takes no memory.
    pub fn new(rt: R) -> Self
        ensures world { (⟦<FileScans<R> as Scans>⟧.state result).world ≡ None }
        ensures plan { (⟦<FileScans<R> as Scans>⟧.state result).plan ≡ None }
        ensures faults { (⟦<FileScans<R> as Scans>⟧.state result).faults ≡ 0 }
        ensures loads { (⟦<FileScans<R> as Scans>⟧.state result).loads ≡ 0 }
        ensures heads { (⟦<FileScans<R> as Scans>⟧.state result).heads ≡ 0 }
    {
        FileScans {
            rt,
            faults: 0,
            loads: 0,
            heads: 0,
            last: None,
            is_absent: false,
            trouble: None,
        }
    }

    /// The path that was asked for last; none before the first call.
    pub fn last(&self) -> Option<PathText> {
        self.last
    }

    /// Whether the last call found no file at its path.
    pub fn is_absent(&self) -> bool {
        self.is_absent
    }

    /// Why the first call failed that did; none, if all were done.
    pub fn trouble(&self) -> Option<Trouble> {
        self.trouble
    }

    /// Counts a fault, and keeps the cause of the first.
    fn fault(&mut self, trouble: Trouble)
        ensures fault { CountsOneFault ⊤ self.old.faults self.new.faults }
        ensures loads { self.new.loads ≡ self.old.loads }
        ensures heads { self.new.heads ≡ self.old.heads }
    {
        self.faults = self.faults.saturating_add(1);
        self.trouble = self.trouble.or(Some(trouble));
    }
}

impl<R: Files + Drop> Scans for FileScans<R> {
    ghost use Rattle.std.proofs.Common.{arith};

    ghost state = { λ scan. untold (kept scan.faults) (kept scan.loads) (kept scan.heads) };

    fn load(&mut self, path: &PathText, most: u64, into: &mut Vec<u8>) -> Loaded {
        self.loads = self.loads.saturating_add(1);
        self.last = Some(*path);
        self.is_absent = false;
        let unread = match load_file(&self.rt, path, most, into) {
            Ok(len) => return Loaded::Got { len },
            Err(unread) => unread,
        };
        into.clear();
        match unread {
            Unread::Absent => {
                self.is_absent = true;
                Loaded::Absent
            }
            Unread::NoMemory => Loaded::NoMemory,
            Unread::Failed(trouble) => {
                self.fault(trouble);
                Loaded::Failed
            }
        }
    }

    fn head(&mut self, path: &PathText, into: &mut [u8; HEADER]) -> Head {
        self.heads = self.heads.saturating_add(1);
        self.last = Some(*path);
        self.is_absent = false;
        match load_head(&self.rt, path, into) {
            Ok(len) => Head::Found { len },
            Err(trouble) if trouble.is_absence() => {
                self.is_absent = true;
                Head::Absent
            }
            Err(trouble) => {
                self.fault(trouble);
                Head::Failed
            }
        }
    }

    ghost bounded = { λ _. (Prim.omega arith, Prim.omega arith, Prim.omega arith) };
}

/// Why a file wasn't read.
#[derive(Clone, Copy)]
enum Unread {
    Absent,
    Failed(Trouble),
    NoMemory,
}

impl From<Trouble> for Unread {
    fn from(trouble: Trouble) -> Unread {
        if trouble.is_absence() {
            Unread::Absent
        } else {
            Unread::Failed(trouble)
        }
    }
}

/// Reads the first `most` bytes, and tells the file's length. After an error `into` has some of them. A pipe is read, too.
///
/// The bytes are read straight into the buffer, whose old content is overwritten and not cleared before.
fn load_file<R: Files>(
    rt: &R,
    path: &PathText,
    most: u64,
    into: &mut Vec<u8>,
) -> Result<u64, Unread>
    ensures { IfOk result (λ len. vec_len into.new ≡ min len most) }
{
    let path = file_path(path)?;
    let (mut file, len) = open(rt, &path)?;
    if into.resize(len.min(most) as usize, 0).is_err() {
        return Err(Unread::NoMemory);
    }
    read_told(&mut file, &path, into)?;
    if into.len() as u64 == len.min(most) {
        read_more(&mut file, &path, most, into)?;
    }
    let read = into.len() as u64;
    if read < most {
        Ok(read)
    } else {
        Ok(len.max(most))
    }
}

/// Reads the first 2048 bytes of a plain file, with zeros behind them, and tells the file's length.
fn load_head<R: Files>(rt: &R, path: &PathText, into: &mut [u8; HEADER]) -> Result<u64, Trouble> {
    let path = file_path(path)?;
    has_plain_file(rt, &path)?;
    let (mut file, len) = open(rt, &path)?;
    *into = [0; HEADER];
    let read = read_into(&mut file, &path, into)?;
    if read < into.len() {
        Ok(read as u64)
    } else {
        Ok(len.max(read as u64))
    }
}

/// The path as the system takes it.
fn file_path(path: &PathText) -> Result<FilePath, Trouble> {
    let none = ArrayString::new();
    let Ok(text) = str::from_utf8(path.bytes()) else {
        return Err(no_path(&none));
    };
    match ArrayString::from(text) {
        Ok(path) => Ok(path),
        Err(_) => Err(no_path(&none)),
    }
}

/// A path that is no text, or has no room: there is none.
fn no_path(path: &FilePath) -> Trouble {
    Trouble::refusal(path, ErrorKind::InvalidInput, "no file has this name")
}

/// That a plain file is at the path, or a link to one.
fn has_plain_file<R: Files>(rt: &R, path: &FilePath) -> Result<(), Trouble> {
    let about = told(again(|| fs::metadata(rt, path.as_str())), path, Tried::Look)?;
    if about.is_file() {
        Ok(())
    } else {
        let why = "not a plain file";
        Err(Trouble::refusal(path, ErrorKind::InvalidInput, why))
    }
}

/// The file at a path, and its length as the system tells it.
fn open<R: Files>(rt: &R, path: &FilePath) -> Result<(R::File, u64), Trouble> {
    let file = told(fs::open(rt, path.as_str()), path, Tried::Open)?;
    let about = told(again(|| file.metadata()), path, Tried::Look)?;
    Ok((file, about.len()))
}

/// Reads as many bytes as the buffer has, and makes it as short as the file is where there are fewer.
fn read_told<F: Read>(file: &mut F, path: &FilePath, into: &mut Vec<u8>) -> Result<(), Trouble>
    ensures { vec_len into.new ≤ vec_len into.old }
{
    let read = read_into(file, path, into)?;
    into.truncate(read);
    Ok(())
}

/// Appends what the file has more than the system told, up to `most` bytes in all.
fn read_more<F: Read>(
    file: &mut F,
    path: &FilePath,
    most: u64,
    into: &mut Vec<u8>,
) -> Result<(), Unread>
    requires { vec_len into.old ≤ most }
    ensures { vec_len into.new ≤ most }
{
    let mut piece = [0; PIECE];
    while (into.len() as u64) < most {
        let wanted = (most - into.len() as u64).min(PIECE as u64) as usize;
        let count = read_into(file, path, &mut piece[..wanted])?;
        if into.extend_from_slice(&piece[..count]).is_err() {
            return Err(Unread::NoMemory);
        }
        if count < wanted {
            break;
        }
    }
    Ok(())
}

/// The next bytes of a file, as many as there are and the buffer takes.
fn read_into<F: Read>(file: &mut F, path: &FilePath, into: &mut [u8]) -> Result<usize, Trouble>
    ensures { IfOk result (λ count. count ≤ length into.new) }
{
    match fill(file, into) {
        Ok(count) => Ok(count),
        Err(error) => Err(Trouble::of(path, Tried::Read, error)),
    }
}
