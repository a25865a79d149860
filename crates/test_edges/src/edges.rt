//! What a scan makes of each answer of the system, by a stand-in for its files.
ghost use Rattle.std.specs.Prelude.{◌≡◌, length, IsErr};

use crate::sinks::counted;
use cf_base::PathText;
use scan_source::{FileScans, Head, Loaded, Scans};
use std::alloc::Allocator;
use std::fs::{Metadata, OpenFile, OpenOptions};
use std::io::{self, ErrorKind, Read, Seek, SeekFrom, Write};
use std::rt::Files;

/// A system with one file, at every path: byte k of it is k mod 251.
#[derive(Clone, Copy)]
struct OneFile {
    /// Why it isn't opened, where it isn't.
    refused: Option<ErrorKind>,
    /// The length in bytes that the system tells,
    told: u64,
    /// how many bytes there are,
    len: u64,
    /// and how many one read gives at most.
    step: u64,
    /// The read, from 1, that fails, and why.
    failing: u64,
    why: ErrorKind,
}

/// A file that is given as it is told, at once.
const WHOLE: OneFile = OneFile {
    refused: None,
    told: 200_000,
    len: 200_000,
    step: 1_000_000,
    failing: 0,
    why: ErrorKind::Other,
};

fn refused(why: ErrorKind) -> OneFile {
    OneFile {
        refused: Some(why),
        ..WHOLE
    }
}

/// The file, opened.
#[derive(Drop)]
struct Opened {
    file: OneFile,
    at: u64,
    reads: u64,
}

impl Opened {
    /// Puts down the next bytes.
    fn give(&mut self, into: &mut [u8])
        ensures { length into.new ≡ length into.old }
    {
        for byte in into.iter_mut() {
            *byte = (self.at % 251) as u8;
            self.at = self.at.wrapping_add(1);
        }
    }
}

fn unsupported<T>() -> io::Result<T>
    ensures { IsErr result }
{
    Err(io::Error::from(ErrorKind::Unsupported))
}

impl Read for Opened {
    fn read(&mut self, buf: &mut [u8]) -> io::Result<usize> {
        self.reads = self.reads.saturating_add(1);
        if self.reads == self.file.failing {
            return Err(io::Error::from(self.file.why));
        }
        let left = self.file.len.saturating_sub(self.at);
        let count = left.min(self.file.step).min(buf.len() as u64) as usize;
        self.give(&mut buf[..count]);
        Ok(count)
    }
}

impl Write for Opened {
    fn write(&mut self, _: &[u8]) -> io::Result<usize> {
        unsupported()
    }

    fn flush(&mut self) -> io::Result<()> {
        unsupported()
    }
}

impl Seek for Opened {
    fn seek(&mut self, _: SeekFrom) -> io::Result<u64> {
        unsupported()
    }
}

impl OpenFile for Opened {
    fn metadata(&self) -> io::Result<Metadata> {
        Ok(Metadata::of_file(self.file.told))
    }

    fn set_len(&self, _: u64) -> io::Result<()> {
        unsupported()
    }

    fn sync_all(&self) -> io::Result<()> {
        unsupported()
    }

    fn sync_data(&self) -> io::Result<()> {
        unsupported()
    }
}

impl Files for OneFile {
    type File = Opened;

    type Dir = Opened;

    fn open_file(&self, _: &OpenOptions, _: &str) -> io::Result<Opened> {
        match self.refused {
            Some(why) => Err(io::Error::from(why)),
            None => Ok(Opened {
                file: *self,
                at: 0,
                reads: 0,
            }),
        }
    }

    fn open_dir(&self, _: &str) -> io::Result<Opened> {
        unsupported()
    }

    fn metadata(&self, _: &str) -> io::Result<Metadata> {
        Ok(Metadata::of_file(self.told))
    }

    fn symlink_metadata(&self, _: &str) -> io::Result<Metadata> {
        Ok(Metadata::of_file(self.told))
    }

    fn copy(&self, _: &str, _: &str) -> io::Result<u64> {
        unsupported()
    }

    fn rename(&self, _: &str, _: &str) -> io::Result<()> {
        unsupported()
    }

    fn remove_file(&self, _: &str) -> io::Result<()> {
        unsupported()
    }

    fn create_dir(&self, _: &str) -> io::Result<()> {
        unsupported()
    }

    fn remove_dir(&self, _: &str) -> io::Result<()> {
        unsupported()
    }

    fn remove_dir_all<B: Allocator>(&self, _: B, _: &str) -> io::Result<()> {
        unsupported()
    }
}

/// Whether a load of at most 150,000 bytes answers so and puts down so many of all bytes, and a look at the head answers so.
fn is_told(
    scan: &mut FileScans<OneFile>,
    bytes: &mut Vec<u8>,
    all: &[u8],
    wanted: (Loaded, usize, Head),
) -> bool {
    let (loaded, count, found) = wanted;
    let Some(path) = PathText::of(b"a.dpx") else {
        return false;
    };
    scan.load(&path, 150_000, bytes) == loaded
        && bytes.len() == count
        && all.starts_with(bytes.as_slice())
        && scan.head(&path, &mut [7; 2048]) == found
}

/// Each row has a file, what a load of at most 150,000 bytes answers and how many bytes it gives, and what a look at the head
/// answers.
#[test]
fn a_scan_tells_each_answer_of_the_system(rt: HostRuntime) {
    let alloc = rt.alloc();
    let all = counted(alloc, 150_000).expect(&rt, "memory");
    let mut bytes = Vec::from_slice(alloc, b"before").ok().expect(&rt, "bytes");
    for (name, file, loaded, count, found) in [
        (
            "not found",
            refused(ErrorKind::NotFound),
            Loaded::Absent,
            0,
            Head::Absent,
        ),
        (
            "no permission",
            refused(ErrorKind::PermissionDenied),
            Loaded::Failed,
            0,
            Head::Failed,
        ),
        (
            "a path through a file",
            refused(ErrorKind::NotADirectory),
            Loaded::Failed,
            0,
            Head::Failed,
        ),
        (
            "a folder",
            OneFile {
                failing: 1,
                why: ErrorKind::IsADirectory,
                ..WHOLE
            },
            Loaded::Failed,
            0,
            Head::Failed,
        ),
        (
            "a read that fails behind others",
            OneFile {
                step: 100,
                failing: 20,
                ..WHOLE
            },
            Loaded::Failed,
            0,
            Head::Failed,
        ),
        (
            "a read that is interrupted",
            OneFile {
                failing: 1,
                why: ErrorKind::Interrupted,
                ..WHOLE
            },
            Loaded::Got { len: 200_000 },
            150_000,
            Head::Found { len: 200_000 },
        ),
        (
            "short reads",
            OneFile { step: 7, ..WHOLE },
            Loaded::Got { len: 200_000 },
            150_000,
            Head::Found { len: 200_000 },
        ),
        (
            "short reads with one interrupted",
            OneFile {
                step: 100,
                failing: 20,
                why: ErrorKind::Interrupted,
                ..WHOLE
            },
            Loaded::Got { len: 200_000 },
            150_000,
            Head::Found { len: 200_000 },
        ),
        (
            "a file that is cut",
            OneFile {
                len: 1_000,
                ..WHOLE
            },
            Loaded::Got { len: 1_000 },
            1_000,
            Head::Found { len: 1_000 },
        ),
        (
            "a file that grew",
            OneFile {
                told: 10,
                len: 140_000,
                ..WHOLE
            },
            Loaded::Got { len: 140_000 },
            140_000,
            Head::Found { len: 2_048 },
        ),
        (
            "a device",
            OneFile {
                told: 0,
                len: 1_000_000,
                step: 4_096,
                ..WHOLE
            },
            Loaded::Got { len: 150_000 },
            150_000,
            Head::Found { len: 2_048 },
        ),
        (
            "an empty device",
            OneFile {
                told: 0,
                len: 0,
                ..WHOLE
            },
            Loaded::Got { len: 0 },
            0,
            Head::Found { len: 0 },
        ),
    ] {
        let mut scan = FileScans::new(file);
        let wanted = (loaded, count, found);
        assert!(rt; is_told(&mut scan, &mut bytes, &all, wanted), "{name}");
    }
}
