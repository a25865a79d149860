//! A disk that notes the calls on it.
use cf_base::FileId;
use reel_disk::{Did, Disk, Got, Length};

/// A call on a disk, with the file, and the place and number of the bytes.
#[derive(Drop, PartialEq, Eq)]
pub enum Call {
    Length(FileId),
    Read(FileId, u64, usize),
    WriteWhole(FileId, usize),
    WriteAt(FileId, u64, usize),
    Sync(FileId),
}

/// What calls are noted in.
pub trait Notes {
    fn note(&mut self, call: Call);
}

impl Notes for Vec<Call> {
    fn note(&mut self, call: Call) {
        let _ = self.push(call);
    }
}

/// A disk that notes each call before it is made.
#[derive(Drop)]
pub struct Noted<D: Disk + Drop, N: Notes + Drop> {
    pub disk: D,
    pub notes: N,
}

impl<D: Disk + Drop, N: Notes + Drop> Disk for Noted<D, N> {
    ghost tells = { D.tells };

    ghost state = { λ noted. D.state noted.disk };

    ghost bounded = { λ d. D.bounded d.disk };

    fn length(&mut self, id: FileId) -> Length {
        self.notes.note(Call::Length(id));
        self.disk.length(id)
    }

    fn read(&mut self, id: FileId, start: u64, into: &mut [u8]) -> Got {
        self.notes.note(Call::Read(id, start, into.len()));
        self.disk.read(id, start, into)
    }

    fn write_whole(&mut self, id: FileId, bytes: &[u8]) -> Did {
        self.notes.note(Call::WriteWhole(id, bytes.len()));
        self.disk.write_whole(id, bytes)
    }

    fn write_at(&mut self, id: FileId, start: u64, bytes: &[u8]) -> Did {
        self.notes.note(Call::WriteAt(id, start, bytes.len()));
        self.disk.write_at(id, start, bytes)
    }

    fn sync(&mut self, id: FileId) -> Did {
        self.notes.note(Call::Sync(id));
        self.disk.sync(id)
    }
}
