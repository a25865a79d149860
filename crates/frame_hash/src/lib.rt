//! The SHA-256 of several files side by side.
//!
//! Whoever reads files puts them into rooms, where they are hashed part by part, while other files are read or written: on the
//! thread that asks, or on one for each processor. The digests are the same.
#![tactic(auto)]

ghost use Rattle.std.specs.Prelude.{◌≡◌, ◌≤◌, ◌↔◌, true, length, All, IfOk};
ghost use Rattle.std.specs.Thread.{IsSync};
ghost use Rattle.sha2.specs.Sha256.{sha256};
ghost use Rattle.frame_hash.specs.Rooms.{IsFree, IsFresh, IsBegun, IsHashedOn, AreHashedOn};

use rayon::prelude::*;
use sha2::{Digest, Sha256};
use std::alloc::{AllocError, Global};
use std::mem::replace;
use std::thread::{Threads, join_mut};

/// Room for the file of one frame, and for its SHA-256 (FIPS 180-4).
#[derive(Drop)]
pub struct Room {
    /// The frame whose file lies here; None where the room is free.
    pub frame: Option<u32>,
    pub bytes: Vec<u8>,
    /// How many bytes are hashed, and what was fed with them.
    pub done: usize,
    pub hasher: Sha256,
}

impl Room {
    /// A free room for so many bytes; fails for want of memory alone.
    fn new(alloc: Global, size: usize) -> Result<Room, AllocError>
        ensures { IfOk result (IsFree size) }
    {
        Ok(Room {
            frame: None,
            bytes: vec![in alloc; 0u8; size]?,
            done: 0,
            hasher: Sha256::new(),
        })
    }

    /// Nothing is hashed any more of what lies here.
    pub fn begin(&mut self)
        ensures frame { self.new.frame ≡ self.old.frame }
        ensures bytes { self.new.bytes ≡ self.old.bytes }
        ensures fresh { IsFresh self.new }
    {
        self.done = 0;
        self.hasher = Sha256::new();
    }

    /// Hashes so many bytes more of the file that lies here, or what is left of it.
    pub fn hash_part(&mut self, size: usize)
        ensures { IsHashedOn size self.old self.new }
    {
        if self.frame.is_some() {
            let begin = self.done.min(self.bytes.len());
            let end = self.bytes.len().min(begin.saturating_add(size));
            self.hasher.update(&self.bytes[begin..end]);
            self.done = end;
        }
    }

    /// Whether all is hashed that lies here.
    pub fn is_hashed(&self) -> bool
        ensures { (result ≡ true) ↔ (length self.now.bytes.items ≤ self.now.done) }
    {
        self.bytes.len() <= self.done
    }

    /// The digest of what lies here; what is left of it is hashed now. Then nothing is hashed of it.
    pub fn digest(&mut self) -> [u8; 32]
        ensures digest { IsBegun self.old → result ≡ sha256 self.old.bytes.items }
        ensures frame { self.new.frame ≡ self.old.frame }
        ensures bytes { self.new.bytes ≡ self.old.bytes }
        ensures fresh { IsFresh self.new }
    {
        let begin = self.done.min(self.bytes.len());
        self.hasher.update(&self.bytes[begin..]);
        self.done = 0;
        replace(&mut self.hasher, Sha256::new()).finalize()
    }
}

/// As many free rooms of one size as are wanted, or as memory is left for: there may be none.
pub fn rooms_of(alloc: Global, count: usize, size: usize) -> Vec<Room>
    ensures { All (IsFree size) result.items }
{
    let mut rooms = Vec::new(alloc);
    for _ in 0..count {
        let Ok(room) = Room::new(alloc, size) else {
            return rooms;
        };
        if rooms.push(room).is_err() {
            return rooms;
        }
    }
    rooms
}

/// A way to hash several files.
pub trait Hasher {
    /// What has to hold of whatever it works with.
    ghost can_hash: { Type 0 };

    /// How many rooms it can work on side by side; none where files had better be hashed while they are read.
    fn rooms(&self) -> usize
        ensures few { result ≤ 16 };

    /// Hashes so many bytes more of the file in each room, and meanwhile does some other work, such as to read the next file. Takes
    /// no memory.
    fn hash_beside<F: FnMut() -> A, A>(&self, rooms: &mut [Room], size: usize, work: &mut F) -> A
        requires can_hash { can_hash }
        requires work { F.pre work.old }
        ensures hashed { AreHashedOn size rooms.old rooms.new }
        ensures worked { F.step work.old result work.new };
}

/// Does the work, and then hashes so many bytes more of each file, one after another, on the thread that asks.
pub fn hash_behind<F: FnMut() -> A, A>(rooms: &mut [Room], size: usize, work: &mut F) -> A
    requires work { F.pre work.old }
    ensures hashed { AreHashedOn size rooms.old rooms.new }
    ensures worked { F.step work.old result work.new }
{
    let done = work();
    for i in 0..rooms.len() {
        rooms[i].hash_part(size);
    }
    done
}

/// Hashes so many bytes more of each file, side by side, on a thread for each processor, and does the work on this one. It begins up
/// to four threads by itself, since one that a new thread begins runs beside that, on the same processor, for some milliseconds.
pub fn hash_forked<R: Threads + Sync, F: FnMut() -> A, A>(
    rt: &R,
    rooms: &mut [Room],
    size: usize,
    work: &mut F,
) -> A
    requires work { F.pre work.old }
    ensures hashed { AreHashedOn size rooms.old rooms.new }
    ensures worked { F.step work.old result work.new }
{
    let (some, others) = rooms.split_at_mut(rooms.len() / 2);
    let mut rest = || -> A
        requires { F.pre work.now × IsSync R.row }
        ensures hashed { AreHashedOn size others.entry.now others.exit.now }
        ensures worked { F.step work.entry.now result work.exit.now }
    { hash_halves(rt, others, size, work) };
    hash_halves(rt, some, size, &mut rest)
}

/// The same, where this thread begins up to two.
fn hash_halves<R: Threads + Sync, F: FnMut() -> A, A>(
    rt: &R,
    rooms: &mut [Room],
    size: usize,
    work: &mut F,
) -> A
    requires work { F.pre work.old }
    ensures hashed { AreHashedOn size rooms.old rooms.new }
    ensures worked { F.step work.old result work.new }
{
    let (some, others) = rooms.split_at_mut(rooms.len() / 2);
    let mut rest = || -> A
        requires { F.pre work.now × IsSync R.row }
        ensures hashed { AreHashedOn size others.entry.now others.exit.now }
        ensures worked { F.step work.entry.now result work.exit.now }
    { hash_apart(rt, others, size, work) };
    hash_apart(rt, some, size, &mut rest)
}

/// The same, where this thread begins one if there is a file, and that one begins others if there are several.
fn hash_apart<R: Threads + Sync, F: FnMut() -> A, A>(
    rt: &R,
    rooms: &mut [Room],
    size: usize,
    work: &mut F,
) -> A
    requires work { F.pre work.old }
    ensures hashed { AreHashedOn size rooms.old rooms.new }
    ensures worked { F.step work.old result work.new }
{
    if rooms.is_empty() {
        return work();
    }
    let mut hash = ||
        requires { IsSync R.row }
        ensures { AreHashedOn size rooms.entry.now rooms.exit.now }
    {
        hash_each(rt, rooms, size);
    };
    let ((), done) = join_mut(rt, &mut hash, work);
    done
}

/// Hashes so many bytes more of each file, side by side, on a thread for each processor.
fn hash_each<R: Threads + Sync>(rt: &R, rooms: &mut [Room], size: usize)
    ensures { AreHashedOn size rooms.old rooms.new }
{
    par_for_each_mut(
        rt,
        rooms,
        |_: usize, room: &mut Room|
            ensures { IsHashedOn size room.old room.new }
        {
            room.hash_part(size);
        },
    );
}
