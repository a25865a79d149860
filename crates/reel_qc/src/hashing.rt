//! The digests of several files, by what counts.
use crate::table::{Forked, OneThread};
use frame_hash::{Hasher, Room, hash_behind, hash_forked};
use rayon::current_num_threads;
use std::thread::Threads;

/// How many files are in memory at most, however many processors there are.
const MOST_ROOMS: usize = 16;

/// Files are hashed while they are read.
impl Hasher for OneThread {
    ghost can_hash = { Unit {0} };

    fn rooms(&self) -> usize {
        0
    }

    fn hash_beside<F: FnMut() -> A, A>(&self, rooms: &mut [Room], size: usize, work: &mut F) -> A {
        hash_behind(rooms, size, work)
    }
}

/// Several threads use the handle.
impl<R: Threads + Sync> Hasher for Forked<'_, R> {
    ghost use Rattle.std.specs.Thread.{IsSync};

    ghost can_hash = { IsSync R.row };

    fn rooms(&self) -> usize {
        current_num_threads(self.rt).min(MOST_ROOMS)
    }

    fn hash_beside<F: FnMut() -> A, A>(&self, rooms: &mut [Room], size: usize, work: &mut F) -> A {
        hash_forked(self.rt, rooms, size, work)
    }
}
