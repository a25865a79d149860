//! Turns at source frames: where several workers want one that isn't shared yet, one of them loads it while the others wait.
use cf_base::{Key, WORKERS};
use std::sync::{Condvar, Mutex, Wait};

/// Which source frame each worker is asking for or loading. No clause speaks of it: it makes workers wait, and does nothing else.
#[derive(Drop)]
pub(crate) struct Turns {
    keys: Mutex<[Option<Key>; WORKERS]>,
    ended: Condvar,
}

impl Turns {
    /// No worker has a turn. Takes no memory.
    pub(crate) fn new() -> Turns {
        Turns {
            keys: Mutex::new([None; WORKERS]),
            ended: Condvar::new(),
        }
    }

    /// Waits until no worker has a turn at this source frame, and begins that of this worker, which has none.
    pub(crate) fn begin<R: Wait>(&self, rt: &R, worker: u16, key: Key) {
        let mut keys = self
            .ended
            .wait_while(rt, self.keys.lock(rt), |keys| keys.contains(&Some(key)));
        if let Some(turn) = keys.get_mut(usize::from(worker)) {
            *turn = Some(key);
        }
    }

    /// Ends the turn of this worker.
    pub(crate) fn end<R: Wait>(&self, rt: &R, worker: u16) {
        let mut keys = self.keys.lock(rt);
        if let Some(turn) = keys.get_mut(usize::from(worker)) {
            *turn = None;
        }
        drop(keys);
        self.ended.notify_all();
    }
}
