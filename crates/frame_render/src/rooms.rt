//! What is kept from frame to frame.
ghost use Rattle.std.specs.Prelude.{◌≡◌, true, false, length, IfOk, OnErr};
ghost use Rattle.frame_render.specs.Frame.{pixel_count};

use crate::{Decoded, WordBuf};
use cf_base::{Fail, Never};
use conform_job::{Job, Work};
use std::alloc::Global;
use std::marker::{Model, PhantomData};
use std::sync::Arc;

/// Room for a decoded frame of N's job that nobody holds any more, where there is one. Contracts see whether there is.
#[derive(Drop)]
pub struct Spare<N: Work> {
    room: Option<WordBuf>,
    of: PhantomData<N>,
}

impl<N: Work> Model for Spare<N> {
    ghost use Rattle.std.specs.Prelude.{◌≡◌, Bool, length, is_some, IfSome};
    ghost use Rattle.frame_render.specs.Frame.{pixel_count};

    ghost Value = { Bool };

    ghost view = { λ s. is_some s.room };

    ghost invariant = { λ s. IfSome s.room (λ room. length room ≡ pixel_count N.job) };
}

impl<N: Work> Spare<N> {
    /// No room. Takes no memory.
    pub fn none() -> Spare<N>
        ensures none { result ≡ false }
    {
        Spare {
            room: None,
            of: PhantomData,
        }
    }

    /// Room for a decoded frame of the job: what is here, else new room; fails for want of memory alone, and never where
    /// room is here.
    pub fn take(&mut self, alloc: Global, job: &Job) -> Result<WordBuf, Fail<Never>>
        requires job { job.now ≡ N.job }
        ensures room { IfOk result (λ buf. length buf ≡ pixel_count N.job) }
        ensures new { OnErr result (self.old ≡ false) }
        ensures none { self.new ≡ false }
    {
        match self.room.take() {
            Some(room) => Ok(room),
            None => WordBuf::new(alloc, job),
        }
    }

    /// Gives up a frame, and keeps its room where nobody else holds it.
    pub fn keep(&mut self, frame: Option<Arc<Decoded<N>>>)
        ensures more { self.old ≡ true → self.new ≡ true }
    {
        let Some(frame) = frame else {
            return;
        };
        if let Some(frame) = Arc::into_inner(frame) {
            self.room = Some(frame.into_buf());
        }
    }
}

/// What is kept from frame to frame by whoever loads source frames of N's job: room for the bytes of a file, and for a decoded
/// frame.
#[derive(Drop)]
pub struct Rooms<N: Work> {
    /// The first bytes of the file that was loaded last.
    pub file: Vec<u8>,
    /// Room for the next frame that is decoded.
    pub spare: Spare<N>,
}

impl<N: Work> Rooms<N> {
    /// No room yet. Takes no memory.
    pub fn new(alloc: Global) -> Rooms<N> {
        Rooms {
            file: Vec::new(alloc),
            spare: Spare::none(),
        }
    }
}
