//! Room for a frame's file, and for a decoded frame. Each is made once and handed on from frame to frame.
ghost use Rattle.std.specs.Prelude.{◌≡◌, length, IfOk};
ghost use Rattle.frame_render.specs.Frame.{frame_size, pixel_count};

use cf_base::{Fail, HEADER, Never};
use conform_job::Job;
use std::alloc::Global;
use std::marker::Model;

/// Room for the file of one frame of a job: 2048 bytes of header and four for each pixel. Contracts
/// see the bytes that lie in it.
#[derive(Drop)]
pub struct FrameBuf {
    pub(crate) bytes: Vec<u8>,
}

impl Model for FrameBuf {
    ghost use Rattle.std.specs.Prelude.{List, ℕ};

    ghost Value = { List ℕ };

    ghost view = { λ b. b.bytes.items };
}

impl FrameBuf {
    /// Room for a frame of the job; fails for want of memory alone.
    pub fn new(alloc: Global, job: &Job) -> Result<FrameBuf, Fail<Never>>
        ensures room { IfOk result (λ buf. length buf ≡ frame_size job.now) }
    {
        job.recall();
        match vec![in alloc; 0; HEADER + 4 * (job.width() as usize * job.height() as usize)] {
            Ok(bytes) => Ok(FrameBuf { bytes }),
            Err(_) => Err(Fail::NoMemory),
        }
    }
}

/// Room for the pixel words of one decoded frame of a job. Contracts see the words that lie in it.
#[derive(Drop)]
pub struct WordBuf {
    pub(crate) words: Vec<u32>,
}

impl Model for WordBuf {
    ghost use Rattle.std.specs.Prelude.{List, ℕ};

    ghost Value = { List ℕ };

    ghost view = { λ b. b.words.items };
}

impl WordBuf {
    /// Room for a frame of the job; fails for want of memory alone.
    pub fn new(alloc: Global, job: &Job) -> Result<WordBuf, Fail<Never>>
        ensures room { IfOk result (λ buf. length buf ≡ pixel_count job.now) }
    {
        job.recall();
        match vec![in alloc; 0; job.width() as usize * job.height() as usize] {
            Ok(words) => Ok(WordBuf { words }),
            Err(_) => Err(Fail::NoMemory),
        }
    }
}
