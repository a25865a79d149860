//! Rendered frames.
ghost use Rattle.std.specs.Prelude.{◌≡◌, ◌<◌, length};
ghost use Rattle.record_timeline.specs.Accepted.{frame_count};
ghost use Rattle.conform_job.specs.Job.{file_of};
ghost use Rattle.frame_render.specs.Frame.{IsFileOf, frame_size};

use crate::FrameBuf;
use cf_base::FileId;
use conform_job::Work;
use std::marker::{Model, PhantomData};

/// The file of a record frame of N's job: where N's files are told, byte for byte the definition's
/// for its index.
#[derive(Drop)]
pub struct Rendered<N: Work> {
    pub(crate) index: u32,
    pub(crate) file: FileId,
    pub(crate) bytes: Vec<u8>,
    pub(crate) of: PhantomData<N>,
}

impl<N: Work> Model for Rendered<N> {
    ghost use Rattle.std.specs.Prelude.{◌≡◌, ◌<◌, length};
    ghost use Rattle.record_timeline.specs.Accepted.{frame_count};
    ghost use Rattle.conform_job.specs.Job.{file_of};
    ghost use Rattle.frame_render.specs.Frame.{FrameBytes, IsFileOf, frame_size};

    ghost Value = { FrameBytes };

    ghost view = { λ r. record { index = r.index; file = r.file; bytes = r.bytes.items } };

    ghost invariant = { λ r.
        (r.index < frame_count N.job.parts.timeline.events)
        × (r.file ≡ file_of N.job r.index)
        × (length r.bytes.items ≡ frame_size N.job)
        × IsFileOf N.job N.files r.index r.bytes.items };
}

impl<N: Work> Rendered<N> {
    /// Which record frame it is, from 0.
    pub fn index(&self) -> u32
        ensures index { result ≡ self.now.index }
        ensures below { result < frame_count N.job.parts.timeline.events }
    {
        self.index
    }

    /// The file that it is written to.
    pub fn file(&self) -> FileId
        ensures file { result ≡ self.now.file }
        ensures own { result ≡ file_of N.job self.now.index }
    {
        self.file
    }

    /// The bytes of its file.
    pub fn bytes(&self) -> &[u8]
        ensures bytes { result.now ≡ self.now.bytes }
        ensures size { length result.now ≡ frame_size N.job }
        ensures defined { IsFileOf N.job N.files self.now.index result.now }
    {
        &self.bytes
    }

    /// The room that it lies in, for another frame.
    pub fn into_buf(self) -> FrameBuf
        ensures bytes { result ≡ self.bytes }
        ensures room { length result ≡ frame_size N.job }
    {
        let Rendered { bytes, .. } = self;
        FrameBuf { bytes }
    }
}
