//! A frame whose pixels are known already, under its own header.
ghost use Rattle.std.specs.Prelude.{◌≡◌, ◌<◌, ◌++◌, drop, length, IfSome};
ghost use Rattle.record_timeline.specs.Accepted.{frame_count};
ghost use Rattle.scan_source.specs.World.{file_at};
ghost use Rattle.dpx_header.specs.Writing.{header_of};
ghost use Rattle.frame_render.specs.Frame.{IsFileOf, frame_file, frame_size, out_head};

use crate::Rendered;
use crate::file::put_header;
use cf_base::HEADER;
use conform_job::{Job, Work};
use std::marker::PhantomData;

/// Puts the header of record frame `i` of N's job, from 0, over the first 2048 bytes of a file whose pixels are the frame's,
/// wherever these come from. Takes no memory.
pub fn rehead<N: Work>(job: &Job, i: u32, file: &mut [u8])
    requires job { job.now ≡ N.job }
    requires index { i < frame_count N.job.parts.timeline.events }
    requires size { length file.old ≡ frame_size N.job }
    requires pixels { IfSome N.files (λ world. drop HEADER file.old ≡ drop HEADER (frame_file N.job (file_at world) i)) }
    ensures size { length file.new ≡ frame_size N.job }
    ensures file { IsFileOf N.job N.files i file.new }

    // Over any scan, the bytes are its header and then those that were there.
    ensures made { file.new ≡ header_of (out_head N.job i) ++ drop HEADER file.old }
{
    put_header(job, i, file);
}

impl<N: Work> Rendered<N> {
    /// Record frame `i` of N's job, from 0, from the bytes of its file.
    pub fn of_file(job: &Job, i: u32, bytes: Vec<u8>) -> Rendered<N>
        requires job { job.now ≡ N.job }
        requires index { i < frame_count N.job.parts.timeline.events }
        requires size { length bytes.items ≡ frame_size N.job }
        requires file { IsFileOf N.job N.files i bytes.items }
        ensures index { result.index ≡ i }
        ensures bytes { result.bytes ≡ bytes.items }
    {
        Rendered {
            index: i,
            file: job.file_of(i),
            bytes,
            of: PhantomData,
        }
    }

    /// The bytes of its file, and the room that they lie in.
    pub fn into_bytes(self) -> Vec<u8>
        ensures bytes { result.items ≡ self.bytes }
        ensures size { length result.items ≡ frame_size N.job }
    {
        let Rendered { bytes, .. } = self;
        bytes
    }
}
