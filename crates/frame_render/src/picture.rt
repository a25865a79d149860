//! The picture of a frame: its lines, by bands one after another, or by parts side by side.
ghost use Rattle.std.specs.Prelude.{◌≡◌, ◌+◌, ◌-◌, ◌*◌, ◌/◌, ◌%◌, ◌<◌, ◌≤◌, min, flat_map, length, slice_index, EachIndex};
ghost use Rattle.byteorder.specs.Endian.{big_bytes};
ghost use Rattle.frame_render.specs.Frame.{black_of, pixel_count};
ghost use Rattle.frame_render.specs.inside.Pictures.{IsPicture, lines_of, picture_of, words_of_line};
ghost use Rattle.frame_render.specs.inside.Lines.{HasColours, StandsAt, stride};

use cf_base::LARGEST;
use conform_job::Job;
use dpx_pack::{pack, word_of};
use record_timeline::Shot;
use std::thread::{Threads, for_each_chunk_mut};

/// A picture that is to be made: what a shot of the job shows, from the words of its sides.
#[derive(Clone, Copy)]
pub(crate) struct Picture<'a> {
    pub(crate) job: &'a Job,
    pub(crate) shot: Shot,
    /// The words of the old side, and below those of the new one; none where the side is black.
    pub(crate) old: Option<&'a [u32]>,
    pub(crate) new: Option<&'a [u32]>,
}

impl Picture<'_> {
    /// The bytes of the picture: the job's bands, one after another. With `b` bands and `h` lines, band `n` from 0 has the lines
    /// from `n * h / b` up to `(n + 1) * h / b`, the last excluded.
    pub(crate) fn render_bands(&self, out: &mut [u8])
        requires picture { IsPicture self.now }
        requires room { length out.old ≡ 4 * pixel_count self.now.job.now }
        ensures { out.new ≡ picture_of self.now }
    {
        let (height, bands) = (self.job.height(), self.job.bands());
        let stride = 4 * self.job.width() as usize;
        for n in 0..bands {
            let first = first_line(height, bands, n);
            let end = first_line(height, bands, n + 1);
            let band = &mut out[first as usize * stride..end as usize * stride];
            self.render_lines(first, end - first, band);
        }
    }

    /// The same picture, by parts side by side: as many as there are threads, and at most as many as there are bands.
    pub(crate) fn render_parts<R: Threads + Sync>(&self, rt: &R, threads: u32, out: &mut [u8])
        requires picture { IsPicture self.now }
        requires room { length out.old ≡ 4 * pixel_count self.now.job.now }
        ensures { out.new ≡ picture_of self.now }
    {
        let parts = threads.min(self.job.bands()).max(1);
        let lines = self.job.height().div_ceil(parts);
        self.fork_lines(rt, lines as usize, out);
    }

    /// The places of the same picture, so many lines in a thread.
    fn fork_lines<R: Threads + Sync>(&self, rt: &R, lines: usize, out: &mut [u8])
        requires picture { IsPicture self.now }
        requires some { 0 < lines }
        requires lines { lines ≤ LARGEST }
        requires room { length out.old ≡ 4 * pixel_count self.now.job.now }
        ensures { EachIndex out.new (λ k. slice_index out.new k ≡ slice_index (picture_of self.now) k) }
    {
        let size = lines * (4 * self.job.width() as usize);
        for_each_chunk_mut(
            rt,
            out,
            size,
            &|start, part| { self.render_part(lines, start, part) },
        );
    }

    /// A part of the picture that begins at a place of its bytes: so many whole lines, or what is left of the picture.
    fn render_part(&self, lines: usize, start: usize, out: &mut [u8])
        requires picture { IsPicture self.now }
        requires some { 0 < lines }
        requires start { start % (lines * stride self.now.job.now) ≡ 0 }
        requires length { length out.old ≡ min (lines * stride self.now.job.now) (4 * pixel_count self.now.job.now - start) }
        requires within { start + length out.old ≤ 4 * pixel_count self.now.job.now }
        ensures { StandsAt start out.new (picture_of self.now) }
    {
        let stride = 4 * self.job.width() as usize;
        let (first, count) = (start / stride, out.len() / stride);
        self.render_lines(first as u32, count as u32, out);
    }

    /// The bytes of `count` lines from line `first` on.
    fn render_lines(&self, first: u32, count: u32, out: &mut [u8])
        requires picture { IsPicture self.now }
        requires within { first + count ≤ self.now.job.now.parts.project.height }
        requires room { length out.old ≡ count * stride self.now.job.now }
        ensures { out.new ≡ lines_of self.now first count }
    {
        let width = self.job.width() as usize;
        let stride = 4 * width;
        let black = [word_of(self.job.project().black); LARGEST as usize];
        let mut line = [0; LARGEST as usize];
        for n in 0..count {
            let start = n as usize * stride;
            let bytes = &mut out[start..start + stride];
            self.render_line(first + n, &black[..width], &mut line[..width], bytes);
        }
    }

    /// The bytes of line `y`, whose words are made in `line`; `black` is a line of the project's black.
    fn render_line(&self, y: u32, black: &[u32], line: &mut [u32], out: &mut [u8])
        requires picture { IsPicture self.now }
        requires y { y < self.now.job.now.parts.project.height }
        requires black { HasColours self.now.job.now (λ x. black_of self.now.job.now) black.now }
        requires line { length line.old ≡ self.now.job.now.parts.project.width }
        requires room { length out.old ≡ stride self.now.job.now }
        ensures { out.new ≡ flat_map (big_bytes 4) (words_of_line self.now y) }
    {
        self.fill_line(y, black, line);
        pack(line, out);
    }
}

/// The first line of band `n` of a picture.
fn first_line(height: u32, bands: u32, n: u32) -> u32
    requires height { height ≤ LARGEST }
    requires bands { bands ≤ 64 }
    requires some { 0 < bands }
    requires within { n ≤ bands }
    ensures first { result ≡ n * height / bands }
{
    n * height / bands
}
