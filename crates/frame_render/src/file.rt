//! The file of a frame: its header, and then its picture.
ghost use Rattle.std.specs.Prelude.{◌≡◌, ◌<◌, ◌≤◌, drop, length, take, IfSome};
ghost use Rattle.std.specs.Option.{option_copied};
ghost use Rattle.cf_base.specs.Timing.{frames_in_day};
ghost use Rattle.dpx_header.specs.Writing.{IsOutHead, header_of};
ghost use Rattle.record_timeline.specs.Accepted.{frame_count};
ghost use Rattle.conform_job.specs.Job.{ArePlanned};
ghost use Rattle.scan_source.specs.World.{file_at};
ghost use Rattle.frame_render.specs.Frame.{AreSidesOf, IsRenderedOf, file_by, frame_size, out_head, timecode_of, words_kept};
ghost use Rattle.frame_render.specs.inside.Frame.{HasWords, IsDecoded};

use crate::picture::Picture;
use crate::{Decoded, FrameBuf, Rendered};
use cf_base::{FrameNo, HEADER};
use cf_timecode::{bcd, label_of};
use conform_job::{Job, Work};
use dpx_header::{OutHead, write_header};
use std::marker::PhantomData;
use std::thread::Threads;

/// The file of record frame `i` of N's job, from 0, from the source frames that it needs: its bands one after another.
/// Takes no memory.
pub fn render<N: Work>(
    job: &Job,
    i: u32,
    old: Option<&Decoded<N>>,
    new: Option<&Decoded<N>>,
    buf: FrameBuf,
) -> Rendered<N>
    requires job { job.now ≡ N.job }
    requires sides { AreSidesOf N.job i (option_copied old) (option_copied new) }
    requires room { length buf ≡ frame_size N.job }
    ensures frame { IsRenderedOf N.job i (option_copied old.entry) (option_copied new.entry) result }
{
    let FrameBuf { mut bytes } = buf;
    render_file(job, i, words_of(old), words_of(new), &mut bytes);
    record_frame(job, i, old, new, bytes)
}

/// The same file, whose lines are made in `threads` threads side by side, this one among them: in at most as many as the job
/// has bands, and 0 is 1. A thread costs some 40 microseconds, so let it be as many as there are processors without work.
/// Takes no memory of its own.
pub fn render_forked<N: Work, R: Threads + Sync>(
    rt: &R,
    job: &Job,
    i: u32,
    old: Option<&Decoded<N>>,
    new: Option<&Decoded<N>>,
    buf: FrameBuf,
    threads: u32,
) -> Rendered<N>
    requires job { job.now ≡ N.job }
    requires sides { AreSidesOf N.job i (option_copied old) (option_copied new) }
    requires room { length buf ≡ frame_size N.job }
    ensures frame { IsRenderedOf N.job i (option_copied old.entry) (option_copied new.entry) result }
{
    let FrameBuf { mut bytes } = buf;
    render_file_forked(
        rt,
        job,
        i,
        words_of(old),
        words_of(new),
        threads,
        &mut bytes,
    );
    record_frame(job, i, old, new, bytes)
}

/// Record frame `i` of N's job, rendered from these source frames into these bytes.
fn record_frame<N: Work>(
    job: &Job,
    i: u32,
    old: Option<&Decoded<N>>,
    new: Option<&Decoded<N>>,
    bytes: Vec<u8>,
) -> Rendered<N>
    requires job { job.now ≡ N.job }
    requires sides { AreSidesOf N.job i (option_copied old) (option_copied new) }
    requires old { IfSome N.files (λ world. IsDecoded N.job (file_at world) (option_copied old)) }
    requires new { IfSome N.files (λ world. IsDecoded N.job (file_at world) (option_copied new)) }
    requires bytes { bytes.items ≡ file_by N.job i (words_kept (option_copied old)) (words_kept (option_copied new)) }
    requires size { length bytes.items ≡ frame_size N.job }
    ensures frame { IsRenderedOf N.job i (option_copied old.entry) (option_copied new.entry) result }
{
    job.recall();
    Rendered {
        index: i,
        file: job.file_of(i),
        bytes,
        of: PhantomData,
    }
}

/// The pixel words that were decoded, if there are any.
fn words_of<N: Work>(decoded: Option<&Decoded<N>>) -> Option<&[u32]>
    ensures words { option_copied result ≡ words_kept (option_copied decoded.entry) }
    ensures defined { IfSome N.files (λ world.
        IsDecoded N.job (file_at world) (option_copied decoded.entry)) }
    ensures count { HasWords N.job (option_copied result) }
{
    match decoded {
        Some(decoded) => Some(decoded.words()),
        None => None,
    }
}

/// The bytes of the file of record frame `i`.
fn render_file(job: &Job, i: u32, old: Option<&[u32]>, new: Option<&[u32]>, out: &mut [u8])
    requires index { i < frame_count job.now.parts.timeline.events }
    requires old { HasWords job.now (option_copied old) }
    requires new { HasWords job.now (option_copied new) }
    requires room { length out.old ≡ frame_size job.now }
    ensures { out.new ≡ file_by job.now i (option_copied old.entry) (option_copied new.entry) }
{
    put_header(job, i, out);
    let shot = job.shot(i);
    let picture = Picture {
        job,
        shot,
        old,
        new,
    };
    picture.render_bands(&mut out[HEADER..]);
}

/// The same, side by side.
fn render_file_forked<R: Threads + Sync>(
    rt: &R,
    job: &Job,
    i: u32,
    old: Option<&[u32]>,
    new: Option<&[u32]>,
    threads: u32,
    out: &mut [u8],
)
    requires index { i < frame_count job.now.parts.timeline.events }
    requires old { HasWords job.now (option_copied old) }
    requires new { HasWords job.now (option_copied new) }
    requires room { length out.old ≡ frame_size job.now }
    ensures { out.new ≡ file_by job.now i (option_copied old.entry) (option_copied new.entry) }
{
    put_header(job, i, out);
    let shot = job.shot(i);
    let picture = Picture {
        job,
        shot,
        old,
        new,
    };
    picture.render_parts(rt, threads, &mut out[HEADER..]);
}

/// Writes the header of record frame `i`.
pub(crate) fn put_header(job: &Job, i: u32, out: &mut [u8])
    requires index { i < frame_count job.now.parts.timeline.events }
    requires room { HEADER ≤ length out.old }
    ensures header { take HEADER out.new ≡ header_of (out_head job.now i) }
    ensures behind { drop HEADER out.new ≡ drop HEADER out.old }
    ensures size { length out.new ≡ length out.old }
    ensures planned { ArePlanned job.now.parts }
{
    let mut header = [0; HEADER];
    write_header(&out_head(job, i), &mut header);
    out[..2048].copy_from_slice(&header);
}

/// The header of record frame `i`: its place in its record reel, and how many frames that has.
fn out_head(job: &Job, i: u32) -> OutHead
    requires { i < frame_count job.now.parts.timeline.events }
    ensures head { result ≡ out_head job.now i }
    ensures valid { IsOutHead result }
    ensures planned { ArePlanned job.now.parts }
{
    job.recall();
    let number = job.timeline().first().0 + i;
    let reel = job.reel_of(i);
    let span = job.reel_span(reel);
    OutHead {
        width: job.width(),
        height: job.height(),
        reel,
        frame: number,
        position: i - span.start,
        length: span.end - span.start,
        timecode: Some(timecode_of(job, number)),
        title: job.project().title,
    }
}

/// The timecode of a frame of the day, as SMPTE ST 12-1 has its digits.
fn timecode_of(job: &Job, number: u32) -> u32
    requires planned { ArePlanned job.now.parts }
    requires day { number < frames_in_day job.now.parts.timeline.rate job.now.parts.timeline.mode }
    ensures { result ≡ timecode_of job.now number }
{
    bcd(label_of(job.project().rate, job.timeline().mode(), FrameNo(number)))
}
