//! Decoded source frames.
ghost use Rattle.std.specs.Prelude.{◌≡◌, ◌≤◌, length, IfSome, IfOk};
ghost use Rattle.dpx_header.specs.Frame.{IsFrame, need_of};
ghost use Rattle.dpx_pack.specs.Pixels.{pixels};
ghost use Rattle.scan_source.specs.World.{file_at};
ghost use Rattle.frame_render.specs.Frame.{AreWordsOf, IsFrontOf, pixel_count};

use crate::WordBuf;
use cf_base::{Fail, Key, Never};
use conform_job::{Job, Work};
use dpx_header::FrameInfo;
use dpx_pack::unpack;
use std::alloc::Global;
use std::marker::{Model, PhantomData};

/// The pixel words of a source frame of N's job, one for each pixel: where N's files are told,
/// those of the file that the key names in them, by the file's own header.
#[derive(Drop)]
pub struct Decoded<N: Work> {
    key: Key,
    words: Vec<u32>,
    of: PhantomData<N>,
}

impl<N: Work> Model for Decoded<N> {
    ghost use Rattle.std.specs.Prelude.{◌≡◌, length};
    ghost use Rattle.frame_render.specs.Frame.{AreWordsOf, KeyWords, pixel_count};

    ghost Value = { KeyWords };

    ghost view = { λ d. record { key = d.key; words = d.words.items } };

    ghost invariant = { λ d.
        (length d.words.items ≡ pixel_count N.job)
        × AreWordsOf N.job N.files d.key d.words.items };
}

impl<N: Work> Decoded<N> {
    /// The key of the source frame.
    pub fn key(&self) -> Key
        ensures key { result ≡ self.now.key }
    {
        self.key
    }

    /// One word for each pixel, line by line from the top and from left to right: R in bits 31 to
    /// 22, G in 21 to 12, B in 11 to 2 (SMPTE 268M, method A).
    pub fn words(&self) -> &[u32]
        ensures words { result.now ≡ self.now.words }
        ensures count { length result.now ≡ pixel_count N.job }
        ensures defined { AreWordsOf N.job N.files self.now.key result.now }
    {
        &self.words
    }

    /// Decodes the first bytes of the key's file, which has this header and the job's size; fails
    /// for want of memory alone.
    pub fn of(
        alloc: Global,
        job: &Job,
        key: Key,
        info: &FrameInfo,
        bytes: &[u8],
    ) -> Result<Decoded<N>, Fail<Never>>
        requires job { job.now ≡ N.job }
        requires frame { IsFrame info.now }
        requires whole { need_of info.now ≤ length bytes.now }
        requires width { info.now.width ≡ job.now.parts.project.width }
        requires height { info.now.height ≡ job.now.parts.project.height }
        requires file { IfSome N.files (λ world.
            IsFrontOf N.job (file_at world) key info.now bytes.now) }
        ensures key { IfOk result (λ d. d.key ≡ key) }
        ensures words { IfOk result (λ d. d.words ≡ pixels info.now bytes.now) }
    {
        match WordBuf::new(alloc, job) {
            Ok(room) => Ok(Decoded::within(room, job, key, info, bytes)),
            Err(fail) => Err(fail),
        }
    }

    /// The same in room that another frame had, so that it takes no memory.
    pub fn within(room: WordBuf, job: &Job, key: Key, info: &FrameInfo, bytes: &[u8]) -> Decoded<N>
        requires job { job.now ≡ N.job }
        requires room { length room ≡ pixel_count N.job }
        requires frame { IsFrame info.now }
        requires whole { need_of info.now ≤ length bytes.now }
        requires width { info.now.width ≡ job.now.parts.project.width }
        requires height { info.now.height ≡ job.now.parts.project.height }
        requires file { IfSome N.files (λ world.
            IsFrontOf N.job (file_at world) key info.now bytes.now) }
        ensures key { result.key ≡ key }
        ensures words { result.words ≡ pixels info.now bytes.now }
    {
        let WordBuf { mut words } = room;
        unpack(info, bytes, &mut words);
        Decoded {
            key,
            words,
            of: PhantomData,
        }
    }

    /// The room that it lies in, for another frame.
    pub fn into_buf(self) -> WordBuf
        ensures words { result ≡ self.words }
        ensures room { length result ≡ pixel_count N.job }
    {
        let Decoded { words, .. } = self;
        WordBuf { words }
    }
}
