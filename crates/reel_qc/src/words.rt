//! The words of a frame's file.
ghost use Rattle.std.specs.Prelude.{◌≡◌, ◌*◌, ◌<◌, ◌≤◌, ◌^◌, ℕ, true, length, drop, slice_index, take, Some, OnOk, IfOk, IsErrOf, Err};
ghost use Rattle.reel_disk.specs.State.{LeavesDisk, OnlyReads};
ghost use Rattle.conform_job.specs.Job.{file_of};
ghost use Rattle.reel_disk.specs.Disk.{view_of};
ghost use Rattle.reel_writer.specs.Reel.{frames_of};
ghost use Rattle.frame_render.specs.Frame.{pixel_count};
ghost use Rattle.reel_qc.specs.Reads.{ReadsFrame, ReadsWords};
ghost use Rattle.reel_qc.specs.Words.{frame_words, words_in, words_from};

use byteorder::{BigEndian, ByteOrder};
use cf_base::{Fail, FileId, HEADER, Never, PIECE};
use conform_job::Job;
use reel_disk::{Disk, DiskFail, Got};
use std::alloc::{AllocError, Global};

/// How many pixels a picture has at most: 4096 lines of 4096.
pub const PIXELS: usize = 16_777_216;

/// Words of one read.
const WORDS: usize = 16384;

/// The words of a frame's file (SMPTE 268M, image data from byte 2048 on): big-endian, as many as are whole, and at most as
/// many as the frame has pixels. `out` is emptied before; there is memory enough where it has room for the words of a whole frame.
pub fn frame_words(job: &Job, file: &[u8], out: &mut Vec<u32>) -> Result<(), Fail<Never>>
    ensures { OnOk result (out.new.items ≡ frame_words job.now (Some file.now)) }
{
    out.clear();
    let Ok(()) = out.resize(pixels_of(job), 0) else {
        return Err(Fail::NoMemory);
    };
    let found = take_words(image_of(file), out);
    out.truncate(found);
    Ok(())
}

/// The bytes of a file behind its header.
fn image_of(file: &[u8]) -> &[u8]
    ensures { result.now ≡ drop HEADER file.now }
{
    &file[file.len().min(HEADER)..]
}

/// How many pixels a frame of a job has.
pub(crate) fn pixels_of(job: &Job) -> usize
    ensures count { result ≡ pixel_count job.now }
    ensures some { 0 < result }
    ensures most { result ≤ PIXELS }
{
    job.recall();
    job.width() as usize * job.height() as usize
}

/// Takes the whole words of some bytes, as many as there is room for: how many.
fn take_words(bytes: &[u8], words: &mut [u32]) -> usize
    ensures taken { take result words.new ≡ words_from 0 (length words.old) bytes.now }
    ensures few { result ≤ length words.old }
    ensures size { length words.new ≡ length words.old }
{
    let count = words.len().min(bytes.len() / 4);
    BigEndian::read_u32_into(&bytes[..4 * count], &mut words[..count]);
    count
}

/// What the frames of a table or a sheet are read into, made once.
#[derive(Drop)]
pub(crate) struct Buffers {
    /// 65,536 bytes of a file.
    pub(crate) piece: Vec<u8>,
    /// Words of a file.
    pub(crate) words: Vec<u32>,
}

impl Buffers {
    /// With room for so many words.
    pub(crate) fn new(alloc: Global, room: usize) -> Result<Buffers, AllocError>
        ensures piece { IfOk result (λ buffers. length buffers.piece.items ≡ PIECE) }
        ensures words { IfOk result (λ buffers. length buffers.words.items ≡ room) }
    {
        let piece = vec![in alloc; 0u8; 4 * WORDS]?;
        let words = vec![in alloc; 0u32; room]?;
        Ok(Buffers { piece, words })
    }
}

/// Reads all words of a frame's file, an absent one as no words.
pub(crate) fn read_frame<D: Disk>(
    disk: &mut D,
    job: &Job,
    i: u32,
    buffers: &mut Buffers,
) -> Result<(), DiskFail>
    requires within { i < frames_of job.now }
    requires piece { length buffers.old.piece.items ≡ PIECE }
    ensures words { OnOk result (D.tells ≡ true
        → buffers.new.words.items ≡ frame_words job.now (view_of (D.state disk.old).history (file_of job.now i))) }
    ensures calls { OnOk result (ReadsFrame job.now i buffers.new.words.items (D.state disk.old).calls (D.state disk.new).calls) }
    ensures size { OnOk result (length buffers.new.words.items ≤ PIXELS) }
    ensures most { OnOk result (length buffers.new.words.items ≤ pixel_count job.now) }
    ensures piece { length buffers.new.piece.items ≡ PIECE }
    ensures reads { OnlyReads D.tells (D.state disk.old) (D.state disk.new) }
    ensures disk { LeavesDisk (IsErrOf result DiskFail.DiskFault) (D.state disk.old) (D.state disk.new) }
{
    // The frame before may have been short.
    buffers.words.resize(pixels_of(job), 0)?;
    let count = read_words(
        disk,
        job.file_of(i),
        0,
        &mut buffers.piece,
        &mut buffers.words,
    )?;
    buffers.words.truncate(count);
    Ok(())
}

/// Reads the words of a file from the `first`-th on, as many as there is room for: how many are there.
pub(crate) fn read_words<D: Disk>(
    disk: &mut D,
    id: FileId,
    first: usize,
    piece: &mut [u8],
    words: &mut [u32],
) -> Result<usize, DiskFail>
    requires first { first ≤ PIXELS }
    requires room { length words.old ≤ PIXELS }
    requires piece { length piece.old ≡ PIECE }
    ensures words { IfOk result (λ count. D.tells ≡ true
        → take count words.new ≡ words_in first (length words.old) (view_of (D.state disk.old).history id)) }
    ensures calls { IfOk result (λ count. ReadsWords id first (length words.old) (take count words.new)
        (D.state disk.old).calls (D.state disk.new).calls) }
    ensures few { IfOk result (λ count. count ≤ length words.old) }
    ensures small { (k : ℕ) → slice_index words.new k < 2 ^ 32 }
    ensures size { length words.new ≡ length words.old }
    ensures piece { length piece.new ≡ PIECE }
    ensures reads { OnlyReads D.tells (D.state disk.old) (D.state disk.new) }
    ensures disk { LeavesDisk (IsErrOf result DiskFail.DiskFault) (D.state disk.old) (D.state disk.new) }
{
    let most = words.len();
    let mut done = 0;
    let mut found = 0;
    while done < most {
        let count = WORDS.min(most - done);
        let bytes = &mut piece[..4 * count];
        let room = &mut words[found..found + count];
        found += read_piece(disk, id, first + done, bytes, room)?;
        done += count;
    }
    Ok(found)
}

/// Reads the words of a file from the `first`-th on by one read, as many as there is room for: how many are there.
fn read_piece<D: Disk>(
    disk: &mut D,
    id: FileId,
    first: usize,
    bytes: &mut [u8],
    words: &mut [u32],
) -> Result<usize, DiskFail>
    requires first { first ≤ 33554432 }
    requires some { 0 < length words.old }
    requires bytes { length bytes.old ≡ 4 * length words.old }
    ensures words { IfOk result (λ count. D.tells ≡ true
        → take count words.new ≡ words_in first (length words.old) (view_of (D.state disk.old).history id)) }
    ensures calls { IfOk result (λ count. ReadsWords id first (length words.old) (take count words.new)
        (D.state disk.old).calls (D.state disk.new).calls) }
    ensures few { IfOk result (λ count. count ≤ length words.old) }
    ensures size { length words.new ≡ length words.old }
    ensures bytes { length bytes.new ≡ length bytes.old }
    ensures reads { OnlyReads D.tells (D.state disk.old) (D.state disk.new) }
    ensures disk { LeavesDisk (IsErrOf result DiskFail.DiskFault) (D.state disk.old) (D.state disk.new) }
{
    match disk.read(id, HEADER as u64 + 4 * first as u64, bytes) {
        Got::Bytes(n) => Ok(take_words(&bytes[..n], words)),
        Got::Absent => Ok(0),
        Got::Failed => Err(DiskFail::DiskFault),
    }
}
