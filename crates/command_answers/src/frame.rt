//! The command `frame`.
ghost use Rattle.std.specs.Prelude.{◌≡◌, ◌+◌, ◌*◌, ◌≤◌, ◌++◌, min, length, IfOk, IsOkAnd, Err};
ghost use Rattle.std.specs.List.{flat_map};
ghost use Rattle.byteorder.specs.Endian.{big_bytes};
ghost use Rattle.dpx_header.specs.Frame.{IsFrame, need_of};
ghost use Rattle.dpx_header.specs.Writing.{header_of};
ghost use Rattle.dpx_pack.specs.Pixels.{pixels};
ghost use Rattle.project_run.specs.Calls.{Replies};
ghost use Rattle.command_answers.specs.Commands.Frame.{frame_head, frame_form};
ghost use Rattle.command_answers.specs.Reply.{IsReplyOverScan};
ghost use Rattle.command_words.specs.declared.command.Command.TheVariants as commands;
ghost use Rattle.scan_source.specs.Answers.{first_bytes};
ghost use Rattle.dpx_header.specs.Reading.{info_of};
ghost use Rattle.command_answers.specs.inside.Faults.{IfFault};

use cf_base::{Fail, HEADER, LARGEST, PathText, TitleText};
use dpx_header::{DpxFault, FrameInfo, OutHead, read_header, write_header};
use dpx_pack::{pack, unpack};
use outcome::{Outcome, Refused, Which};
use project_job::load;
use scan_source::{Scans, head_of};
use std::alloc::{AllocError, Global};

/// The bytes of the largest file that is taken: the greatest offset, and 4096 lines of 4096 pixels with the greatest
/// padding after each but the last.
const MOST: u64 = 1_048_576 + (4 * LARGEST as u64 * LARGEST as u64) + 4092 * (LARGEST as u64 - 1);

/// The pixels of the file at a path, under a new header: the whole file that is put, or the outcome that was reached.
pub fn frame<S: Scans>(alloc: Global, path: &PathText, scan: &mut S) -> Result<Vec<u8>, Outcome>
    ensures reply { Replies result (IsReplyOverScan (commands.Frame path.now) (S.state scan.old) (S.state scan.new)) }
    ensures same { (S.state scan.new).loans ≡ (S.state scan.old).loans }
{
    let front = match load(alloc, path, MOST, Which::Frame, scan) {
        Ok(front) => front,
        Err(outcome) => return Err(outcome),
    };
    match converted(alloc, &front.bytes, front.len) {
        Ok(file) => Ok(file),
        Err(Fail::Fault(fault)) => Err(Outcome::Refused(Refused::Frame(fault))),
        Err(Fail::NoMemory) => Err(Outcome::NoMemory),
    }
}

/// The file to put for one of `len` bytes, of which the first are at hand, or the first fault of its header.
fn converted(alloc: Global, bytes: &[u8], len: u64) -> Result<Vec<u8>, Fail<DpxFault>>
    requires { length bytes.now ≡ min len MOST }
    ensures form { IfOk result (λ file. IsOkAnd (info_of (first_bytes HEADER bytes.now) len)
        (λ info. IsFrame info × (file.items ≡ frame_form info bytes.now))) }
    ensures fault { IfFault result (λ fault. info_of (first_bytes HEADER bytes.now) len ≡ Err fault) }
{
    let info = match read_header(&head_of(bytes), len) {
        Ok(info) => info,
        Err(fault) => return Err(Fail::Fault(fault)),
    };
    match new_file(alloc, &info, bytes) {
        Ok(file) => Ok(file),
        Err(_) => Err(Fail::NoMemory),
    }
}

/// The file's pixels in big-endian words, under a new header.
#[tactic(auto, unfolding(crate::specs::Commands::Frame::frame_form))]
fn new_file(alloc: Global, info: &FrameInfo, bytes: &[u8]) -> Result<Vec<u8>, AllocError>
    requires frame { IsFrame info.now }
    requires whole { need_of info.now ≤ length bytes.now }
    ensures { IfOk result (λ file. file.items ≡ frame_form info.now bytes.now) }
{
    let count = info.width as usize * info.height as usize;
    let mut words = vec![in alloc; 0; count]?;
    unpack(info, bytes, &mut words);
    let mut file = vec![in alloc; 0; HEADER + 4 * count]?;
    fill_file(info, &words, &mut file);
    Ok(file)
}

/// The header, then the words.
fn fill_file(info: &FrameInfo, words: &[u32], file: &mut [u8])
    requires frame { IsFrame info.now }
    requires size { length file.old ≡ HEADER + 4 * length words.now }
    ensures { file.new ≡ header_of (frame_head info.now) ++ flat_map (big_bytes 4) words.now }
{
    let (header, pixels) = file.split_at_mut(HEADER);
    header.copy_from_slice(&new_header(info));
    pack(words, pixels);
}

/// The header of a frame that stands alone.
fn new_header(info: &FrameInfo) -> [u8; HEADER]
    requires { IsFrame info.now }
    ensures { result ≡ header_of (frame_head info.now) }
{
    let mut header = [0; HEADER];
    let head = OutHead {
        width: info.width,
        height: info.height,
        reel: 0,
        frame: 0,
        position: 0,
        length: 1,
        timecode: None,
        title: TitleText::empty(),
    };
    write_header(&head, &mut header);
    header
}
