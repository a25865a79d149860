//! The pixels of a file, line by line from the top and from left to right.
ghost use Rattle.std.specs.Prelude.{◌≡◌, ◌+◌, ◌*◌, ◌≤◌, length, drop};
ghost use Rattle.std.specs.List.{flat_map};
ghost use Rattle.byteorder.specs.Endian.{big_bytes};
ghost use Rattle.dpx_header.specs.Frame.{IsFrame, need_of};
ghost use Rattle.dpx_pack.specs.Pixels.{HasPixels, pixels, lines, line, without_filler};

use byteorder::{BigEndian, ByteOrder, LittleEndian};
use dpx_header::FrameInfo;

/// Takes the pixel words from a file's bytes, of which those up to the end of the last pixel are looked at. The two
/// lowest bits of each word are 0.
pub fn unpack(info: &FrameInfo, bytes: &[u8], out: &mut [u32])
    requires frame { IsFrame info.now }
    requires whole { need_of info.now ≤ length bytes.now }
    requires room { length out.old ≡ info.now.width * info.now.height }
    ensures words { out.new ≡ pixels info.now bytes.now }
    ensures places { HasPixels info.now bytes.now out.new }
{
    if info.little {
        unpack_as::<LittleEndian>(info, bytes, out);
    } else {
        unpack_as::<BigEndian>(info, bytes, out);
    }
}

/// The same in a byte order.
fn unpack_as<T: ByteOrder>(info: &FrameInfo, bytes: &[u8], out: &mut [u32])
    requires frame { IsFrame info.now }
    requires whole { need_of info.now ≤ length bytes.now }
    requires room { length out.old ≡ info.now.width * info.now.height }
    ensures { out.new ≡ lines T.number_of info.now info.now.height bytes.now }
{
    let width = info.width as usize;
    let stride = 4 * width + info.pad as usize;
    for y in 0..info.height as usize {
        let start = info.start as usize + y * stride;
        unpack_line::<T>(bytes, start, &mut out[y * width..(y + 1) * width]);
    }
}

/// One line, from the byte at which it begins.
fn unpack_line<T: ByteOrder>(bytes: &[u8], start: usize, out: &mut [u32])
    requires { start + 4 * length out.old ≤ length bytes.now }
    ensures { out.new ≡ line T.number_of start (length out.old) bytes.now }
{
    for (x, word) in out.iter_mut().enumerate() {
        *word = word_at::<T>(bytes, start + 4 * x);
    }
}

/// The word at an offset.
fn word_at<T: ByteOrder>(bytes: &[u8], at: usize) -> u32
    requires { at + 4 ≤ length bytes.now }
    ensures { result ≡ without_filler (T.number_of 4 (drop at bytes.now)) }
{
    T::read_u32(&bytes[at..]) & !3
}

/// Writes each word in four bytes, big-endian, one after the other.
pub fn pack(words: &[u32], out: &mut [u8])
    requires { length out.old ≡ 4 * length words.now }
    ensures { out.new ≡ flat_map (big_bytes 4) words.now }
{
    BigEndian::write_u32_into(words, out);
}
