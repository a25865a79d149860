//! Headers, written.
ghost use Rattle.std.specs.Prelude.{◌≡◌, ◌+◌, ◌*◌, ◌≤◌, ℕ, IsTrue, [], ◌∷◌, Contains, length, replicate, slice_index};
ghost use Rattle.dpx_header.specs.ReadBack.{ReadsBack};
ghost use Rattle.dpx_header.specs.Writing.{Field, IsOutHead, IsOutside, Stands, laid, all_laid, lie_apart, u16 as u16_bytes, u32 as u32_bytes, undefined, text as text_bytes, file_fields, image_fields, element_fields, unused_fields, orientation_fields, industry_fields, timecode_field, header_fields, header_of};

use byteorder::{BigEndian, ByteOrder};
use cf_base::{HEADER, TitleText, frame_file_name};

/// What a header says of one frame of a reel. Its file has the header and then the pixels, line by line without
/// padding.
#[derive(Clone, Copy)]
pub struct OutHead {
    /// The width in pixels, from 1 to 4096.
    pub width: u32,
    /// The height in pixels, from 1 to 4096.
    pub height: u32,
    /// The record reel's number, at most 999.
    pub reel: u16,
    /// The frame's number, at most 9,999,999.
    pub frame: u32,
    /// The frame's place in the sequence, from 0.
    pub position: u32,
    /// How many frames the sequence has.
    pub length: u32,
    /// Eight decimal digits HHMMSSFF of four bits each, as SMPTE ST 12-1 has them.
    pub timecode: Option<u32>,
    /// The project's title.
    pub title: TitleText,
}

/// Writes the 2048 bytes of a header (SMPTE 268M). Which fields it has, and what they say, is this project's own rule.
/// What it writes is read back with the same size.
pub fn write_header(head: &OutHead, into: &mut [u8; HEADER])
    requires { IsOutHead head.now }
    ensures header { into.new ≡ header_of head.now }

    // Each field has its bytes at its offset, no two share a byte, and all other bytes are 00.
    ensures fields { (field : Field) → Contains (header_fields head.now) field → Stands into.new field }
    ensures apart { IsTrue (lie_apart 0 HEADER (header_fields head.now)) }
    ensures others { (at : ℕ) → IsOutside (header_fields head.now) at → slice_index into.new at ≡ 0 }

    ensures reads_back { ReadsBack head.now into.new }
{
    clear(into);
    put_file_fields(head, into);
    put_image_fields(head, into);
    put_element_fields(into);
    put_unused_fields(into);
    put_orientation_fields(into);
    put_industry_fields(head, into);
}

/// The file information header.
#[tactic(auto, unfolding(crate::specs::Writing::all_laid))]
fn put_file_fields(head: &OutHead, into: &mut [u8; HEADER])
    requires { IsOutHead head.now }
    ensures fields { into.new ≡ all_laid into.old (file_fields head.now) }
    ensures title { length head.now.title ≤ 199 }
{
    put_bytes(into, 0, b"SDPX");
    put_u32(into, 4, HEADER as u32);
    put_text::<8>(into, 8, b"V1.0");
    put_u32(into, 16, HEADER as u32 + 4 * head.width * head.height);
    put_u32(into, 20, 1);
    put_u32(into, 24, 1664);
    put_u32(into, 28, 384);
    put_u32(into, 32, 0);
    put_text::<100>(into, 36, &frame_file_name(head.reel, head.frame));
    put_text::<100>(into, 160, b"CONFORM STATION");
    put_text::<200>(into, 260, head.title.bytes());
    put_undefined(into, 660, 4);
}

/// The image information header: the image.
#[tactic(auto, unfolding(crate::specs::Writing::all_laid))]
fn put_image_fields(head: &OutHead, into: &mut [u8; HEADER])
    ensures { into.new ≡ all_laid into.old (image_fields head.now) }
{
    put_u16(into, 768, 0);
    put_u16(into, 770, 1);
    put_u32(into, 772, head.width);
    put_u32(into, 776, head.height);
}

/// The image information header: the one element.
#[tactic(auto, unfolding(crate::specs::Writing::all_laid))]
fn put_element_fields(into: &mut [u8; HEADER])
    ensures { into.new ≡ all_laid into.old element_fields }
{
    put_u32(into, 780, 0);
    put_u32(into, 784, 0);
    put_undefined(into, 788, 4);
    put_u32(into, 792, 1023);
    put_undefined(into, 796, 4);
    put_byte(into, 800, 50);
    put_byte(into, 801, 1);
    put_byte(into, 802, 1);
    put_byte(into, 803, 10);
    put_u16(into, 804, 1);
    put_u16(into, 806, 0);
    put_u32(into, 808, HEADER as u32);
    put_u32(into, 812, 0);
    put_u32(into, 816, 0);
}

/// The image information header: the seven elements that aren't used.
#[tactic(auto, unfolding(crate::specs::Writing::all_laid))]
fn put_unused_fields(into: &mut [u8; HEADER])
    ensures { into.new ≡ all_laid into.old unused_fields }
{
    put_undefined(into, 852, 40);
    put_undefined(into, 924, 40);
    put_undefined(into, 996, 40);
    put_undefined(into, 1068, 40);
    put_undefined(into, 1140, 40);
    put_undefined(into, 1212, 40);
    put_undefined(into, 1284, 40);
}

/// The image orientation header.
#[tactic(auto, unfolding(crate::specs::Writing::all_laid))]
fn put_orientation_fields(into: &mut [u8; HEADER])
    ensures { into.new ≡ all_laid into.old orientation_fields }
{
    put_undefined(into, 1408, 24);
    put_undefined(into, 1620, 16);
}

/// The motion picture film and television headers.
#[tactic(auto, unfolding(crate::specs::Writing::all_laid))]
fn put_industry_fields(head: &OutHead, into: &mut [u8; HEADER])
    ensures { into.new ≡ all_laid into.old (industry_fields head.now) }
{
    put_u32(into, 1712, head.position);
    put_u32(into, 1716, head.length);
    put_undefined(into, 1720, 12);
    put_timecode(into, head.timecode);
    put_undefined(into, 1924, 4);
    put_undefined(into, 1928, 3);
    put_undefined(into, 1932, 40);
}

/// The timecode's digits, or an undefined field.
fn put_timecode(into: &mut [u8; HEADER], timecode: Option<u32>)
    ensures { into.new ≡ laid into.old (1920, timecode_field timecode) }
{
    match timecode {
        Some(digits) => put_u32(into, 1920, digits),
        None => put_undefined(into, 1920, 4),
    }
}

/// Sets all bytes to 00.
fn clear(into: &mut [u8; HEADER])
    ensures { into.new ≡ replicate HEADER 0 }
{
    *into = [0; HEADER];
}

#[tactic(auto, unfolding(crate::specs::Writing::laid))]
fn put_byte(into: &mut [u8; HEADER], at: usize, value: u8)
    requires { at + 1 ≤ HEADER }
    ensures { into.new ≡ laid into.old (at, value ∷ []) }
{
    into[at] = value;
}

/// A number of 16 bits, big-endian.
#[tactic(auto, unfolding(crate::specs::Writing::u16))]
fn put_u16(into: &mut [u8; HEADER], at: usize, value: u16)
    requires { at + 2 ≤ HEADER }
    ensures { into.new ≡ laid into.old (at, u16_bytes value) }
{
    let mut bytes = [0; 2];
    BigEndian::write_u16(&mut bytes, value);
    put_bytes(into, at, &bytes);
}

/// A number of 32 bits, big-endian.
#[tactic(auto, unfolding(crate::specs::Writing::u32))]
fn put_u32(into: &mut [u8; HEADER], at: usize, value: u32)
    requires { at + 4 ≤ HEADER }
    ensures { into.new ≡ laid into.old (at, u32_bytes value) }
{
    let mut bytes = [0; 4];
    BigEndian::write_u32(&mut bytes, value);
    put_bytes(into, at, &bytes);
}

#[tactic(auto, unfolding(crate::specs::Writing::laid))]
fn put_bytes(into: &mut [u8; HEADER], at: usize, bytes: &[u8])
    requires { at + length bytes.now ≤ HEADER }
    ensures { into.new ≡ laid into.old (at, bytes.now) }
{
    into[at..at + bytes.len()].copy_from_slice(bytes);
}

/// Writes a text, with zeros behind it up to the end of a field of `N` bytes.
#[tactic(auto, unfolding(crate::specs::Writing::text))]
fn put_text<const N: usize>(into: &mut [u8; HEADER], at: usize, bytes: &[u8])
    requires fits { length bytes.now ≤ N }
    requires within { at + N ≤ HEADER }
    ensures { into.new ≡ laid into.old (at, text_bytes N bytes.now) }
{
    let mut field = [0; N];
    field[..bytes.len()].copy_from_slice(bytes);
    put_bytes(into, at, &field);
}

/// Sets all bits of that many bytes.
#[tactic(auto, unfolding(crate::specs::Writing::laid, crate::specs::Writing::undefined))]
fn put_undefined(into: &mut [u8; HEADER], at: usize, len: usize)
    requires { at + len ≤ HEADER }
    ensures { into.new ≡ laid into.old (at, undefined len) }
{
    into[at..at + len].fill(0xFF);
}
