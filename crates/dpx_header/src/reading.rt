//! Headers, read.
ghost use Rattle.std.specs.Prelude.{◌≡◌, ◌+◌, ◌≤◌, IfOk};
ghost use Rattle.dpx_header.specs.Frame.{IsFrame, need_of};
ghost use Rattle.dpx_header.specs.Reading as Reading;
ghost use Rattle.dpx_header.specs.Reading.{number_at, is_unset16, is_unset32, fields_of, info_by, info_of};

use crate::{DpxFault, FrameInfo};
use byteorder::{BigEndian, ByteOrder, LittleEndian};
use cf_base::{HEADER, LARGEST};
use std::marker::Model;

/// `SDPX`, in the byte order of the file.
const MAGIC: u32 = 0x5344_5058;

/// A 16-bit field that is undefined.
const UNDEFINED_16: u16 = 0xFFFF;

/// A 32-bit field that is undefined.
const UNDEFINED_32: u32 = 0xFFFF_FFFF;

/// The fields that decide whether a header is read. Contracts see the definition's record of them.
#[derive(Drop)]
struct Fields {
    elements: u16,
    descriptor: u8,
    depth: u8,
    packing: u16,
    encoding: u16,
    orientation: u16,
    sign: u32,
    encryption: u32,
    info: FrameInfo,
}

impl Model for Fields {
    ghost use Rattle.dpx_header.specs.Reading.{HeaderFields};

    ghost Value = { HeaderFields };

    ghost view = { λ f. record {
      elements = f.elements;
      descriptor = f.descriptor;
      depth = f.depth;
      packing = f.packing;
      encoding = f.encoding;
      orientation = f.orientation;
      sign = f.sign;
      encryption = f.encryption;
      info = f.info;
    } };
}

/// What a file's header says of its pixels (SMPTE 268M), from its first 2048 bytes, with zeros where it is shorter, and
/// from its length in bytes. Both byte orders are read. The first fault in the order of `DpxFault` is the refusal.
pub fn read_header(head: &[u8; HEADER], file_len: u64) -> Result<FrameInfo, DpxFault>
    ensures info { result ≡ info_of head.now file_len }

    // What is taken has sizes and offsets in their ranges, and all its pixels lie in the file.
    ensures frame { IfOk result IsFrame }
    ensures whole { IfOk result (λ info. need_of info ≤ file_len) }
{
    if BigEndian::read_u32(head) == MAGIC {
        checked(&fields_at::<BigEndian>(head, false), file_len)
    } else if LittleEndian::read_u32(head) == MAGIC {
        checked(&fields_at::<LittleEndian>(head, true), file_len)
    } else {
        Err(DpxFault::Magic)
    }
}

/// Where the pixels lie, if there is no fault in a file of that many bytes.
fn checked(fields: &Fields, file_len: u64) -> Result<FrameInfo, DpxFault>
    ensures info { result ≡ info_by fields.now file_len }
    ensures frame { IfOk result IsFrame }
    ensures whole { IfOk result (λ info. need_of info ≤ file_len) }
{
    let info = fields.info;
    if fields.elements != 1 {
        return Err(DpxFault::Elements);
    }
    if fields.descriptor != 50 {
        return Err(DpxFault::Descriptor);
    }
    if fields.depth != 10 {
        return Err(DpxFault::Depth);
    }
    if fields.packing != 1 {
        return Err(DpxFault::Packing);
    }
    if !is_unset_16(fields.encoding) {
        return Err(DpxFault::Encoding);
    }
    if !is_unset_16(fields.orientation) {
        return Err(DpxFault::Orientation);
    }
    if !is_unset_32(fields.sign) {
        return Err(DpxFault::Sign);
    }
    if !is_unset_32(fields.encryption) {
        return Err(DpxFault::Encrypted);
    }
    if info.start < HEADER as u32 || info.start > 1_048_576 {
        return Err(DpxFault::Offset);
    }
    if info.pad > 4092 || info.pad % 4 != 0 {
        return Err(DpxFault::Padding);
    }
    if is_bad_side(info.width) || is_bad_side(info.height) {
        return Err(DpxFault::Size);
    }
    if file_len < info.need() {
        return Err(DpxFault::Short);
    }
    Ok(info)
}

/// The fields in a byte order.
fn fields_at<T: ByteOrder>(head: &[u8; HEADER], little: bool) -> Fields
    ensures { result ≡ fields_of T.number_of little head.now }
{
    Fields {
        elements: u16_at::<T>(head, 770),
        descriptor: head[800],
        depth: head[803],
        packing: u16_at::<T>(head, 804),
        encoding: u16_at::<T>(head, 806),
        orientation: u16_at::<T>(head, 768),
        sign: u32_at::<T>(head, 780),
        encryption: u32_at::<T>(head, 660),
        info: FrameInfo {
            little,
            width: u32_at::<T>(head, 772),
            height: u32_at::<T>(head, 776),
            start: data_offset::<T>(head),
            pad: line_padding::<T>(head),
        },
    }
}

/// The element's data offset, or where it is unset, that of the image data.
fn data_offset<T: ByteOrder>(head: &[u8; HEADER]) -> u32
    ensures { result ≡ Reading.data_offset T.number_of head.now }
{
    let offset = u32_at::<T>(head, 808);
    if is_unset_32(offset) {
        u32_at::<T>(head, 4)
    } else {
        offset
    }
}

/// The bytes behind each line, none where the field is undefined.
fn line_padding<T: ByteOrder>(head: &[u8; HEADER]) -> u32
    ensures { result ≡ Reading.line_padding T.number_of head.now }
{
    let padding = u32_at::<T>(head, 812);
    if padding == UNDEFINED_32 { 0 } else { padding }
}

/// The number of 16 bits at an offset.
fn u16_at<T: ByteOrder>(head: &[u8; HEADER], offset: usize) -> u16
    requires { offset + 2 ≤ HEADER }
    ensures { result ≡ number_at T.number_of 2 offset head.now }
{
    T::read_u16(&head[offset..])
}

/// The number of 32 bits at an offset.
fn u32_at<T: ByteOrder>(head: &[u8; HEADER], offset: usize) -> u32
    requires { offset + 4 ≤ HEADER }
    ensures { result ≡ number_at T.number_of 4 offset head.now }
{
    T::read_u32(&head[offset..])
}

/// Whether a field of 16 bits is 0 or undefined.
fn is_unset_16(value: u16) -> bool
    ensures { result ≡ is_unset16 value }
{
    value == 0 || value == UNDEFINED_16
}

/// Whether a field of 32 bits is 0 or undefined.
fn is_unset_32(value: u32) -> bool
    ensures { result ≡ is_unset32 value }
{
    value == 0 || value == UNDEFINED_32
}

/// Whether a side isn't from 1 to 4096 pixels.
fn is_bad_side(pixels: u32) -> bool
    ensures { result ≡ Reading.is_bad_side pixels }
{
    pixels == 0 || pixels > LARGEST
}
