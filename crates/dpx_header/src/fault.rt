//! Why a header is refused.

/// The first thing in a header (SMPTE 268M) that this program doesn't take, in the order of the variants, which are
/// refusals 8.1 to 8.13.
#[derive(Clone, Copy, Debug, PartialEq, Eq)]
pub enum DpxFault {
    /// 8.1: the magic number, at byte 0, is that of no DPX file.
    Magic,
    /// 8.2: the number of image elements, at byte 770, isn't 1.
    Elements,
    /// 8.3: the element's descriptor, at byte 800, isn't 50, RGB.
    Descriptor,
    /// 8.4: the element's bit size, at byte 803, isn't 10.
    Depth,
    /// 8.5: the element's packing, at byte 804, isn't 1: filled to 32-bit words by method A.
    Packing,
    /// 8.6: the element's encoding, at byte 806, is neither 0 nor undefined: it is run-length encoded.
    Encoding,
    /// 8.7: the image orientation, at byte 768, is neither 0 nor undefined: lines don't run from left to right, or not
    /// from top to bottom.
    Orientation,
    /// 8.8: the element's data sign, at byte 780, is neither 0 nor undefined: its components are signed.
    Sign,
    /// 8.9: the encryption key, at byte 660, is neither 0 nor undefined.
    Encrypted,
    /// 8.10: the element's data offset, at byte 808 or else at byte 4, isn't from 2048 to 1,048,576.
    Offset,
    /// 8.11: the end-of-line padding, at byte 812, is neither undefined nor a multiple of 4 up to 4092.
    Padding,
    /// 8.12: the pixels per line, at byte 772, or the lines, at byte 776, aren't from 1 to 4096.
    Size,
    /// 8.13: the file ends before its last pixel.
    Short,
}
