//! Where the pixels of a file lie.
ghost use Rattle.std.specs.Prelude.{◌≡◌};
ghost use Rattle.dpx_header.specs.Frame.{IsFrame, need_of};

/// Where the pixels of a file lie (SMPTE 268M, image information header).
#[derive(Clone, Copy, Debug, PartialEq, Eq)]
pub struct FrameInfo {
    /// Whether numbers and pixel words are little-endian.
    pub little: bool,
    /// The width in pixels, from 1 to 4096.
    pub width: u32,
    /// The height in pixels, from 1 to 4096.
    pub height: u32,
    /// The byte at which the first line begins, from 2048 to 1,048,576.
    pub start: u32,
    /// How many bytes follow each line but the last: a multiple of 4, at most 4092.
    pub pad: u32,
}

impl FrameInfo {
    /// How many bytes the file has up to the end of its last pixel. A `FrameInfo` that `read_header` gives meets the
    /// condition.
    pub fn need(&self) -> u64
        requires { IsFrame self.now }
        ensures { result ≡ need_of self.now }
    {
        let line = 4 * u64::from(self.width);
        u64::from(self.start) + u64::from(self.height - 1) * (line + u64::from(self.pad)) + line
    }
}
