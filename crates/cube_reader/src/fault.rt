//! Why a cube text is refused.

/// Why a text is no cube, and at which of its lines, from 1. Line 0 is the text as a whole.
#[derive(Clone, Copy, Debug, PartialEq, Eq)]
pub struct CubeFault {
    pub line: u32,
    pub kind: CubeKind,
}

/// Why a text is no cube. The numbers and their order are this project's own.
///
/// 10.8 comes first. Then the first faulty line is refused. A keyword line is refused by 10.1 before all else, a size by
/// 10.6 before 10.2, bounds by 10.3 before 10.5, and a data line by 10.7, 10.5, 10.4 and 10.3 in this order. At the end of
/// the text come 10.7 and 10.4, at the number of the last line, or 1 where there is none.
#[derive(Clone, Copy, Debug, PartialEq, Eq)]
pub enum CubeKind {
    /// 10.1: a keyword behind a data line, an unknown keyword, or one that stood before.
    Keyword,
    /// 10.2: a size that isn't one token of one to six digits, from 2 to 65,536 in one dimension, to 129 in three.
    Size,
    /// 10.3: a token that is no number, or too few tokens or too many.
    Number,
    /// 10.4: more data lines than the size says, or fewer at the end of the text.
    Count,
    /// 10.5: a bound over 100 in size, or at the first data line bounds that aren't in order on each channel.
    Domain,
    /// 10.6: a size where the other size stood before.
    Both,
    /// 10.7: no size before the first data line, or none in the text.
    NoSize,
    /// 10.8: over 100,663,296 bytes; line 0.
    TooLong,
}
