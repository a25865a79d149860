//! The frames that a run of a job is to render.
ghost use Rattle.std.specs.Prelude.{◌≡◌, ◌≤◌};
ghost use Rattle.frame_range.specs.Parts.{IsExtent, part_edge, range_of};

use cf_base::FRAMES;

/// How much of a job a run is to render.
#[derive(Clone, Copy, Debug, PartialEq, Eq)]
pub enum Extent {
    /// All frames.
    Whole,
    /// The frames of this part, counted from 1, of 1 to 999 parts.
    Part { part: u16, parts: u16 },
}

/// Frames of a reel that follow one another, counted from 0.
#[derive(Clone, Copy, Debug, PartialEq, Eq)]
pub struct FrameRange {
    /// The first.
    pub low: u32,
    /// The frame behind the last.
    pub high: u32,
}

/// The frames of a job of so many frames, at most 262,144, that a run of this extent renders. They may be none.
pub fn range_of(extent: Extent, count: u32) -> FrameRange
    requires extent { IsExtent extent }
    requires count { count ≤ FRAMES }
    ensures range { result ≡ range_of extent count }
    ensures ordered { result.low ≤ result.high }
    ensures within { result.high ≤ count }
{
    match extent {
        Extent::Whole => FrameRange {
            low: 0,
            high: count,
        },
        Extent::Part { part, parts } => FrameRange {
            low: edge_of(part - 1, parts, count),
            high: edge_of(part, parts, count),
        },
    }
}

/// The frame before which so many of the parts end.
fn edge_of(edge: u16, parts: u16, count: u32) -> u32
    requires parts { (1 ≤ parts) × (edge ≤ parts) × (parts ≤ 999) }
    requires count { count ≤ FRAMES }
    ensures { result ≡ part_edge edge parts count }
{
    u32::from(edge) * count / u32::from(parts)
}
