//! Cube texts: tables of colours, by Adobe Cube LUT 1.0.
//!
//! A line of blanks, or one that begins with `#`, is passed over. A line whose first byte behind blanks is a digit, `+`,
//! `-` or `.` is a data line, and any other a keyword line. Keywords stand before the first data line, each at most once.
#![tactic(auto)]

ghost use Rattle.cf_base.specs.Fail.{Gives};
ghost use Rattle.cube_reader.specs.Text.{cube_of, AcceptsTables};

mod cube;
mod fault;
mod keywords;
mod reading;
mod state;
mod words;

use cf_base::{CUBE_BYTES, Fail};
pub use cube::Cube;
pub use fault::{CubeFault, CubeKind};
use reading::read_lines;
use std::alloc::Global;

/// The table of a cube text, or the text's first refusal. It goes through the text once and keeps the table alone; the time
/// that it takes grows with the length of the text, whatever the text says.
pub fn read_cube(alloc: Global, text: &[u8]) -> Result<Cube, Fail<CubeFault>>
    ensures { Gives result (cube_of text.now) }
{
    if CUBE_BYTES < text.len() {
        return Err(Fail::Fault(CubeFault {
            line: 0,
            kind: CubeKind::TooLong,
        }));
    }
    let reading = read_lines(alloc, text)?;
    if let Some(kind) = reading.state.end_fault() {
        return Err(Fail::Fault(CubeFault {
            line: reading.lines.max(1),
            kind,
        }));
    }
    Ok(Cube {
        is_3d: reading.state.seen.cube_size,
        size: reading.state.size,
        low: reading.state.low,
        high: reading.state.high,
        entries: reading.entries,
    })
}

/// What holds of the definition: each table that it accepts has a size of its kind's range, as many data lines as that size
/// says, three values from 0 to 1 in each, and bounds of at most 100 in size that are in order on each channel.
pub fn cube_law()
    ensures { AcceptsTables }
{}
