//! One line more, from what the lines before it say.
ghost use Rattle.std.specs.Prelude.{◌≡◌, ◌≤◌, ◌<◌, length, map};
ghost use Rattle.cf_base.specs.Tokens.{IsGap};
ghost use Rattle.cube_reader.specs.Table.{entry_count, greatest_size};
ghost use Rattle.cube_reader.specs.Text.{is_under, clamped};
ghost use Rattle.cube_reader.specs.inside.Steps.{words_from, new_state, keyword_step, known_step, knows_size, are_ordered, is_full_state, data_step, end_step, sized};

use crate::fault::CubeKind;
use crate::keywords::{Keyword, Keywords};
use crate::words::{size_from, three_bounds, two_bounds};
use cf_base::Fixed;

/// The greatest size of a table of one dimension.
const LONGEST_LINE: u32 = 65_536;

/// The greatest size of a table of three dimensions.
const LARGEST_CUBE: u32 = 129;

/// 1 in units.
const ONE: i64 = 1_000_000_000;

/// What the lines so far say for the next one.
#[derive(Clone, Copy)]
pub struct State {
    /// The keywords that stood.
    pub seen: Keywords,
    /// The size of the table, 0 where none stood.
    pub size: u32,
    /// The input of the first place, for each channel.
    pub low: [Fixed; 3],
    /// The input of the last place, for each channel.
    pub high: [Fixed; 3],
    /// How many data lines there were.
    pub data_lines: u32,
}

impl State {
    /// What no line says: no size, and inputs from 0 to 1.
    pub fn new() -> Self
        ensures { result ≡ new_state }
    {
        State {
            seen: Keywords {
                title: false,
                line_size: false,
                cube_size: false,
                domain_min: false,
                domain_max: false,
                line_range: false,
                cube_range: false,
            },
            size: 0,
            low: [Fixed(0); 3],
            high: [Fixed(ONE); 3],
            data_lines: 0,
        }
    }

    /// What they say with a keyword line more, whose other words stand behind a place.
    ///
    /// Errors: 10.1 behind a data line or where the keyword stood before, 10.2, 10.3, 10.5 and 10.6.
    pub fn with_keyword(&self, keyword: Keyword, line: &[u8], at: usize) -> Result<State, CubeKind>
        requires within { at ≤ length line.now }
        requires gap { IsGap line.now at }
        ensures { result ≡ keyword_step self.now keyword (words_from line.now at) }
    {
        if self.data_lines != 0 || self.seen.has(keyword) {
            return Err(CubeKind::Keyword);
        }
        self.with_known(keyword, line, at)
    }

    /// The same where no data line came and the keyword didn't stand.
    fn with_known(&self, keyword: Keyword, line: &[u8], at: usize) -> Result<State, CubeKind>
        requires within { at ≤ length line.now }
        requires gap { IsGap line.now at }
        ensures { result ≡ known_step self.now keyword (words_from line.now at) }
    {
        let seen = self.seen.with(keyword);
        match keyword {
            Keyword::Title => Ok(State { seen, ..*self }),
            Keyword::LineSize => {
                if self.seen.cube_size {
                    return Err(CubeKind::Both);
                }
                self.with_size(keyword, size_from(line, at, LONGEST_LINE))
            }
            Keyword::CubeSize => {
                if self.seen.line_size {
                    return Err(CubeKind::Both);
                }
                self.with_size(keyword, size_from(line, at, LARGEST_CUBE))
            }
            Keyword::DomainMin => match three_bounds(line, at) {
                Ok(low) => Ok(State { seen, low, ..*self }),
                Err(kind) => Err(kind),
            },
            Keyword::DomainMax => match three_bounds(line, at) {
                Ok(high) => Ok(State {
                    seen,
                    high,
                    ..*self
                }),
                Err(kind) => Err(kind),
            },
            Keyword::LineRange | Keyword::CubeRange => match two_bounds(line, at) {
                Ok(range) => Ok(State {
                    seen,
                    low: [range[0]; 3],
                    high: [range[1]; 3],
                    ..*self
                }),
                Err(kind) => Err(kind),
            },
        }
    }

    /// The state with a size and its keyword.
    fn with_size(&self, keyword: Keyword, size: Option<u32>) -> Result<State, CubeKind>
        ensures { result ≡ sized self.now keyword size }
    {
        match size {
            Some(size) => Ok(State {
                seen: self.seen.with(keyword),
                size,
                ..*self
            }),
            None => Err(CubeKind::Size),
        }
    }

    /// Why no data line may come: 10.7, at the first one 10.5, 10.4.
    pub fn data_fault(&self) -> Option<CubeKind>
        requires { self.now.size ≤ greatest_size self.now.seen.cube_size }
        ensures { result ≡ data_step self.now }
    {
        if !self.has_size() {
            Some(CubeKind::NoSize)
        } else if self.data_lines == 0 && !self.is_ordered() {
            Some(CubeKind::Domain)
        } else if self.is_full() {
            Some(CubeKind::Count)
        } else {
            None
        }
    }

    /// Why the text may not end: 10.7, 10.4.
    pub fn end_fault(&self) -> Option<CubeKind>
        requires { self.now.size ≤ greatest_size self.now.seen.cube_size }
        ensures { result ≡ end_step self.now }
    {
        if !self.has_size() {
            Some(CubeKind::NoSize)
        } else if self.is_full() {
            None
        } else {
            Some(CubeKind::Count)
        }
    }

    /// Whether a size stood.
    fn has_size(&self) -> bool
        ensures { result ≡ knows_size self.now }
    {
        self.seen.line_size || self.seen.cube_size
    }

    /// Whether the first input is below the last one, on each channel.
    fn is_ordered(&self) -> bool
        ensures { result ≡ are_ordered self.now }
    {
        self.is_under(0) && self.is_under(1) && self.is_under(2)
    }

    /// Whether the first input is below the last one on a channel.
    fn is_under(&self, channel: usize) -> bool
        requires { channel < 3 }
        ensures { result ≡ is_under self.now.low self.now.high channel }
    {
        self.low[channel].0 < self.high[channel].0
    }

    /// Whether there are as many data lines as the size says.
    fn is_full(&self) -> bool
        requires { self.now.size ≤ greatest_size self.now.seen.cube_size }
        ensures { result ≡ is_full_state self.now }
    {
        entry_count(self.seen.cube_size, self.size) <= self.data_lines
    }
}

/// How many data lines a table has.
fn entry_count(is_3d: bool, size: u32) -> u32
    requires { size ≤ greatest_size is_3d }
    ensures { result ≡ entry_count is_3d size }
{
    if is_3d { size * size * size } else { size }
}

/// The values of a data line, each clamped to 0 to 1.
pub fn clamped(values: &[Fixed; 3]) -> [Fixed; 3]
    ensures { result ≡ map clamped values.now }
{
    [clamp(values[0]), clamp(values[1]), clamp(values[2])]
}

/// A value, clamped to 0 to 1.
fn clamp(value: Fixed) -> Fixed
    ensures { result ≡ clamped value }
{
    Fixed(value.0.min(ONE).max(0))
}
