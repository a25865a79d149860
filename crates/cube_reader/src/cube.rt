//! A table of colours.
ghost use Rattle.cube_reader.specs.Entry.{AreClamped};
ghost use Rattle.cube_reader.specs.Table.{IsTable};
ghost use Rattle.std.specs.Prelude.{◌≡◌, ◌<◌, Some, slice_get, length};

use cf_base::Fixed;
use std::marker::Model;

/// A table of colours, as a cube text gives it (Adobe Cube LUT 1.0). Numbers are units of 10^-9, and three of them go by
/// channel: red, green, blue.
///
/// In one dimension the table has as many data lines as its size says, from 2 to 65,536, each with the output of the three
/// channels at one place. In three dimensions the size is from 2 to 129, and the place (r, g, b) is the data line
/// `r + size * (g + size * b)`, from 0.
#[derive(Drop)]
pub struct Cube {
    pub(crate) is_3d: bool,
    pub(crate) size: u32,
    pub(crate) low: [Fixed; 3],
    pub(crate) high: [Fixed; 3],
    pub(crate) entries: Vec<[Fixed; 3]>,
}

impl Model for Cube {
    ghost use Rattle.cube_reader.specs.Table.{Table};

    ghost Value = { Table };

    ghost view = { λ a. record { is_3d = a.is_3d; size = a.size; low = a.low; high = a.high; entries = a.entries.items } };

    ghost use Rattle.cube_reader.specs.Table.{IsTable};

    ghost invariant = { λ a. IsTable (record { is_3d = a.is_3d; size = a.size; low = a.low; high = a.high; entries = a.entries.items }) };
}

impl Cube {
    /// Whether the table has three dimensions.
    pub fn is_3d(&self) -> bool
        ensures { result ≡ self.now.is_3d }
    {
        self.is_3d
    }

    /// How many places the table has along a channel.
    pub fn size(&self) -> u32
        ensures size { result ≡ self.now.size }
        ensures made { IsTable self.now }
    {
        self.size
    }

    /// The input of the first place, for each channel.
    pub fn min(&self) -> [Fixed; 3]
        ensures { result ≡ self.now.low }
    {
        self.low
    }

    /// The input of the last place, for each channel.
    pub fn max(&self) -> [Fixed; 3]
        ensures { result ≡ self.now.high }
    {
        self.high
    }

    /// The values of the data line `n`, from 0, each clamped to 0 to 1.
    pub fn entry(&self, n: u32) -> [Fixed; 3]
        requires { n < length self.now.entries }
        ensures entry { slice_get self.now.entries n ≡ Some result }
        ensures clamped { AreClamped result }
    {
        self.entries[n as usize]
    }
}
