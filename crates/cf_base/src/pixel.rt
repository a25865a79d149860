//! One pixel of 10-bit RGB.
ghost use Rattle.std.specs.Prelude.{◌≤◌};

/// The three code values of a pixel (SMPTE 268M, 10 bits), each from 0 to 1023.
#[derive(Clone, Copy, Debug, PartialEq, Eq)]
pub struct Rgb {
    pub r: u16,
    pub g: u16,
    pub b: u16,
    ghost r_in_range: { r ≤ 1023 },
    ghost g_in_range: { g ≤ 1023 },
    ghost b_in_range: { b ≤ 1023 },
}
