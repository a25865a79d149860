//! One pixel as a word: R in bits 31 to 22, G in 21 to 12, B in 11 to 2.
ghost use Rattle.std.specs.Prelude.{◌≡◌};
ghost use Rattle.dpx_pack.specs.Pixels.{IsPixelOf, pixel_word, without_filler};

use cf_base::Rgb;

/// The pixel's word (SMPTE 268M, method A), whose bits 1 and 0 are 0. Its pixel is the same again.
pub fn word_of(p: Rgb) -> u32
    ensures word { result ≡ pixel_word p.r p.g p.b }
    ensures comes_back { IsPixelOf result p }
{
    (u32::from(p.r) << 22) | (u32::from(p.g) << 12) | (u32::from(p.b) << 2)
}

/// The word's pixel. Bits 1 and 0 are passed over.
pub fn rgb_of(word: u32) -> Rgb
    ensures codes { IsPixelOf word result }
    ensures comes_back { pixel_word result.r result.g result.b ≡ without_filler word }
{
    Rgb {
        r: (word >> 22) as u16,
        g: (word >> 12 & 0x3FF) as u16,
        b: (word >> 2 & 0x3FF) as u16,
    }
}
