//! The station's own tone: the square of a code, and the table of it.
ghost use Rattle.std.specs.Prelude.{◌≡◌, ℕ, ◌≤◌, slice_index};
ghost use Rattle.reel_qc.specs.Tones.{squared, square_values};

use crate::sheet::tone_table::ToneTable;

/// The square of a code from 0 to 1023, as a code: darker, with black and white kept. Takes no memory.
pub fn square(code: u16) -> u16
    requires { code ≤ 1023 }
    ensures { result ≡ squared code }
{
    let wide = u32::from(code);
    ((wide * wide + 511) / 1023) as u16
}

/// The table of `square`. Takes no memory.
pub fn square_table() -> ToneTable
    ensures table { result ≡ square_values }

    // So that a caller may keep `square` beside it.
    ensures at { (code : ℕ) → code ≤ 1023 → squared code ≡ slice_index result code }
{
    let mut values = [0u16; 1024];
    for code in 0..1024u16 {
        values[code as usize] = square(code);
    }
    match ToneTable::of(&values) {
        Some(table) => table,
        None => unreachable!(),
    }
}
