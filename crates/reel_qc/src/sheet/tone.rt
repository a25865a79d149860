//! Tone curves, as a house hands them in.
ghost use Rattle.std.specs.Prelude.{◌≡◌, ℕ, ◌≤◌, slice_index};
ghost use Rattle.reel_qc.specs.Tones.{IsToneTable};

use crate::sheet::tone_table::ToneTable;

/// A function of codes from 0 to 1023.
pub type Curve = fn(u16) -> u16;

/// A curve that was handed in, beside the table that it follows.
#[derive(Drop)]
pub struct Tone {
    table: ToneTable,
    curve: Curve,
    // it may be called on every code
    ghost callable: { (code : ℕ) → code ≤ 1023 → Curve.pre curve code },
    // and then it answers the table's value
    ghost follows: { (code value : ℕ) → code ≤ 1023 → Curve.post curve code value → value ≡ slice_index table code },
}

impl Tone {
    /// Keeps a curve that may be called on every code from 0 to 1023, and answers the table's value there. Takes no memory, as
    /// all here.
    pub fn new(table: ToneTable, curve: fn(u16) -> u16) -> Tone
        requires callable { (code : ℕ) → code ≤ 1023 → Curve.pre curve code }
        requires follows { (code value : ℕ) → code ≤ 1023 → Curve.post curve code value → value ≡ slice_index table code }
        ensures { result.table ≡ table }
    {
        Tone { table, curve }
    }

    /// What the curve gives for a code from 0 to 1023, which is the table's value.
    pub fn at(&self, code: u16) -> u16
        requires { code ≤ 1023 }
        ensures value { result ≡ slice_index self.now.table code }
        ensures table { IsToneTable self.now.table }
    {
        self.table.recall();
        (self.curve)(code)
    }
}
